//! The values of simulation files, and their faults.

use dec_text::Decimal;
use deck_shape::{DeckFault, Fault, Name, read_shape};
use kmc_base::{FileId, OutOfMemory};
use run_plan::{Plan, Sampling};
use sim_deck::{SimPart, read};
use std::alloc::{AllocError, Global};
use std::test::Fail;

/// The values of a short text, or its first fault of form or of a value.
fn read_text(alloc: Global, text: &[u8]) -> Result<SimPart, DeckFault> {
    if text.len() > 4096 {
        return Err(DeckFault::OutOfMemory);
    }
    let shape = read_shape(alloc, FileId::Simulation, text)?;
    read(alloc, text, &shape)
}

/// The line and the kind of the fault of a text, if it has one.
fn fault_of(alloc: Global, text: &[u8]) -> Result<Option<(u32, u8)>, OutOfMemory> {
    match read_text(alloc, text) {
        Ok(_) => Ok(None),
        Err(DeckFault::Fault(Fault { line, kind, .. })) => Ok(Some((line, kind))),
        Err(DeckFault::OutOfMemory) => Err(OutOfMemory),
    }
}

/// The plan of a text.
fn plan_of(alloc: Global, text: &[u8]) -> Result<Plan, DeckFault> {
    Ok(read_text(alloc, text)?.plan)
}

/// The temperature and the pressure of a text.
fn gas_phase_of(alloc: Global, text: &[u8]) -> Result<(u32, Decimal), DeckFault> {
    let part = read_text(alloc, text)?;
    Ok((part.temperature, part.pressure))
}

/// Lines above those of a whole file, and the line and the kind of the fault.
const FAULTS: &[(&str, u32, u8)] = &[
    ("max_time x\n", 1, 11),
    ("snapshots on time x\n", 1, 11),
    ("n_gas_species 2\ngas_molar_fracs 2.0 x\n", 2, 11),
    ("n_gas_species 1\ngas_molec_weights x\n", 2, 11),
    ("random_seed 18446744073709551616\n", 1, 12),
    ("wall_time 18446744073709551616\n", 1, 12),
    ("snapshots on event x\n", 1, 12),
    ("snapshots on event 0\n", 1, 13),
    ("snapshots on time 4e-19\n", 1, 13),
    ("snapshots on time 1.1e12\n", 1, 13),
    ("max_time 1.1e12\n", 1, 13),
    ("max_time -1\n", 1, 13),
    ("n_gas_species 1\ngas_molar_fracs 1.1\n", 2, 13),
    ("n_gas_species 1\ngas_molar_fracs -0.1\n", 2, 13),
    ("n_gas_species 1\ngas_molec_weights 1e999\n", 2, 13),
    ("snapshots on\n", 1, 14),
    ("snapshots on time\n", 1, 14),
    ("snapshots off off\n", 1, 14),
    ("snapshots sometimes\n", 1, 14),
    ("n_gas_species 2\ngas_specs_names A\n", 2, 15),
    ("n_gas_species 1\ngas_molec_weights 1 2\n", 2, 15),
    ("n_surf_species 1\n", 4, 15),
    ("n_gas_species 2\ngas_specs_names A A\n", 2, 18),
    ("n_gas_species 1\ngas_specs_names *\n", 2, 19),
    ("n_surf_species 1\nsurf_specs_names &\n", 2, 19),
    ("random_seed -1\nmax_time x\n", 1, 12),
    ("max_time x\nrandom_seed -1\n", 1, 11),
    ("gas_specs_names A B\nn_gas_species 65\n", 2, 13),
    ("n_surf_species 65\n", 1, 13),
    ("max_steps 1099511627776\n", 1, 13),
    ("snapshots on event 1099511627776\n", 1, 13),
    ("n_gas_species 1\ngas_energies 1000.000000001\n", 2, 13),
    ("n_gas_species 1\ngas_energies -1000.000000001\n", 2, 13),
    ("n_surf_species 1\nsurf_specs_dent 9\n", 2, 13),
    ("n_surf_species 1\nsurf_specs_dent 0\n", 2, 13),
    ("process_statistics on\n", 1, 14),
    ("species_numbers on\n", 1, 14),
    ("max_steps 1.0\n", 1, 12),
    ("wall_time 1.0\n", 1, 12),
];

/// Whole files with a fault of the kind 13, and its line.
const OUT_OF_RANGE: &[(&str, u32)] = &[
    ("temperature 0.0004\npressure 1.0\nfinish\n", 1),
    ("temperature 10000.001\npressure 1.0\nfinish\n", 1),
    ("temperature 500.0\npressure 1000000001.0\nfinish\n", 2),
    ("temperature 500.0\npressure -1\nfinish\n", 2),
];

#[test]
fn first_faults(rt: HostRuntime) -> Result<(), Fail> {
    let alloc = rt.alloc();
    for (lines, line, kind) in FAULTS {
        let text = format!(in alloc; "{lines}temperature 500.0\npressure 1.0\nfinish\n")?;
        let fault = fault_of(alloc, text.as_bytes())?;
        assert_eq!(rt; fault, Some((*line, *kind)), "{lines}");
    }
    Ok(())
}

#[test]
fn required_values_out_of_range(rt: HostRuntime) -> Result<(), Fail> {
    for (text, line) in OUT_OF_RANGE {
        let fault = fault_of(rt.alloc(), text.as_bytes())?;
        assert_eq!(rt; fault, Some((*line, 13)), "{text}");
    }
    Ok(())
}

#[test]
fn greatest_values(rt: HostRuntime) -> Result<(), Fail> {
    let text =
        b"random_seed 18446744073709551615\ntemperature 10000.0\npressure 1e9\nn_gas_species 2\ngas_specs_names A B\ngas_energies 1000.0 -1000.0\ngas_molar_fracs 1.0 0.0\nn_surf_species 1\nsurf_specs_names C\nsurf_specs_dent 8\nsnapshots on event 1099511627775\nspecies_numbers on time 1e12\nmax_steps 1099511627775\nmax_time 1e12\nwall_time 18446744073709551615\nfinish\n";
    assert_eq!(rt; fault_of(rt.alloc(), text)?, None);
    Ok(())
}

/// A file of the least values.
const LEAST: &[u8] =
    b"temperature 0.001\npressure 0\nn_surf_species 1\nsurf_specs_names C\nsurf_specs_dent 1\nsnapshots on event\nprocess_statistics on event 1\nspecies_numbers on time 1e-18\nmax_steps 0\nmax_time 0\nwall_time 0\nfinish\n";

#[test]
fn least_values(rt: HostRuntime) -> Result<(), Fail> {
    let plan = Plan {
        seed: 0,
        max_steps: 0,
        max_time: Some(0),
        history: Sampling::Event(1),
        procstat: Sampling::Event(1),
        specnum: Sampling::Time(1),
    };
    assert_eq!(rt; plan_of(rt.alloc(), LEAST)?, plan);
    assert_eq!(rt; gas_phase_of(rt.alloc(), LEAST)?.0, 1);
    Ok(())
}

/// The line of a list with 64 members: a prefix and the numbers from 1 to this one, which then repeats.
fn list_of(alloc: Global, keyword: &str, prefix: &str, most: u32) -> Result<Vec<u8>, AllocError> {
    let mut line = Vec::from_slice(alloc, keyword.as_bytes())?;
    for index in 1..65u32 {
        let number = index.min(most);
        let member = format!(in alloc; " {prefix}{number}")?;
        line.extend_from_slice(member.as_bytes())?;
    }
    line.push(b'\n')?;
    Ok(line)
}

/// The lists of 64 species: the keyword, the prefix of the members, and the number from which on it repeats.
const LISTS: &[(&str, &str, u32)] = &[
    ("gas_specs_names", "G", 64),
    ("gas_energies", "", 64),
    ("gas_molec_weights", "", 64),
    ("gas_molar_fracs", "0.", 64),
    ("surf_specs_names", "S", 64),
    ("surf_specs_dent", "", 8),
];

/// A file of 64 gas species and as many surface species.
fn most_species(alloc: Global) -> Result<Vec<u8>, AllocError> {
    let mut text = Vec::from_slice(
        alloc,
        b"temperature 500.0\npressure 1.0\nn_gas_species 64\nn_surf_species 64\n",
    )?;
    for (keyword, prefix, most) in LISTS {
        text.extend_from_slice(&list_of(alloc, *keyword, *prefix, *most)?)?;
    }
    text.extend_from_slice(b"finish\n")?;
    Ok(text)
}

#[test]
fn files_of_most_species(rt: HostRuntime) -> Result<(), Fail> {
    let text = most_species(rt.alloc())?;
    let part = read_text(rt.alloc(), &text)?;
    assert_eq!(rt; (part.gas.len(), part.surface.len()), (64, 64));
    assert_eq!(rt; part.dentates.as_slice().last(), Some(&8));
    Ok(())
}

/// The dentates of one surface species, and the line and the kind of the fault of the file.
const DENTATES: &[(&str, Option<(u32, u8)>)] = &[("1", None), ("1 1", Some((10, 15)))];

#[test]
fn lengths_of_lists(rt: HostRuntime) -> Result<(), Fail> {
    let alloc = rt.alloc();
    for (dentates, fault) in DENTATES {
        let text = format!(in alloc;
            "random_seed 1\ntemperature 500.0\npressure 1.0\nn_gas_species 1\ngas_specs_names A\ngas_energies 0.0\ngas_molar_fracs 1.0\nn_surf_species 1\nsurf_specs_names A*\nsurf_specs_dent {dentates}\nfinish\n"
        )?;
        assert_eq!(rt; fault_of(alloc, text.as_bytes())?, *fault);
    }
    Ok(())
}

#[test]
fn default_values(rt: HostRuntime) -> Result<(), Fail> {
    let text = b"temperature 500.0\npressure -0.0\nfinish\n";
    let open = Plan {
        seed: 0,
        max_steps: 1_099_511_627_775,
        max_time: None,
        history: Sampling::Off,
        procstat: Sampling::Off,
        specnum: Sampling::Off,
    };
    assert_eq!(rt; plan_of(rt.alloc(), text)?, open);
    let pressure = Decimal {
        negative: false,
        digits: 0,
        power: 0,
    };
    assert_eq!(rt; gas_phase_of(rt.alloc(), text)?.1, pressure);
    Ok(())
}

/// Lines of limits, and the greatest number of events and the time that they set.
const LIMITS: &[(&str, u64, Option<u128>)] = &[
    (
        "max_steps infinity\nmax_time 1e12\nwall_time infinity\n",
        1_099_511_627_775,
        Some(1_000_000_000_000_000_000_000_000_000_000),
    ),
    ("max_time infinity\n", 1_099_511_627_775, None),
];

#[test]
fn limits_without_end(rt: HostRuntime) -> Result<(), Fail> {
    let alloc = rt.alloc();
    for (lines, max_steps, max_time) in LIMITS {
        let text = format!(in alloc; "temperature 500.0\npressure 1.0\n{lines}finish\n")?;
        let plan = plan_of(alloc, text.as_bytes())?;
        assert_eq!(rt; (plan.max_steps, plan.max_time), (*max_steps, *max_time));
    }
    Ok(())
}

/// A file with each word.
const ALL_WORDS: &[u8] =
    b"random_seed 953129\ntemperature 500.0\npressure 1.00\nn_gas_species 3\ngas_specs_names CO O2 CO2\ngas_energies 0.000 0.000 -2.337\ngas_molec_weights 27.9949 31.9898 43.9898\ngas_molar_fracs 0.45 0.55 0.000\nn_surf_species 2\nsurf_specs_names CO* O*\nsurf_specs_dent 1 1\nsnapshots on event 100\nprocess_statistics on event 100\nspecies_numbers on time 1.0e-6\nevent_report off\nmax_steps 500\nmax_time 1.0\nwall_time 3600\nno_restart\nfinish\n";

#[test]
fn plan_of_all_words(rt: HostRuntime) -> Result<(), Fail> {
    let plan = Plan {
        seed: 953_129,
        max_steps: 500,
        max_time: Some(1_000_000_000_000_000_000),
        history: Sampling::Event(100),
        procstat: Sampling::Event(100),
        specnum: Sampling::Time(1_000_000_000_000),
    };
    assert_eq!(rt; plan_of(rt.alloc(), ALL_WORDS)?, plan);
    assert_eq!(rt; gas_phase_of(rt.alloc(), ALL_WORDS)?.0, 500_000);
    Ok(())
}

#[test]
fn lists_of_all_words(rt: HostRuntime) -> Result<(), Fail> {
    let part = read_text(rt.alloc(), ALL_WORDS)?;
    let energies = [0, 0, -2_337_000_000];
    assert_eq!(rt; part.gas_energies.as_slice(), energies.as_slice());
    assert_eq!(rt; part.dentates.as_slice(), [1, 1].as_slice());
    let half = Decimal {
        negative: false,
        digits: 55,
        power: -2,
    };
    assert_eq!(rt; part.gas_fractions.len(), 3);
    assert_eq!(rt; part.gas_fractions.as_slice().get(1), Some(&half));
    Ok(())
}

/// The line and the word of the second of some names.
fn second_name(names: &[Name]) -> Option<(u32, &'static [u8])> {
    let name = names.get(1)?;
    Some((name.line, name.span.bytes(ALL_WORDS)))
}

#[test]
fn names_of_all_words(rt: HostRuntime) -> Result<(), Fail> {
    let part = read_text(rt.alloc(), ALL_WORDS)?;
    assert_eq!(rt; (part.gas.len(), part.surface.len()), (3, 2));
    let second = second_name(part.gas.as_slice());
    assert_eq!(rt; second, Some((5, b"O2".as_slice())));
    Ok(())
}

/// The lists of one gas species and one surface species without one of those that are required.
const INCOMPLETE: &[&str] = &[
    "gas_energies 0\ngas_molar_fracs 1\nsurf_specs_names B\nsurf_specs_dent 1\n",
    "gas_specs_names A\ngas_molar_fracs 1\nsurf_specs_names B\nsurf_specs_dent 1\n",
    "gas_specs_names A\ngas_energies 0\nsurf_specs_names B\nsurf_specs_dent 1\n",
    "gas_specs_names A\ngas_energies 0\ngas_molar_fracs 1\nsurf_specs_dent 1\n",
    "gas_specs_names A\ngas_energies 0\ngas_molar_fracs 1\nsurf_specs_names B\n",
];

#[test]
fn absent_lists(rt: HostRuntime) -> Result<(), Fail> {
    let alloc = rt.alloc();
    for lists in INCOMPLETE {
        let text = format!(in alloc;
            "temperature 500.0\npressure 1.0\nn_gas_species 1\nn_surf_species 1\n{lists}finish\n"
        )?;
        assert_eq!(rt; fault_of(alloc, text.as_bytes())?, Some((9, 15)), "{lists}");
    }
    Ok(())
}
