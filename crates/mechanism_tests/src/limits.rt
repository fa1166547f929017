use crate::decks::{fault_of, read_text, with_lines};
use std::alloc::{AllocError, Global};
use std::test::Fail;

/// A block of so many variants, and a step without variants, of this pre-exponential factor.
fn many_steps(
    alloc: Global,
    word: &str,
    variants: u32,
    factor: &str,
) -> Result<String, AllocError> {
    let mut text = format!(in alloc;
        "mechanism\n{word} a\nsites 1\ninitial\n1 * 1\nfinal\n1 X 1\npre_expon 1\npe_ratio 1\nactiv_eng 1\n"
    )?;
    for _ in 0..variants {
        text.push_str("variant v\nend_variant\n")?;
    }
    text.push_str("end_")?;
    text.push_str(word)?;
    text.push_str("\nstep b\nsites 1\ninitial\n1 * 1\nfinal\n1 X 1\npre_expon ")?;
    text.push_str(factor)?;
    text.push_str("\nactiv_eng 1\nend_step\nend_mechanism\n")?;
    Ok(text)
}

/// The first of two blocks and the number of its variants, the pre-exponential factor of the other one, and the fault.
const COUNTS: &[(&str, u32, &str, Option<(u32, u8)>)] = &[
    ("step", 1023, "1", None),
    ("step", 1024, "1", Some((2069, 30))),
    ("step", 1024, "x", Some((2066, 11))),
    ("reversible_step", 511, "1", None),
    ("reversible_step", 512, "1", Some((1045, 30))),
];

#[test]
fn there_are_at_most_1024_processes(rt: HostRuntime) -> Result<(), Fail> {
    let alloc = rt.alloc();
    for (word, variants, factor, fault) in COUNTS {
        let text = many_steps(alloc, *word, *variants, *factor)?;
        assert_eq!(rt;
            fault_of(alloc, text.as_bytes())?,
            *fault,
            "{word} {variants}"
        );
    }
    Ok(())
}

#[test]
fn reads_1024_steps(rt: HostRuntime) -> Result<(), Fail> {
    let text = many_steps(rt.alloc(), "step", 1023, "1")?;
    let part = read_text(rt.alloc(), text.as_bytes())?;
    assert_eq!(rt; part.steps.len(), 1024);
    Ok(())
}

/// Lines of the file at a limit.
const ACCEPTED: &[(u32, &str)] = &[
    (0, ""),
    (3, ""),
    (3, "gas_reacs_prods"),
    (3, "gas_reacs_prods A 8 B -8 C +1 D 1"),
    (13, "pre_expon 0"),
    (13, "pre_expon -0"),
    (13, "pre_expon 1e400"),
    (14, "pe_ratio 1e-400"),
    (15, "activ_eng 1000"),
    (15, "activ_eng -1000.000000000"),
    (16, ""),
    (16, "prox_factor 0"),
    (16, "prox_factor 1"),
    (16, "prox_factor 1.0000000004"),
    (16, "prox_factor -0.0000000004"),
    (10, "8 X 8"),
];

#[test]
fn accepts_what_is_at_a_limit(rt: HostRuntime) -> Result<(), Fail> {
    let alloc = rt.alloc();
    for (number, words) in ACCEPTED {
        let text = with_lines(alloc, (*number, *words), (0, ""))?;
        assert_eq!(rt; fault_of(alloc, text.as_bytes())?, None, "{text}");
    }
    Ok(())
}

/// A step with so many changes of gas species.
fn many_changes(alloc: Global, changes: u32) -> Result<String, AllocError> {
    let mut text = String::from_str(alloc, "mechanism\nstep a\ngas_reacs_prods")?;
    for n in 0..changes {
        let change = format!(in alloc; " G{n} 1")?;
        text.push_str(change.as_str())?;
    }
    text.push_str(
        "\nsites 1\ninitial\n1 * 1\nfinal\n1 X 1\npre_expon 1\nactiv_eng 1\nend_step\nend_mechanism\n",
    )?;
    Ok(text)
}

/// How many changes a step has, and how many of them are kept.
const CHANGES: &[(u32, usize)] = &[(1, 1), (64, 64), (65, 65), (66, 65), (1000, 65)];

#[test]
fn keeps_65_changes(rt: HostRuntime) -> Result<(), Fail> {
    let alloc = rt.alloc();
    for (changes, kept) in CHANGES {
        let text = many_changes(alloc, *changes)?;
        let part = read_text(alloc, text.as_bytes())?;
        let counts = part.steps.as_slice().iter().map(|step| step.gas.len());
        assert_eq!(rt; counts.max(), Some(*kept), "{changes}");
    }
    Ok(())
}
