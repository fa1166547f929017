//! The names in a mechanism file: gas species, surface species and their dentates, and site types.

use crate::first_faults::{ENERGETICS, LATTICE, SIMULATION, fault_of};
use kmc_base::FileId;
use std::alloc::Global;
use std::test::Fail;

/// A step of two sites: its gas changes are on line 3, its site types on line 6, `initial` is line 7, `final` is line 10.
fn step_fault(
    alloc: Global,
    gas: &str,
    types: &str,
    initial: &str,
    after: &str,
) -> Result<Option<(FileId, u32, u8)>, Fail> {
    let text = format!(in alloc;
        "mechanism\nstep one\n{gas}\nsites 2\nneighboring 1-2\n{types}\ninitial\n{initial}\nfinal\n{after}\npre_expon 1\nactiv_eng 0\nend_step\nend_mechanism\n"
    )?;
    fault_of(alloc, SIMULATION, LATTICE, ENERGETICS, text.as_str())
}

/// Two vacant sites, and two sites with an adsorbate each, or with one of two dentates.
const VACANT: &str = "1 * 1\n2 * 1";

const TWO: &str = "1 A* 1\n2 A* 1";

const WHOLE: &str = "1 B** 1\n1 B** 2";

/// Gas changes, site types, both sides, and the line and the kind of the fault; line 0 where there is none.
const CASES: &[(&str, &str, &str, &str, u32, u8)] = &[
    ("gas_reacs_prods A -2", "", VACANT, TWO, 0, 0),
    (
        "gas_reacs_prods A +1",
        "site_types top 2",
        TWO,
        VACANT,
        0,
        0,
    ),
    ("", "site_types hol hol", VACANT, WHOLE, 0, 0),
    ("", "", "1 B** 2\n1 B** 1", WHOLE, 0, 0),
    // unknown names
    ("gas_reacs_prods Q 1", "", VACANT, TWO, 3, 32),
    ("gas_reacs_prods A* 1", "", VACANT, TWO, 3, 32),
    ("gas_reacs_prods A 1 Q 1", "", VACANT, TWO, 3, 32),
    ("", "site_types top brg", VACANT, TWO, 6, 33),
    ("", "site_types top 3", VACANT, TWO, 6, 33),
    ("", "", "1 Q* 1\n2 * 1", TWO, 8, 31),
    ("", "", VACANT, "1 A* 1\n2 A 1", 12, 31),
    // dentates that the species does not have
    ("", "", "1 A* 2\n2 * 1", TWO, 8, 34),
    ("", "", "1 * 2\n2 * 1", TWO, 8, 34),
    ("", "", "1 * 0\n2 * 1", TWO, 8, 34),
    ("", "", VACANT, "1 B** 1\n1 B** 3", 12, 34),
    // missing dentates, at the word of the side
    ("", "", "1 B** 1\n2 * 1", TWO, 7, 35),
    ("", "", "1 B** 2\n2 A* 1", TWO, 7, 35),
    ("", "", VACANT, "1 * 1\n2 B** 1", 10, 35),
    ("", "", VACANT, "1 B** 1\n2 B** 2", 10, 35),
    // a row with a fault, and another entity that lacks a dentate
    ("", "", "1 A* 2\n2 B** 1", TWO, 7, 35),
    ("", "", "1 Q* 1\n2 B** 1", TWO, 7, 35),
    // the first of several
    (
        "gas_reacs_prods Q 1",
        "site_types top brg",
        "1 Q* 1\n2 B** 1",
        TWO,
        3,
        32,
    ),
    ("", "site_types top brg", "1 Q* 1\n2 B** 1", TWO, 6, 33),
    ("", "", "1 B** 1\n2 Q* 1", "1 B** 1\n2 A* 1", 7, 35),
    ("", "", "1 A* 2\n2 * 1", "1 B** 1\n2 A* 1", 8, 34),
    ("", "", VACANT, "1 Q* 1\n2 A* 2", 11, 31),
];

#[test]
fn names_of_a_step(rt: HostRuntime) -> Result<(), Fail> {
    for (gas, types, initial, after, line, kind) in CASES {
        let wanted = match *line {
            0 => None,
            line => Some((FileId::Mechanism, line, *kind)),
        };
        let found = step_fault(rt.alloc(), *gas, *types, *initial, *after)?;
        assert_eq!(rt; found, wanted, "{gas} {types} {initial} {after}");
    }
    Ok(())
}

/// A step of one site with two variants of one name, of which the second states a type on line 11.
fn variant_fault(alloc: Global, word: &str) -> Result<Option<(FileId, u32, u8)>, Fail> {
    let text = format!(in alloc;
        "mechanism\nstep a\nsites 1\ninitial\n1 * 1\nfinal\n1 A* 1\nvariant b\npre_expon 1\nend_variant\nvariant b\nsite_types {word}\npre_expon 1\nend_variant\nactiv_eng 0\nend_step\nstep a:b\nsites 1\ninitial\n1 * 1\nfinal\n1 A* 1\npre_expon 1\nactiv_eng 0\nend_step\nend_mechanism\n"
    )?;
    fault_of(alloc, SIMULATION, LATTICE, ENERGETICS, text.as_str())
}

#[test]
fn names_of_variants(rt: HostRuntime) -> Result<(), Fail> {
    const CASES: &[(&str, Option<(FileId, u32, u8)>)] = &[
        ("top", None),
        ("2", None),
        ("brg", Some((FileId::Mechanism, 12, 33))),
        ("0", Some((FileId::Mechanism, 12, 33))),
    ];
    for (word, wanted) in CASES {
        assert_eq!(rt; variant_fault(rt.alloc(), *word)?, *wanted, "{word}");
    }
    Ok(())
}
