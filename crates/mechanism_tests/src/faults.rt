use crate::decks::{fault_of, with_lines};
use std::test::Fail;

/// A line of the file that is another one, and the line and the kind of its fault.
const OF_LINES: &[(u32, &str, u32, u8)] = &[
    (13, "pre_expon x", 13, 11),
    (14, "pe_ratio x", 14, 11),
    (15, "activ_eng 1..0", 15, 11),
    (16, "prox_factor 1e", 16, 11),
    (3, "gas_reacs_prods A x", 3, 12),
    (3, "gas_reacs_prods A -+1", 3, 12),
    (3, "gas_reacs_prods A +-1", 3, 12),
    (3, "gas_reacs_prods A --1", 3, 12),
    (3, "gas_reacs_prods A ++1", 3, 12),
    (3, "gas_reacs_prods A -", 3, 12),
    (3, "gas_reacs_prods A +", 3, 12),
    (3, "gas_reacs_prods A 1.5", 3, 12),
    (3, "gas_reacs_prods A 18446744073709551616", 3, 12),
    (3, "gas_reacs_prods A -18446744073709551616", 3, 12),
    (4, "sites x", 4, 12),
    (3, "gas_reacs_prods A 0", 3, 13),
    (3, "gas_reacs_prods A -0", 3, 13),
    (3, "gas_reacs_prods A 9", 3, 13),
    (3, "gas_reacs_prods A -9", 3, 13),
    (3, "gas_reacs_prods A 18446744073709551615", 3, 13),
    (4, "sites 0", 4, 13),
    (4, "sites 9", 4, 13),
    (13, "pre_expon -1", 13, 13),
    (13, "pre_expon 1e401", 13, 13),
    (14, "pe_ratio 0", 14, 13),
    (14, "pe_ratio -0.0", 14, 13),
    (14, "pe_ratio -1", 14, 13),
    (15, "activ_eng 1000.000000001", 15, 13),
    (15, "activ_eng -1000.000000001", 15, 13),
    (16, "prox_factor 1.0000000005", 16, 13),
    (16, "prox_factor -0.0000000005", 16, 13),
    (12, "site_types t", 12, 15),
    (12, "site_types t 1 t", 12, 15),
    (7, "1 * 1\n3 Y 1", 6, 16),
    (7, "", 6, 16),
    (11, "2 * 1\n3 Y 1", 9, 16),
    (7, "& & &", 7, 17),
    (10, "& & &", 10, 17),
    (7, "1 *", 7, 17),
    (8, "2 X 1 1", 8, 17),
    (7, "0 * 1", 7, 17),
    (7, "9 * 1", 7, 17),
    (7, "1 & 1", 7, 17),
    (11, "2 * x", 11, 17),
    (3, "gas_reacs_prods A 1 B 1 A 2", 3, 18),
    (5, "neighboring 1-2 2", 5, 20),
    (5, "neighboring 1-2 1-1", 5, 20),
    (5, "neighboring 1-2 1-3", 5, 20),
    (5, "neighboring", 5, 21),
    (5, "", 4, 21),
    (8, "1 * 1", 8, 22),
    (11, "1 X 1", 11, 22),
    (8, "1 X 2", 8, 23),
    (11, "1 Y 2", 11, 23),
    (3, "gas_reacs_prods A x B 9 A 1", 3, 12),
    (3, "gas_reacs_prods A 1 B 9 A 1", 3, 13),
    (8, "1 X 1", 8, 22),
];

#[test]
fn faults_of_lines(rt: HostRuntime) -> Result<(), Fail> {
    let alloc = rt.alloc();
    for (number, words, line, kind) in OF_LINES {
        let text = with_lines(alloc, (*number, *words), (0, ""))?;
        let fault = fault_of(alloc, text.as_bytes())?;
        assert_eq!(rt; fault, Some((*line, *kind)), "{text}");
    }
    Ok(())
}

/// Two lines of the file that are others, and the line and the kind of the earlier of their faults.
const OF_TWO_LINES: &[(u32, &str, u32, &str, u32, u8)] = &[
    (3, "gas_reacs_prods A 0", 13, "pre_expon x", 3, 13),
    (3, "pre_expon x", 13, "gas_reacs_prods A 0", 3, 11),
    (5, "neighboring 1-1", 15, "activ_eng x", 5, 20),
    (5, "activ_eng x", 15, "neighboring 1-1", 5, 11),
    (12, "site_types t", 14, "pe_ratio 0", 12, 15),
    (12, "pe_ratio 0", 14, "site_types t", 12, 13),
    (4, "sites 0", 16, "prox_factor x", 4, 13),
    (4, "prox_factor x", 16, "sites 0", 4, 11),
    (7, "1 *", 11, "1 X 1", 7, 17),
    (8, "1 X 2", 11, "2 *", 8, 23),
    (7, "1 * 1\n3 Y 1", 14, "pe_ratio 0", 6, 16),
    (3, "gas_reacs_prods A 1 A 1", 8, "1 * 1", 3, 18),
    (4, "neighboring x 3-4", 5, "sites 9", 5, 13),
    (4, "site_types t t t", 12, "sites 9", 12, 13),
];

#[test]
fn faults_of_two_lines(rt: HostRuntime) -> Result<(), Fail> {
    let alloc = rt.alloc();
    for (a, first, b, second, line, kind) in OF_TWO_LINES {
        let text = with_lines(alloc, (*a, *first), (*b, *second))?;
        let fault = fault_of(alloc, text.as_bytes())?;
        assert_eq!(rt; fault, Some((*line, *kind)), "{text}");
    }
    Ok(())
}

/// Each kind of block. The second step of the name `a` begins at line 11, before another fault.
const OPENINGS: &[&str] = &["step", "reversible_step"];

#[test]
fn names_differ(rt: HostRuntime) -> Result<(), Fail> {
    let alloc = rt.alloc();
    for word in OPENINGS {
        let text = format!(in alloc;
            "mechanism\nstep a\nsites 1\ninitial\n1 * 1\nfinal\n1 X 1\npre_expon 1\nactiv_eng 1\nend_step\n{word} a\nsites 1\ninitial\n1 * 1\nfinal\n1 X 1\npre_expon 1\npe_ratio 1\nactiv_eng x\nend_{word}\nend_mechanism\n"
        )?;
        let fault = fault_of(alloc, text.as_bytes())?;
        assert_eq!(rt; fault, Some((11, 18)), "{text}");
    }
    Ok(())
}
