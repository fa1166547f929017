use crate::decks::read_text;
use dec_text::Decimal;
use deck_shape::Name;
use mechanism_deck::StepPart;
use pattern_rows::StateRow;
use std::process::Abort;
use std::test::Fail;

/// Every word of the file. Variant b takes words of the step around it from lines below it, variant c from lines above it,
/// and variant a one from below.
const DECK: &[u8] =
    b"# adsorption, diffusion and desorption\nmechanism\nstep ads\ngas_reacs_prods CO -1 H2 +2 O2 3\nsites 1\ninitial\n1 * 1\nfinal\n1 CO* 1\nsite_types top\npre_expon 1.5e6\npe_ratio 0.5\nactiv_eng 0.25\nend_step\nreversible_step hop\nsites 2\nneighboring 2-1 1-2\ninitial\n1 CO* 1\n2 * 1\nfinal\n1 * 1\n2 CO* 1\nvariant a\nsite_types top 2\npre_expon 1e13\nactiv_eng -0.1\nprox_factor 0.25\nend_variant\nvariant b\npe_ratio 4\nend_variant\nsite_types bridge top\npre_expon 2e12\npe_ratio 1\nactiv_eng 0.75\nvariant c\nsite_types hollow 1\nprox_factor 1\nend_variant\nend_reversible_step\nstep des\nsites 1\ninitial\n1 CO* 1\nfinal\n1 * 1\npre_expon 0\nactiv_eng 1e-9\nprox_factor 0\nend_step\nend_mechanism\n";

/// A word, and its line.
type Word = (&'static [u8], u32);

/// What a row wants: an entity, a species and a dentate.
type Row = (u8, Word, u64);

/// What all variants of a step have in common: its name, whether it is reversible, its changes of gas species, sites and edges,
/// and its rows before and after with the lines of their words.
type Body = (
    Word,
    bool,
    &'static [(Word, i8)],
    u8,
    &'static [(u8, u8)],
    (u32, &'static [Row]),
    (u32, &'static [Row]),
);

/// What a variant has of its own: its name, types, pre-exponential factor and ratio by digits and power, activation energy
/// and proximity factor.
type Variant = (
    Option<Word>,
    &'static [Word],
    (u64, i32),
    Option<(u64, i32)>,
    i64,
    u32,
);

const ADSORPTION: Body = (
    (b"ads", 3),
    false,
    &[((b"CO", 4), -1), ((b"H2", 4), 2), ((b"O2", 4), 3)],
    1,
    &[],
    (6, &[(1, (b"*", 7), 1)]),
    (8, &[(1, (b"CO*", 9), 1)]),
);

const HOP: Body = (
    (b"hop", 15),
    true,
    &[],
    2,
    &[(1, 2)],
    (18, &[(1, (b"CO*", 19), 1), (2, (b"*", 20), 1)]),
    (21, &[(1, (b"*", 22), 1), (2, (b"CO*", 23), 1)]),
);

const DESORPTION: Body = (
    (b"des", 42),
    false,
    &[],
    1,
    &[],
    (44, &[(1, (b"CO*", 45), 1)]),
    (46, &[(1, (b"*", 47), 1)]),
);

const STEPS: &[(Body, Variant)] = &[
    (
        ADSORPTION,
        (
            None,
            &[(b"top", 10)],
            (15, 5),
            Some((5, -1)),
            250_000_000,
            500_000_000,
        ),
    ),
    (
        HOP,
        (
            Some((b"a", 24)),
            &[(b"top", 25), (b"2", 25)],
            (1, 13),
            Some((1, 0)),
            -100_000_000,
            250_000_000,
        ),
    ),
    (
        HOP,
        (
            Some((b"b", 30)),
            &[(b"bridge", 33), (b"top", 33)],
            (2, 12),
            Some((4, 0)),
            750_000_000,
            500_000_000,
        ),
    ),
    (
        HOP,
        (
            Some((b"c", 37)),
            &[(b"hollow", 38), (b"1", 38)],
            (2, 12),
            Some((1, 0)),
            750_000_000,
            1_000_000_000,
        ),
    ),
    (DESORPTION, (None, &[], (0, 0), None, 1, 0)),
];

const TYPE_WORDS: &[Word] = &[
    (b"top", 10),
    (b"top", 25),
    (b"2", 25),
    (b"bridge", 33),
    (b"top", 33),
    (b"hollow", 38),
    (b"1", 38),
];

fn is_word(name: &Name, want: &Word) -> bool {
    name.span.bytes(DECK) == want.0 && name.line == want.1
}

fn are_words(names: &[Name], want: &[Word]) -> bool {
    for (name, word) in names.iter().zip(want) {
        if !is_word(name, word) {
            return false;
        }
    }
    names.len() == want.len()
}

fn is_name(name: &Option<Name>, want: &Option<Word>) -> bool {
    match (name, want) {
        (None, None) => true,
        (Some(name), Some(word)) => is_word(name, word),
        _ => false,
    }
}

fn are_changes(gas: &[(Name, i8)], want: &[(Word, i8)]) -> bool {
    for (change, wanted) in gas.iter().zip(want) {
        if !is_word(&change.0, &wanted.0) || change.1 != wanted.1 {
            return false;
        }
    }
    gas.len() == want.len()
}

fn is_row(row: &StateRow, want: &Row) -> bool {
    match row {
        StateRow::Any => false,
        StateRow::Is {
            entity,
            species,
            dentate,
        } => *entity == want.0 && *dentate == want.2 && is_word(species, &want.1),
    }
}

fn are_rows(rows: &[StateRow], want: &[Row]) -> bool {
    for (row, wanted) in rows.iter().zip(want) {
        if !is_row(row, wanted) {
            return false;
        }
    }
    rows.len() == want.len()
}

fn is_decimal(n: &Decimal, want: (u64, i32)) -> bool {
    !n.negative && n.digits == want.0 && n.power == want.1
}

fn is_ratio(ratio: &Option<Decimal>, want: &Option<(u64, i32)>) -> bool {
    match (ratio, want) {
        (None, None) => true,
        (Some(ratio), Some(wanted)) => is_decimal(ratio, *wanted),
        _ => false,
    }
}

fn compare_body(rt: &impl Abort, step: &StepPart, want: &Body) {
    let (name, reversible, gas, sites, edges, before, after) = want;
    assert!(rt; is_word(&step.name, name));
    assert_eq!(rt; step.reversible, *reversible);
    assert!(rt; are_changes(step.gas.as_slice(), *gas));
    assert_eq!(rt; step.sites, *sites);
    assert_eq!(rt; step.edges.as_slice(), *edges);
    assert_eq!(rt; step.initial_line, before.0);
    assert!(rt; are_rows(step.before.as_slice(), before.1));
    assert_eq!(rt; step.final_line, after.0);
    assert!(rt; are_rows(step.after.as_slice(), after.1));
}

fn compare_variant(rt: &impl Abort, step: &StepPart, want: &Variant) {
    let (name, types, factor, ratio, activation, proximity) = want;
    assert!(rt; is_name(&step.variant, name));
    assert!(rt; are_words(step.types.as_slice(), *types));
    assert!(rt; is_decimal(&step.pre_expon, *factor));
    assert!(rt; is_ratio(&step.pe_ratio, ratio));
    assert_eq!(rt; step.activation, *activation);
    assert_eq!(rt; step.proximity, *proximity);
}

#[test]
fn reads_all_words(rt: HostRuntime) -> Result<(), Fail> {
    let part = read_text(rt.alloc(), DECK)?;
    let steps = part.steps.as_slice();
    assert_eq!(rt; steps.len(), 5);
    for (step, (body, variant)) in steps.iter().zip(STEPS) {
        compare_body(&rt, step, body);
        compare_variant(&rt, step, variant);
    }
    assert!(rt; are_words(part.type_words.as_slice(), TYPE_WORDS));
    Ok(())
}
