//! The words of clusters, steps and their variants.

use deck_words::Arguments::{self, Any, Even, Exactly};
use deck_words::Keyword::*;
use deck_words::Need::{self, HereOrInVariants, Optional, Required};
use deck_words::Role::{self, Closes, Opens, Rows, Unsupported, Value};
use deck_words::{BlockForm, Keyword};

/// A word, how many arguments it takes, whether it may be given once only, and what it does; then whether it is needed in
/// each of the blocks of `BLOCKS` that have it so.
type Word = (Keyword, Arguments, bool, Role, &'static [Option<Need>]);

/// The blocks, and how many words each has.
const BLOCKS: &[(BlockForm, usize)] = &[
    (BlockForm::Cluster, 11),
    (BlockForm::ClusterVariant, 7),
    (BlockForm::Step, 15),
    (BlockForm::ReversibleStep, 15),
    (BlockForm::StepVariant, 9),
];

/// Needs of a word.
const NO: Option<Need> = None;

const MAY: Option<Need> = Some(Optional);

const MUST: Option<Need> = Some(Required);

const HERE: Option<Need> = Some(HereOrInVariants);

const ALL: &[Option<Need>] = &[MAY, MAY, MAY, MAY, MAY];

const WORDS: &[Word] = &[
    (GasReacsProds, Even, true, Value, &[NO, NO, MAY, MAY, NO]),
    (Sites, Exactly(1), true, Value, &[MUST, NO, MUST, MUST, NO]),
    (Neighboring, Any, true, Value, &[MAY, NO, MAY, MAY, NO]),
    (Initial, Exactly(0), true, Rows, &[NO, NO, MUST, MUST, NO]),
    (Final, Exactly(0), true, Rows, &[NO, NO, MUST, MUST, NO]),
    (
        LatticeState,
        Exactly(0),
        true,
        Rows,
        &[MUST, NO, NO, NO, NO],
    ),
    (SiteTypes, Any, true, Value, ALL),
    (
        GraphMultiplicity,
        Exactly(1),
        true,
        Value,
        &[MAY, MAY, NO, NO, NO],
    ),
    (
        ClusterEng,
        Exactly(1),
        true,
        Value,
        &[HERE, MAY, NO, NO, NO],
    ),
    (
        PreExpon,
        Exactly(1),
        true,
        Value,
        &[NO, NO, HERE, HERE, MAY],
    ),
    (PeRatio, Exactly(1), true, Value, &[NO, NO, MAY, HERE, MAY]),
    (
        ActivEng,
        Exactly(1),
        true,
        Value,
        &[NO, NO, HERE, HERE, MAY],
    ),
    (
        ProxFactor,
        Exactly(1),
        true,
        Value,
        &[NO, NO, MAY, MAY, MAY],
    ),
    (
        Variant,
        Exactly(1),
        false,
        Opens(BlockForm::ClusterVariant),
        &[MAY, NO, NO, NO, NO],
    ),
    (
        Variant,
        Exactly(1),
        false,
        Opens(BlockForm::StepVariant),
        &[NO, NO, MAY, MAY, NO],
    ),
    (Angles, Any, true, Unsupported, ALL),
    (NoMirrorImages, Any, true, Unsupported, ALL),
    (AbslOrientation, Any, true, Unsupported, ALL),
    (EndCluster, Exactly(0), true, Closes, &[MAY, NO, NO, NO, NO]),
    (EndStep, Exactly(0), true, Closes, &[NO, NO, MAY, NO, NO]),
    (
        EndReversibleStep,
        Exactly(0),
        true,
        Closes,
        &[NO, NO, NO, MAY, NO],
    ),
    (
        EndVariant,
        Exactly(0),
        true,
        Closes,
        &[NO, MAY, NO, NO, MAY],
    ),
];

/// The rule of a word in a block is as in the table, with this need.
fn is_rule(form: BlockForm, word: &Word, need: Need) -> bool {
    let (keyword, arguments, is_once, role, _) = *word;
    match form.rule_for(keyword.spelling()) {
        Some(rule) => {
            (
                rule.keyword,
                rule.arguments,
                rule.is_once,
                rule.need,
                rule.role,
            ) == (keyword, arguments, is_once, need, role)
        }
        None => false,
    }
}

/// The rules of a word are as in its row.
fn has_rules(word: &Word) -> bool {
    for ((form, _), need) in BLOCKS.iter().zip(word.4) {
        if let Some(need) = need {
            if !is_rule(*form, word, *need) {
                return false;
            }
        }
    }
    true
}

#[test]
fn words_of_sections(rt: HostRuntime) {
    for word in WORDS {
        assert!(rt; has_rules(word), "{:?}", word.0);
    }
}

/// How many words the block of a column has in the table.
fn count_in(column: usize) -> usize {
    WORDS
        .iter()
        .filter(|word| matches!(word.4.get(column), Some(Some(_))))
        .count()
}

#[test]
fn numbers_of_words(rt: HostRuntime) {
    for (column, (form, count)) in BLOCKS.iter().enumerate() {
        assert_eq!(rt; form.rules().len(), *count, "{form:?}");
        assert_eq!(rt; count_in(column), *count, "{form:?}");
    }
}
