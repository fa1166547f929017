use dec_text::Decimal;
use deck_shape::Name;
use kmc_base::Sequence;
use pattern_rows::StateRow;

/// A step of a mechanism file: a block without variants, or a variant.
#[derive(Debug, Drop)]
pub struct StepPart {
    /// The name of the block.
    pub name: Name,
    /// The name of the variant, where it is one.
    pub variant: Option<Name>,
    /// Whether it is a `reversible_step`, which is a forward and a reverse process.
    pub reversible: bool,
    /// How the number of each of some gas species changes, in the order of the file: by 1 to 8, up or down. No species is
    /// there twice. Of a list that is longer than there can be gas species the first 65 are kept, one of which is none.
    pub gas: Sequence<(Name, i8)>,
    /// How many sites it has, from 1 to 8.
    pub sites: u8,
    /// The edges between its sites, which are numbered from 1: each once, the lesser site first, in rising order.
    pub edges: Sequence<(u8, u8)>,
    /// What each site holds before the step.
    pub before: Sequence<StateRow>,
    /// What each site holds after it.
    pub after: Sequence<StateRow>,
    /// The line of the word `initial`.
    pub initial_line: u32,
    /// The line of the word `final`.
    pub final_line: u32,
    /// The type of each site, by its number or its name; none where any types will do.
    pub types: Sequence<Name>,
    /// The pre-exponential factor, 0 or more, in 1/s.
    pub pre_expon: Decimal,
    /// The pre-exponential factor over that of the reverse process, above 0; a reversible step has one. It has no effect in
    /// another step.
    pub pe_ratio: Option<Decimal>,
    /// The activation energy, in neV.
    pub activation: i64,
    /// The proximity factor, from 0 to 1, in units of 10^-9.
    pub proximity: u32,
}

/// The values of a mechanism file.
#[derive(Debug, Drop)]
pub struct MechanismPart {
    /// The steps in the order of the file, one for each variant; at most 1,024 processes.
    pub steps: Sequence<StepPart>,
    /// The type words of the file, in order, also those that no variant needs.
    pub type_words: Sequence<Name>,
}
