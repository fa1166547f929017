//! The words of each block of the input files, as data: the definitions and the reader go by these tables, and a
//! further word is a further rule. The words are those of the Zacros manual; how many arguments each takes, and which
//! are required, are kmc's own.
//!
//! A line of a table is a word, how many arguments it takes, whether a block has it at most once, whether a block has to
//! have it, and what it does.

ghost use Rattle.std.specs.Prelude.{◌≡◌, map, not};
ghost use Rattle.std.specs.Option.{option_copied};
ghost use Rattle.deck_words.specs.Tables.{allows, is_spelled, rule_for, rules_of};
ghost use Rattle.deck_words.specs.Needs.{is_repeatable, needed_words, needs_of};
ghost use Rattle.deck_words.specs.declared.table.BlockForm.{BlockForm as Form};

use crate::keyword::Keyword;
use Arguments::{Any, Between, Even, Exactly};
use Need::{HereOrInVariants, Optional, Required, ThisOr};
use Role::{Begins, BeginsLattice, Closes, Encloses, Opens, Rows, Unsupported, Value};

/// A block of an input file.
#[derive(Clone, Copy, Debug, PartialEq, Eq)]
pub enum BlockForm {
    /// The file `simulation_input.dat`, which is a block as a whole.
    Simulation,
    /// The file `lattice_input.dat` before its block is opened.
    LatticeFile,
    /// `lattice default_choice`.
    DefaultChoice,
    /// `lattice periodic_cell`.
    PeriodicCell,
    /// `lattice explicit`.
    Explicit,
    /// The rows of `neighboring_structure`.
    NeighboringStructure,
    /// The rows of `lattice_structure`.
    LatticeStructure,
    /// The file `energetics_input.dat` before its block is opened.
    EnergeticsFile,
    /// `energetics`.
    Energetics,
    /// `cluster`.
    Cluster,
    /// `variant` in a cluster.
    ClusterVariant,
    /// The file `mechanism_input.dat` before its block is opened.
    MechanismFile,
    /// `mechanism`.
    Mechanism,
    /// `step`.
    Step,
    /// `reversible_step`.
    ReversibleStep,
    /// `variant` in a step of either kind.
    StepVariant,
    /// The file `state_input.dat` before its block is opened.
    StateFile,
    /// `initial_state`.
    InitialState,
}

/// How many arguments a word takes.
#[derive(Clone, Copy, Debug, PartialEq, Eq)]
pub enum Arguments {
    /// This number of them.
    Exactly(usize),
    /// From the first number to the second.
    Between(usize, usize),
    /// Any number of them.
    Any,
    /// Pairs of them.
    Even,
}

/// Whether a block has to have a word.
#[derive(Clone, Copy, Debug, PartialEq, Eq)]
pub enum Need {
    /// It may be absent.
    Optional,
    /// The block has to have it.
    Required,
    /// The block has to have this word or the other one. The two count as one word.
    ThisOr(Keyword),
    /// The block has to have it, or else it has to have variants, each of which has it.
    HereOrInVariants,
}

/// What a word does.
#[derive(Clone, Copy, Debug, PartialEq, Eq)]
pub enum Role {
    /// It has its value on its line.
    Value,
    /// It has rows below its line.
    Rows,
    /// It has rows below its line, up to the closing word of this block, which knows no other word.
    Encloses(BlockForm),
    /// It opens a block within its block.
    Opens(BlockForm),
    /// It opens the one block of the file.
    Begins(BlockForm),
    /// It opens the block of the lattice file that its argument names.
    BeginsLattice,
    /// It closes its block.
    Closes,
    /// It is a word of the Zacros manual that kmc does not support.
    Unsupported,
}

/// A word of a block.
#[derive(Clone, Copy, Debug)]
pub struct Rule {
    /// The word.
    pub keyword: Keyword,
    /// How many arguments it takes.
    pub arguments: Arguments,
    /// A block has it at most once.
    pub is_once: bool,
    /// Whether a block has to have it.
    pub need: Need,
    /// What it does.
    pub role: Role,
}

/// A table of rules, each on a line of its own.
macro_rules! rules {
    ($($keyword:ident: $arguments:expr, $is_once:expr, $need:expr, $role:expr;)*) => {
        [$(Rule {
            keyword: Keyword::$keyword,
            arguments: $arguments,
            is_once: $is_once,
            need: $need,
            role: $role,
        }),*]
    };
}

/// The words of `simulation_input.dat`, which is a block as a whole.
pub const SIMULATION: [Rule; 21] = rules! {
    RandomSeed: Exactly(1), true, Optional, Value;
    Temperature: Exactly(1), true, Required, Value;
    Pressure: Exactly(1), true, Required, Value;
    NGasSpecies: Exactly(1), true, Optional, Value;
    GasSpecsNames: Any, true, Optional, Value;
    GasEnergies: Any, true, Optional, Value;
    GasMolecWeights: Any, true, Optional, Value;
    GasMolarFracs: Any, true, Optional, Value;
    NSurfSpecies: Exactly(1), true, Optional, Value;
    SurfSpecsNames: Any, true, Optional, Value;
    SurfSpecsDent: Any, true, Optional, Value;
    Snapshots: Between(1, 3), true, Optional, Value;
    ProcessStatistics: Between(1, 3), true, Optional, Value;
    SpeciesNumbers: Between(1, 3), true, Optional, Value;
    EventReport: Between(1, 3), true, Optional, Value;
    MaxSteps: Exactly(1), true, Optional, Value;
    MaxTime: Exactly(1), true, Optional, Value;
    WallTime: Exactly(1), true, Optional, Value;
    NoRestart: Exactly(0), true, Optional, Value;
    OverrideArrayBounds: Any, true, Optional, Unsupported;
    Finish: Exactly(0), true, Optional, Closes;
};

/// The words of `lattice_input.dat` before its block is opened.
pub const LATTICE_FILE: [Rule; 1] = rules! {
    Lattice: Exactly(1), true, Optional, BeginsLattice;
};

/// The words of `lattice default_choice`.
pub const DEFAULT_CHOICE: [Rule; 4] = rules! {
    RectangularPeriodic: Exactly(3), true, ThisOr(Keyword::HexagonalPeriodic), Value;
    HexagonalPeriodic: Exactly(3), true, ThisOr(Keyword::RectangularPeriodic), Value;
    TriangularPeriodic: Any, true, Optional, Unsupported;
    EndLattice: Exactly(0), true, Optional, Closes;
};

/// The words of `lattice periodic_cell`.
pub const PERIODIC_CELL: [Rule; 9] = rules! {
    CellVectors: Exactly(0), true, Optional, Rows;
    RepeatCell: Exactly(2), true, Required, Value;
    NCellSites: Exactly(1), true, Required, Value;
    NSiteTypes: Exactly(1), true, Required, Value;
    SiteTypeNames: Any, true, Required, Value;
    SiteTypes: Any, true, Required, Value;
    SiteCoordinates: Exactly(0), true, Optional, Rows;
    NeighboringStructure: Exactly(0), true, Required, Encloses(BlockForm::NeighboringStructure);
    EndLattice: Exactly(0), true, Optional, Closes;
};

/// The words of `lattice explicit`.
pub const EXPLICIT: [Rule; 6] = rules! {
    NSites: Exactly(1), true, Required, Value;
    MaxCoord: Exactly(1), true, Optional, Value;
    NSiteTypes: Exactly(1), true, Required, Value;
    SiteTypeNames: Any, true, Required, Value;
    LatticeStructure: Exactly(0), true, Required, Encloses(BlockForm::LatticeStructure);
    EndLattice: Exactly(0), true, Optional, Closes;
};

/// The words of the rows of `neighboring_structure`.
pub const NEIGHBORING_STRUCTURE: [Rule; 1] = rules! {
    EndNeighboringStructure: Exactly(0), true, Optional, Closes;
};

/// The words of the rows of `lattice_structure`.
pub const LATTICE_STRUCTURE: [Rule; 1] = rules! {
    EndLatticeStructure: Exactly(0), true, Optional, Closes;
};

/// The words of `energetics_input.dat` before its block is opened.
pub const ENERGETICS_FILE: [Rule; 1] = rules! {
    Energetics: Exactly(0), true, Optional, Begins(BlockForm::Energetics);
};

/// The words of `energetics`.
pub const ENERGETICS: [Rule; 2] = rules! {
    Cluster: Exactly(1), false, Optional, Opens(BlockForm::Cluster);
    EndEnergetics: Exactly(0), true, Optional, Closes;
};

/// The words of `cluster`.
pub const CLUSTER: [Rule; 11] = rules! {
    Sites: Exactly(1), true, Required, Value;
    Neighboring: Any, true, Optional, Value;
    LatticeState: Exactly(0), true, Required, Rows;
    SiteTypes: Any, true, Optional, Value;
    GraphMultiplicity: Exactly(1), true, Optional, Value;
    ClusterEng: Exactly(1), true, HereOrInVariants, Value;
    Variant: Exactly(1), false, Optional, Opens(BlockForm::ClusterVariant);
    Angles: Any, true, Optional, Unsupported;
    NoMirrorImages: Any, true, Optional, Unsupported;
    AbslOrientation: Any, true, Optional, Unsupported;
    EndCluster: Exactly(0), true, Optional, Closes;
};

/// The words of `variant` in a cluster.
pub const CLUSTER_VARIANT: [Rule; 7] = rules! {
    SiteTypes: Any, true, Optional, Value;
    GraphMultiplicity: Exactly(1), true, Optional, Value;
    ClusterEng: Exactly(1), true, Optional, Value;
    Angles: Any, true, Optional, Unsupported;
    NoMirrorImages: Any, true, Optional, Unsupported;
    AbslOrientation: Any, true, Optional, Unsupported;
    EndVariant: Exactly(0), true, Optional, Closes;
};

/// The words of `mechanism_input.dat` before its block is opened.
pub const MECHANISM_FILE: [Rule; 1] = rules! {
    Mechanism: Exactly(0), true, Optional, Begins(BlockForm::Mechanism);
};

/// The words of `mechanism`.
pub const MECHANISM: [Rule; 3] = rules! {
    Step: Exactly(1), false, Optional, Opens(BlockForm::Step);
    ReversibleStep: Exactly(1), false, Optional, Opens(BlockForm::ReversibleStep);
    EndMechanism: Exactly(0), true, Optional, Closes;
};

/// The words of `step`.
pub const STEP: [Rule; 15] = rules! {
    GasReacsProds: Even, true, Optional, Value;
    Sites: Exactly(1), true, Required, Value;
    Neighboring: Any, true, Optional, Value;
    Initial: Exactly(0), true, Required, Rows;
    Final: Exactly(0), true, Required, Rows;
    SiteTypes: Any, true, Optional, Value;
    PreExpon: Exactly(1), true, HereOrInVariants, Value;
    PeRatio: Exactly(1), true, Optional, Value;
    ActivEng: Exactly(1), true, HereOrInVariants, Value;
    ProxFactor: Exactly(1), true, Optional, Value;
    Variant: Exactly(1), false, Optional, Opens(BlockForm::StepVariant);
    Angles: Any, true, Optional, Unsupported;
    NoMirrorImages: Any, true, Optional, Unsupported;
    AbslOrientation: Any, true, Optional, Unsupported;
    EndStep: Exactly(0), true, Optional, Closes;
};

/// The words of `reversible_step`.
pub const REVERSIBLE_STEP: [Rule; 15] = rules! {
    GasReacsProds: Even, true, Optional, Value;
    Sites: Exactly(1), true, Required, Value;
    Neighboring: Any, true, Optional, Value;
    Initial: Exactly(0), true, Required, Rows;
    Final: Exactly(0), true, Required, Rows;
    SiteTypes: Any, true, Optional, Value;
    PreExpon: Exactly(1), true, HereOrInVariants, Value;
    PeRatio: Exactly(1), true, HereOrInVariants, Value;
    ActivEng: Exactly(1), true, HereOrInVariants, Value;
    ProxFactor: Exactly(1), true, Optional, Value;
    Variant: Exactly(1), false, Optional, Opens(BlockForm::StepVariant);
    Angles: Any, true, Optional, Unsupported;
    NoMirrorImages: Any, true, Optional, Unsupported;
    AbslOrientation: Any, true, Optional, Unsupported;
    EndReversibleStep: Exactly(0), true, Optional, Closes;
};

/// The words of `variant` in a step of either kind.
pub const STEP_VARIANT: [Rule; 9] = rules! {
    SiteTypes: Any, true, Optional, Value;
    PreExpon: Exactly(1), true, Optional, Value;
    PeRatio: Exactly(1), true, Optional, Value;
    ActivEng: Exactly(1), true, Optional, Value;
    ProxFactor: Exactly(1), true, Optional, Value;
    Angles: Any, true, Optional, Unsupported;
    NoMirrorImages: Any, true, Optional, Unsupported;
    AbslOrientation: Any, true, Optional, Unsupported;
    EndVariant: Exactly(0), true, Optional, Closes;
};

/// The words of `state_input.dat` before its block is opened.
pub const STATE_FILE: [Rule; 1] = rules! {
    InitialState: Exactly(0), true, Optional, Begins(BlockForm::InitialState);
};

/// The words of `initial_state`.
pub const INITIAL_STATE: [Rule; 3] = rules! {
    SeedOnSites: Any, false, Optional, Value;
    SeedMultiple: Any, true, Optional, Unsupported;
    EndInitialState: Exactly(0), true, Optional, Closes;
};

impl BlockForm {
    /// The words of the block.
    pub fn rules(self) -> &'static [Rule]
        ensures { result.now ≡ rules_of self }
    {
        match self {
            BlockForm::Simulation => &SIMULATION,
            BlockForm::LatticeFile => &LATTICE_FILE,
            BlockForm::DefaultChoice => &DEFAULT_CHOICE,
            BlockForm::PeriodicCell => &PERIODIC_CELL,
            BlockForm::Explicit => &EXPLICIT,
            BlockForm::NeighboringStructure => &NEIGHBORING_STRUCTURE,
            BlockForm::LatticeStructure => &LATTICE_STRUCTURE,
            BlockForm::EnergeticsFile => &ENERGETICS_FILE,
            BlockForm::Energetics => &ENERGETICS,
            BlockForm::Cluster => &CLUSTER,
            BlockForm::ClusterVariant => &CLUSTER_VARIANT,
            BlockForm::MechanismFile => &MECHANISM_FILE,
            BlockForm::Mechanism => &MECHANISM,
            BlockForm::Step => &STEP,
            BlockForm::ReversibleStep => &REVERSIBLE_STEP,
            BlockForm::StepVariant => &STEP_VARIANT,
            BlockForm::StateFile => &STATE_FILE,
            BlockForm::InitialState => &INITIAL_STATE,
        }
    }
    /// The rule of a word, if the block has the word.
    pub fn rule_for(self, word: &[u8]) -> Option<&'static Rule>
        ensures { option_copied result ≡ rule_for self word.now }
    {
        self.rules()
            .iter()
            .find(|rule| is_spelled(rule.keyword, word))
    }
}

impl Arguments {
    /// So many arguments are allowed.
    pub fn allow(self, count: usize) -> bool
        ensures { result ≡ allows self count }
    {
        match self {
            Arguments::Exactly(n) => count == n,
            Arguments::Between(least, most) => least <= count && count <= most,
            Arguments::Any => true,
            Arguments::Even => count % 2 == 0,
        }
    }
}

/// A word is spelled as a keyword.
pub fn is_spelled(keyword: Keyword, word: &[u8]) -> bool
    ensures { result ≡ is_spelled keyword word.now }
{
    keyword.spelling() == word
}

/// The words of the tables that a block may have more than once. It does nothing: its contract is a law.
pub fn repeatable_words_of_blocks()
    ensures { (form : Form) → map (λ rule. rule.is_once) (rules_of form) ≡ map (λ rule. not (is_repeatable rule.keyword)) (rules_of form) }
{}

/// The words of the tables that a block has to have. It does nothing: its contract is a law.
pub fn needs_of_blocks()
    ensures { (form : Form) → needed_words (rules_of form) ≡ needs_of form }
{}
