//! The words of the blocks that have no sections, row by row, and how words are spelled.

use deck_words::Arguments::{self, Any, Between, Exactly};
use deck_words::Keyword::*;
use deck_words::Need::{self, Optional, Required, ThisOr};
use deck_words::Role::{
    self, Begins, BeginsLattice, Closes, Encloses, Opens, Rows, Unsupported, Value,
};
use deck_words::{BlockForm, Keyword, Rule};

/// A word, how many arguments it takes, whether it may be given once only, whether it is needed, and what it does.
type Row = (Keyword, Arguments, bool, Need, Role);

const SIMULATION: &[Row] = &[
    (RandomSeed, Exactly(1), true, Optional, Value),
    (Temperature, Exactly(1), true, Required, Value),
    (Pressure, Exactly(1), true, Required, Value),
    (NGasSpecies, Exactly(1), true, Optional, Value),
    (GasSpecsNames, Any, true, Optional, Value),
    (GasEnergies, Any, true, Optional, Value),
    (GasMolecWeights, Any, true, Optional, Value),
    (GasMolarFracs, Any, true, Optional, Value),
    (NSurfSpecies, Exactly(1), true, Optional, Value),
    (SurfSpecsNames, Any, true, Optional, Value),
    (SurfSpecsDent, Any, true, Optional, Value),
    (Snapshots, Between(1, 3), true, Optional, Value),
    (ProcessStatistics, Between(1, 3), true, Optional, Value),
    (SpeciesNumbers, Between(1, 3), true, Optional, Value),
    (EventReport, Between(1, 3), true, Optional, Value),
    (MaxSteps, Exactly(1), true, Optional, Value),
    (MaxTime, Exactly(1), true, Optional, Value),
    (WallTime, Exactly(1), true, Optional, Value),
    (NoRestart, Exactly(0), true, Optional, Value),
    (OverrideArrayBounds, Any, true, Optional, Unsupported),
    (Finish, Exactly(0), true, Optional, Closes),
];

const LATTICE_FILE: &[Row] = &[(Lattice, Exactly(1), true, Optional, BeginsLattice)];

const DEFAULT_CHOICE: &[Row] = &[
    (
        RectangularPeriodic,
        Exactly(3),
        true,
        ThisOr(HexagonalPeriodic),
        Value,
    ),
    (
        HexagonalPeriodic,
        Exactly(3),
        true,
        ThisOr(RectangularPeriodic),
        Value,
    ),
    (TriangularPeriodic, Any, true, Optional, Unsupported),
    (EndLattice, Exactly(0), true, Optional, Closes),
];

const PERIODIC_CELL: &[Row] = &[
    (CellVectors, Exactly(0), true, Optional, Rows),
    (RepeatCell, Exactly(2), true, Required, Value),
    (NCellSites, Exactly(1), true, Required, Value),
    (NSiteTypes, Exactly(1), true, Required, Value),
    (SiteTypeNames, Any, true, Required, Value),
    (SiteTypes, Any, true, Required, Value),
    (SiteCoordinates, Exactly(0), true, Optional, Rows),
    (
        NeighboringStructure,
        Exactly(0),
        true,
        Required,
        Encloses(BlockForm::NeighboringStructure),
    ),
    (EndLattice, Exactly(0), true, Optional, Closes),
];

const EXPLICIT: &[Row] = &[
    (NSites, Exactly(1), true, Required, Value),
    (MaxCoord, Exactly(1), true, Optional, Value),
    (NSiteTypes, Exactly(1), true, Required, Value),
    (SiteTypeNames, Any, true, Required, Value),
    (
        LatticeStructure,
        Exactly(0),
        true,
        Required,
        Encloses(BlockForm::LatticeStructure),
    ),
    (EndLattice, Exactly(0), true, Optional, Closes),
];

const NEIGHBORING_ROWS: &[Row] = &[(EndNeighboringStructure, Exactly(0), true, Optional, Closes)];

const LATTICE_ROWS: &[Row] = &[(EndLatticeStructure, Exactly(0), true, Optional, Closes)];

const ENERGETICS_FILE: &[Row] = &[(
    Energetics,
    Exactly(0),
    true,
    Optional,
    Begins(BlockForm::Energetics),
)];

const ENERGETICS: &[Row] = &[
    (
        Cluster,
        Exactly(1),
        false,
        Optional,
        Opens(BlockForm::Cluster),
    ),
    (EndEnergetics, Exactly(0), true, Optional, Closes),
];

const MECHANISM_FILE: &[Row] = &[(
    Mechanism,
    Exactly(0),
    true,
    Optional,
    Begins(BlockForm::Mechanism),
)];

const MECHANISM: &[Row] = &[
    (Step, Exactly(1), false, Optional, Opens(BlockForm::Step)),
    (
        ReversibleStep,
        Exactly(1),
        false,
        Optional,
        Opens(BlockForm::ReversibleStep),
    ),
    (EndMechanism, Exactly(0), true, Optional, Closes),
];

const STATE_FILE: &[Row] = &[(
    InitialState,
    Exactly(0),
    true,
    Optional,
    Begins(BlockForm::InitialState),
)];

const INITIAL_STATE: &[Row] = &[
    (SeedOnSites, Any, false, Optional, Value),
    (SeedMultiple, Any, true, Optional, Unsupported),
    (EndInitialState, Exactly(0), true, Optional, Closes),
];

const BLOCKS: &[(BlockForm, &[Row])] = &[
    (BlockForm::Simulation, SIMULATION),
    (BlockForm::LatticeFile, LATTICE_FILE),
    (BlockForm::DefaultChoice, DEFAULT_CHOICE),
    (BlockForm::PeriodicCell, PERIODIC_CELL),
    (BlockForm::Explicit, EXPLICIT),
    (BlockForm::NeighboringStructure, NEIGHBORING_ROWS),
    (BlockForm::LatticeStructure, LATTICE_ROWS),
    (BlockForm::EnergeticsFile, ENERGETICS_FILE),
    (BlockForm::Energetics, ENERGETICS),
    (BlockForm::MechanismFile, MECHANISM_FILE),
    (BlockForm::Mechanism, MECHANISM),
    (BlockForm::StateFile, STATE_FILE),
    (BlockForm::InitialState, INITIAL_STATE),
];

/// A rule is that of a row.
fn is_rule(rule: &Rule, row: &Row) -> bool {
    (
        rule.keyword,
        rule.arguments,
        rule.is_once,
        rule.need,
        rule.role,
    ) == *row
}

/// The words of a block are those of these rows.
fn has_rules(form: BlockForm, rows: &[Row]) -> bool {
    let rules = form.rules();
    if rules.len() != rows.len() {
        return false;
    }
    for (rule, row) in rules.iter().zip(rows) {
        if !is_rule(rule, row) {
            return false;
        }
    }
    true
}

#[test]
fn words_of_blocks(rt: HostRuntime) {
    for (form, rows) in BLOCKS {
        assert!(rt; has_rules(*form, *rows), "{form:?}");
    }
}

const SPELLINGS: &[(Keyword, &str)] = &[
    (RandomSeed, "random_seed"),
    (Temperature, "temperature"),
    (Pressure, "pressure"),
    (NGasSpecies, "n_gas_species"),
    (GasSpecsNames, "gas_specs_names"),
    (GasEnergies, "gas_energies"),
    (GasMolecWeights, "gas_molec_weights"),
    (GasMolarFracs, "gas_molar_fracs"),
    (NSurfSpecies, "n_surf_species"),
    (SurfSpecsNames, "surf_specs_names"),
    (SurfSpecsDent, "surf_specs_dent"),
    (Snapshots, "snapshots"),
    (ProcessStatistics, "process_statistics"),
    (SpeciesNumbers, "species_numbers"),
    (EventReport, "event_report"),
    (MaxSteps, "max_steps"),
    (MaxTime, "max_time"),
    (WallTime, "wall_time"),
    (NoRestart, "no_restart"),
    (OverrideArrayBounds, "override_array_bounds"),
    (Finish, "finish"),
    (Lattice, "lattice"),
    (RectangularPeriodic, "rectangular_periodic"),
    (HexagonalPeriodic, "hexagonal_periodic"),
    (TriangularPeriodic, "triangular_periodic"),
    (CellVectors, "cell_vectors"),
    (RepeatCell, "repeat_cell"),
    (NCellSites, "n_cell_sites"),
    (NSiteTypes, "n_site_types"),
    (SiteTypeNames, "site_type_names"),
    (SiteTypes, "site_types"),
    (SiteCoordinates, "site_coordinates"),
    (NeighboringStructure, "neighboring_structure"),
    (EndNeighboringStructure, "end_neighboring_structure"),
    (NSites, "n_sites"),
    (MaxCoord, "max_coord"),
    (LatticeStructure, "lattice_structure"),
    (EndLatticeStructure, "end_lattice_structure"),
    (EndLattice, "end_lattice"),
    (Energetics, "energetics"),
    (EndEnergetics, "end_energetics"),
    (Cluster, "cluster"),
    (EndCluster, "end_cluster"),
    (Mechanism, "mechanism"),
    (EndMechanism, "end_mechanism"),
    (Step, "step"),
    (EndStep, "end_step"),
    (ReversibleStep, "reversible_step"),
    (EndReversibleStep, "end_reversible_step"),
    (Variant, "variant"),
    (EndVariant, "end_variant"),
    (Sites, "sites"),
    (Neighboring, "neighboring"),
    (LatticeState, "lattice_state"),
    (GraphMultiplicity, "graph_multiplicity"),
    (ClusterEng, "cluster_eng"),
    (GasReacsProds, "gas_reacs_prods"),
    (Initial, "initial"),
    (Final, "final"),
    (PreExpon, "pre_expon"),
    (PeRatio, "pe_ratio"),
    (ActivEng, "activ_eng"),
    (ProxFactor, "prox_factor"),
    (Angles, "angles"),
    (NoMirrorImages, "no_mirror_images"),
    (AbslOrientation, "absl_orientation"),
    (InitialState, "initial_state"),
    (SeedOnSites, "seed_on_sites"),
    (SeedMultiple, "seed_multiple"),
    (EndInitialState, "end_initial_state"),
];

#[test]
fn spellings_of_words(rt: HostRuntime) {
    for (keyword, word) in SPELLINGS {
        assert_eq!(rt; keyword.spelling(), word.as_bytes());
    }
}
