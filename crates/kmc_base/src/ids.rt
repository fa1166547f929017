ghost use Rattle.std.specs.Prelude.{◌≡◌};

/// A site of the lattice, from 0. Decks and outputs print it plus 1.
#[derive(Clone, Copy, Debug, PartialEq, Eq, PartialOrd, Ord, Hash)]
pub struct SiteId(pub u32);

/// A surface species, by its place in `surf_specs_names`, from 0.
#[derive(Clone, Copy, Debug, PartialEq, Eq, PartialOrd, Ord, Hash)]
pub struct SpeciesId(pub u16);

/// A process, in deck order from 0: an elementary step in one direction. A reversible step gives two,
/// the forward one first.
#[derive(Clone, Copy, Debug, PartialEq, Eq, PartialOrd, Ord, Hash)]
pub struct ProcId(pub u16);

/// A cluster of the cluster expansion of the energy (Nielsen et al. 2013), in deck order from 0.
#[derive(Clone, Copy, Debug, PartialEq, Eq, PartialOrd, Ord, Hash)]
pub struct ClusterId(pub u16);

/// An input file of a deck, in the order in which they are read.
#[derive(Clone, Copy, Debug, PartialEq, Eq, PartialOrd, Ord, Hash)]
pub enum FileId {
    /// `simulation_input.dat`.
    Simulation,
    /// `lattice_input.dat`.
    Lattice,
    /// `energetics_input.dat`.
    Energetics,
    /// `mechanism_input.dat`.
    Mechanism,
    /// `state_input.dat`.
    State,
}

impl FileId {
    ghost use Rattle.kmc_base.specs.FileNames.{input_name};

    /// The name of the file in the folder of a run.
    pub fn name(self) -> &'static str
        ensures { result.now ≡ input_name self }
    {
        match self {
            FileId::Simulation => "simulation_input.dat",
            FileId::Lattice => "lattice_input.dat",
            FileId::Energetics => "energetics_input.dat",
            FileId::Mechanism => "mechanism_input.dat",
            FileId::State => "state_input.dat",
        }
    }
}

/// An output file, in the order in which they are begun.
#[derive(Clone, Copy, Debug, PartialEq, Eq, PartialOrd, Ord, Hash)]
pub enum OutId {
    /// `history_output.txt`: configurations of the lattice.
    History,
    /// `procstat_output.txt`: how often each process has fired.
    Procstat,
    /// `specnum_output.txt`: the numbers of molecules of each species.
    Specnum,
}

impl OutId {
    ghost use Rattle.kmc_base.specs.FileNames.{output_name};

    /// The name of the file in the folder of a run.
    pub fn name(self) -> &'static str
        ensures { result.now ≡ output_name self }
    {
        match self {
            OutId::History => "history_output.txt",
            OutId::Procstat => "procstat_output.txt",
            OutId::Specnum => "specnum_output.txt",
        }
    }
}
