ghost use Rattle.std.specs.Prelude.{◌≡◌, Some, None};
ghost use Rattle.std.specs.Option.{option_map};

use crate::ids::FileId;
use std::marker::Model;

/// The input files in memory, each by its bytes.
#[derive(Debug, Drop)]
pub(crate) struct FileTexts {
    simulation: Option<Vec<u8>>,
    lattice: Option<Vec<u8>>,
    energetics: Option<Vec<u8>>,
    mechanism: Option<Vec<u8>>,
    state: Option<Vec<u8>>,
}

impl Model for FileTexts {
    ghost use Rattle.std.specs.Option.{option_map};
    ghost use Rattle.kmc_base.specs.Files.{Files};

    ghost Value = { Files };

    ghost view = { λ f. record {
      simulation = option_map (λ v. v.items) f.simulation;
      lattice = option_map (λ v. v.items) f.lattice;
      energetics = option_map (λ v. v.items) f.energetics;
      mechanism = option_map (λ v. v.items) f.mechanism;
      state = option_map (λ v. v.items) f.state;
    } };
}

impl FileTexts {
    ghost use Rattle.kmc_base.specs.Files.{files_of, file_of, with_file, no_files};

    fn empty() -> Self
        ensures { result ≡ no_files }
    {
        FileTexts {
            simulation: None,
            lattice: None,
            energetics: None,
            mechanism: None,
            state: None,
        }
    }

    fn set(&mut self, file: FileId, bytes: Vec<u8>)
        ensures { self.new ≡ with_file self.old file (Some bytes.items) }
    {
        match file {
            FileId::Simulation => self.simulation = Some(bytes),
            FileId::Lattice => self.lattice = Some(bytes),
            FileId::Energetics => self.energetics = Some(bytes),
            FileId::Mechanism => self.mechanism = Some(bytes),
            FileId::State => self.state = Some(bytes),
        }
    }

    /// The files of a list. Of two with one id the first counts.
    pub(crate) fn of(mut files: Vec<(FileId, Vec<u8>)>) -> Self
        ensures { result ≡ files_of files.items }
    {
        let mut texts = FileTexts::empty();
        while let Some((file, bytes)) = files.pop() {
            texts.set(file, bytes);
        }
        texts
    }

    pub(crate) fn get(&self, file: FileId) -> Option<&Vec<u8>>
        ensures { option_map (λ v. v.now.items) result ≡ file_of self.now file }
    {
        match file {
            FileId::Simulation => self.simulation.as_ref(),
            FileId::Lattice => self.lattice.as_ref(),
            FileId::Energetics => self.energetics.as_ref(),
            FileId::Mechanism => self.mechanism.as_ref(),
            FileId::State => self.state.as_ref(),
        }
    }
}
