//! From a folder to the deck of its files.

ghost use Rattle.std.specs.Prelude.{◌≡◌, ◌∷◌, IfOk, IfErr, IfSome, List, None, OnOk, false, map};
ghost use Rattle.std.specs.List.{All};
ghost use Rattle.std.specs.Option.{option_map};
ghost use Rattle.deck.specs.Soundness.{IsSound};
ghost use Rattle.kmc_base.specs.Faults.{OnlyFailed, SameCounts};
ghost use Rattle.kmc_base.specs.Numbered.{next_fails, one_call_more};
ghost use Rattle.deck_join.specs.Decks.{deck_of_files};
ghost use Rattle.deck_join.specs.Loads.{FailsInOrder, IsLoadFault, IsOfDeck, IsOfFiles, LoadsDeck, failed_load, first_failing, refusal_of};
ghost use Rattle.deck_join.specs.Texts.{IsShort, deck_files, text_of, texts_in, texts_of};

use crate::join::load_deck;
use crate::refusal::DeckRefusal;
use crate::text::Text;
use deck::Deck;
use deck_shape::DeckFault;
use kmc_base::{FileId, Folder, LoadFault, MAX_FILE_BYTES, Sequence};
use std::alloc::Global;

/// The text of an input file.
fn load_text<F: Folder>(alloc: Global, folder: &mut F, file: FileId) -> Result<Text, DeckRefusal>
    ensures text { IfOk result (λ text. IfSome (F.files folder.old) (λ told. text ≡ text_of told file)) }
    ensures short { IfOk result IsShort }
    ensures fault { IfErr result IsLoadFault }
    ensures of_deck { IsOfDeck file → IfErr result LoadsDeck }
    ensures cause { IfErr result (λ refusal. OnlyFailed (failed_load refusal) (F.read_faults folder.old) (F.read_faults folder.new)) }
    ensures no_fault { OnOk result (SameCounts (F.read_faults folder.old) (F.read_faults folder.new)) }
    ensures writes { SameCounts (F.write_faults folder.old) (F.write_faults folder.new) }
    ensures files { F.files folder.new ≡ F.files folder.old }
    ensures outs { F.outs folder.new ≡ F.outs folder.old }
    ensures failed { (others : List FileId) → IfErr result (FailsInOrder (file ∷ others) (F.loads folder.old)) }
    ensures passed { IfOk result (λ _. IfSome (F.loads folder.old) (λ calls. next_fails calls ≡ false)) }
    ensures loads { F.loads folder.new ≡ option_map one_call_more (F.loads folder.old) }
{
    match folder.load(alloc, file, MAX_FILE_BYTES) {
        Ok(bytes) if bytes.len() <= MAX_FILE_BYTES => Ok(Text::Bytes(Sequence::new(bytes))),
        Ok(_) | Err(LoadFault::TooLong) => Ok(Text::TooLong),
        Err(LoadFault::Absent) => Ok(Text::Absent),
        Err(LoadFault::Failed) => Err(DeckRefusal::Load(file)),
        Err(LoadFault::OutOfMemory) => Err(DeckRefusal::OutOfMemory),
    }
}

/// The texts of the four files of a deck, loaded in order. The first that fails ends it.
fn load_texts<F: Folder>(alloc: Global, folder: &mut F) -> Result<[(FileId, Text); 4], DeckRefusal>
    ensures texts { IfOk result (λ texts. IfSome (F.files folder.old) (λ told. texts_in texts ≡ texts_of told)) }
    ensures in_order { IfOk result (λ texts. map (λ text. text.0) texts ≡ deck_files) }
    ensures short { IfOk result (λ texts. All (λ text. IsShort text.1) texts) }
    ensures fault { IfErr result IsLoadFault }
    ensures of_deck { IfErr result LoadsDeck }
    ensures cause { IfErr result (λ refusal. OnlyFailed (failed_load refusal) (F.read_faults folder.old) (F.read_faults folder.new)) }
    ensures no_fault { OnOk result (SameCounts (F.read_faults folder.old) (F.read_faults folder.new)) }
    ensures writes { SameCounts (F.write_faults folder.old) (F.write_faults folder.new) }
    ensures files { F.files folder.new ≡ F.files folder.old }
    ensures outs { F.outs folder.new ≡ F.outs folder.old }
    ensures failed { IfErr result (FailsInOrder deck_files (F.loads folder.old)) }
    ensures passed { IfOk result (λ _. IfSome (F.loads folder.old) (λ calls. first_failing calls deck_files ≡ None)) }
{
    let simulation = load_text(alloc, folder, FileId::Simulation)?;
    let lattice = load_text(alloc, folder, FileId::Lattice)?;
    let energetics = load_text(alloc, folder, FileId::Energetics)?;
    let mechanism = load_text(alloc, folder, FileId::Mechanism)?;
    Ok([
        (FileId::Simulation, simulation),
        (FileId::Lattice, lattice),
        (FileId::Energetics, energetics),
        (FileId::Mechanism, mechanism),
    ])
}

/// The refusal of a folder whose texts have a fault, or could not be joined for want of memory.
fn refusal_of(fault: DeckFault) -> DeckRefusal
    ensures { result ≡ refusal_of fault }
{
    match fault {
        DeckFault::Fault(fault) => DeckRefusal::Fault(fault),
        DeckFault::OutOfMemory => DeckRefusal::OutOfMemory,
    }
}

/// The deck of the files of a folder. The four files are loaded in order, and the first that cannot be read ends it; only
/// then is any of them looked at.
pub fn read_deck<F: Folder>(alloc: Global, folder: &mut F) -> Result<Deck, DeckRefusal>
    // The deck is that of the files, and a fault is their first.
    ensures deck { IfSome (F.files folder.old) (λ told. IsOfFiles result (deck_of_files told)) }
    ensures sound { IfOk result IsSound }
    // A load failed if and only if the count of that file rose in this call, and of no other.
    ensures cause { IfErr result (λ refusal. OnlyFailed (failed_load refusal) (F.read_faults folder.old) (F.read_faults folder.new)) }
    ensures no_fault { OnOk result (SameCounts (F.read_faults folder.old) (F.read_faults folder.new)) }
    ensures of_deck { IfErr result LoadsDeck }
    // Of the loads that would fail the first is answered, unless memory was short.
    ensures failed { IfErr result (FailsInOrder deck_files (F.loads folder.old)) }
    ensures passed { IfOk result (λ _. IfSome (F.loads folder.old) (λ calls. first_failing calls deck_files ≡ None)) }
    ensures writes { SameCounts (F.write_faults folder.old) (F.write_faults folder.new) }
    ensures files { F.files folder.new ≡ F.files folder.old }
    ensures outs { F.outs folder.new ≡ F.outs folder.old }
{
    let texts = load_texts(alloc, folder)?;
    match load_deck(alloc, &texts) {
        Ok(deck) => Ok(deck),
        Err(fault) => Err(refusal_of(fault)),
    }
}
