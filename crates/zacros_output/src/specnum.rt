ghost use Rattle.std.specs.Prelude.{◌≡◌, ◌≤◌, ◌<◌, ◌+◌, ◌^◌, ◌++◌, OnErr, OnOk, length};
ghost use Rattle.deck.specs.Soundness.{IsSound, dentates_in};
ghost use Rattle.lattice_core.specs.Config.{IsWellFormed};
ghost use Rattle.zacros_output.specs.Shown.{shown};
ghost use Rattle.zacros_output.specs.Specnum.{specnum_head, specnum_piece};

use crate::counting::adsorbates;
use crate::view::View;
use crate::words::{
    push_energy, push_next_counts, push_next_names, push_next_number, push_next_numbers,
    push_number, push_temperature, push_text, push_time,
};
use deck::Deck;
use kmc_base::OutOfMemory;

/// Adds the head of `specnum_output.txt`.
///
/// # Errors
///
/// Where memory is refused, `out` is as it was.
#[tactic(auto, unfolding(crate::specs::Specnum::specnum_head))]
pub fn specnum_head(deck: &Deck, out: &mut Vec<u8>) -> Result<(), OutOfMemory>
    ensures ok { OnOk result (out.new.items ≡ out.old.items ++ specnum_head deck.now) }
    ensures err { OnErr result (out.new.items ≡ out.old.items) }
{
    let mut head = Vec::new(*out.allocator());
    push_text(
        &mut head,
        b"specnum 1\ncolumns sample event time temperature energy",
    )?;
    push_next_names(&mut head, deck.book.surface_names())?;
    push_next_names(&mut head, deck.book.gas_names())?;
    push_text(&mut head, b"\n")?;
    push_text(out, &head)
}

/// Adds a sample of `specnum_output.txt`, at a time in attoseconds.
///
/// # Errors
///
/// Where memory is refused, `out` is as it was.
#[tactic(auto, unfolding(crate::specs::Specnum::specnum_piece))]
pub fn specnum_piece(
    deck: &Deck,
    view: &View<'_>,
    sample: u64,
    time: u128,
    out: &mut Vec<u8>,
) -> Result<(), OutOfMemory>
    requires deck { IsSound deck.now }
    requires well_formed { IsWellFormed (dentates_in deck.now.book) view.now.config.now }
    requires time { time < 2 ^ 127 }
    ensures ok { OnOk result (out.new.items ≡ out.old.items ++ specnum_piece deck.now sample (shown view.now time)) }
    ensures err { OnErr result (out.new.items ≡ out.old.items) }
{
    let surface = adsorbates(*out.allocator(), deck, view.config)?;
    let mut piece = Vec::new(*out.allocator());
    push_number(&mut piece, sample)?;
    push_next_number(&mut piece, view.event)?;
    push_text(&mut piece, b" ")?;
    push_time(&mut piece, time)?;
    push_text(&mut piece, b" ")?;
    push_temperature(&mut piece, deck.chem.temperature)?;
    push_text(&mut piece, b" ")?;
    push_energy(&mut piece, view.energy)?;
    push_next_counts(&mut piece, &surface)?;
    push_next_numbers(&mut piece, view.gas)?;
    push_text(&mut piece, b"\n")?;
    push_text(out, &piece)
}
