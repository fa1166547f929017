ghost use Rattle.std.specs.Prelude.{◌≡◌, ◌≤◌, ◌<◌, ◌+◌, ◌^◌, ◌++◌, OnErr, OnOk, length};
ghost use Rattle.deck.specs.Soundness.{dentates_in};
ghost use Rattle.lattice_core.specs.Config.{IsWellFormed};
ghost use Rattle.lattice_core.specs.Lattice.{site_count};
ghost use Rattle.species_book.specs.Book.{names_of};
ghost use Rattle.zacros_output.specs.History.{IsNamed, gas_line, history_head, history_piece, occupied_line, occupied_lines};
ghost use Rattle.zacros_output.specs.Shown.{shown};

use crate::view::View;
use crate::words::{
    push_energy, push_next_names, push_next_number, push_next_numbers, push_next_word, push_number,
    push_sample_start, push_text,
};
use deck::Deck;
use kmc_base::{OutOfMemory, SiteId};
use lattice_core::{Config, State, Steps};
use std::marker::Brand;
use std::sync::ledger::{Blank, Ledger};

/// Adds the head of `history_output.txt`.
///
/// # Errors
///
/// Where memory is refused, `out` is as it was.
#[tactic(auto, unfolding(crate::specs::History::history_head))]
pub fn history_head(deck: &Deck, out: &mut Vec<u8>) -> Result<(), OutOfMemory>
    ensures ok { OnOk result (out.new.items ≡ out.old.items ++ history_head deck.now) }
    ensures err { OnErr result (out.new.items ≡ out.old.items) }
{
    let mut head = Vec::new(*out.allocator());
    push_text(&mut head, b"history 1\nsites ")?;
    push_number(&mut head, u64::from(deck.chem.graph.len()))?;
    push_text(&mut head, b"\nsurface")?;
    push_next_names(&mut head, deck.book.surface_names())?;
    push_text(&mut head, b"\ngas")?;
    push_next_names(&mut head, deck.book.gas_names())?;
    push_text(&mut head, b"\n")?;
    push_text(out, &head)
}

/// Adds the line of a site, if it is occupied: its number, the name of the species, the dentate, and the site of dentate 1.
fn push_site(
    out: &mut Vec<u8>,
    names: &[Vec<u8>],
    site: u32,
    state: State,
) -> Result<(), OutOfMemory>
    requires { IsNamed (names_of names.now) state }
    ensures { OnOk result (out.new.items ≡ out.old.items ++ occupied_line (names_of names.now) site state) }
{
    match state {
        State::Vacant => Ok(()),
        State::Holds {
            species,
            dentate,
            home,
        } => {
            push_number(out, u64::from(site) + 1)?;
            push_next_word(out, &names[species.0 as usize])?;
            push_next_number(out, u64::from(dentate))?;
            push_next_number(out, u64::from(home.0) + 1)?;
            push_text(out, b"\n")
        }
    }
}

/// Adds the lines of the occupied sites, in rising order.
fn push_sites<L: Ledger>(
    out: &mut Vec<u8>,
    deck: &Deck,
    config: &Config,
    blank: Blank,
) -> Result<(), OutOfMemory>
    requires name { blank.name ≡ L.name }
    requires parts { blank.parts ≡ L.parts }
    requires has_a_part { 0 < L.parts }
    requires sites { length config.now ≡ site_count deck.now.chem.graph }
    requires well_formed { IsWellFormed (dentates_in deck.now.book) config.now }
    ensures { OnOk result (out.new.items ≡ out.old.items ++ occupied_lines deck.now.book.surface config.now) }
{
    // This count of reads is not used.
    let mut steps = Steps::<L>::new(blank);
    let names = deck.book.surface_names();
    for site in 0..deck.chem.graph.len() {
        let state = config.at(SiteId(site), &mut steps);
        push_site(out, names, site, state)?;
    }
    Ok(())
}

/// Adds the line of the gas molecules.
fn push_gas(out: &mut Vec<u8>, gas: &[i64]) -> Result<(), OutOfMemory>
    ensures { OnOk result (out.new.items ≡ out.old.items ++ gas_line gas.now) }
{
    push_text(out, b"gas_counts")?;
    push_next_numbers(out, gas)?;
    push_text(out, b"\n")
}

/// Adds a sample of `history_output.txt`, at a time in attoseconds.
///
/// # Errors
///
/// Where memory is refused, `out` is as it was.
#[tactic(auto, unfolding(crate::specs::History::history_piece))]
pub fn history_piece(
    deck: &Deck,
    view: &View<'_>,
    sample: u64,
    time: u128,
    out: &mut Vec<u8>,
) -> Result<(), OutOfMemory>
    requires sites { length view.now.config.now ≡ site_count deck.now.chem.graph }
    requires well_formed { IsWellFormed (dentates_in deck.now.book) view.now.config.now }
    requires time { time < 2 ^ 127 }
    ensures ok { OnOk result (out.new.items ≡ out.old.items ++ history_piece deck.now sample (shown view.now time)) }
    ensures err { OnErr result (out.new.items ≡ out.old.items) }
{
    let mut piece = Vec::new(*out.allocator());
    push_sample_start(&mut piece, b"configuration", sample, view.event, time)?;
    push_text(&mut piece, b" energy ")?;
    push_energy(&mut piece, view.energy)?;
    push_text(&mut piece, b"\n")?;
    push_sites::<Brand>(&mut piece, deck, view.config, Blank::new(1))?;
    push_gas(&mut piece, view.gas)?;
    push_text(out, &piece)
}
