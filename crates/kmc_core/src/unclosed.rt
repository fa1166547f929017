ghost use Rattle.std.specs.Prelude.{◌≡◌, ◌≢◌, ◌+◌, ◌<◌, IfOk, IfErr, OnOk, OnErr, IsSomeAnd, Some};
ghost use Rattle.kmc_base.specs.Entries.{least as least_of};
ghost use Rattle.kmc_core.specs.DeckSystem.{trajectory_of};

use crate::closed::Closed;
use crate::entry_lists::EntryLists;
use crate::run_state::RunState;
use crate::total_energy::total_energy;
use deck::Deck;
use kmc_base::{Firing, OutOfMemory};
use std::alloc::Global;
use std::marker::Model;

/// Why an open event could not be closed.
#[derive(Clone, Copy, Debug, PartialEq, Eq)]
pub struct Undone {
    /// The mask of what is undone, which is not 0: 1, for the listing.
    pub mask: u64,
}

/// A run whose next event has fired. `rescan` lists its instances again, and then `close` closes it; it
/// cannot fire before.
#[derive(Debug, Drop)]
pub struct Unclosed {
    deck: Deck,
    event: u64,
    // What fired, and when: the time of the event.
    first: Firing,
    state: RunState,
    lists: EntryLists,
    // The energy after the event, in neV, once the next entries are those after it.
    energy: Option<i128>,
}

impl Model for Unclosed {
    ghost use Rattle.std.specs.Prelude.{if◌then◌else◌, is_some};
    ghost use Rattle.kmc_core.specs.Run.{OpenRun};

    ghost Value = { OpenRun };

    ghost use Rattle.kmc_core.specs.Run.{IsOpenAt};

    ghost view = { λ u. record { deck = u.deck; event = u.event; undone = if is_some u.energy then 0 else 1 } };

    ghost invariant = { λ u. IsOpenAt u.deck u.event u.first u.state u.lists.current u.lists.next u.energy };
}

impl Unclosed {
    /// The run after an event that fires what comes first.
    pub(crate) fn after(closed: Closed, first: Firing) -> Unclosed
        requires goes_on { closed.event < closed.deck.plan.max_steps }
        requires first { IsSomeAnd (trajectory_of closed.deck closed.event) (λ s. least_of s.entries ≡ Some first) }
        ensures { result ≡ record { deck = closed.deck; event = closed.event + 1; undone = 1 } }
    {
        let Closed {
            deck,
            event,
            mut state,
            lists,
            ..
        } = closed;
        state.fire_code(&deck, first.code);
        Unclosed {
            deck,
            event: event + 1,
            first,
            state,
            lists,
            energy: None,
        }
    }

    /// The mask of what is undone: 1 until the instances are listed, then 0.
    pub fn undone(&self) -> u64
        ensures { result ≡ self.now.undone }
    {
        if self.energy.is_some() { 0 } else { 1 }
    }

    /// Lists the instances of the whole lattice again, and computes its energy: an instance that was there with the same rate,
    /// and was not the one fired, keeps its entry; every other is drawn at this event. If they are
    /// listed already, it does nothing and takes no memory. A refusal leaves the run as it was.
    pub fn rescan(&mut self, alloc: Global) -> Result<(), OutOfMemory>
        ensures ok { OnOk result (self.new ≡ record self.old { undone = 0 }) }
        ensures err { OnErr result (self.new ≡ self.old) }
        ensures needed { OnErr result (self.old.undone ≢ 0) }
    {
        if self.energy.is_none() {
            let Firing { time, code } = self.first;
            let energy = total_energy(alloc, &self.deck, self.state.config())?;
            self.lists.renew(
                alloc,
                &self.deck,
                self.state.config(),
                self.event,
                time,
                Some(code),
            )?;
            self.energy = Some(energy);
        }
        Ok(())
    }

    /// Closes the event if nothing is undone, else hands the run back as it was. It takes no memory.
    pub fn close(self) -> Result<Closed, (Unclosed, Undone)>
        ensures ok { IfOk result (λ closed. (self.undone ≡ 0) × (closed ≡ record { deck = self.deck; event = self.event })) }
        ensures err { IfErr result (λ refused. (refused.0 ≡ self) × (refused.1.mask ≡ self.undone) × (self.undone ≢ 0)) }
    {
        match self.energy {
            None => Err((self, Undone { mask: 1 })),
            Some(energy) => Ok(Closed {
                deck: self.deck,
                event: self.event,
                time: self.first.time,
                state: self.state,
                lists: self.lists.advanced(),
                energy,
            }),
        }
    }
}
