ghost use Rattle.std.specs.Prelude.{◌≡◌, ◌*◌, ◌^◌, ◌≤◌, ◌<◌, All, IfOk, IfErr, IsSomeAnd, length, unsigned_abs};
ghost use Rattle.std.specs.Option.{option_map};
ghost use Rattle.deck.specs.Soundness.{IsSound, dentates_in};
ghost use Rattle.kmc_base.specs.Entries.{least as least_of};
ghost use Rattle.kmc_base.specs.declared.limits.TheConstants.{END_OF_TIME};
ghost use Rattle.kmc_core.specs.DeckSystem.{opening as opening_of, system_of, trajectory_of};
ghost use Rattle.kmc_core.specs.Run.{IsWithin, energy_of, stop_of, time_of_first};
ghost use Rattle.lattice_core.specs.Config.{IsWellFormed};
ghost use Rattle.lattice_core.specs.Lattice.{site_count};
ghost use Rattle.trajectory.specs.Trajectory.{start};

use crate::entry_lists::EntryLists;
use crate::fired::Fired;
use crate::run_state::RunState;
use crate::total_energy::total_energy;
use crate::unclosed::Unclosed;
use deck::Deck;
use kmc_base::{Firing, OutOfMemory};
use kmc_report::{Stop, stop_at};
use lattice_core::Config;
use std::alloc::Global;
use std::marker::Model;

/// A run at an event, with every instance listed: the state of the deck's trajectory at this event.
///
/// A contract sees it as its deck and the number of the event, which determine all else.
#[derive(Debug, Drop)]
pub struct Closed {
    pub(crate) deck: Deck,
    pub(crate) event: u64,
    pub(crate) time: u128,
    pub(crate) state: RunState,
    pub(crate) lists: EntryLists,
    // The energy of the lattice, in neV.
    pub(crate) energy: i128,
}

impl Model for Closed {
    ghost use Rattle.kmc_core.specs.Run.{ClosedRun};

    ghost Value = { ClosedRun };

    ghost use Rattle.kmc_core.specs.Run.{IsClosedAt};

    ghost view = { λ c. record { deck = c.deck; event = c.event } };

    ghost invariant = { λ c. IsClosedAt c.deck c.event (record { state = c.state; time = c.time; entries = c.lists.current }) c.energy };
}

/// The state, the entries and the energy of a deck at its start.
fn opening(alloc: Global, deck: &Deck) -> Result<(RunState, EntryLists, i128), OutOfMemory>
    requires { IsSound deck.now }
    ensures state { IfOk result (λ r. r.0 ≡ opening_of deck.now) }
    ensures within { IfOk result (λ r. IsWithin deck.now 0 r.0) }
    ensures entries { IfOk result (λ r. r.1.current ≡ (start (system_of deck.now) deck.now.plan.seed (opening_of deck.now)).entries) }
    ensures energy { IfOk result (λ r. r.2 ≡ energy_of deck.now r.0.states) }
    ensures range { IfOk result (λ r. unsigned_abs r.2 ≤ 2 ^ 99) }
{
    let state = RunState::opening(alloc, deck)?;
    let energy = total_energy(alloc, deck, state.config())?;
    let mut lists = EntryLists::none(alloc);
    lists.renew(alloc, deck, state.config(), 0, 0, None)?;
    Ok((state, lists.advanced(), energy))
}

/// The time of the firing that comes first, if there is one.
fn time_of(first: Option<Firing>) -> Option<u128>
    ensures { result ≡ time_of_first first }
{
    match first {
        Some(first) => Some(first.time),
        None => None,
    }
}

impl Closed {
    ghost use Rattle.kmc_core.specs.Firing.{Fires};

    /// The run of a sound deck at event 0: the vacant lattice at time 0. A refusal hands the deck back.
    pub fn start(alloc: Global, deck: Deck) -> Result<Closed, (Deck, OutOfMemory)>
        requires { IsSound deck }
        ensures ok { IfOk result (λ closed. closed ≡ record { deck = deck; event = 0 }) }
        ensures err { IfErr result (λ refused. refused.0 ≡ deck) }
    {
        match opening(alloc, &deck) {
            Ok((state, lists, energy)) => Ok(Closed {
                deck,
                event: 0,
                time: 0,
                state,
                lists,
                energy,
            }),
            Err(error) => Err((deck, error)),
        }
    }

    /// The number of the event.
    pub fn event(&self) -> u64
        ensures value { result ≡ self.now.event }
        ensures allowed { result ≤ self.now.deck.plan.max_steps }
    {
        self.event
    }

    /// The time of the event, in attoseconds.
    pub fn time(&self) -> u128
        ensures value { IsSomeAnd (trajectory_of self.now.deck self.now.event) (λ s. result ≡ s.time) }
        ensures range { result ≤ END_OF_TIME }
    {
        self.time
    }

    /// The energy of the lattice after the event, in neV.
    pub fn energy(&self) -> i128
        ensures value { IsSomeAnd (trajectory_of self.now.deck self.now.event) (λ s. result ≡ energy_of self.now.deck s.state.states) }
        ensures range { unsigned_abs result ≤ 2 ^ 99 }
    {
        self.energy
    }

    /// The configuration of the lattice after the event.
    pub fn config(&self) -> &Config
        ensures value { IsSomeAnd (trajectory_of self.now.deck self.now.event) (λ s. result.now ≡ s.state.states) }
        ensures sites { length result.now ≡ site_count self.now.deck.chem.graph }
        ensures well_formed { IsWellFormed (dentates_in self.now.deck.book) result.now }
    {
        self.state.config()
    }

    /// For each gas species, the molecules that were produced since the start, less those that were consumed.
    pub fn gas(&self) -> &[i64]
        ensures value { IsSomeAnd (trajectory_of self.now.deck self.now.event) (λ s. result.now ≡ s.state.gas) }
        ensures count { length result.now ≡ length self.now.deck.book.gas }
        ensures range { All (λ molecules. unsigned_abs molecules ≤ 512 * self.now.event) result.now }
    {
        self.state.gas()
    }

    /// For each process, how often it has fired.
    pub fn counts(&self) -> &[u64]
        ensures value { IsSomeAnd (trajectory_of self.now.deck self.now.event) (λ s. result.now ≡ s.state.counts) }
        ensures count { length result.now ≡ length self.now.deck.chem.processes }
        ensures range { All (λ count. count ≤ self.now.event) result.now }
    {
        self.state.counts()
    }

    /// The firing that comes first: its time in attoseconds, and the code of its instance. `None` if no
    /// instance has a time.
    pub fn least(&self) -> Option<(u128, u128)>
        ensures { IsSomeAnd (trajectory_of self.now.deck self.now.event) (λ s. result ≡ option_map (λ first. (first.time, first.code)) (least_of s.entries)) }
    {
        let first = self.lists.current.least()?;
        Some((first.time, first.code))
    }

    /// What fires next, or why nothing does.
    fn next_firing(&self) -> Result<Firing, Stop>
        ensures goes_on { IfOk result (λ first. (stop_of self.now.deck self.now.event ≡ None) × (self.now.event < self.now.deck.plan.max_steps)) }
        ensures first { IfOk result (λ first. IsSomeAnd (trajectory_of self.now.deck self.now.event) (λ s. least_of s.entries ≡ Some first)) }
        ensures stops { IfErr result (λ stop. stop_of self.now.deck self.now.event ≡ Some stop) }
    {
        let least = self.lists.current.least();
        match (
            stop_at(&self.deck.plan, self.event, self.time, time_of(least)),
            least,
        ) {
            (Some(stop), _) => Err(stop),
            (None, Some(first)) => Ok(first),
            (None, None) => unreachable!(),
        }
    }

    /// The deck of the run.
    pub fn deck(&self) -> &Deck
        ensures value { result.now ≡ self.now.deck }
        ensures sound { IsSound result.now }
    {
        &self.deck
    }

    /// Fires the instance that comes first, or ends the run if it stops. It takes no memory.
    pub fn fire(self) -> Fired
        ensures { Fires self result }
    {
        match self.next_firing() {
            Ok(first) => Fired::Next(Unclosed::after(self, first)),
            Err(stop) => Fired::Ended(self, stop),
        }
    }
}
