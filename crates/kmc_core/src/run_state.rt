ghost use Rattle.std.specs.Prelude.{◌≡◌, ℕ, ◌+◌, ◌^◌, ◌<◌, ◌≤◌, All, Contains, IfOk, length, map, slice_get, Some, unsigned_abs};
ghost use Rattle.std.specs.List.{fold};
ghost use Rattle.deck.specs.Soundness.{IsSound, dentates_in};
ghost use Rattle.kmc_base.specs.declared.limits.TheConstants.{MAX_EVENTS, MAX_SPECIES};
ghost use Rattle.kmc_core.specs.DeckSystem.{changed, counted, fires, opening as opening_of};
ghost use Rattle.kmc_core.specs.Run.{IsWithin};
ghost use Rattle.lattice_core.specs.Lattice.{site_count};
ghost use Rattle.lattice_core.specs.Config.{IsWellFormed};
ghost use Rattle.rate_rules.specs.System.{fires as states_after, offers, process_of};

use deck::Deck;
use firing::fire;
use kmc_base::OutOfMemory;
use lattice_core::Config;
use pattern_list::decode;
use rate_rules::Process;
use std::alloc::Global;
use std::marker::Model;

/// The state of a run: the lattice, the molecules of each gas species that were produced less those that were consumed, and
/// how often each process has fired.
#[derive(Debug, Drop)]
pub(crate) struct RunState {
    config: Config,
    gas: Vec<i64>,
    counts: Vec<u64>,
}

impl Model for RunState {
    ghost use Rattle.kmc_core.specs.DeckSystem.{DeckState};

    ghost Value = { DeckState };

    ghost view = { λ s. record { states = s.config; gas = s.gas.items; counts = s.counts.items } };
}

/// Adds changes to the numbers of molecules of the gas species.
fn change_gas(gas: &mut [i64], changes: &[(u8, i8)])
    requires few { length changes.now ≤ MAX_SPECIES }
    requires species { All (λ change. change.0 < length gas.old) changes.now }
    requires molecules { All (λ change. unsigned_abs change.1 ≤ 8) changes.now }
    requires small { All (λ molecules. unsigned_abs molecules ≤ 2 ^ 50) gas.old }
    ensures { gas.new ≡ fold changed gas.old changes.now }
{
    for (place, molecules) in changes {
        gas[usize::from(*place)] += i64::from(*molecules);
    }
}

/// Counts one more event of the process of a number.
fn count_event(counts: &mut [u64], number: usize)
    requires process { number < length counts.old }
    requires small { All (λ count. count ≤ MAX_EVENTS) counts.old }
    ensures { counts.new ≡ counted number counts.old }
{
    counts[number] += 1;
}

/// The process of a number.
fn process_at(deck: &Deck, number: usize) -> &Process
    requires { number < length deck.now.chem.processes }
    ensures { slice_get deck.now.chem.processes number ≡ Some result.now }
{
    &deck.chem.processes.as_slice()[number]
}

/// Fires the instance of a code of a process on a lattice that offers it.
fn fire_on(config: &mut Config, deck: &Deck, process: &Process, code: u128)
    requires deck { IsSound deck.now }
    requires configuration { length config.old ≡ site_count deck.now.chem.graph }
    requires well_formed { IsWellFormed (dentates_in deck.now.book) config.old }
    requires offered { Contains (map (λ i. i.code) (offers deck.now.chem config.old)) code }
    requires process { slice_get deck.now.chem.processes (process_of code) ≡ Some process.now }
    ensures states { config.new ≡ states_after deck.now.chem config.old code }
    ensures well_formed { IsWellFormed (dentates_in deck.now.book) config.new }
{
    let placement = decode(&deck.chem.graph, &process.before, code);
    fire(config, &process.before, &process.after, placement.sites());
}

impl RunState {
    /// The state at the opening of a deck.
    pub(crate) fn opening(alloc: Global, deck: &Deck) -> Result<RunState, OutOfMemory>
        ensures value { IfOk result (λ state. state ≡ opening_of deck.now) }
        ensures within { IfOk result (λ state. IsWithin deck.now 0 state) }
    {
        let gas = vec![in alloc; 0; deck.book.gas_names().len()]?;
        let counts = vec![in alloc; 0; deck.chem.processes.len()]?;
        let config = Config::vacant(alloc, deck.chem.graph.len())?;
        Ok(RunState {
            config,
            gas,
            counts,
        })
    }

    /// The configuration of the lattice.
    pub(crate) fn config(&self) -> &Config
        ensures { result.now ≡ self.now.states }
    {
        &self.config
    }

    /// The molecules of each gas species that were produced, less those that were consumed.
    pub(crate) fn gas(&self) -> &[i64]
        ensures { result.now ≡ self.now.gas }
    {
        self.gas.as_slice()
    }

    /// How often each process has fired.
    pub(crate) fn counts(&self) -> &[u64]
        ensures { result.now ≡ self.now.counts }
    {
        self.counts.as_slice()
    }

    /// Fires the instance of a code that the state offers. It takes no memory.
    pub(crate) fn fire_code(&mut self, deck: &Deck, code: u128)
        requires deck { IsSound deck.now }
        requires sites { length self.old.states ≡ site_count deck.now.chem.graph }
        requires within { (event : ℕ) × (event ≤ MAX_EVENTS) × IsWithin deck.now event self.old }
        requires offered { Contains (map (λ i. i.code) (offers deck.now.chem self.old.states)) code }
        ensures value { self.new ≡ fires deck.now self.old code }
        ensures within { (event : ℕ) → IsWithin deck.now event self.old → IsWithin deck.now (event + 1) self.new }
    {
        let number = (code >> 55) as usize;
        let process = process_at(deck, number);
        fire_on(&mut self.config, deck, process, code);
        change_gas(&mut self.gas, process.gas_change.as_slice());
        count_event(&mut self.counts, number);
    }
}
