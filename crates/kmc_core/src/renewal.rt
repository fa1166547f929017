ghost use Rattle.std.specs.Prelude.{◌≡◌, ℕ, ◌+◌, ◌*◌, ◌^◌, ◌<◌, ◌≤◌, ◌++◌, OnOk, IfOk, IfSome, Some, length, map, slice_get, option_copied};
ghost use Rattle.std.specs.List.{AllByRecursion};
ghost use Rattle.kmc_base.specs.Entries.{IsRising, codes_of, kept_or, entry_at};
ghost use Rattle.kmc_base.specs.declared.limits.TheConstants.{END_OF_TIME};
ghost use Rattle.deck.specs.Soundness.{IsSound, dentates_in};
ghost use Rattle.trajectory.specs.ByCode.{by_code};
ghost use Rattle.rate_rules.specs.System.{instances_of, offers};
ghost use Rattle.kmc_core.specs.ListedProcess.{IsListed};
ghost use Rattle.rate_rules.specs.InstanceRange.{IsInRange};
ghost use Rattle.trajectory.specs.Trajectory.{fresh, renewed};
ghost use Rattle.lattice_core.specs.Config.{IsWellFormed, state_at};
ghost use Rattle.lattice_core.specs.Lattice.{site_count};

use crate::entries::Entries;
use crate::listing::{AnchorList, ListedProcess};
use deck::Deck;
use fixed_math::wait;
use kmc_base::{Entry, OutOfMemory, SiteId};
use lattice_core::{Config, Steps};
use named_draws::Draws;
use std::alloc::Global;
use std::sync::ledger::{Blank, Ledger};
use trajectory::Instance;

/// What is left of rising entries once those with lesser codes are passed over.
fn skip_below(entries: &[Entry], code: u128) -> &[Entry]
    requires { IsRising (codes_of entries.now) }
    ensures rising { IsRising (codes_of result.now) }
    ensures same { (c : ℕ) → code ≤ c → entry_at c result.now ≡ entry_at c entries.now }
    ensures reached { IfSome (slice_get result.now 0) (λ e. code ≤ e.code) }
{
    let mut rest = entries;
    while let [entry, others @ ..] = rest {
        if entry.code >= code {
            break;
        }
        rest = others;
    }
    rest
}

/// The entry of a code among rising entries, of which none has a lesser code.
fn entry_of(entries: &[Entry], code: u128) -> Option<&Entry>
    requires rising { IsRising (codes_of entries.now) }
    requires reached { IfSome (slice_get entries.now 0) (λ e. code ≤ e.code) }
    ensures { option_copied result ≡ entry_at code entries.now }
{
    match entries {
        [] => None,
        [entry, ..] if entry.code == code => Some(entry),
        [_, ..] => None,
    }
}

/// By what the entries after an event are made: its number and its time, what fired, and the draws of the run.
#[derive(Drop)]
pub(crate) struct Renewal {
    event: u64,
    // In attoseconds.
    time: u128,
    // The code of the instance that fired, if one did: at the start of a run none has.
    fired: Option<u128>,
    draws: Draws,
}

impl Renewal {
    /// An event of a run with this random seed.
    pub(crate) fn new(seed: u64, event: u64, time: u128, fired: Option<u128>) -> Renewal
        ensures { result ≡ record { event = event; time = time; fired = fired; draws = seed } }
    {
        Renewal {
            event,
            time,
            fired,
            draws: Draws::new(seed),
        }
    }

    /// An instance whose waiting time is drawn at the event.
    fn fresh_entry(&mut self, instance: Instance) -> Entry
        requires instance { IsInRange instance }
        requires time { self.old.time ≤ END_OF_TIME }
        ensures value { result ≡ fresh self.old.draws self.old.event self.old.time instance }
        ensures same { self.new ≡ self.old }
    {
        let word = self.draws.draw(self.event, instance.code);
        Entry {
            code: instance.code,
            lg: instance.lg,
            born: self.event,
            born_time: self.time,
            when: wait(instance.lg, word, self.time),
        }
    }

    /// The entry of an instance after the event: the old one, if there is one with the same rate and it was not the
    /// one fired, or a fresh one.
    fn renewed_entry(&mut self, old: Option<&Entry>, instance: Instance) -> Entry
        requires instance { IsInRange instance }
        requires time { self.old.time ≤ END_OF_TIME }
        ensures value { result ≡ kept_or self.old.fired (option_copied old.entry) (fresh self.old.draws self.old.event self.old.time instance) }
        ensures same { self.new ≡ self.old }
    {
        match old {
            Some(entry) if entry.lg == instance.lg && self.fired != Some(instance.code) => *entry,
            _ => self.fresh_entry(instance),
        }
    }

    /// Adds the entries of some instances, and gives what is left of the old entries for those with greater codes. Old
    /// entries and instances are in rising order of codes, and are merged.
    fn merge<'a>(
        &mut self,
        entries: &mut Entries,
        old: &'a [Entry],
        instances: &[Instance],
    ) -> Result<&'a [Entry], OutOfMemory>
        requires time { self.old.time ≤ END_OF_TIME }
        requires old { IsRising (codes_of old.now) }
        requires rising { IsRising (map (λ i. i.code) instances.now) }
        requires in_range { AllByRecursion IsInRange instances.now }
        ensures value { OnOk result (entries.new ≡ entries.old ++ renewed self.old.draws self.old.event self.old.time self.old.fired old.now instances.now) }
        ensures rest { IfOk result (λ rest. IsRising (codes_of rest.now)) }
        ensures later { IfOk result (λ rest. (c : ℕ) → AllByRecursion (λ i. i.code ≤ c) instances.now → entry_at c rest.now ≡ entry_at c old.now) }
        ensures same { self.new ≡ self.old }
    {
        let mut rest = old;
        for instance in instances {
            rest = skip_below(rest, instance.code);
            let old_entry = entry_of(rest, instance.code);
            let entry = self.renewed_entry(old_entry, *instance);
            entries.push(entry)?;
        }
        Ok(rest)
    }

    /// Adds the entries of all instances of a process, one anchor after another, and gives what is left of the old
    /// entries for the processes after it.
    fn renew_process<'a, L: Ledger>(
        &mut self,
        entries: &mut Entries,
        old: &'a [Entry],
        list: &mut AnchorList,
        alloc: Global,
        listed: &ListedProcess<'_>,
        steps: &mut Steps<L>,
    ) -> Result<&'a [Entry], OutOfMemory>
        requires time { self.old.time ≤ END_OF_TIME }
        requires old { IsRising (codes_of old.now) }
        requires listed { IsListed listed.now }
        ensures value { OnOk result (entries.new ≡ entries.old ++ renewed self.old.draws self.old.event self.old.time self.old.fired old.now
            (by_code (instances_of listed.now.deck.now.chem (state_at listed.now.config.now) listed.now.number listed.now.process.now))) }
        ensures rest { IfOk result (λ rest. IsRising (codes_of rest.now)) }
        ensures later { IfOk result (λ rest. (c : ℕ) → (listed.now.number + 1) * 2 ^ 55 ≤ c → entry_at c rest.now ≡ entry_at c old.now) }
        ensures same { self.new ≡ self.old }
    {
        let mut rest = old;
        for anchor in 0..listed.deck.chem.graph.len() {
            list.fill(alloc, listed, SiteId(anchor), steps)?;
            rest = self.merge(entries, rest, &list.instances)?;
        }
        Ok(rest)
    }

    /// Adds the entries of all instances on the whole lattice, one process after another: kept, or drawn at the event.
    pub(crate) fn renew<L: Ledger>(
        &mut self,
        entries: &mut Entries,
        old: &[Entry],
        list: &mut AnchorList,
        alloc: Global,
        deck: &Deck,
        config: &Config,
        blank: Blank,
    ) -> Result<(), OutOfMemory>
        requires name { blank.name ≡ L.name }
        requires parts { blank.parts ≡ L.parts }
        requires has_a_part { 0 < L.parts }
        requires time { self.old.time ≤ END_OF_TIME }
        requires old { IsRising (codes_of old.now) }
        requires deck { IsSound deck.now }
        requires configuration { length config.now ≡ site_count deck.now.chem.graph }
        requires well_formed { IsWellFormed (dentates_in deck.now.book) config.now }
        ensures { OnOk result (entries.new ≡ entries.old
            ++ renewed self.old.draws self.old.event self.old.time self.old.fired old.now (offers deck.now.chem config.now)) }
    {
        // This count of reads is not used.
        let mut steps = Steps::<L>::new(blank);
        let mut rest = old;
        for (number, process) in deck.chem.processes.as_slice().iter().enumerate() {
            let listed = ListedProcess::new(deck, config, number as u16, process);
            rest = self.renew_process(entries, rest, list, alloc, &listed, &mut steps)?;
        }
        Ok(())
    }
}
