ghost use Rattle.std.specs.Prelude.{◌≡◌, ◌≤◌, OnOk, length, []};
ghost use Rattle.kmc_base.specs.Entries.{IsRising, codes_of};
ghost use Rattle.kmc_base.specs.declared.limits.TheConstants.{END_OF_TIME};
ghost use Rattle.deck.specs.Soundness.{IsSound, dentates_in};
ghost use Rattle.rate_rules.specs.System.{offers};
ghost use Rattle.trajectory.specs.Trajectory.{renewed};
ghost use Rattle.lattice_core.specs.Config.{IsWellFormed};
ghost use Rattle.lattice_core.specs.Lattice.{site_count};

use crate::entries::Entries;
use crate::listing::AnchorList;
use crate::renewal::Renewal;
use deck::Deck;
use kmc_base::OutOfMemory;
use lattice_core::Config;
use std::alloc::Global;
use std::marker::Brand;
use std::sync::ledger::Blank;

/// The entries of a run before an event and after it, and the instances of one process with one anchor, from which the
/// latter are made.
///
/// These lists are filled again at each event, in the memory that they have.
#[derive(Debug, Drop)]
pub(crate) struct EntryLists {
    pub(crate) current: Entries,
    pub(crate) next: Entries,
    at_anchor: AnchorList,
}

impl EntryLists {
    /// No entries. It takes no memory.
    pub(crate) fn none(alloc: Global) -> EntryLists
        ensures { result.current ≡ [] }
    {
        EntryLists {
            current: Entries::none(alloc),
            next: Entries::none(alloc),
            at_anchor: AnchorList::none(alloc),
        }
    }

    /// Makes the next entries: those after an event, at its time, that fired the instance of a code, if it fired one, and
    /// ended in a configuration, whose instances are listed again.
    pub(crate) fn renew(
        &mut self,
        alloc: Global,
        deck: &Deck,
        config: &Config,
        event: u64,
        time: u128,
        fired: Option<u128>,
    ) -> Result<(), OutOfMemory>
        requires deck { IsSound deck.now }
        requires configuration { length config.now ≡ site_count deck.now.chem.graph }
        requires well_formed { IsWellFormed (dentates_in deck.now.book) config.now }
        requires time { time ≤ END_OF_TIME }
        requires current { IsRising (codes_of self.old.current) }
        ensures current { self.new.current ≡ self.old.current }
        ensures next { OnOk result (self.new.next
            ≡ renewed deck.now.plan.seed event time fired self.old.current (offers deck.now.chem config.now)) }
    {
        self.next.clear();
        // An event changes few instances: about as many entries come after it as before it.
        self.next.reserve(self.current.as_slice().len())?;
        let mut renewal = Renewal::new(deck.plan.seed, event, time, fired);
        renewal.renew::<Brand>(
            &mut self.next,
            self.current.as_slice(),
            &mut self.at_anchor,
            alloc,
            deck,
            config,
            Blank::new(1),
        )
    }

    /// The next entries are the current ones from now on.
    pub(crate) fn advanced(self) -> EntryLists
        ensures { result.current ≡ self.next }
    {
        EntryLists {
            current: self.next,
            next: self.current,
            at_anchor: self.at_anchor,
        }
    }
}
