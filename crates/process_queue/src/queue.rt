ghost use Rattle.std.specs.Prelude.{◌≡◌, ◌↔◌, ◌≤◌, [], IfOk, IsTrue, OnErr, OnOk, length, replicate};
ghost use Rattle.std.specs.List.{All};
ghost use Rattle.std.specs.Option.{option_map};
ghost use Rattle.kmc_base.specs.Entries.{IsRising, codes_of, entry_at, least as least_of};
ghost use Rattle.process_queue.specs.Renewal.{AreAnchors, IsPart, anchors_of, renewed_at};
ghost use Rattle.process_queue.specs.Filing.{entries_in, rooms_of};
ghost use Rattle.process_queue.specs.Queue.{empty_queue, with_entries};

use crate::memory::make_room;
use crate::part::AnchorEntries;
use crate::renewal::renew_all;
use crate::rooms::Rooms;
use kmc_base::{Entry, MAX_SITES, OutOfMemory};
use std::alloc::Global;
use std::marker::Model;

/// The entries of all instances on a lattice, of which the one that fires first is known. A contract sees them as a list in
/// rising order of codes.
#[derive(Debug, Drop)]
pub struct ProcessQueue {
    rooms: Rooms,
    // The rooms of the entries of each site, in rising order of their codes.
    lists: Vec<Vec<usize>>,
    // What the entries of an anchor become: memory that `renew` uses.
    chosen: Vec<Entry>,
}

impl Model for ProcessQueue {
    ghost use Rattle.std.specs.Prelude.{length};
    ghost use Rattle.process_queue.specs.Queue.{Queue};

    ghost Value = { Queue };

    ghost use Rattle.process_queue.specs.Filing.{IsIndexed, rooms_of};
    ghost use Rattle.process_queue.specs.Rooms.{entries_of};

    ghost view = { λ q. record { sites = length q.lists.items; entries = entries_of q.rooms.slab } };

    ghost invariant = { λ q. IsIndexed q.rooms.slab.slots (rooms_of q.lists.items) };
}

/// As many empty lists as sites.
fn empty_lists(alloc: Global, sites: u32) -> Result<Vec<Vec<usize>>, OutOfMemory>
    ensures { IfOk result (λ lists. rooms_of lists.items ≡ replicate sites []) }
{
    let mut lists = Vec::with_capacity(alloc, sites as usize)?;
    for _ in 0..sites {
        lists.push_reserved(Vec::new(alloc));
    }
    Ok(lists)
}

/// The entry with a code among those in some rooms.
fn find(rooms: &Rooms, list: &[usize], code: u128) -> Option<Entry>
    ensures { result ≡ entry_at code (entries_in rooms.now.slab.slots list.now) }
{
    for room in list {
        if let Some(entry) = rooms.get(*room)
            && entry.code == code
        {
            return Some(*entry);
        }
    }
    None
}

impl ProcessQueue {
    /// The queue of a lattice of so many sites, with no entry.
    pub fn new(alloc: Global, sites: u32) -> Result<ProcessQueue, OutOfMemory>
        requires few_sites { sites ≤ MAX_SITES }
        ensures { IfOk result (λ queue. queue ≡ empty_queue sites) }
    {
        Ok(ProcessQueue {
            rooms: Rooms::new(alloc),
            lists: empty_lists(alloc, sites)?,
            chosen: Vec::new(alloc),
        })
    }

    /// Puts what the parts give in the place of the entries of their anchors. An instance that was there with the same rate,
    /// and is not the one fired, keeps its entry. `fired` is the code of the instance that has fired, if one has.
    ///
    /// # Errors
    ///
    /// Where memory is refused, the queue is as it was.
    pub fn renew(&mut self, parts: &[AnchorEntries], fired: Option<u128>) -> Result<(), OutOfMemory>
        requires anchors { AreAnchors self.old.sites (anchors_of parts.now) }
        requires parts { All IsPart parts.now }
        ensures ok { OnOk result (self.new ≡ with_entries self.old (renewed_at parts.now fired self.old.entries)) }
        ensures err { OnErr result (self.new ≡ self.old) }
    {
        make_room(&mut self.rooms, &mut self.lists, &mut self.chosen, parts)?;
        renew_all(
            &mut self.rooms,
            &mut self.lists,
            &mut self.chosen,
            parts,
            fired,
        );
        Ok(())
    }

    /// The time in attoseconds (10^-18 s) and the code of the instance that fires first, if any ever does. It takes neither
    /// time nor memory.
    pub fn least(&self) -> Option<(u128, u128)>
        ensures { result ≡ option_map (λ first. (first.time, first.code)) (least_of self.now.entries) }
    {
        let first = self.rooms.first()?;
        Some((first.time, first.code))
    }

    /// The entry of the instance with a code, if it is there. It looks through the entries of the anchor, and takes no memory.
    pub fn get(&self, code: u128) -> Option<Entry>
        ensures { result ≡ entry_at code self.now.entries }
    {
        let anchor = code / (1 << 35) % (1 << 20);
        find(&self.rooms, self.lists.get(anchor as usize)?, code)
    }

    /// How many entries there are.
    pub fn len(&self) -> usize
        ensures value { result ≡ length self.now.entries }
        ensures rising { IsRising (codes_of self.now.entries) }
    {
        self.rooms.len()
    }

    /// Whether there are no entries.
    pub fn is_empty(&self) -> bool
        ensures { IsTrue result ↔ (self.now.entries ≡ []) }
    {
        self.len() == 0
    }

    /// How many sites the lattice has.
    pub fn sites(&self) -> u32
        ensures value { result ≡ self.now.sites }
        ensures few { result ≤ MAX_SITES }
    {
        self.lists.len() as u32
    }
}
