ghost use Rattle.std.specs.Prelude.{◌≡◌, ◌≢◌, ◌+◌, [], Some, None, OnOk, option_copied};
ghost use Rattle.kmc_base.specs.Entries.{least as least_of};
ghost use Rattle.slab.specs.Slab.{ContainsKey, Updates, get, slab_len, values};
ghost use Rattle.process_queue.specs.Rooms.{HasRoom};

use crate::lead::{Lead, NO_CODE};
use crate::tree::{lead_at, lengthen, mend};
use kmc_base::{Entry, Firing, OutOfMemory};
use slab::Slab;
use std::alloc::Global;
use std::marker::Model;

/// Rooms for entries, each with a number that stays as long as the entry does, of which the firing that comes first is
/// known.
#[derive(Debug, Drop)]
pub(crate) struct Rooms {
    slab: Slab<Entry>,
    leads: Vec<Lead>,
}

impl Model for Rooms {
    ghost use Rattle.std.specs.Prelude.{length};
    ghost use Rattle.process_queue.specs.Rooms.{RoomList};

    ghost Value = { RoomList };

    ghost use Rattle.process_queue.specs.LeadTree.{IsTree};

    ghost view = { λ r. record { slab = r.slab; nodes = length r.leads.items } };

    ghost invariant = { λ r. IsTree r.slab.slots r.leads.items };
}

impl Rooms {
    /// No entries. It takes no memory.
    pub(crate) fn new(alloc: Global) -> Rooms
        ensures { result.slab.slots ≡ [] }
    {
        Rooms {
            slab: Slab::new(alloc),
            leads: Vec::new(alloc),
        }
    }

    /// Takes memory for so many entries more.
    pub(crate) fn reserve(&mut self, count: usize) -> Result<(), OutOfMemory>
        ensures same { self.new.slab.slots ≡ self.old.slab.slots }
        ensures ok { OnOk result (HasRoom self.new count) }
    {
        self.slab.reserve(count)?;
        lengthen(&mut self.leads, self.slab.capacity())
    }

    /// How many entries there are.
    pub(crate) fn len(&self) -> usize
        ensures { result ≡ slab_len self.now.slab }
    {
        self.slab.len()
    }

    /// The entry in a room, if there is one.
    pub(crate) fn get(&self, room: usize) -> Option<&Entry>
        ensures { option_copied result ≡ get self.now.slab room }
    {
        self.slab.get(room)
    }

    /// The firing that comes first of all.
    pub(crate) fn first(&self) -> Option<Firing>
        ensures { result ≡ least_of (values self.now.slab) }
    {
        lead_at(&self.leads, 0)
    }

    /// Puts an entry into a room that has none. It takes no memory.
    pub(crate) fn insert(&mut self, entry: Entry) -> usize
        requires room { HasRoom self.old 1 }
        requires code { entry.code ≢ NO_CODE }
        ensures vacant { get self.old.slab result ≡ None }
        ensures updates { Updates self.old.slab self.new.slab result (Some entry) }
        ensures len { slab_len self.new.slab ≡ slab_len self.old.slab + 1 }
        ensures capacity { self.new.slab.capacity ≡ self.old.slab.capacity }
        ensures nodes { self.new.nodes ≡ self.old.nodes }
    {
        let room = self.slab.insert_reserved(entry);
        mend(&self.slab, &mut self.leads, room);
        room
    }

    /// Puts another entry into a room. It takes no memory.
    pub(crate) fn replace(&mut self, room: usize, entry: Entry)
        requires taken { ContainsKey self.old.slab room }
        requires code { entry.code ≢ NO_CODE }
        ensures updates { Updates self.old.slab self.new.slab room (Some entry) }
        ensures len { slab_len self.new.slab ≡ slab_len self.old.slab }
        ensures capacity { self.new.slab.capacity ≡ self.old.slab.capacity }
        ensures nodes { self.new.nodes ≡ self.old.nodes }
    {
        self.slab[room] = entry;
        mend(&self.slab, &mut self.leads, room);
    }

    /// Takes the entry of a room out. It takes no memory.
    pub(crate) fn remove(&mut self, room: usize)
        requires taken { ContainsKey self.old.slab room }
        ensures updates { Updates self.old.slab self.new.slab room None }
        ensures len { slab_len self.new.slab + 1 ≡ slab_len self.old.slab }
        ensures capacity { self.new.slab.capacity ≡ self.old.slab.capacity }
        ensures nodes { self.new.nodes ≡ self.old.nodes }
    {
        self.slab.remove(room);
        mend(&self.slab, &mut self.leads, room);
    }
}
