ghost use Rattle.std.specs.Prelude.{◌≡◌, ◌≤◌, ◌<◌, ◌∷◌, [], length, map, slice_index_or, vec_capacity};
ghost use Rattle.std.specs.List.{All};
ghost use Rattle.kmc_base.specs.Entries.{chosen as chosen_of};
ghost use Rattle.process_queue.specs.Renewal.{AreAnchors, IsPart, anchors_of, renewed_at};
ghost use Rattle.process_queue.specs.Filing.{IsIndexed, IsOfSite, IsRefiled, capacities_of, entries_in, rooms_of};
ghost use Rattle.process_queue.specs.Memory.{HasMemoryForEach, HaveListMemory, entry_count};
ghost use Rattle.process_queue.specs.Rooms.{GrewBy, HasRoom, entries_of};

use crate::choice::choose;
use crate::filing::refile;
use crate::part::AnchorEntries;
use crate::rooms::Rooms;
use kmc_base::{Entry, MAX_SITES};

/// Renews the entries of an anchor, which are in the rooms of a list.
fn renew_anchor(
    rooms: &mut Rooms,
    list: &mut Vec<usize>,
    chosen: &mut Vec<Entry>,
    part: &AnchorEntries,
    fired: Option<u128>,
)
    requires site { IsOfSite rooms.old.slab.slots part.now.anchor.0 list.old.items }
    requires part { IsPart part.now }
    requires anchor { part.now.anchor.0 < MAX_SITES }
    requires room { HasRoom rooms.old (length part.now.entries) }
    requires list_capacity { length part.now.entries ≤ vec_capacity list.old }
    requires chosen_capacity { length part.now.entries ≤ vec_capacity chosen.old }
    ensures refiled { IsRefiled rooms.old.slab.slots rooms.new.slab.slots list.old.items list.new.items
        (map (chosen_of (entries_in rooms.old.slab.slots list.old.items) fired) part.now.entries) }
    ensures grew { GrewBy rooms.old rooms.new (length part.now.entries) }
    ensures list_capacity { vec_capacity list.new ≡ vec_capacity list.old }
    ensures chosen_capacity { vec_capacity chosen.new ≡ vec_capacity chosen.old }
{
    choose(rooms, list, part.entries.as_slice(), fired, chosen);
    refile(rooms, list, chosen);
}

/// Renews the entries of an anchor, which are in the rooms of the list of its site.
fn renew_part(
    rooms: &mut Rooms,
    lists: &mut Vec<Vec<usize>>,
    chosen: &mut Vec<Entry>,
    part: &AnchorEntries,
    fired: Option<u128>,
)
    requires index { IsIndexed rooms.old.slab.slots (rooms_of lists.old.items) }
    requires part { IsPart part.now }
    requires anchor { part.now.anchor.0 < length lists.old.items }
    requires room { HasRoom rooms.old (length part.now.entries) }
    requires list_capacity { length part.now.entries ≤ slice_index_or (capacities_of lists.old.items) part.now.anchor.0 0 }
    requires chosen_capacity { length part.now.entries ≤ vec_capacity chosen.old }
    ensures index { IsIndexed rooms.new.slab.slots (rooms_of lists.new.items) }
    ensures entries { entries_of rooms.new.slab ≡ renewed_at (part.now ∷ []) fired (entries_of rooms.old.slab) }
    ensures grew { GrewBy rooms.old rooms.new (length part.now.entries) }
    ensures list_capacities { capacities_of lists.new.items ≡ capacities_of lists.old.items }
    ensures chosen_capacity { vec_capacity chosen.new ≡ vec_capacity chosen.old }
{
    let list = &mut lists[part.anchor.0 as usize];
    renew_anchor(rooms, list, chosen, part, fired);
}

/// Renews the entries of some anchors, one after another. All memory is there.
pub(crate) fn renew_all(
    rooms: &mut Rooms,
    lists: &mut Vec<Vec<usize>>,
    chosen: &mut Vec<Entry>,
    parts: &[AnchorEntries],
    fired: Option<u128>,
)
    requires index { IsIndexed rooms.old.slab.slots (rooms_of lists.old.items) }
    requires anchors { AreAnchors (length lists.old.items) (anchors_of parts.now) }
    requires parts { All IsPart parts.now }
    requires room { HasRoom rooms.old (entry_count parts.now) }
    requires list_capacities { HaveListMemory (capacities_of lists.old.items) parts.now }
    requires chosen_capacity { HasMemoryForEach (vec_capacity chosen.old) parts.now }
    ensures index { IsIndexed rooms.new.slab.slots (rooms_of lists.new.items) }
    ensures entries { entries_of rooms.new.slab ≡ renewed_at parts.now fired (entries_of rooms.old.slab) }
    ensures sites { length lists.new.items ≡ length lists.old.items }
{
    for part in parts {
        renew_part(rooms, lists, chosen, part, fired);
    }
}
