ghost use Rattle.std.specs.Prelude.{◌≡◌, ◌≤◌, ◌<◌, IfSome, OnOk, length, slice_index_or, vec_capacity};
ghost use Rattle.process_queue.specs.Renewal.{AreAnchors, anchors_of};
ghost use Rattle.process_queue.specs.Filing.{capacities_of, rooms_of};
ghost use Rattle.process_queue.specs.Memory.{HasMemoryForEach, HaveListMemory, entry_count};
ghost use Rattle.process_queue.specs.Rooms.{HasRoom};

use crate::part::AnchorEntries;
use crate::rooms::Rooms;
use kmc_base::{Entry, OutOfMemory};

/// How many entries some parts have, if that is a number of 64 bits.
fn entry_count(parts: &[AnchorEntries]) -> Option<usize>
    ensures { IfSome result (λ count. count ≡ entry_count parts.now) }
{
    let mut count = 0_usize;
    for part in parts {
        count = count.checked_add(part.entries.len())?;
    }
    Some(count)
}

/// Takes memory for a list to have so many items in all.
fn reserve_in_all<T>(list: &mut Vec<T>, count: usize) -> Result<(), OutOfMemory>
    ensures items { list.new.items ≡ list.old.items }
    ensures capacity { vec_capacity list.old ≤ vec_capacity list.new }
    ensures ok { OnOk result (count ≤ vec_capacity list.new) }
{
    Ok(list.reserve(count.saturating_sub(list.len()))?)
}

/// Takes memory for the rooms of each part in the list of its anchor.
fn reserve_lists(lists: &mut Vec<Vec<usize>>, parts: &[AnchorEntries]) -> Result<(), OutOfMemory>
    requires anchors { AreAnchors (length lists.old.items) (anchors_of parts.now) }
    ensures rooms { rooms_of lists.new.items ≡ rooms_of lists.old.items }
    ensures ok { OnOk result (HaveListMemory (capacities_of lists.new.items) parts.now) }
{
    for part in parts {
        let list = &mut lists[part.anchor.0 as usize];
        reserve_in_all(list, part.entries.len())?;
    }
    Ok(())
}

/// Takes memory for the entries of each part in one list.
fn reserve_for_each(chosen: &mut Vec<Entry>, parts: &[AnchorEntries]) -> Result<(), OutOfMemory>
    ensures ok { OnOk result (HasMemoryForEach (vec_capacity chosen.new) parts.now) }
{
    for part in parts {
        reserve_in_all(chosen, part.entries.len())?;
    }
    Ok(())
}

/// Takes all memory that renewing the entries of some anchors may need.
pub(crate) fn make_room(
    rooms: &mut Rooms,
    lists: &mut Vec<Vec<usize>>,
    chosen: &mut Vec<Entry>,
    parts: &[AnchorEntries],
) -> Result<(), OutOfMemory>
    requires anchors { AreAnchors (length lists.old.items) (anchors_of parts.now) }
    ensures slots { rooms.new.slab.slots ≡ rooms.old.slab.slots }
    ensures lists { rooms_of lists.new.items ≡ rooms_of lists.old.items }
    ensures room { OnOk result (HasRoom rooms.new (entry_count parts.now)) }
    ensures list_capacities { OnOk result (HaveListMemory (capacities_of lists.new.items) parts.now) }
    ensures chosen_capacity { OnOk result (HasMemoryForEach (vec_capacity chosen.new) parts.now) }
{
    let count = entry_count(parts).ok_or(OutOfMemory)?;
    reserve_lists(lists, parts)?;
    reserve_for_each(chosen, parts)?;
    rooms.reserve(count)
}
