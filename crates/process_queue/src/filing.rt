ghost use Rattle.std.specs.Prelude.{◌≡◌, ◌≢◌, ◌+◌, ◌<◌, ◌≤◌, ◌++◌, ◌∷◌, [], true, false, Some, None, drop, length, slice_index_or, take, vec_capacity};
ghost use Rattle.std.specs.List.{All};
ghost use Rattle.slab.specs.Slab.{Updates, get};
ghost use Rattle.process_queue.specs.Filing.{AreDistinct, AreTaken, IsRefiled, in_room, is_in};
ghost use Rattle.process_queue.specs.Rooms.{GrewBy, HasRoom};

use crate::lead::NO_CODE;
use crate::rooms::Rooms;
use kmc_base::Entry;

/// Takes the entries of these rooms out.
pub(crate) fn empty_rooms(rooms: &mut Rooms, list: &[usize])
    requires distinct { AreDistinct list.now }
    requires taken { AreTaken rooms.old.slab.slots list.now }
    ensures gone { (room : _) → is_in list.now room ≡ true → in_room rooms.new.slab.slots room ≡ None }
    ensures others { (room : _) → is_in list.now room ≡ false → in_room rooms.new.slab.slots room ≡ in_room rooms.old.slab.slots room }
    ensures grew { GrewBy rooms.old rooms.new 0 }
{
    for room in list {
        rooms.remove(*room);
    }
}

/// Puts an entry into the room at a place of the list, or into one more room at its end.
fn file_one(rooms: &mut Rooms, list: &mut Vec<usize>, place: usize, entry: Entry) -> usize
    requires within { place ≤ length list.old.items }
    requires taken { AreTaken rooms.old.slab.slots list.old.items }
    requires code { entry.code ≢ NO_CODE }
    requires room { HasRoom rooms.old 1 }
    requires capacity { place < vec_capacity list.old }
    ensures replaced { place < length list.old.items → (list.new.items ≡ list.old.items) × (slice_index_or list.old.items place 0 ≡ result) }
    ensures added { length list.old.items ≤ place
        → (list.new.items ≡ list.old.items ++ result ∷ []) × (get rooms.old.slab result ≡ None) }
    ensures updates { Updates rooms.old.slab rooms.new.slab result (Some entry) }
    ensures grew { GrewBy rooms.old rooms.new 1 }
    ensures capacity { vec_capacity list.new ≡ vec_capacity list.old }
{
    if place < list.len() {
        let room = list[place];
        rooms.replace(room, entry);
        room
    } else {
        let room = rooms.insert(entry);
        list.push_reserved(room);
        room
    }
}

/// Files entries in the rooms of a list, and the last of them in more rooms at its end where there are too few.
pub(crate) fn file_all(rooms: &mut Rooms, list: &mut Vec<usize>, entries: &[Entry])
    requires enough { length list.old.items ≤ length entries.now }
    requires distinct { AreDistinct list.old.items }
    requires taken { AreTaken rooms.old.slab.slots list.old.items }
    requires codes { All (λ e. e.code ≢ NO_CODE) entries.now }
    requires room { HasRoom rooms.old (length entries.now) }
    requires capacity { length entries.now ≤ vec_capacity list.old }
    ensures refiled { IsRefiled rooms.old.slab.slots rooms.new.slab.slots list.old.items list.new.items entries.now }
    ensures grew { GrewBy rooms.old rooms.new (length entries.now) }
    ensures capacity { vec_capacity list.new ≡ vec_capacity list.old }
{
    for (place, entry) in entries.iter().enumerate() {
        file_one(rooms, list, place, *entry);
    }
}

/// Takes the entries of all rooms of a list out but the first so many.
fn shorten(rooms: &mut Rooms, list: &mut Vec<usize>, count: usize)
    requires distinct { AreDistinct list.old.items }
    requires taken { AreTaken rooms.old.slab.slots list.old.items }
    ensures list { list.new.items ≡ take count list.old.items }
    ensures gone { (room : _) → is_in (drop count list.old.items) room ≡ true → in_room rooms.new.slab.slots room ≡ None }
    ensures others { (room : _) → is_in (drop count list.old.items) room ≡ false
        → in_room rooms.new.slab.slots room ≡ in_room rooms.old.slab.slots room }
    ensures grew { GrewBy rooms.old rooms.new 0 }
    ensures capacity { vec_capacity list.new ≡ vec_capacity list.old }
{
    if count < list.len() {
        empty_rooms(rooms, &list[count..]);
    }
    list.truncate(count);
}

/// Files entries in the place of those that are in the rooms of a list. They go into the same rooms as far as these reach.
pub(crate) fn refile(rooms: &mut Rooms, list: &mut Vec<usize>, entries: &[Entry])
    requires distinct { AreDistinct list.old.items }
    requires taken { AreTaken rooms.old.slab.slots list.old.items }
    requires codes { All (λ e. e.code ≢ NO_CODE) entries.now }
    requires room { HasRoom rooms.old (length entries.now) }
    requires capacity { length entries.now ≤ vec_capacity list.old }
    ensures refiled { IsRefiled rooms.old.slab.slots rooms.new.slab.slots list.old.items list.new.items entries.now }
    ensures grew { GrewBy rooms.old rooms.new (length entries.now) }
    ensures capacity { vec_capacity list.new ≡ vec_capacity list.old }
{
    shorten(rooms, list, entries.len());
    file_all(rooms, list, entries);
}
