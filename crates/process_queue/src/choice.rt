ghost use Rattle.std.specs.Prelude.{◌≡◌, ◌<◌, ◌≤◌, false, IfSome, IsSomeAnd, IsTrue, length, map, option_copied, slice_get, vec_capacity};
ghost use Rattle.kmc_base.specs.Entries.{IsRising, chosen as chosen_of, codes_of, entry_at, kept_or};
ghost use Rattle.process_queue.specs.Filing.{entries_in, in_room};

use crate::rooms::Rooms;
use kmc_base::Entry;

/// Whether a room has an entry with this code or a greater one.
fn reaches(rooms: &Rooms, room: usize, code: u128) -> bool
    ensures yes { IsTrue result → IsSomeAnd (in_room rooms.now.slab.slots room) (λ e. code ≤ e.code) }
    ensures no { result ≡ false → IfSome (in_room rooms.now.slab.slots room) (λ e. e.code < code) }
{
    match rooms.get(room) {
        Some(entry) => entry.code >= code,
        None => false,
    }
}

/// What is left of rooms with rising codes once those with lesser codes are passed over.
fn skip_below<'a>(rooms: &Rooms, list: &'a [usize], code: u128) -> &'a [usize]
    requires { IsRising (codes_of (entries_in rooms.now.slab.slots list.now)) }
    ensures rising { IsRising (codes_of (entries_in rooms.now.slab.slots result.now)) }
    ensures same { (c : _) → code ≤ c
        → entry_at c (entries_in rooms.now.slab.slots result.now) ≡ entry_at c (entries_in rooms.now.slab.slots list.now) }
    ensures reached { IfSome (slice_get result.now 0) (λ room. IsSomeAnd (in_room rooms.now.slab.slots room) (λ e. code ≤ e.code)) }
{
    let mut rest = list;
    while let [room, others @ ..] = rest {
        if reaches(rooms, *room, code) {
            break;
        }
        rest = others;
    }
    rest
}

/// The entry of a code among those in rooms with rising codes, of which none is less.
fn entry_of<'a>(rooms: &'a Rooms, list: &[usize], code: u128) -> Option<&'a Entry>
    requires rising { IsRising (codes_of (entries_in rooms.now.slab.slots list.now)) }
    requires reached { IfSome (slice_get list.now 0) (λ room. IsSomeAnd (in_room rooms.now.slab.slots room) (λ e. code ≤ e.code)) }
    ensures { option_copied result ≡ entry_at code (entries_in rooms.now.slab.slots list.now) }
{
    match list {
        [] => None,
        [room, ..] => match rooms.get(*room) {
            Some(entry) => (entry.code == code).then_some(entry),
            None => None,
        },
    }
}

/// The old entry, if there is one with the same rate and it was not the one fired, or the fresh one.
fn kept_or(old: Option<&Entry>, fresh: &Entry, fired: Option<u128>) -> Entry
    ensures { result ≡ kept_or fired (option_copied old.entry) fresh.now }
{
    match old {
        Some(entry) if entry.lg == fresh.lg && fired != Some(fresh.code) => *entry,
        _ => *fresh,
    }
}

/// Writes down what the entries of an anchor become, where the fresh ones come: each old entry is kept, or the fresh one is
/// taken. Old and fresh entries are in rising order of codes, and are merged.
pub(crate) fn choose(
    rooms: &Rooms,
    list: &[usize],
    fresh: &[Entry],
    fired: Option<u128>,
    chosen: &mut Vec<Entry>,
)
    requires old { IsRising (codes_of (entries_in rooms.now.slab.slots list.now)) }
    requires fresh { IsRising (codes_of fresh.now) }
    requires capacity { length fresh.now ≤ vec_capacity chosen.old }
    ensures value { chosen.new.items ≡ map (chosen_of (entries_in rooms.now.slab.slots list.now) fired) fresh.now }
    ensures capacity { vec_capacity chosen.new ≡ vec_capacity chosen.old }
{
    chosen.clear();
    let mut rest = list;
    for entry in fresh {
        rest = skip_below(rooms, rest, entry.code);
        let old = entry_of(rooms, rest, entry.code);
        chosen.push_reserved(kept_or(old, entry, fired));
    }
}
