ghost use Rattle.std.specs.Prelude.{◌≡◌, ◌+◌, ◌-◌, ◌*◌, ◌/◌, ◌<◌, ◌≤◌, ◌^◌, false, OnOk, length};
ghost use Rattle.process_queue.specs.LeadTree.{AreReal, IsReal, IsRight, IsRightBut, lead_at, lead_from, room_firing};

use crate::lead::{Lead, firing, first};
use kmc_base::{Entry, Firing, OutOfMemory};
use slab::Slab;

/// The firing of the entry in a room.
fn firing_in(slab: &Slab<Entry>, room: usize) -> Option<Firing>
    ensures { result ≡ room_firing slab.now.slots room }
{
    firing(slab.get(room)?)
}

/// The firing that a node names. One that is not there names none.
pub(crate) fn lead_at(leads: &[Lead], node: usize) -> Option<Firing>
    ensures value { result ≡ lead_at leads.now node }
    ensures real { IsReal result }
{
    leads.get(node)?.get()
}

/// The firing that a node should name.
fn lead_from(slab: &Slab<Entry>, leads: &[Lead], node: usize) -> Option<Firing>
    requires real { AreReal slab.now.slots }
    requires small { node < 2 ^ 62 }
    ensures value { result ≡ lead_from slab.now.slots leads.now node }
    ensures real { IsReal result }
{
    let above = first(firing_in(slab, node), lead_at(leads, 2 * node + 1));
    first(above, lead_at(leads, 2 * node + 2))
}

/// Mends a node. The answer is whether it names another firing now.
fn mend_node(slab: &Slab<Entry>, leads: &mut Vec<Lead>, node: usize) -> bool
    requires within { node < length leads.old.items }
    requires real { AreReal slab.now.slots }
    requires others { IsRightBut slab.now.slots leads.old.items node }
    ensures len { length leads.new.items ≡ length leads.old.items }
    ensures stays { result ≡ false → IsRight slab.now.slots leads.new.items }
    ensures root { node ≡ 0 → IsRight slab.now.slots leads.new.items }
    ensures above { 0 < node → IsRightBut slab.now.slots leads.new.items ((node - 1) / 2) }
{
    let lead = lead_from(slab, leads, node);
    if lead_at(leads, node) == lead {
        return false;
    }
    leads[node] = Lead::new(lead);
    true
}

/// Mends the nodes above a room that has changed, up to the first that names what it named before.
pub(crate) fn mend(slab: &Slab<Entry>, leads: &mut Vec<Lead>, room: usize)
    requires within { room < length leads.old.items }
    requires real { AreReal slab.now.slots }
    requires others { IsRightBut slab.now.slots leads.old.items room }
    ensures len { length leads.new.items ≡ length leads.old.items }
    ensures right { IsRight slab.now.slots leads.new.items }
{
    let mut node = room;
    while mend_node(slab, leads, node) {
        if node == 0 {
            break;
        }
        node = (node - 1) / 2;
    }
}

/// Adds nodes that name no firing, up to this length.
pub(crate) fn lengthen(leads: &mut Vec<Lead>, len: usize) -> Result<(), OutOfMemory>
    ensures same { (node : _) → lead_at leads.new.items node ≡ lead_at leads.old.items node }
    ensures longer { length leads.old.items ≤ length leads.new.items }
    ensures ok { OnOk result (len ≤ length leads.new.items) }
{
    while leads.len() < len {
        leads.push(Lead::new(None))?;
    }
    Ok(())
}
