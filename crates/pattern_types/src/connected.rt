ghost use Rattle.std.specs.Prelude.{◌≡◌, ◌≤◌, ◌↔◌, false, IsTrue};
ghost use Rattle.std.specs.List.{list_any};
ghost use Rattle.pattern_types.specs.Connected.{is_connected};
ghost use Rattle.pattern_types.specs.Edges.{are_adjacent, is_bad_edge};
ghost use Rattle.pattern_types.specs.Walk.{IsConnected};

use crate::edges::table;
use crate::limits::MAX_VERTICES;
use crate::order::vertex_order;

/// Whether edges connect `len` vertices: a walk of edges leads from each vertex to each. The law is about edges between
/// these vertices; other edges are ignored.
pub fn is_connected(edges: &[(u8, u8)], len: u8) -> bool
    requires some { 1 ≤ len }
    requires few { len ≤ MAX_VERTICES }
    ensures value { result ≡ is_connected edges.now len }
    ensures law { list_any (is_bad_edge len) edges.now ≡ false → (IsTrue result ↔ IsConnected (are_adjacent edges.now) len) }
{
    vertex_order(&table(edges), len).is_some()
}
