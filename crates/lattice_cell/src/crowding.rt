ghost use Rattle.std.specs.Prelude.{◌≡◌, ◌*◌, ◌≤◌, All, IfOk, length, nat_lt};
ghost use Rattle.std.specs.List.{list_any};
ghost use Rattle.kmc_base.specs.declared.limits.TheConstants.{MAX_SITES};
ghost use Rattle.lattice_cell.specs.Cells.{IsInCell};
ghost use Rattle.lattice_cell.specs.Periodic.{neighbour_lists};

use crate::cell::Join;
use crate::distinct::distinct_joins;
use crate::neighbours::Neighbours;
use crate::repeats::Repeats;
use kmc_base::OutOfMemory;
use lattice_core::MAX_NEIGHBOURS;
use std::alloc::Global;

/// Whether these joins give some site more than `MAX_NEIGHBOURS` neighbours. It stops at the first join that does.
fn crowds(alloc: Global, repeats: Repeats, joins: &[Join]) -> Result<bool, OutOfMemory>
    requires { All (IsInCell repeats.sites) joins.now }
    ensures { IfOk result (λ b. b ≡ list_any (λ list. nat_lt MAX_NEIGHBOURS (length list))
        (neighbour_lists repeats.nx repeats.ny repeats.sites joins.now)) }
{
    let mut neighbours = Neighbours::none(alloc, repeats.count())?;
    for join in joins {
        neighbours.join_cells(repeats, *join)?;
        if neighbours.is_crowded() {
            return Ok(true);
        }
    }
    Ok(false)
}

/// Whether some site of the lattice of a cell of so many sites has more than `MAX_NEIGHBOURS` neighbours.
///
/// A site that is joined to itself counts among its neighbours here. Equal joins cost no more than their sorting, and the
/// work ends at the first join that gives a site too many neighbours, so that no list grows much longer.
pub fn is_crowded(
    alloc: Global,
    nx: u32,
    ny: u32,
    sites: u32,
    joins: &[Join],
) -> Result<bool, OutOfMemory>
    requires has_a_site { 1 ≤ nx * ny * sites }
    requires within_limit { nx * ny * sites ≤ MAX_SITES }
    requires ends { All (IsInCell sites) joins.now }
    ensures { IfOk result (λ b. b ≡ list_any (λ list. nat_lt MAX_NEIGHBOURS (length list)) (neighbour_lists nx ny sites joins.now)) }
{
    let repeats = Repeats { nx, ny, sites };
    let joins = distinct_joins(alloc, joins)?;
    crowds(alloc, repeats, &joins)
}
