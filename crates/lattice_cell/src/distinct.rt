ghost use Rattle.std.specs.Prelude.{◌≡◌, All, Bool, Contains, IfOk};
ghost use Rattle.std.specs.List.{list_any};
ghost use Rattle.lattice_cell.specs.declared.cell.Join.{Join};

use crate::cell::Join;
use std::alloc::{AllocError, Global};

/// The joins of a list, each once.
pub(crate) fn distinct_joins(alloc: Global, joins: &[Join]) -> Result<Vec<Join>, AllocError>
    ensures same { IfOk result (λ kept. (p : Join → Bool) → list_any p kept.items ≡ list_any p joins.now) }
    ensures among { IfOk result (λ kept. All (Contains joins.now) kept.items) }
{
    let mut kept = joins.to_vec(alloc)?;
    kept.sort_unstable();
    kept.dedup();
    Ok(kept)
}
