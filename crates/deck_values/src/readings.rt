ghost use Rattle.std.specs.Prelude.{◌≡◌, ◌++◌, [], IfOk};
ghost use Rattle.deck_values.specs.Readings.{with_value};
ghost use Rattle.deck_words.specs.Faults.{earliest, fault_of};

use deck_words::{LineFault, earliest};
use kmc_base::OutOfMemory;

/// The values of those readings that have no fault, and the fault that counts of the others.
#[derive(Debug, Drop)]
pub struct Readings<T> {
    /// The values, in the order of their lines.
    pub values: Vec<T>,
    /// The earliest fault.
    pub fault: Option<LineFault>,
}

/// The readings so far and one more.
pub fn with_reading<T: Drop>(
    mut so_far: Readings<T>,
    next: Result<T, LineFault>,
) -> Result<Readings<T>, OutOfMemory>
    ensures values { IfOk result (λ all. all.values.items ≡ so_far.values.items ++ with_value next []) }
    ensures fault { IfOk result (λ all. all.fault ≡ earliest so_far.fault (fault_of next)) }
{
    match next {
        Ok(value) => {
            so_far.values.push(value)?;
            Ok(so_far)
        }
        Err(fault) => {
            so_far.fault = earliest(so_far.fault, Some(fault));
            Ok(so_far)
        }
    }
}
