//! The names of processes.

ghost use Rattle.std.specs.Prelude.{◌≡◌, ◌++◌, IfOk, map};
ghost use Rattle.deck_join.specs.ProcessNames.{name_of, names_of, names_of_step};
ghost use Rattle.deck_join.specs.Views.{named_at, named_steps_at};

use crate::steps::NamedStep;
use kmc_base::{OutOfMemory, Sequence};
use std::alloc::Global;

/// The name of a step, with that of its variant where it has one, and something behind it.
fn name_with(
    alloc: Global,
    bytes: &[u8],
    step: &NamedStep,
    ending: &[u8],
) -> Result<Sequence<u8>, OutOfMemory>
    ensures { IfOk result (λ name. name ≡ name_of (named_at bytes.now step.now) ++ ending.now) }
{
    let mut name = Vec::from_slice(alloc, step.step.name.span.bytes(bytes))?;
    if let Some(variant) = step.step.variant {
        name.push(b':')?;
        name.extend_from_slice(variant.span.bytes(bytes))?;
    }
    name.extend_from_slice(ending)?;
    Ok(Sequence::new(name))
}

/// The names so far, and those of the processes of a step.
fn with_step(
    alloc: Global,
    bytes: &[u8],
    step: &NamedStep,
    mut names: Vec<Sequence<u8>>,
) -> Result<Vec<Sequence<u8>>, OutOfMemory>
    ensures { IfOk result (λ all. all.items ≡ names.items ++ names_of_step (named_at bytes.now step.now)) }
{
    if step.step.reversible {
        names.push(name_with(alloc, bytes, step, b"/fwd")?)?;
        names.push(name_with(alloc, bytes, step, b"/rev")?)?;
    } else {
        names.push(name_with(alloc, bytes, step, b"")?)?;
    }
    Ok(names)
}

/// The names of the processes of steps, in their order.
pub(crate) fn names_of(
    alloc: Global,
    bytes: &[u8],
    steps: &[NamedStep],
) -> Result<Vec<Sequence<u8>>, OutOfMemory>
    ensures { IfOk result (λ names. names.items ≡ names_of (named_steps_at bytes.now steps.now)) }
{
    let mut names = Vec::new(alloc);
    for step in steps {
        names = with_step(alloc, bytes, step, names)?;
    }
    Ok(names)
}
