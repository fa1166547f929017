ghost use Rattle.std.specs.Prelude.{◌≡◌, ◌^◌, ◌≤◌, IfOk, unsigned_abs};
ghost use Rattle.std.specs.Option.{ForSome};
ghost use Rattle.lattice_core.specs.Config.{state_at};
ghost use Rattle.lattice_core.specs.SiteList.{site_numbers};
ghost use Rattle.rate_rules.specs.Soundness.{IsInstance};
ghost use Rattle.rate_rules.specs.System.{rate_of};

use crate::barriers::barrier;
use crate::chemistry::{Chemistry, Process};
use crate::rate::lg_rate;
use crate::reaction::{whole_change, zero_change};
use kmc_base::OutOfMemory;
use lattice_core::{Config, Steps};
use pattern_types::Placement;
use std::alloc::Global;
use std::sync::ledger::Ledger;

/// The base-2 logarithm of the rate in 1/s of an instance of a process, in units of 2^-30, by sums over the whole lattice;
/// `None` if the process has no factor.
///
/// It counts each read of a state of the configuration.
pub fn whole_rate<L: Ledger>(
    alloc: Global,
    chem: &Chemistry,
    config: &Config,
    process: &Process,
    placement: &Placement,
    steps: &mut Steps<L>,
) -> Result<Option<i64>, OutOfMemory>
    requires { IsInstance chem.now process.now config.now (site_numbers placement.now) }
    ensures value { IfOk result (λ lg. lg ≡ rate_of chem.now (state_at config.now) process.now (site_numbers placement.now)) }
    ensures range { IfOk result (λ rate. ForSome rate (λ lg. unsigned_abs lg ≤ 2 ^ 42)) }
{
    let d = whole_change(alloc, chem, config, process, placement, steps)?;
    let d0 = zero_change(alloc, chem, process, placement)?;
    Ok(lg_rate(chem, process, barrier(process, d, d0)))
}
