//! The plan of a run, and its conditions.

ghost use Rattle.std.specs.Prelude.{◌≡◌};
ghost use Rattle.deck_shape.specs.Blocks.{block_at};
ghost use Rattle.sim_deck.specs.Values.{conditions_in, limit_in, limits_in, plan_in, pressure_in, sampling_in, samplings_in, seed_in, temperature_in};

use crate::ranges::{EVENT_LIMIT, PRESSURE, TIME_LIMIT};
use crate::samplings::sampling_of;
use crate::words::{OrInfinity, Temperature};
use dec_text::Decimal;
use deck_shape::{Block, Keyword};
use deck_values::{ANY_WHOLE, Amount};
use deck_words::{LineFault, ReadWord, at_line, both};
use kmc_base::MAX_EVENTS;
use run_plan::{Plan, Sampling};

/// The random seed.
fn seed_in(bytes: &[u8], block: &Block) -> Result<u64, LineFault>
    ensures { result ≡ seed_in (block_at bytes.now block.now) }
{
    block.value_or(bytes, Keyword::RandomSeed, &ANY_WHOLE, Ok(0))
}

/// A limit, if there is one.
pub(crate) fn limit_in<R: ReadWord + Drop>(
    number: R,
    bytes: &[u8],
    block: &Block,
    keyword: Keyword,
) -> Result<Option<R::Value>, LineFault>
    requires { R.is_usable number }
    ensures { result ≡ limit_in (R.value_of number) keyword (block_at bytes.now block.now) }
{
    block.value_or(bytes, keyword, &OrInfinity { number }, Ok(None))
}

/// When an output is sampled.
fn sampling_in(bytes: &[u8], block: &Block, keyword: Keyword) -> Result<Sampling, LineFault>
    ensures { result ≡ sampling_in keyword (block_at bytes.now block.now) }
{
    match block.item(bytes, keyword) {
        Some(item) => at_line(item.line.number, sampling_of(bytes, item.arguments())),
        None => Ok(Sampling::Off),
    }
}

/// The seed of a run and its limits.
fn limits_in(bytes: &[u8], block: &Block) -> Result<((u64, Option<u64>), Option<u128>), LineFault>
    ensures { result ≡ limits_in (block_at bytes.now block.now) }
{
    let time = Amount { range: TIME_LIMIT };
    let max_steps = limit_in(EVENT_LIMIT, bytes, block, Keyword::MaxSteps);
    let max_time = limit_in(time, bytes, block, Keyword::MaxTime);
    both(both(seed_in(bytes, block), max_steps), max_time)
}

/// When the three outputs are sampled.
fn samplings_in(bytes: &[u8], block: &Block) -> Result<((Sampling, Sampling), Sampling), LineFault>
    ensures { result ≡ samplings_in (block_at bytes.now block.now) }
{
    let history = sampling_in(bytes, block, Keyword::Snapshots);
    let procstat = sampling_in(bytes, block, Keyword::ProcessStatistics);
    let specnum = sampling_in(bytes, block, Keyword::SpeciesNumbers);
    both(both(history, procstat), specnum)
}

/// The plan of a run.
fn plan_in(bytes: &[u8], block: &Block) -> Result<Plan, LineFault>
    ensures { result ≡ plan_in (block_at bytes.now block.now) }
{
    let limits = limits_in(bytes, block);
    let samplings = samplings_in(bytes, block);
    let (((seed, max_steps), max_time), ((history, procstat), specnum)) = both(limits, samplings)?;
    Ok(Plan {
        seed,
        max_steps: max_steps.unwrap_or(MAX_EVENTS),
        max_time,
        history,
        procstat,
        specnum,
    })
}

/// The temperature, in mK.
fn temperature_in(bytes: &[u8], block: &Block) -> Result<u32, LineFault>
    ensures { result ≡ temperature_in (block_at bytes.now block.now) }
{
    let absent = Err(block.missing_word());
    block.value_or(bytes, Keyword::Temperature, &Temperature, absent)
}

/// The pressure, in bar.
fn pressure_in(bytes: &[u8], block: &Block) -> Result<Decimal, LineFault>
    ensures { result ≡ pressure_in (block_at bytes.now block.now) }
{
    let absent = Err(block.missing_word());
    block.value_or(bytes, Keyword::Pressure, &PRESSURE, absent)
}

/// The plan of a run, and the temperature and the pressure.
pub(crate) fn conditions_in(
    bytes: &[u8],
    block: &Block,
) -> Result<(Plan, (u32, Decimal)), LineFault>
    ensures { result ≡ conditions_in (block_at bytes.now block.now) }
{
    let plan = plan_in(bytes, block);
    let temperature = temperature_in(bytes, block);
    both(plan, both(temperature, pressure_in(bytes, block)))
}
