ghost use Rattle.std.specs.Prelude.{IfOk};
ghost use Rattle.rate_rules.specs.Soundness.{HasSoundNumbers};

use crate::occupied_sites::DENTATES;
use crate::small_chemistries::{ADSORPTION, Step, process};
use dec_text::{Decimal, read_decimal};
use kmc_base::{MAX_SPECIES, Sequence};
use lattice_core::Graph;
use rate_rules::{Chemistry, Process, barrier, factor_of, lg_rate};
use std::alloc::Global;
use std::test::Fail;

/// The decimal of a word.
fn decimal(word: &str) -> Result<Decimal, Fail> {
    Ok(read_decimal(word.as_bytes()).ok().ok_or("no decimal")?)
}

/// The decimals of molar fractions, each with the number of molecules of its gas that are consumed.
fn consumed(alloc: Global, gases: &[(&str, u8)]) -> Result<Vec<(Decimal, u8)>, Fail> {
    let mut consumed = Vec::new(alloc);
    for (fraction, number) in gases {
        consumed.push((decimal(*fraction)?, *number))?;
    }
    Ok(consumed)
}

/// A factor: the pre-exponential factor, the ratio of a reverse process, the pressure, the molar fractions of gases,
/// each with the number of molecules that are consumed, and the logarithm that is wanted.
type FactorCase = (
    &'static str,
    Option<&'static str>,
    &'static str,
    &'static [(&'static str, u8)],
    Option<i64>,
);

/// The logarithm of the factor of a case.
fn factor(alloc: Global, case: &FactorCase) -> Result<Option<i64>, Fail> {
    let (pre_exponential, ratio, pressure, gases, _) = *case;
    let consumed = consumed(alloc, gases)?;
    let ratio = match ratio {
        Some(word) => Some(decimal(word)?),
        None => None,
    };
    if consumed.len() > MAX_SPECIES {
        return Err("too many gases")?;
    }
    Ok(factor_of(
        &decimal(pre_exponential)?,
        &ratio,
        &decimal(pressure)?,
        &consumed,
    ))
}

/// The logarithm of 10 is 3566893132.
const FACTORS: &[FactorCase] = &[
    ("1.0e13", None, "1.0", &[], Some(46_369_610_716)),
    ("1.0e13", None, "0.0", &[("1.0", 0)], Some(46_369_610_716)),
    ("1.0e13", Some("10.0"), "1.0", &[], Some(42_802_717_584)),
    ("0.0", None, "1.0", &[], None),
    ("1.0", None, "100.0", &[("0.1", 2)], Some(7_133_786_264)),
    (
        "1.0",
        Some("0.01"),
        "100.0",
        &[("0.1", 1), ("1.0", 1)],
        Some(17_834_465_660),
    ),
    ("1.0", None, "0.0", &[("0.1", 1)], None),
    ("1.0", None, "1.0", &[("1.0", 1), ("0.0", 1)], None),
    ("1.0", None, "1.0", &[("1.0", 1), ("0.0", 0)], Some(0)),
];

#[test]
fn factors(rt: HostRuntime) -> Result<(), Fail> {
    for case in FACTORS {
        assert_eq!(rt; factor(rt.alloc(), case)?, case.4, "{case:?}");
    }
    Ok(())
}

/// One direction of adsorption with this activation energy and proximity factor.
fn process_of(
    alloc: Global,
    activation: i64,
    proximity: u32,
    forward: bool,
) -> Result<Process, Fail>
    ensures { IfOk result HasSoundNumbers }
{
    let step = Step {
        forward,
        activation,
        proximity,
        ..ADSORPTION
    };
    process(alloc, &step, &DENTATES)
}

/// The logarithm of a factor, a barrier, a temperature, and the logarithm of the rate.
type RateCase = (Option<i64>, u64, u32, Option<i64>);

const RATES: &[RateCase] = &[
    (
        Some(46_369_610_716),
        1_000_000_000,
        500_000,
        Some(10_416_910_329),
    ),
    (Some(46_369_610_716), 0, 500_000, Some(46_369_610_716)),
    (
        Some(0),
        4_000_000_000_000_000_000,
        1,
        Some(-4_398_046_511_104),
    ),
    (None, 1_000_000_000, 500_000, None),
    // The desorption of an adsorbate of -1 eV, with the factor 1e300.
    (
        Some(1_070_067_939_600),
        1_000_000_000,
        500_000,
        Some(1_034_115_239_213),
    ),
];

/// The logarithm of the rate of a case.
fn rate(alloc: Global, case: &RateCase) -> Result<Option<i64>, Fail> {
    let (factor, barrier, temperature, _) = *case;
    if barrier > 4_000_000_000_000_000_000 || temperature == 0 {
        return Err("no barrier or no temperature")?;
    }
    let mut process = process(alloc, &ADSORPTION, &DENTATES)?;
    process.factor = factor;
    let chem = Chemistry {
        graph: Graph::new(vec![in alloc; 0u16]?, vec![in alloc; Vec::new(alloc)]?)
            .ok()
            .ok_or("a fault")?,
        processes: Sequence::new(Vec::new(alloc)),
        clusters: Sequence::new(Vec::new(alloc)),
        temperature,
        radius: 0,
    };
    Ok(lg_rate(&chem, &process, i128::from(barrier)))
}

#[test]
fn rates(rt: HostRuntime) -> Result<(), Fail> {
    for case in RATES {
        assert_eq!(rt; rate(rt.alloc(), case)?, case.3, "{case:?}");
    }
    Ok(())
}

/// An activation energy, a proximity factor, a reaction energy and a bare one, and the barriers of both directions.
type BarrierCase = (i64, u32, i128, i128, (i128, i128));

const BARRIERS: &[BarrierCase] = &[
    (
        1_000_000_000,
        500_000_000,
        -200_000_000,
        0,
        (900_000_000, 1_100_000_000),
    ),
    (
        1_000_000_000,
        500_000_000,
        2_500_000_000,
        0,
        (2_500_000_000, 0),
    ),
    (1, 500_000_000, -1, 0, (0, 1)),
    (5, 0, -100, 7, (5, 105)),
    (5, 1_000_000_000, 10, 4, (11, 1)),
    (
        0,
        500_000_000,
        -1_000_000_000,
        -1_000_000_000,
        (0, 1_000_000_000),
    ),
];

/// The greatest magnitude of a reaction energy.
const MOST: u128 = 1_000_000_000_000_000_000;

/// The barriers of both directions of a case.
fn barriers(alloc: Global, case: &BarrierCase) -> Result<(i128, i128), Fail> {
    let (activation, proximity, d, d0, _) = *case;
    if d.unsigned_abs() > MOST || d0.unsigned_abs() > MOST {
        return Err("too great a reaction energy")?;
    }
    let forward = process_of(alloc, activation, proximity, true)?;
    let reverse = process_of(alloc, activation, proximity, false)?;
    Ok((barrier(&forward, d, d0), barrier(&reverse, d, d0)))
}

#[test]
fn barriers_of_steps(rt: HostRuntime) -> Result<(), Fail> {
    for case in BARRIERS {
        assert_eq!(rt; barriers(rt.alloc(), case)?, case.4, "{case:?}");
    }
    Ok(())
}
