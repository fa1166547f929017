ghost use Rattle.std.specs.Prelude.{◌≡◌, ◌+◌, ◌*◌, ◌^◌, ◌<◌, IfOk, OnOk};
ghost use Rattle.std.specs.List.{AllByRecursion};
ghost use Rattle.kmc_base.specs.Entries.{IsRising, codes_of};
ghost use Rattle.process_queue.specs.Renewal.{IsPart, anchor_in};

use crate::part::AnchorEntries;
use crate::queue::ProcessQueue;
use kmc_base::{Entry, OutOfMemory, Sequence, SiteId, When};
use std::alloc::{AllocError, Global};
use std::process::Abort;
use std::test::Fail;

/// An instance of a process at an anchor.
fn entry(process: u64, anchor: u32, lg: i64, when: When) -> Entry
    requires process { process < 4 }
    requires anchor { anchor < 6 }
    ensures { result.code ≡ process * 2 ^ 55 + anchor * 2 ^ 35 }
{
    Entry {
        code: (u128::from(process) << 55) + (u128::from(anchor) << 35),
        lg: Some(lg),
        born: 0,
        born_time: 0,
        when,
    }
}

/// Adds the entry of a process, or none, by the bits of a number.
fn add_entry(
    entries: &mut Vec<Entry>,
    process: u64,
    anchor: u32,
    bits: u64,
) -> Result<(), AllocError>
    requires process { process < 4 }
    requires anchor { anchor < 6 }
    requires rising { IsRising (codes_of entries.old.items) }
    requires below { AllByRecursion (λ n. n < process * 2 ^ 55) (codes_of entries.old.items) }
    requires anchored { AllByRecursion (λ e. anchor_in e.code ≡ anchor) entries.old.items }
    ensures rising { OnOk result (IsRising (codes_of entries.new.items)) }
    ensures below { OnOk result (AllByRecursion (λ n. n < (process + 1) * 2 ^ 55) (codes_of entries.new.items)) }
    ensures anchored { OnOk result (AllByRecursion (λ e. anchor_in e.code ≡ anchor) entries.new.items) }
{
    if bits % 3 == 2 {
        return Ok(());
    }
    let when = if bits % 8 < 7 {
        When::At(u128::from(bits % 32))
    } else {
        When::Never
    };
    let lg = if bits % 16 < 8 { 1 } else { 2 };
    entries.push(entry(process, anchor, lg, when))?;
    Ok(())
}

/// A part by the bits of a number: some of the entries of four processes.
fn part_of(alloc: Global, anchor: u32, number: u64) -> Result<AnchorEntries, AllocError>
    requires { anchor < 6 }
    ensures part { IfOk result (λ part. IsPart part) }
    ensures anchor { IfOk result (λ part. part.anchor.0 ≡ anchor) }
{
    let mut entries = Vec::new(alloc);
    for process in 0..4 {
        add_entry(&mut entries, process, anchor, number >> (8 * process))?;
    }
    Ok(AnchorEntries {
        anchor: SiteId(anchor),
        entries: Sequence::new(entries),
    })
}

fn renew_two(
    queue: &mut ProcessQueue,
    low: AnchorEntries,
    high: AnchorEntries,
    fired: Option<u128>,
) -> Result<(), OutOfMemory>
    requires low { IsPart low }
    requires high { IsPart high }
    requires differ { low.anchor.0 < high.anchor.0 }
    requires within { high.anchor.0 < queue.old.sites }
    ensures sites { queue.new.sites ≡ queue.old.sites }
{
    queue.renew(&[low, high], fired)
}

fn renew_one(
    queue: &mut ProcessQueue,
    part: AnchorEntries,
    fired: Option<u128>,
) -> Result<(), OutOfMemory>
    requires part { IsPart part }
    requires within { part.anchor.0 < queue.old.sites }
    ensures sites { queue.new.sites ≡ queue.old.sites }
{
    queue.renew(&[part], fired)
}

/// Two entries of site 0: one that fires at a time, and one that never does.
fn two_of_site_0(alloc: Global, time: u128) -> Result<AnchorEntries, AllocError>
    ensures part { IfOk result (λ part. IsPart part) }
    ensures anchor { IfOk result (λ part. part.anchor.0 ≡ 0) }
{
    let first = entry(0, 0, 5, When::At(time));
    let second = entry(1, 0, 5, When::Never);
    Ok(AnchorEntries {
        anchor: SiteId(0),
        entries: Sequence::new(vec![in alloc; first, second]?),
    })
}

fn none_of_site_0(alloc: Global) -> AnchorEntries
    ensures part { IsPart result }
    ensures anchor { result.anchor.0 ≡ 0 }
{
    AnchorEntries {
        anchor: SiteId(0),
        entries: Sequence::new(Vec::new(alloc)),
    }
}

#[test]
fn times_are_kept_or_replaced(rt: HostRuntime) -> Result<(), Fail> {
    let alloc = rt.alloc();
    let mut queue = ProcessQueue::new(alloc, 1)?;
    assert!(rt; queue.is_empty());
    renew_one(&mut queue, two_of_site_0(alloc, 7)?, None)?;
    assert_eq!(rt; queue.least(), Some((7, 0)));
    assert_eq!(rt; queue.len(), 2);
    // The rate is the same, so the time is kept.
    renew_one(&mut queue, two_of_site_0(alloc, 9)?, None)?;
    assert_eq!(rt; queue.least(), Some((7, 0)));
    // It has fired, so the time is a fresh one.
    renew_one(&mut queue, two_of_site_0(alloc, 9)?, Some(0))?;
    assert_eq!(rt; queue.least(), Some((9, 0)));
    renew_one(&mut queue, none_of_site_0(alloc), None)?;
    assert_eq!(rt; queue.least(), None);
    assert_eq!(rt; queue.len(), 0);
    assert_eq!(rt; queue.sites(), 1);
    Ok(())
}

/// A number that looks random (SplitMix64).
fn number_at(step: u64) -> u64 {
    let seed = step.wrapping_mul(0x9e37_79b9_7f4a_7c15);
    let first = (seed ^ (seed >> 30)).wrapping_mul(0xbf58_476d_1ce4_e5b9);
    let second = (first ^ (first >> 27)).wrapping_mul(0x94d0_49bb_1331_11eb);
    second ^ (second >> 31)
}

/// The entry of a code in a plain list.
fn found(list: &[Entry], code: u128) -> Option<Entry> {
    for entry in list {
        if entry.code == code {
            return Some(*entry);
        }
    }
    None
}

/// The time and the code of the entry in a plain list that fires first.
fn least(list: &[Entry]) -> Option<(u128, u128)> {
    let mut least = None;
    for entry in list {
        if let When::At(time) = entry.when {
            let firing = (time, entry.code);
            least = match least {
                Some(first) if first < firing => least,
                _ => Some(firing),
            };
        }
    }
    least
}

/// A plain list after the entries of an anchor are renewed.
fn renewed(
    alloc: Global,
    list: &[Entry],
    part: &AnchorEntries,
    fired: Option<u128>,
) -> Result<Vec<Entry>, AllocError> {
    let mut after = Vec::new(alloc);
    for entry in list {
        if (entry.code >> 35) % (1 << 20) != u128::from(part.anchor.0) {
            after.push(*entry)?;
        }
    }
    for fresh in part.entries.as_slice() {
        let entry = match found(list, fresh.code) {
            Some(old) if old.lg == fresh.lg && fired != Some(fresh.code) => old,
            _ => *fresh,
        };
        after.push(entry)?;
    }
    Ok(after)
}

/// Compares a queue with a plain list, also at the codes of a site and at one that no instance has.
fn compare(rt: &impl Abort, queue: &ProcessQueue, list: &[Entry], site: u64) {
    assert_eq!(rt; queue.least(), least(list));
    assert_eq!(rt; queue.len(), list.len());
    for process in 0..5_u64 {
        let code = (u128::from(process) << 55) + (u128::from(site % 7) << 35);
        assert_eq!(rt; queue.get(code), found(list, code));
    }
}

/// Renews two anchors of a queue and of a plain list.
fn renew_both(
    alloc: Global,
    queue: &mut ProcessQueue,
    list: &[Entry],
    number: u64,
) -> Result<Vec<Entry>, Fail>
    requires { queue.old.sites ≡ 6 }
    ensures { queue.new.sites ≡ 6 }
{
    let fired = match queue.least() {
        Some((_, code)) if number % 4 < 3 => Some(code),
        _ => None,
    };
    let low = part_of(alloc, (number / 4 % 3) as u32, number >> 8)?;
    let high = part_of(alloc, (number / 16 % 3) as u32 + 3, number >> 32)?;
    let halfway = renewed(alloc, list, &low, fired)?;
    let after = renewed(alloc, &halfway, &high, fired)?;
    renew_two(queue, low, high, fired)?;
    Ok(after)
}

#[test]
fn random_renewals_agree_with_a_plain_list(rt: HostRuntime) -> Result<(), Fail> {
    let alloc = rt.alloc();
    let mut queue = ProcessQueue::new(alloc, 6)?;
    let mut list = Vec::new(alloc);
    for step in 0..10_000 {
        let number = number_at(step);
        list = renew_both(alloc, &mut queue, &list, number)?;
        compare(&rt, &queue, &list, number / 64);
    }
    Ok(())
}
