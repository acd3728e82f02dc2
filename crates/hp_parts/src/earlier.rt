//! The order of schedules.
ghost use Rattle.std.specs.Prelude.{◌≡◌, OnErr, OnOk};
ghost use Rattle.std.specs.Cmp.Lexicographic.{slice_cmp};
ghost use Rattle.std.specs.Ordering.{nat_cmp};
ghost use Rattle.hp_parts.specs.Adding.{earlier};

use hp_units::Cpu;
use std::alloc::{AllocError, Global};
use std::cmp::Ordering;

/// Compares two schedules by the processors at their first difference. A schedule that continues
/// another comes after it.
pub(crate) fn order_of(schedule: &[Cpu], other: &[Cpu]) -> Ordering
    ensures { result ≡ slice_cmp nat_cmp schedule.now other.now }
{
    for place in 0..schedule.len() {
        if place >= other.len() {
            return Ordering::Greater;
        }
        let cpu = schedule[place];
        let next = other[place];
        let order = cpu.0.cmp(&next.0);
        if order != Ordering::Equal {
            return order;
        }
    }
    if schedule.len() < other.len() {
        Ordering::Less
    } else {
        Ordering::Equal
    }
}

/// Replaces `kept` by the other schedule if that one is earlier. If memory runs out, `kept` stays
/// as it was.
pub(crate) fn keep_earlier(
    alloc: Global,
    kept: &mut Vec<Cpu>,
    other: &[Cpu],
) -> Result<(), AllocError>
    ensures ok { OnOk result (kept.new.items ≡ earlier other.now kept.old.items) }
    ensures err { OnErr result (kept.new ≡ kept.old) }
{
    match order_of(other, kept.as_slice()) {
        Ordering::Less => {
            *kept = other.iter().copied().collect(alloc)?;
            Ok(())
        }
        Ordering::Equal | Ordering::Greater => Ok(()),
    }
}
