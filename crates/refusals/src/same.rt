//! Comparisons of machines, records and volumes.
use hp_history::Volume;
use hp_machine::Machine;
use hp_units::{Receipt, Record};
use refused_values::{Outcome, expect};
use std::alloc::Global;

/// Checks that two machines have the same state, base and records, and as many sealed records and
/// steps to undo.
pub fn expect_same_machines(alloc: Global, one: &Machine, other: &Machine) -> Outcome {
    expect_same_states(alloc, one, other)?;
    expect(
        one.base().same(other.base())
            && one.sealed() == other.sealed()
            && one.journal_len() == other.journal_len()
            && same_records(one.history(), other.history()),
    )
}

/// Checks that two machines have the same state.
pub fn expect_same_states(alloc: Global, one: &Machine, other: &Machine) -> Outcome {
    let left = one.image(alloc)?;
    let right = other.image(alloc)?;
    expect(left.same(&right))
}

/// Returns whether records are the same, in the same order.
pub fn same_records(some: &[Record], others: &[Record]) -> bool {
    if some.len() != others.len() {
        return false;
    }
    for (record, other) in some.iter().zip(others.iter()) {
        if !same_record(record, other) {
            return false;
        }
    }
    true
}

/// Returns whether two records are the same.
fn same_record(one: &Record, other: &Record) -> bool {
    one.serial == other.serial
        && one.cpu == other.cpu
        && one.event.same(&other.event)
        && one.reply.same(&other.reply)
}

/// Returns whether two receipts are the same.
pub fn same_receipts(one: &Receipt, other: &Receipt) -> bool {
    one.serial == other.serial && one.event.same(&other.event) && one.reply.same(&other.reply)
}

/// Returns whether two volumes are the same.
pub fn same_volumes(one: &Volume, other: &Volume) -> bool {
    one.before == other.before
        && one.base.same(&other.base)
        && same_records(one.records.as_slice(), other.records.as_slice())
}
