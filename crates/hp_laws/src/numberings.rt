//! Numbers of operations that do not depend on when the operations began.
ghost use Rattle.std.specs.Prelude.{◌≡◌, ℕ, ◌<◌, ◌≤◌, ◌^◌, ◌*◌, IfNone, IfSome, List};
ghost use Rattle.std.specs.List.{AllByRecursion};
ghost use Rattle.hp_laws.specs.Numberings.{index_of, number_of, place_of};
ghost use Rattle.hp_laws.specs.Renumbered.{IsOneToOne};

use hp_units::Serial;

/// Returns the index of the processor whose latest operation is `op`, if any. `latest` has the
/// latest operation of each processor.
///
/// Returns `None` for an operation up to `fixed`, because a script may name it by its number.
pub fn place_of(fixed: Serial, latest: &[Serial], op: Serial) -> Option<usize>
    ensures { result ≡ place_of fixed latest.now op }
{
    if op.0 <= fixed.0 {
        return None;
    }
    index_of(latest, op)
}

/// Returns a number for the operation: 2k + 1 if it is above `fixed` and is the latest operation of
/// processor k, and twice its own number otherwise.
///
/// Returns `None` if the number is 2^64 or greater.
pub fn number_of(fixed: Serial, latest: &[Serial], op: Serial) -> Option<u64>
    ensures some { IfSome result (λ number. number ≡ number_of fixed latest.now op) }
    ensures none { IfNone result (2 ^ 64 ≤ number_of fixed latest.now op) }
{
    match place_of(fixed, latest, op) {
        Some(place) => (place as u64).checked_mul(2)?.checked_add(1),
        None => op.0.checked_mul(2),
    }
}

/// `number_of` gives no two operations the same number. An operation above all of `latest` gets
/// twice its own number, and so does an operation up to `fixed`.
pub fn numbers_differ()
    ensures differ { (fixed : ℕ) (latest : List ℕ) → IsOneToOne (number_of fixed latest) }
    ensures later { (fixed : ℕ) (latest : List ℕ) (op : ℕ) → AllByRecursion (λ other. other < op) latest
        → number_of fixed latest op ≡ 2 * op }
    ensures fixed { (fixed : ℕ) (latest : List ℕ) (op : ℕ) → op ≤ fixed
        → number_of fixed latest op ≡ 2 * op }
{}

/// Returns the index of the first entry that is `op`.
fn index_of(latest: &[Serial], op: Serial) -> Option<usize>
    ensures { result ≡ index_of op latest.now }
{
    for index in 0..latest.len() {
        if latest[index] == op {
            return Some(index);
        }
    }
    None
}
