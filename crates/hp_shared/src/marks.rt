//! How far a seat's receipts have been compared with its processor's records.
ghost use Rattle.std.specs.Prelude.{◌≡◌, ◌<◌, ◌^◌, ◌-◌, ◌++◌, ◌∷◌, [], List, None, Some, IsTrue, ◌↔◌, slice_get};
ghost use Rattle.hp_units.specs.Receipts.{DifferAt, receipt_of};
ghost use Rattle.hp_units.specs.declared.replies.Receipt.{Receipt};
ghost use Rattle.hp_shared.specs.Marks.{EntryDiffersAt, IsMark, lower};
ghost use Rattle.hp_shared.specs.Comparing.{IsOutcome};

use hp_units::{Receipt, Record, Serial};

/// How far a seat's receipts have been compared with its processor's records.
#[derive(Clone, Copy, Drop)]
pub struct Compared {
    /// How many of the processor's records were compared.
    pub next: usize,
    /// The lowest serial so far at which the seat's receipts differ from the processor's records.
    pub lowest: Option<Serial>,
}

impl Compared {
    /// Returns the mark before any record.
    pub fn start() -> Compared
        ensures { result ≡ record { next = 0; lowest = None } }
    {
        Compared {
            next: 0,
            lowest: None,
        }
    }

    /// Returns the mark after one more record of the seat's processor.
    pub fn step(self, receipts: &[Receipt], latest: &Record) -> Compared
        requires { self.next < 2 ^ 64 - 1 }
        ensures { (done : List Receipt) → IsMark receipts.now done self
            → IsMark receipts.now (done ++ receipt_of latest.now ∷ []) result }
    {
        let here = difference(receipts, self.next, latest);
        Compared {
            next: self.next + 1,
            lowest: lower(self.lowest, here),
        }
    }

    /// Returns the lowest serial at which the receipts differ from the records that were compared.
    /// Receipts past these records count as different.
    pub fn finish(self, receipts: &[Receipt]) -> Option<Serial>
        ensures { (done : List Receipt) → IsMark receipts.now done self
            → IsOutcome (receipts.now ≡ done) (DifferAt receipts.now done) result }
    {
        let mut lowest = self.lowest;
        for place in self.next..receipts.len() {
            lowest = lower(lowest, Some(receipts[place].serial));
        }
        lowest
    }
}

/// Returns the lower of two serials; if only one is there, that one; otherwise `None`.
pub fn lower(one: Option<Serial>, other: Option<Serial>) -> Option<Serial>
    ensures { result ≡ lower one other }
{
    match one {
        None => other,
        Some(m) => match other {
            None => one,
            Some(n) => { if m.0 <= n.0 { one } else { other } }
        },
    }
}

/// Compares the receipt at index `place` with a record. Returns `None` if it is the record's
/// receipt, and otherwise the lower of their two serials. Without a receipt there, this is
/// the record's serial.
fn difference(receipts: &[Receipt], place: usize, latest: &Record) -> Option<Serial>
    ensures { IsOutcome (slice_get receipts.now place ≡ Some (receipt_of latest.now))
        (EntryDiffersAt (slice_get receipts.now place) (receipt_of latest.now)) result }
{
    if place >= receipts.len() {
        return Some(latest.serial);
    }
    let receipt = &receipts[place];
    if is_of(receipt, latest) {
        None
    } else {
        lower(Some(latest.serial), Some(receipt.serial))
    }
}

/// Returns whether a receipt is a record's.
fn is_of(receipt: &Receipt, latest: &Record) -> bool
    ensures { IsTrue result ↔ (receipt.now ≡ receipt_of latest.now) }
{
    receipt.serial == latest.serial
        && receipt.event.same(&latest.event)
        && receipt.reply.same(&latest.reply)
}
