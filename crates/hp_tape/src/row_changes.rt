//! A memory block's rows before and after a change, packed to fit a delta.
ghost use Rattle.std.specs.Prelude.{◌≡◌, ◌<◌, ℕ, IfSome};
ghost use Rattle.std.specs.Int.{w64, from_le_bytes};
ghost use Rattle.hp_tape.specs.RowChanges.{AreOfOneOperation, claim_in, row_in, zone_in};

use hp_units::{Block, Claim, Row, Serial, State, Wish, Zone};
use std::marker::Model;

/// A memory block's rows before and after a change, in 15 bytes. In contracts, its value is the
/// block and the rows themselves.
#[derive(Drop)]
pub struct RowChange {
    block: u8,
    before: PackedRow,
    after: PackedRow,
    op: [u8; 8],
}

impl Model for RowChange {
    ghost use Rattle.std.specs.Int.{w64, from_le_bytes};
    ghost use Rattle.hp_tape.specs.RowChanges.{RowChangeValue, row_in};

    ghost Value = { RowChangeValue };

    ghost view = { λ c. record {
      block = c.block;
      before = row_in c.before (from_le_bytes w64 c.op);
      after = row_in c.after (from_le_bytes w64 c.op);
    } };
}

impl RowChange {
    /// Packs a change from one row to another. The block's number is below 256. If both rows have a
    /// claim, it must be the same operation's.
    pub fn new(block: Block, before: &Row, after: &Row) -> RowChange
        requires block { block < 256 }
        requires one { AreOfOneOperation before.now.claim after.now.claim }
        ensures { result ≡ record { block = block; before = before.now; after = after.now } }
    {
        RowChange {
            block: block.0 as u8,
            before: PackedRow::new(before),
            after: PackedRow::new(after),
            op: one_op(before.claim, after.claim).to_le_bytes(),
        }
    }

    /// Returns a copy.
    pub(crate) fn copy(&self) -> RowChange
        ensures { result ≡ self.now }
    {
        RowChange {
            block: self.block,
            before: self.before,
            after: self.after,
            op: self.op,
        }
    }

    /// Returns the memory block.
    pub fn block(&self) -> Block
        ensures { result ≡ self.now.block }
    {
        Block(u32::from(self.block))
    }

    /// Returns the row before the change.
    pub fn before(&self) -> Row
        ensures { result ≡ self.now.before }
    {
        self.before.row(op_in(self.op))
    }

    /// Returns the row after the change.
    pub fn after(&self) -> Row
        ensures { result ≡ self.now.after }
    {
        self.after.row(op_in(self.op))
    }
}

/// A memory block's row in 3 bytes, without the number of its claim's operation.
#[derive(Clone, Copy, Drop)]
struct PackedRow {
    state: State,
    zone: ZonePart,
    wish: WishPart,
}

impl PackedRow {
    fn new(row: &Row) -> PackedRow
        ensures { (op : ℕ) → IfSome row.now.claim (λ claim. claim.op ≡ op) → row_in result op ≡ row.now }
    {
        PackedRow {
            state: row.state,
            zone: ZonePart::of(row.zone),
            wish: WishPart::of(row.claim),
        }
    }

    fn row(self, op: Serial) -> Row
        ensures { result ≡ row_in self op }
    {
        Row {
            state: self.state,
            zone: self.zone.zone(),
            claim: self.wish.claim(op),
        }
    }
}

/// The zone of a row, or none, in one byte.
#[derive(Clone, Copy, Drop)]
enum ZonePart {
    None,
    Normal,
    Movable,
}

impl ZonePart {
    fn of(zone: Option<Zone>) -> ZonePart
        ensures { zone_in result ≡ zone }
    {
        match zone {
            None => ZonePart::None,
            Some(Zone::Normal) => ZonePart::Normal,
            Some(Zone::Movable) => ZonePart::Movable,
        }
    }

    fn zone(self) -> Option<Zone>
        ensures { result ≡ zone_in self }
    {
        match self {
            ZonePart::None => None,
            ZonePart::Normal => Some(Zone::Normal),
            ZonePart::Movable => Some(Zone::Movable),
        }
    }
}

/// The wish of a row's claim, or none, in one byte.
#[derive(Clone, Copy, Drop)]
enum WishPart {
    None,
    Off,
    Normal,
    Movable,
}

impl WishPart {
    fn of(claim: Option<Claim>) -> WishPart
        ensures { (op : ℕ) → IfSome claim (λ c. c.op ≡ op) → claim_in result op ≡ claim }
    {
        match claim {
            None => WishPart::None,
            Some(claim) => match claim.wish {
                Wish::Off => WishPart::Off,
                Wish::Normal => WishPart::Normal,
                Wish::Movable => WishPart::Movable,
            },
        }
    }

    fn claim(self, op: Serial) -> Option<Claim>
        ensures { result ≡ claim_in self op }
    {
        match self {
            WishPart::None => None,
            WishPart::Off => Some(Claim {
                op,
                wish: Wish::Off,
            }),
            WishPart::Normal => Some(Claim {
                op,
                wish: Wish::Normal,
            }),
            WishPart::Movable => Some(Claim {
                op,
                wish: Wish::Movable,
            }),
        }
    }
}

/// Returns the operation's number from its bytes, lowest first.
fn op_in(bytes: [u8; 8]) -> Serial
    ensures { result ≡ from_le_bytes w64 bytes }
{
    Serial(u64::from_le_bytes(bytes))
}

/// Returns the number of the operation that either claim names, or 0 if there is no claim.
fn one_op(before: Option<Claim>, after: Option<Claim>) -> u64
    requires { AreOfOneOperation before after }
    ensures before { IfSome before (λ claim. claim.op ≡ result) }
    ensures after { IfSome after (λ claim. claim.op ≡ result) }
{
    match (before, after) {
        (Some(claim), _) | (None, Some(claim)) => claim.op.0,
        (None, None) => 0,
    }
}
