//! Tests of the memory blocks' rows and the pageblocks' kinds.
ghost use Rattle.std.specs.Prelude.{◌≡◌, MatchBool, length};
ghost use Rattle.hp_units.specs.Arithmetic.{pageblock_count};
ghost use Rattle.hp_units.specs.Placement.{IsRow, kind_at, row_at};
ghost use Rattle.hp_plain.specs.Placing.{AreKinds, AreRows, IsKind, row_in};

use hp_units::{Block, Kind, Layout, Mobility, Pageblock, Row, State, Zone};

/// Returns the row of a block, or an offline one past the last.
pub(crate) fn row_of(rows: &[Row], block: Block) -> Row
    ensures { result ≡ row_in rows.now block }
{
    match rows.get(block.0 as usize) {
        Some(row) => *row,
        None => Row::bare(State::Offline),
    }
}

/// Returns the kind of a pageblock, or movable and not isolated past the last.
pub(crate) fn kind_of(kinds: &[Kind], pageblock: Pageblock) -> Kind
    ensures { result ≡ kind_at kinds.now pageblock }
{
    match kinds.get(pageblock.0 as usize) {
        Some(kind) => *kind,
        None => Kind::plain(),
    }
}

/// Returns the row of a pageblock's memory block.
pub(crate) fn row_at(layout: &Layout, rows: &[Row], pageblock: Pageblock) -> Row
    ensures { result ≡ row_at layout.now rows.now pageblock }
{
    row_of(rows, Block(pageblock.0 / layout.pageblocks()))
}

/// Returns whether in each block's row the zone and the claim fit the state.
pub fn are_rows(rows: &[Row]) -> bool
    ensures { MatchBool result (AreRows rows.now) (AreRows rows.now → ⊥) }
{
    for row in rows {
        if !is_row(row) {
            return false;
        }
    }
    true
}

/// Returns whether a row's zone and claim fit its state.
fn is_row(row: &Row) -> bool
    ensures { MatchBool result (IsRow row.now) (IsRow row.now → ⊥) }
{
    let wishes_off = match row.claim {
        Some(claim) => claim.wish.is_off(),
        None => false,
    };
    match row.state {
        State::Online => row.zone.is_some() && row.claim.is_none(),
        State::Going => row.zone.is_some() && wishes_off,
        State::Offline => row.zone.is_none() && !wishes_off,
        State::Absent => row.zone.is_none() && row.claim.is_none(),
    }
}

/// Returns whether each pageblock's kind fits its block's row.
pub fn are_kinds(layout: &Layout, kinds: &[Kind], rows: &[Row]) -> bool
    requires kinds { length kinds.now ≡ pageblock_count layout.now }
    requires rows { length rows.now ≡ layout.now.blocks }
    ensures { MatchBool result (AreKinds layout.now kinds.now rows.now)
        (AreKinds layout.now kinds.now rows.now → ⊥) }
{
    for number in 0..layout.blocks() * layout.pageblocks() {
        let pageblock = Pageblock(number);
        let row = row_at(layout, rows, pageblock);
        if !is_kind(kind_of(kinds, pageblock), &row) {
            return false;
        }
    }
    true
}

/// Returns whether a pageblock's kind fits its block's row.
fn is_kind(kind: Kind, row: &Row) -> bool
    ensures { MatchBool result (IsKind kind row.now) (IsKind kind row.now → ⊥) }
{
    if kind.isolated != row.is_going() {
        return false;
    }
    match kind.mobility {
        Mobility::Unmovable => matches!(row.zone, Some(Zone::Normal)),
        Mobility::Movable => true,
    }
}
