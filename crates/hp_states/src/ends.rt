//! The outcome of a schedule at a place.
ghost use Rattle.std.specs.Prelude.{◌≡◌, IfOk, None};
ghost use Rattle.hp_schedules.specs.Outcomes.{ended_row, ended_rows_below, outcome};

use hp_memory::{Memory, Steps};
use hp_schedules::{Outcome, all_answers};
use hp_units::{Block, Claim, Row, State};
use std::alloc::{AllocError, Global};

/// Returns the row with another claim. A missing row becomes that of an offline block.
fn claimed_row(row: Option<Row>, claim: Option<Claim>) -> Row
    ensures { claim ≡ None → result ≡ ended_row row }
{
    match row {
        Some(row) => Row {
            state: row.state,
            zone: row.zone,
            claim,
        },
        None => Row {
            state: State::Offline,
            zone: None,
            claim,
        },
    }
}

/// Returns each memory block's row without its claim.
pub(crate) fn ended_rows(alloc: Global, memory: &Memory) -> Result<Vec<Row>, AllocError>
    ensures { IfOk result (λ rows. rows.items ≡ ended_rows_below memory.now.layout.blocks memory.now.state) }
{
    let blocks = memory.layout().blocks();
    let mut rows = Vec::with_capacity(alloc, blocks as usize)?;
    for block in 0..blocks {
        let unclaimed: Option<Claim> = None;
        rows.push_reserved(claimed_row(memory.row(Block(block)), unclaimed));
    }
    Ok(rows)
}

/// Returns the outcome of the schedule that led here, for `processors` processors.
pub fn outcome_at(alloc: Global, processors: u32, here: &Steps) -> Result<Outcome, AllocError>
    ensures { IfOk result (λ x. x ≡ outcome processors here.now.records here.now.layout here.now.state) }
{
    let replies = all_answers(alloc, processors, here.records())?;
    let blocks = ended_rows(alloc, here.memory())?;
    Ok(Outcome::new(replies, blocks))
}
