//! What a walk does when it reaches a place and when it leaves it.
ghost use Rattle.std.specs.Prelude.{◌≡◌, ◌<◌, IfOk, List, OnOk, length, true};
ghost use Rattle.hp_units.specs.declared.replies.Record.{Record as NewRecord};
ghost use Rattle.hp_states.specs.Frames.{GoOn, IsAdded, IsArrival, IsEntered, IsEnteredWithin, IsKeeping, IsLeaving, IsStood};
ghost use Rattle.hp_states.specs.Places.{memory_at, standing};
ghost use Rattle.hp_states.specs.Seen.{IsMemo, IsOnWay};
ghost use Rattle.hp_states.specs.Walks.{IsNotedAtEnd};
ghost use Rattle.hp_schedules.specs.Notes.{HasRoom};
ghost use Rattle.hp_schedules.specs.Schedules.{Setting};
ghost use Rattle.hp_schedules.specs.Shares.{AreAtEnds};
ghost use Rattle.hp_schedules.specs.Trails.{KeepsBefore};
ghost use Rattle.hp_schedules.specs.declared.tally.Ending.{Ending};

use crate::ends::ended_rows;
use crate::frames::{Level, Treatment};
use crate::memo::Memo;
use crate::watch::Watch;
use hp_memory::Memory;
use hp_schedules::{Positions, Shard, Share, Tally, fit_in};
use hp_units::Record;
use std::alloc::{AllocError, Global};

/// Decides how to treat the place just reached: skip it if it belongs to another part, reuse the
/// counts of an equivalent place, or walk it.
///
/// Once the search has stopped, each place of its part is walked, so that the search soon reaches
/// the next schedule and ends there.
///
/// A place with too few calls to decide the part is always walked, since schedules of other parts
/// may continue from it. Its state still gets a number, because operations that begin there can be
/// cancelled back to it.
pub fn arrive<W: Watch>(
    alloc: Global,
    records: &[Record],
    memory: &Memory,
    positions: &Positions,
    part: Shard,
    processors: u32,
    is_stopped: bool,
    tally: &mut Tally,
    memo: &mut Memo,
    watch: &mut W,
) -> Result<Treatment, AllocError>
    requires processors { processors ≡ length positions.now.cursors.items }
    requires arrival { (g : Setting) × IsArrival g part records.now memory.now
        positions.now.cursors.items tally.old.ends memo.old }
    ensures ok { IfOk result (λ treatment. (g : Setting) → IsArrival g part records.now memory.now
        positions.now.cursors.items tally.old.ends memo.old
        → IsEntered g records.now part tally.old tally.new treatment) }
    ensures memo { (g : Setting) (ends : List Ending) → IsMemo g ends memo.old → IsMemo g ends memo.new }
    ensures way { (g : Setting) → memory.now ≡ memory_at g records.now → IsOnWay g records.now memo.old
        → IsOnWay g records.now memo.new }
    ensures limit { tally.new.limit ≡ tally.old.limit }
    ensures watch { W.has_ended watch.old → W.has_ended watch.new }
{
    if records.len() < part.calls() as usize {
        let _has_key = memo.come_to(alloc, memory, positions, processors)?;
        return Ok(Treatment::Open(Level::new(tally)));
    }
    if part.leaves_out(processors, records) {
        return Ok(Treatment::Counted);
    }
    enter(
        alloc, memory, positions, processors, is_stopped, tally, memo, watch,
    )
}

/// Decides how to treat a place from which only schedules of one part continue. Adds the counts of
/// an equivalent place, if one is stored and the limit leaves room for them; otherwise the place
/// has to be walked. Once the search has stopped, it always has to be walked.
fn enter<W: Watch>(
    alloc: Global,
    memory: &Memory,
    positions: &Positions,
    processors: u32,
    is_stopped: bool,
    tally: &mut Tally,
    memo: &mut Memo,
    watch: &mut W,
) -> Result<Treatment, AllocError>
    requires processors { processors ≡ length positions.now.cursors.items }
    requires stood { (g : Setting) × (news : List NewRecord) × IsStood g news memory.now
        positions.now.cursors.items tally.old.ends memo.old }
    ensures ok { IfOk result (λ treatment. (g : Setting) (news : List NewRecord)
        → IsStood g news memory.now positions.now.cursors.items tally.old.ends memo.old
        → IsEnteredWithin g news tally.old tally.new treatment) }
    ensures memo { (g : Setting) (ends : List Ending) → IsMemo g ends memo.old → IsMemo g ends memo.new }
    ensures way { (g : Setting) (news : List NewRecord) → memory.now ≡ memory_at g news
        → IsOnWay g news memo.old → IsOnWay g news memo.new }
    ensures limit { tally.new.limit ≡ tally.old.limit }
    ensures watch { W.has_ended watch.old → W.has_ended watch.new }
{
    if is_stopped {
        return Ok(Treatment::Open(Level::new(tally)));
    }
    let has_key = memo.come_to(alloc, memory, positions, processors)?;
    if !has_key {
        return Ok(Treatment::Open(Level::new(tally)));
    }
    if let Some(shares) = memo.shares() {
        return add_shares(tally, shares, watch);
    }
    Ok(Treatment::Open(Level::new(tally)))
}

/// Adds the shares to the tally. If the tally has no room for all of them, adds nothing, and the
/// place has to be walked.
fn add_shares<W: Watch>(
    tally: &mut Tally,
    shares: &[Share],
    watch: &mut W,
) -> Result<Treatment, AllocError>
    requires { AreAtEnds (length tally.old.ends) shares.now }
    ensures ok { IfOk result (IsAdded tally.old shares.now tally.new) }
    ensures limit { tally.new.limit ≡ tally.old.limit }
    ensures watch { W.has_ended watch.old → W.has_ended watch.new }
{
    if !fit_in(shares, tally.room()) {
        return Ok(Treatment::Open(Level::new(tally)));
    }
    tally.add(shares)?;
    watch.counted(tally.total());
    Ok(Treatment::Counted)
}

/// Counts the schedule that led to this place, if `is_end` states that a schedule of the
/// part ends here.
pub fn note<W: Watch>(
    alloc: Global,
    records: &[Record],
    memory: &Memory,
    processors: u32,
    is_end: bool,
    tally: &mut Tally,
    watch: &mut W,
) -> Result<(), AllocError>
    requires { is_end ≡ true → HasRoom tally.old }
    ensures ok { OnOk result ((g : Setting) → memory.now ≡ memory_at g records.now
        → IsNotedAtEnd is_end processors (standing g records.now) tally.old.ends tally.new.ends) }
    ensures trail { OnOk result (KeepsBefore (length tally.old.trail) tally.old tally.new) }
    ensures limit { tally.new.limit ≡ tally.old.limit }
    ensures watch { W.has_ended watch.old → W.has_ended watch.new }
{
    if !is_end {
        return Ok(());
    }
    let blocks = ended_rows(alloc, memory)?;
    let noted = tally.note(alloc, processors, records, blocks);
    watch.counted(tally.total());
    noted
}

/// Sums up what was counted since the walk reached the place, which is now fully walked. Stores the
/// sums if only schedules of the part continue from there and the place has a key.
pub fn leave(
    records: &[Record],
    positions: &Positions,
    part: Shard,
    processors: u32,
    frame: Level,
    tally: &mut Tally,
    memo: &mut Memo,
) -> Result<(), AllocError>
    requires processors { processors ≡ length positions.now.cursors.items }
    requires leaving { (g : Setting) × IsLeaving g part records.now positions.now.cursors.items
        tally.old memo.old frame }
    ensures memo { OnOk result ((g : Setting) → IsLeaving g part records.now positions.now.cursors.items
        tally.old memo.old frame → IsMemo g tally.new.ends memo.new) }
    ensures tally { GoOn frame.start tally.old tally.new }
    ensures ends { tally.new.ends ≡ tally.old.ends }
    ensures limit { tally.new.limit ≡ tally.old.limit }
    ensures same { (memo.new.is_on ≡ memo.old.is_on) × (memo.new.standing ≡ memo.old.standing) }
{
    tally.gather(frame.start);
    if records.len() < part.calls() as usize {
        return Ok(());
    }
    keep(positions, processors, tally.since(frame.start), memo)
}

/// Stores these shares under the place's key, if it has one. They are what was counted since the
/// walk reached the place.
fn keep(
    positions: &Positions,
    processors: u32,
    shares: &[Share],
    memo: &mut Memo,
) -> Result<(), AllocError>
    requires processors { processors ≡ length positions.now.cursors.items }
    requires keeping { (g : Setting) × (news : List NewRecord) × (ends : List Ending) × IsKeeping g news
        positions.now.cursors.items ends shares.now memo.old }
    ensures memo { OnOk result ((g : Setting) (news : List NewRecord) (ends : List Ending)
        → IsKeeping g news positions.now.cursors.items ends shares.now memo.old
        → IsMemo g ends memo.new) }
    ensures same { (memo.new.is_on ≡ memo.old.is_on) × (memo.new.standing ≡ memo.old.standing) }
{
    let has_key = memo.write_key(positions, processors)?;
    if !has_key {
        return Ok(());
    }
    memo.keep(shares)
}
