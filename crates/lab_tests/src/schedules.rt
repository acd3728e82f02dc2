//! Tests of what a search over schedules stores: positions in scripts, ends with their counts, rows
//! and numbers.
ghost use Rattle.std.specs.Prelude.{◌≡◌, IfOk, length};

use hp_schedules::{
    CallScript, Change, Outcome, Positions, Shard, Share, Step, Tally, all_answers, are_mergeable,
    call_count, change_of, fit_in, is_closed, learn, mixed, reply_number, schedule_of,
};
use hp_states::{Exchanges, Rows};
use hp_units::{Cpu, Event, Frame, Order, Record, Reply, Serial};
use indexmap::IndexMap;
use std::alloc::{AllocError, Global};
use std::test::Fail;

/// Returns the record of the first call: processor 0, the only one, takes frame 0 for the kernel.
fn taken() -> Record
    ensures { result.cpu ≡ 0 }
{
    Record {
        serial: Serial(1),
        cpu: Cpu(0),
        event: Event::KernelAlloc { order: Order(0) },
        reply: Reply::Frame(Frame(0)),
    }
}

/// Returns one script of one line.
fn one_line(alloc: Global) -> Result<Vec<CallScript>, AllocError>
    ensures { IfOk result (λ scripts. length scripts.items ≡ 1) }
{
    let mut lines = Vec::new(alloc);
    lines.push(Step::Ask(taken().event))?;
    let mut scripts = Vec::with_capacity(alloc, 1)?;
    scripts.push(CallScript::new(lines))?;
    Ok(scripts)
}

/// Makes the script's call and takes it back. Returns whether the script is finished in between and
/// has begun no operation, and asks for the call again at the end.
fn goes_on_and_back(alloc: Global, scripts: &[CallScript]) -> Result<bool, AllocError>
    requires { length scripts.now ≡ 1 }
{
    let mut positions = Positions::start(alloc, 1, scripts)?;
    let calls = [taken()];
    let Some(request) = positions.request(alloc, 1, scripts, &calls[..0], 0)? else {
        return Ok(false);
    };
    let former = positions.go_on(1, scripts, 0, &request, &calls[0]);
    let is_over = positions.request(alloc, 1, scripts, &calls, 0)?.is_none();
    let began = positions.operation(0);
    positions.go_back(Cpu(0), former);
    let asks_again = positions
        .request(alloc, 1, scripts, &calls[..0], 0)?
        .is_some();
    Ok(is_over && began == Serial(0) && asks_again)
}

/// Returns whether a script of one line has one call, is finished after it, and is mergeable (a
/// search may merge equal states).
fn are_walked(alloc: Global) -> Result<bool, AllocError> {
    let scripts = one_line(alloc)?;
    let is_one = call_count(alloc, scripts.as_slice())? == Some(1);
    let goes = goes_on_and_back(alloc, scripts.as_slice())?;
    Ok(is_one && goes && are_mergeable(scripts.as_slice()))
}

#[test]
fn a_position_goes_on_and_back(rt: HostRuntime) -> Result<(), Fail> {
    assert!(rt; are_walked(rt.alloc())?);
    Ok(())
}

/// Counts the one schedule of the tally once more, so that it has two entries, and gathers both in
/// one. Returns whether their counts are added up, and the limit leaves room for three more.
fn counts_again(alloc: Global, tally: &mut Tally) -> Result<bool, AllocError> {
    let shares: Vec<Share> = tally.since(0).iter().copied().collect(alloc)?;
    if !fit_in(shares.as_slice(), tally.room()) {
        return Ok(false);
    }
    tally.add(shares.as_slice())?;
    let is_longer = tally.trail_len() == 2;
    tally.gather(0);
    Ok(is_longer && tally.trail_len() == 1 && tally.total() == 2 && tally.room() == 3)
}

/// Returns whether a tally with a limit of five counts a schedule, and then counts it again.
fn is_counted(alloc: Global) -> Result<bool, AllocError> {
    let mut tally = Tally::new(alloc, 5);
    tally.note(alloc, 1, &[taken()], Vec::new(alloc))?;
    let is_one = tally.total() == 1;
    let is_again = counts_again(alloc, &mut tally)?;
    let ends = tally.into_ends();
    Ok(is_one && is_again && ends.len() == 1)
}

#[test]
fn a_tally_counts(rt: HostRuntime) -> Result<(), Fail> {
    assert!(rt; is_counted(rt.alloc())?);
    Ok(())
}

/// Returns whether a row with one share (how many schedules lead to an end) is found at its number.
fn is_kept(alloc: Global) -> Result<bool, AllocError> {
    let mut rows = Rows::new(alloc);
    rows.push(&[Share { end: 7, count: 2 }])?;
    let is_there = match rows.row(0) {
        Some([share]) => share.end == 7,
        _ => false,
    };
    Ok(is_there && rows.len() == 1)
}

/// Returns whether a number that was stored under a hash is found under this hash.
fn is_learned(alloc: Global) -> Result<bool, AllocError> {
    let mut latest = IndexMap::new(alloc);
    let digest = mixed(3, reply_number(&Reply::Done));
    learn(&mut latest, digest, 5)?;
    Ok(latest.get(&digest).copied() == Some(5))
}

#[test]
fn rows_and_digests_are_kept(rt: HostRuntime) -> Result<(), Fail> {
    assert!(rt; is_kept(rt.alloc())? && is_learned(rt.alloc())?);
    Ok(())
}

/// Returns whether a processor's list of calls and replies has number 1 after a call, and number 0
/// when the call is taken back.
fn are_exchanged(alloc: Global) -> Result<bool, AllocError> {
    let mut exchanges = Exchanges::start(alloc, 1)?;
    exchanges.go_on(alloc, Cpu(0), &taken())?;
    let has_one = matches!(exchanges.numbers(), [1]);
    exchanges.go_back(Cpu(0));
    Ok(has_one && matches!(exchanges.numbers(), [0]))
}

#[test]
fn exchanges_have_numbers(rt: HostRuntime) -> Result<(), Fail> {
    assert!(rt; are_exchanged(rt.alloc())?);
    Ok(())
}

/// Returns whether one record makes a schedule of one call, with an outcome for one processor. The
/// schedule must be in the only part of a search, and no later Cancel may drop its step. Also tests
/// that the call of `taken` ends what a Cancel can take back.
fn is_ended(alloc: Global, records: &[Record]) -> Result<bool, AllocError>
    requires { length records.now ≡ 1 }
{
    let replies = all_answers(alloc, 1, records)?;
    let outcome = Outcome::new(replies, Vec::new(alloc));
    let schedule = schedule_of(alloc, records)?;
    let is_whole = !Shard::whole().leaves_out(1, records);
    let is_one = outcome.replies().len() == 1 && schedule.len() == 1;
    Ok(is_one && is_whole && is_closed(records) && matches!(change_of(&taken()), Change::Ends))
}

#[test]
fn a_schedule_ends(rt: HostRuntime) -> Result<(), Fail> {
    assert!(rt; is_ended(rt.alloc(), &[taken()])?);
    Ok(())
}
