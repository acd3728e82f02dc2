//! One turn of a walk: a processor's next call, and how to take it back.
ghost use Rattle.std.specs.Prelude.{◌≡◌, ◌<◌, ◌≤◌, [], ◌∷◌, ◌++◌, List, Some, true, IfErr, IfOk, IsTrue, OnErr, OnOk, drop, false, length};
ghost use Rattle.hp_units.specs.History.{effect_of};
ghost use Rattle.hp_units.specs.declared.replies.Record.{Record as NewRecord};
ghost use Rattle.hp_machine.specs.Machine.{IsHistory};
ghost use Rattle.hp_memory.specs.Steps.{StepsValue};
ghost use Rattle.hp_schedules.specs.Cursors.{AreCursors};
ghost use Rattle.hp_explore.specs.Faults.{FillsAlong, IsCauseHere};
ghost use Rattle.hp_states.specs.Rooms.{is_full_after};
ghost use Rattle.hp_explore.specs.Paths.{IsAdvanced, IsPath, IsTakenBack, IsTurned};
ghost use Rattle.hp_schedules.specs.Schedules.{Setting, next_call, schedule_of};
ghost use Rattle.hp_explore.specs.Settings.{setting};
ghost use Rattle.hp_states.specs.Walks.{IsAt};
ghost use Rattle.hp_explore.specs.Walks.{IsGone, IsNextSerial, LeadsTo, may_go_back, news_since, with_record};
ghost use Rattle.hp_explore.specs.declared.exploring.ExploreFault.TheVariants.{HistoryFull};

use crate::exploring::ExploreFault;
use crate::playing::{play, records_from};
use crate::ways::{Turn, Way};
use hp_machine::Machine;
use hp_memory::Steps;
use hp_schedules::{CallScript, Positions, schedule_of};
use hp_units::{Cpu, Event, Record, Refusal, Reply, Serial};
use std::alloc::{AllocError, Global};

/// Makes the processor's next call, pushes the turn that leads back over it, and returns true.
/// Returns false, and changes nothing, if it has no script or its script is finished. After an
/// error, everything is as it was.
pub(crate) fn advance(
    alloc: Global,
    start: &Machine,
    scripts: &[CallScript],
    here: &mut Steps,
    positions: &mut Positions,
    turns: &mut Vec<Turn>,
    cpu: u32,
) -> Result<bool, ExploreFault>
    requires at { IsAt (setting start.now scripts.now) here.old }
    requires cursors { AreCursors (setting start.now scripts.now) here.old.records
        positions.old.cursors.items }
    ensures ok { IfOk result (λ went. IsAdvanced (setting start.now scripts.now)
        here.old positions.old.cursors.items turns.old.items cpu went
        here.new positions.new.cursors.items turns.new.items) }
    ensures err { OnErr result ((here.new ≡ here.old)
        × (positions.new.cursors.items ≡ positions.old.cursors.items) × (turns.new.items ≡ turns.old.items)) }
    ensures cause { IfErr result (IsCauseHere (setting start.now scripts.now) here.old.records cpu) }
{
    turns.reserve(1)?;
    let cpus = start.layout().cpus();
    let news = here.records();
    match positions.request(alloc, cpus, scripts, news, cpu)? {
        Some(request) => {
            let way = make_turn(alloc, start, scripts, here, cpu, &request.event)?;
            let from = positions.go_on(cpus, scripts, cpu, &request, latest(here.records()));
            turns.push_reserved(Turn { way, from });
            Ok(true)
        }
        None => Ok(false),
    }
}

/// Takes the latest turn back and returns its processor, or `None` if there was no turn.
pub(crate) fn step_back(
    here: &mut Steps,
    positions: &mut Positions,
    turns: &mut Vec<Turn>,
) -> Option<Cpu>
    requires { (g : Setting) × IsPath g here.old positions.old.cursors.items turns.old.items }
    ensures { (g : Setting) → IsPath g here.old positions.old.cursors.items turns.old.items
        → IsTakenBack g here.old result here.new positions.new.cursors.items turns.new.items }
{
    match turns.pop() {
        Some(turn) => {
            let cpu = latest(here.records()).cpu;
            positions.go_back(cpu, turn.from);
            turn.way.lead_back(here);
            Some(cpu)
        }
        None => None,
    }
}

/// Makes the processor's next call and returns the way back over it. After an error, everything is
/// as it was.
///
/// Most calls are steps that can be taken back. An undo or a Cancel may itself go back to an
/// earlier state, so the state before it is kept whole.
fn make_turn(
    alloc: Global,
    start: &Machine,
    scripts: &[CallScript],
    here: &mut Steps,
    cpu: u32,
    event: &Event,
) -> Result<Way, ExploreFault>
    requires at { IsAt (setting start.now scripts.now) here.old }
    requires asked { next_call (setting start.now scripts.now) cpu here.old.records ≡ Some event.now }
    ensures ok { IfOk result (λ way.
        IsTurned (setting start.now scripts.now) here.old cpu event.now way here.new) }
    ensures err { OnErr result (here.new ≡ here.old) }
    ensures cause { IfErr result (IsCauseHere (setting start.now scripts.now) here.old.records cpu) }
{
    let serial = next_serial(start, here.records())?;
    if may_go_back(event) {
        return match steps_after(alloc, start, scripts, here, cpu, serial, event)? {
            Some(there) => Ok(Way::keep(alloc, here, there)?),
            None => unreachable!(),
        };
    }
    let mark = here.make(alloc, serial, Cpu(cpu), event)?;
    Ok(Way::Mark(mark))
}

/// Returns the serial of the next record. Fails with `HistoryFull` if the history has no room for
/// it, or no serial is left.
fn next_serial(start: &Machine, news: &[Record]) -> Result<Serial, ExploreFault>
    ensures ok { IfOk result (λ serial. IsNextSerial start.now news.now serial) }
    ensures room { OnOk result (is_full_after (setting start.now []) news.now ≡ false) }
    ensures err { IfErr result
        (λ fault. (fault ≡ HistoryFull) × (is_full_after (setting start.now []) news.now ≡ true)) }
{
    let calls = news.len() as u64;
    let last = start.last_serial();
    let records = start.history().len() as u64;
    let room = start.layout().history().saturating_sub(records);
    if calls >= room || calls >= u64::MAX - last {
        return Err(ExploreFault::HistoryFull);
    }
    Ok(Serial(last + calls + 1))
}

/// Returns whether an event may go back to an earlier state.
fn may_go_back(event: &Event) -> bool
    ensures { result ≡ may_go_back (effect_of event.now) }
{
    matches!(event, Event::UndoAfter { .. } | Event::Cancel { .. })
}

/// Returns the state and the records after an undo or a Cancel, which may go back to an earlier
/// state. Returns `None` if the processor has no next call.
///
/// An undo above a serial that is not used yet leaves the state as it is. For any other undo or
/// Cancel, all calls are played again from the start.
fn steps_after(
    alloc: Global,
    start: &Machine,
    scripts: &[CallScript],
    here: &Steps,
    cpu: u32,
    serial: Serial,
    event: &Event,
) -> Result<Option<Steps>, ExploreFault>
    requires at { IsAt (setting start.now scripts.now) here.now }
    requires asked { next_call (setting start.now scripts.now) cpu here.now.records ≡ Some event.now }
    requires serial { IsNextSerial start.now here.now.records serial }
    ensures ok { IfOk result
        (LeadsTo (setting start.now scripts.now) (schedule_of here.now.records ++ cpu ∷ [])) }
    ensures err { IfErr result (IsCauseHere (setting start.now scripts.now) here.now.records cpu) }
{
    if !is_gone(start, cpu, serial, event) {
        return replayed(alloc, start, scripts, here.records(), cpu);
    }
    let latest = Record {
        serial,
        cpu: Cpu(cpu),
        event: event.copy(alloc)?,
        reply: Reply::Refused(Refusal::Gone),
    };
    let steps = with_record(alloc, here, latest)?;
    Ok(Some(steps))
}

/// Returns whether a processor of the layout asks for an undo above a serial that is not used yet.
/// `serial` is the next one.
fn is_gone(start: &Machine, cpu: u32, serial: Serial, event: &Event) -> bool
    ensures { IsTrue result → IsGone start.now cpu serial event.now }
{
    match event {
        Event::UndoAfter { serial: kept } => kept.0 >= serial.0 && cpu < start.layout().cpus(),
        _ => false,
    }
}

/// Returns the same state with one more record.
fn with_record(alloc: Global, here: &Steps, latest: Record) -> Result<Steps, AllocError>
    ensures { IfOk result (λ steps. steps ≡ with_record here.now latest) }
{
    let memory = here.memory();
    memory.is_placed();
    let mut news = copies(alloc, here.records())?;
    news.reserve(1)?;
    news.push_reserved(latest);
    let image = memory.image(alloc)?;
    Steps::start(alloc, &image, news)
}

/// Returns where the processor's next call leads, by playing all calls again on a copy of the
/// machine. Returns `None` if the processor has no next call. Fails like `play`.
fn replayed(
    alloc: Global,
    start: &Machine,
    scripts: &[CallScript],
    news: &[Record],
    cpu: u32,
) -> Result<Option<Steps>, ExploreFault>
    ensures ok { IfOk result (LeadsTo (setting start.now scripts.now) (schedule_of news.now ++ cpu ∷ [])) }
    ensures along { IfErr result (λ fault. fault ≡ HistoryFull
        → FillsAlong (setting start.now scripts.now) (schedule_of news.now ++ cpu ∷ [])) }
{
    let mut schedule = schedule_of(alloc, news)?;
    schedule.reserve(1)?;
    schedule.push_reserved(Cpu(cpu));
    match play(alloc, start, scripts, schedule.as_slice())? {
        Some(machine) => Ok(Some(steps_of(alloc, start, &machine)?)),
        None => Ok(None),
    }
}

/// Returns the machine's state as steps, with its records since `start`.
pub(crate) fn steps_of(
    alloc: Global,
    start: &Machine,
    machine: &Machine,
) -> Result<Steps, AllocError>
    requires { length start.now.history ≤ length machine.now.history }
    ensures value { IfOk result (λ steps. steps ≡ record {
      layout = machine.now.layout;
      state = machine.now.state;
      deltas = [];
      records = news_since start.now machine.now;
    }) }
    ensures kept { IsHistory machine.now }
{
    machine.stays_sound();
    let news = records_from(machine.history(), start.history().len());
    let news = copies(alloc, news)?;
    let image = machine.image(alloc)?;
    Steps::start(alloc, &image, news)
}

/// Returns copies of the records.
fn copies(alloc: Global, records: &[Record]) -> Result<Vec<Record>, AllocError>
    ensures { IfOk result (λ copies. copies.items ≡ records.now) }
{
    let mut copies = Vec::with_capacity(alloc, records.len())?;
    for record in records {
        let event = record.event.copy(alloc)?;
        copies.push_reserved(Record {
            serial: record.serial,
            cpu: record.cpu,
            event,
            reply: record.reply,
        });
    }
    Ok(copies)
}

/// Returns the latest record.
pub(crate) fn latest(records: &[Record]) -> &Record
    requires { 0 < length records.now }
    ensures { (before : List NewRecord) (r : NewRecord) → records.now ≡ before ++ r ∷ [] → result.now ≡ r }
{
    &records[records.len() - 1]
}
