//! How far the processors are in their scripts after a beginning of an order.
ghost use Rattle.std.specs.Prelude.{◌≡◌, ◌++◌, ◌∷◌, [], ℕ, List, IfNone, IfOk, IfSome, OnOk, length, option_map, slice_get};
ghost use Rattle.hp_units.specs.declared.replies.Record.{Record};
ghost use Rattle.hp_explore.specs.Settings.{setting};
ghost use Rattle.hp_schedules.specs.LineAnswers.{answers_at};
ghost use Rattle.hp_explain.specs.Explaining.{AreAllOverBefore};
ghost use Rattle.hp_explain.specs.declared.standing.Standing.{Standing as StandingValue};
ghost use Rattle.hp_explain.specs.Standings.{AreStandings, IsAlong, IsLatestAnswer, IsNext, IsStanding, IsUnfinished, IsWaitingFor, seen_of};

use crate::observed::Observed;
use hp_explore::{ExploreFault, Path};
use hp_machine::Machine;
use hp_schedules::{CallScript, LineAnswer};
use hp_units::Cpu;
use std::alloc::{AllocError, Global};

/// A processor's first unfinished line.
#[derive(Clone, Copy, Drop)]
pub(crate) struct Unfinished {
    /// The processor.
    pub cpu: Cpu,
    /// The line's index in the processor's script.
    pub line: usize,
}

/// What comes next for a processor.
#[derive(Clone, Copy, Drop)]
pub(crate) enum Next {
    /// Nothing: its script is finished.
    Finished,
    /// Nothing yet, because it has to wait for this line. As observed, the line was answered before
    /// the processor's next line began. In the order so far, it is not finished.
    Waits(Unfinished),
    /// Its next call gives its line this answer.
    Answered(LineAnswer),
    /// Its next call gives its line no answer.
    GoesOn,
    /// The history has no room for its next call.
    HistoryFull,
}

/// How far a processor is in its script.
#[derive(Clone, Copy, Drop)]
pub(crate) struct Standing {
    /// The processor.
    pub cpu: Cpu,
    /// How many lines it has finished.
    pub finished: usize,
    /// How many lines it has.
    pub lines: usize,
    /// The answer that was seen of its next line, if it has one.
    pub seen: Option<LineAnswer>,
    /// What comes next.
    pub next: Next,
}

/// Returns the place to which a schedule of the scripts leads. Fails as if out of memory if it
/// cannot be played.
pub(crate) fn path_along<'a>(
    alloc: Global,
    machine: &'a Machine,
    scripts: &'a [CallScript],
    schedule: &[Cpu],
) -> Result<Path<'a>, AllocError>
    ensures { IfOk result (IsAlong (setting machine.now scripts.now) schedule.now) }
{
    let mut path = Path::start(alloc, machine, scripts)?;
    play_along(alloc, &mut path, schedule)?;
    Ok(path)
}

/// Makes the calls of a schedule. Fails as if out of memory if one of them cannot be made.
fn play_along(alloc: Global, path: &mut Path<'_>, schedule: &[Cpu]) -> Result<(), AllocError>
    requires { path.old.news ≡ [] }
    ensures { OnOk result (IsAlong path.old.setting schedule.now path.new) }
{
    for cpu in schedule {
        match path.forward(alloc, cpu.0) {
            Ok(true) => {}
            // The search has made this call, so only memory can run out.
            _ => return Err(AllocError),
        }
    }
    path.is_played();
    Ok(())
}

/// Returns how far each processor is in its script after the calls of `path`. Makes the next call
/// of each processor that need not wait, and takes it back.
pub(crate) fn standings_of(
    alloc: Global,
    path: &mut Path<'_>,
    seen: &Observed,
) -> Result<Vec<Standing>, AllocError>
    ensures same { path.new ≡ path.old }
    ensures standings { IfOk result
        (λ all. AreStandings path.old.setting seen.now path.old.news all.items) }
{
    let mut all = Vec::new(alloc);
    for cpu in 0..seen.processors() {
        push_standing(&mut all, alloc, path, seen, cpu)?;
    }
    Ok(all)
}

/// Appends how far a processor is in its script. Makes its next call if it need not wait, and takes
/// the call back.
fn push_standing(
    all: &mut Vec<Standing>,
    alloc: Global,
    path: &mut Path<'_>,
    seen: &Observed,
    cpu: u32,
) -> Result<(), AllocError>
    ensures same { path.new ≡ path.old }
    ensures more { OnOk result ((standing : StandingValue)
        × (all.new.items ≡ all.old.items ++ standing ∷ [])
        × IsStanding path.old.setting seen.now path.old.news cpu standing) }
{
    let finished = path.finished(cpu);
    let next = next_of(alloc, path, seen, cpu)?;
    all.push(Standing {
        cpu: Cpu(cpu),
        finished,
        lines: line_count(seen, cpu),
        seen: answer_seen(seen, cpu, finished),
        next,
    })?;
    Ok(())
}

/// Returns how many lines were seen of a processor.
fn line_count(seen: &Observed, cpu: u32) -> usize
    ensures { result ≡ length (seen_of seen.now cpu) }
{
    match seen.lines_of(cpu) {
        Some(lines) => lines.len(),
        None => 0,
    }
}

/// Returns the answer that was seen of the processor's line at index `line`, if there is such a
/// line.
fn answer_seen(seen: &Observed, cpu: u32, line: usize) -> Option<LineAnswer>
    ensures { result ≡ option_map (λ one. one.answer) (slice_get (seen_of seen.now cpu) line) }
{
    match seen.line(cpu, line) {
        Some(line) => Some(line.answer),
        None => None,
    }
}

/// Returns what comes next for a processor. Makes its next call if it need not wait, and takes the
/// call back.
fn next_of(
    alloc: Global,
    path: &mut Path<'_>,
    seen: &Observed,
    cpu: u32,
) -> Result<Next, AllocError>
    ensures same { path.new ≡ path.old }
    ensures next { IfOk result (IsNext path.old.setting seen.now path.old.news cpu) }
{
    if let Some(unfinished) = waits_for(path, seen, cpu) {
        return Ok(Next::Waits(unfinished));
    }
    match path.forward(alloc, cpu) {
        Ok(true) => {
            let next = latest_answer(path);
            let _ = path.back();
            Ok(next)
        }
        Ok(false) => Ok(Next::Finished),
        Err(ExploreFault::HistoryFull) => Ok(Next::HistoryFull),
        Err(ExploreFault::OutOfMemory) => Err(AllocError),
    }
}

/// Returns a line for which the processor has to wait, or `None` if its next line may run. The line
/// is not finished, but as observed, it was answered before the processor's next line began.
fn waits_for(path: &Path<'_>, seen: &Observed, cpu: u32) -> Option<Unfinished>
    ensures { IsWaitingFor path.now.setting seen.now path.now.news cpu result }
{
    match seen.line(cpu, path.finished(cpu)) {
        Some(line) => unfinished_before(path, seen, line.from),
        None => None,
    }
}

/// Returns an unfinished line that, as observed, was answered before `time`, if there is one. It is
/// the first unfinished line of the lowest processor with such a line.
fn unfinished_before(path: &Path<'_>, seen: &Observed, time: u64) -> Option<Unfinished>
    ensures some { IfSome result (IsUnfinished path.now.setting seen.now path.now.news time) }
    ensures none { IfNone result (AreAllOverBefore path.now.setting seen.now path.now.news time) }
{
    for cpu in 0..seen.processors() {
        let line = path.finished(cpu);
        if !seen.are_over(cpu, line, time) {
            return Some(Unfinished {
                cpu: Cpu(cpu),
                line,
            });
        }
    }
    None
}

/// Returns the answer that the latest call gave its line, or `GoesOn` if it gave none.
fn latest_answer(path: &Path<'_>) -> Next
    ensures { (before : List Record) (r : Record) → path.now.news ≡ before ++ r ∷ []
        → IsLatestAnswer path.now.setting r.cpu before path.now.news result }
{
    match path.answered() {
        Some(finished) => match finished.answer {
            Some(answer) => Next::Answered(answer),
            None => Next::GoesOn,
        },
        None => Next::GoesOn,
    }
}
