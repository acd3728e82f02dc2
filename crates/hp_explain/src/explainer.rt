//! The aim of a search for an order that explains what was seen.
ghost use Rattle.std.specs.Prelude.{◌≡◌, ◌↔◌, ◌++◌, ◌∷◌, [], IfOk, IsTrue, List, OnOk, length, ℕ};
ghost use Rattle.hp_explain.specs.Explainers.{IsMarked};
ghost use Rattle.hp_explain.specs.Explaining.{AreAllOverBefore, HasSeen, MayRun};

use crate::observed::Observed;
use hp_explore::{Aim, Path, Schedule, is_over, push_all_causes};
use hp_schedules::FinishedLine;
use hp_units::Cpu;
use std::alloc::{AllocError, Global};

/// What was seen of a run, and the longest schedule so far that explains what was seen up to its
/// end. If several are equally long, it is the one that the search found first.
#[derive(Drop)]
pub(crate) struct Explainer<'a> {
    seen: &'a Observed,
    /// How many calls of the scripts can be recorded. Each needs room in the history and a serial.
    room: u64,
    longest: Vec<Cpu>,
}

impl<'a> Explainer<'a> {
    /// Creates the aim of a search before any call.
    pub(crate) fn new(alloc: Global, seen: &'a Observed, room: u64) -> Explainer<'a>
        ensures seen { result.seen.now ≡ seen.now }
        ensures room { result.room ≡ room }
        ensures none { result.longest.items ≡ [] }
    {
        Explainer {
            seen,
            room,
            longest: Vec::new(alloc),
        }
    }

    /// Returns the longest schedule so far that, as the beginning of an order, explains what was
    /// seen. Allocates nothing.
    pub(crate) fn into_longest(self) -> Vec<Cpu>
        ensures { result ≡ self.entry.longest }
    {
        let Explainer { longest, .. } = self;
        longest
    }

    /// Returns whether the processor's first unfinished line may run now: all lines that were
    /// answered before it began are finished.
    fn may_run(&self, path: &Path<'_>, cpu: u32) -> bool
        ensures { IsTrue result ↔ MayRun path.now.setting self.now.seen.now path.now.news cpu }
    {
        match self.seen.line(cpu, path.finished(cpu)) {
            Some(line) => self.are_all_over(path, line.from),
            None => true,
        }
    }

    /// Returns whether the line that the latest call finished was seen with the answer that it got.
    fn has_seen_latest(&self, schedule: &[Cpu], finished: &FinishedLine) -> bool
        ensures { (before : List ℕ) (cpu : ℕ) → schedule.now ≡ before ++ cpu ∷ []
            → (IsTrue result ↔ HasSeen self.now.seen.now cpu finished.now.line finished.now.answer) }
    {
        match schedule.last() {
            Some(cpu) => self.seen.has_seen(*cpu, finished.line, finished.answer),
            None => false,
        }
    }

    /// Returns whether each processor has finished its lines that were answered before `time`.
    fn are_all_over(&self, path: &Path<'_>, time: u64) -> bool
        ensures { IsTrue result ↔ AreAllOverBefore path.now.setting self.now.seen.now path.now.news time }
    {
        for cpu in 0..self.seen.processors() {
            if !self.seen.are_over(cpu, path.finished(cpu), time) {
                return false;
            }
        }
        true
    }
}

impl<'a> Aim for Explainer<'a> {
    ghost use Rattle.hp_explain.specs.Explaining.{IsExplained};
    ghost use Rattle.hp_explain.specs.Explainers.{aim_of, Becomes};
    ghost use Rattle.hp_explain.specs.Continued.{explaining_joined, explaining_lawful, explaining_narrower, explaining_stays};

    ghost shows = { λ aim g. aim_of g aim.seen.now aim.room aim.longest.items };

    ghost becomes = { λ aim g new. Becomes g aim.seen.now aim.room aim.longest.items new.seen.now
        new.room new.longest.items };

    /// A call for which the history has no room is not tried.
    fn may_try(&self, path: &Path<'_>, schedule: &Schedule, cpu: u32) -> bool {
        path.is_played();
        if schedule.len() as u64 >= self.room {
            return false;
        }
        self.may_run(path, cpu)
    }

    fn admits(&self, path: &Path<'_>, schedule: &Schedule, _processors: u32) -> bool {
        path.is_played();
        match path.answered() {
            Some(finished) => self.has_seen_latest(schedule.as_slice(), &finished),
            None => true,
        }
    }

    /// The marks are the number of calls, and the last refusals of the plans in progress, on which
    /// the answers of these plans depend.
    fn push_marks(
        &self,
        path: &Path<'_>,
        schedule: &Schedule,
        processors: u32,
        numbers: &mut Vec<u32>,
    ) -> Result<bool, AllocError> {
        let Ok(calls) = u32::try_from(schedule.len()) else {
            return Ok(false);
        };
        numbers.push(calls)?;
        push_all_causes(path, processors, numbers)?;
        Ok(true)
    }

    /// Returns true for a schedule that finishes all scripts. Stores any other schedule if it is
    /// longer than all before.
    fn is_met(
        &mut self,
        alloc: Global,
        path: &Path<'_>,
        schedule: &Schedule,
        processors: u32,
    ) -> Result<bool, AllocError> {
        path.is_played();
        if is_over(path, processors) {
            return Ok(true);
        }
        if self.longest.len() < schedule.len() {
            self.longest = schedule.as_slice().iter().copied().collect(alloc)?;
        }
        Ok(false)
    }

    ghost stays = { λ aim g. explaining_stays g aim.seen.now aim.room aim.longest.items };

    ghost joined = { λ aim g mid new first second. explaining_joined g aim.seen.now aim.room
        aim.longest.items mid.seen.now mid.room mid.longest.items new.seen.now new.room new.longest.items
        first second };

    ghost narrower = { λ aim g new becomes. explaining_narrower g aim.seen.now aim.room aim.longest.items
        new.seen.now new.room new.longest.items becomes };

    ghost lawful = { λ aim g. explaining_lawful g aim.seen.now aim.room aim.longest.items };
}
