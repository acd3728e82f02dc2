//! The walk over all schedules: depth first, processor 0 first, on an explicit stack.
ghost use Rattle.std.specs.Prelude.{◌≡◌, ◌∷◌, ◌++◌, [], ◌<◌, ◌≤◌, ◌^◌, ℕ, List, Option, true, false, IfErr, IfOk, IsTrue, OnOk, length, sum_by};
ghost use Rattle.hp_schedules.specs.Alike.{AreMergeable};
ghost use Rattle.hp_explore.specs.Frames.{IsComing, IsDone, IsEndedBy, IsHalted, IsSameWalk, IsTurnedTo, IsWalking, frames_of, left, left_before};
ghost use Rattle.hp_schedules.specs.Notes.{HasRoom};
ghost use Rattle.hp_explore.specs.Faults.{IsCausePartWithin};
ghost use Rattle.hp_explore.specs.Paths.{IsBack};
ghost use Rattle.hp_schedules.specs.Schedules.{schedule_of};
ghost use Rattle.hp_explore.specs.Settings.{setting};
ghost use Rattle.hp_states.specs.Seen.{AreSamePlaces, IsMemo, IsOnWay};
ghost use Rattle.hp_states.specs.Standing.{AreSameNumbers};
ghost use Rattle.hp_states.specs.Walks.{IsEndHere, IsPartWalkedBefore};
ghost use Rattle.hp_schedules.specs.declared.tally.Ending.{Ending};

use crate::exploring::ExploreFault;
use crate::path::Path;
use crate::turns::latest;
use hp_machine::Machine;
use hp_schedules::{CallScript, Ending, Shard, Tally, are_mergeable, is_closed};
use hp_states::{Level, Memo, Reach, Treatment, Watch, arrive, leave, note};
use std::alloc::{AllocError, Global};

/// The result of one step of a walk.
#[derive(Clone, Copy, Drop)]
pub(crate) enum Turned {
    /// The walk continues.
    On,
    /// All schedules are counted.
    Over,
    /// There is another schedule, and the limit is reached or the watch has ended the search.
    Full,
}

/// A walk over the schedules of one part, with what it has counted.
pub(crate) struct Walk<'a> {
    path: Path<'a>,
    processors: u32,
    part: Shard,
    tally: Tally,
    memo: Memo,
    frames: Vec<Level>,
    reach: Reach,
}

/// Keeps callers from proving again how each field is dropped.
impl<'a> Drop for Walk<'a> {
    fn drop(self) {
        let Walk {
            path: _path,
            processors: _,
            part: _,
            tally: _tally,
            memo: _memo,
            frames: _frames,
            reach: _,
        } = self;
    }
}

impl<'a> Walk<'a> {
    /// Creates a walk before any call.
    pub(crate) fn start(
        alloc: Global,
        machine: &'a Machine,
        scripts: &'a [CallScript],
        part: Shard,
        limit: u64,
    ) -> Result<Walk<'a>, AllocError>
        requires { length scripts.now < 2 ^ 32 }
        ensures coming { IfOk result (λ walk. IsComing walk (frames_of walk)) }
        ensures setting { IfOk result (λ walk. walk.path.setting ≡ setting machine.now scripts.now) }
        ensures part { IfOk result (λ walk. walk.part ≡ part) }
        ensures limit { IfOk result (λ walk. walk.tally.limit ≡ limit) }
        ensures going { IfOk result (λ walk. walk.reach.is_stopped ≡ false) }
    {
        let memo = memo_at(alloc, machine, scripts)?;
        let path = Path::start(alloc, machine, scripts)?;
        let tally = Tally::new(alloc, limit);
        Ok(Walk {
            path,
            processors: scripts.len() as u32,
            part,
            tally,
            memo,
            frames: Vec::new(alloc),
            reach: Reach {
                places: 0,
                is_stopped: false,
            },
        })
    }

    /// Walks to the end and returns true if all schedules of the part are counted. Returns false if
    /// it stopped before: at the limit, or because the watch ended it.
    pub(crate) fn run<W: Watch>(
        &mut self,
        alloc: Global,
        watch: &mut W,
    ) -> Result<bool, ExploreFault>
        requires coming { IsComing self.old (frames_of self.old) }
        requires ended { IsEndedBy (W.has_ended watch.old) self.old }
        ensures same { OnOk result (IsSameWalk self.old self.new) }
        ensures done { IfOk result (IsDone self.new) }
        ensures ended { OnOk result (IsEndedBy (W.has_ended watch.new) self.new) }
        ensures err { IfErr result
            (IsCausePartWithin self.old.path.setting self.old.part self.old.tally.limit) }
    {
        self.come_to(alloc, watch)?;
        'turns: loop {
            match self.step(alloc, watch)? {
                Turned::On => {}
                Turned::Over => return Ok(true),
                Turned::Full => return Ok(false),
            }
        }
    }

    /// Makes one step of the walk: tries the next processor of the current place, or leaves the
    /// place once all have been tried.
    fn step<W: Watch>(&mut self, alloc: Global, watch: &mut W) -> Result<Turned, ExploreFault>
        requires walking { IsWalking self.old (frames_of self.old) }
        requires ended { IsEndedBy (W.has_ended watch.old) self.old }
        ensures same { OnOk result (IsSameWalk self.old self.new) }
        ensures ok { IfOk result (IsTurnedTo self.old self.new) }
        ensures ended { OnOk result (IsEndedBy (W.has_ended watch.new) self.new) }
        ensures err { IfErr result
            (IsCausePartWithin self.old.path.setting self.old.part self.old.tally.limit) }
    {
        let Some(frame) = self.frames.pop() else {
            return Ok(Turned::Over);
        };
        if frame.next < self.processors {
            self.go_on(alloc, frame, watch)?;
            return Ok(Turned::On);
        }
        let is_end = self.is_end(&frame);
        if self.is_full(is_end) {
            return Ok(Turned::Full);
        }
        self.go_back(alloc, frame, is_end, watch)?;
        Ok(Turned::On)
    }

    /// Returns whether a schedule of the part ends here, once all processors have been tried.
    fn is_end(&self, frame: &Level) -> bool
        requires kept { IsWalking self.now (frame.now ∷ frames_of self.now) }
        requires all { self.now.processors ≤ frame.now.next }
        ensures { IsEndHere self.now.path.setting self.now.part self.now.path.news result }
    {
        if !frame.is_over {
            return false;
        }
        self.part.is_of(self.processors, self.path.records())
    }

    /// Returns whether a schedule ends here that is not to be counted: the limit leaves no room for
    /// it, or the watch has ended the search.
    fn is_full(&self, is_end: bool) -> bool
        requires walked { IsPartWalkedBefore self.now.path.setting self.now.part
            (schedule_of self.now.path.news ++ self.now.processors ∷ []) self.now.tally.ends }
        requires processors { self.now.processors ≡ length self.now.path.setting.scripts }
        requires end { IsEndHere self.now.path.setting self.now.part self.now.path.news is_end }
        ensures full { IsTrue result → IsHalted self.now }
        ensures room { result ≡ false → is_end ≡ true → HasRoom self.now.tally }
    {
        if !is_end {
            return false;
        }
        self.path.is_played();
        if self.reach.is_stopped {
            return true;
        }
        self.tally.room() == 0
    }

    /// Tries the next processor of a place: makes its call if it has one.
    fn go_on<W: Watch>(
        &mut self,
        alloc: Global,
        frame: Level,
        watch: &mut W,
    ) -> Result<(), ExploreFault>
        requires kept { IsWalking self.old (frame ∷ frames_of self.old) }
        requires some { frame.next < self.old.processors }
        requires ended { IsEndedBy (W.has_ended watch.old) self.old }
        ensures kept { OnOk result (IsWalking self.new (frames_of self.new)) }
        ensures ended { OnOk result (IsEndedBy (W.has_ended watch.new) self.new) }
        ensures same { OnOk result (IsSameWalk self.old self.new) }
        ensures less { OnOk result
            (left self.new (frames_of self.new) < left self.old (frame ∷ frames_of self.old)) }
        ensures err { IfErr result
            (IsCausePartWithin self.old.path.setting self.old.part self.old.tally.limit) }
    {
        self.frames.reserve(1)?;
        self.path.is_played();
        // Called for its contract: the count is within the limit.
        let _ = self.tally.room();
        if !self.path.forward(alloc, frame.next)? {
            self.frames.push_reserved(frame.passed());
            return Ok(());
        }
        self.frames.push_reserved(frame.led_on());
        self.memo.go_on(alloc, latest(self.path.records()))?;
        self.come_to(alloc, watch)?;
        Ok(())
    }

    /// Decides how to treat the place just reached: pushes a level for it, or takes the call back
    /// at once if its counts are known or it belongs to another part.
    fn come_to<W: Watch>(&mut self, alloc: Global, watch: &mut W) -> Result<(), AllocError>
        requires coming { IsComing self.old (frames_of self.old) }
        requires ended { IsEndedBy (W.has_ended watch.old) self.old }
        ensures kept { OnOk result (IsWalking self.new (frames_of self.new)) }
        ensures ended { OnOk result (IsEndedBy (W.has_ended watch.new) self.new) }
        ensures same { OnOk result (IsSameWalk self.old self.new) }
        ensures less { OnOk result
            (left self.new (frames_of self.new) < left_before self.old (frames_of self.old)) }
    {
        self.frames.reserve(1)?;
        self.path.is_played();
        let bytes = self.memo.bytes();
        self.reach.ask(bytes, watch);
        let treatment = arrive(
            alloc,
            self.path.records(),
            self.path.memory(),
            self.path.positions(),
            self.part,
            self.processors,
            self.reach.is_stopped,
            &mut self.tally,
            &mut self.memo,
            watch,
        )?;
        match treatment {
            Treatment::Counted => {
                take_back(&mut self.path, &mut self.memo);
            }
            Treatment::Open(frame) => self.frames.push_reserved(frame),
        }
        Ok(())
    }

    /// Leaves a place at which all processors have been tried, and takes back the call that led to
    /// it.
    fn go_back<W: Watch>(
        &mut self,
        alloc: Global,
        frame: Level,
        is_end: bool,
        watch: &mut W,
    ) -> Result<(), AllocError>
        requires kept { IsWalking self.old (frame ∷ frames_of self.old) }
        requires all { self.old.processors ≤ frame.next }
        requires end { IsEndHere self.old.path.setting self.old.part self.old.path.news is_end }
        requires room { is_end ≡ true → HasRoom self.old.tally }
        requires ended { IsEndedBy (W.has_ended watch.old) self.old }
        ensures kept { OnOk result (IsWalking self.new (frames_of self.new)) }
        ensures ended { OnOk result (IsEndedBy (W.has_ended watch.new) self.new) }
        ensures same { OnOk result (IsSameWalk self.old self.new) }
        ensures less { OnOk result
            (left self.new (frames_of self.new) < left self.old (frame ∷ frames_of self.old)) }
    {
        self.path.is_played();
        note(
            alloc,
            self.path.records(),
            self.path.memory(),
            self.processors,
            is_end,
            &mut self.tally,
            watch,
        )?;
        leave(
            self.path.records(),
            self.path.positions(),
            self.part,
            self.processors,
            frame,
            &mut self.tally,
            &mut self.memo,
        )?;
        take_back(&mut self.path, &mut self.memo);
        Ok(())
    }

    /// Returns the ends with their counts.
    pub(crate) fn into_ends(self) -> Vec<Ending>
        ensures is { result.items ≡ self.entry.tally.ends }
        ensures within { sum_by (λ e. e.count) self.entry.tally.ends ≤ self.entry.tally.limit }
    {
        let Walk {
            path: _path,
            processors: _,
            part: _,
            tally,
            memo: _memo,
            frames: _frames,
            reach: _,
        } = self;
        tally.into_ends()
    }
}

/// Creates an empty memo for a walk at the beginning of the scripts. A memo is the table of the
/// counts of walked places.
fn memo_at(alloc: Global, machine: &Machine, scripts: &[CallScript]) -> Result<Memo, AllocError>
    ensures memo { IfOk result
        (λ memo. (ends : List Ending) → IsMemo (setting machine.now scripts.now) ends memo) }
    ensures way { IfOk result (IsOnWay (setting machine.now scripts.now) []) }
{
    let is_on = keeps_places(scripts);
    let memo = Memo::start(alloc, is_on, scripts.len(), is_closed(machine.history()))?;
    Ok(memo)
}

/// Returns whether walked places are worth keeping: there are several scripts, and none of them
/// undoes steps by their serials, or works on the operation of its n-th Begin (`OwnWork::Nth`).
pub(crate) fn keeps_places(scripts: &[CallScript]) -> bool
    ensures { result ≡ true → AreMergeable scripts.now }
{
    if scripts.len() < 2 {
        return false;
    }
    are_mergeable(scripts)
}

/// Takes back the latest call, if there is one.
fn take_back(path: &mut Path, memo: &mut Memo)
    ensures back { (cpu : Option ℕ) × IsBack path.old cpu path.new }
    ensures same { AreSamePlaces memo.old memo.new
        × AreSameNumbers memo.old.standing memo.new.standing }
    ensures way { IsOnWay path.old.setting path.old.news memo.old
        → IsOnWay path.new.setting path.new.news memo.new }
{
    match path.back() {
        Some(cpu) => memo.go_back(cpu),
        None => {}
    }
}
