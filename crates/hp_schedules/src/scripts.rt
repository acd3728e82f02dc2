//! Scripts: what each processor calls, one line after another.
ghost use Rattle.std.specs.Prelude.{◌≡◌, ◌≤◌, ℕ, true, List, cond, drop, flat_map, length};
ghost use Rattle.std.specs.List.{list_all};
ghost use Rattle.hp_units.specs.Marks.{is_opening, mark_of};
ghost use Rattle.hp_units.specs.Receipts.{receipts_of};
ghost use Rattle.hp_schedules.specs.Alike.{is_mergeable, is_mergeable_line};
ghost use Rattle.hp_schedules.specs.Cursors.{frames_named};
ghost use Rattle.hp_schedules.specs.Interleavings.{holds_no_plan, is_one_call};
ghost use Rattle.hp_schedules.specs.Scripts.{greatest_in, greatest_named, known_with, named_in, names_no_frame, step_work_of, work_of};

use crate::results::{nth_begun, nth_frame};
use hp_units::{Cpu, Event, Plan, Record, Serial, mark_of};
use std::marker::Model;

/// Work on an operation.
#[derive(Clone, Copy, Drop)]
pub enum StepWork {
    /// Drains a processor's lists.
    DrainFor { cpu: Cpu },
    /// Moves one page.
    Migrate,
    /// Commits the operation.
    Commit,
    /// Cancels the operation.
    Cancel,
}

/// Work on the result of an earlier call of the same processor.
///
/// The processor's Begins are numbered from 0, from the beginning of the scripts on, and so are its
/// KernelAllocs. A call of the driver counts, and so does a refused one.
#[derive(Clone, Copy, Drop)]
pub enum OwnWork {
    /// Works on the operation that the processor began last.
    Latest(StepWork),
    /// Works on the operation that the processor's Begin of this number began.
    Nth { nth: u32, work: StepWork },
    /// Frees the block that the processor's KernelAlloc of this number took.
    Free { nth: u32 },
}

/// One line of a script.
#[derive(Drop)]
pub enum Step {
    /// Calls one event.
    Ask(Event),
    /// Works on an earlier result.
    Own(OwnWork),
    /// Lets the driver carry out a plan with at most `turns` migrations. The driver's calls count
    /// as the processor's.
    Carry { plan: Plan, turns: u32 },
}

/// The calls of one processor, in order. In contracts, a script's value is the list of its lines.
#[derive(Drop)]
pub struct CallScript {
    lines: Vec<Step>,
    /// No line from this one on frees the frame of an earlier KernelAlloc.
    freeing: usize,
}

impl Model for CallScript {
    ghost use Rattle.std.specs.Prelude.{◌≡◌, ◌≤◌, List, true, drop, length};
    ghost use Rattle.std.specs.List.{list_all};
    ghost use Rattle.hp_schedules.specs.Scripts.{names_no_frame};
    ghost use Rattle.hp_schedules.specs.declared.scripts.Step.{Step};

    ghost Value = { List Step };

    ghost view = { λ s. s.lines.items };

    ghost invariant = { λ s. (s.freeing ≤ length s.lines.items)
        × (list_all names_no_frame (drop s.freeing s.lines.items) ≡ true) };
}

impl StepWork {
    /// Returns the event that does this work on operation `op`.
    fn event(self, op: Serial) -> Event
        ensures { result ≡ step_work_of op self }
    {
        match self {
            StepWork::DrainFor { cpu } => Event::DrainFor { op, cpu },
            StepWork::Migrate => Event::Migrate { op },
            StepWork::Commit => Event::Commit { op },
            StepWork::Cancel => Event::Cancel { op },
        }
    }
}

impl OwnWork {
    /// Returns the event that does this work after the new records, if `op` is the operation that
    /// the processor began last.
    pub(crate) fn event(self, op: Serial, news: &[Record], cpu: Cpu) -> Event
        ensures { result ≡ work_of (known_with op (receipts_of cpu news.now)) self }
    {
        match self {
            OwnWork::Latest(work) => work.event(op),
            OwnWork::Nth { nth, work } => work.event(nth_begun(news, cpu, nth)),
            OwnWork::Free { nth } => Event::KernelFree {
                frame: nth_frame(news, cpu, nth),
            },
        }
    }
}

impl Step {
    /// Returns whether the line is one call.
    pub(crate) fn is_one_call(&self) -> bool
        ensures { result ≡ is_one_call self.now }
    {
        !matches!(self, Step::Carry { .. })
    }

    /// Returns the operation that the line names by its number, or 0 if it names none.
    fn named(&self) -> Serial
        ensures { result ≡ named_in self.now }
    {
        let Step::Ask(event) = self else {
            return Serial(0);
        };
        match event {
            Event::DrainFor { op, .. } => *op,
            Event::Migrate { op } => *op,
            Event::Commit { op } => *op,
            Event::Cancel { op } => *op,
            _ => Serial(0),
        }
    }

    /// Returns whether the line neither undoes steps by their serials (`UndoAfter`), nor works on
    /// the operation of its processor's n-th Begin (`Nth`).
    ///
    /// An `Ask` may still name an operation by its number, because this number is in the script.
    fn is_mergeable(&self) -> bool
        ensures { result ≡ is_mergeable_line self.now }
    {
        match self {
            Step::Ask(event) => !matches!(event, Event::UndoAfter { .. }),
            Step::Own(work) => !matches!(work, OwnWork::Nth { .. }),
            Step::Carry { .. } => true,
        }
    }
}

impl CallScript {
    /// Creates a script from its lines. Allocates nothing.
    pub fn new(lines: Vec<Step>) -> Self
        ensures { result ≡ lines.items }
    {
        let freeing = freeing_count(lines.as_slice());
        CallScript { lines, freeing }
    }

    /// Returns how many lines the script has.
    pub fn line_count(&self) -> usize
        ensures { result ≡ length self.now }
    {
        self.lines().len()
    }

    /// Returns the lines in order.
    pub(crate) fn lines(&self) -> &[Step]
        ensures { result.now ≡ self.now }
    {
        let lines = &self.lines;
        lines.as_slice()
    }

    /// Returns the lines up to the last that frees the frame of an earlier KernelAlloc.
    pub(crate) fn freeing_lines(&self) -> &[Step]
        ensures { (frames : List ℕ) (k : ℕ) → flat_map (frames_named frames) (drop k result.now)
            ≡ flat_map (frames_named frames) (drop k self.now) }
    {
        let lines = &self.lines;
        &lines.as_slice()[..self.freeing]
    }

    /// Returns the greatest operation that a line names by its number, or `least` if that is
    /// greater.
    fn greatest_named(&self, least: Serial) -> Serial
        ensures { result ≡ greatest_in least self.now }
    {
        let mut greatest = least;
        for line in self.lines() {
            let named = line.named();
            if greatest.0 < named.0 {
                greatest = named;
            }
        }
        greatest
    }

    /// Returns whether each line is one call.
    pub(crate) fn holds_no_plan(&self) -> bool
        ensures { result ≡ holds_no_plan self.now }
    {
        for line in self.lines() {
            if !line.is_one_call() {
                return false;
            }
        }
        true
    }

    /// Returns whether no line undoes steps by their serials (`UndoAfter`), or works on the
    /// operation of its processor's n-th Begin (`Nth`).
    fn is_mergeable(&self) -> bool
        ensures { result ≡ is_mergeable self.now }
    {
        for line in self.lines() {
            if !line.is_mergeable() {
                return false;
            }
        }
        true
    }
}

/// Returns how many lines there are up to the last that frees the frame of an earlier KernelAlloc,
/// or 0 if there is none.
fn freeing_count(lines: &[Step]) -> usize
    ensures within { result ≤ length lines.now }
    ensures rest { list_all names_no_frame (drop result lines.now) ≡ true }
{
    for place in (0..lines.len()).rev() {
        if matches!(lines[place], Step::Own(OwnWork::Free { .. })) {
            return place + 1;
        }
    }
    0
}

/// Returns the operation that the processor began last, after one more call: `serial` if `event` is
/// a Begin, refused or not; otherwise still `op`.
pub(crate) fn later_operation(op: Serial, serial: Serial, event: &Event) -> Serial
    ensures { result ≡ cond (is_opening (mark_of event.now)) serial op }
{
    if mark_of(event).is_opening() {
        serial
    } else {
        op
    }
}

/// Returns the greatest operation that a line of the scripts names by its number, or 0 if none
/// does.
///
/// A search may give other numbers to the operations above it, since no line can tell them apart.
pub fn greatest_named(scripts: &[CallScript]) -> Serial
    ensures { result ≡ greatest_named scripts.now }
{
    let mut greatest = Serial(0);
    for script in scripts {
        greatest = script.greatest_named(greatest);
    }
    greatest
}

/// Returns whether no line of any script undoes steps by their serials (`UndoAfter`), or works on
/// the operation of its processor's n-th Begin (`Nth`).
///
/// A search may treat two places that continue alike as one only if this holds, because serials
/// differ between the schedules that lead there.
pub fn are_mergeable(scripts: &[CallScript]) -> bool
    ensures { result ≡ list_all is_mergeable scripts.now }
{
    for script in scripts {
        if !script.is_mergeable() {
            return false;
        }
    }
    true
}
