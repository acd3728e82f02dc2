//! A processor's position in its script.
ghost use Rattle.std.specs.Prelude.{◌≡◌, ◌++◌, ◌∷◌, ℕ, true, [], IfOk, IfSome, List, Some, length, slice_get};
ghost use Rattle.std.specs.Option.{option_map_or};
ghost use Rattle.hp_units.specs.Receipts.{receipt_of, receipts_of};
ghost use Rattle.hp_units.specs.declared.events.Event.{Event as AnyEvent};
ghost use Rattle.hp_units.specs.declared.replies.Receipt.{Receipt};
ghost use Rattle.hp_laws.specs.Numberings.{number_of};
ghost use Rattle.hp_schedules.specs.Causes.{cause_in};
ghost use Rattle.hp_schedules.specs.Cursors.{IsAsked, IsCursor, IsRequested, IsSettled, asks, asks_at, carried, cursor_at, driver_before, first_driver, frames_ahead, is_carrying, steering_of};
ghost use Rattle.hp_schedules.specs.LineAnswers.{IsAnswered, answers_in};
ghost use Rattle.hp_schedules.specs.Scripts.{next_of};

use crate::line_answers::{FinishedLine, LineAnswer, plan_answer};
use crate::results::{frame_count, nth_frame};
use crate::scripts::{CallScript, OwnWork, Step, later_operation};
use hp_laws::number_of;
use hp_ops::Driver;
use hp_units::{Cpu, Event, Record, Refusal, Reply, Serial};
use std::alloc::{AllocError, Global};

/// A processor's position in its script: its line, the operation that it began last, and the driver
/// of the line's plan.
///
/// The driver is unused on a line without a plan.
#[derive(Clone, Copy, Drop)]
pub struct Cursor {
    line: usize,
    /// The operation that the processor began last, or 0 if it began none.
    pub(crate) op: Serial,
    driver: Driver,
}

/// The next call of a script.
#[derive(Drop)]
pub struct NextCall {
    /// The event to call.
    pub event: Event,
    /// The processor's position in its script, at the line that makes this call.
    pub from: Cursor,
}

impl Cursor {
    /// Returns the position before the first line.
    pub(crate) fn start(cpus: u32, script: &CallScript) -> Cursor
        ensures { result ≡ cursor_at cpus script.now 0 0 }
    {
        Cursor::new(cpus, script.lines(), 0, Serial(0))
    }

    /// Returns the position at the beginning of a line.
    fn new(cpus: u32, lines: &[Step], line: usize, op: Serial) -> Cursor
        ensures { result ≡ cursor_at cpus lines.now line op }
    {
        Cursor {
            line,
            op,
            driver: first_driver(cpus, lines, line),
        }
    }

    /// Returns the script's next call after the new records of processor `cpu`, or `None` at its
    /// end.
    pub(crate) fn request(
        &self,
        alloc: Global,
        cpus: u32,
        lines: &[Step],
        news: &[Record],
        cpu: Cpu,
    ) -> Result<Option<NextCall>, AllocError>
        ensures { IfOk result (λ request. IsCursor cpus lines.now (receipts_of cpu news.now) self.now
            → IsRequested cpus lines.now (receipts_of cpu news.now) request) }
    {
        if let Some(request) = self.asked(alloc, lines, news, cpu)? {
            return Ok(Some(request));
        }
        if self.line >= lines.len() {
            return Ok(None);
        }
        Cursor::new(cpus, lines, self.line + 1, self.op).asked(alloc, lines, news, cpu)
    }

    /// Returns the next call of the current line, or `None` if its plan has ended or there is no
    /// such line.
    fn asked(
        &self,
        alloc: Global,
        lines: &[Step],
        news: &[Record],
        cpu: Cpu,
    ) -> Result<Option<NextCall>, AllocError>
        ensures { IfOk result (IsAsked (receipts_of cpu news.now) self.now lines.now) }
    {
        let Some(line) = lines.get(self.line) else {
            return Ok(None);
        };
        match self.event(alloc, line, news, cpu)? {
            Some(event) => Ok(Some(NextCall { event, from: *self })),
            None => Ok(None),
        }
    }

    /// Returns the next event of the current line, or `None` if its plan has ended.
    fn event(
        &self,
        alloc: Global,
        line: &Step,
        news: &[Record],
        cpu: Cpu,
    ) -> Result<Option<Event>, AllocError>
        ensures { IfOk result (λ next. next ≡ asks (receipts_of cpu news.now) self.now line.now) }
    {
        match line {
            Step::Ask(event) => Ok(Some(event.copy(alloc)?)),
            Step::Own(work) => Ok(Some(work.event(self.op, news, cpu))),
            Step::Carry { plan, .. } => self.driver.next(alloc, plan),
        }
    }

    /// Returns five numbers: the line, the operation begun last, and the driver's remaining turns,
    /// its stage and its operation. Returns `None` if one of them does not fit 32 bits.
    ///
    /// `fixed` and `latest` number the operations, as [`number_of`] does.
    pub(crate) fn steering(&self, fixed: Serial, latest: &[Serial]) -> Option<[u32; 5]>
        ensures { IfSome result (λ numbers. numbers ≡ steering_of (number_of fixed latest.now) self.now) }
    {
        let key = self.driver.key();
        let line = u32::try_from(self.line).ok()?;
        let begun = u32::try_from(number_of(fixed, latest, self.op)?).ok()?;
        let stage = u32::try_from(key.stage).ok()?;
        let worked = u32::try_from(number_of(fixed, latest, key.op)?).ok()?;
        Some([line, begun, key.left, stage, worked])
    }

    /// For each line, from the cursor's on, that frees the frame of an earlier KernelAlloc, appends
    /// how many KernelAllocs the processor has made, and that frame. Returns whether each number
    /// fits 32 bits; if one does not, the numbers from its line on are missing.
    pub(crate) fn push_frames(
        &self,
        lines: &[Step],
        news: &[Record],
        cpu: Cpu,
        numbers: &mut Vec<u32>,
    ) -> Result<bool, AllocError>
        ensures { IfOk result (λ fit. fit ≡ true → numbers.new.items
            ≡ numbers.old.items ++ frames_ahead self.now lines.now (receipts_of cpu news.now)) }
    {
        for place in self.line..lines.len() {
            let Step::Own(OwnWork::Free { nth }) = &lines[place] else {
                continue;
            };
            let Ok(count) = u32::try_from(frame_count(news, cpu)) else {
                return Ok(false);
            };
            numbers.push(count)?;
            numbers.push(nth_frame(news, cpu, *nth).0)?;
        }
        Ok(true)
    }

    /// Returns the position after the current line's call, given the record of that call.
    pub(crate) fn after(&self, cpus: u32, lines: &[Step], latest: &Record) -> Cursor
        ensures moved { (receipts : List Receipt) (event : AnyEvent)
            → IsCursor cpus lines.now receipts self.now → asks_at receipts self.now lines.now ≡ Some event
            → IsCursor cpus lines.now (receipts ++ receipt_of latest.now ∷ []) result }
        ensures settled { (receipts : List Receipt) (event : AnyEvent)
            → IsCursor cpus lines.now receipts self.now → asks_at receipts self.now lines.now ≡ Some event
            → IsSettled lines.now result }
    {
        let op = later_operation(self.op, latest.serial, &latest.event);
        let Some(line) = lines.get(self.line) else {
            return *self;
        };
        if line.is_one_call() {
            return Cursor::new(cpus, lines, self.line + 1, op);
        }
        let mut driver = self.driver;
        driver.answer(&latest.event, &latest.reply);
        Cursor {
            line: self.line,
            op,
            driver,
        }
    }

    /// Returns whether the script's next call may be a Begin. After a plan that is over it may be.
    pub(crate) fn may_begin(&self, lines: &[Step]) -> bool {
        match lines.get(self.line) {
            Some(Step::Ask(event)) => matches!(event, Event::Begin { .. }),
            Some(Step::Carry { .. }) => !self.driver.has_begun() || self.driver.is_over(),
            Some(Step::Own(_)) | None => false,
        }
    }

    /// Returns how many lines are finished.
    pub(crate) fn finished(&self, lines: &[Step]) -> usize
        ensures { (cpus : ℕ) (receipts : List Receipt) → IsCursor cpus lines.now receipts self.now
            → result ≡ length (answers_in cpus lines.now receipts) }
    {
        let Some(line) = lines.get(self.line) else {
            return self.line;
        };
        if line.is_one_call() || !self.driver.is_over() {
            return self.line;
        }
        self.line + 1
    }

    /// Returns the line that the latest call finished, or `None` if it finished none. The cursor is
    /// the position after that call, and `reply` is its reply.
    pub(crate) fn answered(&self, lines: &[Step], reply: &Reply) -> Option<FinishedLine>
        ensures { (cpus : ℕ) (receipts : List Receipt) (r : Receipt) → r.reply ≡ reply.now
            → next_of cpus lines.now receipts ≡ Some r.event
            → IsCursor cpus lines.now (receipts ++ r ∷ []) self.now → IsSettled lines.now self.now
            → IsAnswered (answers_in cpus lines.now receipts) result
            (answers_in cpus lines.now (receipts ++ r ∷ [])) }
    {
        if self.is_carrying(lines) {
            return self.carried();
        }
        if self.line == 0 {
            return None;
        }
        Some(FinishedLine {
            line: self.line - 1,
            answer: Some(LineAnswer::Reply(*reply)),
        })
    }

    /// Returns the last refusal of a migration or a commit in the current line's plan. Returns
    /// `None` if there is none, or if no plan is in progress.
    pub(crate) fn cause(&self, lines: &[Step]) -> Option<Refusal>
        ensures { (cpus : ℕ) (receipts : List Receipt) → IsCursor cpus lines.now receipts self.now
            → result ≡ cause_in cpus lines.now receipts }
    {
        let Some(line) = lines.get(self.line) else {
            return None;
        };
        if line.is_one_call() || self.driver.is_over() {
            return None;
        }
        self.driver.why()
    }

    /// Returns whether the cursor's line is a plan whose driver has taken a reply.
    fn is_carrying(&self, lines: &[Step]) -> bool
        ensures { result ≡ is_carrying self.now lines.now }
    {
        match lines.get(self.line) {
            Some(line) => !line.is_one_call() && self.driver.has_begun(),
            None => false,
        }
    }

    /// Returns the cursor's line with the end of its plan, or `None` if the driver goes on.
    fn carried(&self) -> Option<FinishedLine>
        ensures { result ≡ carried self.now }
    {
        if !self.driver.is_over() {
            return None;
        }
        Some(FinishedLine {
            line: self.line,
            answer: plan_answer(self.driver.ended()),
        })
    }
}

/// Returns the driver at the beginning of a line, or an unused one if there is no such line.
fn first_driver(cpus: u32, lines: &[Step], line: usize) -> Driver
    ensures { result ≡ option_map_or (first_driver cpus) (slice_get lines.now line) (driver_before cpus 0) }
{
    match lines.get(line) {
        Some(line) => Driver::new(cpus, turns_of(line)),
        None => Driver::new(cpus, 0),
    }
}

/// Returns the migration limit of a line's plan, or 0 if the line has no plan.
fn turns_of(line: &Step) -> u32
    ensures { (cpus : ℕ) → driver_before cpus result ≡ first_driver cpus line.now }
{
    match line {
        Step::Carry { turns, .. } => *turns,
        _ => 0,
    }
}
