//! Positions of all processors in their scripts.
ghost use Rattle.std.specs.Prelude.{◌≡◌, ◌<◌, ◌++◌, ◌∷◌, ℕ, true, [], IfOk, List, OnOk, Some, length, map, slice_set};
ghost use Rattle.hp_units.specs.Receipts.{receipts_of};
ghost use Rattle.hp_units.specs.declared.replies.Record.{Record as NewRecord};
ghost use Rattle.hp_laws.specs.Numberings.{number_of};
ghost use Rattle.hp_schedules.specs.Causes.{IsCaused};
ghost use Rattle.hp_schedules.specs.Cursors.{AreCursors, IsCalledFor, IsSteered, cursor_at};
ghost use Rattle.hp_schedules.specs.LineAnswers.{IsAnswered, answers_at};
ghost use Rattle.hp_schedules.specs.Schedules.{Setting, next_call};
ghost use Rattle.hp_schedules.specs.Scripts.{own_operation};

use crate::causes::cause_numbers;
use crate::cursors::{Cursor, NextCall};
use crate::line_answers::FinishedLine;
use crate::scripts::CallScript;
use hp_units::{Cpu, Record, Serial};
use std::alloc::{AllocError, Global};

/// Each processor's position in its script, from processor 0 on.
#[derive(Drop)]
pub struct Positions {
    cursors: Vec<Cursor>,
}

impl Positions {
    /// Returns the positions before any call.
    pub fn start(alloc: Global, cpus: u32, scripts: &[CallScript]) -> Result<Positions, AllocError>
        ensures many { IfOk result (λ positions. length positions.cursors.items ≡ length scripts.now) }
        ensures begun { IfOk result (λ positions. (g : Setting) → g.scripts ≡ scripts.now
            → g.layout.cpus ≡ cpus → AreCursors g [] positions.cursors.items) }
    {
        let cursors = begun(alloc, cpus, scripts)?;
        Ok(Positions { cursors })
    }

    /// Returns the processor's next call after the new records, or `None` if it has no script or
    /// its script is finished.
    ///
    /// Looks through the records only if the call's line works on an earlier result by its number.
    pub fn request(
        &self,
        alloc: Global,
        cpus: u32,
        scripts: &[CallScript],
        news: &[Record],
        cpu: u32,
    ) -> Result<Option<NextCall>, AllocError>
        requires { length self.now.cursors.items ≡ length scripts.now }
        ensures { IfOk result (λ request. (g : Setting) → g.scripts ≡ scripts.now → g.layout.cpus ≡ cpus
            → AreCursors g news.now self.now.cursors.items → IsCalledFor g cpu news.now request) }
    {
        let place = cpu as usize;
        if place >= scripts.len() {
            return Ok(None);
        }
        self.cursors[place].request(alloc, cpus, scripts[place].lines(), news, Cpu(cpu))
    }

    /// Returns the operation that the processor began last, or 0 if it began none.
    pub fn operation(&self, cpu: u32) -> Serial
        requires { cpu < length self.now.cursors.items }
        ensures { (g : Setting) (news : List NewRecord) → AreCursors g news self.now.cursors.items
            → result ≡ own_operation (receipts_of cpu news) }
    {
        let cursor = &self.cursors[cpu as usize];
        cursor.op
    }

    /// Returns whether the next call of a processor may be a Begin.
    ///
    /// A search numbers the states before a Begin. No promise rests on the answer: without the
    /// number of a state, later places are only walked again.
    pub fn may_begin(&self, scripts: &[CallScript]) -> bool {
        for index in 0..self.cursors.len() {
            let Some(script) = scripts.get(index) else {
                continue;
            };
            if self.cursors[index].may_begin(script.lines()) {
                return true;
            }
        }
        false
    }

    /// Returns how many lines of its script the processor has finished.
    pub fn finished(&self, scripts: &[CallScript], cpu: u32) -> usize
        requires scripts { cpu < length scripts.now }
        requires cursors { cpu < length self.now.cursors.items }
        ensures { (g : Setting) (news : List NewRecord) → g.scripts ≡ scripts.now
            → AreCursors g news self.now.cursors.items → result ≡ length (answers_at g cpu news) }
    {
        let place = cpu as usize;
        self.cursors[place].finished(scripts[place].lines())
    }

    /// Returns the line that the call of the latest record finished, or `None` if it finished none.
    /// To be called after `go_on` with that record.
    pub fn answered(&self, scripts: &[CallScript], latest: &Record) -> Option<FinishedLine>
        requires scripts { latest.now.cpu < length scripts.now }
        requires cursors { latest.now.cpu < length self.now.cursors.items }
        ensures { (g : Setting) (news : List NewRecord) → g.scripts ≡ scripts.now
            → next_call g latest.now.cpu news ≡ Some latest.now.event
            → AreCursors g (news ++ latest.now ∷ []) self.now.cursors.items
            → IsAnswered (answers_at g latest.now.cpu news) result
            (answers_at g latest.now.cpu (news ++ latest.now ∷ [])) }
    {
        let place = latest.cpu.0 as usize;
        self.cursors[place].answered(scripts[place].lines(), &latest.reply)
    }

    /// Appends the numbers of the processor's position, and returns whether each fits 32 bits. If
    /// not, some of them are missing.
    ///
    /// These are five numbers, and two more for each line, from the position on, that frees the
    /// frame of an earlier KernelAlloc. If no line of the processor's script works on the operation
    /// of its n-th Begin, its further calls depend only on these numbers and on the receipts of
    /// those calls.
    ///
    /// `fixed` and `latest` number the operations, as [`number_of`](hp_laws::number_of) does.
    pub fn push_steering(
        &self,
        scripts: &[CallScript],
        news: &[Record],
        cpu: u32,
        fixed: Serial,
        latest: &[Serial],
        numbers: &mut Vec<u32>,
    ) -> Result<bool, AllocError>
        requires scripts { cpu < length scripts.now }
        requires cursors { cpu < length self.now.cursors.items }
        ensures { IfOk result (λ fit. fit ≡ true → (part : List ℕ)
            × (numbers.new.items ≡ numbers.old.items ++ part)
            × ((g : Setting) → g.scripts ≡ scripts.now → AreCursors g news.now self.now.cursors.items
            → IsSteered (number_of fixed latest.now) g cpu news.now part)) }
    {
        let place = cpu as usize;
        let cursor = &self.cursors[place];
        let Some(steering) = cursor.steering(fixed, latest) else {
            return Ok(false);
        };
        numbers.extend_from_slice(&steering)?;
        cursor.push_frames(scripts[place].freeing_lines(), news, Cpu(cpu), numbers)
    }

    /// Appends the last refusal of a migration or a commit in the processor's plan in progress, as
    /// two numbers; both are 0 if there is none.
    ///
    /// The answer to that plan's line depends only on these two numbers, on the numbers of
    /// `push_steering`, and on the replies to further calls.
    pub fn push_causes(
        &self,
        scripts: &[CallScript],
        cpu: u32,
        numbers: &mut Vec<u32>,
    ) -> Result<(), AllocError>
        requires scripts { cpu < length scripts.now }
        requires cursors { cpu < length self.now.cursors.items }
        ensures { OnOk result ((part : List ℕ)
            × (numbers.new.items ≡ numbers.old.items ++ part) × (length part ≡ 2)
            × ((g : Setting) (news : List NewRecord) → g.scripts ≡ scripts.now
            → AreCursors g news self.now.cursors.items → IsCaused g cpu news part)) }
    {
        let place = cpu as usize;
        let cause = self.cursors[place].cause(scripts[place].lines());
        numbers.extend_from_slice(&cause_numbers(cause))
    }

    /// Moves the processor past its call and returns its former position, for `go_back`.
    pub fn go_on(
        &mut self,
        cpus: u32,
        scripts: &[CallScript],
        cpu: u32,
        request: &NextCall,
        latest: &Record,
    ) -> Cursor
        requires whose { latest.now.cpu ≡ cpu }
        requires scripts { cpu < length scripts.now }
        requires cursors { cpu < length self.old.cursors.items }
        ensures back { slice_set self.new.cursors.items cpu result ≡ self.old.cursors.items }
        ensures many { length self.new.cursors.items ≡ length self.old.cursors.items }
        ensures later { (g : Setting) (news : List NewRecord) → g.scripts ≡ scripts.now → g.layout.cpus ≡ cpus
            → AreCursors g news self.old.cursors.items → IsCalledFor g cpu news (Some request.now)
            → AreCursors g (news ++ latest.now ∷ []) self.new.cursors.items }
    {
        let place = cpu as usize;
        let later = request.from.after(cpus, scripts[place].lines(), latest);
        let former = self.cursors[place];
        self.cursors[place] = later;
        former
    }

    /// Puts the processor back to the position `former`, which `go_on` returned.
    pub fn go_back(&mut self, cpu: Cpu, former: Cursor)
        requires { cpu < length self.old.cursors.items }
        ensures { self.new.cursors.items ≡ slice_set self.old.cursors.items cpu former }
    {
        self.cursors[cpu.0 as usize] = former;
    }
}

/// Returns a cursor at the beginning of each script.
fn begun(alloc: Global, cpus: u32, scripts: &[CallScript]) -> Result<Vec<Cursor>, AllocError>
    ensures { IfOk result (λ cursors. cursors.items ≡ map (λ lines. cursor_at cpus lines 0 0) scripts.now) }
{
    scripts
        .iter()
        .map(|script| Cursor::start(cpus, script))
        .collect(alloc)
}
