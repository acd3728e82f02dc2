//! The place of a walk over schedules, with the way back.
ghost use Rattle.std.specs.Prelude.{◌≡◌, ◌<◌, ◌++◌, ◌∷◌, [], ℕ, List, Some, IfErr, IfOk, OnErr, OnOk, length};
ghost use Rattle.hp_units.specs.declared.replies.Record.{Record as NewRecord};
ghost use Rattle.hp_explore.specs.Faults.{IsCauseHere};
ghost use Rattle.hp_schedules.specs.Cursors.{AreCursors};
ghost use Rattle.hp_schedules.specs.LineAnswers.{IsAnswered, answers_at};
ghost use Rattle.hp_schedules.specs.Causes.{IsCaused};
ghost use Rattle.hp_schedules.specs.Outcomes.{outcome};
ghost use Rattle.hp_explore.specs.Paths.{IsBack, IsForth, state_at};
ghost use Rattle.hp_schedules.specs.Schedules.{next_call, plays, schedule_of};
ghost use Rattle.hp_explore.specs.Settings.{setting};

use crate::exploring::ExploreFault;
use crate::turns::{advance, latest, step_back, steps_of};
use crate::ways::Turn;
use hp_machine::Machine;
use hp_memory::{Memory, Steps};
use hp_schedules::{CallScript, FinishedLine, Outcome, Positions};
use hp_states::outcome_at;
use hp_units::{Cpu, Event, Record};
use std::alloc::{AllocError, Global};
use std::marker::Model;

/// A walk along one schedule, call by call, that can go back call by call.
///
/// It starts at the machine as it is, and never changes it. In contracts, its value is the setting,
/// made of the machine and the scripts, and the records made since.
pub struct Path<'a> {
    machine: &'a Machine,
    scripts: &'a [CallScript],
    here: Steps,
    positions: Positions,
    turns: Vec<Turn>,
}

impl<'a> Model for Path<'a> {
    ghost use Rattle.hp_explore.specs.Paths.{IsPath, PathValue};
    ghost use Rattle.hp_explore.specs.Settings.{setting};

    ghost Value = { PathValue };

    ghost view = { λ p. record { setting = setting p.machine.now p.scripts.now; news = p.here.records } };

    ghost invariant = { λ p. IsPath (setting p.machine.now p.scripts.now) p.here
        p.positions.cursors.items p.turns.items };
}

/// Keeps callers from proving again how each field is dropped.
impl<'a> Drop for Path<'a> {
    fn drop(self) {
        let Path {
            machine: _,
            scripts: _,
            here: _here,
            positions: _positions,
            turns: _turns,
        } = self;
    }
}

impl<'a> Path<'a> {
    /// Creates a path before any call.
    pub fn start(
        alloc: Global,
        machine: &'a Machine,
        scripts: &'a [CallScript],
    ) -> Result<Path<'a>, AllocError>
        ensures { IfOk result
            (λ path. path ≡ record { setting = setting machine.now scripts.now; news = [] }) }
    {
        let here = steps_of(alloc, machine, machine)?;
        let positions = Positions::start(alloc, machine.layout().cpus(), scripts)?;
        Ok(Path {
            machine,
            scripts,
            here,
            positions,
            turns: Vec::new(alloc),
        })
    }

    /// Returns the new records, oldest first.
    pub fn records(&self) -> &[Record]
        ensures { result.now ≡ self.now.news }
    {
        let here = &self.here;
        here.records()
    }

    /// Returns the memory after the new records.
    pub fn memory(&self) -> &Memory
        ensures { result.now ≡ record { layout = self.now.setting.layout; state = state_at self.now } }
    {
        let here = &self.here;
        here.memory()
    }

    /// Returns the script of each processor, from processor 0 on.
    pub fn scripts(&self) -> &[CallScript]
        ensures { result.now ≡ self.now.setting.scripts }
    {
        self.scripts
    }

    /// Returns the number of processors of the machine's layout.
    pub fn cpus(&self) -> u32
        ensures { result ≡ self.now.setting.layout.cpus }
    {
        self.machine.layout().cpus()
    }

    /// Called for its contract: the schedule that the new records follow leads to exactly these
    /// records.
    pub fn is_played(&self)
        ensures { plays self.now.setting (schedule_of self.now.news) ≡ Some self.now.news }
    {
        let _ = &self.here;
    }

    /// Returns the processor's next event, or `None` if it has no script or its script is finished.
    pub fn next_call(&self, alloc: Global, cpu: u32) -> Result<Option<Event>, AllocError>
        ensures { IfOk result (λ next. next_call self.now.setting cpu self.now.news ≡ next) }
    {
        let cpus = self.machine.layout().cpus();
        let news = self.here.records();
        match self
            .positions
            .request(alloc, cpus, self.scripts, news, cpu)?
        {
            Some(request) => Ok(Some(request.event)),
            None => Ok(None),
        }
    }

    /// Returns how many lines of its script the processor has finished.
    pub fn finished(&self, cpu: u32) -> usize
        ensures { result ≡ length (answers_at self.now.setting cpu self.now.news) }
    {
        if cpu as usize >= self.scripts.len() {
            return 0;
        }
        self.positions.finished(self.scripts, cpu)
    }

    /// Returns the line that the latest call finished, with its answer. Returns `None` if that call
    /// finished no line, or if there is no call yet.
    pub fn answered(&self) -> Option<FinishedLine>
        ensures { (before : List NewRecord) (r : NewRecord) → self.now.news ≡ before ++ r ∷ []
            → IsAnswered (answers_at self.now.setting r.cpu before) result
            (answers_at self.now.setting r.cpu self.now.news) }
    {
        let records = self.here.records();
        if records.is_empty() {
            return None;
        }
        self.positions.answered(self.scripts, latest(records))
    }

    /// Appends two numbers for the last refusal of a migration or a commit in the processor's plan
    /// in progress; both are 0 if there is none.
    pub fn push_causes(&self, cpu: u32, numbers: &mut Vec<u32>) -> Result<(), AllocError>
        requires { cpu < length self.now.setting.scripts }
        ensures { OnOk result ((part : List ℕ) × (numbers.new.items ≡ numbers.old.items ++ part)
            × (length part ≡ 2) × IsCaused self.now.setting cpu self.now.news part) }
    {
        self.positions.push_causes(self.scripts, cpu, numbers)
    }

    /// Returns each processor's position in its script.
    pub(crate) fn positions(&self) -> &Positions
        ensures { AreCursors self.now.setting self.now.news result.now.cursors.items }
    {
        &self.positions
    }

    /// Returns how the schedule ends here for `processors` processors, provided it is complete.
    pub fn outcome(&self, alloc: Global, processors: u32) -> Result<Outcome, AllocError>
        ensures { IfOk result (λ x.
            x ≡ outcome processors self.now.news self.now.setting.layout (state_at self.now)) }
    {
        outcome_at(alloc, processors, &self.here)
    }

    /// Makes the processor's next call and returns true. Returns false, and changes nothing, if it
    /// has no script or its script is finished.
    ///
    /// # Errors
    ///
    /// `HistoryFull` if the layout's history has no room for the call, `OutOfMemory` if memory
    /// allocation fails. Nothing changes then either.
    pub fn forward(&mut self, alloc: Global, cpu: u32) -> Result<bool, ExploreFault>
        ensures ok { IfOk result (λ went. IsForth self.old cpu went self.new) }
        ensures err { OnErr result (self.new ≡ self.old) }
        ensures cause { IfErr result (IsCauseHere self.old.setting self.old.news cpu) }
    {
        advance(
            alloc,
            self.machine,
            self.scripts,
            &mut self.here,
            &mut self.positions,
            &mut self.turns,
            cpu,
        )
    }

    /// Takes the latest call back and returns its processor. Returns `None`, and changes nothing,
    /// at the beginning of the scripts. Allocates nothing.
    pub fn back(&mut self) -> Option<Cpu>
        ensures { IsBack self.old result self.new }
    {
        step_back(&mut self.here, &mut self.positions, &mut self.turns)
    }
}
