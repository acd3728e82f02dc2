//! The verdict on a log.
ghost use Rattle.std.specs.Prelude.{◌≡◌, ◌+◌, ◌<◌, ◌≤◌, ◌↔◌, ◌^◌, IsTrue, List, OnOk, [], ◌∷◌, ◌++◌};
ghost use Rattle.hp_judge.specs.Events.{frame_count};
ghost use Rattle.hp_judge.specs.Laws.{IsLawful};
ghost use Rattle.hp_judge.specs.Tables.{block_at, count_in_use};
ghost use Rattle.hp_judge.specs.declared.events.LogEvent.{LogEvent as AnyEvent};
ghost use Rattle.hp_verdicts.specs.Reports.{IsVerdictOn, allowed_none};

use crate::allowed::AllowedKinds;
use crate::faults::FaultReport;
use hp_judge::{Judge, LogEvent, MachineSize, NumberedFault, Phase};
use hp_units::{Block, Frame};
use std::alloc::{AllocError, Global};
use std::marker::Model;

/// Judges a log event by event, and reports after each whether the log is lawful so far.
#[derive(Drop)]
pub struct Verdict {
    judge: Judge,
    number: u64,
    faults: FaultReport,
}

impl Model for Verdict {
    ghost use Rattle.std.specs.Prelude.{◌≡◌, ◌+◌, ◌≤◌};
    ghost use Rattle.hp_verdicts.specs.Reports.{Judged};

    ghost Value = { Judged };

    ghost view = { λ v. record { tables = v.judge; report = v.faults } };

    ghost invariant = { λ v. (v.number ≡ v.judge.count)
        × (v.faults.count + v.faults.allowed_count ≤ v.judge.count) };
}

impl Verdict {
    /// Makes a verdict on an empty log. It keeps at most `most` faults.
    pub fn new(alloc: Global, size: MachineSize, allowed: AllowedKinds, most: u64) -> Verdict
        requires order { size.block_order < 32 }
        requires small { frame_count size < 2 ^ 32 }
        ensures size { result.tables.size ≡ size }
        ensures allowed { result.report.allowed ≡ allowed }
        ensures most { result.report.most ≡ most }
        ensures verdict { IsVerdictOn [] result }
    {
        Verdict {
            judge: Judge::new(alloc, size),
            number: 0,
            faults: FaultReport::new(alloc, allowed, most),
        }
    }

    /// Returns whether the log has as many events as can be read, 2^63.
    pub fn is_full(&self) -> bool
        ensures { IsTrue result ↔ 2 ^ 63 ≤ self.now.tables.count }
    {
        self.judge.is_full()
    }

    /// Reads the next event. After an error, the verdict is unspecified.
    pub fn read(&mut self, event: &LogEvent) -> Result<(), AllocError>
        requires { self.old.tables.count < 2 ^ 63 }
        ensures size { self.new.tables.size ≡ self.old.tables.size }
        ensures allowed { self.new.report.allowed ≡ self.old.report.allowed }
        ensures most { self.new.report.most ≡ self.old.report.most }
        ensures count { OnOk result (self.new.tables.count ≡ self.old.tables.count + 1) }
        ensures verdict { OnOk result ((log : List AnyEvent) → IsVerdictOn log self.old
            → IsVerdictOn (log ++ event.now ∷ []) self.new) }
    {
        let number = self.number;
        let fault = self.judge.observe(event)?;
        self.number = number + 1;
        match fault {
            Some(fault) => self.faults.add(NumberedFault { number, fault }),
            None => Ok(()),
        }
    }

    /// Returns whether the log has no faults except allowed ones.
    ///
    /// If no kind is allowed, this is whether a lawful machine can have written the log.
    pub fn is_lawful(&self) -> bool
        ensures counted { IsTrue result ↔ self.now.report.count ≡ 0 }
        ensures lawful { self.now.report.allowed ≡ allowed_none → (log : List AnyEvent)
            → IsVerdictOn log self.now → IsTrue result ↔ IsLawful self.now.tables.size log }
    {
        self.faults.count() == 0
    }

    /// Returns how many events were read.
    pub fn event_count(&self) -> u64
        ensures { result ≡ self.now.tables.count }
    {
        self.number
    }

    /// Returns the faults that were found.
    pub fn report(&self) -> &FaultReport
        ensures { result.now ≡ self.now.report }
    {
        &self.faults
    }

    /// Returns the phase of a memory block.
    pub fn phase(&self, block: Block) -> Phase
        ensures { result ≡ (block_at self.now.tables.blocks block).phase }
    {
        self.judge.phase(block)
    }

    /// Returns how many of the `count` frames from `start` are in use, as far as the log shows.
    pub fn count_in_use(&self, start: Frame, count: u32) -> u32
        ensures { result ≡ count_in_use self.now.tables.frames start count }
    {
        self.judge.count_in_use(start, count)
    }
}
