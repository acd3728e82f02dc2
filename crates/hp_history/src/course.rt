//! A journal with its base state and its records.
ghost use Rattle.std.specs.Prelude.{◌≡◌, ◌<◌, ◌≤◌, false, true, length, MatchOption, IfOk, OnErr, OnOk};
ghost use Rattle.hp_units.specs.Boot.{boot_memory};
ghost use Rattle.hp_units.specs.History.{goes_back, net_of};
ghost use Rattle.hp_units.specs.LayoutParts.{IsLayout};
ghost use Rattle.hp_units.specs.Placement.{IsWellPlaced};
ghost use Rattle.hp_history.specs.Course.{IsAnswered, IsHistory, is_spent, last_serial, receipt_for, started};
ghost use Rattle.hp_history.specs.Entries.{IsEntry, IsUndone, IsWayBack};
ghost use Rattle.hp_history.specs.Kept.{pictured};
ghost use Rattle.hp_history.specs.Volumes.{volume_of};

use crate::journal::Journal;
use crate::records::{Records, copy_records};
use crate::volumes::Volume;
use hp_memory::Memory;
use hp_plain::Image;
use hp_tape::Delta;
use hp_units::{Cpu, Event, Layout, Record, Reply, Serial};
use std::alloc::{AllocError, Global};
use std::marker::Model;
use std::mem::replace;

/// A memory with its history and its journal. The history is always legal, the state is that of the
/// history, and the journal leads back over each step that is not undone. It has room for as many
/// records and deltas as its `Journal`.
pub struct Course {
    journal: Journal,
    base: Image,
    history: Vec<Record>,
}

/// Keeps callers from proving again how each field is dropped.
impl Drop for Course {
    fn drop(self) {
        let Course {
            journal: _journal,
            base: _base,
            history: _history,
        } = self;
    }
}

impl Model for Course {
    ghost use Rattle.std.specs.Prelude.{◌≡◌};
    ghost use Rattle.hp_history.specs.Course.{CourseValue};
    ghost use Rattle.hp_history.specs.Kept.{pictured};

    ghost Value = { CourseValue };

    ghost view = { λ m. m.journal };

    ghost invariant = { λ m. (m.base ≡ pictured m.journal.layout m.journal.base)
        × (m.history.items ≡ m.journal.history) };
}

impl Course {
    /// Returns a course without records over a base state, after `before` earlier records.
    pub fn start(alloc: Global, base: &Image, before: u64) -> Result<Course, AllocError>
        requires placed { IsWellPlaced base.now.layout base.now.memory }
        ensures { IfOk result (λ course. course ≡ started base.now.layout base.now.memory before) }
    {
        let own = base.copy(alloc)?;
        let journal = Journal::from_image(alloc, base, before)?;
        Ok(Course {
            journal,
            base: own,
            history: Vec::new(alloc),
        })
    }

    /// Returns a course without records over the state at boot.
    pub fn boot(alloc: Global, layout: &Layout) -> Result<Course, AllocError>
        ensures start { IfOk result (λ course. course ≡ started layout.now (boot_memory layout.now) 0) }
        ensures limits { IfOk result (λ _. IsLayout layout.now) }
    {
        let base = Image::boot(alloc, layout)?;
        let journal = Journal::from_image(alloc, &base, 0)?;
        Ok(Course {
            journal,
            base,
            history: Vec::new(alloc),
        })
    }

    /// Returns a copy of the course.
    pub fn copy(&self, alloc: Global) -> Result<Course, AllocError>
        ensures { IfOk result (λ course. course ≡ self.now) }
    {
        let base = self.base.copy(alloc)?;
        let journal = self.journal.copy(alloc)?;
        let history = copy_records(alloc, &self.history)?;
        Ok(Course {
            journal,
            base,
            history,
        })
    }

    /// Replies to a processor's event and records it. Returns the record's serial and the reply.
    ///
    /// An undo that is not refused drops steps. So does a Cancel that is not refused, if only its
    /// operation's own work follows its Begin. Any other event leaves a step, unless it is a Read
    /// or is refused. On an error, nothing changes.
    #[inline(always)]
    pub fn answer(
        &mut self,
        alloc: Global,
        cpu: Cpu,
        event: &Event,
    ) -> Result<(Serial, Reply), AllocError>
        requires free { is_spent self.old ≡ false }
        ensures err { OnErr result (self.new ≡ self.old) }
        ensures ok { IfOk result
            (λ answer. IsAnswered self.old cpu event.now (receipt_for event.now answer) self.new) }
        ensures back { IfOk result (λ answer. goes_back answer.1 ≡ true → IsUndone self.old self.new) }
    {
        let recorded = event.copy(alloc)?;
        self.history.reserve(1)?;
        let answer = self.journal.answer(alloc, cpu, event)?;
        self.history.push_reserved(Record {
            serial: answer.0,
            cpu,
            event: recorded,
            reply: answer.1,
        });
        Ok(answer)
    }

    /// Hands out the base and the records, and goes on without them: the present state becomes the
    /// base, and no earlier step can be undone. Makes no record. On an error, nothing changes.
    pub fn seal(&mut self, alloc: Global) -> Result<Volume, AllocError>
        ensures err { OnErr result (self.new ≡ self.old) }
        ensures volume { IfOk result (λ volume. volume ≡ volume_of self.old) }
        ensures goes_on { OnOk result
            (self.new ≡ started self.old.layout self.old.state (last_serial self.old)) }
    {
        let now = self.journal.image(alloc)?;
        let before = self.journal.before();
        let _count = self.journal.seal();
        let base = replace(&mut self.base, now);
        let history = replace(&mut self.history, Vec::new(alloc));
        let records = Records::new(history);
        Ok(Volume {
            before,
            base,
            records,
        })
    }

    /// Returns whether no serial is left: the last one is 2^64 - 1.
    pub fn is_spent(&self) -> bool
        ensures { result ≡ is_spent self.now }
    {
        self.journal.is_spent()
    }

    /// Returns the last serial, which is the number of all records, earlier ones included.
    pub fn last_serial(&self) -> u64
        ensures { result ≡ last_serial self.now }
    {
        self.journal.last_serial()
    }

    /// Returns how many earlier records there are, before those of the history.
    pub fn before(&self) -> u64
        ensures { result ≡ self.now.before }
    {
        self.journal.before()
    }

    /// Returns the state that the history began with.
    pub fn base(&self) -> &Image
        ensures { result.now ≡ record { layout = self.now.layout; memory = self.now.base } }
    {
        &self.base
    }

    /// Returns the present state, in layers.
    pub fn memory(&self) -> &Memory
        ensures { result.now ≡ record { layout = self.now.layout; state = self.now.state } }
    {
        self.journal.memory()
    }

    /// Returns the present state as an `Image` of its own.
    pub fn image(&self, alloc: Global) -> Result<Image, AllocError>
        ensures { IfOk result
            (λ image. image ≡ record { layout = self.now.layout; memory = self.now.state }) }
    {
        self.journal.image(alloc)
    }

    /// Returns the records, oldest first. They are a legal history, and lead to the present state.
    pub fn history(&self) -> &[Record]
        ensures records { result.now ≡ self.now.history }
        ensures kept { IsHistory self.now }
    {
        self.journal.keeps_history();
        self.history.as_slice()
    }

    /// Reserves room for `records` more records and their journal entries. The tape of deltas may
    /// still grow.
    pub fn reserve(&mut self, records: usize) -> Result<(), AllocError>
        ensures { self.new ≡ self.old }
    {
        self.history.reserve(records)?;
        self.journal.reserve(records)
    }

    /// Returns the number of steps that are not undone.
    pub fn journal_len(&self) -> u64
        ensures { result ≡ length (net_of self.now.history) }
    {
        self.journal.journal_len()
    }

    /// Returns the deltas of step `at`, counted from 0 among the steps that are not undone;
    /// `None` past the last. Latest first, they lead back from the state after the step to
    /// the state before it.
    pub fn entry(&self, at: u64) -> Option<&[Delta]>
        ensures { MatchOption result (length (net_of self.now.history) ≤ at)
            (λ deltas. IsEntry self.now at deltas.now) }
    {
        self.journal.entry(at)
    }

    /// Returns the deltas of step `at` and of all later steps, counted as in `entry`: an empty
    /// slice if `at` is the number of steps, and `None` if it is greater. Latest first, they lead
    /// back from the present state to the state before step `at`: an undo that drops these steps
    /// takes these deltas off.
    pub fn way_back(&self, at: u64) -> Option<&[Delta]>
        ensures { MatchOption result (length (net_of self.now.history) < at)
            (λ deltas. IsWayBack self.now at deltas.now) }
    {
        self.journal.way_back(at)
    }
}
