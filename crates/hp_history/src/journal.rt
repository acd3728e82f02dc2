//! A memory and the journal of its steps, without records.
ghost use Rattle.std.specs.Prelude.{◌≡◌, ◌↔◌, ◌+◌, [], false, true, length, IfOk, IfNone, IfSome, IsOk, OnErr, IsTrue};
ghost use Rattle.hp_units.specs.Boot.{boot_memory};
ghost use Rattle.hp_units.specs.LayoutParts.{IsLayout};
ghost use Rattle.hp_units.specs.Placement.{IsWellPlaced};
ghost use Rattle.hp_units.specs.declared.events.Event.TheVariants.{Cancel, UndoAfter};
ghost use Rattle.hp_units.specs.declared.replies.Reply.TheVariants.{Restored};
ghost use Rattle.hp_units.specs.History.{goes_back};
ghost use Rattle.hp_history.specs.Entries.{IsUndone};
ghost use Rattle.hp_history.specs.Course.{IsAnswered, IsHistory, NeedsNoMemory, is_spent, last_serial, receipt_for, started};
ghost use Rattle.hp_history.specs.Kept.{IsCut, IsStep, is_gone, may_cancel};

use crate::entries::{Entry, keep_step, kept_len, sole_place, start_of};
use crate::remembered::Remembered;
use hp_memory::Memory;
use hp_plain::Image;
use hp_tape::Tape;
use hp_units::{Cpu, Event, Layout, Refusal, Reply, Serial, is_step, mark_of};
use std::alloc::{AllocError, Global};
use std::marker::Model;

mod steps;

/// A memory and the journal of its steps, without records. It replies as a `Course` does; the base
/// state and the records exist only in its proofs and take no bytes.
///
/// It has no room after 2^30 records since the base, or 2^32 deltas on its tape. Then every event
/// fails as if memory ran out, except an undo and a Cancel that restores.
pub struct Journal {
    before: u64,
    count: u64,
    memory: Memory,
    entries: Vec<Entry>,
    deltas: Tape,
    past: Remembered,
}

/// Keeps callers from proving again how each field is dropped.
impl Drop for Journal {
    fn drop(self) {
        let Journal {
            before: _before,
            count: _count,
            memory: _memory,
            entries: _entries,
            deltas: _deltas,
            past: _past,
        } = self;
    }
}

impl Model for Journal {
    ghost use Rattle.std.specs.Prelude.{◌≡◌, length};
    ghost use Rattle.hp_history.specs.Course.{CourseValue};
    ghost use Rattle.hp_history.specs.Kept.{IsCourse};
    ghost use Rattle.hp_history.specs.Seen.{seen};

    ghost Value = { CourseValue };

    ghost view = { seen };

    ghost invariant = { λ m.
        IsCourse (seen m) m.entries.items m.deltas.deltas × (m.count ≡ length m.past.history) };
}

impl Journal {
    /// Returns a journal without records over the state at boot.
    pub fn boot(alloc: Global, layout: &Layout) -> Result<Journal, AllocError>
        ensures start { IfOk result (λ journal. journal ≡ started layout.now (boot_memory layout.now) 0) }
        ensures limits { IfOk result (λ _. IsLayout layout.now) }
    {
        let memory = Memory::boot(alloc, layout)?;
        Journal::start(alloc, memory, 0)
    }

    /// Returns a journal without records over a base state, after `before` earlier records.
    pub fn from_image(alloc: Global, base: &Image, before: u64) -> Result<Journal, AllocError>
        requires placed { IsWellPlaced base.now.layout base.now.memory }
        ensures { IfOk result (λ journal. journal ≡ started base.now.layout base.now.memory before) }
    {
        let memory = Memory::from_image(alloc, base)?;
        Journal::start(alloc, memory, before)
    }

    /// Returns a journal without records over a memory's state, after `before` earlier records.
    fn start(alloc: Global, memory: Memory, before: u64) -> Result<Journal, AllocError>
        ensures start { IfOk result (λ journal. journal ≡ started memory.layout memory.state before) }
        ensures limits { IfOk result (λ _. IsLayout memory.layout) }
    {
        memory.is_placed();
        let deltas = Tape::with_room(alloc, 0)?;
        let past = Remembered::start(&memory);
        Ok(Journal {
            before,
            count: 0,
            memory,
            entries: Vec::new(alloc),
            deltas,
            past,
        })
    }

    /// Returns a copy of the journal.
    pub(crate) fn copy(&self, alloc: Global) -> Result<Journal, AllocError>
        ensures { IfOk result (λ journal. journal ≡ self.now) }
    {
        let memory = self.memory.copy(alloc)?;
        let entries = Vec::from_slice(alloc, self.entries.as_slice())?;
        let deltas = self.deltas.copy(alloc)?;
        Ok(Journal {
            before: self.before,
            count: self.count,
            memory,
            entries,
            deltas,
            past: self.past.again(),
        })
    }

    /// Replies to a processor's event. Returns the serial of the event's record and the reply.
    ///
    /// An undo that is not refused drops steps. So does a Cancel that is not refused, if only its
    /// operation's own work follows its Begin. Any other event leaves a step, unless it is a Read
    /// or is refused. An undo, refused or not, and a Cancel that restores need no memory. On an
    /// error, nothing changes.
    #[inline(always)]
    pub fn answer(
        &mut self,
        alloc: Global,
        cpu: Cpu,
        event: &Event,
    ) -> Result<(Serial, Reply), AllocError>
        requires free { is_spent self.old ≡ false }
        ensures succeeds { NeedsNoMemory self.old cpu event.now → IsOk result }
        ensures err { OnErr result (self.new ≡ self.old) }
        ensures ok { IfOk result
            (λ answer. IsAnswered self.old cpu event.now (receipt_for event.now answer) self.new) }
        ensures back { IfOk result (λ answer. goes_back answer.1 ≡ true → IsUndone self.old self.new) }
    {
        match event {
            Event::UndoAfter { serial } => {
                let (keep, reply) = self.undo_cut(cpu, *serial);
                Ok(self.go_back(cpu, event, keep, &reply))
            }
            Event::Cancel { op } => match self.cancel_cut(cpu, *op) {
                Some(keep) => Ok(self.go_back(cpu, event, keep, &Reply::Restored)),
                None => self.act(alloc, cpu, event),
            },
            _ => self.act(alloc, cpu, event),
        }
    }

    /// Makes the present state the new base, with no records after it, so that no earlier step can
    /// be undone. Returns how many records there were. Makes no record and allocates nothing.
    pub fn seal(&mut self) -> u64
        ensures count { result ≡ length self.old.history }
        ensures goes_on { self.new ≡ started self.old.layout self.old.state (last_serial self.old) }
    {
        let count = self.count;
        self.before += count;
        self.count = 0;
        let past = Remembered::start(&self.memory);
        self.past = past;
        self.entries.clear();
        self.entries.shrink_to_fit();
        emptied(&mut self.deltas);
        count
    }

    /// Returns whether no serial is left: the last one is 2^64 - 1.
    pub fn is_spent(&self) -> bool
        ensures { result ≡ is_spent self.now }
    {
        self.last_serial() >= u64::MAX
    }

    /// Returns whether `serial` is the next one.
    pub fn expects(&self, serial: Serial) -> bool
        ensures next { IsTrue result ↔ (serial ≡ last_serial self.now + 1) }
        ensures free { result ≡ true → is_spent self.now ≡ false }
    {
        !self.is_spent() && serial == self.next_serial()
    }

    /// Returns the last serial, which is the number of all records, earlier ones included.
    pub fn last_serial(&self) -> u64
        ensures { result ≡ last_serial self.now }
    {
        self.before + self.count
    }

    /// Returns how many earlier records there are, before those since the base.
    pub fn before(&self) -> u64
        ensures { result ≡ self.now.before }
    {
        self.before
    }

    /// Returns the present state, in layers.
    pub fn memory(&self) -> &Memory
        ensures { result.now ≡ record { layout = self.now.layout; state = self.now.state } }
    {
        &self.memory
    }

    /// Returns the present state as an `Image` of its own.
    pub fn image(&self, alloc: Global) -> Result<Image, AllocError>
        ensures { IfOk result
            (λ image. image ≡ record { layout = self.now.layout; memory = self.now.state }) }
    {
        self.memory.image(alloc)
    }

    /// Called for its contract: the history is legal, and the state is that of the history.
    pub fn keeps_history(&self)
        ensures { IsHistory self.now }
    {
        let _ = &self.memory;
    }

    /// Returns the serial of the next record.
    fn next_serial(&self) -> Serial
        requires { is_spent self.now ≡ false }
        ensures { result ≡ last_serial self.now + 1 }
    {
        Serial(self.last_serial() + 1)
    }

    /// Returns how many steps an undo to `serial` keeps, and its reply.
    fn undo_cut(&self, cpu: Cpu, serial: Serial) -> (usize, Reply)
        ensures { IsCut self.now cpu (UndoAfter serial) result.0 result.1 }
    {
        let entries = self.entries.as_slice();
        if cpu.0 >= self.memory.layout().cpus() {
            (entries.len(), Reply::Refused(Refusal::NoCpu))
        } else if self.is_gone(serial) {
            (entries.len(), Reply::Refused(Refusal::Gone))
        } else {
            let keep = kept_len(entries, self.before, serial);
            let count = (entries.len() - keep) as u64;
            (keep, Reply::Undone { count })
        }
    }

    /// Returns whether an undo to `serial` by a processor of the layout is refused as `Gone`:
    /// `serial` is above the last serial, or below the last one that was sealed.
    fn is_gone(&self, serial: Serial) -> bool
        ensures { result ≡ is_gone self.now serial }
    {
        serial.0 > self.last_serial() || serial.0 < self.before
    }

    /// Returns how many steps a Cancel keeps if it drops its operation's Begin and all later steps;
    /// `None` if it is carried out like other events.
    fn cancel_cut(&self, cpu: Cpu, op: Serial) -> Option<usize>
        ensures back { IfSome result (λ keep. IsCut self.now cpu (Cancel op) keep Restored) }
        ensures step { IfNone result (IsStep self.now cpu (Cancel op)) }
    {
        if self.may_cancel(cpu, op) {
            let entries = self.entries.as_slice();
            sole_place(entries, self.before, op)
        } else {
            None
        }
    }

    /// Returns whether `cpu` may cancel `op`: the layout has the processor and the operation is
    /// live.
    fn may_cancel(&self, cpu: Cpu, op: Serial) -> bool
        ensures { result ≡ may_cancel self.now.layout self.now.state cpu op }
    {
        cpu.0 < self.memory.layout().cpus() && self.memory.is_live(op)
    }

    /// Drops all steps after the first `keep`, in reply to an event. Allocates nothing.
    #[inline(always)]
    fn go_back(&mut self, cpu: Cpu, event: &Event, keep: usize, reply: &Reply) -> (Serial, Reply)
        requires free { is_spent self.old ≡ false }
        requires cut { IsCut self.old cpu event.now keep reply.now }
        ensures answered { IsAnswered self.old cpu event.now (receipt_for event.now result) self.new }
        ensures back { IsUndone self.old self.new }
    {
        let serial = self.next_serial();
        let count = self.deltas.len();
        let start = start_of(self.entries.as_slice(), count, keep);
        self.memory.back(&mut self.deltas, start);
        self.entries.truncate(keep);
        self.count += 1;
        let past = self.past.and(&serial, &cpu, event, reply);
        self.past = past;
        (serial, *reply)
    }

    /// Carries out the event. Allocates before it changes anything.
    #[inline(always)]
    fn act(&mut self, alloc: Global, cpu: Cpu, event: &Event) -> Result<(Serial, Reply), AllocError>
        requires free { is_spent self.old ≡ false }
        requires step { IsStep self.old cpu event.now }
        ensures err { OnErr result (self.new ≡ self.old) }
        ensures ok { IfOk result
            (λ answer. IsAnswered self.old cpu event.now (receipt_for event.now answer) self.new) }
    {
        let serial = self.next_serial();
        let start = self.deltas.len();
        if !Entry::has_room(self.count, start) {
            return Err(AllocError);
        }
        self.entries.reserve(1)?;
        let reply = self
            .memory
            .step(alloc, serial, cpu, event, &mut self.deltas)?;
        // Made only now, when few values are live. Without a step, only its `start` is used.
        let entry = Entry::new(self.count, start, mark_of(event));
        keep_step(
            &mut self.entries,
            &mut self.memory,
            &mut self.deltas,
            entry,
            is_step(event, &reply),
        );
        self.count += 1;
        let past = self.past.and(&serial, &cpu, event, &reply);
        self.past = past;
        Ok((serial, reply))
    }
}

/// Takes all deltas off a tape, and frees its memory.
fn emptied(tape: &mut Tape)
    ensures { tape.new.deltas ≡ [] }
{
    while tape.latest().is_some() {}
    tape.trim();
}
