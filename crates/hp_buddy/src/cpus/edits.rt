//! The small changes of the lists that make up each call, each with its delta.
ghost use Rattle.std.specs.Prelude.{◌≡◌, ℕ, true, ◌+◌, ◌<◌, ◌≤◌, ◌∷◌, ◌++◌, [], None, Some, MatchOption};
ghost use Rattle.hp_units.specs.Arithmetic.{frame_count};
ghost use Rattle.hp_units.specs.FreeAreas.{is_on, without};
ghost use Rattle.hp_units.specs.Memory.{FreeAreas};
ghost use Rattle.hp_tape.specs.Tapes.{HasRoom, NotesFree};
ghost use Rattle.hp_tape.specs.declared.deltas.Delta.TheVariants.{Link, Unlink};
ghost use Rattle.hp_tape.specs.declared.deltas.ListId.TheVariants.{Cpu as CpuList};
ghost use Rattle.hp_buddy.specs.Cpus.{frames_of, list_of, places_in, with_list_of};

use super::Cpus;
use crate::pools::cpu_list;
use hp_tape::{Delta, ListId, Tape};
use hp_units::{Cpu, Frame, Pool};

impl Cpus {
    /// Takes a frame off its list.
    pub(super) fn unlink(&mut self, cpu: Cpu, pool: Pool, frame: Frame, tape: &mut Tape)
        requires cpu { cpu < self.old.layout.cpus }
        requires frame { frame < frame_count self.old.layout }
        requires on { is_on frame (list_of self.old cpu pool) ≡ true }
        requires room { HasRoom tape.old 1 }
        ensures cached { self.new
            ≡ with_list_of self.old cpu pool (without frame (list_of self.old cpu pool)) }
        ensures notes { (areas : FreeAreas)
            → NotesFree self.old.layout 1 tape.old tape.new (frames_of areas self.new)
            (frames_of areas self.old) }
    {
        let after = self.links.unlink(frame);
        tape.note(unlink_delta(cpu, pool, frame, after));
    }

    /// Puts a frame at the front of a list.
    pub(super) fn push_front(&mut self, cpu: Cpu, pool: Pool, frame: Frame, tape: &mut Tape)
        requires cpu { cpu < self.old.layout.cpus }
        requires frame { frame < frame_count self.old.layout }
        requires nowhere { places_in self.old frame ≡ 0 }
        requires room { HasRoom tape.old 1 }
        ensures cached { self.new ≡ with_list_of self.old cpu pool (frame ∷ list_of self.old cpu pool) }
        ensures notes { (areas : FreeAreas)
            → NotesFree self.old.layout 1 tape.old tape.new (frames_of areas self.new)
            (frames_of areas self.old) }
    {
        self.links.push_front(cpu_list(cpu, pool), frame);
        tape.note(link_delta(cpu, pool, frame, None));
    }

    /// Puts a frame at the back of a list.
    pub(super) fn push_back(&mut self, cpu: Cpu, pool: Pool, frame: Frame, tape: &mut Tape)
        requires cpu { cpu < self.old.layout.cpus }
        requires frame { frame < frame_count self.old.layout }
        requires once { (other : ℕ) → places_in self.old other ≤ 1 }
        requires nowhere { places_in self.old frame ≡ 0 }
        requires room { HasRoom tape.old 1 }
        ensures cached { self.new ≡ with_list_of self.old cpu pool (list_of self.old cpu pool ++ frame ∷ []) }
        ensures notes { (areas : FreeAreas)
            → NotesFree self.old.layout 1 tape.old tape.new (frames_of areas self.new)
            (frames_of areas self.old) }
    {
        let after = self.links.last(cpu_list(cpu, pool));
        self.links.push_back(cpu_list(cpu, pool), frame);
        tape.note(link_delta(cpu, pool, frame, after));
    }

    /// Takes the front frame off a list, if there is one.
    pub(super) fn pop(&mut self, cpu: Cpu, pool: Pool, tape: &mut Tape) -> Option<Frame>
        requires cpu { cpu < self.old.layout.cpus }
        requires within { (frame : ℕ) → frame_count self.old.layout ≤ frame → places_in self.old frame ≡ 0 }
        requires once { (frame : ℕ) → places_in self.old frame ≤ 1 }
        requires room { HasRoom tape.old 1 }
        ensures popped { MatchOption result (list_of self.old cpu pool ≡ [])
            (λ frame. list_of self.old cpu pool ≡ frame ∷ list_of self.new cpu pool) }
        ensures none { MatchOption result ((self.new ≡ self.old) × (tape.new ≡ tape.old)) (λ _. Unit {0}) }
        ensures cached { self.new ≡ with_list_of self.old cpu pool (list_of self.new cpu pool) }
        ensures notes { (areas : FreeAreas)
            → NotesFree self.old.layout 1 tape.old tape.new (frames_of areas self.new)
            (frames_of areas self.old) }
    {
        match self.links.front(cpu_list(cpu, pool)) {
            Some(frame) => {
                self.unlink(cpu, pool, frame, tape);
                Some(frame)
            }
            None => None,
        }
    }

    /// Takes the last frame off a list, if there is one.
    pub(super) fn pop_last(&mut self, cpu: Cpu, pool: Pool, tape: &mut Tape) -> Option<Frame>
        requires cpu { cpu < self.old.layout.cpus }
        requires within { (frame : ℕ) → frame_count self.old.layout ≤ frame → places_in self.old frame ≡ 0 }
        requires once { (frame : ℕ) → places_in self.old frame ≤ 1 }
        requires room { HasRoom tape.old 1 }
        ensures popped { MatchOption result (list_of self.old cpu pool ≡ [])
            (λ frame. list_of self.old cpu pool ≡ list_of self.new cpu pool ++ frame ∷ []) }
        ensures none { MatchOption result ((self.new ≡ self.old) × (tape.new ≡ tape.old)) (λ _. Unit {0}) }
        ensures cached { self.new ≡ with_list_of self.old cpu pool (list_of self.new cpu pool) }
        ensures notes { (areas : FreeAreas)
            → NotesFree self.old.layout 1 tape.old tape.new (frames_of areas self.new)
            (frames_of areas self.old) }
    {
        match self.links.last(cpu_list(cpu, pool)) {
            Some(frame) => {
                self.unlink(cpu, pool, frame, tape);
                Some(frame)
            }
            None => None,
        }
    }
}

/// Returns the delta of a frame that was put on a processor's list, after another or at the front.
fn link_delta(cpu: Cpu, pool: Pool, frame: Frame, after: Option<Frame>) -> Delta
    requires { cpu < 256 }
    ensures { result ≡ Link (CpuList pool cpu) frame after }
{
    Delta::Link {
        list: ListId::of_cpu(pool, cpu),
        frame,
        after,
    }
}

/// Returns the delta of a frame that left a processor's list, on which it came after another or was
/// at the front.
fn unlink_delta(cpu: Cpu, pool: Pool, frame: Frame, after: Option<Frame>) -> Delta
    requires { cpu < 256 }
    ensures { result ≡ Unlink (CpuList pool cpu) frame after }
{
    Delta::Unlink {
        list: ListId::of_cpu(pool, cpu),
        frame,
        after,
    }
}
