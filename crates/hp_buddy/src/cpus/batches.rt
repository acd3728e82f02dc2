//! Moves frames between a processor's list and the free areas: refill, spill and drain.
ghost use Rattle.std.specs.Prelude.{◌≡◌, ℕ, ◌+◌, ◌*◌, ◌<◌, ◌≤◌, ◌∷◌, [], length, nat_le, if◌then◌else◌};
ghost use Rattle.hp_units.specs.FreeAreas.{give_block};
ghost use Rattle.hp_units.specs.Memory.{with_cached_list};
ghost use Rattle.hp_units.specs.ProcessorLists.{drain_pool, spilled};
ghost use Rattle.hp_tape.specs.Bounds.{batch_bound, give_bound};
ghost use Rattle.hp_tape.specs.Tapes.{HasRoom, NotesFree};
ghost use Rattle.hp_buddy.specs.Batches.{filled, given_last};
ghost use Rattle.hp_buddy.specs.Cpus.{AreTogether, MayBePut, frames_of, list_of, one_at, places_among};

use super::Cpus;
use crate::Buddy;
use hp_tape::Tape;
use hp_units::{Cpu, Frame, Order, Pool, Zone};

impl Cpus {
    /// Gives a frame that is on no list back to the free areas.
    pub(super) fn give(&self, zone: Zone, frame: Frame, buddy: &mut Buddy, tape: &mut Tape)
        requires together { AreTogether self.now buddy.old }
        requires frame { MayBePut self.now buddy.old frame }
        requires room { HasRoom tape.old (give_bound self.now.layout) }
        ensures given { buddy.new.areas ≡ give_block self.now.layout buddy.old.areas zone frame 0 }
        ensures notes { NotesFree self.now.layout (give_bound self.now.layout) tape.old tape.new
            (frames_of buddy.new.areas self.now) (frames_of buddy.old.areas self.now) }
        ensures together { AreTogether self.now buddy.new }
        ensures places { (other : ℕ)
            → places_among buddy.new.areas self.now other
            ≡ places_among buddy.old.areas self.now other + one_at frame other }
    {
        buddy.give(zone, frame, Order(0), tape);
    }

    /// Moves up to a batch of frames of a pool's class from the free areas to the back of a list.
    pub(super) fn refill(&mut self, cpu: Cpu, pool: Pool, buddy: &mut Buddy, tape: &mut Tape)
        requires cpu { cpu < self.old.layout.cpus }
        requires together { AreTogether self.old buddy.old }
        requires room { HasRoom tape.old (self.old.layout.batch * (self.old.layout.order + 2)) }
        ensures filled { frames_of buddy.new.areas self.new
            ≡ filled self.old.layout (frames_of buddy.old.areas self.old) cpu pool self.old.layout.batch }
        ensures layout { self.new.layout ≡ self.old.layout }
        ensures notes { NotesFree self.old.layout (self.old.layout.batch * (self.old.layout.order + 2))
            tape.old tape.new (frames_of buddy.new.areas self.new) (frames_of buddy.old.areas self.old) }
        ensures together { AreTogether self.new buddy.new }
        ensures places { (other : ℕ)
            → places_among buddy.new.areas self.new other ≡ places_among buddy.old.areas self.old other }
        ensures none { list_of self.new cpu pool ≡ []
            → (self.new ≡ self.old) × (buddy.new ≡ buddy.old) × (tape.new ≡ tape.old) }
    {
        for _taken in 0..self.layout.batch() {
            match buddy.take(pool.class(), Order(0), tape) {
                Some(frame) => self.push_back(cpu, pool, frame, tape),
                None => return,
            }
        }
    }

    /// Puts a frame at the front of a list. If the list is then longer than `high`, gives a batch
    /// back.
    pub(super) fn put_cached(
        &mut self,
        cpu: Cpu,
        pool: Pool,
        frame: Frame,
        buddy: &mut Buddy,
        tape: &mut Tape,
    )
        requires cpu { cpu < self.old.layout.cpus }
        requires together { AreTogether self.old buddy.old }
        requires frame { MayBePut self.old buddy.old frame }
        requires room { HasRoom tape.old (if nat_le (length (list_of self.old cpu pool) + 1)
            self.old.layout.high then 1 else batch_bound self.old.layout) }
        ensures put { frames_of buddy.new.areas self.new ≡ spilled self.old.layout (with_cached_list
            (frames_of buddy.old.areas self.old) cpu pool (frame ∷ list_of self.old cpu pool)) cpu pool }
        ensures layout { self.new.layout ≡ self.old.layout }
        ensures notes { NotesFree self.old.layout (if nat_le (length (list_of self.old cpu pool) + 1)
            self.old.layout.high then 1 else batch_bound self.old.layout) tape.old tape.new (frames_of
            buddy.new.areas self.new) (frames_of buddy.old.areas self.old) }
        ensures together { AreTogether self.new buddy.new }
        ensures places { (other : ℕ)
            → places_among buddy.new.areas self.new other
            ≡ places_among buddy.old.areas self.old other + one_at frame other }
    {
        self.push_front(cpu, pool, frame, tape);
        if self.len(cpu, pool) > self.layout.high() {
            self.spill(cpu, pool, buddy, tape);
        }
    }

    /// Gives the last batch of a list back, last frame first.
    fn spill(&mut self, cpu: Cpu, pool: Pool, buddy: &mut Buddy, tape: &mut Tape)
        requires cpu { cpu < self.old.layout.cpus }
        requires together { AreTogether self.old buddy.old }
        requires long { self.old.layout.batch ≤ length (list_of self.old cpu pool) }
        requires room { HasRoom tape.old (self.old.layout.batch * (self.old.layout.order + 2)) }
        ensures spilled { frames_of buddy.new.areas self.new
            ≡ given_last self.old.layout (frames_of buddy.old.areas self.old) cpu pool self.old.layout.batch }
        ensures layout { self.new.layout ≡ self.old.layout }
        ensures notes { NotesFree self.old.layout (self.old.layout.batch * (self.old.layout.order + 2))
            tape.old tape.new (frames_of buddy.new.areas self.new) (frames_of buddy.old.areas self.old) }
        ensures together { AreTogether self.new buddy.new }
        ensures places { (other : ℕ)
            → places_among buddy.new.areas self.new other ≡ places_among buddy.old.areas self.old other }
    {
        for _given in 0..self.layout.batch() {
            match self.pop_last(cpu, pool, tape) {
                Some(frame) => self.give(pool.zone(), frame, buddy, tape),
                None => return,
            }
        }
    }

    /// Gives all frames of a list back, front first.
    pub(super) fn drain_pool(&mut self, cpu: Cpu, pool: Pool, buddy: &mut Buddy, tape: &mut Tape)
        requires cpu { cpu < self.old.layout.cpus }
        requires together { AreTogether self.old buddy.old }
        requires room { HasRoom tape.old (length (list_of self.old cpu pool) * (self.old.layout.order + 2)) }
        ensures drained { frames_of buddy.new.areas self.new
            ≡ drain_pool self.old.layout cpu (frames_of buddy.old.areas self.old) pool }
        ensures layout { self.new.layout ≡ self.old.layout }
        ensures notes { NotesFree self.old.layout
            (length (list_of self.old cpu pool) * (self.old.layout.order + 2)) tape.old tape.new
            (frames_of buddy.new.areas self.new) (frames_of buddy.old.areas self.old) }
        ensures together { AreTogether self.new buddy.new }
        ensures places { (other : ℕ)
            → places_among buddy.new.areas self.new other ≡ places_among buddy.old.areas self.old other }
    {
        for _given in 0..self.len(cpu, pool) {
            match self.pop(cpu, pool, tape) {
                Some(frame) => self.give(pool.zone(), frame, buddy, tape),
                None => return,
            }
        }
    }
}
