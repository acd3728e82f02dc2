//! The layer of the processors' lists.
ghost use Rattle.std.specs.Prelude.{◌≡◌, ℕ, ◌+◌, ◌<◌, None, Some, IfOk, IfSome, MatchOption, length, slice_get};
ghost use Rattle.hp_units.specs.Arithmetic.{frame_count};
ghost use Rattle.hp_units.specs.Boot.{empty_cached};
ghost use Rattle.hp_units.specs.Memory.{FreeAreas};
ghost use Rattle.hp_units.specs.ProcessorLists.{drain_lists, put_one, take_one};
ghost use Rattle.hp_tape.specs.Bounds.{drain_bound, put_one_bound, take_one_bound};
ghost use Rattle.hp_tape.specs.Deltas.{FitsCached, IsDeltaOf, cached_undo};
ghost use Rattle.hp_tape.specs.Tapes.{HasRoom, NotesFree};
ghost use Rattle.hp_buddy.specs.Buddy.{AreApart, BuddyValue, next_from};
ghost use Rattle.hp_buddy.specs.Cpus.{AreTogether, MayBePut, frames_of, list_of, one_at, places_among};

mod batches;
mod edits;

use crate::pools::cpu_list;
use crate::{Buddy, Links};
use hp_tape::{Delta, ListId, Tape};
use hp_units::{Cpu, Frame, Layout, Pool, Zone, pageblock_of};
use std::alloc::{AllocError, Global};
use std::marker::Model;

/// Each processor's lists of single frames, one per pool. Only `new`, `copy` and `list` allocate.
pub struct Cpus {
    layout: Layout,
    links: Links,
}

/// Keeps callers from proving again how each field is dropped.
impl Drop for Cpus {
    fn drop(self) {
        let Cpus {
            layout: _layout,
            links: _links,
        } = self;
    }
}

impl Model for Cpus {
    ghost use Rattle.hp_buddy.specs.Cpus.{CpusValue, IsCpusOf};

    ghost Value = { CpusValue };

    ghost view = { λ c. record { layout = c.layout; cached = c.links.lists } };

    ghost invariant = { λ c. IsCpusOf c.layout c.links };
}

impl Cpus {
    /// Creates the lists of a layout's processors, all empty. Allocates the same number of times
    /// for every layout.
    pub fn new(alloc: Global, layout: &Layout) -> Result<Cpus, AllocError>
        ensures value { IfOk result
            (λ c. c ≡ record { layout = layout.now; cached = empty_cached layout.now }) }
        ensures together { IfOk result
            (λ c. (b : BuddyValue) → b.layout ≡ c.layout → AreApart b.layout b.areas → AreTogether c b) }
    {
        let layout = layout.copy(alloc)?;
        let links = Links::new(alloc, layout.frames(), 3 * layout.cpus())?;
        Ok(Cpus { layout, links })
    }

    /// Returns a copy. Allocates the same number of times for every layout.
    pub fn copy(&self, alloc: Global) -> Result<Cpus, AllocError>
        ensures { IfOk result (λ cpus. cpus ≡ self.now) }
    {
        let layout = self.layout.copy(alloc)?;
        let links = self.links.copy(alloc)?;
        Ok(Cpus { layout, links })
    }

    /// Returns the lists of all processors, three for each, in the order of the pools.
    pub fn links(&self) -> &Links
        ensures { result.now.lists ≡ self.now.cached }
    {
        &self.links
    }

    /// Returns the number of frames on a processor's list of a pool. Takes constant time.
    pub fn len(&self, cpu: Cpu, pool: Pool) -> u32
        requires { cpu < self.now.layout.cpus }
        ensures { result ≡ length (list_of self.now cpu pool) }
    {
        self.links.len(cpu_list(cpu, pool))
    }

    /// Returns the frames on a processor's list of a pool, front first.
    pub fn list(&self, alloc: Global, cpu: Cpu, pool: Pool) -> Result<Vec<Frame>, AllocError>
        requires { cpu < self.now.layout.cpus }
        ensures { IfOk result (λ frames. frames.items ≡ list_of self.now cpu pool) }
    {
        self.links.list(alloc, cpu_list(cpu, pool))
    }

    /// Returns the first frame on a processor's list of a pool.
    pub fn front(&self, cpu: Cpu, pool: Pool) -> Option<Frame>
        requires { cpu < self.now.layout.cpus }
        ensures { result ≡ slice_get (list_of self.now cpu pool) 0 }
    {
        self.links.front(cpu_list(cpu, pool))
    }

    /// Returns the frame after this one, on the processor's list that it is on.
    pub fn next(&self, frame: Frame) -> Option<Frame>
        requires { frame < frame_count self.now.layout }
        ensures { result ≡ next_from frame self.now.cached }
    {
        self.links.next(frame)
    }

    /// Takes the front frame of a processor's list (Gorman, chapter 6: per-cpu lists; which end of
    /// the list is this model's choice). Refills an empty list first, with up to a batch of frames
    /// from the free areas.
    ///
    /// If the list is empty and the free areas have no frame for the pool, returns `None` and
    /// changes nothing.
    pub fn take_one(
        &mut self,
        cpu: Cpu,
        pool: Pool,
        buddy: &mut Buddy,
        tape: &mut Tape,
    ) -> Option<Frame>
        requires cpu { cpu < self.old.layout.cpus }
        requires together { AreTogether self.old buddy.old }
        requires room { HasRoom tape.old
            (take_one_bound self.old.layout (frames_of buddy.old.areas self.old) cpu pool) }
        ensures taken { MatchOption result (take_one self.old.layout (frames_of buddy.old.areas self.old) cpu
            pool ≡ None) (λ frame. take_one self.old.layout (frames_of buddy.old.areas self.old) cpu
            pool ≡ Some (record { free = frames_of buddy.new.areas self.new; frame = frame })) }
        ensures none { MatchOption result
            ((self.new ≡ self.old) × (buddy.new ≡ buddy.old) × (tape.new ≡ tape.old)) (λ _. Unit {0}) }
        ensures layout { self.new.layout ≡ self.old.layout }
        ensures notes { NotesFree self.old.layout
            (take_one_bound self.old.layout (frames_of buddy.old.areas self.old) cpu pool) tape.old tape.new
            (frames_of buddy.new.areas self.new) (frames_of buddy.old.areas self.old) }
        ensures together { AreTogether self.new buddy.new }
        ensures frame { IfSome result (MayBePut self.new buddy.new) }
        ensures places { IfSome result (λ frame. (other : ℕ) → places_among buddy.old.areas self.old other
            ≡ places_among buddy.new.areas self.new other + one_at frame other) }
    {
        if self.len(cpu, pool) > 0 {
            return self.pop(cpu, pool, tape);
        }
        self.refill(cpu, pool, buddy, tape);
        self.pop(cpu, pool, tape)
    }

    /// Puts a frame of zone `zone` at the front of the processor's list of the frame's pool. If the
    /// list is then longer than `high`, gives a batch back to the free areas, last frame first
    /// (Gorman, chapter 6: per-cpu lists). Which ends of the list are used is this model's choice.
    ///
    /// A frame of an isolated pageblock goes straight to the free areas instead.
    pub fn put_one(
        &mut self,
        cpu: Cpu,
        zone: Zone,
        frame: Frame,
        buddy: &mut Buddy,
        tape: &mut Tape,
    )
        requires cpu { cpu < self.old.layout.cpus }
        requires together { AreTogether self.old buddy.old }
        requires frame { MayBePut self.old buddy.old frame }
        requires room { HasRoom tape.old
            (put_one_bound self.old.layout (frames_of buddy.old.areas self.old) cpu zone frame) }
        ensures put { frames_of buddy.new.areas self.new
            ≡ put_one self.old.layout (frames_of buddy.old.areas self.old) cpu zone frame }
        ensures layout { self.new.layout ≡ self.old.layout }
        ensures notes { NotesFree self.old.layout
            (put_one_bound self.old.layout (frames_of buddy.old.areas self.old) cpu zone frame) tape.old
            tape.new (frames_of buddy.new.areas self.new) (frames_of buddy.old.areas self.old) }
        ensures together { AreTogether self.new buddy.new }
        ensures places { (other : ℕ)
            → places_among buddy.new.areas self.new other
            ≡ places_among buddy.old.areas self.old other + one_at frame other }
    {
        let kind = buddy.kind(pageblock_of(&self.layout, frame));
        if kind.isolated {
            self.give(zone, frame, buddy, tape);
        } else {
            self.put_cached(
                cpu,
                Pool::of_mobility(zone, kind.mobility),
                frame,
                buddy,
                tape,
            );
        }
    }

    /// Gives all frames on a processor's lists back to the free areas, pool by pool and front first
    /// (Gorman, chapter 6: drain_local_pages).
    pub fn drain(&mut self, cpu: Cpu, buddy: &mut Buddy, tape: &mut Tape)
        requires cpu { cpu < self.old.layout.cpus }
        requires together { AreTogether self.old buddy.old }
        requires room { HasRoom tape.old
            (drain_bound self.old.layout (frames_of buddy.old.areas self.old) cpu) }
        ensures drained { frames_of buddy.new.areas self.new
            ≡ drain_lists self.old.layout (frames_of buddy.old.areas self.old) cpu }
        ensures layout { self.new.layout ≡ self.old.layout }
        ensures notes { NotesFree self.old.layout
            (drain_bound self.old.layout (frames_of buddy.old.areas self.old) cpu) tape.old tape.new
            (frames_of buddy.new.areas self.new) (frames_of buddy.old.areas self.old) }
        ensures together { AreTogether self.new buddy.new }
        ensures places { (other : ℕ)
            → places_among buddy.new.areas self.new other ≡ places_among buddy.old.areas self.old other }
    {
        self.drain_pool(cpu, Pool::Nu, buddy, tape);
        self.drain_pool(cpu, Pool::Nm, buddy, tape);
        self.drain_pool(cpu, Pool::Mm, buddy, tape);
    }

    /// Undoes a delta, which must fit the lists and have numbers within the layout. A delta of
    /// another layer changes nothing.
    pub fn back(&mut self, delta: Delta)
        requires fits { (areas : FreeAreas) × FitsCached delta (frames_of areas self.old) }
        requires numbers { IsDeltaOf self.old.layout delta }
        ensures back { (areas : FreeAreas)
            → frames_of areas self.new ≡ cached_undo delta (frames_of areas self.old) }
        ensures layout { self.new.layout ≡ self.old.layout }
    {
        self.back_by(&delta);
    }

    /// Undoes a borrowed delta. The caller drops it, so that no exit here has to.
    #[inline(always)]
    fn back_by(&mut self, delta: &Delta)
        requires fits { (areas : FreeAreas) × FitsCached delta.now (frames_of areas self.old) }
        requires numbers { IsDeltaOf self.old.layout delta.now }
        ensures back { (areas : FreeAreas)
            → frames_of areas self.new ≡ cached_undo delta.now (frames_of areas self.old) }
        ensures layout { self.new.layout ≡ self.old.layout }
    {
        match *delta {
            Delta::Link { list, frame, .. } => {
                if let ListId::Cpu { .. } = list {
                    let _ = self.links.unlink(frame);
                }
            }
            Delta::Unlink { list, frame, after } => {
                if let ListId::Cpu { pool, cpu } = list {
                    let number = cpu_list(Cpu(u32::from(cpu)), pool);
                    self.links.relink_after(number, frame, after);
                }
            }
            _ => {}
        }
    }
}
