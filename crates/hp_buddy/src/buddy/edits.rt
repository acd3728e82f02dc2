//! The small changes that make up each call, each with its delta.
ghost use Rattle.std.specs.Prelude.{◌≡◌, ℕ, true, ◌≤◌, ◌<◌, None};
ghost use Rattle.hp_units.specs.Arithmetic.{frame_count, pageblock_count};
ghost use Rattle.hp_units.specs.FreeAreas.{is_on, with_back, with_front, without_free};
ghost use Rattle.hp_units.specs.Memory.{free_list, with_kind};
ghost use Rattle.hp_units.specs.Placement.{free_places};
ghost use Rattle.hp_tape.specs.Tapes.{HasRoom, NotesAreas};
ghost use Rattle.hp_tape.specs.declared.deltas.Delta.TheVariants.{Link, Unlink, Kind as KindDelta};
ghost use Rattle.hp_tape.specs.declared.deltas.ListId.TheVariants.{Area};

use super::Buddy;
use crate::classes::area_list;
use hp_tape::{Delta, ListId, Tape};
use hp_units::{Class, Frame, Kind, Order, Pageblock};

impl Buddy {
    /// Takes a free block off its list.
    pub(super) fn unlink_free(&mut self, class: Class, order: Order, frame: Frame, tape: &mut Tape)
        requires order { order ≤ self.old.layout.order }
        requires frame { frame < frame_count self.old.layout }
        requires free { is_on frame (free_list self.old.areas class order) ≡ true }
        requires room { HasRoom tape.old 1 }
        ensures areas { self.new.areas ≡ without_free self.old.areas class order frame }
        ensures layout { self.new.layout ≡ self.old.layout }
        ensures notes { NotesAreas self.old.layout 1 tape.old tape.new self.new.areas self.old.areas }
    {
        let after = self.links.unlink(frame);
        tape.note(unlink_delta(class, order, frame, after));
    }

    /// Puts a block at the front of a list.
    pub(super) fn push_front(&mut self, class: Class, order: Order, frame: Frame, tape: &mut Tape)
        requires order { order ≤ self.old.layout.order }
        requires frame { frame < frame_count self.old.layout }
        requires unfree { free_places self.old.areas frame ≡ 0 }
        requires room { HasRoom tape.old 1 }
        ensures areas { self.new.areas ≡ with_front self.old.areas class order frame }
        ensures layout { self.new.layout ≡ self.old.layout }
        ensures notes { NotesAreas self.old.layout 1 tape.old tape.new self.new.areas self.old.areas }
    {
        self.links.push_front(area_list(class, order), frame);
        tape.note(link_delta(class, order, frame, None));
    }

    /// Puts a block at the back of a list.
    pub(super) fn push_back(&mut self, class: Class, order: Order, frame: Frame, tape: &mut Tape)
        requires order { order ≤ self.old.layout.order }
        requires frame { frame < frame_count self.old.layout }
        requires once { (other : ℕ) → free_places self.old.areas other ≤ 1 }
        requires unfree { free_places self.old.areas frame ≡ 0 }
        requires room { HasRoom tape.old 1 }
        ensures areas { self.new.areas ≡ with_back self.old.areas class order frame }
        ensures layout { self.new.layout ≡ self.old.layout }
        ensures notes { NotesAreas self.old.layout 1 tape.old tape.new self.new.areas self.old.areas }
    {
        let after = self.links.last(area_list(class, order));
        self.links.push_back(area_list(class, order), frame);
        tape.note(link_delta(class, order, frame, after));
    }

    /// Sets the kind of a pageblock.
    pub(super) fn set_kind(&mut self, pageblock: Pageblock, kind: Kind, tape: &mut Tape)
        requires pageblock { pageblock < pageblock_count self.old.layout }
        requires room { HasRoom tape.old 1 }
        ensures areas { self.new.areas ≡ with_kind self.old.areas pageblock kind }
        ensures layout { self.new.layout ≡ self.old.layout }
        ensures notes { NotesAreas self.old.layout 1 tape.old tape.new self.new.areas self.old.areas }
    {
        let was = self.kind(pageblock);
        self.kinds[pageblock.0 as usize] = kind;
        tape.note(kind_delta(pageblock, was, kind));
    }
}

/// Returns the delta of a free block that was put after another, or at the front.
fn link_delta(class: Class, order: Order, frame: Frame, after: Option<Frame>) -> Delta
    requires { order < 256 }
    ensures { result ≡ Link (Area class order) frame after }
{
    Delta::Link {
        list: ListId::of_area(class, order),
        frame,
        after,
    }
}

/// Returns the delta of a free block that left its list, on which it came after another or was at
/// the front.
fn unlink_delta(class: Class, order: Order, frame: Frame, after: Option<Frame>) -> Delta
    requires { order < 256 }
    ensures { result ≡ Unlink (Area class order) frame after }
{
    Delta::Unlink {
        list: ListId::of_area(class, order),
        frame,
        after,
    }
}

/// Returns the delta of a pageblock's kind.
fn kind_delta(pageblock: Pageblock, was: Kind, now: Kind) -> Delta
    ensures { result ≡ KindDelta pageblock was now }
{
    Delta::Kind {
        pageblock,
        was,
        now,
    }
}
