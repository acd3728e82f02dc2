//! Takes a block off the front of a list, and splits it down.
ghost use Rattle.std.specs.Prelude.{◌≡◌, ◌+◌, ◌-◌, ◌<◌, ◌≤◌, None, Some, MatchOption};
ghost use Rattle.hp_units.specs.FreeAreas.{steal_front, take_front, with_halves};
ghost use Rattle.hp_tape.specs.Tapes.{HasRoom, NotesAreas};
ghost use Rattle.hp_buddy.specs.Buddy.{AreApart, MayBeGiven};
ghost use Rattle.hp_units.specs.Arithmetic.{frame_count, pageblock_of};
ghost use Rattle.hp_units.specs.LayoutParts.{IsLayout};
ghost use Rattle.hp_units.specs.Memory.{kind_of, with_kind};

use super::Buddy;
use crate::classes::{area_list, upper_half};
use hp_tape::Tape;
use hp_units::{Class, Frame, Kind, Mobility, Order, Zone, pageblock_of};

impl Buddy {
    /// Takes the front block of an order, split down to the wanted order. Puts the other halves on
    /// the lists of the class `rest`.
    pub(super) fn take_front(
        &mut self,
        class: Class,
        rest: Class,
        order: Order,
        wanted: Order,
        tape: &mut Tape,
    ) -> Option<Frame>
        requires order { order ≤ self.old.layout.order }
        requires wanted { wanted ≤ order }
        requires apart { AreApart self.old.layout self.old.areas }
        requires room { HasRoom tape.old (order - wanted + 1) }
        ensures taken { MatchOption result (take_front self.old.areas class rest order wanted
            ≡ None) (λ frame. take_front self.old.areas class rest order wanted
            ≡ Some (record { areas = self.new.areas; frame = frame })) }
        ensures none { MatchOption result ((self.new ≡ self.old) × (tape.new ≡ tape.old)) (λ _. Unit {0}) }
        ensures layout { self.new.layout ≡ self.old.layout }
        ensures notes { NotesAreas self.old.layout (order - wanted + 1) tape.old tape.new self.new.areas
            self.old.areas }
    {
        match self.links.front(area_list(class, order)) {
            Some(frame) => {
                self.unlink_free(class, order, frame, tape);
                self.put_halves(rest, frame, wanted, order, tape);
                Some(frame)
            }
            None => None,
        }
    }

    /// Splits a block down from `order` to `last`, and puts the upper halves on the lists of a
    /// class.
    fn put_halves(&mut self, class: Class, frame: Frame, last: Order, order: Order, tape: &mut Tape)
        requires last { last ≤ order }
        requires layout { IsLayout self.old.layout }
        requires apart { AreApart self.old.layout self.old.areas }
        requires block { MayBeGiven self.old.layout self.old.areas order frame }
        requires room { HasRoom tape.old (order - last) }
        ensures areas { self.new.areas ≡ with_halves self.old.areas class frame last (order - last) }
        ensures layout { self.new.layout ≡ self.old.layout }
        ensures notes { NotesAreas self.old.layout (order - last) tape.old tape.new self.new.areas
            self.old.areas }
    {
        for half in (last.0..order.0).rev() {
            let upper = upper_half(frame, Order(half));
            self.push_front(class, Order(half), upper, tape);
        }
    }

    /// Takes the front block of an order from the mobility that is not `mobility`, split down to
    /// the order `wanted`. A whole pageblock changes to `mobility`.
    pub(super) fn steal_front(
        &mut self,
        mobility: Mobility,
        order: Order,
        wanted: Order,
        tape: &mut Tape,
    ) -> Option<Frame>
        requires order { order ≤ self.old.layout.order }
        requires wanted { wanted ≤ order }
        requires apart { AreApart self.old.layout self.old.areas }
        requires room { HasRoom tape.old (order - wanted + 2) }
        ensures taken { MatchOption result (steal_front self.old.layout self.old.areas mobility order wanted
            ≡ None) (λ frame. steal_front self.old.layout self.old.areas mobility order wanted
            ≡ Some (record { areas = self.new.areas; frame = frame })) }
        ensures none { MatchOption result ((self.new ≡ self.old) × (tape.new ≡ tape.old)) (λ _. Unit {0}) }
        ensures layout { self.new.layout ≡ self.old.layout }
        ensures notes { NotesAreas self.old.layout (order - wanted + 2) tape.old tape.new self.new.areas
            self.old.areas }
    {
        let from = Class::usable(Zone::Normal, mobility.other());
        if order.0 != self.layout.order() {
            return self.take_front(from, from, order, wanted, tape);
        }
        let rest = Class::usable(Zone::Normal, mobility);
        match self.take_front(from, rest, order, wanted, tape) {
            Some(frame) => {
                self.set_mobility(frame, mobility, tape);
                Some(frame)
            }
            None => None,
        }
    }

    /// Sets the mobility of the frame's pageblock.
    fn set_mobility(&mut self, frame: Frame, mobility: Mobility, tape: &mut Tape)
        requires frame { frame < frame_count self.old.layout }
        requires room { HasRoom tape.old 1 }
        ensures areas { self.new.areas ≡ with_kind self.old.areas (pageblock_of self.old.layout frame)
            (record (kind_of self.old.areas (pageblock_of self.old.layout frame)) { mobility = mobility }) }
        ensures layout { self.new.layout ≡ self.old.layout }
        ensures notes { NotesAreas self.old.layout 1 tape.old tape.new self.new.areas self.old.areas }
    {
        let pageblock = pageblock_of(&self.layout, frame);
        let isolated = self.kind(pageblock).isolated;
        self.set_kind(pageblock, Kind { mobility, isolated }, tape);
    }
}
