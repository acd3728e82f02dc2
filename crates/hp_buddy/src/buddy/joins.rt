//! Joins a block that comes back with its buddies.
ghost use Rattle.std.specs.Prelude.{◌≡◌, ℕ, true, ◌-◌, ◌<◌, ◌≤◌};
ghost use Rattle.hp_units.specs.Numbers.{ancestor};
ghost use Rattle.hp_units.specs.Arithmetic.{buddy, frame_count};
ghost use Rattle.hp_units.specs.FreeAreas.{class_of, is_on, without_buddies};
ghost use Rattle.hp_units.specs.LayoutParts.{IsLayout};
ghost use Rattle.hp_units.specs.Memory.{free_list};
ghost use Rattle.hp_tape.specs.Tapes.{HasRoom, NotesAreas};

use super::Buddy;
use hp_tape::Tape;
use hp_units::{Class, Frame, Order, Zone, buddy, pageblock_of};

impl Buddy {
    /// Returns the class of the free blocks in the frame's pageblock. `zone` is the pageblock's
    /// zone.
    pub(super) fn class_of(&self, zone: Zone, frame: Frame) -> Class
        requires { frame < frame_count self.now.layout }
        ensures { result ≡ class_of self.now.layout self.now.areas zone frame }
    {
        Class::of_kind(zone, self.kind(pageblock_of(&self.layout, frame)))
    }

    /// Takes the buddies of a block off their lists. They must be free at each order from `first`
    /// up to, but not including, `last`.
    pub(super) fn unlink_buddies(
        &mut self,
        class: Class,
        frame: Frame,
        first: Order,
        last: Order,
        tape: &mut Tape,
    )
        requires layout { IsLayout self.old.layout }
        requires first { first ≤ last }
        requires last { last ≤ self.old.layout.order }
        requires frame { frame < frame_count self.old.layout }
        requires free { (order : ℕ) → first ≤ order → order < last
            → is_on (buddy (ancestor frame order) order) (free_list self.old.areas class order) ≡ true }
        requires room { HasRoom tape.old (last - first) }
        ensures areas { self.new.areas ≡ without_buddies self.old.areas class frame first (last - first) }
        ensures layout { self.new.layout ≡ self.old.layout }
        ensures notes { NotesAreas self.old.layout (last - first) tape.old tape.new self.new.areas
            self.old.areas }
    {
        for order in first.0..last.0 {
            let half = frame.ancestor(Order(order));
            self.unlink_free(class, Order(order), buddy(half, Order(order)), tape);
        }
    }
}
