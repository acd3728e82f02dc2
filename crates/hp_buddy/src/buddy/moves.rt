//! Moves a pageblock's free blocks to another class.
ghost use Rattle.std.specs.Prelude.{◌≡◌, true, ◌+◌, ◌-◌, ◌*◌, ◌^◌, ◌<◌, ◌≤◌};
ghost use Rattle.hp_units.specs.Arithmetic.{frame_count, pageblock_count, pageblock_size};
ghost use Rattle.hp_units.specs.Isolation.{move_free, move_free_below};
ghost use Rattle.hp_units.specs.FreeAreas.{is_on};
ghost use Rattle.hp_units.specs.LayoutParts.{IsLayout};
ghost use Rattle.hp_units.specs.Memory.{free_list};
ghost use Rattle.hp_tape.specs.Tapes.{HasRoom, NotesAreas};
ghost use Rattle.hp_buddy.specs.Buddy.{AreApart};
ghost use Rattle.hp_buddy.specs.Moves.{free_count, free_one, move_one};

use super::Buddy;
use crate::classes::nth_block;
use hp_tape::Tape;
use hp_units::{Class, Frame, Order, Pageblock};

impl Buddy {
    /// Moves the free blocks of a pageblock from one class to another.
    pub(super) fn move_all(&mut self, from: Class, to: Class, pageblock: Pageblock, tape: &mut Tape)
        requires pageblock { pageblock < pageblock_count self.old.layout }
        requires apart { AreApart self.old.layout self.old.areas }
        requires room { HasRoom tape.old (2 * pageblock_size self.old.layout) }
        ensures areas { self.new.areas
            ≡ move_free_below self.old.layout self.old.areas from to pageblock (self.old.layout.order + 1) }
        ensures layout { self.new.layout ≡ self.old.layout }
        ensures notes { NotesAreas self.old.layout (2 * pageblock_size self.old.layout) tape.old tape.new
            self.new.areas self.old.areas }
    {
        if self.is_one_block(from, pageblock) {
            self.move_whole(from, to, pageblock, tape);
        } else {
            self.move_orders(from, to, pageblock, tape);
        }
    }

    /// Returns whether the pageblock is one free block of the class.
    fn is_one_block(&self, class: Class, pageblock: Pageblock) -> bool
        requires { pageblock < pageblock_count self.now.layout }
        ensures { result ≡ is_on (pageblock * pageblock_size self.now.layout)
            (free_list self.now.areas class self.now.layout.order) }
    {
        let order = Order(self.layout.order());
        self.is_free(class, order, self.first_frame(pageblock))
    }

    /// Moves a pageblock that is one free block. No other free block starts at one of its frames.
    fn move_whole(&mut self, from: Class, to: Class, pageblock: Pageblock, tape: &mut Tape)
        requires pageblock { pageblock < pageblock_count self.old.layout }
        requires whole { is_on (pageblock * pageblock_size self.old.layout)
            (free_list self.old.areas from self.old.layout.order) ≡ true }
        requires apart { AreApart self.old.layout self.old.areas }
        requires room { HasRoom tape.old (2 * pageblock_size self.old.layout) }
        ensures areas { self.new.areas
            ≡ move_free_below self.old.layout self.old.areas from to pageblock (self.old.layout.order + 1) }
        ensures layout { self.new.layout ≡ self.old.layout }
        ensures notes { NotesAreas self.old.layout (2 * pageblock_size self.old.layout) tape.old tape.new
            self.new.areas self.old.areas }
    {
        let order = Order(self.layout.order());
        let first = self.first_frame(pageblock);
        self.move_block(from, to, order, first, tape);
    }

    /// Moves the free blocks of a pageblock, order by order.
    fn move_orders(&mut self, from: Class, to: Class, pageblock: Pageblock, tape: &mut Tape)
        requires pageblock { pageblock < pageblock_count self.old.layout }
        requires apart { AreApart self.old.layout self.old.areas }
        requires room { HasRoom tape.old (2 * pageblock_size self.old.layout) }
        ensures areas { self.new.areas
            ≡ move_free_below self.old.layout self.old.areas from to pageblock (self.old.layout.order + 1) }
        ensures layout { self.new.layout ≡ self.old.layout }
        ensures notes { NotesAreas self.old.layout (2 * pageblock_size self.old.layout) tape.old tape.new
            self.new.areas self.old.areas }
    {
        for order in 0..self.layout.order() + 1 {
            self.move_order(from, to, pageblock, Order(order), tape);
        }
    }

    /// Returns the number of blocks of an order per pageblock.
    fn blocks_of_order(&self, order: Order) -> u32
        requires { order ≤ self.now.layout.order }
        ensures is { result ≡ 2 ^ (self.now.layout.order - order) }
        ensures layout { IsLayout self.now.layout }
    {
        1 << (self.layout.order() - order.0)
    }

    /// Moves a pageblock's free blocks of one order, lowest frame first. Each starts at a multiple
    /// of its size.
    fn move_order(
        &mut self,
        from: Class,
        to: Class,
        pageblock: Pageblock,
        order: Order,
        tape: &mut Tape,
    )
        requires pageblock { pageblock < pageblock_count self.old.layout }
        requires order { order ≤ self.old.layout.order }
        requires apart { AreApart self.old.layout self.old.areas }
        requires room { HasRoom tape.old (2 * free_count self.old.areas from order
            (pageblock * pageblock_size self.old.layout) (pageblock_size self.old.layout)) }
        ensures areas { self.new.areas ≡ move_free self.old.layout self.old.areas from to pageblock order }
        ensures layout { self.new.layout ≡ self.old.layout }
        ensures notes { NotesAreas self.old.layout (2 * free_count self.old.areas from order
            (pageblock * pageblock_size self.old.layout)
            (pageblock_size self.old.layout)) tape.old tape.new self.new.areas self.old.areas }
    {
        let first = self.first_frame(pageblock);
        let count = self.blocks_of_order(order);
        for at in 0..count {
            let frame = nth_block(first, order, at);
            self.move_block(from, to, order, frame, tape);
        }
    }

    /// Moves the free block of this class and order that starts at the frame, if there is one.
    fn move_block(&mut self, from: Class, to: Class, order: Order, frame: Frame, tape: &mut Tape)
        requires order { order ≤ self.old.layout.order }
        requires frame { frame < frame_count self.old.layout }
        requires apart { AreApart self.old.layout self.old.areas }
        requires room { HasRoom tape.old (2 * free_one self.old.areas from order frame) }
        ensures areas { self.new.areas ≡ move_one self.old.areas from to order frame }
        ensures layout { self.new.layout ≡ self.old.layout }
        ensures notes { NotesAreas self.old.layout (2 * free_one self.old.areas from order frame) tape.old
            tape.new self.new.areas self.old.areas }
    {
        if self.is_free(from, order, frame) {
            self.unlink_free(from, order, frame, tape);
            self.push_back(to, order, frame, tape);
        }
    }
}
