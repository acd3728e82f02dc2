//! The layer of the free areas: the buddy allocator's calls.
ghost use Rattle.std.specs.Prelude.{◌≡◌, ℕ, true, ◌+◌, ◌*◌, ◌/◌, ◌<◌, ◌≤◌, None, Some, IfOk, IfSome, MatchOption, length, slice_get};
ghost use Rattle.hp_units.specs.Arithmetic.{frame_count, pageblock_count, pageblock_size};
ghost use Rattle.hp_units.specs.Boot.{empty_areas};
ghost use Rattle.hp_units.specs.FreeAreas.{give_block, is_on, steal_block, take_block};
ghost use Rattle.hp_units.specs.Isolation.{add_pageblock, move_pageblock, remove_pageblock};
ghost use Rattle.hp_units.specs.LayoutParts.{IsLayout};
ghost use Rattle.hp_units.specs.Memory.{free_list, isolated_class, kind_of};
ghost use Rattle.hp_units.specs.declared.rows.Class.{Class};
ghost use Rattle.hp_units.specs.Placement.{free_places};
ghost use Rattle.hp_tape.specs.Bounds.{give_bound, move_bound, steal_bound, take_bound};
ghost use Rattle.hp_tape.specs.Deltas.{FitsAreas, IsDeltaOf, areas_undo};
ghost use Rattle.hp_tape.specs.Tapes.{HasRoom, NotesAreas};
ghost use Rattle.hp_buddy.specs.Buddy.{AreApart, HasBlockMore, MayBeGiven, next_of, place_of};

mod edits;
mod joins;
mod moves;
mod searches;
mod splits;

use crate::Links;
use crate::classes::area_list;
use hp_tape::{Delta, ListId, Tape};
use hp_units::{Class, Frame, Kind, Layout, Mobility, Order, Pageblock, Zone};
use std::alloc::{AllocError, Global};
use std::marker::Model;

/// The free areas of a layout. Only `new`, `copy` and `list` allocate.
pub struct Buddy {
    layout: Layout,
    links: Links,
    kinds: Vec<Kind>,
}

/// Keeps callers from proving again how each field is dropped.
impl Drop for Buddy {
    fn drop(self) {
        let Buddy {
            layout: _layout,
            links: _links,
            kinds: _kinds,
        } = self;
    }
}

impl Model for Buddy {
    ghost use Rattle.hp_buddy.specs.Buddy.{BuddyValue, IsBuddyOf};

    ghost Value = { BuddyValue };

    ghost view = { λ b.
        record { layout = b.layout; areas = record { lists = b.links.lists; kinds = b.kinds.items } } };

    ghost invariant = { λ b. IsBuddyOf b.layout b.links b.kinds.items };
}

impl Buddy {
    /// Returns the first frame of a pageblock.
    fn first_frame(&self, pageblock: Pageblock) -> Frame
        requires { pageblock < pageblock_count self.now.layout }
        ensures { result ≡ pageblock * pageblock_size self.now.layout }
    {
        self.layout.first_frame(pageblock)
    }

    /// Returns the number of frames per pageblock.
    fn pageblock_size(&self) -> u32
        ensures is { result ≡ pageblock_size self.now.layout }
        ensures layout { IsLayout self.now.layout }
    {
        self.layout.pageblock_size()
    }

    /// Creates areas without free blocks. Every pageblock is movable and not isolated. Allocates
    /// the same number of times for every layout.
    pub fn new(alloc: Global, layout: &Layout) -> Result<Buddy, AllocError>
        ensures value { IfOk result
            (λ b. b ≡ record { layout = layout.now; areas = empty_areas layout.now }) }
        ensures apart { IfOk result (λ b. AreApart b.layout b.areas) }
    {
        let layout = layout.copy(alloc)?;
        let links = Links::new(alloc, layout.frames(), 5 * (layout.order() + 1))?;
        let pageblocks = layout.blocks() as usize * layout.pageblocks() as usize;
        let kinds = vec![in alloc; Kind::plain(); pageblocks]?;
        Ok(Buddy {
            layout,
            links,
            kinds,
        })
    }

    /// Returns a copy. Allocates the same number of times for every layout.
    pub fn copy(&self, alloc: Global) -> Result<Buddy, AllocError>
        ensures { IfOk result (λ buddy. buddy ≡ self.now) }
    {
        let layout = self.layout.copy(alloc)?;
        let links = self.links.copy(alloc)?;
        let kinds = Vec::from_slice(alloc, self.kinds.as_slice())?;
        Ok(Buddy {
            layout,
            links,
            kinds,
        })
    }

    /// Returns the kind of a pageblock.
    pub fn kind(&self, pageblock: Pageblock) -> Kind
        requires { pageblock < pageblock_count self.now.layout }
        ensures { result ≡ kind_of self.now.areas pageblock }
    {
        self.kinds[pageblock.0 as usize]
    }

    /// Returns the lists of free blocks. That of a class and an order has the number of the class
    /// and five for each order.
    pub fn links(&self) -> &Links
        ensures { result.now.lists ≡ self.now.areas.lists }
    {
        &self.links
    }

    /// Returns the kinds of all pageblocks, from pageblock 0 on.
    pub fn kinds(&self) -> &[Kind]
        ensures { result.now ≡ self.now.areas.kinds }
    {
        self.kinds.as_slice()
    }

    /// Returns the number of free blocks of a class and an order. Takes constant time.
    pub fn len(&self, class: Class, order: Order) -> u32
        requires { order ≤ self.now.layout.order }
        ensures { result ≡ length (free_list self.now.areas class order) }
    {
        self.links.len(area_list(class, order))
    }

    /// Returns the free blocks of a class and an order, front first.
    pub fn list(&self, alloc: Global, class: Class, order: Order) -> Result<Vec<Frame>, AllocError>
        requires { order ≤ self.now.layout.order }
        ensures { IfOk result (λ frames. frames.items ≡ free_list self.now.areas class order) }
    {
        self.links.list(alloc, area_list(class, order))
    }

    /// Returns the first free block of a class and an order.
    pub fn front(&self, class: Class, order: Order) -> Option<Frame>
        requires { order ≤ self.now.layout.order }
        ensures { result ≡ slice_get (free_list self.now.areas class order) 0 }
    {
        self.links.front(area_list(class, order))
    }

    /// Returns the free block after the one that starts at this frame, on its list.
    pub fn next(&self, frame: Frame) -> Option<Frame>
        requires { frame < frame_count self.now.layout }
        ensures { result ≡ next_of self.now.areas frame }
    {
        self.links.next(frame)
    }

    /// Returns the class and the order of the free block that starts at this frame, if any.
    pub fn place(&self, frame: Frame) -> Option<(Class, Order)>
        requires { frame < frame_count self.now.layout }
        ensures place { result ≡ place_of self.now.areas frame }
        ensures on { (class : Class) (order : ℕ) → is_on frame (free_list self.now.areas class order) ≡ true
            → result ≡ Some (class, order) }
        ensures free { IfSome result
            (λ place. is_on frame (free_list self.now.areas place.0 place.1) ≡ true) }
        ensures in_order { IfSome result (λ place. place.1 ≤ self.now.layout.order) }
    {
        match self.links.list_of(frame) {
            Some(list) => Some((Class::numbered(list.0 % 5), Order(list.0 / 5))),
            None => None,
        }
    }

    /// Takes a block: the front block of the least order, from `order` up, at which the class has
    /// one. It is split down to `order` (Knuth, volume 1, section 2.5, reservation; which end of
    /// the list is this model's choice).
    ///
    /// Returns `None`, and changes nothing, if the class has no block of `order` or above.
    pub fn take(&mut self, class: Class, order: Order, tape: &mut Tape) -> Option<Frame>
        requires order { order ≤ self.old.layout.order }
        requires apart { AreApart self.old.layout self.old.areas }
        requires room { HasRoom tape.old (take_bound self.old.layout) }
        ensures taken { MatchOption result (take_block self.old.layout self.old.areas class order
            ≡ None) (λ frame. take_block self.old.layout self.old.areas class order
            ≡ Some (record { areas = self.new.areas; frame = frame })) }
        ensures none { MatchOption result ((self.new ≡ self.old) × (tape.new ≡ tape.old)) (λ _. Unit {0}) }
        ensures layout { self.new.layout ≡ self.old.layout }
        ensures notes { NotesAreas self.old.layout (take_bound self.old.layout) tape.old tape.new
            self.new.areas self.old.areas }
        ensures apart { AreApart self.new.layout self.new.areas }
        ensures block { IfSome result (MayBeGiven self.new.layout self.new.areas order) }
        ensures places { IfSome result (HasBlockMore self.old.areas self.new.areas order) }
    {
        match self.least_order(class, order) {
            Some(found) => self.take_front(class, class, found, order, tape),
            None => None,
        }
    }

    /// Steals a block for a mobility of zone Normal: the front block of the greatest order, down to
    /// `order`, at which the other mobility has one. It is split down to `order` (Gorman, chapter
    /// 6: fallback; the exact rule is this model's). A whole pageblock changes to the wanted
    /// mobility.
    ///
    /// Returns `None`, and changes nothing, if the other mobility has no block of `order` or above.
    pub fn steal(&mut self, wanted: Mobility, order: Order, tape: &mut Tape) -> Option<Frame>
        requires order { order ≤ self.old.layout.order }
        requires apart { AreApart self.old.layout self.old.areas }
        requires room { HasRoom tape.old (steal_bound self.old.layout) }
        ensures stolen { MatchOption result (steal_block self.old.layout self.old.areas wanted order
            ≡ None) (λ frame. steal_block self.old.layout self.old.areas wanted order
            ≡ Some (record { areas = self.new.areas; frame = frame })) }
        ensures none { MatchOption result ((self.new ≡ self.old) × (tape.new ≡ tape.old)) (λ _. Unit {0}) }
        ensures layout { self.new.layout ≡ self.old.layout }
        ensures notes { NotesAreas self.old.layout (steal_bound self.old.layout) tape.old tape.new
            self.new.areas self.old.areas }
        ensures apart { AreApart self.new.layout self.new.areas }
        ensures block { IfSome result (MayBeGiven self.new.layout self.new.areas order) }
        ensures places { IfSome result (HasBlockMore self.old.areas self.new.areas order) }
    {
        let from = Class::usable(Zone::Normal, wanted.other());
        match self.greatest_order(from, order) {
            Some(found) => self.steal_front(wanted, found, order, tape),
            None => None,
        }
    }

    /// Gives a block back. It joins with its buddies while they are free in its pageblock's class,
    /// and goes to the front of its list (Knuth, volume 1, section 2.5, liberation; that it never
    /// joins across pageblocks is this model's choice).
    pub fn give(&mut self, zone: Zone, frame: Frame, order: Order, tape: &mut Tape)
        requires block { MayBeGiven self.old.layout self.old.areas order frame }
        requires apart { AreApart self.old.layout self.old.areas }
        requires room { HasRoom tape.old (give_bound self.old.layout) }
        ensures given { self.new.areas ≡ give_block self.old.layout self.old.areas zone frame order }
        ensures layout { self.new.layout ≡ self.old.layout }
        ensures notes { NotesAreas self.old.layout (give_bound self.old.layout) tape.old tape.new
            self.new.areas self.old.areas }
        ensures apart { AreApart self.new.layout self.new.areas }
        ensures places { HasBlockMore self.new.areas self.old.areas order frame }
    {
        let class = self.class_of(zone, frame);
        let joined = self.join_order(class, frame, order);
        self.unlink_buddies(class, frame, order, joined, tape);
        self.push_front(class, joined, frame.ancestor(joined), tape);
    }

    /// Isolates a pageblock, or releases it. Its free blocks move, in rising order, to the backs of
    /// the lists of their new class (Linux guide, Memory Hot(Un)Plug: offlining; the order is this
    /// model's choice).
    pub fn move_pageblock(
        &mut self,
        zone: Zone,
        pageblock: Pageblock,
        isolated: bool,
        tape: &mut Tape,
    )
        requires pageblock { pageblock < pageblock_count self.old.layout }
        requires apart { AreApart self.old.layout self.old.areas }
        requires room { HasRoom tape.old (move_bound self.old.layout) }
        ensures moved { self.new.areas
            ≡ move_pageblock self.old.layout zone isolated self.old.areas pageblock }
        ensures layout { self.new.layout ≡ self.old.layout }
        ensures notes { NotesAreas self.old.layout (move_bound self.old.layout) tape.old tape.new
            self.new.areas self.old.areas }
        ensures apart { AreApart self.new.layout self.new.areas }
        ensures places { (frame : ℕ) → free_places self.new.areas frame ≡ free_places self.old.areas frame }
    {
        let kind = self.kind(pageblock);
        let moved = Kind {
            mobility: kind.mobility,
            isolated,
        };
        let from = Class::of_kind(zone, kind);
        let to = Class::of_kind(zone, moved);
        self.move_all(from, to, pageblock, tape);
        self.set_kind(pageblock, moved, tape);
    }

    /// Adds a whole pageblock at the back of its zone's movable list of the greatest order.
    pub fn add_pageblock(&mut self, zone: Zone, pageblock: Pageblock, tape: &mut Tape)
        requires pageblock { pageblock < pageblock_count self.old.layout }
        requires block { MayBeGiven self.old.layout self.old.areas self.old.layout.order
            (pageblock * pageblock_size self.old.layout) }
        requires apart { AreApart self.old.layout self.old.areas }
        requires room { HasRoom tape.old 1 }
        ensures added { self.new.areas ≡ add_pageblock self.old.layout zone self.old.areas pageblock }
        ensures layout { self.new.layout ≡ self.old.layout }
        ensures notes { NotesAreas self.old.layout 1 tape.old tape.new self.new.areas self.old.areas }
        ensures apart { AreApart self.new.layout self.new.areas }
        ensures places { HasBlockMore self.new.areas self.old.areas self.old.layout.order
            (pageblock * pageblock_size self.old.layout) }
    {
        let class = Class::usable(zone, Mobility::Movable);
        let order = Order(self.layout.order());
        let first = self.first_frame(pageblock);
        self.push_back(class, order, first, tape);
    }

    /// Removes a pageblock that is one isolated free block (Linux guide, Memory Hot(Un)Plug:
    /// offlining removes the free pages from the allocator). From then on the pageblock is movable
    /// and not isolated.
    pub fn remove_pageblock(&mut self, zone: Zone, pageblock: Pageblock, tape: &mut Tape)
        requires pageblock { pageblock < pageblock_count self.old.layout }
        requires free { is_on (pageblock * pageblock_size self.old.layout)
            (free_list self.old.areas (isolated_class zone) self.old.layout.order) ≡ true }
        requires apart { AreApart self.old.layout self.old.areas }
        requires room { HasRoom tape.old 2 }
        ensures removed { self.new.areas ≡ remove_pageblock self.old.layout zone self.old.areas pageblock }
        ensures layout { self.new.layout ≡ self.old.layout }
        ensures notes { NotesAreas self.old.layout 2 tape.old tape.new self.new.areas self.old.areas }
        ensures apart { AreApart self.new.layout self.new.areas }
        ensures places { HasBlockMore self.old.areas self.new.areas self.old.layout.order
            (pageblock * pageblock_size self.old.layout) }
    {
        let order = Order(self.layout.order());
        let first = self.first_frame(pageblock);
        self.unlink_free(Class::isolated(zone), order, first, tape);
        self.set_kind(pageblock, Kind::plain(), tape);
    }

    /// Undoes a delta, which must fit and have numbers within the layout. A delta of another layer
    /// changes nothing.
    pub fn back(&mut self, delta: Delta)
        requires fits { FitsAreas delta self.old.areas }
        requires numbers { IsDeltaOf self.old.layout delta }
        ensures back { self.new.areas ≡ areas_undo delta self.old.areas }
        ensures layout { self.new.layout ≡ self.old.layout }
    {
        self.back_by(&delta);
    }

    /// Undoes a borrowed delta. The caller drops it, so that no exit here has to.
    #[inline(always)]
    fn back_by(&mut self, delta: &Delta)
        requires fits { FitsAreas delta.now self.old.areas }
        requires numbers { IsDeltaOf self.old.layout delta.now }
        ensures back { self.new.areas ≡ areas_undo delta.now self.old.areas }
        ensures layout { self.new.layout ≡ self.old.layout }
    {
        match *delta {
            Delta::Link { list, frame, .. } => {
                if let ListId::Area { .. } = list {
                    let _ = self.links.unlink(frame);
                }
            }
            Delta::Unlink { list, frame, after } => {
                if let ListId::Area { class, order } = list {
                    let number = area_list(class, Order(u32::from(order)));
                    self.links.relink_after(number, frame, after);
                }
            }
            Delta::Kind {
                pageblock: at,
                was,
                ..
            } => self.kinds[at.0 as usize] = was,
            _ => {}
        }
    }
}
