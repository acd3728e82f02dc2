//! Lists of frames by number, each frame on at most one of them.
ghost use Rattle.std.specs.Prelude.{◌≡◌, ℕ, ◌<◌, ◌+◌, ◌^◌, ◌∷◌, ◌++◌, [], None, Some, IfOk, IfSome, IfNone, length, replicate};
ghost use Rattle.std.specs.Option.{ForSome};
ghost use Rattle.hp_buddy.specs.LinkedLists.{list_at, with_list, IsOn, IsListed, IsUnlisted, IsApart, first, last, without, off_lists, predecessor, successor, with_behind};

use crate::list_number::ListNumber;
use crate::rings::{Rings, place_of};
use hp_units::Frame;
use std::alloc::{AllocError, Global};
use std::marker::Model;

/// Many lists of frames, each frame on at most one of them.
#[derive(Drop)]
pub struct Links {
    rings: Rings,
}

impl Model for Links {
    ghost use Rattle.hp_buddy.specs.LinkedLists.{LinkedLists};
    ghost use Rattle.hp_buddy.specs.Rings.{Keeps, table, shown};

    ghost Value = { LinkedLists };

    ghost view = { λ s. shown s.rings.frames (table s.rings.nodes.items) s.rings.lens.items };

    ghost invariant = { λ s. Keeps s.rings.frames (table s.rings.nodes.items) s.rings.lens.items };
}

impl Links {
    /// Creates the lists, all empty. Allocates twice, whatever the number of frames and lists.
    pub fn new(alloc: Global, frames: u32, lists: u32) -> Result<Links, AllocError>
        requires { frames + lists < 2 ^ 32 }
        ensures { IfOk result (λ links. links ≡ record { frame_count = frames; lists = replicate lists [] }) }
    {
        let rings = Rings::new(alloc, frames, lists)?;
        Ok(Links { rings })
    }

    /// Returns a copy. Allocates twice.
    pub fn copy(&self, alloc: Global) -> Result<Links, AllocError>
        ensures { IfOk result (λ links. links ≡ self.now) }
    {
        let rings = self.rings.copy(alloc)?;
        Ok(Links { rings })
    }

    /// Called for its contract: each frame on a list is below `frame_count`, on one list, and there
    /// once.
    pub fn are_apart(&self)
        ensures { IsApart self.now }
    {
        let _ = &self.rings;
    }

    /// Returns the number of lists.
    pub fn count(&self) -> u32
        ensures { result ≡ length self.now.lists }
    {
        self.rings.lens.len() as u32
    }

    /// Returns the first frame of a list.
    pub fn front(&self, list: ListNumber) -> Option<Frame>
        requires { list < length self.now.lists }
        ensures { result ≡ first (list_at self.now list) }
    {
        let head = self.rings.head(list);
        self.rings.frame_at(self.rings.next(head))
    }

    /// Returns the last frame of a list.
    pub fn last(&self, list: ListNumber) -> Option<Frame>
        requires { list < length self.now.lists }
        ensures { result ≡ last (list_at self.now list) }
    {
        let head = self.rings.head(list);
        self.rings.frame_at(self.rings.prev(head))
    }

    /// Returns the number of frames on a list. Takes constant time.
    pub fn len(&self, list: ListNumber) -> u32
        requires { list < length self.now.lists }
        ensures { result ≡ length (list_at self.now list) }
    {
        self.rings.len(list)
    }

    /// Returns the list that the frame is on.
    pub fn list_of(&self, frame: Frame) -> Option<ListNumber>
        requires { frame < self.now.frame_count }
        ensures on { (list : ℕ) → IsOn self.now list frame → result ≡ Some list }
        ensures listed { IfSome result (λ list. IsOn self.now list frame) }
        ensures in_range { IfSome result (λ list. list < length self.now.lists) }
        ensures free { IfNone result (IsUnlisted self.now frame) }
        ensures apart { IsApart self.now }
    {
        self.rings.list(place_of(frame))
    }

    /// Returns the frame after this one on its list.
    pub fn next(&self, frame: Frame) -> Option<Frame>
        requires { frame < self.now.frame_count }
        ensures on { (list : ℕ) → IsOn self.now list frame
            → result ≡ successor frame (list_at self.now list) }
        ensures free { IsUnlisted self.now frame → result ≡ None }
    {
        if self.rings.list(place_of(frame)).is_none() {
            return None;
        }
        self.after(frame)
    }

    /// Returns the frame after this one, which must be on a list.
    pub fn after(&self, frame: Frame) -> Option<Frame>
        requires { IsListed self.now frame }
        ensures { (list : ℕ) → IsOn self.now list frame
            → result ≡ successor frame (list_at self.now list) }
    {
        self.rings.frame_at(self.rings.next(place_of(frame)))
    }

    /// Returns the frames of a list, front first.
    pub fn list(&self, alloc: Global, list: ListNumber) -> Result<Vec<Frame>, AllocError>
        requires { list < length self.now.lists }
        ensures { IfOk result (λ frames. frames.items ≡ list_at self.now list) }
    {
        let mut frames = Vec::with_capacity(alloc, self.rings.len(list) as usize)?;
        let mut ahead = self.front(list);
        while let Some(frame) = ahead {
            frames.push(frame)?;
            ahead = self.next(frame);
        }
        Ok(frames)
    }

    /// Puts a frame that is on no list at the front of a list.
    pub fn push_front(&mut self, list: ListNumber, frame: Frame)
        requires list_in { list < length self.old.lists }
        requires frame_in { frame < self.old.frame_count }
        requires free { IsUnlisted self.old frame }
        ensures { self.new ≡ with_list self.old list (frame ∷ list_at self.old list) }
    {
        let head = self.rings.head(list);
        let after = self.rings.next(head);
        self.rings.insert(list, head, place_of(frame), after);
    }

    /// Puts a frame that is on no list at the back of a list.
    pub fn push_back(&mut self, list: ListNumber, frame: Frame)
        requires list_in { list < length self.old.lists }
        requires frame_in { frame < self.old.frame_count }
        requires free { IsUnlisted self.old frame }
        ensures { self.new ≡ with_list self.old list (list_at self.old list ++ frame ∷ []) }
    {
        let head = self.rings.head(list);
        let before = self.rings.prev(head);
        self.rings.insert(list, before, place_of(frame), head);
    }

    /// Takes a frame off its list and returns the frame before it, if any.
    pub fn unlink(&mut self, frame: Frame) -> Option<Frame>
        requires { IsListed self.old frame }
        ensures before { (list : ℕ) → IsOn self.old list frame
            → result ≡ predecessor frame (list_at self.old list) }
        ensures links { self.new ≡ off_lists frame self.old }
        ensures one_list { (list : ℕ) → IsOn self.old list frame
            → self.new ≡ with_list self.old list (without frame (list_at self.old list)) }
        ensures free { IsUnlisted self.new frame }

        // What `relink_after` needs to undo this call:
        ensures before_on { (list : ℕ) → IsOn self.old list frame
            → ForSome result (λ before. IsOn self.new list before) }
        ensures undone { (list : ℕ) → IsOn self.old list frame
            → with_list self.new list (with_behind result frame (list_at self.new list)) ≡ self.old }
    {
        let place = place_of(frame);
        let list = self.rings.list(place).unwrap();
        let before = self.rings.prev(place);
        let after = self.rings.next(place);
        self.rings.remove(list, before, place, after);
        self.rings.frame_at(before)
    }

    /// Puts a frame after another one on a list.
    fn insert_behind(&mut self, list: ListNumber, frame: Frame, after: Frame)
        requires frame_in { frame < self.old.frame_count }
        requires free { IsUnlisted self.old frame }
        requires after_on { IsOn self.old list after }
        ensures { self.new
            ≡ with_list self.old list (with_behind (Some after) frame (list_at self.old list)) }
    {
        let before = place_of(after);
        let next = self.rings.next(before);
        self.rings.insert(list, before, place_of(frame), next);
    }

    /// Puts a frame after `after`, or at the front if `after` is `None`. Undoes an `unlink` that
    /// returned `after`.
    pub fn relink_after(&mut self, list: ListNumber, frame: Frame, after: Option<Frame>)
        requires list_in { list < length self.old.lists }
        requires frame_in { frame < self.old.frame_count }
        requires free { IsUnlisted self.old frame }
        requires after_on { ForSome after (λ a. IsOn self.old list a) }
        ensures { self.new ≡ with_list self.old list (with_behind after frame (list_at self.old list)) }
    {
        match after {
            Some(after) => self.insert_behind(list, frame, after),
            None => self.push_front(list, frame),
        }
    }
}
