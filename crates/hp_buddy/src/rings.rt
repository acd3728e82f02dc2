//! The table that stores the lists. Each list is a ring: an entry of its own, its head, closes it.

ghost use Rattle.std.specs.Prelude.{◌≡◌, ◌<◌, ◌+◌, ◌^◌, Some, vec_len};
ghost use Rattle.hp_buddy.specs.Rings.{list_of_code};

use crate::list_number::ListNumber;
use hp_units::Frame;
use std::alloc::{AllocError, Global};

/// Returns the index of a frame in the table.
pub fn place_of(frame: Frame) -> u32
    ensures { result ≡ frame }
{
    frame.0
}

/// An entry of the table: a frame's, or a head's. A frame on no list, and the head of an empty
/// list, is its own neighbour.
#[derive(Clone, Copy)]
pub struct Node {
    pub next: u32,
    pub prev: u32,
    /// One more than the number of the list that the frame is on. 0 for a head, and for a frame on
    /// no list.
    pub list: u32,
}

/// Decodes an entry's list: 0 is none; any other code is the list's number plus one.
fn list_of_code(code: u32) -> Option<ListNumber>
    ensures { result ≡ list_of_code code }
{
    if code == 0 {
        None
    } else {
        Some(ListNumber(code - 1))
    }
}

/// Returns the code of a list.
fn code_of(list: ListNumber) -> u32
    requires { list + 1 < 2 ^ 32 }
    ensures { list_of_code result ≡ Some list }
{
    list.0 + 1
}

/// A table: the entries of the frames, then those of the heads; and the length of each list.
#[derive(Drop)]
pub struct Rings {
    pub frames: u32,
    pub nodes: Vec<Node>,
    pub lens: Vec<u32>,
    ghost sized: { vec_len nodes ≡ frames + vec_len lens },
    ghost numbered: { frames + vec_len lens < 2 ^ 32 },
}

impl Node {
    ghost use Rattle.std.specs.Prelude.{◌≡◌, IfOk, map};
    ghost use Rattle.std.specs.List.{range_with_len};
    ghost use Rattle.hp_buddy.specs.Rings.{alone_at};

    fn alone(place: u32) -> Self
        ensures { result ≡ alone_at place }
    {
        Node::ring(place)
    }

    /// Creates an entry that is its own neighbour.
    fn ring(place: u32) -> Self
        ensures { result ≡ alone_at place }
    {
        Node {
            next: place,
            prev: place,
            list: 0,
        }
    }

    fn all(alloc: Global, count: u32) -> Result<Vec<Self>, AllocError>
        ensures { IfOk result (λ nodes. nodes.items ≡ map alone_at (range_with_len 0 count)) }
    {
        let mut nodes = Vec::with_capacity(alloc, count as usize)?;
        for place in 0..count {
            nodes.push_reserved(Node::ring(place));
        }
        Ok(nodes)
    }
}

impl Rings {
    ghost use Rattle.std.specs.Prelude.{◌≡◌, ◌≢◌, ◌<◌, ◌+◌, ◌-◌, ◌^◌, replicate, None, Some, IfOk, slice_index, slice_set, vec_len};
    ghost use Rattle.hp_buddy.specs.Rings.{Inserts, Removes, IsAlone, frame_at, table};

    /// Creates a table in which every list is empty.
    pub fn new(alloc: Global, frames: u32, lists: u32) -> Result<Self, AllocError>
        requires { frames + lists < 2 ^ 32 }
        ensures frames { IfOk result (λ rings. rings.frames ≡ frames) }
        ensures alone { IfOk result (λ rings. IsAlone (table rings.nodes.items) (frames + lists)) }
        ensures lens { IfOk result (λ rings. rings.lens.items ≡ replicate lists 0) }
    {
        let nodes = Node::all(alloc, frames + lists)?;
        let lens = vec![in alloc; 0; lists as usize]?;
        Ok(Rings {
            frames,
            nodes,
            lens,
        })
    }

    /// Returns a copy.
    pub fn copy(&self, alloc: Global) -> Result<Self, AllocError>
        ensures frames { IfOk result (λ rings. rings.frames ≡ self.now.frames) }
        ensures nodes { IfOk result (λ rings. rings.nodes.items ≡ self.now.nodes.items) }
        ensures lens { IfOk result (λ rings. rings.lens.items ≡ self.now.lens.items) }
    {
        let nodes = Vec::from_slice(alloc, self.nodes.as_slice())?;
        let lens = Vec::from_slice(alloc, self.lens.as_slice())?;
        Ok(Rings {
            frames: self.frames,
            nodes,
            lens,
        })
    }

    /// Returns the index of a list's head.
    pub fn head(&self, list: ListNumber) -> u32
        requires { list < vec_len self.now.lens }
        ensures { result ≡ self.now.frames + list }
    {
        self.frames + list.0
    }

    /// Returns the entry after this one.
    #[tactic(auto, unfolding(crate::specs::Rings::table))]
    pub fn next(&self, place: u32) -> u32
        requires { place < vec_len self.now.nodes }
        ensures { result ≡ (table self.now.nodes.items).next place }
    {
        self.nodes[place as usize].next
    }

    /// Returns the entry before this one.
    #[tactic(auto, unfolding(crate::specs::Rings::table))]
    pub fn prev(&self, place: u32) -> u32
        requires { place < vec_len self.now.nodes }
        ensures { result ≡ (table self.now.nodes.items).prev place }
    {
        self.nodes[place as usize].prev
    }

    /// Returns the list that the entry's frame is on.
    #[tactic(auto, unfolding(crate::specs::Rings::table))]
    pub fn list(&self, place: u32) -> Option<ListNumber>
        requires { place < vec_len self.now.nodes }
        ensures { result ≡ (table self.now.nodes.items).list place }
    {
        list_of_code(self.nodes[place as usize].list)
    }

    /// Returns the frame at this index, or `None` for a head.
    pub fn frame_at(&self, place: u32) -> Option<Frame>
        ensures { result ≡ frame_at self.now.frames place }
    {
        if place < self.frames {
            Some(Frame(place))
        } else {
            None
        }
    }

    /// Returns the number of frames on a list.
    pub fn len(&self, list: ListNumber) -> u32
        requires { list < vec_len self.now.lens }
        ensures { result ≡ slice_index self.now.lens.items list }
    {
        self.lens[list.0 as usize]
    }

    /// Puts a frame between two neighbours. In an empty list both are the head.
    pub fn insert(&mut self, list: ListNumber, before: u32, frame: u32, after: u32)
        requires list_in { list < vec_len self.old.lens }
        requires before_in { before < vec_len self.old.nodes }
        requires after_in { after < vec_len self.old.nodes }
        requires frame_in { frame < self.old.frames }
        requires not_before { before ≢ frame }
        requires not_after { after ≢ frame }
        requires room { slice_index self.old.lens.items list < self.old.frames }
        ensures links { Inserts (table self.old.nodes.items) (table self.new.nodes.items) list before frame
            after }
        ensures lens { self.new.lens.items
            ≡ slice_set self.old.lens.items list (slice_index self.old.lens.items list + 1) }
        ensures frames { self.new.frames ≡ self.old.frames }
    {
        self.nodes[before as usize].next = frame;
        self.nodes[after as usize].prev = frame;
        self.nodes[frame as usize] = Node {
            next: after,
            prev: before,
            list: code_of(list),
        };
        self.lens[list.0 as usize] += 1;
    }

    /// Takes a frame out from between its neighbours.
    pub fn remove(&mut self, list: ListNumber, before: u32, frame: u32, after: u32)
        requires list_in { list < vec_len self.old.lens }
        requires before_in { before < vec_len self.old.nodes }
        requires after_in { after < vec_len self.old.nodes }
        requires frame_in { frame < self.old.frames }
        requires not_before { before ≢ frame }
        requires not_after { after ≢ frame }
        requires some { 0 < slice_index self.old.lens.items list }
        ensures links { Removes (table self.old.nodes.items) (table self.new.nodes.items) before frame after }
        ensures lens { self.new.lens.items
            ≡ slice_set self.old.lens.items list (slice_index self.old.lens.items list - 1) }
        ensures frames { self.new.frames ≡ self.old.frames }
    {
        self.nodes[before as usize].next = after;
        self.nodes[after as usize].prev = before;
        self.nodes[frame as usize] = Node::alone(frame);
        self.lens[list.0 as usize] -= 1;
    }
}
