//! The layer of the kernel blocks: the order of the block that starts at each frame.
ghost use Rattle.std.specs.Prelude.{◌≡◌, ℕ, ◌+◌, ◌<◌, ◌≤◌, ◌^◌, None, IfOk, IfSome, find, is_some, replicate, length, slice_index_or, slice_set};
ghost use Rattle.std.specs.List.{range_with_len};
ghost use Rattle.hp_units.specs.Arithmetic.{IsFrame, frame_count};
ghost use Rattle.hp_units.specs.LayoutParts.{LayoutParts};
ghost use Rattle.hp_tape.specs.Deltas.{IsDeltaOf, kernel_undo};
ghost use Rattle.hp_tape.specs.Tapes.{HasRoom};
ghost use Rattle.hp_pages.specs.Kernel.{NotesKernel};

use crate::FrameSet;
use hp_tape::{Delta, Tape};
use hp_units::{Frame, Order};
use std::alloc::{AllocError, Global};
use std::marker::Model;

/// The kernel blocks of a layout: for each frame, in two bytes, the order of the block that starts
/// there, if any; and the set of the frames at which a block starts. Only `new` and `copy`
/// allocate.
#[derive(Drop)]
pub struct KernelBlocks {
    orders: Vec<Option<u8>>,
    starts: FrameSet,
}

impl Model for KernelBlocks {
    ghost use Rattle.std.specs.Prelude.{ℕ, List, Option};
    ghost use Rattle.hp_pages.specs.Kernel.{AreStartsOf};

    ghost Value = { List (Option ℕ) };

    ghost view = { λ k. k.orders.items };

    ghost invariant = { λ k. AreStartsOf k.orders.items k.starts };
}

impl KernelBlocks {
    /// Creates the table of `frames` frames, without blocks.
    pub fn new(alloc: Global, frames: u32) -> Result<KernelBlocks, AllocError>
        ensures { IfOk result (λ kernel. kernel ≡ replicate frames None) }
    {
        let orders = vec![in alloc; None; frames as usize]?;
        let starts = FrameSet::none(alloc, frames)?;
        Ok(KernelBlocks { orders, starts })
    }

    /// Returns a copy.
    pub fn copy(&self, alloc: Global) -> Result<KernelBlocks, AllocError>
        ensures { IfOk result (λ kernel. kernel ≡ self.now) }
    {
        let orders = Vec::from_slice(alloc, self.orders.as_slice())?;
        let starts = self.starts.copy(alloc)?;
        Ok(KernelBlocks { orders, starts })
    }

    /// Returns the order of the block that starts at the frame, if any.
    pub fn order_at(&self, frame: Frame) -> Option<Order>
        requires { frame < length self.now }
        ensures { result ≡ slice_index_or self.now frame None }
    {
        match self.short_at(frame) {
            Some(order) => Some(Order(u32::from(order))),
            None => None,
        }
    }

    /// Returns the order of the block that starts at the frame, in one byte, as the table and
    /// deltas have it.
    fn short_at(&self, frame: Frame) -> Option<u8>
        requires { frame < length self.now }
        ensures { result ≡ slice_index_or self.now frame None }
    {
        self.orders[frame.0 as usize]
    }

    /// Returns the lowest frame at which a block starts, among the `count` frames from `first` on.
    /// Takes one step per 64 frames.
    pub fn lowest(&self, first: u32, count: u32) -> Option<Frame>
        requires within { first + count ≤ length self.now }
        requires small { first + count ≤ 2 ^ 20 }
        ensures { result
            ≡ find (λ frame. is_some (slice_index_or self.now frame None)) (range_with_len first count) }
    {
        self.starts.lowest(first, first + count)
    }

    /// Sets the order of the block that starts at the frame; `None` if none does.
    fn put_order(&mut self, frame: Frame, order: Option<u8>)
        requires { frame < length self.old }
        ensures { self.new ≡ slice_set self.old frame order }
    {
        self.starts.set(frame, order.is_some());
        self.orders[frame.0 as usize] = order;
    }

    /// Begins a block of this order at the frame, or ends one if `order` is `None`. The order must
    /// be below 256. Notes one delta.
    pub fn set(&mut self, frame: Frame, order: Option<Order>, tape: &mut Tape)
        requires frame { frame < length self.old }
        requires small { IfSome order (λ order. order < 256) }
        requires room { HasRoom tape.old 1 }
        ensures set { self.new ≡ slice_set self.old frame order }
        ensures notes { (l : LayoutParts) → IsFrame l frame
            → NotesKernel l 1 tape.old tape.new self.new self.old }
    {
        let was = self.short_at(frame);
        let now = short_order(order);
        self.put_order(frame, now);
        tape.note(Delta::Kernel { frame, was, now });
    }

    /// Undoes a delta of a layout with as many frames as the table. A delta of another layer
    /// changes nothing.
    pub fn back(&mut self, delta: Delta)
        requires { (l : LayoutParts) × (length self.old ≡ frame_count l) × IsDeltaOf l delta }
        ensures { self.new ≡ kernel_undo delta self.old }
    {
        if let Delta::Kernel { frame, was, .. } = &delta {
            self.put_order(*frame, *was);
        }
    }
}

/// Returns the order in one byte, as deltas have it. The order must be below 256.
pub fn short_order(order: Option<Order>) -> Option<u8>
    requires { IfSome order (λ order. order < 256) }
    ensures { result ≡ order }
{
    match order {
        Some(order) => Some(order.0 as u8),
        None => None,
    }
}
