//! Finds why a plan is refused.
ghost use Rattle.std.specs.Prelude.{◌≡◌, ◌<◌, ◌==◌, ◌&&◌, [], false, find, is_some, map, not};
ghost use Rattle.std.specs.List.{list_any};
ghost use Rattle.std.specs.Option.{option_map};
ghost use Rattle.hp_units.specs.Arithmetic.{IsFrame, frames_of_block};
ghost use Rattle.hp_units.specs.Choices.{first_some};
ghost use Rattle.hp_units.specs.Memory.{kernel_order, row_of};
ghost use Rattle.hp_units.specs.Refusals.{first_repeated, kernel_frame_in, plan_refusals};
ghost use Rattle.hp_units.specs.Rows.{is_claimed, is_off, is_offline, is_online};
ghost use Rattle.hp_plain.specs.Plans.{change_refusals, claim_refusals, names_no_block, state_refusals};
ghost use Rattle.hp_layers.specs.Layers.{AreOfOneLayout, state_of};

use super::Layers;
use hp_units::{Block, Frame, Item, Layout, Refusal};

impl Layers {
    /// Returns why a plan is refused, if it is. Each reason, in order, is looked for in the whole
    /// plan; the first found counts.
    pub(crate) fn plan_refusal(&self, plan: &[Item]) -> Option<Refusal>
        requires one { AreOfOneLayout self.now }
        ensures { result ≡ first_some (plan_refusals self.now.layout (state_of self.now) plan.now) }
    {
        if plan.is_empty() {
            return Some(Refusal::EmptyPlan);
        }
        if names_no_block(&self.layout, plan) {
            return Some(Refusal::NoBlock);
        }
        if let Some(block) = first_repeated(plan) {
            return Some(Refusal::Twice { block });
        }
        self.claim_refusal(plan)
    }

    /// Returns why the blocks of a plan cannot be claimed, or `None` if they can.
    #[tactic(auto, using(crate::proofs::Plans::none_claimed))]
    fn claim_refusal(&self, plan: &[Item]) -> Option<Refusal>
        requires one { AreOfOneLayout self.now }
        requires within { names_no_block self.now.layout plan.now ≡ false }
        ensures { result ≡ first_some (claim_refusals self.now.layout (state_of self.now) plan.now) }
    {
        if let Some(block) = self.first_claimed(plan) {
            return Some(Refusal::Busy { block });
        }
        self.state_refusal(plan)
    }

    /// Returns why a plan is refused for its blocks' states or for a kernel block, if it is.
    fn state_refusal(&self, plan: &[Item]) -> Option<Refusal>
        requires one { AreOfOneLayout self.now }
        requires within { names_no_block self.now.layout plan.now ≡ false }
        ensures { result ≡ first_some (state_refusals self.now.layout (state_of self.now) plan.now) }
    {
        if let Some(block) = self.first_not_online(plan) {
            return Some(Refusal::NotOnline { block });
        }
        self.change_refusal(plan)
    }

    /// Returns why a plan is refused: a block that is to go online is not offline, or one that is
    /// to go offline has a kernel block. `None` if neither holds.
    fn change_refusal(&self, plan: &[Item]) -> Option<Refusal>
        requires one { AreOfOneLayout self.now }
        requires within { names_no_block self.now.layout plan.now ≡ false }
        ensures { result ≡ first_some (change_refusals self.now.layout (state_of self.now) plan.now) }
    {
        if let Some(block) = self.first_not_offline(plan) {
            return Some(Refusal::NotOffline { block });
        }
        match self.first_unmovable(plan) {
            Some(frame) => Some(Refusal::Unmovable { frame }),
            None => None,
        }
    }

    /// Returns the first block of a plan that an operation holds.
    fn first_claimed(&self, plan: &[Item]) -> Option<Block>
        requires one { AreOfOneLayout self.now }
        requires within { names_no_block self.now.layout plan.now ≡ false }
        ensures { result ≡ option_map (λ item. item.block)
            (find (λ item. is_claimed (row_of self.now.blocks.blocks item.block)) plan.now) }
    {
        for item in plan {
            if self.is_claimed(*item) {
                return Some(item.block);
            }
        }
        None
    }

    /// Returns whether an operation holds the item's block.
    fn is_claimed(&self, item: Item) -> bool
        requires one { AreOfOneLayout self.now }
        requires block { item.block < self.now.layout.blocks }
        ensures { result ≡ is_claimed (row_of self.now.blocks.blocks item.block) }
    {
        self.blocks.row(item.block).is_claimed()
    }

    /// Returns the first block of a plan that is to go offline but is not online (Linux, memory
    /// hotplug: offlining).
    fn first_not_online(&self, plan: &[Item]) -> Option<Block>
        requires one { AreOfOneLayout self.now }
        requires within { names_no_block self.now.layout plan.now ≡ false }
        ensures { result ≡ option_map (λ item. item.block) (find (λ item.
            is_off item.wish && not (is_online (row_of self.now.blocks.blocks item.block))) plan.now) }
    {
        for item in plan {
            if self.cannot_go(*item) {
                return Some(item.block);
            }
        }
        None
    }

    /// Returns whether the item's block is to go offline but is not online.
    fn cannot_go(&self, item: Item) -> bool
        requires one { AreOfOneLayout self.now }
        requires block { item.block < self.now.layout.blocks }
        ensures { result ≡ (is_off item.wish && not (is_online (row_of self.now.blocks.blocks item.block))) }
    {
        item.wish.is_off() && !self.blocks.row(item.block).is_online()
    }

    /// Returns the first block of a plan that is to go online but is not offline (Linux, memory
    /// hotplug: onlining).
    fn first_not_offline(&self, plan: &[Item]) -> Option<Block>
        requires one { AreOfOneLayout self.now }
        requires within { names_no_block self.now.layout plan.now ≡ false }
        ensures { result ≡ option_map (λ item. item.block) (find (λ item.
            not (is_off item.wish) && not (is_offline (row_of self.now.blocks.blocks item.block))) plan.now) }
    {
        for item in plan {
            if self.cannot_come(*item) {
                return Some(item.block);
            }
        }
        None
    }

    /// Returns whether the item's block is to go online but is not offline.
    fn cannot_come(&self, item: Item) -> bool
        requires one { AreOfOneLayout self.now }
        requires block { item.block < self.now.layout.blocks }
        ensures { result
            ≡ (not (is_off item.wish) && not (is_offline (row_of self.now.blocks.blocks item.block))) }
    {
        !item.wish.is_off() && !self.blocks.row(item.block).is_offline()
    }

    /// Returns the lowest frame at which a kernel block starts, in the plan's first block that is
    /// to go offline and has a kernel block.
    fn first_unmovable(&self, plan: &[Item]) -> Option<Frame>
        requires one { AreOfOneLayout self.now }
        requires within { names_no_block self.now.layout plan.now ≡ false }
        ensures { result ≡ first_some (map (kernel_frame_in self.now.layout (state_of self.now)) plan.now) }
    {
        for item in plan {
            if let Some(frame) = self.kernel_frame_in(*item) {
                return Some(frame);
            }
        }
        None
    }

    /// Returns the lowest frame at which a kernel block starts in the item's block, if the block is
    /// to go offline.
    fn kernel_frame_in(&self, item: Item) -> Option<Frame>
        requires one { AreOfOneLayout self.now }
        requires block { item.block < self.now.layout.blocks }
        ensures { result ≡ kernel_frame_in self.now.layout (state_of self.now) item }
    {
        if item.wish.is_off() {
            self.lowest_kernel_frame(item.block)
        } else {
            None
        }
    }

    /// Returns the lowest frame at which a kernel block starts in a memory block.
    fn lowest_kernel_frame(&self, block: Block) -> Option<Frame>
        requires one { AreOfOneLayout self.now }
        requires block { block < self.now.layout.blocks }
        ensures { result ≡ find (λ frame. is_some (kernel_order (state_of self.now) frame))
            (frames_of_block self.now.layout block) }
    {
        let size = self.layout.block_size();
        self.kernel.lowest(block.0 * size, size)
    }
}

/// Returns whether the plan names a block outside the layout.
fn names_no_block(layout: &Layout, plan: &[Item]) -> bool
    ensures { result ≡ names_no_block layout.now plan.now }
{
    let blocks = layout.blocks();
    plan.iter().any(|item| blocks <= item.block.0)
}

/// Returns the first block that the plan names again.
fn first_repeated(plan: &[Item]) -> Option<Block>
    ensures { result ≡ first_repeated [] plan.now }
{
    for number in 0..plan.len() {
        let block = plan[number].block;
        if stands_in(&plan[..number], block) {
            return Some(block);
        }
    }
    None
}

/// Returns whether one of the items names the block.
fn stands_in(items: &[Item], block: Block) -> bool
    ensures { result ≡ list_any (λ item. item.block == block) items.now }
{
    items.iter().any(|item| item.block == block)
}
