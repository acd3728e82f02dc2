//! The events of single memory blocks: online, probe, remove, and setting what an added block
//! becomes.
ghost use Rattle.std.specs.Prelude.{◌≡◌, ◌/◌, ◌<◌, true, IfOk, OnErr};
ghost use Rattle.hp_units.specs.declared.events.Event.TheVariants.{Online, Probe, Remove, SetAuto};
ghost use Rattle.hp_units.specs.Arithmetic.{block_bytes};
ghost use Rattle.hp_units.specs.Choices.{first_some};
ghost use Rattle.hp_units.specs.LayoutParts.{IsLayout};
ghost use Rattle.hp_units.specs.Memory.{offline_row, row_of};
ghost use Rattle.hp_units.specs.Placement.{is_unplugged};
ghost use Rattle.hp_units.specs.Refusals.{event_refusals};
ghost use Rattle.hp_units.specs.Rows.{with_block_row};
ghost use Rattle.hp_units.specs.Step.{auto_online};
ghost use Rattle.hp_tape.specs.Bounds.{online_bound};
ghost use Rattle.hp_tape.specs.Tapes.{HasRoom};
ghost use Rattle.hp_plain.specs.Asked.{asked};
ghost use Rattle.hp_layers.specs.Frames.{IsTidy};
ghost use Rattle.hp_layers.specs.Layers.{AreOfOneLayout, ArePlaced, IsAnswered, state_of};
ghost use Rattle.hp_layers.specs.Operations.{IsReworked};
ghost use Rattle.hp_layers.specs.SingleBlocks.{added_zone};

use super::Layers;
use hp_tape::Tape;
use hp_units::{Auto, Block, Layout, Refusal, Reply, Row, State, Zone};
use std::alloc::AllocError;

impl Layers {
    /// Takes an offline block online in a zone (Linux, memory hotplug: onlining).
    pub(crate) fn online(
        &mut self,
        block: Block,
        zone: Zone,
        tape: &mut Tape,
    ) -> Result<Reply, AllocError>
        requires placed { ArePlaced self.old }
        ensures ok { IfOk result (IsAnswered self.old (Online block zone)
            (asked self.old.layout (state_of self.old) 0 (Online block zone)) self.new tape.old.deltas
            tape.new.deltas) }
        ensures err { OnErr result (self.new ≡ self.old) }
        ensures kept { OnErr result (tape.new ≡ tape.old) }
    {
        if let Some(refusal) = self.offline_refusal(block) {
            return Ok(Reply::Refused(refusal));
        }
        tape.reserve(self.online_room())?;
        self.online_block(zone, block, tape);
        Ok(Reply::Done)
    }

    /// Adds the absent block at a byte address. It becomes offline, or online if the machine is set
    /// so (Linux, memory hotplug: probe, auto_online_blocks).
    pub(crate) fn probe(&mut self, address: u64, tape: &mut Tape) -> Result<Reply, AllocError>
        requires placed { ArePlaced self.old }
        ensures ok { IfOk result (IsAnswered self.old (Probe address)
            (asked self.old.layout (state_of self.old) 0 (Probe address)) self.new tape.old.deltas
            tape.new.deltas) }
        ensures err { OnErr result (self.new ≡ self.old) }
        ensures kept { OnErr result (tape.new ≡ tape.old) }
    {
        if let Some(refusal) = self.probe_refusal(address) {
            return Ok(Reply::Refused(refusal));
        }
        tape.reserve(self.online_room())?;
        let block = block_at(&self.layout, address);
        self.auto_online(block, tape);
        Ok(Reply::Done)
    }

    /// Removes an offline block: it becomes absent (Linux, memory hotplug: removing).
    pub(crate) fn remove(&mut self, block: Block, tape: &mut Tape) -> Result<Reply, AllocError>
        requires placed { ArePlaced self.old }
        ensures ok { IfOk result (IsAnswered self.old (Remove block)
            (asked self.old.layout (state_of self.old) 0 (Remove block)) self.new tape.old.deltas
            tape.new.deltas) }
        ensures err { OnErr result (self.new ≡ self.old) }
        ensures kept { OnErr result (tape.new ≡ tape.old) }
    {
        if let Some(refusal) = self.offline_refusal(block) {
            return Ok(Reply::Refused(refusal));
        }
        tape.reserve(1)?;
        self.set_bare(State::Absent, block, tape);
        Ok(Reply::Done)
    }

    /// Sets what an added block becomes (Linux, memory hotplug: auto_online_blocks).
    pub(crate) fn set_auto(&mut self, auto: Auto, tape: &mut Tape) -> Result<Reply, AllocError>
        requires placed { ArePlaced self.old }
        ensures ok { IfOk result (IsAnswered self.old (SetAuto auto)
            (asked self.old.layout (state_of self.old) 0 (SetAuto auto)) self.new tape.old.deltas
            tape.new.deltas) }
        ensures err { OnErr result (self.new ≡ self.old) }
        ensures kept { OnErr result (tape.new ≡ tape.old) }
    {
        tape.reserve(1)?;
        self.blocks.set_auto(auto, tape);
        Ok(Reply::Done)
    }

    /// Gives a block a row with neither a zone nor a claim.
    fn set_bare(&mut self, state: State, block: Block, tape: &mut Tape)
        requires one { AreOfOneLayout self.old }
        requires tidy { IsTidy self.old.frames }
        requires block { block < self.old.layout.blocks }
        requires room { HasRoom tape.old 1 }
        ensures { IsReworked self.old
            (with_block_row (state_of self.old) block (record offline_row { state = state })) 1 self.new
            tape.old tape.new }
    {
        self.blocks.set(block, Row::bare(state), tape);
    }

    /// Returns the most deltas that taking a block online may note.
    fn online_room(&self) -> usize
        ensures is { result ≡ online_bound self.now.layout }
        ensures layout { IsLayout self.now.layout }
    {
        1 + self.layout.pageblocks() as usize
    }

    /// Brings an added block to the state that the machine is set to (Linux, memory hotplug:
    /// auto_online_blocks).
    fn auto_online(&mut self, block: Block, tape: &mut Tape)
        requires placed { ArePlaced self.old }
        requires block { block < self.old.layout.blocks }
        requires unplugged { is_unplugged (row_of self.old.blocks.blocks block) ≡ true }
        requires room { HasRoom tape.old (online_bound self.old.layout) }
        ensures { IsReworked self.old (auto_online self.old.layout self.old.blocks.blocks.auto
            (with_block_row (state_of self.old) block offline_row) block) (online_bound
            self.old.layout) self.new tape.old tape.new }
    {
        let added = zone_of_added(self.blocks.auto());
        match added {
            None => self.set_bare(State::Offline, block, tape),
            Some(zone) => self.online_block(zone, block, tape),
        }
    }

    /// Returns why the block cannot go online or be removed, or `None` if it is offline and
    /// unclaimed.
    fn offline_refusal(&self, block: Block) -> Option<Refusal>
        requires one { AreOfOneLayout self.now }
        ensures { result ≡ first_some (event_refusals self.now.layout (state_of self.now) 0 (Remove block)) }
    {
        if block.0 >= self.layout.blocks() {
            return Some(Refusal::NoBlock);
        }
        let row = self.blocks.row(block);
        if row.claim.is_some() {
            return Some(Refusal::Busy { block });
        }
        if row.state != State::Offline {
            return Some(Refusal::NotOffline { block });
        }
        None
    }

    /// Returns why no block can be added at the byte address, or `None` if an absent block starts
    /// there.
    fn probe_refusal(&self, address: u64) -> Option<Refusal>
        requires one { AreOfOneLayout self.now }
        ensures { result ≡ first_some (event_refusals self.now.layout (state_of self.now) 0 (Probe address)) }
    {
        let bytes = self.layout.block_bytes();
        if address % bytes != 0 {
            return Some(Refusal::BadAddress);
        }
        if address / bytes >= u64::from(self.layout.blocks()) {
            return Some(Refusal::NoBlock);
        }
        let block = block_at(&self.layout, address);
        if !self.blocks.row(block).is_absent() {
            return Some(Refusal::NotAbsent { block });
        }
        None
    }
}

/// Returns the zone in which an added block goes online at once, or `None` if it stays offline
/// (Linux, memory hotplug: auto_online_blocks).
fn zone_of_added(auto: Auto) -> Option<Zone>
    ensures { result ≡ added_zone auto }
{
    match auto {
        Auto::Offline => None,
        Auto::Online | Auto::OnlineKernel => Some(Zone::Normal),
        Auto::OnlineMovable => Some(Zone::Movable),
    }
}

/// Returns the block that contains a byte address.
fn block_at(layout: &Layout, address: u64) -> Block
    requires { address / block_bytes layout.now < layout.now.blocks }
    ensures { result ≡ address / block_bytes layout.now }
{
    let _ = layout.blocks(); // its number of blocks fits a u32
    Block((address / layout.block_bytes()) as u32)
}
