//! The options of a judgement.
ghost use Rattle.std.specs.Prelude.{◌≡◌, ◌↔◌, ◌<◌, ◌≤◌, ◌^◌, ℕ, IfErr, IfNone, IfOk, IfSome, None, Some};
ghost use Rattle.hp_verdicts.specs.Sizes.{AreFrames, HasNoSize, IsSizeFault, IsSizeFor, IsSizeOf, blocks_for};

use crate::allowed::AllowedKinds;
use crate::selection::BlockRange;
use hp_judge::{MachineSize, piece_size};
use hp_units::Order;

/// A log is judged for a machine of 2 to this power frames, or of more if blocks past them are
/// asked for. 2^26 frames of 4 KiB are 256 GiB, for which a judge takes 1 GiB.
const MOST_FRAMES_ORDER: u32 = 26;

/// The options of a judgement.
#[derive(Clone, Copy, Drop)]
pub struct JudgeOptions {
    block_frames: Option<u64>,
    range: Option<BlockRange>,
    allowed: AllowedKinds,
    most: u64,
}

/// Why the size of a machine is not known, or is wrong.
#[derive(Clone, Copy, Debug, PartialEq, Eq, Drop)]
pub enum SizeFault {
    /// Neither the options nor the log have the number of frames per memory block.
    Missing,
    /// The log has another number than the options.
    Different,
    /// The log's number of frames per memory block is not a power of two up to 2^26, or it is so
    /// great that the memory blocks up to the end of the range have 2^32 frames or more.
    Wrong,
}

impl JudgeOptions {
    /// Returns options for a log of memory blocks of `block_frames` frames each; if that is `None`,
    /// the log must have the number.
    ///
    /// Returns `None` if `block_frames` is given and is not a power of two up to 2^26, or if with
    /// it there are 2^32 frames or more up to the range's end.
    pub fn new(
        block_frames: Option<u64>,
        range: Option<BlockRange>,
        allowed: AllowedKinds,
        most: u64,
    ) -> Option<JudgeOptions>
        ensures some { IfSome result (λ options. options ≡ record {
          block_frames = block_frames;
          range = range;
          allowed = allowed;
          most = most;
        }) }
        ensures sized { IfSome result
            (λ options. (frames : ℕ) → block_frames ≡ Some frames → HasNoSize frames range → ⊥) }
        ensures none { IfNone result ((frames : ℕ) × (block_frames ≡ Some frames) × HasNoSize frames range) }
    {
        if let Some(frames) = block_frames {
            let _size = machine_size(frames, range)?;
        }
        Some(JudgeOptions {
            block_frames,
            range,
            allowed,
            most,
        })
    }

    /// Returns the size of the machine. `told` is the number of frames per memory block in the log,
    /// if it has one.
    pub fn machine_size(&self, told: Option<u32>) -> Result<MachineSize, SizeFault>
        ensures ok { IfOk result (IsSizeOf self.now.block_frames told self.now.range) }
        ensures err { IfErr result (IsSizeFault self.now.block_frames told self.now.range) }
    {
        match machine_size(self.frames_with(told)?, self.range) {
            Some(size) => Ok(size),
            None => Err(SizeFault::Wrong),
        }
    }

    /// Returns the frames per block from the options or the log. Fails if they differ or neither
    /// has it.
    fn frames_with(&self, told: Option<u32>) -> Result<u64, SizeFault>
        ensures ok { IfOk result (AreFrames self.now.block_frames told) }
        ensures err { IfErr result (IsSizeFault self.now.block_frames told self.now.range) }
    {
        match (self.block_frames, told) {
            (Some(frames), Some(told)) if frames != told as u64 => Err(SizeFault::Different),
            (Some(frames), _) => Ok(frames),
            (None, Some(told)) => Ok(told as u64),
            (None, None) => Err(SizeFault::Missing),
        }
    }

    /// Returns the memory blocks that are judged; `None` for all.
    pub fn range(&self) -> Option<BlockRange> {
        self.range
    }

    /// Returns the kinds of faults that are allowed.
    pub fn allowed(&self) -> AllowedKinds {
        self.allowed
    }

    /// Returns how many faults are printed at most.
    pub fn most(&self) -> u64 {
        self.most
    }
}

/// Returns the size of a machine with 2^26 frames, or with all blocks up to the range's end if
/// these are more. Returns `None` if `block_frames` is not a power of two up to 2^26, or if the
/// number of the machine's frames does not fit into 32 bits.
fn machine_size(block_frames: u64, range: Option<BlockRange>) -> Option<MachineSize>
    ensures some { IfSome result (IsSizeFor block_frames range) }
    ensures none { IfNone result (HasNoSize block_frames range) }
{
    let order = order_of(block_frames)?;
    let blocks = most_blocks(order, range);
    match blocks.checked_mul(piece_size(Order(order))) {
        Some(_) => Some(MachineSize {
            block_order: Order(order),
            blocks,
        }),
        None => None,
    }
}

/// Returns the order of a power of two up to 2^26.
fn order_of(count: u64) -> Option<u32>
    ensures some { IfSome result (λ order. (order ≤ 26) × (count ≡ 2 ^ order)) }
    ensures none { IfNone result ((order : ℕ) → order ≤ 26 → count ≡ 2 ^ order → ⊥) }
{
    for order in 0..MOST_FRAMES_ORDER + 1 {
        if 1u64 << order == count {
            return Some(order);
        }
    }
    None
}

/// Returns the number of memory blocks in 2^26 frames, or the range's end if that is greater.
fn most_blocks(order: u32, range: Option<BlockRange>) -> u32
    requires { order ≤ 26 }
    ensures { result ≡ blocks_for order range }
{
    let count = 1u32 << (MOST_FRAMES_ORDER - order);
    match range {
        Some(range) => count.max(range.end),
        None => count,
    }
}
