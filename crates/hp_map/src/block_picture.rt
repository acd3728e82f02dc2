//! A memory block as it is drawn.
ghost use Rattle.std.specs.Prelude.{◌≡◌, ◌↔◌, IsTrue};
ghost use Rattle.hp_map.specs.BlockPictures.{block_with, is_same};

use crate::counts::{write_counts, write_order_counts};
use hp_units::Text;
use std::alloc::AllocError;
use std::marker::Model;

/// A free block among the cells of a memory block.
#[derive(Clone, Copy, PartialEq, Eq)]
pub struct FreeBlock {
    /// The number of characters of the cells before its first frame, bars included.
    pub at: u32,
    /// Its order: it has 2^order frames, side by side.
    pub order: u32,
    /// Whether it is isolated.
    pub is_isolated: bool,
}

/// A block of the kernel among the cells of a memory block.
#[derive(Clone, Copy, PartialEq, Eq)]
pub struct KernelBlock {
    /// The number of characters of the cells before its first frame, bars included.
    pub at: u32,
    /// Its order: it has 2^order frames, side by side.
    pub order: u32,
}

/// A memory block as it is drawn:
/// - a head such as `2:M>off`,
/// - its cells, a character per frame with a bar between pageblocks, such as `a1|::`,
/// - the cells with each free block drawn by its order, such as `a1|{}`, if orders are shown,
/// - its free blocks and the kernel's,
/// - a letter per frame for the mobility of its pageblock, such as `MM|UU`.
#[derive(Drop)]
pub struct BlockPicture {
    head: Text,
    cells: Text,
    ordered: Text,
    free: Vec<FreeBlock>,
    kernel: Vec<KernelBlock>,
    kinds: Text,
}

impl Model for BlockPicture {
    ghost use Rattle.hp_map.specs.BlockPictures.{BlockValue, block_with};

    ghost Value = { BlockValue };

    ghost view = { λ b. block_with b.head b.cells b.ordered b.free.items b.kernel.items b.kinds };
}

impl BlockPicture {
    /// Creates a picture from these parts.
    pub fn new(
        head: Text,
        cells: Text,
        ordered: Text,
        free: Vec<FreeBlock>,
        kernel: Vec<KernelBlock>,
        kinds: Text,
    ) -> BlockPicture
        ensures { result ≡ block_with head cells ordered free.items kernel.items kinds }
    {
        BlockPicture {
            head,
            cells,
            ordered,
            free,
            kernel,
            kinds,
        }
    }

    /// Returns the text before its cells.
    pub fn head(&self) -> &str
        ensures { result.now ≡ self.now.head }
    {
        self.head.as_str()
    }

    /// Returns its cells.
    pub fn cells(&self) -> &str
        ensures { result.now ≡ self.now.cells }
    {
        self.cells.as_str()
    }

    /// Returns its cells with each free block drawn by its order; empty if orders are not shown.
    pub fn ordered(&self) -> &str
        ensures { result.now ≡ self.now.ordered }
    {
        self.ordered.as_str()
    }

    /// Returns the free blocks that start in it, by rising frames.
    pub fn free(&self) -> &[FreeBlock]
        ensures { result.now ≡ self.now.free }
    {
        self.free.as_slice()
    }

    /// Returns the kernel's blocks that start in it, by rising frames.
    pub fn kernel(&self) -> &[KernelBlock]
        ensures { result.now ≡ self.now.kernel }
    {
        self.kernel.as_slice()
    }

    /// Returns a letter for each of its frames, by the mobility of its pageblock: `M` for movable,
    /// `U` for unmovable. Letters are spaces if the memory block is not in use. A bar is between
    /// pageblocks.
    pub fn kinds(&self) -> &str
        ensures { result.now ≡ self.now.kinds }
    {
        self.kinds.as_str()
    }

    /// Returns whether both are drawn by the same text, with orders and without.
    pub fn is_same(&self, other: &BlockPicture) -> bool
        ensures { result ≡ is_same self.now other.now }
    {
        self.head == other.head && self.cells == other.cells && self.ordered == other.ordered
    }

    /// Returns whether two memory blocks are equal in all parts.
    #[tactic(auto, using(crate::proofs::BlocksCompared::equal_parts))]
    fn is_equal(&self, other: &BlockPicture) -> bool
        ensures { IsTrue result ↔ (self.now ≡ other.now) }
    {
        if !is_text(self.head(), other.head()) || !is_text(self.cells(), other.cells()) {
            return false;
        }
        if !is_text(self.ordered(), other.ordered()) || !is_text(self.kinds(), other.kinds()) {
            return false;
        }
        are_free(self.free(), other.free()) && are_kernel(self.kernel(), other.kernel())
    }

    /// Writes the memory block, such as `2:M>off[a1|::]`, or `2:M>off[a1|{}]` by orders.
    pub fn write(&self, out: &mut String, shows_orders: bool) -> Result<(), AllocError> {
        let cells = if shows_orders {
            self.ordered()
        } else {
            self.cells()
        };
        let head = self.head();
        write!(out, "{head}[{cells}]")
    }

    /// Writes the memory block with counts in place of cells: its frames per character, such as
    /// `2:M>off[4: :*2 1*1 a*1]`. With orders, also writes its free blocks per order, such as
    /// `2:M>off[4: :*2 1*1 a*1 {1}*1]`.
    pub fn write_counted(&self, out: &mut String, shows_orders: bool) -> Result<(), AllocError> {
        out.push_str(self.head())?;
        out.push_str("[")?;
        write_counts(out, self.cells())?;
        if shows_orders {
            write_order_counts(out, self.free())?;
        }
        out.push_str("]")
    }
}

/// Returns whether memory blocks are equal to others, one by one, in all parts.
pub(crate) fn are_equal(some: &[BlockPicture], others: &[BlockPicture]) -> bool
    ensures { IsTrue result ↔ (some.now ≡ others.now) }
{
    let mut left = others;
    for block in some {
        let [other, rest @ ..] = left else {
            return false;
        };
        if !block.is_equal(other) {
            return false;
        }
        left = rest;
    }
    left.is_empty()
}

/// Returns whether two texts are equal.
pub(crate) fn is_text(some: &str, other: &str) -> bool
    ensures { IsTrue result ↔ (some.now ≡ other.now) }
{
    some == other
}

/// Returns whether free blocks are equal, one by one.
fn are_free(some: &[FreeBlock], others: &[FreeBlock]) -> bool
    ensures { IsTrue result ↔ (some.now ≡ others.now) }
{
    *some == *others
}

/// Returns whether the kernel's blocks are equal, one by one.
fn are_kernel(some: &[KernelBlock], others: &[KernelBlock]) -> bool
    ensures { IsTrue result ↔ (some.now ≡ others.now) }
{
    *some == *others
}
