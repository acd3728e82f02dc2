//! A row of memory blocks with texts.
ghost use Rattle.std.specs.Prelude.{◌≡◌, ◌↔◌, IsTrue, None};
ghost use Rattle.hp_map.specs.Rows.{row_with};

use crate::block_picture::{BlockPicture, are_equal, is_text};
use hp_units::{Frame, Text};
use std::marker::Model;

/// A page that moved: in which frame it was, and in which it is.
#[derive(Clone, Copy)]
pub struct Move {
    /// The frame where it was.
    pub from: Frame,
    /// The frame where it is.
    pub to: Frame,
}

/// A row: what was asked, the answer, the page that moved, and the memory blocks after it, by
/// rising number. A row of text alone has no answer, no move and no memory blocks.
#[derive(Drop)]
pub struct RowPicture {
    asked: Text,
    answer: Text,
    moved: Option<Move>,
    blocks: Vec<BlockPicture>,
}

impl Model for RowPicture {
    ghost use Rattle.hp_map.specs.Rows.{RowValue, row_with};

    ghost Value = { RowValue };

    ghost view = { λ r. row_with r.asked r.answer r.moved r.blocks.items };
}

impl RowPicture {
    /// Creates a row of these texts, this move and these memory blocks.
    pub fn new(
        asked: Text,
        answer: Text,
        moved: Option<Move>,
        blocks: Vec<BlockPicture>,
    ) -> RowPicture
        ensures { result ≡ row_with asked answer moved blocks.items }
    {
        RowPicture {
            asked,
            answer,
            moved,
            blocks,
        }
    }

    /// Returns what was asked.
    pub fn asked(&self) -> &str
        ensures { result.now ≡ self.now.asked }
    {
        self.asked.as_str()
    }

    /// Returns what was answered.
    pub fn answer(&self) -> &str
        ensures { result.now ≡ self.now.answer }
    {
        self.answer.as_str()
    }

    /// Returns which page moved, if one did.
    pub fn moved(&self) -> Option<Move>
        ensures { result ≡ self.now.moved }
    {
        self.moved
    }

    /// Returns its memory blocks.
    pub fn blocks(&self) -> &[BlockPicture]
        ensures { result.now ≡ self.now.blocks }
    {
        self.blocks.as_slice()
    }

    /// Returns whether the row has these texts and memory blocks, and no page moved.
    #[tactic(auto, using(crate::proofs::BlocksCompared::equal_rows))]
    pub(crate) fn is_unmoved(&self, asked: &str, answer: &str, blocks: &[BlockPicture]) -> bool
        ensures { IsTrue result ↔ (self.now ≡ row_with asked.now answer.now None blocks.now) }
    {
        if !is_text(self.asked(), asked) || !is_text(self.answer(), answer) {
            return false;
        }
        self.moved.is_none() && are_equal(self.blocks(), blocks)
    }
}
