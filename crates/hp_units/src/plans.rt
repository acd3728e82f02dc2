//! Plans, and the words of a page. In contracts, the value of each is a list.
ghost use Rattle.std.specs.Prelude.{◌≡◌, ◌↔◌, ◌<◌, None, IfOk, IsOk, IsTrue, length, slice_set};

use crate::Block;
use crate::rows::Wish;
use std::alloc::{AllocError, Global};
use std::marker::Model;

/// What a plan wishes for one memory block.
#[derive(Clone, Copy, PartialEq, Eq, Drop)]
pub struct Item {
    /// The memory block.
    pub block: Block,
    /// What the block becomes.
    pub wish: Wish,
}

/// What an operation is to make of memory blocks: the items, in the order in which they are
/// checked. A plan that names a block twice is refused. The items are boxed, so that events stay
/// small.
#[derive(Drop)]
pub struct Plan {
    items: Box<Vec<Item>>,
}

impl Model for Plan {
    ghost use Rattle.std.specs.Prelude.{List};
    ghost use Rattle.hp_units.specs.declared.plans.Item.{Item};

    ghost Value = { List Item };

    ghost view = { λ p. p.items.value.items };
}

impl PartialEq for Plan {
    ghost use Rattle.std.specs.Cmp.Lexicographic.{lists_per, pointwise};
    ghost use Rattle.std.specs.Cmp.Rules.{comparing};
    ghost use Rattle.std.proofs.Common.{rules};
    ghost use Rattle.hp_units.specs.contracts.plans.ItemPartialEq.TheImpl.{ghosts};

    ghost eq = { pointwise ghosts.eq };

    ghost laws = { lists_per (Prim.search (comparing, rules)) };

    fn eq(&self, other: &Plan) -> bool {
        self.items.as_slice() == other.items.as_slice()
    }
}

impl Plan {
    /// Creates a plan of these items. Allocates its box.
    pub fn new(alloc: Global, items: Vec<Item>) -> Result<Plan, AllocError>
        ensures { IfOk result (λ plan. plan ≡ items.items) }
    {
        let items = Box::new(alloc, items)?;
        Ok(Plan { items })
    }

    /// Returns the items in order.
    pub fn as_slice(&self) -> &[Item]
        ensures { result.now ≡ self.now }
    {
        self.items.as_slice()
    }

    /// Returns a copy.
    #[inline(never)]
    pub fn copy(&self, alloc: Global) -> Result<Plan, AllocError>
        ensures { IfOk result (λ plan. plan ≡ self.now) }
    {
        let items = Vec::from_slice(alloc, self.items.as_slice())?;
        Plan::new(alloc, items)
    }

    /// Returns whether both plans have the same items in the same order.
    pub fn same(&self, other: &Plan) -> bool
        ensures { IsTrue result ↔ (self.now ≡ other.now) }
    {
        *self == *other
    }
}

/// The 8-byte words of a page. They are boxed, so that tables of words stay small.
#[derive(Drop)]
pub struct Words {
    words: Box<Vec<u64>>,
}

impl Model for Words {
    ghost use Rattle.std.specs.Prelude.{List, ℕ};

    ghost Value = { List ℕ };

    ghost view = { λ p. p.words.value.items };
}

impl PartialEq for Words {
    ghost use Rattle.std.specs.Prelude.{nat_eq};
    ghost use Rattle.std.specs.Cmp.{partial_equiv_from_equiv};
    ghost use Rattle.std.specs.Cmp.Lexicographic.{nat_list_eq_equiv, pointwise};

    ghost eq = { pointwise nat_eq };

    ghost laws = { partial_equiv_from_equiv nat_list_eq_equiv };

    fn eq(&self, other: &Words) -> bool {
        self.words.as_slice() == other.words.as_slice()
    }
}

impl Words {
    /// Creates the words of a page from a vector. Allocates their box.
    pub fn new(alloc: Global, words: Vec<u64>) -> Result<Words, AllocError>
        ensures { IfOk result (λ page. page ≡ words.items) }
    {
        let words = Box::new(alloc, words)?;
        Ok(Words { words })
    }

    /// Returns the words in order.
    pub fn as_slice(&self) -> &[u64]
        ensures { result.now ≡ self.now }
    {
        self.words.as_slice()
    }

    /// Writes one word, counted from 0. The index must be below the number of words.
    pub fn set(&mut self, index: u32, value: u64)
        requires { index < length self.old }
        ensures { self.new ≡ slice_set self.old index value }
    {
        self.words[index as usize] = value;
    }

    /// Returns a copy.
    pub fn copy(&self, alloc: Global) -> Result<Words, AllocError>
        ensures { IfOk result (λ words. words ≡ self.now) }
    {
        let words = Vec::from_slice(alloc, self.words.as_slice())?;
        Words::new(alloc, words)
    }

    /// Returns a copy, if there are words. Without words, never fails.
    pub fn copy_if_any(alloc: Global, words: &Option<Words>) -> Result<Option<Words>, AllocError>
        ensures ok { IfOk result (λ copy. copy ≡ words.now) }
        ensures none { words.now ≡ None → IsOk result }
    {
        match words {
            Some(words) => Ok(Some(words.copy(alloc)?)),
            None => Ok(None),
        }
    }
}
