//! How a state differs from the one before it.
ghost use Rattle.std.specs.Prelude.{◌≡◌, IfOk};
ghost use Rattle.hp_trace_json.specs.Changes.{IsAutoTold, IsChange};
ghost use Rattle.hp_trace_json.specs.Parts.{auto_in};

use crate::blocks::{BlockNow, PageblockNow, blocks_told, pageblocks_told};
use crate::frames::{KernelNow, PageNow, kernel_told, pages_told};
use crate::lists::{CpuListNow, FreeListNow, cpu_lists_told, free_lists_told};
use crate::words::{WordNow, words_told};
use hp_plain::Image;
use hp_units::Auto;
use std::alloc::{AllocError, Global};
use std::marker::Model;

/// How a state differs from the one before it, in parts; each has what changed, and nothing else.
pub struct StateChange {
    /// The memory blocks.
    pub blocks: Vec<BlockNow>,
    /// The pageblocks, by their mobility.
    pub pageblocks: Vec<PageblockNow>,
    /// The free lists.
    pub free_lists: Vec<FreeListNow>,
    /// The processors' lists.
    pub cpu_lists: Vec<CpuListNow>,
    /// The kernel's blocks.
    pub kernel: Vec<KernelNow>,
    /// The owners' pages.
    pub pages: Vec<PageNow>,
    /// The words of pages.
    pub words: Vec<WordNow>,
    /// What a memory block that is added becomes, if that changed.
    pub auto: Option<Auto>,
}

/// Keeps callers from proving again how each field is dropped.
impl Drop for StateChange {
    fn drop(self) {
        let StateChange {
            blocks: _blocks,
            pageblocks: _pageblocks,
            free_lists: _free_lists,
            cpu_lists: _cpu_lists,
            kernel: _kernel,
            pages: _pages,
            words: _words,
            auto: _auto,
        } = self;
    }
}

impl Model for StateChange {
    ghost use Rattle.hp_trace_json.specs.Changes.{ChangeValue};

    ghost Value = { ChangeValue };

    ghost view = { λ c. record {
      blocks = c.blocks.items;
      pageblocks = c.pageblocks.items;
      free_lists = c.free_lists.items;
      cpu_lists = c.cpu_lists.items;
      kernel = c.kernel.items;
      pages = c.pages.items;
      words = c.words.items;
      auto = c.auto;
    } };
}

/// Returns how a state differs from the one before it, or from an empty state if there was none.
pub fn change_between(
    alloc: Global,
    was: &Option<Image>,
    now: &Image,
) -> Result<StateChange, AllocError>
    ensures { IfOk result (IsChange was.now now.now) }
{
    let blocks = blocks_told(alloc, was, now)?;
    let pageblocks = pageblocks_told(alloc, was, now)?;
    let free_lists = free_lists_told(alloc, was, now)?;
    let cpu_lists = cpu_lists_told(alloc, was, now)?;
    let kernel = kernel_told(alloc, was, now)?;
    let pages = pages_told(alloc, was, now)?;
    let words = words_told(alloc, was, now)?;
    let auto = auto_told(auto_in(was), now.auto());
    Ok(StateChange {
        blocks,
        pageblocks,
        free_lists,
        cpu_lists,
        kernel,
        pages,
        words,
        auto,
    })
}

/// Returns what an added memory block becomes, if that changed.
fn auto_told(was: Option<Auto>, now: Auto) -> Option<Auto>
    ensures { IsAutoTold was now result }
{
    if was == Some(now) { None } else { Some(now) }
}

/// Returns what an added memory block becomes, if there is a state.
fn auto_in(state: &Option<Image>) -> Option<Auto>
    ensures { result ≡ auto_in state.now }
{
    match state {
        Some(image) => Some(image.auto()),
        None => None,
    }
}
