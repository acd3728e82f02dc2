//! Owners' pages: the frame that holds each page, and the page's words.
ghost use Rattle.std.specs.Prelude.{◌≡◌, ◌≢◌, MatchBool, ◌<◌, [], None, Some, IfOk, length, option_map, replicate, slice_index_or, slice_set};
ghost use Rattle.hp_units.specs.Boot.{empty_pages};
ghost use Rattle.hp_units.specs.Pages.{frame_at, map_page, words_at};

use hp_units::{Frame, Layout, Owner, Page, Words};
use std::alloc::{AllocError, Global};
use std::marker::Model;

/// The frames of one owner's pages.
#[derive(Drop)]
struct OwnerFrames {
    pages: Vec<Option<Frame>>,
}

impl Model for OwnerFrames {
    ghost use Rattle.std.specs.Prelude.{List, ℕ, Option};

    ghost Value = { List (Option ℕ) };

    ghost view = { λ o. o.pages.items };
}

impl PartialEq for OwnerFrames {
    ghost use Rattle.std.specs.Prelude.{nat_eq};
    ghost use Rattle.std.specs.Option.{option_eq};
    ghost use Rattle.std.specs.Cmp.{nat_eq_equiv, partial_equiv_from_equiv};
    ghost use Rattle.std.specs.Cmp.Lexicographic.{lists_per, options_equiv, pointwise};

    ghost eq = { pointwise (option_eq nat_eq) };

    ghost laws = { lists_per (partial_equiv_from_equiv (options_equiv nat_eq_equiv)) };

    fn eq(&self, other: &OwnerFrames) -> bool {
        self.pages == other.pages
    }
}

impl OwnerFrames {
    /// Creates the entries of `pages` pages, none mapped.
    fn empty(alloc: Global, pages: u32) -> Result<OwnerFrames, AllocError>
        ensures { IfOk result (λ frames. frames ≡ replicate pages None) }
    {
        let pages = vec![in alloc; None; pages as usize]?;
        Ok(OwnerFrames { pages })
    }

    /// Returns a copy.
    fn copy(&self, alloc: Global) -> Result<OwnerFrames, AllocError>
        ensures { IfOk result (λ frames. frames ≡ self.now) }
    {
        let pages = Vec::from_slice(alloc, self.pages.as_slice())?;
        Ok(OwnerFrames { pages })
    }

    /// Returns the frame of a page, if it is mapped.
    fn at(&self, page: Page) -> Option<Frame>
        ensures { result ≡ slice_index_or self.now page None }
    {
        self.pages.get(page.0 as usize).copied().flatten()
    }

    /// Sets the frame of a page.
    fn set(&mut self, page: Page, frame: Frame)
        requires { page < length self.old }
        ensures { self.new ≡ slice_set self.old page (Some frame) }
    {
        self.pages[page.0 as usize] = Some(frame);
    }
}

/// The words of one owner's pages.
#[derive(Drop)]
struct OwnerWords {
    pages: Vec<Option<Words>>,
}

impl Model for OwnerWords {
    ghost use Rattle.std.specs.Prelude.{List, ℕ, Option};

    ghost Value = { List (Option (List ℕ)) };

    ghost view = { λ o. o.pages.items };
}

impl PartialEq for OwnerWords {
    ghost use Rattle.std.specs.Prelude.{nat_eq};
    ghost use Rattle.std.specs.Option.{option_eq};
    ghost use Rattle.std.specs.Cmp.{partial_equiv_from_equiv};
    ghost use Rattle.std.specs.Cmp.Lexicographic.{lists_per, nat_list_eq_equiv, options_equiv, pointwise};

    ghost eq = { pointwise (option_eq (pointwise nat_eq)) };

    ghost laws = { lists_per (partial_equiv_from_equiv (options_equiv nat_list_eq_equiv)) };

    fn eq(&self, other: &OwnerWords) -> bool {
        self.pages == other.pages
    }
}

impl OwnerWords {
    /// Creates the entries of `pages` pages, none with words.
    fn empty(alloc: Global, pages: u32) -> Result<OwnerWords, AllocError>
        ensures { IfOk result (λ words. words ≡ replicate pages None) }
    {
        let mut empty = Vec::new(alloc);
        for _page in 0..pages {
            empty.push(None)?;
        }
        Ok(OwnerWords { pages: empty })
    }

    /// Returns a copy.
    fn copy(&self, alloc: Global) -> Result<OwnerWords, AllocError>
        ensures { IfOk result (λ words. words ≡ self.now) }
    {
        let mut pages = Vec::new(alloc);
        for words in &self.pages {
            pages.push(Words::copy_if_any(alloc, words)?)?;
        }
        Ok(OwnerWords { pages })
    }

    /// Returns the words of a page, if it is mapped.
    fn at(&self, page: Page) -> Option<&[u64]>
        ensures { option_map (λ words. words.now) result ≡ slice_index_or self.now page None }
    {
        match self.pages.get(page.0 as usize)? {
            Some(words) => Some(words.as_slice()),
            None => None,
        }
    }

    /// Sets the words of a page.
    fn set(&mut self, page: Page, words: Words)
        requires { page < length self.old }
        ensures { self.new ≡ slice_set self.old page (Some words) }
    {
        self.pages[page.0 as usize] = Some(words);
    }
}

/// The pages of all owners.
pub(crate) struct Pages {
    table: Vec<OwnerFrames>,
    contents: Vec<OwnerWords>,
}

/// Keeps callers from proving again how each field is dropped.
impl Drop for Pages {
    fn drop(self) {
        let Pages {
            table: _table,
            contents: _contents,
        } = self;
    }
}

impl Model for Pages {
    ghost use Rattle.hp_units.specs.Memory.{Pages};

    ghost Value = { Pages };

    ghost view = { λ p. record { table = p.table.items; contents = p.contents.items } };
}

impl Pages {
    /// Creates the pages of a layout's owners, none mapped.
    pub(crate) fn empty(alloc: Global, layout: &Layout) -> Result<Pages, AllocError>
        ensures { IfOk result (λ pages. pages ≡ empty_pages layout.now) }
    {
        let table = empty_table(alloc, layout.owners(), layout.pages())?;
        let contents = empty_contents(alloc, layout.owners(), layout.pages())?;
        Ok(Pages { table, contents })
    }

    /// Returns a copy.
    pub(crate) fn copy(&self, alloc: Global) -> Result<Pages, AllocError>
        ensures { IfOk result (λ pages. pages ≡ self.now) }
    {
        let table = copy_of_table(alloc, &self.table)?;
        let contents = copy_of_contents(alloc, &self.contents)?;
        Ok(Pages { table, contents })
    }

    /// Returns whether both have the same frames and the same words.
    pub(crate) fn same(&self, other: &Pages) -> bool
        ensures { MatchBool result (self.now ≡ other.now) (self.now ≢ other.now) }
    {
        same_table(&self.table, &other.table) && same_contents(&self.contents, &other.contents)
    }

    /// Returns the frame that holds an owner's page, or `None` if the page is not mapped or outside
    /// the layout.
    pub(crate) fn frame_at(&self, owner: Owner, page: Page) -> Option<Frame>
        ensures { result ≡ frame_at self.now owner page }
    {
        let frames = self.table.get(owner.0 as usize)?;
        frames.at(page)
    }

    /// Returns the words of an owner's page, or `None` if the page is not mapped or outside the
    /// layout.
    pub(crate) fn words_at(&self, owner: Owner, page: Page) -> Option<&[u64]>
        ensures { option_map (λ words. words.now) result ≡ words_at self.now owner page }
    {
        let words = self.contents.get(owner.0 as usize)?;
        words.at(page)
    }

    /// Maps an owner's page to a frame, with its words. The numbers must be in range.
    pub(crate) fn map(&mut self, owner: Owner, page: Page, frame: Frame, words: Words)
        requires owner { owner < length self.old.table }
        requires page { page < length (slice_index_or self.old.table owner []) }
        requires contents_owner { owner < length self.old.contents }
        requires contents_page { page < length (slice_index_or self.old.contents owner []) }
        ensures { self.new ≡ map_page self.old owner page frame words }
    {
        self.table[owner.0 as usize].set(page, frame);
        self.contents[owner.0 as usize].set(page, words);
    }
}

/// Returns a table for `owners` owners with `pages` pages each, none mapped.
fn empty_table(alloc: Global, owners: u32, pages: u32) -> Result<Vec<OwnerFrames>, AllocError>
    ensures { IfOk result (λ table. table.items ≡ replicate owners (replicate pages None)) }
{
    let mut table = Vec::new(alloc);
    for _owner in 0..owners {
        table.push(OwnerFrames::empty(alloc, pages)?)?;
    }
    Ok(table)
}

/// Returns entries for the words of `owners` owners with `pages` pages each, all without words.
fn empty_contents(alloc: Global, owners: u32, pages: u32) -> Result<Vec<OwnerWords>, AllocError>
    ensures { IfOk result (λ contents. contents.items ≡ replicate owners (replicate pages None)) }
{
    let mut contents = Vec::new(alloc);
    for _owner in 0..owners {
        contents.push(OwnerWords::empty(alloc, pages)?)?;
    }
    Ok(contents)
}

/// Returns a copy of the table.
fn copy_of_table(alloc: Global, table: &[OwnerFrames]) -> Result<Vec<OwnerFrames>, AllocError>
    ensures { IfOk result (λ copy. copy.items ≡ table.now) }
{
    let mut copy = Vec::new(alloc);
    for frames in table {
        copy.push(frames.copy(alloc)?)?;
    }
    Ok(copy)
}

/// Returns a copy of the contents.
fn copy_of_contents(alloc: Global, contents: &[OwnerWords]) -> Result<Vec<OwnerWords>, AllocError>
    ensures { IfOk result (λ copy. copy.items ≡ contents.now) }
{
    let mut copy = Vec::new(alloc);
    for words in contents {
        copy.push(words.copy(alloc)?)?;
    }
    Ok(copy)
}

/// Returns whether both tables are equal.
fn same_table(table: &[OwnerFrames], others: &[OwnerFrames]) -> bool
    ensures { MatchBool result (table.now ≡ others.now) (table.now ≢ others.now) }
{
    table == others
}

/// Returns whether both contents are equal.
fn same_contents(contents: &[OwnerWords], others: &[OwnerWords]) -> bool
    ensures { MatchBool result (contents.now ≡ others.now) (contents.now ≢ others.now) }
{
    contents == others
}
