//! What changed of the words of pages.
ghost use Rattle.std.specs.Prelude.{ℕ, ◌≡◌, ◌≢◌, IfOk, OnOk, Some};
ghost use Rattle.hp_trace_json.specs.Changes.{NoOwnersWords, NoWords, OwnersWordsTold, PagesWordsTold, SetsWord, WordsTold};
ghost use Rattle.hp_trace_json.specs.Told.{AddsIf};
ghost use Rattle.hp_trace_json.specs.Parts.{word_of, words_in};

use hp_plain::Image;
use hp_units::{Owner, Page};
use std::alloc::{AllocError, Global};

/// A word of a page that changed; a page that is not mapped has words of 0.
#[derive(Clone, Copy, Drop)]
pub struct WordNow {
    /// The page's owner.
    pub owner: Owner,
    /// The page.
    pub page: Page,
    /// The word's index in the page.
    pub index: u32,
    /// The word now.
    pub word: u64,
}

/// Returns the words that differ between the two states, as they are now.
pub(crate) fn words_told(
    alloc: Global,
    was: &Option<Image>,
    now: &Image,
) -> Result<Vec<WordNow>, AllocError>
    ensures { IfOk result (λ told. WordsTold was.now now.now now.now.layout.owners told.items) }
{
    let mut told = Vec::new(alloc);
    for number in 0..now.layout().owners() {
        let of_owner = owners_words_told(alloc, was, now, Owner(number))?;
        told.extend_from_slice(of_owner.as_slice())?;
    }
    Ok(told)
}

/// Returns the words of an owner's pages that differ between the two states, as they are now.
fn owners_words_told(
    alloc: Global,
    was: &Option<Image>,
    now: &Image,
    owner: Owner,
) -> Result<Vec<WordNow>, AllocError>
    ensures told { IfOk result (λ told.
        OwnersWordsTold was.now now.now owner now.now.layout.pages told.items) }
    ensures others { IfOk result (λ told.
        (other : ℕ) → other ≢ owner → NoOwnersWords other told.items) }
{
    let mut told = Vec::new(alloc);
    for number in 0..now.layout().pages() {
        let page = Page(number);
        let old = words_in(was, owner, page);
        let new = words_of(now, owner, page);
        let of_page = pages_words_told(alloc, now.layout().words(), owner, page, old, new)?;
        told.extend_from_slice(of_page.as_slice())?;
    }
    Ok(told)
}

/// Returns the words of a page that differ between the two states, as they are now.
fn pages_words_told(
    alloc: Global,
    count: u32,
    owner: Owner,
    page: Page,
    was: &[u64],
    now: &[u64],
) -> Result<Vec<WordNow>, AllocError>
    ensures told { IfOk result (λ told. PagesWordsTold owner page was.now now.now count told.items) }
    ensures others { IfOk result
        (λ told. (o p : ℕ) → (o ≡ owner → p ≡ page → ⊥) → NoWords o p told.items) }
{
    let mut told = Vec::new(alloc);
    if was == now {
        return Ok(told);
    }
    for index in 0..count {
        tell_word(
            &mut told,
            owner,
            page,
            index,
            word_of(was, index),
            word_of(now, index),
        )?;
    }
    Ok(told)
}

/// Adds a word if it changed.
fn tell_word(
    told: &mut Vec<WordNow>,
    owner: Owner,
    page: Page,
    index: u32,
    was: u64,
    word: u64,
) -> Result<(), AllocError>
    ensures { OnOk result (AddsIf (λ x. (x.owner ≡ owner) × (x.page ≡ page) × (x.index ≡ index)) SetsWord was
        word told.old.items told.new.items) }
{
    if was != word {
        told.push(WordNow {
            owner,
            page,
            index,
            word,
        })?;
    }
    Ok(())
}

/// Returns a word of a page; 0 if there is none.
fn word_of(words: &[u64], index: u32) -> u64
    ensures { result ≡ word_of words.now index }
{
    words.get(index as usize).copied().unwrap_or(0)
}

/// Returns the words of a page; none if there is no state or the page is not mapped.
fn words_in(state: &Option<Image>, owner: Owner, page: Page) -> &[u64]
    ensures { result.now ≡ words_in state.now owner page }
{
    match state {
        Some(image) => words_of(image, owner, page),
        None => &[],
    }
}

/// Returns the words of a page; none if it is not mapped.
fn words_of(image: &Image, owner: Owner, page: Page) -> &[u64]
    ensures { result.now ≡ words_in (Some image.now) owner page }
{
    match image.words(owner, page) {
        Some(words) => words,
        None => &[],
    }
}
