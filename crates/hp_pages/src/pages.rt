//! The layer of the owners' pages and their words.
ghost use Rattle.std.specs.Prelude.{◌≡◌, ◌≢◌, ◌+◌, ◌<◌, ◌≤◌, [], IfOk, IfSome, IsSome, None, Some, find, is_some, length, option_map, slice_index, slice_set, unwrap_or};
ghost use Rattle.std.specs.List.{range_with_len};
ghost use Rattle.hp_units.specs.Arithmetic.{IsFrame, frame_count};
ghost use Rattle.hp_units.specs.Boot.{empty_pages};
ghost use Rattle.hp_units.specs.Memory.{entry_of, with_entry};
ghost use Rattle.hp_units.specs.Pages.{fresh_words, page_from};
ghost use Rattle.hp_tape.specs.Deltas.{buffer_of, page_frames_of, with_buffer};
ghost use Rattle.hp_tape.specs.Tapes.{HasRoom, NotesPages};
ghost use Rattle.hp_pages.specs.Pages.{ArePageFramesOf, AreSettled, change_at, map_frame, move_frame, prepared_for, unmap_frame, words_in, words_of, write_at, write_frame};
ghost use Rattle.hp_pages.specs.Places.{holders};

use crate::buffers::{Buffers, is_blank_beside, zeros};
use crate::page_table::Table;
use hp_tape::{Delta, FrameChange, Tape};
use hp_units::{Frame, Layout, Owner, Page, Words};
use std::alloc::{AllocError, Global};
use std::marker::Model;

mod back;

/// The owners' pages of a layout: each page's frame, and the words of each mapped frame.
///
/// A page whose words are all 0 has no buffer; one page of zeros serves all of these. Only `new`,
/// `copy` and `prepare` allocate.
pub struct Pages {
    layout: Layout,
    table: Table,
    buffers: Buffers,
    zeros: Words,
}

/// Keeps callers from proving again how each field is dropped.
impl Drop for Pages {
    fn drop(self) {
        let Pages {
            layout: _layout,
            table: _table,
            buffers: _buffers,
            zeros: _zeros,
        } = self;
    }
}

impl Model for Pages {
    ghost use Rattle.hp_pages.specs.Pages.{AreLayerOf, PagesValue};

    ghost Value = { PagesValue };

    ghost view = { λ p.
        record { layout = p.layout; pages = record { table = p.table.rows; buffers = p.buffers } } };

    ghost invariant = { λ p. AreLayerOf p.layout p.table p.buffers p.zeros };
}

/// What a write of a word needs, allocated before anything changes.
#[derive(Drop)]
pub enum PreparedWrite {
    /// A buffer of zeros for a frame without one.
    Fill(Words),
    /// The delta of the word.
    Change(Delta),
}

impl Pages {
    /// Creates the pages of a layout, none mapped.
    pub fn new(alloc: Global, layout: &Layout) -> Result<Pages, AllocError>
        ensures empty { IfOk result (λ p.
            p ≡ record { layout = layout.now; pages = page_frames_of layout.now (empty_pages layout.now) }) }
        ensures settled { IfOk result (λ p. AreSettled p.pages) }
    {
        let frames = layout.frames();
        Ok(Pages {
            layout: layout.copy(alloc)?,
            table: Table::empty(alloc, layout.owners(), layout.pages(), frames)?,
            buffers: Buffers::none(alloc, frames)?,
            zeros: zeros(alloc, layout)?,
        })
    }

    /// Returns a copy.
    pub fn copy(&self, alloc: Global) -> Result<Pages, AllocError>
        ensures { IfOk result (λ pages. pages ≡ self.now) }
    {
        let layout = self.layout.copy(alloc)?;
        let table = self.table.copy(alloc)?;
        let buffers = self.buffers.copy(alloc)?;
        let zeros = self.zeros.copy(alloc)?;
        Ok(Pages {
            layout,
            table,
            buffers,
            zeros,
        })
    }

    /// Returns the frame that holds a page, if it is mapped.
    pub fn frame_at(&self, owner: Owner, page: Page) -> Option<Frame>
        requires owner { owner < self.now.layout.owners }
        requires page { page < self.now.layout.pages }
        ensures frame { result ≡ entry_of self.now.pages.table owner page }
        ensures pages { ArePageFramesOf self.now.layout self.now.pages }
    {
        self.table.frame_at(owner, page)
    }

    /// Returns the page that a frame holds, if any. Takes constant time.
    pub fn page_at(&self, frame: Frame) -> Option<(Owner, Page)>
        requires frame { IsFrame self.now.layout frame }
        requires once { holders self.now.pages.table frame ≤ 1 }
        ensures page { result ≡ page_from 0 self.now.pages.table frame }
        ensures pages { ArePageFramesOf self.now.layout self.now.pages }
    {
        self.table.page_at(frame)
    }

    /// Returns the lowest mapped frame among the `count` frames from `first` on. Takes one step per
    /// 64 frames.
    pub fn lowest_mapped(&self, first: Frame, count: u32) -> Option<Frame>
        requires { first + count ≤ frame_count self.now.layout }
        ensures { result
            ≡ find (λ frame. is_some (page_from 0 self.now.pages.table frame)) (range_with_len first count) }
    {
        self.table.lowest(first.0, count)
    }

    /// Returns the words of a page, if it is mapped.
    pub fn words(&self, owner: Owner, page: Page) -> Option<&[u64]>
        requires owner { owner < self.now.layout.owners }
        requires page { page < self.now.layout.pages }
        ensures words { option_map (λ words. words.now) result
            ≡ words_of self.now.layout self.now.pages owner page }
        ensures size { IfSome result (λ words. length words.now ≡ self.now.layout.words) }
    {
        match self.frame_at(owner, page) {
            Some(frame) => Some(self.words_in(frame)),
            None => None,
        }
    }

    /// Returns the words in a frame: zeros if it has no buffer. These are the words of the page
    /// that it holds, if any.
    pub fn words_in(&self, frame: Frame) -> &[u64]
        requires { IsFrame self.now.layout frame }
        ensures words { result.now ≡ words_in self.now.layout self.now.pages frame }
        ensures size { length result.now ≡ self.now.layout.words }
    {
        match self.buffers.words(frame) {
            Some(words) => words,
            None => self.zeros.as_slice(),
        }
    }

    /// Returns one word of a mapped page. Words are counted from 0.
    pub fn read(&self, owner: Owner, page: Page, index: u32) -> u64
        requires owner { owner < self.now.layout.owners }
        requires page { page < self.now.layout.pages }
        requires index { index < self.now.layout.words }
        requires mapped { IsSome (entry_of self.now.pages.table owner page) }
        ensures { result
            ≡ slice_index (unwrap_or (words_of self.now.layout self.now.pages owner page) []) index }
    {
        let words = self.words(owner, page).unwrap();
        words[index as usize]
    }

    /// Maps an unmapped page to a frame that holds no page, with all words 0. Notes one delta.
    pub fn map(&mut self, owner: Owner, page: Page, frame: Frame, tape: &mut Tape)
        requires owner { owner < self.old.layout.owners }
        requires page { page < self.old.layout.pages }
        requires frame { IsFrame self.old.layout frame }
        requires unmapped { entry_of self.old.pages.table owner page ≡ None }
        requires free { holders self.old.pages.table frame ≡ 0 }
        requires settled { AreSettled self.old.pages }
        requires room { HasRoom tape.old 1 }
        ensures mapped { self.new.pages ≡ map_frame self.old.pages owner page frame }
        ensures layout { self.new.layout ≡ self.old.layout }
        ensures settled { AreSettled self.new.pages }
        ensures notes { NotesPages self.old.layout 1 tape.old tape.new self.new.pages self.old.pages }
    {
        self.table.set(owner, page, None, Some(frame));
        let change = FrameChange::Mapped(frame);
        tape.note(Delta::of_page(owner, page, change));
    }

    /// Unmaps a mapped page and returns its frame. The frame's buffer, if it has one, moves into
    /// the tape. Notes one or two deltas.
    pub fn unmap(&mut self, owner: Owner, page: Page, tape: &mut Tape) -> Frame
        requires owner { owner < self.old.layout.owners }
        requires page { page < self.old.layout.pages }
        requires mapped { IsSome (entry_of self.old.pages.table owner page) }
        requires settled { AreSettled self.old.pages }
        requires room { HasRoom tape.old 2 }
        ensures frame { entry_of self.old.pages.table owner page ≡ Some result }
        ensures unmapped { self.new.pages ≡ unmap_frame self.old.pages owner page }
        ensures layout { self.new.layout ≡ self.old.layout }
        ensures settled { AreSettled self.new.pages }
        ensures notes { NotesPages self.old.layout 2 tape.old tape.new self.new.pages self.old.pages }
    {
        let frame = self.frame_at(owner, page).unwrap();
        self.empty(frame, tape);
        self.clear_entry(owner, page, frame, tape);
        frame
    }

    /// Moves the frame's buffer, if it has one, into the tape.
    fn empty(&mut self, frame: Frame, tape: &mut Tape)
        requires frame { IsFrame self.old.layout frame }
        requires room { HasRoom tape.old 1 }
        ensures emptied { self.new.pages ≡ with_buffer self.old.pages frame None }
        ensures layout { self.new.layout ≡ self.old.layout }
        ensures notes { NotesPages self.old.layout 1 tape.old tape.new self.new.pages self.old.pages }
    {
        if let Some(words) = self.buffers.take(frame) {
            tape.note(Delta::Emptied { frame, words });
        }
    }

    /// Clears the entry of a page, which must be mapped to `frame`.
    fn clear_entry(&mut self, owner: Owner, page: Page, frame: Frame, tape: &mut Tape)
        requires owner { owner < self.old.layout.owners }
        requires page { page < self.old.layout.pages }
        requires frame { IsFrame self.old.layout frame }
        requires mapped { entry_of self.old.pages.table owner page ≡ Some frame }
        requires room { HasRoom tape.old 1 }
        ensures cleared { self.new.pages
            ≡ record self.old.pages { table = with_entry self.old.pages.table owner page None } }
        ensures layout { self.new.layout ≡ self.old.layout }
        ensures notes { NotesPages self.old.layout 1 tape.old tape.new self.new.pages self.old.pages }
    {
        self.table.set(owner, page, Some(frame), None);
        let change = FrameChange::Unmapped(frame);
        tape.note(Delta::of_page(owner, page, change));
    }

    /// Prepares a write of a word to a mapped page: allocates what `write` needs.
    ///
    /// If the page's frame has no buffer and the value is not 0, that is a buffer of zeros;
    /// otherwise it is the word's delta.
    pub fn prepare(
        &self,
        alloc: Global,
        owner: Owner,
        page: Page,
        index: u32,
        value: u64,
    ) -> Result<PreparedWrite, AllocError>
        requires owner { owner < self.now.layout.owners }
        requires page { page < self.now.layout.pages }
        requires index { index < self.now.layout.words }
        requires mapped { IsSome (entry_of self.now.pages.table owner page) }
        ensures { IfOk result (λ prepared.
            prepared ≡ prepared_for self.now.layout self.now.pages owner page index value) }
    {
        let frame = self.frame_at(owner, page).unwrap();
        if value != 0 && self.buffers.words(frame).is_none() {
            return Ok(PreparedWrite::Fill(zeros(alloc, &self.layout)?));
        }
        let was = self.words_in(frame)[index as usize];
        let change = Delta::of_word(alloc, frame, index, was, value)?;
        Ok(PreparedWrite::Change(change))
    }

    /// Writes one word of a mapped page. Words are counted from 0. Allocates nothing beyond what
    /// was prepared.
    ///
    /// Notes one delta, or none if a word of a frame without a buffer stays 0.
    pub fn write(
        &mut self,
        owner: Owner,
        page: Page,
        index: u32,
        value: u64,
        prepared: PreparedWrite,
        tape: &mut Tape,
    )
        requires owner { owner < self.old.layout.owners }
        requires page { page < self.old.layout.pages }
        requires index { index < self.old.layout.words }
        requires mapped { IsSome (entry_of self.old.pages.table owner page) }
        requires prepared { prepared
            ≡ prepared_for self.old.layout self.old.pages owner page index value }
        requires settled { AreSettled self.old.pages }
        requires room { HasRoom tape.old 1 }
        ensures written { self.new.pages ≡ write_frame self.old.layout self.old.pages owner page index value }
        ensures layout { self.new.layout ≡ self.old.layout }
        ensures settled { AreSettled self.new.pages }
        ensures notes { NotesPages self.old.layout 1 tape.old tape.new self.new.pages self.old.pages }
    {
        let frame = self.frame_at(owner, page).unwrap();
        match prepared {
            PreparedWrite::Fill(words) => self.fill(frame, words, index, value, tape),
            PreparedWrite::Change(change) => self.overwrite(frame, index, value, change, tape),
        }
    }

    /// Gives a frame without a buffer one of zeros, and writes its first word that is not 0.
    fn fill(&mut self, frame: Frame, words: Words, index: u32, value: u64, tape: &mut Tape)
        requires frame { IsFrame self.old.layout frame }
        requires index { index < self.old.layout.words }
        requires none { buffer_of self.old.pages frame ≡ None }
        requires words { words ≡ fresh_words self.old.layout }
        requires some { value ≢ 0 }
        requires room { HasRoom tape.old 1 }
        ensures written { self.new.pages ≡ write_at self.old.layout self.old.pages frame index value }
        ensures layout { self.new.layout ≡ self.old.layout }
        ensures notes { NotesPages self.old.layout 1 tape.old tape.new self.new.pages self.old.pages }
    {
        let mut buffer = words;
        buffer.set(index, value);
        self.buffers.put(frame, buffer);
        let index = index as u16;
        let now = value;
        tape.note(Delta::Filled { index, frame, now });
    }

    /// Writes a word of a frame that has a buffer. If all its words are then 0, the buffer moves
    /// onto the tape, with the old word. If the frame has no buffer, `value` must be 0, and nothing
    /// changes.
    fn overwrite(&mut self, frame: Frame, index: u32, value: u64, change: Delta, tape: &mut Tape)
        requires frame { IsFrame self.old.layout frame }
        requires index { index < self.old.layout.words }
        requires change { change ≡ change_at self.old.layout self.old.pages frame index value }
        requires none { buffer_of self.old.pages frame ≡ None → value ≡ 0 }
        requires room { HasRoom tape.old 1 }
        ensures written { self.new.pages ≡ write_at self.old.layout self.old.pages frame index value }
        ensures layout { self.new.layout ≡ self.old.layout }
        ensures notes { NotesPages self.old.layout 1 tape.old tape.new self.new.pages self.old.pages }
    {
        let Some(words) = self.buffers.words(frame) else {
            return;
        };
        if value == 0 && is_blank_beside(words, index) {
            self.empty(frame, tape);
        } else {
            self.set_word(frame, index, value, change, tape);
        }
    }

    /// Writes a word in a frame's buffer.
    fn set_word(&mut self, frame: Frame, index: u32, value: u64, change: Delta, tape: &mut Tape)
        requires frame { IsFrame self.old.layout frame }
        requires index { index < self.old.layout.words }
        requires some { IsSome (buffer_of self.old.pages frame) }
        requires change { change ≡ change_at self.old.layout self.old.pages frame index value }
        requires room { HasRoom tape.old 1 }
        ensures set { self.new.pages ≡ with_buffer self.old.pages frame
            (option_map (λ words. slice_set words index value) (buffer_of self.old.pages frame)) }
        ensures layout { self.new.layout ≡ self.old.layout }
        ensures notes { NotesPages self.old.layout 1 tape.old tape.new self.new.pages self.old.pages }
    {
        self.buffers.set_word(frame, index, value);
        tape.note(change);
    }

    /// Moves the page at one frame to another frame, which holds no page. The buffers are swapped,
    /// and no word is copied (Linux guide, Memory Hot(Un)Plug: migration). Notes two deltas.
    pub fn move_page(&mut self, from: Frame, to: Frame, tape: &mut Tape)
        requires from { IsFrame self.old.layout from }
        requires to { IsFrame self.old.layout to }
        requires mapped { IsSome (page_from 0 self.old.pages.table from) }
        requires free { holders self.old.pages.table to ≡ 0 }
        requires settled { AreSettled self.old.pages }
        requires room { HasRoom tape.old 2 }
        ensures moved { self.new.pages ≡ move_frame self.old.pages from to }
        ensures layout { self.new.layout ≡ self.old.layout }
        ensures settled { AreSettled self.new.pages }
        ensures notes { NotesPages self.old.layout 2 tape.old tape.new self.new.pages self.old.pages }
    {
        let (owner, page) = self.page_at(from).unwrap();
        self.buffers.swap(from, to);
        tape.note(Delta::Swap { a: from, b: to });
        self.table.set(owner, page, Some(from), Some(to));
        let change = FrameChange::Moved { was: from, now: to };
        tape.note(Delta::of_page(owner, page, change));
    }
}
