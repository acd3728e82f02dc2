//! The events of owners' pages. The caller's processor is in the layout.
ghost use Rattle.std.specs.Prelude.{◌≡◌, ◌<◌, List, IfOk, OnErr};
ghost use Rattle.hp_units.specs.declared.events.Event.TheVariants.{Map, Read, Unmap, Write};
ghost use Rattle.hp_tape.specs.declared.deltas.Delta.{Delta};
ghost use Rattle.hp_plain.specs.Asked.{asked};
ghost use Rattle.hp_units.specs.Choices.{first_some};
ghost use Rattle.hp_units.specs.Refusals.{word_refusals};
ghost use Rattle.hp_layers.specs.Layers.{AreOfOneLayout, ArePlaced, IsAnswered, state_of};

use super::Layers;
use hp_tape::Tape;
use hp_units::{Cpu, Order, Owner, Page, Refusal, Reply};
use std::alloc::{AllocError, Global};

impl Layers {
    /// Maps a page to a frame, with all words 0. The zeros take no memory.
    #[tactic(auto, using(crate::proofs::Answers::refused, crate::proofs::Answers::refused_none))]
    pub(crate) fn map(
        &mut self,
        cpu: Cpu,
        owner: Owner,
        page: Page,
        tape: &mut Tape,
    ) -> Result<Reply, AllocError>
        requires cpu { cpu < self.old.layout.cpus }
        requires placed { ArePlaced self.old }
        ensures ok { IfOk result (IsAnswered self.old (Map owner page)
            (asked self.old.layout (state_of self.old) cpu (Map owner page)) self.new tape.old.deltas
            tape.new.deltas) }
        ensures err { OnErr result (self.new ≡ self.old) }
        ensures kept { OnErr result (tape.new ≡ tape.old) }
    {
        if owner.0 >= self.layout.owners() {
            return Ok(Reply::Refused(Refusal::NoOwner));
        }
        if page.0 >= self.layout.pages() {
            return Ok(Reply::Refused(Refusal::NoPage));
        }
        if self.pages.frame_at(owner, page).is_some() {
            return Ok(Reply::Refused(Refusal::AlreadyMapped));
        }
        let room = self.frames.page_frame_room(&self.layout, cpu);
        tape.reserve(room + 1)?;
        match self.frames.page_frame(cpu, tape) {
            Some(frame) => {
                self.pages.map(owner, page, frame, tape);
                Ok(Reply::Done)
            }
            None => Ok(Reply::Refused(Refusal::NoFrame)),
        }
    }

    /// Unmaps a page and gives its frame back.
    #[tactic(auto, using(crate::proofs::Answers::refused))]
    pub(crate) fn unmap(
        &mut self,
        cpu: Cpu,
        owner: Owner,
        page: Page,
        tape: &mut Tape,
    ) -> Result<Reply, AllocError>
        requires cpu { cpu < self.old.layout.cpus }
        requires placed { ArePlaced self.old }
        ensures ok { IfOk result (IsAnswered self.old (Unmap owner page)
            (asked self.old.layout (state_of self.old) cpu (Unmap owner page)) self.new tape.old.deltas
            tape.new.deltas) }
        ensures err { OnErr result (self.new ≡ self.old) }
        ensures kept { OnErr result (tape.new ≡ tape.old) }
    {
        if owner.0 >= self.layout.owners() {
            return Ok(Reply::Refused(Refusal::NoOwner));
        }
        if page.0 >= self.layout.pages() {
            return Ok(Reply::Refused(Refusal::NoPage));
        }
        let Some(frame) = self.pages.frame_at(owner, page) else {
            return Ok(Reply::Refused(Refusal::NotMapped));
        };
        let zone = self.zone_of(frame);
        let order = Order(0);
        let room = self
            .frames
            .give_back_room(&self.layout, cpu, zone, frame, order);
        tape.reserve(room + 2)?;
        let _ = self.pages.unmap(owner, page, tape);
        self.frames.give_back(cpu, zone, frame, order, tape);
        Ok(Reply::Done)
    }

    /// Writes one word of a mapped page. A word that is not 0 allocates a buffer if all words of
    /// the page are 0. Any other write allocates for its delta if the old or the new word is 2^32
    /// or more.
    pub(crate) fn write(
        &mut self,
        alloc: Global,
        owner: Owner,
        page: Page,
        index: u32,
        value: u64,
        tape: &mut Tape,
    ) -> Result<Reply, AllocError>
        requires placed { ArePlaced self.old }
        ensures ok { IfOk result (IsAnswered self.old (Write owner page index value)
            (asked self.old.layout (state_of self.old) 0 (Write owner page index value)) self.new
            tape.old.deltas tape.new.deltas) }
        ensures err { OnErr result (self.new ≡ self.old) }
        ensures kept { OnErr result (tape.new ≡ tape.old) }
    {
        if let Some(refusal) = self.word_refusal(owner, page, index) {
            return Ok(Reply::Refused(refusal));
        }
        let prepared = self.pages.prepare(alloc, owner, page, index, value)?;
        tape.reserve(1)?;
        self.pages.write(owner, page, index, value, prepared, tape);
        Ok(Reply::Done)
    }

    /// Reads one word of a mapped page.
    pub(crate) fn read(&self, owner: Owner, page: Page, index: u32) -> Reply
        requires placed { ArePlaced self.now }
        ensures { (deltas : List Delta)
            → IsAnswered self.now (Read owner page index)
            (asked self.now.layout (state_of self.now) 0 (Read owner page index)) self.now deltas deltas
            result }
    {
        match self.word_refusal(owner, page, index) {
            Some(refusal) => Reply::Refused(refusal),
            None => Reply::Word(self.pages.read(owner, page, index)),
        }
    }

    /// Returns why a word cannot be read or written, or `None` if it can.
    #[inline(always)]
    fn word_refusal(&self, owner: Owner, page: Page, index: u32) -> Option<Refusal>
        requires one { AreOfOneLayout self.now }
        ensures { result
            ≡ first_some (word_refusals self.now.layout (state_of self.now) owner page index) }
    {
        if owner.0 >= self.layout.owners() {
            return Some(Refusal::NoOwner);
        }
        if page.0 >= self.layout.pages() {
            return Some(Refusal::NoPage);
        }
        if index >= self.layout.words() {
            return Some(Refusal::NoWord);
        }
        match self.pages.frame_at(owner, page) {
            Some(_frame) => None,
            None => Some(Refusal::NotMapped),
        }
    }
}
