//! The parts of a search that were read so far from a text.
ghost use Rattle.std.specs.Prelude.{◌≡◌, ◌++◌, ◌∷◌, ◌^◌, ◌<◌, ◌↔◌, [], IfOk, IsTrue, OnErr, OnOk, length};

use hp_schedules::Ending;
use std::alloc::{AllocError, Global};
use std::marker::Model;
use std::mem::replace;

/// A part: its number, from 1, and the ends that its lines name.
#[derive(Drop)]
pub struct PartEnds {
    number: u32,
    ends: Vec<Ending>,
}

impl Model for PartEnds {
    ghost use Rattle.hp_parts.specs.Gathering.{PartEndsValue};

    ghost Value = { PartEndsValue };

    ghost view = { λ p. record { number = p.number; ends = p.ends.items } };
}

impl PartEnds {
    /// Returns the part's number, from 1.
    pub fn number(&self) -> u32
        ensures { result ≡ self.now.number }
    {
        self.number
    }

    /// Returns the part's ends without copying them.
    pub fn into_ends(self) -> Vec<Ending>
        ensures { result.items ≡ self.ends }
    {
        let PartEnds { number: _, ends } = self;
        ends
    }
}

/// The parts of a text while it is read line by line. The head of the last part names how many ends
/// that part has; some of them may still be to come.
#[derive(Drop)]
pub struct Gathering {
    done: Vec<PartEnds>,
    number: u32,
    named: u64,
    ends: Vec<Ending>,
}

impl Model for Gathering {
    ghost use Rattle.hp_parts.specs.Gathering.{GatheringValue};

    ghost Value = { GatheringValue };

    ghost view = { λ g. record {
      done = g.done.items;
      last = record { number = g.number; ends = g.ends.items };
      named = g.named;
    } };
}

impl Gathering {
    /// Creates the value when only the head of part `number` has been read. This head gives `named`
    /// as the part's number of ends.
    pub fn new(alloc: Global, number: u32, named: u64) -> Gathering
        ensures { result ≡ record {
          done = [];
          last = record { number = number; ends = [] };
          named = named;
        } }
    {
        Gathering {
            done: Vec::new(alloc),
            number,
            named,
            ends: Vec::new(alloc),
        }
    }

    /// Returns the number of the last part.
    pub fn number(&self) -> u32
        ensures { result ≡ self.now.last.number }
    {
        self.number
    }

    /// Returns how many ends of the last part have been read.
    pub fn count(&self) -> usize
        ensures is { result ≡ length self.now.last.ends }
        ensures few { result < 2 ^ 63 }
    {
        self.ends.len()
    }

    /// Returns whether the last part has as many ends as its head names.
    pub fn is_whole(&self) -> bool
        ensures { IsTrue result ↔ (self.now.named ≡ length self.now.last.ends) }
    {
        self.named == self.ends.len() as u64
    }

    /// Begins part `number`, whose head gives `named` as its number of ends. If
    /// this fails, nothing changes.
    pub fn begin(&mut self, alloc: Global, number: u32, named: u64) -> Result<(), AllocError>
        ensures ok { OnOk result (self.new ≡ record {
          done = self.old.done ++ self.old.last ∷ [];
          last = record { number = number; ends = [] };
          named = named;
        }) }
        ensures err { OnErr result (self.new ≡ self.old) }
    {
        self.done.reserve(1)?;
        let ends = replace(&mut self.ends, Vec::new(alloc));
        let number = replace(&mut self.number, number);
        self.named = named;
        self.done.push_reserved(PartEnds { number, ends });
        Ok(())
    }

    /// Adds an end to the last part. If this fails, nothing changes.
    pub fn push(&mut self, end: Ending) -> Result<(), AllocError>
        ensures ok { OnOk result (self.new ≡ record {
          done = self.old.done;
          last = record { number = self.old.last.number; ends = self.old.last.ends ++ end ∷ [] };
          named = self.old.named;
        }) }
        ensures err { OnErr result (self.new ≡ self.old) }
    {
        self.ends.reserve(1)?;
        self.ends.push_reserved(end);
        Ok(())
    }

    /// Returns all parts.
    pub fn into_parts(self) -> Result<Vec<PartEnds>, AllocError>
        ensures { IfOk result (λ parts. parts.items ≡ self.done ++ self.last ∷ []) }
    {
        let Gathering {
            mut done,
            number,
            named: _,
            ends,
        } = self;
        done.reserve(1)?;
        done.push_reserved(PartEnds { number, ends });
        Ok(done)
    }
}
