//! The places walked so far, with the counts that are reused at equivalent places.
ghost use Rattle.std.specs.Prelude.{◌≡◌, ◌++◌, ◌∷◌, [], IfOk, IfSome, List, None, OnOk, Some, cond, length, replicate, true};
ghost use Rattle.hp_units.specs.History.{effect_of};
ghost use Rattle.hp_units.specs.declared.replies.Record.{Record as NewRecord};
ghost use Rattle.hp_schedules.specs.Alike.{leaves_steps};
ghost use Rattle.hp_schedules.specs.Cursors.{AreCursors};
ghost use Rattle.hp_schedules.specs.Schedules.{Setting};
ghost use Rattle.hp_states.specs.Seen.{AreSamePlaces, IsKeptMore, IsMemo, IsOnWay, IsRowAmong};
ghost use Rattle.hp_states.specs.Standing.{AreSameNumbers, IsKeyCode, KeepMeanings};
ghost use Rattle.hp_states.specs.Places.{IsPlace, memory_at};
ghost use Rattle.hp_schedules.specs.declared.tally.Ending.{Ending};

use crate::code::Code;
use crate::rows::Rows;
use crate::standing::Standing;
use crate::texts::Texts;
use hp_memory::Memory;
use hp_schedules::{Positions, Share};
use hp_units::{Cpu, Record};
use std::alloc::{AllocError, Global};
use std::marker::Model;

/// The places walked so far: the key of each, and how many schedules continue from it to each end.
///
/// The code of a place's key and its row of shares have the same index. `key` is the code of the
/// key written last.
pub struct Memo {
    is_on: bool,
    keys: Texts,
    rows: Rows,
    key: Code,
    standing: Standing,
    /// How many bytes the shares take.
    size: u64,
}

impl Model for Memo {
    ghost use Rattle.hp_states.specs.Seen.{MemoValue};

    ghost Value = { MemoValue };

    ghost view = { λ m. record {
      is_on = m.is_on;
      keys = m.keys;
      rows = m.rows;
      key = m.key;
      standing = m.standing;
    } };
}

/// Keeps callers from proving again how each field is dropped.
impl Drop for Memo {
    fn drop(self) {
        let Memo {
            is_on: _,
            keys: _keys,
            rows: _rows,
            key: _,
            standing: _standing,
            size: _,
        } = self;
    }
}

impl Memo {
    /// Creates an empty memo for a walk at the beginning of the scripts. With `is_on` false, no
    /// place is ever stored.
    ///
    /// `is_closed` states that no Cancel can drop a step that led there.
    pub fn start(
        alloc: Global,
        is_on: bool,
        processors: usize,
        is_closed: bool,
    ) -> Result<Memo, AllocError>
        ensures on { IfOk result (λ memo. memo.is_on ≡ is_on) }
        ensures rows { IfOk result (λ memo. (memo.keys ≡ []) × (memo.rows ≡ [])) }
        ensures standing { IfOk result (λ memo. memo.standing ≡ record {
          stops = record {
            codes = [];
            lists = [] ∷ [];
            here = record { openings = cond is_closed (Some 0) None; state = None };
            before = [];
          };
          exchanged = record { chains = [] ∷ []; here = replicate processors 0 };
        }) }
    {
        let standing = Standing::start(alloc, processors, is_closed)?;
        Ok(Memo {
            is_on,
            keys: Texts::new(alloc),
            rows: Rows::new(alloc),
            key: Code::new(alloc),
            standing,
            size: 0,
        })
    }

    /// Moves to the place after the call `latest`.
    pub fn go_on(&mut self, alloc: Global, latest: &Record) -> Result<(), AllocError>
        requires { (g : Setting) × (news : List NewRecord) × IsOnWay g news self.old }
        ensures kept { KeepMeanings self.old.standing self.new.standing }
        ensures same { AreSamePlaces self.old self.new }
        ensures ok { OnOk result ((g : Setting) (news : List NewRecord) → IsOnWay g news self.old
            → (self.old.is_on ≡ true → leaves_steps (effect_of latest.now.event) ≡ true)
            → IsOnWay g (news ++ latest.now ∷ []) self.new) }
    {
        if !self.is_on {
            return Ok(());
        }
        self.standing.go_on(alloc, latest)
    }

    /// Takes back the latest call of processor `cpu`.
    pub fn go_back(&mut self, cpu: Cpu)
        ensures same { AreSamePlaces self.old self.new
            × AreSameNumbers self.old.standing self.new.standing }
        ensures back { (g : Setting) (news : List NewRecord) (r : NewRecord) → r.cpu ≡ cpu
            → IsOnWay g (news ++ r ∷ []) self.old → IsOnWay g news self.new }
    {
        if self.is_on {
            self.standing.go_back(cpu);
        }
    }

    /// Numbers the state at the place, writes the place's key, and returns whether it has one.
    ///
    /// It has none if `is_on` is false, or if it is unknown which operations a Cancel can take
    /// back.
    pub(crate) fn come_to(
        &mut self,
        alloc: Global,
        memory: &Memory,
        positions: &Positions,
        processors: u32,
    ) -> Result<bool, AllocError>
        requires processors { processors ≡ length positions.now.cursors.items }
        requires way { (g : Setting) × (news : List NewRecord)
            × IsPlace g news memory.now positions.now.cursors.items × IsOnWay g news self.old }
        ensures kept { KeepMeanings self.old.standing self.new.standing }
        ensures same { AreSamePlaces self.old self.new }
        ensures memo { (g : Setting) (ends : List Ending) → IsMemo g ends self.old → IsMemo g ends self.new }
        ensures way { (g : Setting) (news : List NewRecord) → memory.now ≡ memory_at g news
            → IsOnWay g news self.old → IsOnWay g news self.new }
        ensures on { IfOk result (λ has. has ≡ true → self.old.is_on ≡ true) }
        ensures ok { IfOk result (λ has. has ≡ true → (g : Setting) (news : List NewRecord)
            → IsPlace g news memory.now positions.now.cursors.items → IsOnWay g news self.old
            → IsKeyCode g self.new.standing news self.new.key) }
    {
        if !self.is_on {
            return Ok(false);
        }
        self.standing.number_state(alloc, memory)?;
        self.standing.key(positions, processors, &mut self.key)
    }

    /// Returns about how many bytes the states and places take.
    pub fn bytes(&self) -> u64 {
        let places = self.keys.size().saturating_add(self.size);
        self.standing.size().saturating_add(places)
    }

    /// Writes the key of the place where the walk is, and returns whether it has one. It has none
    /// if `come_to` has not numbered the state there, or for a reason given at `come_to`.
    pub(crate) fn write_key(
        &mut self,
        positions: &Positions,
        processors: u32,
    ) -> Result<bool, AllocError>
        requires processors { processors ≡ length positions.now.cursors.items }
        requires way { (g : Setting) × (news : List NewRecord)
            × AreCursors g news positions.now.cursors.items × IsOnWay g news self.old }
        ensures same { AreSamePlaces self.old self.new × (self.new.standing ≡ self.old.standing) }
        ensures ok { IfOk result (λ has. has ≡ true → (g : Setting) (news : List NewRecord)
            → AreCursors g news positions.now.cursors.items → IsOnWay g news self.old
            → IsKeyCode g self.new.standing news self.new.key) }
    {
        if !self.is_on {
            return Ok(false);
        }
        self.standing.key(positions, processors, &mut self.key)
    }

    /// Returns the shares of a place with the key written last, if it is the newest place with its
    /// hash.
    pub(crate) fn shares(&self) -> Option<&[Share]>
        ensures { IfSome result (λ shares. IsRowAmong self.now.keys self.now.rows self.now.key shares.now) }
    {
        let Some(place) = self.keys.find(self.key.bytes()) else {
            return None;
        };
        self.rows.row(place)
    }

    /// Stores a place under the key written last, with these shares.
    pub(crate) fn keep(&mut self, shares: &[Share]) -> Result<(), AllocError>
        ensures same { (self.new.is_on ≡ self.old.is_on) × (self.new.standing ≡ self.old.standing) }
        ensures ok { OnOk result (IsKeptMore shares.now self.old self.new) }
    {
        self.size = self
            .size
            .saturating_add((shares.len() as u64).saturating_mul(16));
        self.rows.push(shares)?;
        let _place = self.keys.add(self.key.bytes())?;
        Ok(())
    }
}
