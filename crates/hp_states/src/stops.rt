//! The places on a walk's path, as two numbers each: one for the state, and one for the operations
//! that a Cancel can take back. Equal numbers of one kind mean the same.
ghost use Rattle.std.specs.Prelude.{◌≡◌, ◌<◌, ℕ, ◌++◌, ◌∷◌, [], IfOk, IfSome, List, None, OnOk, Some, cond, length, true};
ghost use Rattle.hp_units.specs.History.{effect_of};
ghost use Rattle.hp_units.specs.declared.replies.Record.{Record as NewRecord};
ghost use Rattle.hp_schedules.specs.Alike.{leaves_steps};
ghost use Rattle.hp_schedules.specs.Schedules.{Setting};
ghost use Rattle.hp_states.specs.Places.{memory_at};
ghost use Rattle.hp_laws.specs.Numberings.{number_of};
ghost use Rattle.hp_schedules.specs.Openings.{renumbered_change};
ghost use Rattle.hp_states.specs.Interned.{KeepNumbers};
ghost use Rattle.hp_states.specs.Numbered.{IsNumbered, IsStateAt};
ghost use Rattle.hp_states.specs.Numbers.{number_code};
ghost use Rattle.hp_states.specs.Stops.{AreNumbersAt, AreSameStops, AreStopsAt, IsNumbering, KeepStops};

use crate::Codes;
use crate::code::Code;
use crate::openings::Openings;
use hp_laws::number_of;
use hp_memory::Memory;
use hp_schedules::{Change, change_of};
use hp_units::{Record, Serial};
use std::alloc::{AllocError, Global};
use std::marker::Model;

/// A place on the path: one number for its list of cancellable operations, and one for its state.
/// Each is `None` while it is not known.
#[derive(Clone, Copy, Drop)]
pub(crate) struct Stop {
    openings: Option<usize>,
    state: Option<usize>,
}

/// A place of which neither number is known.
const UNKNOWN: Stop = Stop {
    openings: None,
    state: None,
};

/// The numbers of the place where a walk is, and of each place before it, from the beginning of the
/// scripts.
///
/// At the beginning it may be unknown which operations a Cancel can take back. A state has no
/// number until `number_state` gives it one.
pub struct Stops {
    codes: Codes,
    openings: Openings,
    here: Stop,
    before: Vec<Stop>,
}

impl Model for Stops {
    ghost use Rattle.hp_states.specs.Stops.{StopsValue};

    ghost Value = { StopsValue };

    ghost view = { λ s. record {
      codes = s.codes;
      lists = s.openings;
      here = s.here;
      before = s.before.items;
    } };
}

/// Keeps callers from proving again how each field is dropped.
impl Drop for Stops {
    fn drop(self) {
        let Stops {
            codes: _codes,
            openings: _openings,
            here: _,
            before: _,
        } = self;
    }
}

impl Stops {
    /// Creates the numbers of the place where the scripts begin. `is_closed` states that no Cancel
    /// can drop a step that led there. Allocates nothing.
    pub fn start(alloc: Global, is_closed: bool) -> Stops
        ensures { result ≡ record {
          codes = [];
          lists = [] ∷ [];
          here = record { openings = cond is_closed (Some 0) None; state = None };
          before = [];
        } }
    {
        Stops {
            codes: Codes::new(alloc),
            openings: Openings::new(alloc),
            here: Stop {
                openings: first_number(is_closed),
                state: None,
            },
            before: Vec::new(alloc),
        }
    }

    /// Moves to the place after a call. The state at the new place has no number yet. `fixed` and
    /// `latest` number the operations at the place before the call, as [`number_of`] does.
    pub fn go_on(
        &mut self,
        call: &Record,
        fixed: Serial,
        latest: &[Serial],
    ) -> Result<(), AllocError>
        requires { (at : List NewRecord → ℕ → ℕ) × (g : Setting) × (news : List NewRecord)
            × AreStopsAt at g news self.old }
        ensures kept { KeepStops self.old self.new }
        ensures ok { OnOk result ((at : List NewRecord → ℕ → ℕ) (g : Setting) (news : List NewRecord)
            → IsNumbering at → at news ≡ number_of fixed latest.now
            → AreStopsAt at g news self.old → leaves_steps (effect_of call.now.event) ≡ true
            → AreStopsAt at g (news ++ call.now ∷ []) self.new) }
    {
        let was = self.here;
        let openings = openings_after(&mut self.openings, was, call, fixed, latest)?;
        self.before.push(was)?;
        self.here = Stop {
            openings,
            state: None,
        };
        Ok(())
    }

    /// Takes back the latest call.
    pub fn go_back(&mut self)
        ensures same { AreSameStops self.old self.new }
        ensures back { (at : List NewRecord → ℕ → ℕ) (g : Setting) (news : List NewRecord) (r : NewRecord)
            → AreStopsAt at g (news ++ r ∷ []) self.old → AreStopsAt at g news self.new }
    {
        let here = self.before.pop().unwrap_or(UNKNOWN);
        self.here = here;
    }

    /// Numbers the current state. Does nothing if it is unknown which operations a Cancel can take
    /// back. `fixed` and `latest` number the operations at the place.
    pub fn number_state(
        &mut self,
        alloc: Global,
        memory: &Memory,
        fixed: Serial,
        latest: &[Serial],
    ) -> Result<(), AllocError>
        ensures kept { KeepStops self.old self.new }
        ensures here { (at : List NewRecord → ℕ → ℕ) (g : Setting) (news : List NewRecord)
            → at news ≡ number_of fixed latest.now → memory.now ≡ memory_at g news
            → AreStopsAt at g news self.old → AreStopsAt at g news self.new }
    {
        if self.here.openings.is_none() {
            return Ok(());
        }
        let state = self.codes.number_of(alloc, memory, fixed, latest)?;
        self.here.state = Some(state);
        Ok(())
    }

    /// Returns about how many bytes the states take.
    pub fn size(&self) -> u64 {
        self.codes.size()
    }

    /// Appends the number of the list of cancellable operations. Returns whether it is known and
    /// fits 32 bits; if not, appends nothing.
    pub fn push_openings(&self, numbers: &mut Vec<u32>) -> Result<bool, AllocError>
        ensures { IfOk result (λ has. has ≡ true → (openings : ℕ)
            × (numbers.new.items ≡ numbers.old.items ++ openings ∷ [])
            × ((at : List NewRecord → ℕ → ℕ) (g : Setting) (news : List NewRecord)
            → AreStopsAt at g news self.now
            → IsNumbered (at news) g self.now.codes self.now.lists news (Some openings))) }
    {
        let Some(openings) = self.here.openings else {
            return Ok(false);
        };
        let Ok(openings) = u32::try_from(openings) else {
            return Ok(false);
        };
        numbers.push(openings)?;
        Ok(true)
    }

    /// Appends the number of the state and that of the list of cancellable operations, and returns
    /// whether both are known. If not, appends nothing.
    pub(crate) fn push_numbers(&self, code: &mut Code) -> Result<bool, AllocError>
        ensures { IfOk result (λ has. has ≡ true → (state : ℕ) × (openings : ℕ)
            × (code.new ≡ code.old ++ number_code state ++ number_code openings)
            × ((at : List NewRecord → ℕ → ℕ) (g : Setting) (news : List NewRecord)
            → AreStopsAt at g news self.now
            → AreNumbersAt (at news) g news self.now state openings)) }
    {
        let Some(state) = self.here.state else {
            return Ok(false);
        };
        let Some(openings) = self.here.openings else {
            return Ok(false);
        };
        code.number(state as u64)?;
        code.number(openings as u64)?;
        Ok(true)
    }
}

/// Returns the number of the list of cancellable operations where the scripts begin: 0, the empty
/// list, if the history is closed. Otherwise returns `None`, because the list is unknown.
fn first_number(is_closed: bool) -> Option<usize>
    ensures { result ≡ cond is_closed (Some 0) None }
{
    if is_closed { Some(0) } else { None }
}

/// Returns the number of the list of operations that a Cancel can take back after a call. Returns
/// `None` if the list is unknown, or if the number of an operation is 2^64 or greater. `was` is the
/// place before the call.
fn openings_after(
    openings: &mut Openings,
    was: Stop,
    call: &Record,
    fixed: Serial,
    latest: &[Serial],
) -> Result<Option<usize>, AllocError>
    requires { IfSome was.openings (λ list. list < length openings.old) }
    ensures kept { KeepNumbers openings.old openings.new }
    ensures ok { IfOk result (λ number. (at : List NewRecord → ℕ → ℕ) (g : Setting) (codes : List (List ℕ))
        (news : List NewRecord)
        → IsNumbering at → at news ≡ number_of fixed latest.now
        → leaves_steps (effect_of call.now.event) ≡ true
        → IsStateAt (at news) g codes news was.state
        → IsNumbered (at news) g codes openings.old news was.openings
        → IsNumbered (at (news ++ call.now ∷ [])) g codes openings.new (news ++ call.now ∷ []) number) }
{
    let Some(number) = number_of(fixed, latest, call.serial) else {
        return Ok(None);
    };
    let Some(change) = numbered(change_of(call), fixed, latest) else {
        return Ok(None);
    };
    openings.after(was.openings, was.state, change, number)
}

/// Returns the change with the number that `number_of` gives to its operation, or `None` if that
/// number is 2^64 or greater.
fn numbered(change: Change, fixed: Serial, latest: &[Serial]) -> Option<Change>
    ensures { IfSome result (λ numbered. numbered ≡ renumbered_change (number_of fixed latest.now) change) }
{
    match change {
        Change::Works { op } => Some(Change::Works {
            op: Serial(number_of(fixed, latest, op)?),
        }),
        Change::Cancels { op } => Some(Change::Cancels {
            op: Serial(number_of(fixed, latest, op)?),
        }),
        Change::Stays => Some(Change::Stays),
        Change::Begins => Some(Change::Begins),
        Change::Ends => Some(Change::Ends),
    }
}
