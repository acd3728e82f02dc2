//! Where a walk is, as numbers: those of the places on its path (`stops`), and that of each
//! processor's transcript. Equal numbers of one kind mean the same.
ghost use Rattle.std.specs.Prelude.{◌≡◌, ◌++◌, ◌∷◌, [], IfOk, List, None, OnOk, Some, cond, length, replicate, true};
ghost use Rattle.hp_units.specs.History.{effect_of};
ghost use Rattle.hp_units.specs.declared.replies.Record.{Record as NewRecord};
ghost use Rattle.hp_schedules.specs.Alike.{leaves_steps};
ghost use Rattle.hp_schedules.specs.Cursors.{AreCursors};
ghost use Rattle.hp_schedules.specs.Schedules.{Setting};
ghost use Rattle.hp_states.specs.Standing.{AddsParts, AreSameNumbers, IsKeyCode, IsStanding, KeepMeanings};
ghost use Rattle.hp_states.specs.Places.{memory_at};

use crate::code::Code;
use crate::exchanges::Exchanges;
use crate::stops::Stops;
use hp_memory::Memory;
use hp_schedules::Positions;
use hp_units::{Cpu, Record, Serial};
use std::alloc::{AllocError, Global};
use std::marker::Model;

/// The number of no operation. With it as `fixed`, and without latest operations, `number_of` gives
/// each operation twice its own number.
const NO_OPERATION: Serial = Serial(0);

/// The numbers of the place where a walk is, of the places before it, and of the transcripts.
pub(crate) struct Standing {
    stops: Stops,
    exchanges: Exchanges,
}

impl Model for Standing {
    ghost use Rattle.hp_states.specs.Standing.{StandingValue};

    ghost Value = { StandingValue };

    ghost view = { λ s. record { stops = s.stops; exchanged = s.exchanges } };
}

/// Keeps callers from proving again how each field is dropped.
impl Drop for Standing {
    fn drop(self) {
        let Standing {
            stops: _stops,
            exchanges: _exchanges,
        } = self;
    }
}

impl Standing {
    /// Creates the numbers of the place where the scripts begin. `is_closed` states that no Cancel
    /// can drop a step that led there.
    pub(crate) fn start(
        alloc: Global,
        processors: usize,
        is_closed: bool,
    ) -> Result<Standing, AllocError>
        ensures { IfOk result (λ s. s ≡ record {
          stops = record {
            codes = [];
            lists = [] ∷ [];
            here = record { openings = cond is_closed (Some 0) None; state = None };
            before = [];
          };
          exchanged = record { chains = [] ∷ []; here = replicate processors 0 };
        }) }
    {
        let exchanges = Exchanges::start(alloc, processors)?;
        Ok(Standing {
            stops: Stops::start(alloc, is_closed),
            exchanges,
        })
    }

    /// Moves to the place after the call of `latest`. The state at the new place has no number yet.
    pub(crate) fn go_on(&mut self, alloc: Global, latest: &Record) -> Result<(), AllocError>
        requires { (g : Setting) × (news : List NewRecord) × IsStanding g news self.old }
        ensures kept { KeepMeanings self.old self.new }
        ensures ok { OnOk result ((g : Setting) (news : List NewRecord) → IsStanding g news self.old
            → leaves_steps (effect_of latest.now.event) ≡ true
            → IsStanding g (news ++ latest.now ∷ []) self.new) }
    {
        self.stops.go_on(latest, NO_OPERATION, &[])?;
        self.exchanges.go_on(alloc, latest.cpu, latest)
    }

    /// Takes back the latest call of processor `cpu`.
    pub(crate) fn go_back(&mut self, cpu: Cpu)
        ensures same { AreSameNumbers self.old self.new }
        ensures back { (g : Setting) (news : List NewRecord) (r : NewRecord) → r.cpu ≡ cpu
            → IsStanding g (news ++ r ∷ []) self.old → IsStanding g news self.new }
    {
        self.stops.go_back();
        self.exchanges.go_back(cpu);
    }

    /// Numbers the current state. Does nothing if it is unknown which operations a Cancel can take
    /// back.
    pub(crate) fn number_state(&mut self, alloc: Global, memory: &Memory) -> Result<(), AllocError>
        ensures kept { KeepMeanings self.old self.new }
        ensures here { (g : Setting) (news : List NewRecord) → memory.now ≡ memory_at g news
            → IsStanding g news self.old → IsStanding g news self.new }
    {
        self.stops.number_state(alloc, memory, NO_OPERATION, &[])
    }

    /// Returns about how many bytes the states take.
    pub(crate) fn size(&self) -> u64 {
        self.stops.size()
    }

    /// Writes the code of the current place's key into `key` and returns whether there is one.
    ///
    /// There is none if the cancellable operations are unknown or the state has no number.
    pub(crate) fn key(
        &self,
        positions: &Positions,
        processors: u32,
        key: &mut Code,
    ) -> Result<bool, AllocError>
        requires processors { processors ≡ length positions.now.cursors.items }
        requires standing { (g : Setting) × (news : List NewRecord)
            × AreCursors g news positions.now.cursors.items × IsStanding g news self.now }
        ensures { IfOk result (λ has. has ≡ true → (g : Setting) (news : List NewRecord)
            → AreCursors g news positions.now.cursors.items → IsStanding g news self.now
            → IsKeyCode g self.now news key.new) }
    {
        key.clear();
        key.number(2 * u64::from(processors) + 2)?;
        let has = self.stops.push_numbers(key)?;
        if !has {
            return Ok(false);
        }
        self.push_parts(positions, processors, key)?;
        Ok(true)
    }

    /// Appends each processor's part of a key.
    #[inline(always)]
    fn push_parts(
        &self,
        positions: &Positions,
        processors: u32,
        key: &mut Code,
    ) -> Result<(), AllocError>
        requires processors { processors ≡ length positions.now.cursors.items }
        requires standing { (g : Setting) × (news : List NewRecord)
            × AreCursors g news positions.now.cursors.items × IsStanding g news self.now }
        ensures { OnOk result ((g : Setting) (news : List NewRecord)
            → AreCursors g news positions.now.cursors.items → IsStanding g news self.now
            → AddsParts self.now news processors key.old key.new) }
    {
        let numbers = self.exchanges.numbers();
        for cpu in 0..processors {
            let number = numbers[cpu as usize];
            let begun = positions.operation(cpu);
            key.number(number as u64)?;
            key.number(begun.0)?;
        }
        Ok(())
    }
}
