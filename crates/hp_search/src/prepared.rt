//! A scenario made ready for a search: the machine after its setup, and the scripts of its later
//! lines.
ghost use Rattle.std.specs.Prelude.{◌≡◌, ◌^◌, ◌<◌, IfErr, IfOk, length, option_map, string_bytes};
ghost use Rattle.hp_explore.specs.Faults.{FillsAlong, IsCause};
ghost use Rattle.hp_explore.specs.declared.exploring.ExploreFault.TheVariants.{HistoryFull};
ghost use Rattle.hp_schedules.specs.Schedules.{plays};
ghost use Rattle.hp_search.specs.Ends.{IsMore};
ghost use Rattle.hp_search.specs.Replays.{replayed_text};
ghost use Rattle.hp_search.specs.Faults.{IsToldAs};
ghost use Rattle.hp_search.specs.Prepared.{GoesOn, IsPrepared, IsUnprepared, before_of, calls_in, names_of, setting_of};

use crate::lab_fault::LabFault;
use crate::replay_text;
use hp_explore::{ExploreFault, play, room_needed};
use hp_machine::Machine;
use hp_scenario::{Line, Scenario};
use hp_schedules::{HowMany, interleavings_of};
use hp_scripts::{NamedScenario, Start, front_of, resolve_front, start_of};
use hp_units::{Cpu, Record};
use std::alloc::{AllocError, Global};

/// A scenario made ready for a search.
pub struct Prepared {
    /// The scenario, with numbers in place of the names for results of setup lines.
    pub scenario: Scenario,
    /// How many of the scenario's first lines are the setup.
    pub setup: u64,
    /// The machine after the setup, and the scripts of the later lines.
    pub start: Start,
}

/// Keeps callers from proving again how each field is dropped.
impl Drop for Prepared {
    fn drop(self) {
        let Prepared {
            scenario: _scenario,
            setup: _,
            start: _start,
        } = self;
    }
}

/// Reads a scenario and makes it ready for a search: runs its first `setup` lines in order on one
/// machine, and puts each later line into the script of its processor. In a script, operation 0 is
/// the one that the processor began last. A name for a result of the setup becomes the result's
/// number. A name for a result of a script line is looked up during the search.
///
/// Errors: those of reading the scenario; `NotForScript` with the first line after the setup that
/// may not be in a script; `OutOfMemory`, which may come in place of any other result.
pub fn prepare(alloc: Global, input: &[u8], setup: u64) -> Result<Prepared, LabFault>
    ensures ok { IfOk result (IsPrepared input.now setup) }
    ensures few { IfOk result (λ p. length p.start.scripts.items < 2 ^ 32) }
    ensures err { IfErr result (IsUnprepared input.now setup) }
{
    let named = NamedScenario::read(alloc, input)?;
    let NamedScenario {
        scenario,
        sources,
        bound: _,
    } = resolve_front(alloc, named, setup)?;
    let start = start_of(alloc, &scenario, sources.as_slice(), setup)?;
    Ok(Prepared {
        scenario,
        setup,
        start,
    })
}

impl Prepared {
    /// Returns the lines of the setup.
    pub fn before(&self) -> &[Line]
        ensures { result.now ≡ before_of self.now }
    {
        front_of(self.scenario.lines.as_slice(), self.setup)
    }

    /// Plays a schedule of the scripts and returns the machine that it leads to, or `None` if it
    /// cannot be played. The error is `HistoryFull` if the history has no room for a call of the
    /// schedule, or `OutOfMemory`.
    pub fn played(&self, alloc: Global, schedule: &[Cpu]) -> Result<Option<Machine>, ExploreFault>
        ensures calls { IfOk result
            (λ p. calls_in (setting_of self.now) p ≡ plays (setting_of self.now) schedule.now) }
        ensures on { IfOk result (GoesOn (setting_of self.now)) }
        ensures err { IfErr result (IsCause (setting_of self.now)) }
        ensures along { IfErr result (λ fault. fault ≡ HistoryFull
            → FillsAlong (setting_of self.now) schedule.now) }
    {
        play(alloc, &self.start.machine, &self.start.scripts, schedule)
    }

    /// Returns the calls that the machine `played` recorded after the setup, or `None` if `played`
    /// is `None`.
    pub fn calls_of<'a>(&self, played: &'a Option<Machine>) -> Option<&'a [Record]>
        requires { GoesOn (setting_of self.now) played.now }
        ensures { option_map (λ c. c.now) result ≡ calls_in (setting_of self.now) played.now }
    {
        let start = self.start.machine.history().len();
        match played {
            Some(played) => Some(&played.history()[start..]),
            None => None,
        }
    }

    /// Returns what is known of the number of interleavings, or `None` if all were counted.
    pub fn more_than(&self, alloc: Global, is_whole: bool) -> Result<Option<HowMany>, AllocError>
        ensures { IfOk result (IsMore self.now.start.scripts.items is_whole) }
    {
        if is_whole {
            return Ok(None);
        }
        let known = interleavings_of(alloc, &self.start.scripts, u64::MAX)?;
        Ok(Some(known))
    }

    /// Returns calls of the scripts as a scenario: the layout, the lines of the setup, then the
    /// calls. The text is empty if `calls` is `None`.
    pub fn replay_of(&self, alloc: Global, calls: Option<&[Record]>) -> Result<String, AllocError>
        ensures { IfOk result (λ text. string_bytes text
            ≡ replayed_text (names_of self.now) (before_of self.now) (setting_of self.now).layout
            (option_map (λ c. c.now) calls.entry)) }
    {
        replay_text(
            alloc,
            &self.scenario.names,
            self.before(),
            self.start.machine.layout(),
            calls,
        )
    }

    /// Returns the `LabFault` for a fault of an exploration. For a full history, computes how many
    /// records are needed; if memory runs out meanwhile, the result is `OutOfMemory`.
    pub fn told_fault(&self, alloc: Global, fault: ExploreFault) -> LabFault
        ensures { IsToldAs (setting_of self.now) fault result }
    {
        match fault {
            ExploreFault::HistoryFull => {
                match room_needed(alloc, &self.start.machine, &self.start.scripts) {
                    Ok(needed) => LabFault::HistoryFull { needed },
                    Err(AllocError) => LabFault::OutOfMemory,
                }
            }
            ExploreFault::OutOfMemory => LabFault::OutOfMemory,
        }
    }
}
