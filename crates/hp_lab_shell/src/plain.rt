//! A scenario with plain numbers in place of names for results.
ghost use Rattle.std.specs.Prelude.{◌≡◌, IfErr, IfOk};
ghost use Rattle.hp_scenario.specs.Seen.{scenario_seen};
ghost use Rattle.hp_lab_shell.specs.Faults.{IsUnread};
ghost use Rattle.hp_lab_shell.specs.Shown.{InPlain};

use crate::checks::ALL;
use hp_scenario::Scenario;
use hp_scripts::{NamedScenario, resolve_front};
use hp_search::LabProgramFault;
use std::alloc::Global;

/// Reads a scenario, and replaces each name for a result by the number that `hotplug serial` gives
/// it.
///
/// Fails with the scenario's first fault.
pub(crate) fn plain_scenario(alloc: Global, input: &[u8]) -> Result<Scenario, LabProgramFault>
    ensures ok { IfOk result (λ plain. InPlain input.now (λ s. s ≡ scenario_seen plain)) }
    ensures err { IfErr result (IsUnread input.now) }
{
    let named = NamedScenario::read(alloc, input)?;
    let NamedScenario {
        scenario,
        sources: _,
        bound: _,
    } = resolve_front(alloc, named, ALL)?;
    Ok(scenario)
}
