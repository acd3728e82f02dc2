//! What is read from a scenario without a search.
ghost use Rattle.std.specs.Prelude.{◌≡◌, IfOk};
ghost use Rattle.hp_scripts.specs.Named.{named_in};
ghost use Rattle.hp_lab_shell.specs.Scripts.{count_of, unbegun_in};

use hp_scenario::ScenarioFault;
use hp_scripts::{NamedScenario, Unbegun, unbegun_lines};
use std::alloc::{AllocError, Global};

/// Returns the number of lines of the scenario, or `None` if the bytes are not a scenario.
pub(crate) fn line_count(alloc: Global, input: &[u8]) -> Result<Option<u64>, AllocError>
    ensures { IfOk result (λ count. count ≡ count_of (named_in input.now)) }
{
    match NamedScenario::read(alloc, input) {
        Ok(named) => Ok(Some(named.scenario.lines.as_slice().len() as u64)),
        Err(ScenarioFault::OutOfMemory) => Err(AllocError),
        Err(_fault) => Ok(None),
    }
}

/// Returns, per processor, the first line after the setup that works on operation 0 although the
/// processor has begun none. Empty if the bytes are not a scenario.
pub(crate) fn unbegun_in(
    alloc: Global,
    input: &[u8],
    setup: u64,
) -> Result<Vec<Unbegun>, AllocError>
    ensures { IfOk result (λ found. found.items ≡ unbegun_in setup (named_in input.now)) }
{
    match NamedScenario::read(alloc, input) {
        Ok(named) => {
            let scenario = &named.scenario;
            let cpus = scenario.layout.cpus();
            unbegun_lines(alloc, cpus, setup, scenario.lines.as_slice())
        }
        Err(ScenarioFault::OutOfMemory) => Err(AllocError),
        Err(_fault) => Ok(Vec::new(alloc)),
    }
}
