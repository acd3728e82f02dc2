//! What is wrong with a scenario, and how many interleavings it has.
ghost use Rattle.std.specs.Prelude.{◌≡◌, ◌≢◌, ◌-◌, ◌^◌, ◌==◌, [], IfErr, IfOk, OnOk, if◌then◌else◌, string_bytes};
ghost use Rattle.hp_scripts.specs.Named.{named_in};
ghost use Rattle.hp_search.specs.declared.lab_fault.LabFault.TheVariants.{OutOfMemory};
ghost use Rattle.hp_search.specs.declared.program_fault.LabProgramFault.TheVariants.{Lab};
ghost use Rattle.hp_lab_shell.specs.Checks.{IsCheckOf, IsCountIn, IsCountOf};

use crate::text_and_status::TextAndStatus;
use hp_check::{check, fault_count, write_report};
use hp_scenario::ScenarioFault;
use hp_scripts::{NamedScenario, interleavings_line};
use hp_search::LabProgramFault;
use std::alloc::{AllocError, Global};

/// The most interleavings that are counted.
const LIMIT: u64 = u64::MAX;

/// As a number of setup lines: all lines of the scenario.
pub(crate) const ALL: u64 = u64::MAX;

/// Reports what is wrong with a scenario whose first `setup` lines are the setup. Then comes the
/// line that `count_line` returns, which reports how many interleavings the scripts have; it may be
/// empty. The status is 0 if there is nothing but warnings, otherwise 1.
#[tactic(auto, using(crate::proofs::Judged::status_is))]
pub fn checked(alloc: Global, input: &[u8], setup: u64) -> Result<TextAndStatus, LabProgramFault>
    ensures ok { IfOk result (λ answer. IsCheckOf setup input.now (string_bytes answer.text) answer.status) }
    ensures err { IfErr result (λ fault. fault ≡ Lab OutOfMemory) }
{
    let found = check(alloc, input, setup)?;
    let mut text = String::new(alloc);
    write_report(&mut text, alloc, input, &found)?;
    let counted = count_line(alloc, input, setup)?;
    text.push_str(&counted)?;
    let status = status_of(fault_count(&found));
    Ok(TextAndStatus { text, status })
}

/// Returns the exit status of a check that found this many faults.
fn status_of(faults: usize) -> u8
    ensures { result ≡ (if faults == 0 then 0 else 1) }
{
    if faults == 0 { 0 } else { 1 }
}

/// Returns the line that reports how many interleavings the scripts after the setup have. The
/// text is empty if `setup` is `ALL`, if the bytes are not a scenario, or if a line after the
/// setup may not be in a script.
#[tactic(auto, using(crate::proofs::Counted::none_asked, crate::proofs::Counted::some_asked))]
fn count_line(alloc: Global, input: &[u8], setup: u64) -> Result<String, AllocError>
    ensures { IfOk result (λ text. IsCountOf (setup == 2 ^ 64 - 1) setup input.now (string_bytes text)) }
{
    if setup == ALL {
        return Ok(String::new(alloc));
    }
    count_in(alloc, input, setup)
}

/// Returns the line that reports how many interleavings the scripts after the setup have, for a
/// `setup` that is not `ALL`. The text is empty if the bytes are not a scenario, or if a line after
/// the setup may not be in a script.
fn count_in(alloc: Global, input: &[u8], setup: u64) -> Result<String, AllocError>
    ensures { IfOk result (λ text. IsCountIn setup (named_in input.now) (string_bytes text)) }
{
    match NamedScenario::read(alloc, input) {
        Ok(named) => {
            let scenario = &named.scenario;
            let cpus = scenario.layout.cpus();
            interleavings_line(alloc, cpus, setup, scenario.lines.as_slice(), LIMIT)
        }
        Err(fault) => no_count(alloc, fault),
    }
}

/// Returns an empty text, because the bytes are not a scenario. Fails if the fault is out of
/// memory.
fn no_count(alloc: Global, fault: ScenarioFault) -> Result<String, AllocError>
    ensures none { IfOk result (λ text. string_bytes text ≡ []) }
    ensures read { OnOk result (fault ≢ ScenarioFault.OutOfMemory) }
{
    match fault {
        ScenarioFault::OutOfMemory => Err(AllocError),
        _ => Ok(String::new(alloc)),
    }
}
