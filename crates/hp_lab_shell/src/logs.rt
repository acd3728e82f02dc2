//! The log of a scenario, in the form that the command `judge` reads.
ghost use Rattle.std.specs.Prelude.{◌≡◌, IfErr, IfOk};
ghost use Rattle.hp_lab_shell.specs.Faults.{IsUnread};
ghost use Rattle.hp_lab_shell.specs.Shown.{HasLog};

use crate::plain::plain_scenario;
use crate::text_and_status::TextAndStatus;
use hp_judge::{write_event, write_size};
use hp_search::LabProgramFault;
use hp_trace::{ScenarioLog, trace_log};
use std::alloc::{AllocError, Global};

/// Returns the log of a run of the scenario in `input`. The status is 0.
///
/// Fails with the scenario's first fault.
pub fn logged(alloc: Global, input: &[u8]) -> Result<TextAndStatus, LabProgramFault>
    ensures ok { IfOk result (λ answer. HasLog input.now × (answer.status ≡ 0)) }
    ensures err { IfErr result (IsUnread input.now) }
{
    let scenario = plain_scenario(alloc, input)?;
    let log = trace_log(alloc, &scenario)?;
    let text = log_text(alloc, &log)?;
    Ok(TextAndStatus { text, status: 0 })
}

/// Writes a log: a line for the size of memory blocks, and one for each event.
fn log_text(alloc: Global, log: &ScenarioLog) -> Result<String, AllocError> {
    let mut out = String::new(alloc);
    write_size(&mut out, log.block_frames)?;
    for event in &log.events {
        write_event(&mut out, event)?;
    }
    Ok(out)
}
