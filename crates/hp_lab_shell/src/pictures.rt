//! The trace of a scenario, as text, as JSON, as a page, and as a picture.
ghost use Rattle.std.specs.Prelude.{◌≡◌, IfErr, IfOk, string_bytes};
ghost use Rattle.hp_lab_shell.specs.Faults.{IsUnread};
ghost use Rattle.hp_lab_shell.specs.Shown.{HasJson, HasRows, HasTrace, IsJsonText};

use crate::plain::plain_scenario;
use crate::text_and_status::TextAndStatus;
use crate::words::{Drawing, JsonForm};
use hp_search::LabProgramFault;
use hp_svg::{page_of, picture_of};
use hp_trace::{View, trace, trace_json, trace_rows};
use std::alloc::{AllocError, Global};

/// Returns the trace of the scenario in `input`. The status is 0.
///
/// Fails with the scenario's first fault.
pub fn traced(alloc: Global, input: &[u8], view: View) -> Result<TextAndStatus, LabProgramFault>
    ensures ok { IfOk result
        (λ answer. HasTrace view input.now (string_bytes answer.text) × (answer.status ≡ 0)) }
    ensures err { IfErr result (IsUnread input.now) }
{
    let scenario = plain_scenario(alloc, input)?;
    let text = trace(alloc, &scenario, view)?;
    Ok(TextAndStatus { text, status: 0 })
}

/// Returns the trace of the scenario in `input` as JSON. The status is 0.
///
/// Fails with the scenario's first fault.
pub fn told(alloc: Global, input: &[u8], form: JsonForm) -> Result<TextAndStatus, LabProgramFault>
    ensures ok { IfOk result
        (λ answer. HasJson form input.now (string_bytes answer.text) × (answer.status ≡ 0)) }
    ensures err { IfErr result (IsUnread input.now) }
{
    let scenario = plain_scenario(alloc, input)?;
    let lines = trace_json(alloc, &scenario)?;
    let text = json_text(alloc, lines, form)?;
    Ok(TextAndStatus { text, status: 0 })
}

/// Returns lines of JSON as they are, or in a page that steps through them.
fn json_text(alloc: Global, lines: String, form: JsonForm) -> Result<String, AllocError>
    ensures { IfOk result (λ text. IsJsonText form (string_bytes lines) (string_bytes text)) }
{
    match form {
        JsonForm::Lines => Ok(lines),
        JsonForm::Page => page_of(alloc, lines.as_str()),
    }
}

/// Draws the rows of a trace as a picture, with all memory blocks in each row and the owners' names
/// in the legend. The status is 0.
///
/// Fails with the scenario's first fault.
pub fn drawn(
    alloc: Global,
    input: &[u8],
    drawing: Drawing,
) -> Result<TextAndStatus, LabProgramFault>
    ensures ok { IfOk result (λ answer. HasRows drawing.view input.now × (answer.status ≡ 0)) }
    ensures err { IfErr result (IsUnread input.now) }
{
    let scenario = plain_scenario(alloc, input)?;
    let rows = trace_rows(alloc, &scenario, drawing.view)?;
    let names = &scenario.names;
    let text = picture_of(alloc, names, drawing.cell, drawing.scale, rows)?;
    Ok(TextAndStatus { text, status: 0 })
}
