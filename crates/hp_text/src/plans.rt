//! The end of a plan.
ghost use Rattle.std.specs.Prelude.{◌≡◌, ◌++◌, OnOk, codes, string_bytes};
ghost use Rattle.hp_units.specs.Texts.{call_fault_text};
ghost use Rattle.hp_text.specs.Plans.{cancel_word, end_words, operation_text, plan_line, why_text};

use crate::numbers::write_number;
use crate::refusals::{write_call_fault_name, write_refusal, write_refused};
use hp_units::{CallFault, OpEnd, Refusal, Serial};
use std::alloc::AllocError;

/// Writes how a plan ended, as `plan: cancelled NoFrame restored`.
pub fn write_plan_end(out: &mut String, end: OpEnd) -> Result<(), AllocError>
    ensures { OnOk result (string_bytes out.new ≡ string_bytes out.old ++ plan_line end) }
{
    out.push_str("plan: ")?;
    write_words(out, end)?;
    out.push('\n')
}

/// Writes the words of a plan's end.
fn write_words(out: &mut String, end: OpEnd) -> Result<(), AllocError>
    ensures { OnOk result (string_bytes out.new ≡ string_bytes out.old ++ end_words end) }
{
    match end {
        OpEnd::Done => out.push_str("done"),
        OpEnd::Refused(refusal) => write_refused(out, refusal),
        OpEnd::Cancelled { why, restored } => write_cancelled(out, why, restored),
        OpEnd::Undone => out.push_str("undone"),
        OpEnd::Left { op, fault } => write_left(out, op, fault),
    }
}

/// Writes that a plan was cancelled, why, and what the Cancel did.
fn write_cancelled(out: &mut String, why: Option<Refusal>, restored: bool) -> Result<(), AllocError>
    ensures { OnOk result (string_bytes out.new
        ≡ string_bytes out.old ++ codes "cancelled " ++ why_text why ++ codes " " ++ cancel_word restored) }
{
    out.push_str("cancelled ")?;
    write_why(out, why)?;
    out.push_str(if restored { " restored" } else { " released" })
}

/// Writes the last refusal, or a dash if there is none.
fn write_why(out: &mut String, why: Option<Refusal>) -> Result<(), AllocError>
    ensures { OnOk result (string_bytes out.new ≡ string_bytes out.old ++ why_text why) }
{
    match why {
        Some(refusal) => write_refusal(out, refusal),
        None => out.push_str("-"),
    }
}

/// Writes that a plan's run ended because a call left no record: its operation, if it has begun,
/// and the fault.
fn write_left(out: &mut String, op: Option<Serial>, fault: CallFault) -> Result<(), AllocError>
    ensures { OnOk result (string_bytes out.new
        ≡ string_bytes out.old ++ codes "left " ++ operation_text op ++ codes " " ++ call_fault_text fault) }
{
    out.push_str("left ")?;
    write_operation(out, op)?;
    out.push_str(" ")?;
    write_call_fault_name(out, fault)
}

/// Writes an operation's number, or a dash if there is none.
fn write_operation(out: &mut String, op: Option<Serial>) -> Result<(), AllocError>
    ensures { OnOk result (string_bytes out.new ≡ string_bytes out.old ++ operation_text op) }
{
    match op {
        Some(op) => write_number(out, op.0),
        None => out.push_str("-"),
    }
}
