//! Why an event was refused, or left no record.
ghost use Rattle.std.specs.Prelude.{◌≡◌, ◌++◌, OnOk, codes, string_bytes};
ghost use Rattle.hp_units.specs.Texts.{call_fault_text, refusal_text};
ghost use Rattle.hp_text.specs.State.{decimal_of};

use crate::numbers::write_number;
use hp_units::{CallFault, Refusal};
use std::alloc::AllocError;

/// Writes that an event or a plan was refused, and why.
pub(crate) fn write_refused(out: &mut String, refusal: Refusal) -> Result<(), AllocError>
    ensures { OnOk result
        (string_bytes out.new ≡ string_bytes out.old ++ codes "refused " ++ refusal_text refusal) }
{
    out.push_str("refused ")?;
    write_refusal(out, refusal)
}

/// Writes a refusal: its name, and its number if it has one.
pub(crate) fn write_refusal(out: &mut String, refusal: Refusal) -> Result<(), AllocError>
    ensures { OnOk result (string_bytes out.new ≡ string_bytes out.old ++ refusal_text refusal) }
{
    let (name, number) = refusal_name(refusal);
    out.push_str(name)?;
    match number {
        Some(number) => write_number(out, u64::from(number)),
        None => Ok(()),
    }
}

/// Returns the name of a refusal, and its number if it has one.
fn refusal_name(refusal: Refusal) -> (&'static str, Option<u32>)
    ensures { refusal_text refusal ≡ result.0.now ++ decimal_of result.1 }
{
    match refusal {
        Refusal::NoOwner => ("NoOwner", None),
        Refusal::NoPage => ("NoPage", None),
        Refusal::NoWord => ("NoWord", None),
        Refusal::AlreadyMapped => ("AlreadyMapped", None),
        Refusal::NotMapped => ("NotMapped", None),
        Refusal::BadOrder => ("BadOrder", None),
        Refusal::NoFrame => ("NoFrame", None),
        Refusal::NoSuchFrame => ("NoSuchFrame", None),
        Refusal::NotKernel => ("NotKernel", None),
        Refusal::NoCpu => ("NoCpu", None),
        Refusal::NoBlock => ("NoBlock", None),
        Refusal::EmptyPlan => ("EmptyPlan", None),
        Refusal::Twice { block } => ("Twice ", Some(block.0)),
        Refusal::Busy { block } => ("Busy ", Some(block.0)),
        Refusal::NotOnline { block } => ("NotOnline ", Some(block.0)),
        Refusal::NotOffline { block } => ("NotOffline ", Some(block.0)),
        Refusal::Unmovable { frame } => ("Unmovable ", Some(frame.0)),
        Refusal::NoOp => ("NoOp", None),
        Refusal::NothingToMove => ("NothingToMove", None),
        Refusal::NotFree { frame } => ("NotFree ", Some(frame.0)),
        Refusal::Gone => ("Gone", None),
        Refusal::BadAddress => ("BadAddress", None),
        Refusal::NotAbsent { block } => ("NotAbsent ", Some(block.0)),
    }
}

/// Writes the name of the fault of a call that left no record.
pub(crate) fn write_call_fault_name(out: &mut String, fault: CallFault) -> Result<(), AllocError>
    ensures { OnOk result (string_bytes out.new ≡ string_bytes out.old ++ call_fault_text fault) }
{
    match fault {
        CallFault::HistoryFull => out.push_str("HistoryFull"),
        CallFault::OutOfMemory => out.push_str("OutOfMemory"),
    }
}
