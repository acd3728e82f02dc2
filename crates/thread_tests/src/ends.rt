//! The exit status and the message at the program's end.
use hp_commands::{ProgramEnd, ProgramFault};
use hp_units::{Cpu, LayoutFault, Serial};
use std::alloc::{AllocError, Global};
use std::test::Fail;

/// Returns whether an outcome has this status and this text.
fn is_said(alloc: Global, outcome: ProgramEnd, status: u8, text: &str) -> Result<bool, AllocError> {
    let line = format!(in alloc; "{outcome}")?;
    Ok(outcome.status() == status && line.as_str() == text)
}

/// Returns whether each fault in the table has status 1 and the text beside it.
fn are_said(alloc: Global, table: &[(ProgramFault, &str)]) -> Result<bool, AllocError> {
    for (fault, text) in table {
        if !is_said(alloc, ProgramEnd::Failed(*fault), 1, text)? {
            return Ok(false);
        }
    }
    Ok(true)
}

#[test]
fn ends_have_their_status_and_text(rt: HostRuntime) -> Result<(), Fail> {
    let usage = "hotplug: serial, run or audit";
    let table = [
        (ProgramFault::ReadFailed, "hotplug: reading failed"),
        (ProgramFault::TooLong, "hotplug: input too long"),
        (ProgramFault::NotJson, "hotplug: not JSON"),
        (ProgramFault::BadShape, "hotplug: wrong shape"),
        (
            ProgramFault::Layout(LayoutFault::BadMarks),
            "hotplug: layout fault BadMarks",
        ),
        (
            ProgramFault::BadLine { line: 12 },
            "hotplug: line 12 not understood",
        ),
        (ProgramFault::OutOfMemory, "hotplug: out of memory"),
        (ProgramFault::WriteFailed, "hotplug: writing failed"),
    ];
    assert!(rt; is_said(rt.alloc(), ProgramEnd::Done, 0, "")?);
    assert!(rt; is_said(rt.alloc(), ProgramEnd::NoCommand, 2, usage)?);
    assert!(rt; are_said(rt.alloc(), table.as_slice())?);
    Ok(())
}

#[test]
fn ends_of_runs_have_their_status_and_text(rt: HostRuntime) -> Result<(), Fail> {
    let table = [
        (
            ProgramFault::NotForRun { line: 3 },
            "hotplug: line 3 not for run",
        ),
        (
            ProgramFault::NotStarted { cpu: Cpu(1) },
            "hotplug: worker 1 not started",
        ),
        (ProgramFault::SeatMissing, "hotplug: seat missing"),
        (
            ProgramFault::Mismatch { serial: Serial(7) },
            "hotplug: record 7 does not match",
        ),
        (
            ProgramFault::WrongReply { serial: Serial(7) },
            "hotplug: audit fault at record 7",
        ),
        (
            ProgramFault::WrongSerial { at: 7 },
            "hotplug: audit fault at position 7",
        ),
        (ProgramFault::AuditDiffers, "hotplug: audit differs"),
        (
            ProgramFault::BrokenChain { at: 2 },
            "hotplug: volume 2 does not follow",
        ),
    ];
    assert!(rt; are_said(rt.alloc(), table.as_slice())?);
    Ok(())
}
