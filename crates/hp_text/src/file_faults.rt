//! Why a control file was not read or written.
ghost use Rattle.std.specs.Prelude.{◌≡◌, ◌++◌, OnOk, string_bytes};
ghost use Rattle.hp_text.specs.FileFaults.{read_fault_line, write_fault_line};

use hp_requests::ControlFault;
use std::alloc::AllocError;

/// Writes why a file was not read, as `cat: fault NoFile`.
pub fn write_read_fault(out: &mut String, fault: ControlFault) -> Result<(), AllocError>
    ensures { OnOk result (string_bytes out.new ≡ string_bytes out.old ++ read_fault_line fault) }
{
    writeln!(out, "cat: fault {fault}")
}

/// Writes why a file did not take a text, as `echo: fault BadText`.
pub fn write_echo_fault(out: &mut String, fault: ControlFault) -> Result<(), AllocError>
    ensures { OnOk result (string_bytes out.new ≡ string_bytes out.old ++ write_fault_line fault) }
{
    writeln!(out, "echo: fault {fault}")
}
