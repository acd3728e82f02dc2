//! The line of a control file that is read.
ghost use Rattle.std.specs.Prelude.{OnOk, string_bytes};
ghost use Rattle.hp_commands.specs.Files.{WritesFile};
ghost use Rattle.hp_commands.specs.Serial.{GrowsBy};

use hp_machine::UnrecordedMachine;
use hp_text::{text_in, write_read_fault};
use std::alloc::{AllocError, Global};

/// Reads a control file, and writes its text, or why there is none. Makes no record.
pub fn write_file(
    out: &mut String,
    alloc: Global,
    machine: &UnrecordedMachine,
    path: &str,
) -> Result<(), AllocError>
    ensures { OnOk result (GrowsBy (string_bytes out.old) (string_bytes out.new)
        (λ text. WritesFile machine.now path.now text)) }
{
    match text_in(alloc, machine.memory(), path) {
        Ok(text) => out.push_str(text.as_str()),
        Err(fault) => write_read_fault(out, fault),
    }
}
