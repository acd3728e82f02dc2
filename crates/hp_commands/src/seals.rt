//! The line of a seal.
ghost use Rattle.std.specs.Prelude.{OnOk, string_bytes};
ghost use Rattle.hp_commands.specs.Seals.{WritesSeal};
ghost use Rattle.hp_commands.specs.Serial.{GrowsBy};

use hp_machine::UnrecordedMachine;
use hp_text::write_sealed;
use std::alloc::AllocError;

/// Seals the machine, and writes how many records it made since the last seal. An
/// `UnrecordedMachine` keeps no records, so none are handed out.
pub fn write_seal(out: &mut String, machine: &mut UnrecordedMachine) -> Result<(), AllocError>
    ensures { OnOk result (GrowsBy (string_bytes out.old) (string_bytes out.new)
        (λ text. WritesSeal machine.old text machine.new)) }
{
    let count = machine.seal();
    write_sealed(out, count)
}
