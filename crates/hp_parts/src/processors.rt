//! The processors of a schedule, as the line of an end names them.
ghost use Rattle.std.specs.Prelude.{◌≡◌, ◌++◌, OnOk, codes, string_bytes, true};
ghost use Rattle.std.specs.Fmt.{decimal};
ghost use Rattle.hp_text.specs.Separated.{separated};
ghost use Rattle.hp_parts.specs.Processors.{processor_list};

use hp_text::write_mark;
use hp_units::Cpu;
use std::alloc::AllocError;

/// Writes the key `processors` with the processors of a schedule, in the order of its calls, and
/// closes the object.
pub fn write_schedule(out: &mut String, schedule: &[Cpu]) -> Result<(), AllocError>
    ensures { OnOk result (string_bytes out.new ≡ string_bytes out.old ++ processor_list schedule.now) }
{
    out.push_str(", \"processors\": [")?;
    write_processors(out, schedule)?;
    out.push_str("]}")
}

/// Writes processors, separated by commas.
fn write_processors(out: &mut String, schedule: &[Cpu]) -> Result<(), AllocError>
    ensures { OnOk result (string_bytes out.new
        ≡ string_bytes out.old ++ separated (codes ", ") decimal true schedule.now) }
{
    let mut is_first = true;
    for cpu in schedule {
        write_mark(out, ", ", is_first)?;
        write_processor(out, *cpu)?;
        is_first = false;
    }
    Ok(())
}

/// Writes the number of a processor.
fn write_processor(out: &mut String, cpu: Cpu) -> Result<(), AllocError>
    ensures { OnOk result (string_bytes out.new ≡ string_bytes out.old ++ decimal cpu) }
{
    write!(out, "{cpu}")
}
