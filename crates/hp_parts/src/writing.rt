//! The text of a part.
ghost use Rattle.std.specs.Prelude.{◌≡◌, ◌++◌, IfErr, OnOk, string_bytes};
ghost use Rattle.hp_explore.specs.Faults.{IsCause};
ghost use Rattle.hp_search.specs.Prepared.{names_of, setting_of};
ghost use Rattle.hp_text.specs.State.{newline};
ghost use Rattle.hp_parts.specs.Heads.{head_line};
ghost use Rattle.hp_parts.specs.Processors.{processor_list};
ghost use Rattle.hp_parts.specs.Texts.{end_line, end_lines, part_lines};

use crate::{Search, write_head, write_schedule};
use hp_explore::ExploreFault;
use hp_schedules::Ending;
use hp_search::Prepared;
use std::alloc::{AllocError, Global};

/// Writes the head and the ends of part `number`, counted from 1. Replays the first schedule of
/// each end, and fails if the history has no room for one of its calls.
pub(crate) fn write_part(
    out: &mut String,
    alloc: Global,
    prepared: &Prepared,
    search: &Search<'_>,
    number: u32,
    ends: &[Ending],
) -> Result<(), ExploreFault>
    ensures ok { OnOk result (string_bytes out.new ≡ string_bytes out.old
        ++ part_lines (names_of prepared.now) (setting_of prepared.now) search.now number ends.now) }
    ensures err { IfErr result (IsCause (setting_of prepared.now)) }
{
    write_head_line(out, search, number, ends.len() as u64)?;
    write_ends(out, alloc, prepared, ends)
}

/// Writes the head of a part and a newline.
fn write_head_line(
    out: &mut String,
    search: &Search<'_>,
    number: u32,
    ends: u64,
) -> Result<(), AllocError>
    ensures { OnOk result
        (string_bytes out.new ≡ string_bytes out.old ++ (head_line search.now number ends ++ newline)) }
{
    write_head(out, search, number, ends)?;
    out.push('\n')
}

/// Writes one line per end.
fn write_ends(
    out: &mut String,
    alloc: Global,
    prepared: &Prepared,
    ends: &[Ending],
) -> Result<(), ExploreFault>
    ensures ok { OnOk result (string_bytes out.new ≡ string_bytes out.old
        ++ end_lines (names_of prepared.now) (setting_of prepared.now) 1 ends.now) }
    ensures err { IfErr result (IsCause (setting_of prepared.now)) }
{
    for index in 0..ends.len() {
        write_end_line(out, alloc, prepared, index + 1, &ends[index])?;
    }
    Ok(())
}

/// Writes an end and a newline.
fn write_end_line(
    out: &mut String,
    alloc: Global,
    prepared: &Prepared,
    number: usize,
    end: &Ending,
) -> Result<(), ExploreFault>
    ensures ok { OnOk result (string_bytes out.new ≡ string_bytes out.old
        ++ (end_line (names_of prepared.now) (setting_of prepared.now) number end.now ++ newline)) }
    ensures err { IfErr result (IsCause (setting_of prepared.now)) }
{
    write_end(out, alloc, prepared, number, end)?;
    out.push('\n')?;
    Ok(())
}

/// Writes the line of end `number`. Replays its first schedule, and fails if the history has no
/// room for one of its calls.
pub(crate) fn write_end(
    out: &mut String,
    alloc: Global,
    prepared: &Prepared,
    number: usize,
    end: &Ending,
) -> Result<(), ExploreFault>
    ensures ok { OnOk result (string_bytes out.new ≡ string_bytes out.old
        ++ end_line (names_of prepared.now) (setting_of prepared.now) number end.now) }
    ensures err { IfErr result (IsCause (setting_of prepared.now)) }
{
    prepared.write_end_keys(out, alloc, number, end)?;
    write_schedule(out, end.first.as_slice())?;
    Ok(())
}
