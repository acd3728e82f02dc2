//! The number of interleavings of a scenario's scripts, computed without a search.
ghost use Rattle.std.specs.Prelude.{◌≡◌, ◌++◌, IfOk, OnOk, Some, string_bytes};
ghost use Rattle.hp_scripts.specs.Counting.{AreKnownAs, IsCountTold, IsKnownAfter, told_text};

use crate::checks::check_lines;
use crate::scripts::scripts_of;
use crate::starts::{front_of, rest_of};
use hp_scenario::Line;
use hp_schedules::{HowMany, interleavings_of};
use std::alloc::{AllocError, Global};

/// Returns a line that reports the number of interleavings of the lines after the first `setup`, or
/// that there are more than `limit`.
///
/// If a script holds a plan, the line reports that the number is not known: only a search can count
/// a plan's calls. The text is empty if a line after the setup may not be in a script.
pub fn interleavings_line(
    alloc: Global,
    cpus: u32,
    setup: u64,
    lines: &[Line],
    limit: u64,
) -> Result<String, AllocError>
    ensures { IfOk result (λ text. IsCountTold cpus setup lines.now limit (string_bytes text)) }
{
    let known = known_after(alloc, cpus, setup, lines, limit)?;
    told_line(alloc, known, limit)
}

/// Returns how many interleavings the lines after the first `setup` have, or `None` if one of them
/// may not be in a script.
fn known_after(
    alloc: Global,
    cpus: u32,
    setup: u64,
    lines: &[Line],
    limit: u64,
) -> Result<Option<HowMany>, AllocError>
    ensures { IfOk result (IsKnownAfter cpus setup lines.now limit) }
{
    let before = front_of(lines, setup);
    let after = rest_of(lines, setup);
    match check_lines(cpus, before.len() as u64, after) {
        Ok(()) => {
            let known = known_of(alloc, cpus, after, limit)?;
            Ok(Some(known))
        }
        Err(_unfit) => Ok(None),
    }
}

/// Returns how many interleavings the scripts of `lines` have, or that there are more than `limit`.
/// The number is unknown if a script holds a plan.
fn known_of(alloc: Global, cpus: u32, lines: &[Line], limit: u64) -> Result<HowMany, AllocError>
    ensures { IfOk result (AreKnownAs cpus lines.now limit) }
{
    let begins = Vec::new(alloc);
    let scripts = scripts_of(alloc, cpus, &begins, lines, &[])?;
    interleavings_of(alloc, &scripts, limit)
}

/// Returns the line that reports the number of interleavings, or an empty text if `known` is
/// `None`.
fn told_line(alloc: Global, known: Option<HowMany>, limit: u64) -> Result<String, AllocError>
    ensures { IfOk result (λ text. string_bytes text ≡ told_text limit known) }
{
    let mut text = String::new(alloc);
    match known {
        Some(known) => {
            write_known(&mut text, known, limit)?;
            Ok(text)
        }
        None => Ok(text),
    }
}

/// Writes the line that reports the number of interleavings, or that it is not known.
fn write_known(out: &mut String, known: HowMany, limit: u64) -> Result<(), AllocError>
    ensures { OnOk result (string_bytes out.new ≡ string_bytes out.old ++ told_text limit (Some known)) }
{
    match known {
        HowMany::Exactly(count) => writeln!(out, "interleavings: {count}"),
        HowMany::MoreThanLimit => writeln!(out, "interleavings: more than {limit}"),
        HowMany::Unknown => writeln!(
            out,
            "interleavings: not known: the calls of a plan are counted only by explore"
        ),
    }
}
