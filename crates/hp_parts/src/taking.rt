//! Takes the lines of parts, one after another.
ghost use Rattle.std.specs.Prelude.{◌≡◌, ◌↔◌, ℕ, ◌^◌, ◌<◌, IfErr, IfOk, IsTrue, List, OnOk, length};
ghost use Rattle.hp_schedules.specs.Schedules.{Setting};
ghost use Rattle.hp_search.specs.Prepared.{names_of, setting_of};
ghost use Rattle.hp_parts.specs.Ends.{IsEndOf};
ghost use Rattle.hp_parts.specs.Heads.{IsNumber, part_in};
ghost use Rattle.hp_parts.specs.Reading.{IsLine};
ghost use Rattle.hp_parts.specs.declared.reading.PartLine.TheVariants as line;
ghost use Rattle.hp_parts.specs.Faults.{IsLineFault, IsUnplayed, IsUnpushed, IsUntoldSum};
ghost use Rattle.hp_parts.specs.Gathered.{IsGathered, IsGathering};
ghost use Rattle.hp_parts.specs.Taking.{HasRead, IsPushed, IsTaken};
ghost use Rattle.hp_parts.specs.Texts.{end_line};

use crate::ends::end_of;
use crate::line_fault::LineFault;
use crate::writing::write_end;
use crate::{Gathering, Head, PartEnds, PartLine, Search, is_head, line_at, line_in, line_number};
use hp_schedules::{Ending, Outcome};
use hp_search::{PartFault, Prepared};
use hp_units::Cpu;
use std::alloc::{AllocError, Global};

/// Reads all parts of `input`. Its first head was already read; this head and its newline take
/// `start` bytes.
pub(crate) fn gather(
    alloc: Global,
    input: &[u8],
    prepared: &Prepared,
    head: &Head<'_>,
    start: usize,
) -> Result<Vec<PartEnds>, PartFault>
    requires few { length prepared.now.start.scripts.items < 2 ^ 32 }
    requires read { HasRead (names_of prepared.now) (setting_of prepared.now) head.now input.now start }
    ensures ok { IfOk result (λ parts.
        IsGathered (names_of prepared.now) (setting_of prepared.now) head.now.search input.now parts.items) }
    ensures err { IfErr result
        (IsUntoldSum input.now (names_of prepared.now) (setting_of prepared.now) head.now.search) }
{
    let mut gathered = Gathering::new(alloc, head.number, head.ends);
    let mut place = start;
    while place < input.len() {
        let Some(text) = line_at(input, place) else {
            return Err(PartFault::NotPart {
                line: line_number(input, place),
            });
        };
        match take_line(alloc, prepared, &head.search, &mut gathered, text) {
            Ok(()) => place += text.len() + 1,
            Err(fault) => return Err(fault.of_line(line_number(input, place))),
        }
    }
    if !gathered.is_whole() {
        return Err(PartFault::OtherCount {
            part: gathered.number(),
        });
    }
    let parts = gathered.into_parts()?;
    Ok(parts)
}

/// Adds the next line of the input to the parts gathered so far.
fn take_line(
    alloc: Global,
    prepared: &Prepared,
    search: &Search<'_>,
    gathered: &mut Gathering,
    text: &[u8],
) -> Result<(), LineFault>
    requires few { length prepared.now.start.scripts.items < 2 ^ 32 }
    requires number { IsNumber search.now gathered.old.last.number }
    ensures ok { OnOk result (IsTaken (names_of prepared.now) (setting_of prepared.now) search.now
        gathered.old text.now gathered.new) }
    ensures err { IfErr result (IsLineFault (names_of prepared.now) (setting_of prepared.now) search.now
        gathered.old text.now) }
{
    let line = line_in(alloc, text)?;
    match line {
        PartLine::Head { number, ends } => {
            take_head(alloc, search, gathered, text, number, ends)
        }
        PartLine::End { count, schedule } => {
            take_end(alloc, prepared, search, gathered, text, count, schedule)
        }
        PartLine::Stop => Err(LineFault::Stopped),
        PartLine::Other => Err(LineFault::NotPart),
    }
}

/// Takes `text`, a head that gives `number` as its part and `ends` as its number of ends,
/// and begins this part.
fn take_head(
    alloc: Global,
    search: &Search<'_>,
    gathered: &mut Gathering,
    text: &[u8],
    number: u64,
    ends: u64,
) -> Result<(), LineFault>
    requires { IsLine text.now (line.Head number ends) }
    ensures ok { OnOk result ((names : List (List ℕ)) (g : Setting)
        → IsTaken names g search.now gathered.old text.now gathered.new) }
    ensures err { IfErr result (λ fault. (names : List (List ℕ)) (g : Setting)
        → IsLineFault names g search.now gathered.old text.now fault) }
{
    let of = u64::from(search.of);
    if number < 1 || number > of {
        return Err(LineFault::OtherSearch);
    }
    let part = number as u32;
    if !is_head(alloc, search, part, ends, text)? {
        return Err(LineFault::OtherSearch);
    }
    if !gathered.is_whole() {
        return Err(LineFault::OtherCount {
            part: gathered.number(),
        });
    }
    gathered.begin(alloc, part, ends)?;
    Ok(())
}

/// Takes the line of an end with this count and this first schedule, and adds the end to the last
/// part.
fn take_end(
    alloc: Global,
    prepared: &Prepared,
    search: &Search<'_>,
    gathered: &mut Gathering,
    text: &[u8],
    count: u64,
    schedule: Vec<Cpu>,
) -> Result<(), LineFault>
    requires few { length prepared.now.start.scripts.items < 2 ^ 32 }
    requires number { IsNumber search.now gathered.old.last.number }
    requires line { IsLine text.now (line.End count schedule) }
    ensures ok { OnOk result (IsTaken (names_of prepared.now) (setting_of prepared.now) search.now
        gathered.old text.now gathered.new) }
    ensures err { IfErr result (IsLineFault (names_of prepared.now) (setting_of prepared.now) search.now
        gathered.old text.now) }
{
    match outcome_of(alloc, prepared, search, gathered.number(), &schedule)? {
        Some(outcome) => {
            let end = Ending {
                outcome,
                count,
                first: schedule,
            };
            push_end(alloc, prepared, gathered, text, end)
        }
        None => Err(LineFault::NotOfPart),
    }
}

/// Returns how a schedule of part `number` ends, or `None` if it is not a complete schedule of the
/// part. Fails if the history has no room for one of its calls.
fn outcome_of(
    alloc: Global,
    prepared: &Prepared,
    search: &Search<'_>,
    number: u32,
    schedule: &[Cpu],
) -> Result<Option<Outcome>, LineFault>
    requires few { length prepared.now.start.scripts.items < 2 ^ 32 }
    requires number { IsNumber search.now number }
    ensures ok { IfOk result (IsEndOf (setting_of prepared.now) (part_in search.now number) schedule.now) }
    ensures err { IfErr result (IsUnplayed (setting_of prepared.now) schedule.now) }
{
    let part = search.part(number);
    let start = &prepared.start;
    match end_of(
        alloc,
        &start.machine,
        start.scripts.as_slice(),
        part,
        schedule,
    ) {
        Ok(outcome) => Ok(outcome),
        Err(fault) => Err(LineFault::Lab(prepared.told_fault(alloc, fault))),
    }
}

/// Adds an end to the last part. Fails with `Changed` if `text` is not the line of that end.
fn push_end(
    alloc: Global,
    prepared: &Prepared,
    gathered: &mut Gathering,
    text: &[u8],
    end: Ending,
) -> Result<(), LineFault>
    ensures ok { OnOk result (IsPushed (names_of prepared.now) (setting_of prepared.now)
        gathered.old text.now end gathered.new) }
    ensures err { IfErr result (IsUnpushed (names_of prepared.now) (setting_of prepared.now)
        gathered.old text.now end) }
{
    if !is_end(alloc, prepared, gathered.count() + 1, &end, text)? {
        return Err(LineFault::Changed);
    }
    gathered.push(end)?;
    Ok(())
}

/// Returns whether `text` is the line of end `number`. If the history has no room for a call of the
/// end's schedule, fails as if memory ran out.
fn is_end(
    alloc: Global,
    prepared: &Prepared,
    number: usize,
    end: &Ending,
    text: &[u8],
) -> Result<bool, AllocError>
    ensures { IfOk result (λ is. IsTrue is
        ↔ (text.now ≡ end_line (names_of prepared.now) (setting_of prepared.now) number end.now)) }
{
    let mut written = String::new(alloc);
    // The calls of its schedule were made for its outcome, so only memory can run out.
    match write_end(&mut written, alloc, prepared, number, end) {
        Ok(()) => Ok(text == written.as_bytes()),
        Err(_) => Err(AllocError),
    }
}
