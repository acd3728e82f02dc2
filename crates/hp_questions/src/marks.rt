//! Which wanted lines are met before a schedule is complete.
ghost use Rattle.std.specs.Prelude.{◌≡◌, ◌↔◌, ◌++◌, ℕ, List, IfOk, IsTrue, None, OnOk, length, map, slice_get, true};
ghost use Rattle.std.specs.List.{range_with_len};
ghost use Rattle.hp_schedules.specs.declared.scripts.Step.{Step};
ghost use Rattle.hp_schedules.specs.Outcomes.{replies_below, replies_to, told};
ghost use Rattle.hp_questions.specs.Marks.{AreCountedIf, AreMarks, AreMet, HasLineSoFar, HasReplySoFar, IsLost, IsMissed, IsRuledOut, asks_no_places, asks_no_plans, leaves_places, leaves_plans, line_of};
ghost use Rattle.hp_questions.specs.Patterns.{IsAsWanted};
ghost use Rattle.hp_questions.specs.Wanted.{HasAnswer, HasAnswerAt, HasReply};

use crate::wanted::{EndLine, Pattern, Wanted, is_of_kind};
use hp_schedules::{CallScript, all_answers};
use hp_units::{Cpu, Record, Reply, Serial};
use std::alloc::{AllocError, Global};

/// Appends the marks of the place in a search to which these records lead. The first mark is the
/// number of records. If a wanted line is about the place of a reply (`EndLine::AnswerAt`), the
/// number of replies to each processor below `processors` follows. For each wanted line, the mark
/// is 1 if the records have the line so far, else 0; this is also so for a line that an end must
/// not have. A line about a memory block always gets 0. Returns whether each number fits 32 bits.
/// If not, `numbers` gets only some of the marks.
///
/// Suppose that two places have the same marks. If the same further calls get the same replies
/// after both, further plans end alike, and the rows at the end are equal, then both ends meet the
/// same wanted lines. So such places can be merged. Allocates only for `numbers` and for lines
/// about plans.
pub fn push_marks(
    alloc: Global,
    wanted: &[Wanted],
    cpus: u32,
    scripts: &[CallScript],
    processors: u32,
    records: &[Record],
    numbers: &mut Vec<u32>,
) -> Result<bool, AllocError>
    ensures { IfOk result (λ fit. fit ≡ true → (marks : List ℕ)
        × (numbers.new.items ≡ numbers.old.items ++ marks)
        × AreMarks cpus scripts.now wanted.now processors records.now marks) }
{
    let Ok(calls) = u32::try_from(records.len()) else {
        return Ok(false);
    };
    numbers.push(calls)?;
    if !push_calls_if(wanted, processors, records, numbers)? {
        return Ok(false);
    }
    push_met(alloc, wanted, cpus, scripts, processors, records, numbers)?;
    Ok(true)
}

/// Returns whether no wanted line is about the place of a reply among those to its processor.
fn asks_no_places(wanted: &[Wanted]) -> bool
    ensures { result ≡ asks_no_places wanted.now }
{
    for one in wanted {
        if !leaves_places(line_of(one)) {
            return false;
        }
    }
    true
}

/// Returns whether no wanted line is about plans.
pub fn asks_no_plans(wanted: &[Wanted]) -> bool
    ensures { result ≡ asks_no_plans wanted.now }
{
    for one in wanted {
        if !leaves_plans(line_of(one)) {
            return false;
        }
    }
    true
}

/// Returns `true` only if no later end can meet all wanted lines: either a processor's n-th reply
/// has come and is not the wanted one, or a reply has come that an end must not have. `false`
/// promises nothing, because the ends of plans and the rows of memory blocks are not looked at.
pub fn is_lost(wanted: &[Wanted], processors: u32, records: &[Record]) -> bool
    ensures { IsTrue result → (cpus : ℕ) (scripts : List (List Step))
        → IsLost cpus scripts wanted.now processors records.now }
{
    for index in 0..wanted.len() {
        if is_ruled_out(&wanted[index], processors, records) {
            return true;
        }
    }
    false
}

/// If a wanted line is about the place of a reply, appends how many replies each processor got.
/// Returns whether each number fits 32 bits.
fn push_calls_if(
    wanted: &[Wanted],
    processors: u32,
    records: &[Record],
    numbers: &mut Vec<u32>,
) -> Result<bool, AllocError>
    ensures { IfOk result (λ fit. fit ≡ true → (counts : List ℕ)
        × (numbers.new.items ≡ numbers.old.items ++ counts)
        × AreCountedIf (asks_no_places wanted.now) processors records.now counts) }
{
    if asks_no_places(wanted) {
        return Ok(true);
    }
    push_calls(processors, records, numbers)
}

/// Appends how many replies each processor got. Returns whether each number fits 32 bits.
fn push_calls(
    processors: u32,
    records: &[Record],
    numbers: &mut Vec<u32>,
) -> Result<bool, AllocError>
    ensures { IfOk result (λ fit. fit ≡ true → numbers.new.items ≡ numbers.old.items
        ++ map (λ cpu. length (replies_to cpu records.now)) (range_with_len 0 processors)) }
{
    for cpu in 0..processors {
        let Ok(calls) = u32::try_from(calls_by(Cpu(cpu), records)) else {
            return Ok(false);
        };
        numbers.push(calls)?;
    }
    Ok(true)
}

/// Appends a number for each wanted line: 1 if the records have the line so far, else 0. This is
/// also so for a line that an end must not have.
fn push_met(
    alloc: Global,
    wanted: &[Wanted],
    cpus: u32,
    scripts: &[CallScript],
    processors: u32,
    records: &[Record],
    numbers: &mut Vec<u32>,
) -> Result<(), AllocError>
    ensures { OnOk result ((met : List ℕ) × (numbers.new.items ≡ numbers.old.items ++ met)
        × AreMet cpus scripts.now wanted.now processors records.now (length wanted.now) met) }
{
    for index in 0..wanted.len() {
        let line = line_of(&wanted[index]);
        let is_met = has_line_so_far(alloc, line, cpus, scripts, processors, records)?;
        numbers.push(u32::from(is_met))?;
    }
    Ok(())
}

/// Returns the line that an end is to have or to lack.
fn line_of(one: &Wanted) -> &EndLine
    ensures { result.now ≡ line_of one.now }
{
    match one {
        Wanted::Has(line) | Wanted::Lacks(line) => line,
    }
}

/// Returns `true` only if no end after these records can meet the wanted line.
fn is_ruled_out(one: &Wanted, processors: u32, records: &[Record]) -> bool
    ensures { IsTrue result → IsRuledOut processors records.now one.now }
{
    match one {
        Wanted::Has(line) => is_missed(line, records),
        Wanted::Lacks(line) => has_reply_so_far(line, processors, records),
    }
}

/// Returns `true` only if the line is about a processor's n-th reply, and this reply has come and
/// does not match.
fn is_missed(line: &EndLine, records: &[Record]) -> bool
    ensures { IsTrue result → IsMissed records.now line.now }
{
    match line {
        EndLine::AnswerAt {
            cpu,
            earlier,
            reply,
        } => match reply_at(*cpu, *earlier, records) {
            Some(answer) => !reply.is_met_by(&answer),
            None => false,
        },
        _ => false,
    }
}

/// Returns whether the line is not about the place of a reply.
fn leaves_places(line: &EndLine) -> bool
    ensures { result ≡ leaves_places line.now }
{
    !matches!(line, EndLine::AnswerAt { .. })
}

/// Returns whether the line is not about plans.
fn leaves_plans(line: &EndLine) -> bool
    ensures { result ≡ leaves_plans line.now }
{
    !matches!(line, EndLine::Plan { .. })
}

/// Returns whether a reply so far matches the line, or a finished plan ended as the line wants.
/// False for a line about a memory block.
fn has_line_so_far(
    alloc: Global,
    line: &EndLine,
    cpus: u32,
    scripts: &[CallScript],
    processors: u32,
    records: &[Record],
) -> Result<bool, AllocError>
    ensures { IfOk result (λ has.
        IsTrue has ↔ HasLineSoFar cpus scripts.now processors records.now line.now) }
{
    match line {
        EndLine::Plan { cpu, end } => {
            let all = all_answers(alloc, processors, records)?;
            end.is_end_of(alloc, cpus, scripts, all.as_slice(), *cpu)
        }
        _ => Ok(has_reply_so_far(line, processors, records)),
    }
}

/// Returns whether a reply so far matches the line. False for a line about a plan or a memory
/// block.
fn has_reply_so_far(line: &EndLine, processors: u32, records: &[Record]) -> bool
    ensures { IsTrue result ↔ HasReplySoFar processors records.now line.now }
{
    match line {
        EndLine::Answer { cpu, reply } => is_answered(reply, *cpu, processors, records),
        EndLine::AnswerAt {
            cpu,
            earlier,
            reply,
        } => is_answered_at(reply, *cpu, *earlier, processors, records),
        EndLine::Plan { .. } => false,
        EndLine::Block { .. } => false,
    }
}

/// Returns whether a reply to processor `cpu` matches. If `cpu` is `None`, a reply to any processor
/// counts. Only processors below `processors` count.
fn is_answered(reply: &Pattern, cpu: Option<Cpu>, processors: u32, records: &[Record]) -> bool
    ensures { IsTrue result ↔ HasAnswer reply.now (replies_below processors records.now) cpu }
{
    match cpu {
        Some(cpu) => {
            if cpu.0 >= processors {
                return false;
            }
            is_told(reply, cpu, records)
        }
        None => is_told_to_any(reply, processors, records),
    }
}

/// Returns whether this processor's reply after `earlier` others has come and matches. False if the
/// processor is not below `processors`.
fn is_answered_at(
    reply: &Pattern,
    cpu: Cpu,
    earlier: u64,
    processors: u32,
    records: &[Record],
) -> bool
    ensures { IsTrue result ↔ HasAnswerAt reply.now (replies_below processors records.now) cpu earlier }
{
    if cpu.0 >= processors {
        return false;
    }
    match reply_at(cpu, earlier, records) {
        Some(answer) => reply.is_met_by(&answer),
        None => false,
    }
}

/// Returns whether a processor below `processors` got a reply that matches.
fn is_told_to_any(reply: &Pattern, processors: u32, records: &[Record]) -> bool
    ensures { IsTrue result ↔ HasAnswer reply.now (replies_below processors records.now) None }
{
    for record in records {
        if !is_met_as_told(reply, &record.reply) {
            continue;
        }
        if record.cpu.0 < processors {
            return true;
        }
    }
    false
}

/// Returns whether the processor got a reply that matches.
fn is_told(reply: &Pattern, cpu: Cpu, records: &[Record]) -> bool
    ensures { IsTrue result ↔ HasReply reply.now (replies_to cpu records.now) }
{
    for record in records {
        if !is_met_as_told(reply, &record.reply) {
            continue;
        }
        if record.cpu == cpu {
            return true;
        }
    }
    false
}

/// Returns whether the reply matches, as an end has it ([`told`]). Copies no reply.
#[inline(always)]
fn is_met_as_told(pattern: &Pattern, reply: &Reply) -> bool
    ensures { IsTrue result ↔ IsAsWanted pattern.now (told reply.now) }
{
    match pattern {
        Pattern::Exactly(wanted) => is_told_as(wanted, reply),
        Pattern::AnyOf(wanted) => is_of_kind(*wanted, reply),
    }
}

/// Returns whether [`told`] returns `wanted` for the reply. Copies no reply.
fn is_told_as(wanted: &Reply, reply: &Reply) -> bool
    ensures { IsTrue result ↔ (told reply.now ≡ wanted.now) }
{
    match reply {
        Reply::Opened { .. } => Reply::Opened { op: Serial(0) }.same(wanted),
        _ => reply.same(wanted),
    }
}

/// Returns the processor's reply after `earlier` others, if it has come.
fn reply_at(cpu: Cpu, earlier: u64, records: &[Record]) -> Option<Reply>
    ensures { result ≡ slice_get (replies_to cpu records.now) earlier }
{
    let mut left = earlier;
    for record in records {
        if record.cpu != cpu {
            continue;
        }
        if left == 0 {
            return Some(told(&record.reply));
        }
        left -= 1;
    }
    None
}

/// Returns how many replies the processor got.
fn calls_by(cpu: Cpu, records: &[Record]) -> usize
    ensures { result ≡ length (replies_to cpu records.now) }
{
    let mut calls = 0;
    for record in records {
        if record.cpu != cpu {
            continue;
        }
        calls += 1;
    }
    calls
}

/// Returns the reply as an end has it, with 0 in place of the number of an operation that a Begin
/// opened.
fn told(reply: &Reply) -> Reply
    ensures { result ≡ told reply.now }
{
    match reply {
        Reply::Opened { .. } => Reply::Opened { op: Serial(0) },
        _ => *reply,
    }
}
