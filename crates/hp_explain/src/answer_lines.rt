//! The answers of processors in words, line by line, as `hotplug run` prints them.
ghost use Rattle.std.specs.Prelude.{◌≡◌, ◌++◌, ◌∷◌, [], ◌<◌, ◌≤◌, ◌^◌, IfOk, OnOk, length, map, take, true};
ghost use Rattle.hp_explain.specs.Answers.{AreLast, AreRun, AreUntimed, IsPushed, IsRecords, IsScriptAt, are_empty, heading, seen_lines, untimed};

use crate::answer_words::{answer_in, is_answer, is_of_no_call};
use crate::answers_fault::AnswersFault;
use crate::observed::{ObservedLine, ObservedScript};
use hp_schedules::{CallScript, LineAnswer};
use hp_units::number64;
use std::alloc::{AllocError, Global};

/// Reads the answers of all processors from the lines of a text. Script k is that of processor k.
pub(crate) fn read_words(
    alloc: Global,
    lines: &[&str],
    scripts: &[CallScript],
) -> Result<Vec<ObservedScript>, AnswersFault>
    requires { length scripts.now < 2 ^ 32 }
    ensures sizes { IfOk result (λ seen. map length seen.items ≡ map length scripts.now) }
    ensures run { IfOk result (λ seen. AreRun (map (λ l. l.now) lines.now) seen.items) }
{
    let processors = scripts.len() as u32;
    let mut seen = Vec::new(alloc);
    let mut place = 0;
    for cpu in 0..processors {
        let number = line_number(place);
        let count = scripts[cpu as usize].line_count();
        seen.reserve(1)?;
        let script = read_script(alloc, &lines[place..], number, cpu, processors, count)?;
        place += count + 1;
        seen.push_reserved(script);
    }
    check_last(alloc, &lines[place..], line_number(place), processors)?;
    Ok(seen)
}

/// Returns the number, from 1, of the line at `place`.
fn line_number(place: usize) -> u64 {
    (place as u64).saturating_add(1)
}

/// Reads a processor's heading and its `count` answers from the front of `rest`. `number` is the
/// number of the first line of `rest` in the text.
fn read_script(
    alloc: Global,
    rest: &[&str],
    number: u64,
    cpu: u32,
    processors: u32,
    count: usize,
) -> Result<ObservedScript, AnswersFault>
    ensures { IfOk result
        (λ seen. IsScriptAt (map (λ l. l.now) rest.now) cpu count seen) }
{
    let answers = check_heading(alloc, rest, number, cpu, processors)?;
    let seen = read_lines(alloc, answers, number.saturating_add(1), cpu, count)?;
    match ObservedScript::new(seen) {
        Some(script) => Ok(script),
        None => unreachable!(),
    }
}

/// Returns the lines after the processor's heading. Fails if the first line is not the heading.
fn check_heading<'a>(
    alloc: Global,
    rest: &'a [&'a str],
    number: u64,
    cpu: u32,
    processors: u32,
) -> Result<&'a [&'a str], AnswersFault>
    ensures { IfOk result (λ after. map (λ l. l.now) rest.now ≡ heading cpu ∷ map (λ l. l.now) after.now) }
{
    let [text, after @ ..] = rest else {
        return Err(AnswersFault::NoHeading { cpu, line: number });
    };
    if is_heading(alloc, text, cpu)? {
        Ok(after)
    } else {
        Err(not_heading(alloc, text, number, cpu, processors)?)
    }
}

/// Returns whether the text is the processor's heading, such as `cpu 0`.
fn is_heading(alloc: Global, text: &str, cpu: u32) -> Result<bool, AllocError>
    ensures { IfOk result (λ is. is ≡ true → text.now ≡ heading cpu) }
{
    let heading = format!(in alloc; "cpu {cpu}")?;
    Ok(text == heading.as_str())
}

/// Returns the fault of a line that is not the heading of the processor whose answers come next.
fn not_heading(
    alloc: Global,
    text: &str,
    line: u64,
    cpu: u32,
    processors: u32,
) -> Result<AnswersFault, AllocError> {
    if let Some(cpu) = past_last(text, processors) {
        return Ok(AnswersFault::NoProcessor { cpu, line });
    }
    if cpu > 0 && is_answer(alloc, text)? {
        return Ok(AnswersFault::TooMany { cpu: cpu - 1, line });
    }
    Ok(AnswersFault::NoHeading { cpu, line })
}

/// Returns the number in a heading, if the text is the heading of a processor that the scenario
/// does not have.
fn past_last(text: &str, processors: u32) -> Option<u64> {
    let cpu = headed(text)?;
    if cpu < u64::from(processors) {
        None
    } else {
        Some(cpu)
    }
}

/// Returns the processor's number in a heading, or `None` if the text is not a heading.
fn headed(text: &str) -> Option<u64> {
    number64(text.strip_prefix("cpu ")?)
}

/// Reads the `count` answers of a processor from the front of `rest`. `number` is the number of the
/// first line of `rest` in the text.
fn read_lines(
    alloc: Global,
    rest: &[&str],
    number: u64,
    cpu: u32,
    count: usize,
) -> Result<Vec<ObservedLine>, AnswersFault>
    ensures count { IfOk result (λ seen. length seen.items ≡ count) }
    ensures room { IfOk result (λ seen. count ≤ length rest.now) }
    ensures lines { IfOk result (λ seen. take count (map (λ l. l.now) rest.now) ≡ seen_lines seen.items) }
    ensures untimed { IfOk result (λ seen. AreUntimed seen.items) }
{
    let mut seen = Vec::new(alloc);
    for index in 0..count {
        if index >= rest.len() {
            return Err(too_few(cpu, index, count));
        }
        if !push_answer(&mut seen, alloc, rest[index])? {
            return Err(no_answer(&rest[index..], number, cpu, index, count));
        }
    }
    Ok(seen)
}

/// Appends the answer in the text, and returns whether the text is an answer.
fn push_answer(seen: &mut Vec<ObservedLine>, alloc: Global, text: &str) -> Result<bool, AllocError>
    ensures { IfOk result (λ is. is ≡ true → IsPushed seen.old.items text.now seen.new.items) }
{
    match answer_in(alloc, text) {
        Ok(Some(answer)) => push_untimed(seen, answer),
        Ok(None) => Ok(false),
        Err(e) => Err(e),
    }
}

/// Appends an answer without times, and returns true.
fn push_untimed(seen: &mut Vec<ObservedLine>, answer: LineAnswer) -> Result<bool, AllocError>
    ensures { IfOk result (λ is. seen.new.items ≡ seen.old.items ++ untimed answer ∷ []) }
{
    seen.push(ObservedLine {
        answer,
        from: 0,
        to: u64::MAX,
    })?;
    Ok(true)
}

/// Returns the fault for a processor with fewer answers than lines.
pub(crate) fn too_few(cpu: u32, answers: usize, lines: usize) -> AnswersFault {
    AnswersFault::TooFew {
        cpu,
        answers: answers as u64,
        lines: lines as u64,
    }
}

/// Returns the fault for the first line of `rest`, which is not an answer. `index` answers of the
/// processor come before it, and `number` is the number of the line after the processor's heading.
fn no_answer(rest: &[&str], number: u64, cpu: u32, index: usize, count: usize) -> AnswersFault {
    let line = number.saturating_add(index as u64);
    let [text, ..] = rest else {
        return too_few(cpu, index, count);
    };
    if headed(text).is_some() || recorded(text).is_some() || are_empty(rest) {
        return too_few(cpu, index, count);
    }
    not_understood(text, line)
}

/// Returns the fault for a text that is not an answer.
pub(crate) fn not_understood(text: &str, line: u64) -> AnswersFault {
    if is_of_no_call(text) {
        AnswersFault::NotOfACall { line }
    } else {
        AnswersFault::BadLine { line }
    }
}

/// Checks what follows the answers: at most one line with the number of records, and then only
/// empty lines. `number` is the number of the first line of `rest`.
fn check_last(
    alloc: Global,
    rest: &[&str],
    number: u64,
    processors: u32,
) -> Result<(), AnswersFault>
    ensures { OnOk result (AreLast (map (λ l. l.now) rest.now)) }
{
    let [text, after @ ..] = rest else {
        return Ok(());
    };
    if are_empty(rest) || is_records(alloc, text)? && are_empty(after) {
        return Ok(());
    }
    Err(not_last(alloc, text, number, processors)?)
}

/// Returns the fault for a line after the last processor's answers.
fn not_last(
    alloc: Global,
    text: &str,
    line: u64,
    processors: u32,
) -> Result<AnswersFault, AllocError> {
    if let Some(cpu) = past_last(text, processors) {
        return Ok(AnswersFault::NoProcessor { cpu, line });
    }
    if processors > 0 && is_answer(alloc, text)? {
        return Ok(AnswersFault::TooMany {
            cpu: processors - 1,
            line,
        });
    }
    Ok(AnswersFault::BadLine { line })
}

/// Returns whether all lines are empty.
fn are_empty(lines: &[&str]) -> bool
    ensures { result ≡ are_empty (map (λ l. l.now) lines.now) }
{
    for line in lines {
        if !line.is_empty() {
            return false;
        }
    }
    true
}

/// Returns whether the text is a number of records, such as `7 records`.
fn is_records(alloc: Global, text: &str) -> Result<bool, AllocError>
    ensures { IfOk result (λ is. is ≡ true → IsRecords text.now) }
{
    let Some(count) = recorded(text) else {
        return Ok(false);
    };
    let records = format!(in alloc; "{count} records")?;
    Ok(text == records.as_str())
}

/// Returns the number in a text such as `7 records`, or `None` if the text has another form.
fn recorded(text: &str) -> Option<u64> {
    number64(text.strip_suffix(" records")?)
}
