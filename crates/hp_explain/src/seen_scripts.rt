//! The answers of processors as JSON, one object per line.
ghost use Rattle.std.specs.Prelude.{◌≡◌, ◌++◌, ◌∷◌, ◌<◌, ◌^◌, IfOk, OnOk, [], length, map};
ghost use Rattle.hp_explain.specs.AnswerObjects.{AreSeen, AreUnseen, IsLineTaken, IsTaken, filled};
ghost use Rattle.hp_explain.specs.Explaining.{AreRising};

use crate::answer_lines::too_few;
use crate::answer_objects::{SeenObject, read_object};
use crate::answers_fault::AnswersFault;
use crate::observed::{ObservedLine, ObservedScript};
use hp_schedules::CallScript;
use json::Scratch;
use std::alloc::{AllocError, Global};
use std::marker::Model;
use std::mem::replace;

/// What was seen of a processor so far. In contracts, its value is the list of its lines.
#[derive(Drop)]
struct SeenScript {
    lines: Vec<ObservedLine>,
    /// The latest known time; the next line's answer may not come before it.
    latest: u64,
}

impl Model for SeenScript {
    ghost use Rattle.std.specs.Prelude.{List};
    ghost use Rattle.hp_explain.specs.declared.observed.ObservedLine.{ObservedLine};

    ghost Value = { List ObservedLine };

    ghost view = { λ s. s.lines.items };
}

/// Reads the answers of all processors from the lines of a text. Script k is that of processor k.
pub(crate) fn read_objects(
    alloc: Global,
    lines: &[&str],
    scripts: &[CallScript],
) -> Result<Vec<ObservedScript>, AnswersFault>
    requires { length scripts.now < 2 ^ 32 }
    ensures sizes { IfOk result (λ seen. map length seen.items ≡ map length scripts.now) }
    ensures seen { IfOk result (λ seen. AreSeen (map (λ l. l.now) lines.now) seen.items) }
{
    let mut seen = unseen(alloc, scripts.len())?;
    read_all(alloc, seen.as_mut_slice(), lines, scripts)
}

/// Reads and returns the answers of all processors. They are collected in `seen`, which has none so
/// far.
fn read_all(
    alloc: Global,
    seen: &mut [SeenScript],
    lines: &[&str],
    scripts: &[CallScript],
) -> Result<Vec<ObservedScript>, AnswersFault>
    requires few { length scripts.now < 2 ^ 32 }
    requires none { AreUnseen (length scripts.now) seen.old }
    ensures sizes { IfOk result (λ seen. map length seen.items ≡ map length scripts.now) }
    ensures seen { IfOk result (λ seen. AreSeen (map (λ l. l.now) lines.now) seen.items) }
{
    let mut scratch = Scratch::new(alloc);
    for index in 0..lines.len() {
        if lines[index].is_empty() {
            continue;
        }
        let line = (index as u64).saturating_add(1);
        take_line(alloc, seen, scripts, lines[index], line, &mut scratch)?;
    }
    scripts_of(alloc, seen, scripts)
}

/// Returns an empty `SeenScript` for each processor.
fn unseen(alloc: Global, processors: usize) -> Result<Vec<SeenScript>, AllocError>
    ensures { IfOk result (λ seen. AreUnseen processors seen.items) }
{
    let mut seen = Vec::new(alloc);
    for _cpu in 0..processors {
        seen.reserve(1)?;
        seen.push_reserved(SeenScript {
            lines: Vec::new(alloc),
            latest: 0,
        });
    }
    Ok(seen)
}

/// Takes a line's object as the next answer of its processor.
fn take_line(
    alloc: Global,
    seen: &mut [SeenScript],
    scripts: &[CallScript],
    text: &str,
    line: u64,
    scratch: &mut Scratch,
) -> Result<(), AnswersFault>
    requires few { length scripts.now < 2 ^ 32 }
    requires same { length seen.old ≡ length scripts.now }
    ensures { OnOk result (IsLineTaken text.now seen.old seen.new) }
{
    match read_object(alloc, text, line, scratch) {
        Ok(object) => take_object(seen, scripts, &object, line),
        Err(fault) => Err(fault),
    }
}

/// Takes an object as the next answer of its processor.
fn take_object(
    seen: &mut [SeenScript],
    scripts: &[CallScript],
    object: &SeenObject,
    line: u64,
) -> Result<(), AnswersFault>
    requires few { length scripts.now < 2 ^ 32 }
    requires same { length seen.old ≡ length scripts.now }
    ensures { OnOk result (IsTaken seen.old object.now seen.new) }
{
    let cpu = object.cpu;
    if cpu >= seen.len() as u64 {
        return Err(AnswersFault::NoProcessor { cpu, line });
    }
    let place = cpu as usize;
    if seen[place].count() >= scripts[place].line_count() {
        return Err(AnswersFault::TooMany {
            cpu: cpu as u32,
            line,
        });
    }
    seen[place].push(&object.line, line)
}

impl SeenScript {
    /// Returns how many lines there are.
    fn count(&self) -> usize
        ensures { result ≡ length self.now }
    {
        let lines = &self.lines;
        lines.len()
    }

    /// Appends what was seen of a line. Fails if its `to` is below its own `from` or below a known
    /// time of an earlier line. `line` is the number of its line in the text.
    fn push(&mut self, one: &ObservedLine, line: u64) -> Result<(), AnswersFault>
        ensures { OnOk result (self.new ≡ self.old ++ one.now ∷ []) }
    {
        let latest = self.latest.max(one.from);
        if one.to < latest {
            return Err(AnswersFault::TimesFall { line });
        }
        self.lines.push(ObservedLine {
            answer: one.answer,
            from: one.from,
            to: one.to,
        })?;
        self.latest = if one.to == u64::MAX { latest } else { one.to };
        Ok(())
    }

    /// Returns the lines with a missing `to` filled in from later lines, and empties this value.
    /// Fails if there are not `count` lines.
    fn finish(
        &mut self,
        alloc: Global,
        cpu: u32,
        count: usize,
    ) -> Result<ObservedScript, AnswersFault>
        ensures count { IfOk result (λ script. length script ≡ count) }
        ensures filled { IfOk result (λ script. script ≡ filled self.old) }
    {
        if self.count() != count {
            return Err(too_few(cpu, self.count(), count));
        }
        let mut lines = replace(&mut self.lines, Vec::new(alloc));
        fill_times(lines.as_mut_slice());
        match ObservedScript::new(lines) {
            Some(script) => Ok(script),
            None => unreachable!(),
        }
    }
}

/// Returns what was seen of all processors. Fails if one of them has fewer answers than lines.
fn scripts_of(
    alloc: Global,
    seen: &mut [SeenScript],
    scripts: &[CallScript],
) -> Result<Vec<ObservedScript>, AnswersFault>
    requires few { length scripts.now < 2 ^ 32 }
    requires same { length seen.old ≡ length scripts.now }
    ensures sizes { IfOk result (λ observed. map length observed.items ≡ map length scripts.now) }
    ensures filled { IfOk result (λ observed. observed.items ≡ map filled seen.old) }
{
    let mut observed = Vec::new(alloc);
    for cpu in 0..scripts.len() {
        observed.reserve(1)?;
        let script = seen[cpu].finish(alloc, cpu as u32, scripts[cpu].line_count())?;
        observed.push_reserved(script);
    }
    Ok(observed)
}

/// Lowers each line's `to` to the lowest `to` of the lines after it, if that is lower.
fn fill_times(lines: &mut [ObservedLine])
    ensures rising { AreRising lines.new }
    ensures filled { lines.new ≡ filled lines.old }
{
    let mut later = u64::MAX;
    for passed in 0..lines.len() {
        let line = &mut lines[lines.len() - 1 - passed];
        line.to = line.to.min(later);
        later = line.to;
    }
}
