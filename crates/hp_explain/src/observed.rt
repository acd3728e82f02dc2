//! What was seen of a run in threads.
ghost use Rattle.std.specs.Prelude.{◌≡◌, ◌↔◌, ◌<◌, ◌^◌, IfNone, IfSome, IsTrue, List, Some, length, option_and_then, option_map, slice_get};
ghost use Rattle.hp_explain.specs.Explaining.{AreRising, AreOverBefore, HasSeen};
ghost use Rattle.hp_explain.specs.declared.observed.ObservedLine.{ObservedLine as SeenLine};

use hp_schedules::LineAnswer;
use hp_units::Cpu;
use std::marker::Model;

/// What was seen of a line.
#[derive(Clone, Copy, PartialEq, Eq, Drop)]
pub struct ObservedLine {
    /// The line's answer.
    pub answer: LineAnswer,
    /// The line began at this time or later; 0 if that is unknown.
    pub from: u64,
    /// The line was answered at this time or before; `u64::MAX` if that is unknown.
    pub to: u64,
}

/// What was seen of a processor's lines, in their order. No line's `to` is below that of an earlier
/// line. In contracts, the value is the list of the lines.
#[derive(Drop)]
pub struct ObservedScript {
    lines: Vec<ObservedLine>,
}

impl Model for ObservedScript {
    ghost use Rattle.std.specs.Prelude.{List};
    ghost use Rattle.hp_explain.specs.declared.observed.ObservedLine.{ObservedLine};
    ghost use Rattle.hp_explain.specs.Explaining.{AreRising};

    ghost Value = { List ObservedLine };

    ghost view = { λ s. s.lines.items };

    ghost invariant = { λ s. AreRising s.lines.items };
}

impl ObservedScript {
    /// Returns the lines as a script, or `None` if a line's `to` is below that of an earlier line.
    /// Allocates nothing.
    pub fn new(lines: Vec<ObservedLine>) -> Option<ObservedScript>
        ensures some { IfSome result (λ script. script ≡ lines.items) }
        ensures none { IfNone result (AreRising lines.items → ⊥) }
    {
        if !are_rising(lines.as_slice()) {
            return None;
        }
        Some(ObservedScript { lines })
    }

    /// Returns the lines in order.
    pub fn lines(&self) -> &[ObservedLine]
        ensures { result.now ≡ self.now }
    {
        let lines = &self.lines;
        lines.as_slice()
    }

    /// Returns the line at index `number`, if there is one.
    fn line(&self, number: usize) -> Option<&ObservedLine>
        ensures { option_map (λ l. l.now) result ≡ slice_get self.now number }
    {
        self.lines().get(number)
    }

    /// Returns whether each line whose `to` is below `time` is among the first `count`.
    fn are_over(&self, count: usize, time: u64) -> bool
        ensures { IsTrue result ↔ AreOverBefore self.now count time }
    {
        let _ = &self.lines;
        match self.line(count) {
            Some(line) => line.to >= time,
            None => true,
        }
    }
}

/// Returns whether no line's `to` is below that of an earlier line.
fn are_rising(lines: &[ObservedLine]) -> bool
    ensures { IsTrue result ↔ AreRising lines.now }
{
    for index in 1..lines.len() {
        if lines[index].to < lines[index - 1].to {
            return false;
        }
    }
    true
}

/// What was seen of all processors, from processor 0. In contracts, the value is the list of their
/// lists of lines.
#[derive(Drop)]
pub struct Observed {
    scripts: Vec<ObservedScript>,
}

impl Model for Observed {
    ghost use Rattle.std.specs.Prelude.{◌<◌, ◌^◌, List, length};
    ghost use Rattle.hp_explain.specs.declared.observed.ObservedLine.{ObservedLine};

    ghost Value = { List (List ObservedLine) };

    ghost view = { λ s. s.scripts.items };

    ghost invariant = { λ s. length s.scripts.items < 2 ^ 32 };
}

impl Observed {
    /// Creates the value from what was seen of each processor, from processor 0. Allocates nothing.
    pub fn new(scripts: Vec<ObservedScript>) -> Observed
        requires { length scripts.items < 2 ^ 32 }
        ensures { result ≡ scripts.items }
    {
        Observed { scripts }
    }

    /// Returns how many processors there are.
    pub fn processors(&self) -> u32
        ensures { result ≡ length self.now }
    {
        let scripts = &self.scripts;
        scripts.len() as u32
    }

    /// Returns a processor's lines, or `None` if there is no such processor.
    pub fn lines_of(&self, cpu: u32) -> Option<&[ObservedLine]>
        ensures { option_map (λ lines. lines.now) result ≡ slice_get self.now cpu }
    {
        let scripts = &self.scripts;
        match scripts.get(cpu as usize) {
            Some(script) => Some(script.lines()),
            None => None,
        }
    }

    /// Returns whether each of the processor's lines whose `to` is below `time` is among the first
    /// `count`.
    pub(crate) fn are_over(&self, cpu: u32, count: usize, time: u64) -> bool
        requires { cpu < length self.now }
        ensures { (lines : List SeenLine) → slice_get self.now cpu ≡ Some lines
            → (IsTrue result ↔ AreOverBefore lines count time) }
    {
        let scripts = &self.scripts;
        scripts[cpu as usize].are_over(count, time)
    }

    /// Returns whether `answer` was seen of the processor's line at index `line`. Returns false for
    /// `None`, and if there is no such line.
    pub(crate) fn has_seen(&self, cpu: Cpu, line: usize, answer: Option<LineAnswer>) -> bool
        ensures { IsTrue result ↔ HasSeen self.now cpu line answer }
    {
        match self.line(cpu.0, line) {
            Some(seen) => match answer {
                Some(answer) => answer.same(&seen.answer),
                None => false,
            },
            None => false,
        }
    }

    /// Returns what was seen of the processor's line at index `line`, if there is such a line.
    pub(crate) fn line(&self, cpu: u32, line: usize) -> Option<&ObservedLine>
        ensures { option_map (λ l. l.now) result
            ≡ option_and_then (λ lines. slice_get lines line) (slice_get self.now cpu) }
    {
        self.lines_of(cpu)?.get(line)
    }
}
