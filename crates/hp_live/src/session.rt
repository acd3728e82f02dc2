//! A session: a machine, and the lines that it has replied to.
ghost use Rattle.std.specs.Prelude.{◌≡◌, ◌≢◌, ◌<◌, ◌+◌, List, ℕ, [], ◌∷◌, ◌++◌, length, IfErr, IfOk, OnOk, false, true, vec_capacity, vec_len};
ghost use Rattle.hp_scenario.specs.Asked.{asked_by};
ghost use Rattle.hp_live.specs.Answers.{Answers, IsDone, untold};
ghost use Rattle.hp_live.specs.Results.{number_asked, typed_by};
ghost use Rattle.hp_scripts.specs.Seen.{named_seen};
ghost use Rattle.hp_commands.specs.Serial.{WritesLines};
ghost use Rattle.hp_live.specs.Sessions.{AnswersRead, AnswersText, IsLost, IsLostTyped, IsResumed, started};

use crate::answers::LiveAnswer;
use crate::results::{Ran, note, number_of};
use crate::runs::answer_line;
use hp_machine::UnrecordedMachine;
use hp_scenario::{Line, Scenario, read_line};
use hp_scripts::{Bindings, NamedScenario, PlainLine, plain_line, resolve_front};
use hp_units::{Layout, Text};
use indexmap::IndexSet;
use std::alloc::{AllocError, Global};
use std::marker::Model;

/// What memory ran out for.
#[derive(Clone, Copy, Drop)]
pub enum Lack {
    /// Keeping another line. Nothing was run, and nothing changed.
    Line,
    /// Writing the answer of a line that was run, or binding the name of its result. The session
    /// has kept the line.
    Answer,
}

/// A machine that replies to lines one at a time. The session keeps all lines so far, with plain
/// numbers in place of names for results, and the names of owners and of results in them.
#[derive(Drop)]
pub struct Session {
    pub(crate) names: IndexSet<Text>,
    pub(crate) lines: Vec<Line>,
    pub(crate) bound: Bindings,
    pub(crate) machine: UnrecordedMachine,
}

impl Model for Session {
    ghost use Rattle.hp_live.specs.Sessions.{SessionValue};

    ghost Value = { SessionValue };

    ghost view = { λ s. record {
      names = s.names.keys;
      lines = s.lines.items;
      bound = s.bound;
      machine = s.machine;
    } };
}

impl Session {
    /// Creates a session on a machine just booted.
    pub fn start(alloc: Global, layout: &Layout) -> Result<Session, AllocError>
        ensures { IfOk result (λ session. session ≡ started layout.now) }
    {
        let machine = UnrecordedMachine::boot(alloc, layout)?;
        Ok(Session {
            names: IndexSet::new(alloc),
            lines: Vec::new(alloc),
            bound: Bindings::new(alloc),
            machine,
        })
    }

    /// Boots the machine of a scenario and runs its lines, which the session keeps. Later lines may
    /// work on their results by name.
    pub fn resume(alloc: Global, named: NamedScenario) -> Result<Session, AllocError>
        ensures { IfOk result (IsResumed (named_seen named)) }
    {
        let NamedScenario {
            scenario,
            sources: _,
            bound,
        } = resolve_front(alloc, named, u64::MAX)?;
        let Scenario {
            layout,
            names,
            lines,
        } = scenario;
        let mut machine = UnrecordedMachine::boot(alloc, &layout)?;
        run_all(alloc, &mut machine, lines.as_slice())?;
        Ok(Session {
            names,
            lines: lines.into_vec(),
            bound,
            machine,
        })
    }

    /// Returns how many lines there are so far.
    pub fn line_count(&self) -> u64
        ensures { result ≡ length self.now.lines }
    {
        self.lines.len() as u64
    }

    /// Returns the number of the line that comes next.
    pub fn next_number(&self) -> u64
        ensures { result ≡ length self.now.lines + 1 }
    {
        self.lines.len() as u64 + 1
    }

    /// Reads a line, runs it, and makes its answer in `out`: the text is that of `hotplug serial`.
    /// The session keeps the line, with plain numbers. A text that cannot be read as a line changes
    /// nothing.
    ///
    /// Memory to keep the line is reserved before it is run. After an error, `out` has no meaning,
    /// and the name that the line gives to its result may be that of no result.
    pub fn answer(&mut self, alloc: Global, text: &str, out: &mut LiveAnswer) -> Result<(), Lack>
        ensures ok { OnOk result (AnswersText self.old text.now out.new self.new) }
        ensures err { IfErr result (λ lack. IsLost lack self.old text.now self.new) }
    {
        match plain_line(alloc, text, &self.bound) {
            Ok(plain) => self.answer_plain(alloc, plain, out),
            Err(AllocError) => Err(Lack::Line),
        }
    }

    /// Reads a line in which names for results were replaced by numbers, runs it, and makes its
    /// answer in `out`. A text that cannot be read as a line changes nothing.
    fn answer_plain(
        &mut self,
        alloc: Global,
        plain: PlainLine,
        out: &mut LiveAnswer,
    ) -> Result<(), Lack>
        ensures ok { OnOk result (AnswersRead self.old (typed_by self.old.names plain) out.new self.new) }
        ensures err { IfErr result
            (λ lack. IsLostTyped lack self.old (typed_by self.old.names plain) self.new) }
    {
        out.clear();
        let PlainLine {
            text,
            source: _,
            naming,
        } = plain;
        let Ok(()) = self.lines.reserve(1) else {
            return Err(Lack::Line);
        };
        let place = self.lines.len();
        match read_line(alloc, &mut self.names, text.as_str()) {
            Ok(Some(line)) => {
                let ran = run_and_keep(&mut self.lines, &mut self.machine, alloc, line, out);
                let is_noted = note(&mut self.bound, naming, place, ran.number);
                or_lack(ran.is_answered && is_noted)
            }
            Ok(None) => Ok(()),
            Err(AllocError) => Err(Lack::Line),
        }
    }
}

/// Runs lines one after another, and drops their answers.
fn run_all(alloc: Global, machine: &mut UnrecordedMachine, lines: &[Line]) -> Result<(), AllocError>
    ensures { OnOk result
        ((text : List ℕ) × WritesLines machine.old lines.now text machine.new) }
{
    let mut answer = LiveAnswer::new(alloc);
    for line in lines {
        answer.clear();
        answer_line(&mut answer, alloc, machine, line)?;
    }
    Ok(())
}

/// Runs a line, makes its answer in `out`, and appends the line to `lines`, which has room for it.
fn run_and_keep(
    lines: &mut Vec<Line>,
    machine: &mut UnrecordedMachine,
    alloc: Global,
    line: Line,
    out: &mut LiveAnswer,
) -> Ran
    requires room { vec_len lines.old < vec_capacity lines.old }
    requires empty { out.old ≡ untold }
    ensures kept { lines.new.items ≡ lines.old.items ++ line ∷ [] }
    ensures number { result.number ≡ number_asked (asked_by line.work) out.new.did }
    ensures ok { result.is_answered ≡ true
        → Answers machine.old line.cpu (asked_by line.work) out.new machine.new }
    ensures done { IsDone machine.old line.cpu (asked_by line.work) out.new.did machine.new }
{
    let answered = answer_line(out, alloc, machine, &line);
    let number = number_of(&line.work, out.did().left());
    lines.push_reserved(line);
    Ran {
        number,
        is_answered: answered.is_ok(),
    }
}

/// Returns `Lack::Answer` if a line was run, but memory ran out for its answer.
fn or_lack(is_answered: bool) -> Result<(), Lack>
    ensures ok { OnOk result (is_answered ≡ true) }
    ensures err { IfErr result (λ lack. (lack ≡ Lack.Answer) × (is_answered ≡ false)) }
{
    if is_answered {
        Ok(())
    } else {
        Err(Lack::Answer)
    }
}
