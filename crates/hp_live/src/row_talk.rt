//! A machine that replies in rows, as `hotplug_lab trace` draws them.
ghost use Rattle.std.specs.Prelude.{◌≡◌, ◌<◌, ◌+◌, ◌++◌, List, ℕ, [], ◌∷◌, IfOk, OnErr, OnOk, length, string_bytes, true, vec_capacity, vec_len};
ghost use Rattle.hp_scripts.specs.Seen.{named_seen};
ghost use Rattle.hp_scenario.specs.Asked.{asked_by};
ghost use Rattle.hp_scenario.specs.Seen.{scenario_seen};
ghost use Rattle.hp_text.specs.Scenarios.{scenario_text};
ghost use Rattle.hp_text.specs.State.{state_text};
ghost use Rattle.hp_streams.specs.Talks.{RepliesTo, line_limit};
ghost use Rattle.hp_trace.specs.Lives.{LivesOn, without_text};
ghost use Rattle.hp_live.specs.Results.{number_left, typed_by, typed_in};
ghost use Rattle.hp_live.specs.RowTalks.{IsLostRow, IsLostTyped, RowsBegun, RowsText, RowsRead, RowsWord, Stays, cleared, later_view};
ghost use Rattle.hp_live.specs.Talks.{word_of};

use crate::live_words::{LiveWord, word_of};
use crate::results::{Ran, left_in, note, number_of};
use crate::words::help;
use hp_check::{name_typo, write_expected};
use hp_scenario::{Line, Scenario, read_line};
use hp_scripts::{Bindings, NamedScenario, PlainLine, plain_line, resolve_front};
use hp_streams::Talk;
use hp_text::{write_scenario, write_state};
use hp_trace::{LiveTrace, View};
use hp_units::Text;
use indexmap::IndexSet;
use std::alloc::{AllocError, Global};
use std::marker::Model;
use std::str;

/// Replies to each line with its rows: the answer, and the memory after each of its calls. Replies
/// to a command word such as `state` with a text. An empty line has no reply.
#[derive(Drop)]
pub struct RowTalk {
    names: IndexSet<Text>,
    lines: Vec<Line>,
    bound: Bindings,
    trace: LiveTrace,
    /// The reply.
    text: String,
}

impl Model for RowTalk {
    ghost use Rattle.std.specs.Prelude.{string_bytes};
    ghost use Rattle.hp_live.specs.RowTalks.{RowsSession};

    ghost Value = { RowsSession };

    ghost view = { λ t. record {
      names = t.names.keys;
      lines = t.lines.items;
      bound = t.bound;
      trace = t.trace;
      text = string_bytes t.text;
    } };
}

impl RowTalk {
    /// Begins a talk after a scenario's lines.
    pub fn begin(
        alloc: Global,
        named: NamedScenario,
        width: u64,
        orders: bool,
    ) -> Result<RowTalk, AllocError>
        ensures { IfOk result (RowsBegun (named_seen named) width orders) }
    {
        let NamedScenario {
            scenario,
            sources: _,
            bound,
        } = resolve_front(alloc, named, u64::MAX)?;
        let view = view_after(&scenario, width, orders);
        let trace = LiveTrace::begin(alloc, &scenario, view)?;
        let Scenario {
            layout: _,
            names,
            lines,
        } = scenario;
        Ok(RowTalk {
            names,
            lines: lines.into_vec(),
            bound,
            trace,
            text: String::new(alloc),
        })
    }

    /// Returns the row of the memory before the first line of the talk.
    pub fn first_row(&self) -> &str
        ensures { result.now ≡ self.now.trace.rows.text }
    {
        self.trace.text()
    }

    /// Writes the reply to a line.
    fn write_reply(&mut self, alloc: Global, line: &[u8]) -> Result<(), AllocError>
        ensures ok { OnOk result (RowsText (cleared self.old) line.now self.new.text self.new) }
        ensures err { OnErr result (IsLostRow (cleared self.old) line.now self.new) }
    {
        self.clear();
        match str::from_utf8(line) {
            Ok(text) => self.write_to_text(alloc, text),
            Err(_) => self.text.push_str("no line: it is not UTF-8\n"),
        }
    }

    /// Does what the typed text asks for, and writes the reply into `self.text`, which is empty so
    /// far.
    fn write_to_text(&mut self, alloc: Global, text: &str) -> Result<(), AllocError>
        requires { self.old.text ≡ [] }
        ensures ok { OnOk result (RowsWord (word_of text.now) self.old text.now self.new.text self.new) }
        ensures err { OnErr result (IsLostRow self.old text.now self.new) }
    {
        match word_of(text) {
            LiveWord::Nothing => Ok(()),
            LiveWord::Help => self.text.push_str(help()),
            LiveWord::State => self.show_state(alloc),
            LiveWord::Scenario => self.show_scenario(),
            LiveWord::Line => self.write_to_line(alloc, text),
        }
    }

    /// Writes the machine's state.
    fn show_state(&mut self, alloc: Global) -> Result<(), AllocError>
        ensures ok { OnOk result (self.new.text ≡ self.old.text
            ++ state_text self.old.trace.machine.layout self.old.names self.old.trace.machine.state) }
        ensures stays { Stays self.old self.new }
    {
        let image = self.trace.machine().image(alloc)?;
        write_state(&mut self.text, alloc, &image, &self.names)
    }

    /// Writes the layout and all lines so far as JSON.
    fn show_scenario(&mut self) -> Result<(), AllocError>
        ensures ok { OnOk result (self.new.text ≡ self.old.text
            ++ scenario_text self.old.trace.machine.layout self.old.names self.old.lines []) }
        ensures stays { Stays self.old self.new }
    {
        write_scenario(
            &mut self.text,
            self.trace.machine().layout(),
            &self.names,
            self.lines.as_slice(),
            &[],
        )
    }

    /// Runs a text if it can be read as a line, and writes its rows. Otherwise writes why it
    /// cannot. Keeps the line, unless there is no memory for it.
    fn write_to_line(&mut self, alloc: Global, text: &str) -> Result<(), AllocError>
        requires { self.old.text ≡ [] }
        ensures ok { OnOk result
            (RowsRead (typed_in self.old.names self.old.bound text.now) self.old self.new.text self.new) }
        ensures err { OnErr result (IsLostRow self.old text.now self.new) }
    {
        let plain = plain_line(alloc, text, &self.bound)?;
        self.write_to_plain(alloc, text, plain)
    }

    /// Runs `plain`, in which names for results were replaced by numbers, if it can be read as a
    /// line, and writes its rows. Otherwise writes why it cannot; for this, `text` is the original.
    /// Keeps the line, unless there is no memory for it.
    fn write_to_plain(
        &mut self,
        alloc: Global,
        text: &str,
        plain: PlainLine,
    ) -> Result<(), AllocError>
        requires { self.old.text ≡ [] }
        ensures ok { OnOk result
            (RowsRead (typed_by self.old.names plain) self.old self.new.text self.new) }
        ensures err { OnErr result (IsLostTyped self.old (typed_by self.old.names plain) self.new) }
    {
        let PlainLine {
            text: line,
            source: _,
            naming,
        } = plain;
        self.lines.reserve(1)?;
        let place = self.lines.len();
        match read_line(alloc, &mut self.names, line.as_str())? {
            Some(line) => {
                let ran = run_and_keep(&mut self.lines, &mut self.trace, alloc, &self.names, line);
                let is_noted = note(&mut self.bound, naming, place, ran.number);
                write_rows(&mut self.text, &self.trace, ran.is_answered && is_noted)
            }
            None => write_no_line(&mut self.text, alloc, text, &self.bound),
        }
    }

    /// Empties the reply, and the rows of the line before.
    fn clear(&mut self)
        ensures { self.new ≡ cleared self.old }
    {
        self.trace.clear();
        self.text.clear();
    }
}

/// Runs a line, draws its rows, and appends it to `lines`, which has room for it.
fn run_and_keep(
    lines: &mut Vec<Line>,
    trace: &mut LiveTrace,
    alloc: Global,
    names: &IndexSet<Text>,
    line: Line,
) -> Ran
    requires { vec_len lines.old < vec_capacity lines.old }
    ensures kept { lines.new.items ≡ lines.old.items ++ line ∷ [] }
    ensures ok { result.is_answered ≡ true
        → LivesOn names.now.keys (length lines.new.items) line trace.old trace.new }
    ensures number { result.number
        ≡ number_left (asked_by line.work) trace.old.machine trace.new.machine }
{
    let number = lines.len() as u64 + 1;
    let before = trace.machine().history().len();
    let ran = trace.run(alloc, names, number, &line);
    let result = number_of(&line.work, left_in(trace.machine(), before));
    lines.push_reserved(line);
    Ran {
        number: result,
        is_answered: ran.is_ok(),
    }
}

/// Writes the rows of a line that was run, if there was memory for all of them.
fn write_rows(out: &mut String, trace: &LiveTrace, are_drawn: bool) -> Result<(), AllocError>
    ensures drawn { OnOk result (are_drawn ≡ true) }
    ensures ok { OnOk result (string_bytes out.new ≡ string_bytes out.old ++ trace.now.rows.text) }
{
    if !are_drawn {
        return Err(AllocError);
    }
    out.push_str(trace.text())
}

/// Writes why a text cannot be read as a line. `bound` has the names of earlier results.
fn write_no_line(
    out: &mut String,
    alloc: Global,
    text: &str,
    bound: &Bindings,
) -> Result<(), AllocError> {
    let names = name_typo(alloc, text, bound)?;
    out.push_str("no line: ")?;
    write_expected(out, text, &names)?;
    out.push_str("\n")
}

/// Returns the view of all lines after those of a scenario.
fn view_after(scenario: &Scenario, width: u64, orders: bool) -> View
    ensures { result ≡ later_view (scenario_seen scenario.now) width orders }
{
    View {
        from: scenario.lines.as_slice().len() as u64 + 1,
        to: u64::MAX,
        every: 1,
        width,
        orders,
    }
}

impl Talk for RowTalk {
    ghost use Rattle.hp_live.specs.RowTalks.{RepliesRows, lost_row};

    ghost replies = { RepliesRows };

    ghost lost_text = { lost_row };

    fn lost(&self) -> &'static str {
        "fault OutOfMemory\n"
    }

    fn reply(&mut self, alloc: Global, line: &[u8], out: &mut Vec<u8>) -> Result<(), AllocError> {
        self.write_reply(alloc, line)?;
        out.extend_from_slice(self.text.as_bytes())
    }

    fn reply_to_long(&mut self, alloc: Global, out: &mut Vec<u8>) -> Result<(), AllocError> {
        let _ = alloc;
        self.clear();
        out.extend_from_slice(b"no line: it has more than 65536 bytes\n".as_slice())
    }
}
