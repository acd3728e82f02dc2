//! The rows of a trace.
ghost use Rattle.std.specs.Prelude.{◌≡◌, ◌++◌, [], IfOk, OnOk, string_bytes};
ghost use Rattle.std.specs.Str.Lines.{lines};
ghost use Rattle.hp_trace.specs.Rows.{AddsRow, AreDrawn, DrawsIf, IsRow, IsRowLogged, IsRowTold, IsTextTold, IsWritten, Says, line_rows, no_rows, noted};
ghost use Rattle.hp_map.specs.Rows.{row_with};

mod joined;

use crate::columns::write_row;
use crate::folds::{RowLayout, memory_text};
use crate::json_rows::JsonRows;
use crate::state_logs::StateLog;
use crate::view::View;
use hp_judge::LogEvent;
use hp_machine::Machine;
use hp_map::{BlockPicture, Move, RoundJoiner, RowPicture, picture_of};
use hp_scenario::Line;
use hp_units::{Receipt, Text};
use indexmap::IndexSet;
use std::alloc::{AllocError, Global};
use std::marker::Model;
use std::mem::replace;

/// The form in which the rows of a line are kept.
#[derive(Clone, Copy)]
pub(crate) enum Form {
    /// None: rows are dropped.
    Unseen,
    /// Text, each row as soon as it is drawn.
    Written,
    /// Text in which equal rounds are joined.
    Joined,
    /// Values, each with all memory blocks.
    Kept,
    /// The events that lead from each state of the memory to the next.
    Logged,
    /// Lines of JSON.
    Told,
}

/// The rows so far, in one form: as text, as values, as the events of a log, or as JSON.
pub(crate) struct Rows {
    form: Form,
    row_layout: RowLayout,
    text: String,
    /// In the form `Kept` all rows, and in a form of text the last row that was written.
    kept: Vec<RowPicture>,
    log: StateLog,
    json: JsonRows,
    joiner: RoundJoiner,
}

/// Keeps callers from proving again how each field is dropped.
impl Drop for Rows {
    fn drop(self) {
        let Rows {
            form: _,
            row_layout: _,
            text: _text,
            kept: _kept,
            log: _log,
            json: _json,
            joiner: _joiner,
        } = self;
    }
}

impl Model for Rows {
    ghost use Rattle.std.specs.Prelude.{string_bytes};
    ghost use Rattle.hp_trace.specs.Rows.{RowsValue};

    ghost Value = { RowsValue };

    ghost view = { λ r. record {
      form = r.form;
      text = string_bytes r.text;
      kept = r.kept.items;
      log = r.log;
      json = r.json;
      joiner = r.joiner;
    } };
}

impl Rows {
    /// Creates an empty list of rows.
    pub(crate) fn new(alloc: Global, form: Form, view: View) -> Rows
        ensures { result ≡ no_rows form }
    {
        Rows {
            form,
            row_layout: RowLayout::new(view),
            text: String::new(alloc),
            kept: Vec::new(alloc),
            log: StateLog::new(alloc),
            json: JsonRows::new(alloc),
            joiner: RoundJoiner::new(alloc),
        }
    }

    /// Adds a text of lines.
    pub(crate) fn say(&mut self, alloc: Global, text: &str) -> Result<(), AllocError>
        ensures { OnOk result (Says text.now self.old self.new) }
    {
        match self.form {
            Form::Unseen => Ok(()),
            Form::Written => self.text.push_str(text),
            Form::Joined => self.join_lines(alloc, text),
            Form::Kept => keep_lines(&mut self.kept, alloc, text),
            Form::Logged => Ok(()),
            Form::Told => self.tell_text(alloc, text),
        }
    }

    /// Adds a text as a row of JSON.
    fn tell_text(&mut self, alloc: Global, text: &str) -> Result<(), AllocError>
        ensures { OnOk result (IsTextTold self.old self.new) }
    {
        self.json.say(alloc, text)
    }

    /// Begins a line, whose rows come next.
    pub(crate) fn begin_line(
        &mut self,
        alloc: Global,
        names: &IndexSet<Text>,
        number: u64,
        line: &Line,
    ) -> Result<(), AllocError>
        ensures { OnOk result (self.new ≡ self.old) }
    {
        match self.form {
            Form::Told => self.json.begin_line(alloc, names, number, line),
            _ => Ok(()),
        }
    }

    /// Notes how many records the line sealed, for its next row.
    pub(crate) fn set_sealed(&mut self, count: u64)
        ensures { self.new ≡ self.old }
    {
        self.json.set_sealed(count);
    }

    /// Adds a row with the machine's memory: what was asked, what was answered, the page that
    /// moved, and the call if one was made.
    pub(crate) fn draw(
        &mut self,
        alloc: Global,
        machine: &Machine,
        asked: &str,
        answer: &str,
        moved: Option<Move>,
        receipt: Option<&Receipt>,
    ) -> Result<(), AllocError>
        ensures { OnOk result
            (DrawsIf self.old.form machine.now asked.now answer.now moved self.old self.new) }
    {
        match self.form {
            Form::Unseen => Ok(()),
            Form::Written => self.draw_row(alloc, machine, asked, answer, moved),
            Form::Joined => self.draw_row(alloc, machine, asked, answer, moved),
            Form::Kept => self.draw_row(alloc, machine, asked, answer, moved),
            Form::Logged => self.log_row(alloc, machine),
            Form::Told => self.tell_row(alloc, machine, receipt),
        }
    }

    /// Draws a row, and adds it.
    fn draw_row(
        &mut self,
        alloc: Global,
        machine: &Machine,
        asked: &str,
        answer: &str,
        moved: Option<Move>,
    ) -> Result<(), AllocError>
        ensures { OnOk result
            (IsRow self.old.form machine.now asked.now answer.now moved self.old self.new) }
    {
        let blocks = picture_of(alloc, machine, self.row_layout.orders)?;
        let row = row_with(alloc, asked, answer, moved, blocks)?;
        self.add(alloc, row)
    }

    /// Writes, joins or keeps a row, by the form. Does nothing in a form without pictures.
    fn add(&mut self, alloc: Global, row: RowPicture) -> Result<(), AllocError>
        ensures { OnOk result (AddsRow self.old.form row self.old self.new) }
    {
        match self.form {
            Form::Unseen | Form::Logged | Form::Told => Ok(()),
            Form::Written => self.write(alloc, row),
            Form::Joined => self.join(alloc, row),
            Form::Kept => {
                self.kept.push(row)?;
                Ok(())
            }
        }
    }

    /// Writes a row, and keeps it in place of the last one.
    fn write(&mut self, alloc: Global, row: RowPicture) -> Result<(), AllocError>
        ensures { OnOk result (IsWritten row self.old self.new) }
    {
        self.write_text(alloc, &row)?;
        self.kept.clear();
        self.kept.push(row)?;
        Ok(())
    }

    /// Writes a row below the last one.
    fn write_text(&mut self, alloc: Global, row: &RowPicture) -> Result<(), AllocError>
        ensures { OnOk result (IsWritten row.now self.old self.new) }
    {
        let memory = memory_text(alloc, self.row_layout, self.blocks_before(), row.blocks())?;
        let is_first = self.kept.is_empty();
        self.row_layout = self.row_layout.after(alloc, is_first, row.blocks())?;
        write_row(&mut self.text, alloc, row, memory.as_str())
    }

    /// Returns the memory blocks of the last row, or none before the first.
    fn blocks_before(&self) -> &[BlockPicture] {
        match self.kept.last() {
            Some(row) => row.blocks(),
            None => &[],
        }
    }

    /// Adds to the log the events that lead to the machine's memory.
    fn log_row(&mut self, alloc: Global, machine: &Machine) -> Result<(), AllocError>
        ensures { OnOk result (IsRowLogged machine.now self.old self.new) }
    {
        self.log.observe(alloc, machine)?;
        Ok(())
    }

    /// Adds a row as JSON.
    fn tell_row(
        &mut self,
        alloc: Global,
        machine: &Machine,
        receipt: Option<&Receipt>,
    ) -> Result<(), AllocError>
        ensures { OnOk result (IsRowTold machine.now self.old self.new) }
    {
        self.json.draw(alloc, machine, receipt)
    }

    /// Adds a row without an answer, and below it a text of lines.
    pub(crate) fn note(
        &mut self,
        alloc: Global,
        machine: &Machine,
        asked: &str,
        text: &str,
    ) -> Result<(), AllocError>
        ensures { OnOk result (AreDrawn (noted machine.now asked.now text.now) self.old self.new) }
    {
        self.draw(alloc, machine, asked, "", None, None)?;
        self.say(alloc, text)
    }

    /// Returns the text so far.
    pub(crate) fn text(&self) -> &str
        ensures { result.now ≡ self.now.text }
    {
        self.text.as_str()
    }

    /// Empties the text. The last row is still known: the next one is written as a row below it.
    pub(crate) fn clear_text(&mut self)
        ensures { self.new ≡ record self.old { text = [] } }
    {
        self.text.clear();
    }

    /// Returns the text of the rows.
    pub(crate) fn into_text(self, alloc: Global) -> String
        ensures { string_bytes result ≡ self.text }
    {
        let mut all = self;
        replace(&mut all.text, String::new(alloc))
    }

    /// Returns the rows as values.
    pub(crate) fn into_kept(self, alloc: Global) -> Vec<RowPicture>
        ensures { result.items ≡ self.kept }
    {
        let mut all = self;
        replace(&mut all.kept, Vec::new(alloc))
    }

    /// Returns the events of the log.
    pub(crate) fn into_events(self, alloc: Global) -> Vec<LogEvent>
        ensures { result.items ≡ self.log.events }
    {
        let mut all = self;
        let log = replace(&mut all.log, StateLog::new(alloc));
        log.into_events()
    }

    /// Returns the text of the rows as JSON.
    pub(crate) fn into_json(self, alloc: Global) -> String
        ensures { string_bytes result ≡ self.json.text }
    {
        let mut all = self;
        let json = replace(&mut all.json, JsonRows::new(alloc));
        json.into_text()
    }
}

/// Keeps each line of a text as a row without memory blocks.
fn keep_lines(kept: &mut Vec<RowPicture>, alloc: Global, text: &str) -> Result<(), AllocError>
    ensures { OnOk result (kept.new.items ≡ kept.old.items ++ line_rows (lines text.now)) }
{
    for line in text.lines() {
        kept.push(row_with(alloc, line, "", None, Vec::new(alloc))?)?;
    }
    Ok(())
}

/// Returns a row of these texts, this move and these memory blocks.
fn row_with(
    alloc: Global,
    asked: &str,
    answer: &str,
    moved: Option<Move>,
    blocks: Vec<BlockPicture>,
) -> Result<RowPicture, AllocError>
    ensures { IfOk result (λ row. row ≡ row_with asked.now answer.now moved blocks.items) }
{
    let asked = String::from_str(alloc, asked)?;
    let answer = String::from_str(alloc, answer)?;
    let asked = Text::new(asked);
    let answer = Text::new(answer);
    Ok(RowPicture::new(asked, answer, moved, blocks))
}
