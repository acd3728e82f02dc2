//! The text of a trace in which equal rounds are joined.
ghost use Rattle.std.specs.Prelude.{◌≡◌, ◌∷◌, [], List, IfOk, OnOk, string_bytes};
ghost use Rattle.std.specs.Option.{option_to_list};
ghost use Rattle.std.specs.Str.Lines.{lines};
ghost use Rattle.hp_map.specs.Rows.{RowValue};
ghost use Rattle.hp_trace.specs.Rows.{AreJoinedTo, AreMoreShown, AreRowsShown, IsJoinedSoFar, IsRowShown, line_rows};
ghost use Rattle.hp_trace.specs.RowsJoined.{IsJoinedText, is_line, more_line};

use super::{Rows, row_with};
use hp_map::{RoundJoiner, Rounds, RowPicture};
use std::alloc::{AllocError, Global};
use std::mem::replace;

impl Rows {
    /// Adds a row. Shows the last entry (one row, or equal rounds of a plan's calls) if no more
    /// rows can be joined to it.
    pub(super) fn join(&mut self, alloc: Global, row: RowPicture) -> Result<(), AllocError>
        ensures { OnOk result (AreJoinedTo (row ∷ []) self.old self.new) }
    {
        let gone = self.joiner.push(alloc, row)?;
        self.show(alloc, gone)
    }

    /// Adds each line of a text as a row without memory blocks.
    pub(super) fn join_lines(&mut self, alloc: Global, text: &str) -> Result<(), AllocError>
        ensures { OnOk result (AreJoinedTo (line_rows (lines text.now)) self.old self.new) }
    {
        for line in text.lines() {
            let row = row_with(alloc, line, "", None, Vec::new(alloc))?;
            self.join(alloc, row)?;
        }
        Ok(())
    }

    /// Shows an entry, if there is one.
    fn show(&mut self, alloc: Global, entry: Option<Rounds>) -> Result<(), AllocError>
        ensures { OnOk result (AreMoreShown (option_to_list entry) self.old self.new) }
    {
        match entry {
            Some(entry) => self.show_entry(alloc, entry),
            None => Ok(()),
        }
    }

    /// Shows an entry: the rows of its first round, and a line about the others.
    fn show_entry(&mut self, alloc: Global, entry: Rounds) -> Result<(), AllocError>
        ensures { OnOk result (AreMoreShown (entry ∷ []) self.old self.new) }
    {
        let more = more_line(alloc, &entry)?;
        self.show_rows(alloc, entry.into_rows())?;
        self.text.push_str(more.as_str())
    }

    /// Shows rows.
    fn show_rows(&mut self, alloc: Global, rows: Vec<RowPicture>) -> Result<(), AllocError>
        ensures { OnOk result (AreRowsShown rows.items self.old self.new) }
    {
        for row in rows {
            self.show_row(alloc, row)?;
        }
        Ok(())
    }

    /// Shows a row, or a line of text as it is.
    fn show_row(&mut self, alloc: Global, row: RowPicture) -> Result<(), AllocError>
        ensures { OnOk result (IsRowShown row self.old self.new) }
    {
        if is_line(&row) {
            let line = row.asked();
            return writeln!(self.text, "{line}");
        }
        self.write(alloc, row)
    }

    /// Returns the text of the rows, in which equal rounds are joined.
    pub(crate) fn into_joined_text(self, alloc: Global) -> Result<String, AllocError>
        ensures { IfOk result (λ text. (rows : List RowValue)
            → IsJoinedSoFar rows self → IsJoinedText rows (string_bytes text)) }
    {
        let mut all = self;
        let joiner = replace(&mut all.joiner, RoundJoiner::new(alloc));
        let (gone, last) = joiner.finish(alloc)?;
        all.show(alloc, gone)?;
        all.show(alloc, last)?;
        Ok(all.into_text(alloc))
    }
}

/// Returns whether a row is a line of text: it has no answer and no memory blocks.
fn is_line(row: &RowPicture) -> bool
    ensures { result ≡ is_line row.now }
{
    row.answer().is_empty() && row.blocks().is_empty()
}

/// Returns the line about the rounds that are not shown, or an empty text if there are none.
fn more_line(alloc: Global, entry: &Rounds) -> Result<String, AllocError>
    ensures { IfOk result (λ text. string_bytes text ≡ more_line entry.now) }
{
    let mut out = String::new(alloc);
    if entry.more() == 0 {
        return Ok(out);
    }
    out.push_str("     ")?;
    entry.write_more(&mut out)?;
    out.push_str("\n")?;
    Ok(out)
}
