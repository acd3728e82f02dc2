//! Joins equal rounds of a plan's calls, row by row.
ghost use Rattle.std.specs.Prelude.{◌≡◌, ◌++◌, IfOk, OnOk};
ghost use Rattle.std.specs.Option.{option_to_list};
ghost use Rattle.hp_map.specs.Rounds.{Ends, IsJoinOf, JoinsTo, Takes, nothing_read};

use crate::rounds::{Rounds, goes_on};
use crate::row_picture::RowPicture;
use std::alloc::{AllocError, Global};
use std::marker::Model;
use std::mem::replace;

/// Joins equal rounds of a plan's calls, row by row. Keeps only the last entry (a round with the
/// number of its repetitions, or a single row) and the rows after it.
#[derive(Drop)]
pub struct RoundJoiner {
    last: Option<Rounds>,
    /// The rows after `last`: none, a round that may go on, or one row that belongs to no round.
    rest: Vec<RowPicture>,
}

impl Model for RoundJoiner {
    ghost use Rattle.hp_map.specs.Rounds.{JoinerValue};

    ghost Value = { JoinerValue };

    ghost view = { λ j. record { last = j.last; rest = j.rest.items } };
}

/// What became of the last entry when rows came after it.
struct LastEntry {
    /// The entry that was last, if the rows do not repeat it.
    gone: Option<Rounds>,
    /// The entry that is last now.
    last: Rounds,
}

impl RoundJoiner {
    /// Creates a joiner that has taken no row.
    pub fn new(alloc: Global) -> RoundJoiner
        ensures { result ≡ nothing_read }
    {
        RoundJoiner {
            last: None,
            rest: Vec::new(alloc),
        }
    }

    /// Takes the next row. Returns the last entry once no more rounds can be joined to it.
    ///
    /// After an error, rows are lost.
    pub fn push(&mut self, alloc: Global, row: RowPicture) -> Result<Option<Rounds>, AllocError>
        ensures { IfOk result (λ gone. Takes row gone self.old self.new) }
    {
        if self.rest.is_empty() || goes_on(&self.rest, &row) {
            self.rest.push(row)?;
            return Ok(None);
        }
        let rows = replace(&mut self.rest, Vec::new(alloc));
        self.rest.push(row)?;
        let LastEntry { gone, last } = join(alloc, self.last.take(), rows)?;
        self.last = Some(last);
        Ok(gone)
    }

    /// Returns the last entries, at most two, once all rows have been taken.
    pub fn finish(self, alloc: Global) -> Result<(Option<Rounds>, Option<Rounds>), AllocError>
        ensures { IfOk result (λ ends. Ends self (option_to_list ends.0 ++ option_to_list ends.1)) }
    {
        let RoundJoiner { last, rest } = self;
        if rest.is_empty() {
            return Ok((None, None));
        }
        let LastEntry { gone, last } = join(alloc, last, rest)?;
        Ok((gone, Some(last)))
    }
}

/// Joins rows to the last entry if they repeat it. Otherwise makes a new entry of them.
fn join(alloc: Global, last: Option<Rounds>, rows: Vec<RowPicture>) -> Result<LastEntry, AllocError>
    ensures { IfOk result (λ entry. JoinsTo last rows.items entry.gone entry.last) }
{
    let Some(last) = last else {
        return Ok(LastEntry {
            gone: None,
            last: Rounds::once(rows),
        });
    };
    if last.is_one_more(alloc, &rows)? {
        return Ok(LastEntry {
            gone: None,
            last: last.with_one_more()?,
        });
    }
    Ok(LastEntry {
        gone: Some(last),
        last: Rounds::once(rows),
    })
}

/// Adds an entry, if there is one.
fn add(entries: &mut Vec<Rounds>, entry: Option<Rounds>) -> Result<(), AllocError>
    ensures { OnOk result (entries.new.items ≡ entries.old.items ++ option_to_list entry) }
{
    match entry {
        Some(entry) => {
            entries.push(entry)?;
            Ok(())
        }
        None => Ok(()),
    }
}

/// Returns rows as entries, in which each round of a plan's calls is joined with the equal rounds
/// right after it.
pub fn join_rounds(alloc: Global, rows: Vec<RowPicture>) -> Result<Vec<Rounds>, AllocError>
    ensures { IfOk result (λ entries. IsJoinOf rows.items entries.items) }
{
    let mut joiner = RoundJoiner::new(alloc);
    let mut entries = Vec::new(alloc);
    for row in rows {
        let gone = joiner.push(alloc, row)?;
        add(&mut entries, gone)?;
    }
    let (gone, last) = joiner.finish(alloc)?;
    add(&mut entries, gone)?;
    add(&mut entries, last)?;
    Ok(entries)
}
