//! Reads scenarios in their usual form, token by token: `layout` with its numbers in their usual
//! order, then `boot`, then `calls`. Makes no tree, and keeps no memory for lines already taken.
ghost use Rattle.std.specs.Prelude.{◌≡◌, ◌∷◌, [], IfOk, IfSome, IsTrue, List, Ok, ℕ};
ghost use Rattle.hp_scenario.specs.Seen.{scenario_seen};
ghost use Rattle.hp_scenario.specs.Scenario.{scenario_in};
ghost use Rattle.hp_scenario.specs.Calls.{AreAll, Goes, IsOpened};

use crate::lines::{Line, Lines};
use crate::names::line_from;
use crate::plain_reader::PlainReader;
use crate::scenario::Scenario;
use crate::usual::{is_over, layout_after, takes_array, takes_key, takes_object};
use hp_units::{Layout, Text};
use indexmap::IndexSet;
use json::Token;
use std::alloc::{AllocError, Global};

/// A scenario that is being read: the layout, the owners' names so far, and the lines to come.
#[derive(Drop)]
pub struct Calls<'a> {
    layout: Layout,
    names: IndexSet<Text>,
    words: Vec<&'a str>,
    reader: PlainReader<'a>,
}

/// What comes next in a scenario.
#[derive(Drop)]
pub enum Next {
    /// A line.
    Another(Line),
    /// Nothing: the scenario is complete, and has no fault.
    End,
    /// Something else: a fault, or another form. Read the bytes again with `Scenario::read`.
    Unsure,
}

/// Reads a scenario that has the usual form and no fault. If it returns `None`, the bytes may still
/// be a scenario.
pub(crate) fn read_usual(alloc: Global, bytes: &[u8]) -> Result<Option<Scenario>, AllocError>
    ensures { IfOk result (λ s. IfSome s (λ s. scenario_in bytes.now ≡ Ok (scenario_seen s))) }
{
    match Calls::open(alloc, bytes)? {
        Some(calls) => calls.into_scenario(alloc),
        None => Ok(None),
    }
}

impl<'a> Calls<'a> {
    /// Reads a scenario up to its first line. If it returns `None`, the bytes may still be a
    /// scenario.
    pub fn open(alloc: Global, bytes: &'a [u8]) -> Result<Option<Calls<'a>>, AllocError>
        ensures { IfOk result (λ c. IfSome c (λ c. IsOpened bytes.now c)) }
    {
        let Ok(text) = simdutf8::basic::from_utf8(bytes) else {
            return Ok(None);
        };
        let mut reader = PlainReader::new(text);
        if !takes_object(&mut reader) || !takes_key(&mut reader, "layout") {
            return Ok(None);
        }
        let Some(layout) = layout_after(alloc, &mut reader)? else {
            return Ok(None);
        };
        if !takes_array(&mut reader, "calls") {
            return Ok(None);
        }
        Ok(Some(Calls {
            layout,
            names: IndexSet::new(alloc),
            words: Vec::new(alloc),
            reader,
        }))
    }

    /// Returns the layout.
    pub fn layout(&self) -> &Layout
        ensures { result.now ≡ self.now.layout }
    {
        &self.layout
    }

    /// Returns the owners' names so far.
    pub fn names(&self) -> &IndexSet<Text>
        ensures { result.now ≡ self.now.names }
    {
        &self.names
    }

    /// Reads all lines, none of which has been taken, and returns the scenario. If it returns
    /// `None`, the bytes may still be a scenario.
    fn into_scenario(self, alloc: Global) -> Result<Option<Scenario>, AllocError>
        ensures { (bytes : List ℕ) → IsOpened bytes self.entry
            → IfOk result (λ s. IfSome s (λ s. scenario_in bytes ≡ Ok (scenario_seen s))) }
    {
        let mut calls = self;
        let mut lines = Vec::new(alloc);
        if !take_all(alloc, &mut calls, &mut lines)? {
            return Ok(None);
        }
        Ok(Some(Scenario {
            layout: calls.layout,
            names: calls.names,
            lines: Lines::new(lines),
        }))
    }

    /// Returns what comes next. After an error, after the end, and after `Unsure`, the result is
    /// unspecified.
    #[inline(always)]
    pub fn next(&mut self, alloc: Global) -> Result<Next, AllocError>
        ensures { IfOk result (λ next. Goes self.old next self.new) }
    {
        match self.reader.next() {
            Some(Token::String(text)) => {
                match line_from(alloc, &mut self.names, &mut self.words, text)? {
                    Some(line) => Ok(Next::Another(line)),
                    None => Ok(Next::Unsure),
                }
            }
            Some(Token::EndArray) => {
                if is_over(&mut self.reader) {
                    Ok(Next::End)
                } else {
                    Ok(Next::Unsure)
                }
            }
            _ => Ok(Next::Unsure),
        }
    }
}

/// Takes all lines. Returns whether the scenario then ended without a fault; `false` may also mean
/// that it goes on in another form.
fn take_all(alloc: Global, calls: &mut Calls<'_>, lines: &mut Vec<Line>) -> Result<bool, AllocError>
    requires { lines.old.items ≡ [] }
    ensures { IfOk result (λ sure. IsTrue sure → AreAll calls.old lines.new.items calls.new) }
{
    loop {
        match calls.next(alloc)? {
            Next::Another(line) => lines.push(line)?,
            Next::End => return Ok(true),
            Next::Unsure => return Ok(false),
        }
    }
}
