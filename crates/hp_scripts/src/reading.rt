//! Reads the lines of a scenario with names, one after another.
ghost use Rattle.std.specs.Prelude.{◌≡◌, ◌++◌, ◌∷◌, [], IfOk, None, OnOk, Some, length, option_map, if◌then◌else◌};
ghost use Rattle.hp_scenario.specs.Gives.{Gives};
ghost use Rattle.hp_scripts.specs.Bindings.{bound_after};
ghost use Rattle.hp_scripts.specs.Named.{lines_from, nothing, with_text};
ghost use Rattle.hp_scripts.specs.Seen.{named_seen};

use crate::bindings::{Bindings, Naming};
use crate::named::{NamedScenario, Sources};
use crate::plain::plain_line;
use hp_scenario::{Line, Lines, Scenario, ScenarioFault, Texts, read_line};
use hp_units::{Layout, Text};
use indexmap::IndexSet;
use std::alloc::{AllocError, Global};
use std::marker::Model;

/// What is read so far: the owners' names, the lines, and what names are bound to. For each line,
/// `sources` has the index of the line whose result it works on by name, if it does.
#[derive(Drop)]
pub(crate) struct Reading {
    names: IndexSet<Text>,
    lines: Vec<Line>,
    sources: Vec<Option<usize>>,
    bound: Bindings,
}

impl Model for Reading {
    ghost use Rattle.hp_scripts.specs.Named.{ReadingValue};

    ghost Value = { ReadingValue };

    ghost view = { λ r. record {
      names = r.names.keys;
      lines = r.lines.items;
      sources = r.sources.items;
      bound = r.bound;
    } };
}

impl Reading {
    /// Creates a reading without lines.
    pub(crate) fn new(alloc: Global) -> Reading
        ensures { result ≡ nothing }
    {
        Reading {
            names: IndexSet::new(alloc),
            lines: Vec::new(alloc),
            sources: Vec::new(alloc),
            bound: Bindings::new(alloc),
        }
    }

    /// Adds the lines in the texts, in order. There are no lines yet.
    pub(crate) fn add_all(&mut self, alloc: Global, texts: &Texts<'_>) -> Result<(), ScenarioFault>
        requires { self.old ≡ nothing }
        ensures { Gives (λ _. self.new) result (lines_from 1 nothing texts.now) }
    {
        for index in 0..texts.len() {
            if !self.add(alloc, texts.at(index))? {
                let line = index as u64 + 1;
                return Err(ScenarioFault::BadLine { line });
            }
        }
        Ok(())
    }

    /// Appends the line in a text. Returns `false` if the text, with its names taken out, cannot be
    /// read as a line.
    fn add(&mut self, alloc: Global, text: &str) -> Result<bool, AllocError>
        ensures { IfOk result
            (λ is_line. with_text self.old text.now ≡ (if is_line then Some self.new else None)) }
    {
        let plain = plain_line(alloc, text, &self.bound)?;
        let Some(line) = read_line(alloc, &mut self.names, plain.text.as_str())? else {
            return Ok(false);
        };
        self.keep(line, plain.source, plain.naming)?;
        Ok(true)
    }

    /// Appends a line and its source (the index of the line whose result it works on by name), and
    /// binds the name of its own result.
    fn keep(
        &mut self,
        line: Line,
        source: Option<usize>,
        naming: Option<Naming>,
    ) -> Result<(), AllocError>
        ensures { OnOk result (self.new ≡ record self.old {
          lines = self.old.lines ++ line ∷ [];
          sources = self.old.sources ++ source ∷ [];
          bound = bound_after self.old.bound naming (length self.old.lines) 0;
        }) }
    {
        if let Some(naming) = naming {
            self.bound.bind(naming, self.lines.len(), 0)?;
        }
        self.sources.push(source)?;
        self.lines.push(line)?;
        Ok(())
    }

    /// Returns the lines as a scenario with this layout.
    pub(crate) fn into_named(self, layout: Layout) -> NamedScenario
        ensures { named_seen result ≡ record {
          scenario = record { layout = layout; names = self.names; lines = self.lines };
          sources = self.sources;
          bound = self.bound;
        } }
    {
        let Reading {
            names,
            lines,
            sources,
            bound,
        } = self;
        NamedScenario {
            scenario: Scenario {
                layout,
                names,
                lines: Lines::new(lines),
            },
            sources: Sources::new(sources),
            bound,
        }
    }
}
