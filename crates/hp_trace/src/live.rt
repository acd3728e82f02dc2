//! A machine that goes on after a scenario, and draws the lines that follow.
ghost use Rattle.std.specs.Prelude.{◌≡◌, IfOk, OnOk};
ghost use Rattle.hp_scenario.specs.Seen.{scenario_seen};
ghost use Rattle.hp_trace.specs.Lives.{IsBegun, LivesOn, ShowTheTrace, without_text};

use crate::lines::{start, trace_line, trace_lines};
use crate::rows::{Form, Rows};
use crate::view::View;
use hp_machine::Machine;
use hp_scenario::{Line, Scenario};
use hp_units::Text;
use indexmap::IndexSet;
use std::alloc::{AllocError, Global};
use std::marker::Model;

/// A machine, and the rows of its lines as text.
#[derive(Drop)]
pub struct LiveTrace {
    machine: Machine,
    view: View,
    rows: Rows,
}

impl Model for LiveTrace {
    ghost use Rattle.hp_trace.specs.Lives.{LiveValue};

    ghost Value = { LiveValue };

    ghost view = { λ t. record { machine = t.machine; view = t.view; rows = t.rows } };
}

impl LiveTrace {
    /// Boots a scenario's machine and runs its lines, whose rows are not drawn. The text is then
    /// the first row of a trace in this view, with the memory after those lines.
    pub fn begin(alloc: Global, scenario: &Scenario, view: View) -> Result<LiveTrace, AllocError>
        ensures { IfOk result (IsBegun view (scenario_seen scenario.now)) }
    {
        let mut machine = Machine::boot(alloc, &scenario.layout)?;
        let mut unseen = Rows::new(alloc, Form::Unseen, view);
        trace_lines(
            &mut unseen,
            alloc,
            &mut machine,
            &scenario.names,
            view,
            0,
            scenario.lines.as_slice(),
        )?;
        let rows = start(alloc, &machine, view, Form::Written)?;
        Ok(LiveTrace {
            machine,
            view,
            rows,
        })
    }

    /// Runs a line, and adds its rows to the text if the view shows the line.
    ///
    /// After an error some of its calls may have been made, and the text may lack rows.
    pub fn run(
        &mut self,
        alloc: Global,
        names: &IndexSet<Text>,
        number: u64,
        line: &Line,
    ) -> Result<(), AllocError>
        ensures { OnOk result (LivesOn names.now.keys number line.now self.old self.new) }
    {
        trace_line(
            &mut self.rows,
            alloc,
            &mut self.machine,
            names,
            self.view,
            number,
            line,
        )
    }

    /// Returns the machine.
    pub fn machine(&self) -> &Machine
        ensures { result.now ≡ self.now.machine }
    {
        &self.machine
    }

    /// Returns the rows since the text was emptied.
    pub fn text(&self) -> &str
        ensures { result.now ≡ self.now.rows.text }
    {
        self.rows.text()
    }

    /// Empties the text.
    pub fn clear(&mut self)
        ensures { self.new ≡ without_text self.old }
    {
        self.rows.clear_text();
    }
}

/// Called for its contract: the first row and the rows of the lines run after a scenario are the
/// rows of a trace. It is the trace of the scenario with these lines at its end, in a view that
/// begins with the first of them. Each of these lines is read given the owners' names of the lines
/// before it. The rows have all rounds of a plan's calls; `trace` shows only the first of equal
/// rounds.
pub fn live_rows_are_the_trace()
    ensures { ShowTheTrace }
{}
