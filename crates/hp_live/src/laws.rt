//! What a sequence of answers amounts to, as contracts of functions with empty bodies.
ghost use Rattle.std.specs.Prelude.{◌≡◌, ◌++◌, [], Bool, ℕ, List, Ok, Option};
ghost use Rattle.hp_units.specs.LayoutParts.{LayoutParts};
ghost use Rattle.hp_machine.specs.Machine.{MachineValue, booted};
ghost use Rattle.hp_scenario.specs.Scenario.{lines_from, nothing, scenario_in};
ghost use Rattle.hp_scenario.specs.declared.lines.Line.{Line};
ghost use Rattle.hp_scripts.specs.Named.{NamedValue};
ghost use Rattle.hp_scripts.specs.Resolved.{RunsFront};
ghost use Rattle.hp_scripts.specs.Runs.{RunsLine};
ghost use Rattle.hp_commands.specs.Serial.{WritesLines, machine_after, machine_after_lines};
ghost use Rattle.hp_commands.specs.Served.{IsTextOf};
ghost use Rattle.hp_text.specs.State.{state_text};
ghost use Rattle.hp_streams.specs.Talks.{AreReplies};
ghost use Rattle.hp_live.specs.Results.{line_number};
ghost use Rattle.hp_live.specs.RowTalks.{DrawsTrace, RepliesWhole, RowsBegun, RowsSession};
ghost use Rattle.hp_live.specs.Sessions.{AnswersAll, IsResumed, SessionValue, script_of, started, taken};
ghost use Rattle.hp_live.specs.Talks.{ObjectsValue, RepliesObject, TellsLines};

use hp_trace::live_rows_are_the_trace;

/// What a session has written is what `hotplug serial` writes for its lines. Its lines are the
/// given texts that can be read as lines. They are read like a scenario's `calls`, with plain
/// numbers in place of names for results. With the state of the machine after them, what was
/// written is a text of `hotplug serial` for a scenario of the layout and these lines. If no line
/// of that text ends with `OutOfMemory`, it is the scenario's text (see `serial_text`). If the
/// session began with a scenario, the scenario's lines and their text come first.
pub fn answers_are_what_serial_writes()
    ensures lines { (l : LayoutParts) (texts : List (List ℕ)) (written : List ℕ) (s : SessionValue)
        → AnswersAll (started l) texts written s → WritesLines (booted l) s.lines written s.machine }
    ensures read { (l : LayoutParts) (texts : List (List ℕ)) (written : List ℕ) (s : SessionValue)
        → (all : AnswersAll (started l) texts written s)
        → lines_from 1 nothing (taken (started l) texts written s all) ≡ Ok (script_of s) }
    ensures serial { (l : LayoutParts) (texts : List (List ℕ)) (written : List ℕ) (s : SessionValue)
        → AnswersAll (started l) texts written s → (input : List ℕ)
        → scenario_in input ≡ Ok (record { layout = l; names = s.names; lines = s.lines })
        → IsTextOf input (written ++ state_text s.machine.layout s.names s.machine.state) }
    ensures resumed { (scenario : NamedValue) (texts : List (List ℕ)) (written : List ℕ)
        (first s : SessionValue) → (begun : IsResumed scenario first) → AnswersAll first texts written s
        → WritesLines (booted scenario.scenario.layout) s.lines (begun.text ++ written) s.machine }
{}

/// In a session that replies in objects of JSON, the text for the scenario's lines and then the
/// texts in the replies are what `hotplug serial` writes for the lines so far: those of the
/// scenario and those of the session, with plain numbers in place of names for results. Command
/// words, and texts that cannot be read as lines, add nothing. A lost reply shows no text: if its
/// line was run, the text of that line is missing.
pub fn talks_tell_their_lines()
    ensures { (scenario : NamedValue) (first s : ObjectsValue) (lines : List (List ℕ))
        (text : List ℕ) → (begun : IsResumed scenario first.session)
        → AreReplies RepliesObject first lines text s
        → TellsLines scenario.scenario begun.text text s.session }
{}

/// In a session that replies in rows, the first row and the rows in the replies, one after another,
/// are a trace. It is the trace of the scenario with the session's lines after its own, all with
/// plain numbers, from the first line of the session on. `hotplug_lab trace` draws it too, but of
/// equal rounds of a plan's calls only the first. This holds if there was memory for each reply.
pub fn talks_draw_the_trace()
    ensures { (scenario : NamedValue) (width : ℕ) (orders : Bool) (first s : RowsSession)
        (lines : List (List ℕ)) (text : List ℕ) → (begun : RowsBegun scenario width orders first)
        → AreReplies RepliesWhole first lines text s
        → DrawsTrace begun.plain.scenario width orders first.trace.rows.text text s }
{
    live_rows_are_the_trace();
}

/// Running lines for the numbers of their results has the effect of `hotplug serial`. After a line,
/// the machine is the one that `hotplug serial` has then. The number of the line's result is the
/// one that follows from the record that its event leaves there (see `result_number`; if it leaves
/// none, see `missing_number`), or 0 for a line without an event. After lines in order, each with
/// the numbers of earlier results in it, the machine is the one that `hotplug serial` has then.
pub fn results_have_the_numbers_of_serial()
    ensures line { (m : MachineValue) (line : Line) (next : MachineValue) (number : ℕ)
        → RunsLine m line next number → (next ≡ machine_after m line) × (number ≡ line_number m line) }
    ensures front { (m new : MachineValue) (before after : List ℕ) (sources : List (Option ℕ))
        (lines ran : List Line) → RunsFront m before sources lines ran new after
        → new ≡ machine_after_lines m ran }
{}
