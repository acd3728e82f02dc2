//! What is proved of scripts with names, as contracts of functions with empty bodies.
ghost use Rattle.std.specs.Prelude.{◌≡◌, ℕ, List, Option, Some, slice_get};
ghost use Rattle.hp_units.specs.Receipts.{receipts_of};
ghost use Rattle.hp_units.specs.declared.events.Event.{Event};
ghost use Rattle.hp_units.specs.declared.replies.Receipt.{Receipt};
ghost use Rattle.hp_units.specs.declared.replies.Record.{Record};
ghost use Rattle.hp_scenario.specs.Asked as asks;
ghost use Rattle.hp_scenario.specs.declared.lines.Line.{Line};
ghost use Rattle.hp_schedules.specs.Schedules.{Setting, next_call, plays};
ghost use Rattle.hp_schedules.specs.declared.scripts.OwnWork.{OwnWork};
ghost use Rattle.hp_scripts.specs.NamedResults.{AreOfLinesBefore, IsCallOf, event_on};
ghost use Rattle.hp_scripts.specs.ScriptResults.{named_at};
ghost use Rattle.hp_scripts.specs.Scripts.{script_of};
ghost use Rattle.hp_scripts.specs.declared.begins.Begin.{Begin};

/// A line that names the result of an earlier line works, in each interleaving, on the result that
/// the earlier line got in this interleaving.
///
/// Suppose that a processor's line at index `place` works on the result of its line at `source`. If
/// the processor, after a schedule, has made its calls for exactly its lines before `place`, then
/// its next call is the event of the line at `place`, with the result of its call for the line at
/// `source` as the operation or the frame.
pub fn names_are_results()
    ensures { (g : Setting) (schedule : List ℕ) (news : List Record) (begins : List Begin)
        (lines : List Line) (sources : List (Option ℕ)) (cpu place source : ℕ) (line : Line)
        (event : Event) (own : OwnWork) → plays g schedule ≡ Some news
        → slice_get g.scripts cpu ≡ Some (script_of begins lines sources cpu)
        → slice_get lines place ≡ Some line → line.cpu ≡ cpu
        → asks.asked_by line.work ≡ asks.event event → slice_get sources place ≡ Some (Some source)
        → named_at cpu lines sources place (asks.event event) ≡ Some own
        → AreOfLinesBefore g.layout.cpus begins lines sources cpu place (receipts_of cpu news)
        → (call : Receipt)
        × IsCallOf g.layout.cpus begins lines sources cpu source (receipts_of cpu news) call
        × (next_call g cpu news ≡ Some (event_on call event)) }
{}
