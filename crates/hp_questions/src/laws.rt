//! What is proved of the ends of plans, as contracts of functions with empty bodies.
ghost use Rattle.std.specs.Prelude.{◌≡◌, ℕ, List, Some, slice_get};
ghost use Rattle.hp_units.specs.declared.replies.Record.{Record};
ghost use Rattle.hp_questions.specs.PlanEnds.{ends_answered, plan_ends};
ghost use Rattle.hp_schedules.specs.LineAnswers.{answers_at};
ghost use Rattle.hp_schedules.specs.Outcomes.{replies_to};
ghost use Rattle.hp_schedules.specs.Schedules.{Setting, plays};
ghost use Rattle.hp_schedules.specs.declared.scripts.Step.{Step};

/// If the ends of a processor's plans are computed from its script and the replies to it,
/// they are the ends of plans among the answers to its lines. This holds after every
/// schedule, complete or not.
pub fn plan_ends_are_answers()
    ensures { (g : Setting) (schedule : List ℕ) (news : List Record) (cpu : ℕ) (lines : List Step)
        → plays g schedule ≡ Some news → slice_get g.scripts cpu ≡ Some lines
        → plan_ends g.layout.cpus lines (replies_to cpu news) ≡ ends_answered (answers_at g cpu news) }
{}
