//! The law of kept counts, as the contract of a function with an empty body.
ghost use Rattle.std.specs.Prelude.{◌≡◌, true, ℕ, List, Some};
ghost use Rattle.hp_units.specs.History.{net_of};
ghost use Rattle.hp_units.specs.declared.replies.Record.{Record};
ghost use Rattle.hp_schedules.specs.Alike.{AreAlike, AreMergeable, IsClosed, is_closed};
ghost use Rattle.hp_schedules.specs.Ends.{AreCounted};
ghost use Rattle.hp_schedules.specs.Schedules.{Setting, plays};
ghost use Rattle.hp_schedules.specs.Shares.{AddsCounts};
ghost use Rattle.hp_schedules.specs.declared.tally.Ending.{Ending};
ghost use Rattle.hp_states.specs.Seen.{IsSeen, SeenValue};
ghost use Rattle.hp_states.specs.Walks.{Before, Through};

/// If `is_closed` holds for a history, no later Cancel can drop a step of it. If `are_mergeable`
/// holds for the scripts, the counts stored for a walked place are right for each place whose
/// records are alike (`AreAlike`).
pub fn kept_counts_are_added()
    ensures closed { (h : List Record) → is_closed h ≡ true → IsClosed (net_of h) }
    ensures merged { (g : Setting) (q : List ℕ) (k : List Record) (seen : SeenValue) (old new : List Ending)
        → AreMergeable g.scripts
        → plays g q ≡ Some k → AreAlike g seen.news k → IsSeen g old seen
        → AreCounted (Before g q) old → AddsCounts old seen.counts new → AreCounted (Through g q) new }
{}
