//! Laws of schedules, as contracts of functions with empty bodies.
ghost use Rattle.std.specs.Prelude.{◌≡◌, ◌≢◌, ◌↔◌, ◌++◌, ◌∷◌, ℕ, [], List, Some, map};
ghost use Rattle.hp_units.specs.declared.replies.Receipt.{Receipt};
ghost use Rattle.hp_units.specs.declared.replies.Record.{Record};
ghost use Rattle.hp_schedules.specs.Alike.{AreAlike, AreMergeable};
ghost use Rattle.hp_schedules.specs.Causes.{AnswerAlike, IsCaused};
ghost use Rattle.hp_schedules.specs.Continuing.{ContinueAlike, ContinuesAs, anonymous_record};
ghost use Rattle.hp_schedules.specs.Cursors.{IsSteered};
ghost use Rattle.hp_schedules.specs.LineAnswers.{Grow, answers_at};
ghost use Rattle.hp_schedules.specs.Orders.{HasCount, HasOneCount};
ghost use Rattle.hp_schedules.specs.Outcomes.{OutcomeValue};
ghost use Rattle.hp_schedules.specs.Interleavings.{AreOneCalls, IsCountOfLengths, IsInterleaving};
ghost use Rattle.hp_schedules.specs.Schedules.{EndsWith, IsComplete, Setting, plays};
ghost use Rattle.hp_schedules.specs.Scripts.{Known, after_line, nothing_known};
ghost use Rattle.hp_schedules.specs.declared.scripts.Step.{Step};

/// The number of complete schedules is unique, and so is the number of those with a given end.
pub fn counts_are_unique()
    ensures all { (g : Setting) → HasOneCount (IsComplete g) }
    ensures ends { (g : Setting) (x : OutcomeValue) → HasOneCount (λ s. EndsWith g s x) }
{}

/// If each line of each script is one call, the complete schedules are exactly the interleavings:
/// each processor occurs as often as its script has lines.
pub fn schedules_are_interleavings()
    ensures { (g : Setting) (s : List ℕ) → AreOneCalls g.scripts
        → (IsComplete g s ↔ IsInterleaving g.scripts s) }
{}

/// If each line of each script is one call, the number of complete schedules is the multinomial
/// coefficient of the scripts' lengths, and no other (Knuth 1, 1.2.6).
pub fn interleavings_are_counted()
    ensures { (g : Setting) (m : ℕ) → AreOneCalls g.scripts
        → (HasCount (IsComplete g) m ↔ IsCountOfLengths g.scripts m) }
{}

/// If `are_mergeable` holds for the scripts, two schedules whose records are alike (`AreAlike`)
/// have the same continuations, with the same outcomes.
pub fn alike_places_go_on_alike()
    ensures { (g : Setting) (p q rest : List ℕ) (h k : List Record) (x : OutcomeValue)
        → AreMergeable g.scripts → plays g p ≡ Some h → plays g q ≡ Some k → AreAlike g h k
        → EndsWith g (p ++ rest) x → EndsWith g (q ++ rest) x }
{}

/// If `are_mergeable` holds for the scripts, two beginnings that continue alike have the same
/// continuations, call for call. Serials and replies are the same, and so are events, once the
/// functions that renumber the operations of the beginnings renumber those of the events. By these
/// functions, they also continue alike afterwards.
pub fn alike_beginnings_continue_alike()
    ensures { (g : Setting) (p q rest : List ℕ) (h k end : List Record) → AreMergeable g.scripts
        → plays g p ≡ Some h → plays g q ≡ Some k → (alike : ContinueAlike g h k)
        → plays g (p ++ rest) ≡ Some end → ContinuesAs g q rest h k alike end }
{}

/// Whether a line is finished, and which receipts follow it, does not depend on the earlier result
/// that it works on.
pub fn lines_finish_alike()
    ensures { (cpus : ℕ) (known : Known) (line : Step) (earlier later : List Receipt)
        → after_line cpus known line earlier later ≡ after_line cpus nothing_known line earlier later }
{}

/// Answers stay: whatever records follow, a processor's finished lines keep their answers, and only
/// further lines get some. A record of another processor adds none.
pub fn answers_only_grow()
    ensures later { (g : Setting) (cpu : ℕ) (news more : List Record)
        → Grow (answers_at g cpu news) (answers_at g cpu (news ++ more)) }
    ensures others { (g : Setting) (cpu : ℕ) (news : List Record) (latest : Record) → latest.cpu ≢ cpu
        → answers_at g cpu (news ++ latest ∷ []) ≡ answers_at g cpu news }
{}

/// If `push_steering` and `push_causes` give a processor equal numbers after two beginnings, both
/// have finished equally many of its lines. If the same records follow both, they give its further
/// lines the same answers. The operations that these records work on may have different numbers.
pub fn alike_positions_answer_alike()
    ensures { (p q : ℕ → ℕ) (g : Setting) (cpu : ℕ) (h k more others : List Record)
        (steering causes : List ℕ)
        → IsSteered p g cpu h steering → IsSteered q g cpu k steering
        → IsCaused g cpu h causes → IsCaused g cpu k causes
        → map anonymous_record more ≡ map anonymous_record others → AnswerAlike g cpu h k more others }
{}
