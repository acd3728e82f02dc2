//! The words of a talk that make no call.
ghost use Rattle.std.specs.Prelude.{◌≡◌};
ghost use Rattle.hp_live.specs.Talks.{word_of};

/// What a text in a talk is.
#[derive(Clone, Copy, Drop)]
pub(crate) enum LiveWord {
    /// No text at all.
    Nothing,
    /// `help`, which lists the verbs with their arguments.
    Help,
    /// `state`, which shows the machine's state.
    State,
    /// `scenario`, which shows the layout and all lines so far.
    Scenario,
    /// No such word: perhaps a line.
    Line,
}

/// Returns which word a text is.
pub(crate) fn word_of(text: &str) -> LiveWord
    ensures { result ≡ word_of text.now }
{
    match text {
        "" => LiveWord::Nothing,
        "help" => LiveWord::Help,
        "state" => LiveWord::State,
        "scenario" => LiveWord::Scenario,
        _ => LiveWord::Line,
    }
}
