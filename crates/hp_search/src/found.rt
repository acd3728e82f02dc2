//! The result of an exploration or a search.

/// The result of an exploration, as text.
#[derive(Drop)]
pub struct SearchText {
    /// The ends in the form that was asked for. For `EndsForm::Scenario`, the scenario, which is
    /// empty if no end has the number.
    pub text: String,
    /// For `EndsForm::Scenario`, whether an end has the number. For any other form, whether all
    /// interleavings were counted.
    pub is_found: bool,
}

/// How a search for an end ended.
#[derive(Clone, Copy, Debug, PartialEq, Eq, Drop)]
pub enum FindResult {
    /// An interleaving ends as wanted.
    Found,
    /// No interleaving ends as wanted.
    Absent,
    /// The search was stopped before it knew whether an interleaving ends as wanted.
    Unknown,
}

/// The result of a search for an end, with its text.
#[derive(Drop)]
pub struct FindText {
    /// The interleaving that was found. If there is none, or if it is not known whether there is
    /// one, the text reports this. For `ScheduleForm::Scenario` it is then empty.
    pub text: String,
    /// How the search ended.
    pub result: FindResult,
}
