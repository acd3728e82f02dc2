//! The forms in which results are written.

/// How the ends of an exploration are written.
#[derive(Clone, Copy, Drop)]
pub enum EndsForm {
    /// All ends, as words.
    Words,
    /// All ends, as JSON, one object per line.
    Objects,
    /// How many interleavings and ends there are, then one line of words per end.
    Summary,
    /// The first interleaving that leads to the end with this number, as a scenario. Ends are
    /// counted from 1.
    Scenario(u64),
}

/// How a schedule that was found is written.
#[derive(Clone, Copy, Drop)]
pub enum ScheduleForm {
    /// Its number of processor changes and its calls, as words.
    Words,
    /// A JSON object with its number of processor changes and its calls.
    Object,
    /// As a scenario.
    Scenario,
}
