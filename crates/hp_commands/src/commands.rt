//! The commands of the program.

/// What the program is to do.
#[derive(Clone, Copy, PartialEq, Eq)]
pub enum Command {
    /// Runs the lines of a scenario in order on one machine, and writes its state.
    Serial,
    /// Runs the lines of a scenario by one worker per processor, in threads.
    Run,
    /// Runs like `Run`, and replays the history.
    Audit,
}
