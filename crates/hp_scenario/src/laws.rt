//! A law of the lines: how each is spelled.
ghost use Rattle.hp_scenario.specs.Spelling.{LinesAreSpelled};

/// A text is read as a line if and only if it is the words of that line, joined by single spaces,
/// and the line can be written. A line can be written if its event has a verb, its numbers fit, its
/// owner's name is a name, and its other words are not empty and have no space.
pub fn lines_are_spelled()
    ensures { LinesAreSpelled }
{}
