//! Which lines of a trace are shown.
ghost use Rattle.std.specs.Prelude.{◌≡◌};
ghost use Rattle.hp_trace.specs.Views.{shows, whole_view};

/// Which lines are shown, counted from 1, how wide a row may be, and whether free frames are shown
/// by the orders of their blocks.
#[derive(Clone, Copy)]
pub struct View {
    /// The first line that is shown. The memory before it is shown above it.
    pub from: u64,
    /// The last line that is shown.
    pub to: u64,
    /// Shows the first line and every n-th after it; 0 counts as 1.
    pub every: u64,
    /// The width of the text, in columns. A row that is wider continues on the next line, and a
    /// memory block that is wider than a line is written as counts of its frames. If the first row
    /// is wider, each later row has only the memory blocks that changed since the row above it.
    pub width: u64,
    /// Whether free frames are shown by the orders of their blocks.
    pub orders: bool,
}

impl View {
    /// Returns whether a line is shown.
    pub(crate) fn shows(&self, line: u64) -> bool
        ensures { result ≡ shows self.now line }
    {
        self.from <= line
            && line <= self.to
            && (self.every <= 1 || (line - self.from) % self.every == 0)
    }
}

/// Returns a view of all lines, for rows that have no columns.
pub(crate) fn whole_view() -> View
    ensures { result ≡ whole_view }
{
    View {
        from: 0,
        to: u64::MAX,
        every: 1,
        width: 0,
        orders: false,
    }
}
