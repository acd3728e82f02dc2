//! The elements of a picture. Lengths are in pixels.

use std::alloc::AllocError;

/// The colour of frames in use.
pub(crate) const IN_USE: &str = "#334155";

/// How an online or an offline ended.
#[derive(Clone, Copy, Drop)]
pub(crate) enum End {
    OnlineOk,
    OnlineFailed,
    OfflineOk,
    OfflineFailed,
}

impl End {
    /// Returns the sign: it points up for an online, and down for an offline.
    fn path(self) -> &'static str {
        match self {
            End::OnlineOk | End::OnlineFailed => "l4 8h-8z",
            End::OfflineOk | End::OfflineFailed => "m-4 0h8l-4 8z",
        }
    }

    /// Returns the sign's colours: it is filled if all went well.
    fn colours(self) -> &'static str {
        match self {
            End::OnlineOk | End::OfflineOk => "fill='#16a34a' stroke='#ffffff'",
            End::OnlineFailed | End::OfflineFailed => "fill='#ffffff' stroke='#dc2626'",
        }
    }
}

/// Writes the sign of an end.
pub(crate) fn write_end(out: &mut String, x: u64, y: u64, end: End) -> Result<(), AllocError> {
    let (path, colours) = (end.path(), end.colours());
    writeln!(out, "<path d='M{x} {y}{path}' {colours}/>")
}

/// Writes a rectangle.
pub(crate) fn write_box(
    out: &mut String,
    x: u64,
    y: u64,
    width: u64,
    height: u64,
    fill: &str,
) -> Result<(), AllocError> {
    writeln!(
        out,
        "<rect x='{x}' y='{y}' width='{width}' height='{height}' fill='{fill}'/>"
    )
}

/// Writes a text, which must have no characters that XML escapes.
pub(crate) fn write_text(out: &mut String, x: u64, y: u64, text: &str) -> Result<(), AllocError> {
    writeln!(out, "<text x='{x}' y='{y}'>{text}</text>")
}
