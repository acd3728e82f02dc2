//! The band of a memory block in a picture: its shades, its frames in use, and the signs of onlines
//! and offlines that ended.
ghost use Rattle.std.specs.Prelude.{◌≤◌};

use crate::columns::Columns;
use crate::elements::{End, IN_USE, write_box, write_end};
use crate::marks::BlockSigns;
use std::alloc::AllocError;

/// The x coordinate of the first event, and the width of all events.
pub(crate) const LEFT: u64 = 80;

pub(crate) const PLOT: u64 = 1024;

/// The height of a band.
pub(crate) const BAND: u64 = 20;

/// The scale of a picture: how many events a log has, and the most frames that a block has in use.
#[derive(Clone, Copy, Drop)]
pub(crate) struct Scale {
    pub events: u64,
    pub most: u32,
}

impl Scale {
    /// Returns the x coordinate of an event.
    pub(crate) fn x_of(&self, event: u64) -> u64 {
        let right = event.saturating_mul(PLOT) / self.events.max(1);
        LEFT + right.min(PLOT)
    }

    /// Returns the x coordinate of a column's left edge.
    fn column_at(&self, columns: &Columns, column: usize) -> u64 {
        self.x_of((column as u64).saturating_mul(columns.width()))
    }

    /// Returns the height of a count: at least one pixel, unless the count is 0.
    fn height_of(&self, count: u32) -> u64
        ensures { result ≤ 20 }
    {
        let all = self.most.max(1) as u64;
        (count as u64 * BAND).div_ceil(all).min(BAND)
    }
}

/// What the shade of a band shows.
#[derive(Clone, Copy, Drop)]
pub(crate) enum Shade {
    GoingOnline,
    GoingOffline,
    Offline,
}

impl Shade {
    /// Returns whether a column has the shade.
    fn is_in(self, marks: &BlockSigns) -> bool {
        match self {
            Shade::GoingOnline => marks.going_online,
            Shade::GoingOffline => marks.going_offline,
            Shade::Offline => marks.offline,
        }
    }

    /// Returns the colour.
    pub(crate) fn fill(self) -> &'static str {
        match self {
            Shade::GoingOnline => "#7dd3fc",
            Shade::GoingOffline => "#fdba74",
            Shade::Offline => "#d4d4d8",
        }
    }
}

/// Draws the band of a memory block: its shades, then its frames in use, then the signs of onlines
/// and offlines that ended.
pub(crate) fn write_band(
    out: &mut String,
    scale: &Scale,
    top: u64,
    columns: &Columns,
) -> Result<(), AllocError> {
    write_box(out, LEFT, top, PLOT, BAND, "#f4f4f5")?;
    write_shade(out, scale, top, columns, Shade::Offline)?;
    write_shade(out, scale, top, columns, Shade::GoingOnline)?;
    write_shade(out, scale, top, columns, Shade::GoingOffline)?;
    write_peaks(out, scale, top, columns)?;
    write_ends(out, scale, top, columns)
}

/// Writes a rectangle for each run of columns that have a shade.
fn write_shade(
    out: &mut String,
    scale: &Scale,
    top: u64,
    columns: &Columns,
    shade: Shade,
) -> Result<(), AllocError> {
    let mut start = None;
    for (column, marks) in columns.marks().iter().enumerate() {
        let x = scale.column_at(columns, column);
        match (start, shade.is_in(marks)) {
            (None, true) => start = Some(x),
            (Some(from), false) => {
                write_run(out, from, x, top, shade)?;
                start = None;
            }
            _ => {}
        }
    }
    match start {
        Some(from) => write_run(out, from, LEFT + PLOT, top, shade),
        None => Ok(()),
    }
}

/// Writes the rectangle of a run, at least one pixel wide.
fn write_run(
    out: &mut String,
    from: u64,
    to: u64,
    top: u64,
    shade: Shade,
) -> Result<(), AllocError> {
    let width = to.saturating_sub(from).max(1);
    write_box(out, from, top, width, BAND, shade.fill())
}

/// Draws the frames in use as a filled area.
fn write_peaks(
    out: &mut String,
    scale: &Scale,
    top: u64,
    columns: &Columns,
) -> Result<(), AllocError> {
    let base = top.saturating_add(BAND);
    let mut drawn = 0;
    write!(out, "<path d='M{LEFT} {base}")?;
    for (column, peak) in columns.peaks().iter().enumerate() {
        let height = scale.height_of(*peak);
        if height != drawn {
            let (x, y) = (
                scale.column_at(columns, column),
                base.saturating_sub(height),
            );
            write!(out, "H{x}V{y}")?;
            drawn = height;
        }
    }
    let right = LEFT + PLOT;
    writeln!(out, "H{right}V{base}Z' fill='{IN_USE}'/>")
}

/// Writes a sign in each column in which an online or an offline ended. Those that succeeded are
/// above those that failed.
fn write_ends(
    out: &mut String,
    scale: &Scale,
    top: u64,
    columns: &Columns,
) -> Result<(), AllocError> {
    for (column, marks) in columns.marks().iter().enumerate() {
        write_ends_at(out, scale.column_at(columns, column), top, marks)?;
    }
    Ok(())
}

/// Writes the signs of a column.
fn write_ends_at(out: &mut String, x: u64, top: u64, marks: &BlockSigns) -> Result<(), AllocError> {
    let (above, below) = (top.saturating_add(1), top.saturating_add(11));
    write_end_if(out, marks.online_ok, x, above, End::OnlineOk)?;
    write_end_if(out, marks.offline_ok, x, above, End::OfflineOk)?;
    write_end_if(out, marks.online_failed, x, below, End::OnlineFailed)?;
    write_end_if(out, marks.offline_failed, x, below, End::OfflineFailed)
}

/// Writes the sign of an end, if there is one.
fn write_end_if(out: &mut String, has: bool, x: u64, y: u64, end: End) -> Result<(), AllocError> {
    if has {
        write_end(out, x, y, end)
    } else {
        Ok(())
    }
}
