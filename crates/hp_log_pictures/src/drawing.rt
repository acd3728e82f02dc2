//! Draws the picture of a log.
ghost use Rattle.std.specs.Prelude.{◌<◌, ◌-◌, ◌^◌};

use crate::bands::LogBands;
use crate::elements::{End, IN_USE, write_box, write_end, write_text};
use crate::runs::{LEFT, PLOT, Scale, Shade, write_band};
use hp_judge::piece_size;
use hp_logs::LogForm;
use hp_streams::{Failed, Sink, Source, write_all};
use hp_verdicts::{JudgeFault, JudgeOptions, JudgedLog, LogReading};
use std::alloc::{AllocError, Global};

/// The y coordinate of the first band, and the distance from one band to the next.
const TOP: u64 = 92;

const PITCH: u64 = 24;

/// The width of the picture.
const WIDTH: u64 = 1216;

/// The axis has at most this many gaps between ticks.
const TICKS: u64 = 10;

/// Judges the log in `source`, and writes a picture of it as SVG to `sink`. Returns whether the log
/// is lawful, apart from allowed faults.
///
/// Keeps no events, so the log can be of any length. Writes the picture at the log's end.
pub fn draw_log<R: Source, W: Sink>(
    alloc: Global,
    form: LogForm,
    options: &JudgeOptions,
    source: &mut R,
    sink: &mut W,
) -> Result<bool, JudgeFault>
    requires source { R.failures source.old < 2 ^ 64 - 1 }
    requires sink { W.failures sink.old < 2 ^ 64 - 1 }
{
    let mut bands = LogBands::new(alloc);
    let log = read_log(alloc, form, options, &mut bands, source)?;
    let text = picture_of(alloc, log.log(), &bands)?;
    match write_all(sink, text.as_bytes()) {
        Ok(()) => Ok(log.log().is_lawful()),
        Err(Failed) => Err(JudgeFault::WriteFailed),
    }
}

/// Reads a log to its end, and adds each event to `bands`.
fn read_log<R: Source>(
    alloc: Global,
    form: LogForm,
    options: &JudgeOptions,
    bands: &mut LogBands,
    source: &mut R,
) -> Result<LogReading, JudgeFault>
    requires { R.failures source.old < 2 ^ 64 - 1 }
{
    let mut log = LogReading::begin(alloc, form, options, source)?;
    for _line in 0..1u64 << 63 {
        let Some(event) = log.next(source)? else {
            bands.finish(log.log())?;
            return Ok(log);
        };
        bands.read(log.log(), &event)?;
    }
    Err(JudgeFault::TooManyLines)
}

/// Returns the picture of a log.
fn picture_of(alloc: Global, log: &JudgedLog, bands: &LogBands) -> Result<String, AllocError> {
    let mut out = String::new(alloc);
    write_picture(&mut out, alloc, log, bands)?;
    Ok(out)
}

/// Writes the picture of a log.
fn write_picture(
    out: &mut String,
    alloc: Global,
    log: &JudgedLog,
    bands: &LogBands,
) -> Result<(), AllocError> {
    let scale = Scale {
        events: log.verdict().event_count(),
        most: most_in_use(log),
    };
    let bottom = bands.count().saturating_mul(PITCH).saturating_add(TOP);
    write_front(out, bottom.saturating_add(24))?;
    write_title(out, log)?;
    write_legend(out, alloc, log, &scale)?;
    write_ticks(out, &scale, bottom)?;
    write_bands(out, log, bands, &scale)?;
    write_rest(out, log, bands, bottom.saturating_add(12))?;
    out.push_str("</svg>\n")
}

/// Returns the greatest number of frames of a memory block that were in use at once.
fn most_in_use(log: &JudgedLog) -> u32 {
    let mut most = 0;
    for row in log.blocks().rows() {
        most = row.most_in_use.max(most);
    }
    most
}

/// Writes the start of a picture of this height.
fn write_front(out: &mut String, height: u64) -> Result<(), AllocError> {
    writeln!(
        out,
        "<svg xmlns='http://www.w3.org/2000/svg' width='{WIDTH}' height='{height}' \
         viewBox='0 0 {WIDTH} {height}' font-family='sans-serif' font-size='11'>\n\
         <title>Memory blocks over a log</title>\n\
         <rect width='100%' height='100%' fill='#ffffff'/>"
    )
}

/// Writes the verdict.
fn write_title(out: &mut String, log: &JudgedLog) -> Result<(), AllocError> {
    let verdict = log.verdict();
    let events = verdict.event_count();
    let (faults, allowed) = (verdict.report().count(), verdict.report().allowed_count());
    let word = if verdict.is_lawful() {
        "lawful"
    } else {
        "unlawful"
    };
    writeln!(
        out,
        "<text x='{LEFT}' y='20' font-size='14'>{events} events, {word}: {faults} faults, \
         {allowed} allowed</text>"
    )
}

/// Writes what the colours and signs mean.
fn write_legend(
    out: &mut String,
    alloc: Global,
    log: &JudgedLog,
    scale: &Scale,
) -> Result<(), AllocError> {
    let most = scale.most;
    let frames = piece_size(log.size().block_order);
    let height = format!(in alloc; "frames in use; a band is {most} high, a block has {frames}")?;
    write_colour(out, 0, IN_USE, height.as_str())?;
    write_colour(out, 420, Shade::GoingOnline.fill(), "going online")?;
    write_colour(out, 560, Shade::GoingOffline.fill(), "going offline")?;
    write_colour(out, 700, Shade::Offline.fill(), "offline")?;
    write_meaning(out, 0, End::OnlineOk, "online ended ok")?;
    write_meaning(out, 140, End::OnlineFailed, "online failed")?;
    write_meaning(out, 280, End::OfflineOk, "offline ended ok")?;
    write_meaning(out, 420, End::OfflineFailed, "offline failed")
}

/// Writes a colour of the legend, and what it means.
fn write_colour(out: &mut String, place: u32, fill: &str, meaning: &str) -> Result<(), AllocError> {
    let x = LEFT + place as u64;
    write_box(out, x, 31, 12, 10, fill)?;
    write_text(out, x + 18, 40, meaning)
}

/// Writes a sign of the legend, and what it means.
fn write_meaning(out: &mut String, place: u32, end: End, meaning: &str) -> Result<(), AllocError> {
    let x = LEFT + place as u64;
    write_end(out, x + 6, 49, end)?;
    write_text(out, x + 18, 58, meaning)
}

/// Writes the numbers of events above the bands, with a line down from each.
fn write_ticks(out: &mut String, scale: &Scale, bottom: u64) -> Result<(), AllocError> {
    let step = tick_step(scale.events);
    writeln!(out, "<text x='72' y='82' text-anchor='end'>event</text>")?;
    for tick in 0..TICKS + 1 {
        let event = tick.saturating_mul(step);
        if event > scale.events {
            return Ok(());
        }
        let x = scale.x_of(event);
        writeln!(
            out,
            "<text x='{x}' y='82' text-anchor='middle'>{event}</text>\
             <path d='M{x} 86V{bottom}' stroke='#a1a1aa'/>"
        )?;
    }
    Ok(())
}

/// Returns how many events lie between two ticks: 1, 2 or 5, followed by zeros.
fn tick_step(events: u64) -> u64 {
    let mut unit = 1u64;
    for _zeros in 0..20 {
        for digit in [1u64, 2, 5] {
            let step = unit.saturating_mul(digit);
            if step.saturating_mul(TICKS) >= events {
                return step;
            }
        }
        unit = unit.saturating_mul(10);
    }
    unit
}

/// Writes the bands, in the order of their blocks.
fn write_bands(
    out: &mut String,
    log: &JudgedLog,
    bands: &LogBands,
    scale: &Scale,
) -> Result<(), AllocError> {
    let mut top = TOP;
    let mut block = 0u32;
    for row in log.blocks().rows() {
        if let Some(columns) = bands.columns(block) {
            write_names(out, top, block, row.most_in_use)?;
            write_band(out, scale, top, columns)?;
            top = top.saturating_add(PITCH);
        }
        block = block.saturating_add(1);
    }
    Ok(())
}

/// Writes the number of a band's block, and the most frames that it had in use.
fn write_names(out: &mut String, top: u64, block: u32, most: u32) -> Result<(), AllocError> {
    let y = top.saturating_add(14);
    let right = LEFT + PLOT + 8;
    writeln!(
        out,
        "<text x='72' y='{y}' text-anchor='end'>block {block}</text>\
         <text x='{right}' y='{y}'>most {most}</text>"
    )
}

/// Writes how many memory blocks are not shown.
fn write_rest(
    out: &mut String,
    log: &JudgedLog,
    bands: &LogBands,
    y: u64,
) -> Result<(), AllocError> {
    let mut named = 0u64;
    for row in log.blocks().rows() {
        if row.is_named {
            named = named.saturating_add(1);
        }
    }
    let rest = named.saturating_sub(bands.count());
    if rest == 0 {
        return Ok(());
    }
    writeln!(
        out,
        "<text x='{LEFT}' y='{y}'>and {rest} more memory blocks</text>"
    )
}
