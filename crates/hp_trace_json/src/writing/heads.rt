//! The head of a trace.
use hp_units::{Boot, Layout, Text};
use indexmap::IndexSet;
use json::Writer;
use std::alloc::{AllocError, Global};

/// Returns the head: the layout, the owners' names, and how many lines the scenario has.
pub(crate) fn head_json(
    alloc: Global,
    layout: &Layout,
    names: &IndexSet<Text>,
    lines: u64,
) -> Result<String, AllocError> {
    let mut out = Writer::new(Vec::new(alloc));
    out.begin_object()?;
    write_number(&mut out, "trace", 1)?;
    out.key("layout")?;
    write_layout(&mut out, layout)?;
    out.key("names")?;
    write_names(&mut out, names)?;
    write_number(&mut out, "lines", lines)?;
    out.end_object()?;
    let bytes = out.into_inner();
    String::from_utf8_lossy(alloc, bytes.as_slice())
}

/// Writes a number with its key.
fn write_number(out: &mut Writer, key: &str, number: u64) -> Result<(), AllocError> {
    out.key(key)?;
    out.u64(number)
}

/// Writes a layout as a scenario has it.
fn write_layout(out: &mut Writer, layout: &Layout) -> Result<(), AllocError> {
    out.begin_object()?;
    write_number(out, "order", u64::from(layout.order()))?;
    write_number(out, "pageblocks", u64::from(layout.pageblocks()))?;
    write_number(out, "blocks", u64::from(layout.blocks()))?;
    write_number(out, "cpus", u64::from(layout.cpus()))?;
    write_number(out, "batch", u64::from(layout.batch()))?;
    write_number(out, "high", u64::from(layout.high()))?;
    write_number(out, "owners", u64::from(layout.owners()))?;
    write_number(out, "pages", u64::from(layout.pages()))?;
    write_number(out, "words", u64::from(layout.words()))?;
    write_number(out, "history", layout.history())?;
    out.key("boot")?;
    write_boots(out, layout.boot())?;
    out.end_object()
}

/// Writes what each memory block is at boot.
fn write_boots(out: &mut Writer, boots: &[Boot]) -> Result<(), AllocError> {
    out.begin_array()?;
    for boot in boots {
        out.string(match boot {
            Boot::Offline => "offline",
            Boot::Normal => "normal",
            Boot::Movable => "movable",
            Boot::Absent => "absent",
        })?;
    }
    out.end_array()
}

/// Writes the owners' names.
fn write_names(out: &mut Writer, names: &IndexSet<Text>) -> Result<(), AllocError> {
    out.begin_array()?;
    for number in 0..names.len() {
        if let Some(name) = names.get_index(number) {
            out.string(name.as_str())?;
        }
    }
    out.end_array()
}
