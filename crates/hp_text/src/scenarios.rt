//! A whole scenario as JSON.
ghost use Rattle.std.specs.Prelude.{◌≡◌, ◌++◌, OnOk, string_bytes};
ghost use Rattle.hp_text.specs.Scenarios.{head_text, scenario_text};

use crate::entries::write_entries;
use crate::layouts::write_layout;
use hp_scenario::Line;
use hp_units::{Layout, Record, Text};
use indexmap::IndexSet;
use std::alloc::AllocError;

/// Writes the scenario of `layout` with `lines`, then one line per call, as JSON that `hotplug
/// serial` reads. Owners are written by name.
pub fn write_scenario(
    out: &mut String,
    layout: &Layout,
    names: &IndexSet<Text>,
    lines: &[Line],
    calls: &[Record],
) -> Result<(), AllocError>
    ensures { OnOk result (string_bytes out.new ≡ string_bytes out.old
        ++ scenario_text layout.now names.now.keys lines.now calls.now) }
{
    write_head(out, layout)?;
    write_entries(out, names, lines, calls)?;
    out.push_str("\n]}\n")
}

/// Writes what comes before the lines.
#[tactic(auto, unfolding(crate::specs::Scenarios::head_text))]
fn write_head(out: &mut String, layout: &Layout) -> Result<(), AllocError>
    ensures { OnOk result (string_bytes out.new ≡ string_bytes out.old ++ head_text layout.now) }
{
    out.push_str("{\"layout\": ")?;
    write_layout(out, layout)?;
    out.push_str(",\n\"calls\": [\n")?;
    Ok(())
}
