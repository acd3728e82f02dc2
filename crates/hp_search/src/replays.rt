//! A schedule as a scenario.
ghost use Rattle.std.specs.Prelude.{◌≡◌, IfOk, option_map, string_bytes};
ghost use Rattle.hp_search.specs.Replays.{replayed_text};

use hp_scenario::Line;
use hp_text::write_scenario;
use hp_units::{Layout, Record, Text};
use indexmap::IndexSet;
use std::alloc::{AllocError, Global};

/// Returns a schedule as a scenario of `layout`: the lines of the setup, then the schedule's calls.
/// The text is empty if the schedule cannot be played. Owners are written by name.
pub fn replay_text(
    alloc: Global,
    names: &IndexSet<Text>,
    before: &[Line],
    layout: &Layout,
    calls: Option<&[Record]>,
) -> Result<String, AllocError>
    ensures { IfOk result (λ text. string_bytes text
        ≡ replayed_text names.now.keys before.now layout.now (option_map (λ c. c.now) calls.entry)) }
{
    let mut text = String::new(alloc);
    if let Some(calls) = calls {
        write_scenario(&mut text, layout, names, before, calls)?;
    }
    Ok(text)
}
