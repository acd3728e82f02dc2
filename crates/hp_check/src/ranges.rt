//! The parts of a layout that are out of their ranges.
ghost use Rattle.std.specs.Prelude.{◌≡◌, not, OnOk};
ghost use Rattle.std.specs.Bool.{then_some};
ghost use Rattle.serde_json.specs.View.{view};
ghost use Rattle.hp_units.specs.LayoutParts.{is_pageblock_count as is_count, is_within as lies_within};
ghost use Rattle.hp_units.specs.PartsSeen.{parts_seen};
ghost use Rattle.hp_check.specs.Adds.{Adds, IsLayout, first_at, limit_fault, limit_fault_of, out_fault};
ghost use Rattle.hp_check.specs.Ranges.{frames_out, parts_in};

use crate::finding::{Finding, OutOfRange};
use hp_scenario::{ScenarioFault, boots_at, parts_with};
use hp_units::{Parts, is_pageblock_count, is_within};
use serde_json::Value;
use std::alloc::{AllocError, Global};

/// Adds a finding for each part of a scenario's layout that is out of its range, if all its parts
/// can be read.
#[tactic(auto, unfolding(crate::specs::Ranges::parts_in))]
pub(crate) fn push_ranges(
    found: &mut Vec<Finding>,
    alloc: Global,
    value: &Value,
) -> Result<(), AllocError>
    ensures { OnOk result
        (Adds IsLayout (limit_fault_of (parts_in (view value.now))) found.old.items found.new.items) }
{
    let Some(layout) = value.get("layout") else {
        return Ok(());
    };
    match boots_at(alloc, layout, "boot") {
        Ok(boot) => match parts_with(layout, &boot) {
            Some(parts) => push_parts(found, &parts),
            None => Ok(()),
        },
        Err(ScenarioFault::OutOfMemory) => Err(AllocError),
        Err(_fault) => Ok(()),
    }
}

/// Adds a finding for each part that is out of its range, in the order in which the parts are
/// checked when a scenario is read.
fn push_parts(found: &mut Vec<Finding>, parts: &Parts<'_>) -> Result<(), AllocError>
    ensures { OnOk result
        (Adds IsLayout (limit_fault (parts_seen parts.now)) found.old.items found.new.items) }
{
    let words = parts.boot.len() as u64;
    let outs = [
        outside(0, 10, parts.order, OutOfRange::Order(parts.order)),
        (!is_pageblock_count(parts.pageblocks)).then_some(OutOfRange::Pageblocks(parts.pageblocks)),
        outside(1, 256, parts.blocks, OutOfRange::Blocks(parts.blocks)),
        frames_out(parts),
        outside(1, 64, parts.cpus, OutOfRange::Cpus(parts.cpus)),
        outside(
            1,
            parts.high,
            parts.batch,
            OutOfRange::Batch {
                batch: parts.batch,
                high: parts.high,
            },
        ),
        (parts.high > 1024).then_some(OutOfRange::High(parts.high)),
        outside(1, 64, parts.owners, OutOfRange::Owners(parts.owners)),
        outside(1, 1 << 16, parts.pages, OutOfRange::Pages(parts.pages)),
        outside(1, 512, parts.words, OutOfRange::Words(parts.words)),
        outside(
            1,
            1 << 24,
            parts.history,
            OutOfRange::History(parts.history),
        ),
        (words != parts.blocks).then_some(OutOfRange::Boot {
            words,
            blocks: parts.blocks,
        }),
    ];
    push_each(found, &outs)
}

/// Adds a finding for each entry of `outs` that is not `None`.
fn push_each(found: &mut Vec<Finding>, outs: &[Option<OutOfRange>]) -> Result<(), AllocError>
    ensures { OnOk result
        (Adds IsLayout (first_at out_fault 1 outs.now) found.old.items found.new.items) }
{
    for out in outs {
        let Some(out) = *out else {
            continue;
        };
        found.push(Finding::Layout(out))?;
    }
    Ok(())
}

/// Returns `out` if a number is not within a range.
fn outside(low: u64, high: u64, n: u64, out: OutOfRange) -> Option<OutOfRange>
    ensures { result ≡ then_some (not (lies_within low high n)) out }
{
    (!is_within(low, high, n)).then_some(out)
}

/// Returns the number of frames if it is too large although the sizes that make it up are in their
/// ranges.
fn frames_out(parts: &Parts<'_>) -> Option<OutOfRange>
    ensures { result ≡ frames_out (parts_seen parts.now) }
{
    let has_sizes = is_within(0, 10, parts.order)
        && is_pageblock_count(parts.pageblocks)
        && is_within(1, 256, parts.blocks);
    if !has_sizes {
        return None;
    }
    let frames = parts.blocks * (parts.pageblocks << parts.order);
    if frames > 1 << 20 {
        Some(OutOfRange::Frames(frames))
    } else {
        None
    }
}
