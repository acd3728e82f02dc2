//! Calls, events and plans as lines of a scenario.
ghost use Rattle.std.specs.Prelude.{◌≡◌, ◌++◌, OnOk, codes, string_bytes};
ghost use Rattle.std.specs.List.{flat_map};
ghost use Rattle.hp_text.specs.Spelling.{access_text, call_text, event_text, item_word, plan_text};

use crate::numbers::{write_numbered, write_pair, write_word};
use crate::state::name_of;
use hp_units::{Cpu, Event, Item, Owner, Page, Plan, Text, Wish};
use indexmap::IndexSet;
use std::alloc::AllocError;

/// Writes a call as a scenario line, such as `0 map db 3`, without the newline. An event that only
/// a control file can ask for is written as an `echo` (Linux guide: probe, auto_online_blocks).
pub fn write_call(
    out: &mut String,
    names: &IndexSet<Text>,
    cpu: Cpu,
    event: &Event,
) -> Result<(), AllocError>
    ensures { OnOk result
        (string_bytes out.new ≡ string_bytes out.old ++ call_text names.now.keys cpu event.now) }
{
    write!(out, "{cpu} ")?;
    write_event(out, names, event)
}

/// Writes an event as the words after the processor in a scenario line, such as `map db 3`.
pub fn write_event(
    out: &mut String,
    names: &IndexSet<Text>,
    event: &Event,
) -> Result<(), AllocError>
    ensures { OnOk result
        (string_bytes out.new ≡ string_bytes out.old ++ event_text names.now.keys event.now) }
{
    match event {
        Event::KernelAlloc { order } => write_numbered(out, "kalloc ", u64::from(order.0)),
        Event::KernelFree { frame } => write_numbered(out, "kfree ", u64::from(frame.0)),
        Event::Map { owner, page } => write_access(out, "map", names, *owner, *page),
        Event::Unmap { owner, page } => write_access(out, "unmap", names, *owner, *page),
        Event::Write {
            owner,
            page,
            index,
            value,
        } => {
            write_access(out, "write", names, *owner, *page)?;
            write_pair(out, " ", u64::from(*index), *value)
        }
        Event::Read { owner, page, index } => {
            write_access(out, "read", names, *owner, *page)?;
            write_word(out, u64::from(*index))
        }
        Event::Drain { cpu } => write_numbered(out, "drain ", u64::from(cpu.0)),
        Event::Online { block, zone } => write!(out, "online {block} {zone}"),
        Event::Begin { plan } => write_begin(out, plan),
        Event::DrainFor { op, cpu } => write_pair(out, "drainfor ", op.0, u64::from(cpu.0)),
        Event::Migrate { op } => write_numbered(out, "migrate ", op.0),
        Event::Commit { op } => write_numbered(out, "commit ", op.0),
        Event::Cancel { op } => write_numbered(out, "cancel ", op.0),
        Event::UndoAfter { serial } => write_numbered(out, "undo ", serial.0),
        Event::Probe { address } => write!(out, "echo 0x{address:x} probe"),
        Event::Remove { block } => write_numbered(out, "remove ", u64::from(block.0)),
        Event::SetAuto { auto } => write!(out, "echo {auto} auto_online_blocks"),
    }
}

/// Writes the words of an access to an owner's page, with the owner's name.
fn write_access(
    out: &mut String,
    verb: &str,
    names: &IndexSet<Text>,
    owner: Owner,
    page: Page,
) -> Result<(), AllocError>
    ensures { OnOk result
        (string_bytes out.new ≡ string_bytes out.old ++ access_text verb.now names.now.keys owner page) }
{
    let name = name_of(names, owner);
    write!(out, "{verb} {name} {page}")
}

/// Writes the words of a Begin of a plan.
fn write_begin(out: &mut String, plan: &Plan) -> Result<(), AllocError>
    ensures { OnOk result
        (string_bytes out.new ≡ string_bytes out.old ++ codes "begin" ++ flat_map item_word plan.now) }
{
    out.push_str("begin")?;
    write_items(out, plan.as_slice())
}

/// Writes the words after the processor in a scenario line that carries out a plan with at most
/// `turns` migrations, such as `plan 8 off 2`.
pub fn write_plan(out: &mut String, plan: &Plan, turns: u32) -> Result<(), AllocError>
    ensures { OnOk result (string_bytes out.new ≡ string_bytes out.old ++ plan_text plan.now turns) }
{
    write!(out, "plan {turns}")?;
    write_items(out, plan.as_slice())
}

/// Writes the items of a plan.
fn write_items(out: &mut String, items: &[Item]) -> Result<(), AllocError>
    ensures { OnOk result (string_bytes out.new ≡ string_bytes out.old ++ flat_map item_word items.now) }
{
    for item in items {
        write_item(out, *item)?;
    }
    Ok(())
}

/// Writes an item of a plan after a space.
fn write_item(out: &mut String, item: Item) -> Result<(), AllocError>
    ensures { OnOk result (string_bytes out.new ≡ string_bytes out.old ++ item_word item) }
{
    let block = item.block;
    match item.wish {
        Wish::Off => write!(out, " off {block}"),
        Wish::Normal => write!(out, " normal {block}"),
        Wish::Movable => write!(out, " movable {block}"),
    }
}
