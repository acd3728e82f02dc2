//! The free blocks of each zone by order, as text.
ghost use Rattle.std.specs.Prelude.{◌≡◌, ◌+◌, ◌++◌, IfOk, OnOk, string_bytes};
ghost use Rattle.hp_text.specs.Zones as means;

use hp_machine::Machine;
use hp_memory::Memory;
use hp_units::{Class, Order, Zone};
use std::alloc::{AllocError, Global};

/// Returns how many free blocks of each order each zone has: a line for Normal and one for Movable.
/// Isolated blocks count too; frames on processors' lists do not (Linux, /proc/buddyinfo, but
/// without a space at the end of a line).
pub fn buddyinfo(alloc: Global, machine: &Machine) -> Result<Vec<u8>, AllocError>
    ensures { IfOk result
        (λ text. text.items ≡ means.buddyinfo_text machine.now.layout machine.now.state.free.areas) }
{
    let text = zones_text(alloc, machine.memory())?;
    Ok(text.into_bytes())
}

/// Returns the lines of both zones.
#[tactic(auto, unfolding(crate::specs::Zones::buddyinfo_text))]
pub(crate) fn zones_text(alloc: Global, memory: &Memory) -> Result<String, AllocError>
    ensures { IfOk result
        (λ text. string_bytes text ≡ means.buddyinfo_text memory.now.layout memory.now.state.free.areas) }
{
    let mut text = String::new(alloc);
    write_zone(&mut text, memory, Zone::Normal)?;
    write_zone(&mut text, memory, Zone::Movable)?;
    Ok(text)
}

/// Writes one zone's line.
#[tactic(auto, unfolding(crate::specs::Zones::zone_line))]
fn write_zone(text: &mut String, memory: &Memory, zone: Zone) -> Result<(), AllocError>
    ensures { OnOk result (string_bytes text.new
        ≡ string_bytes text.old ++ means.zone_line memory.now.layout memory.now.state.free.areas zone) }
{
    text.push_str(zone_head(zone))?;
    write_counts(text, memory, zone)?;
    text.push('\n')?;
    Ok(())
}

/// Writes the counts of all orders, from 0.
fn write_counts(text: &mut String, memory: &Memory, zone: Zone) -> Result<(), AllocError>
    ensures { OnOk result (string_bytes text.new ≡ string_bytes text.old
        ++ means.counts_below memory.now.state.free.areas zone (memory.now.layout.order + 1)) }
{
    for order in 0..memory.layout().order() + 1 {
        write_count(text, zone_count(memory, zone, Order(order)))?;
    }
    Ok(())
}

/// Writes a count, right-aligned in 6 columns, with a space before it.
#[tactic(auto, unfolding(crate::specs::Zones::count_text))]
fn write_count(text: &mut String, count: u64) -> Result<(), AllocError>
    ensures { OnOk result (string_bytes text.new ≡ string_bytes text.old ++ means.count_text count) }
{
    write!(text, " {count:>6}")
}

/// Returns the start of a zone's line, with the zone's name right-aligned in 8 columns.
fn zone_head(zone: Zone) -> &'static str
    ensures { result.now ≡ means.zone_head zone }
{
    match zone {
        Zone::Normal => "Node 0, zone   Normal",
        Zone::Movable => "Node 0, zone  Movable",
    }
}

/// Returns how many free blocks of 2^order frames a zone has, isolated ones too.
fn zone_count(memory: &Memory, zone: Zone, order: Order) -> u64
    ensures { result ≡ means.zone_count memory.now.state.free.areas zone order }
{
    let count = |class| u64::from(memory.list_len(class, order));
    match zone {
        Zone::Normal => count(Class::Nu) + count(Class::Nm) + count(Class::IsoN),
        Zone::Movable => count(Class::Mm) + count(Class::IsoM),
    }
}
