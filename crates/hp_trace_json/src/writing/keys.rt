//! Keys and values that changes and deltas have in common.
ghost use Rattle.std.specs.Prelude.{OnOk};
ghost use Rattle.hp_trace_json.specs.ChangeObjects.{PutsSome};

use hp_tape::ListId;
use hp_units::{Auto, Claim, Frame, Order, Owner, Row, State, Text, Wish, Zone};
use indexmap::IndexSet;
use json::Writer;
use std::alloc::{AllocError, Global};

/// Returns the name of an owner; the empty text for a number that has no name.
pub(super) fn name_of(names: &IndexSet<Text>, owner: Owner) -> &str {
    match names.get_index(owner.0 as usize) {
        Some(name) => name.as_str(),
        None => "",
    }
}

/// Returns the key of a list.
pub(super) fn list_key(alloc: Global, list: ListId) -> Result<String, AllocError> {
    match list {
        ListId::Area { class, order } => format!(in alloc; "{class} {order}"),
        ListId::Cpu { pool, cpu } => format!(in alloc; "cpu {cpu} {pool}"),
    }
}

/// Writes a frame, or that there is none.
pub(super) fn write_frame(out: &mut Writer, frame: Option<Frame>) -> Result<(), AllocError>
    ensures { OnOk result (PutsSome out.old out.new) }
{
    match frame {
        Some(frame) => out.u64(u64::from(frame.0)),
        None => out.null(),
    }
}

/// Writes an order, or that there is none.
pub(super) fn write_order(out: &mut Writer, order: Option<Order>) -> Result<(), AllocError>
    ensures { OnOk result (PutsSome out.old out.new) }
{
    match order {
        Some(order) => out.u64(u64::from(order.0)),
        None => out.null(),
    }
}

/// Writes what an added memory block becomes.
pub(super) fn write_auto(out: &mut Writer, auto: Auto) -> Result<(), AllocError>
    ensures { OnOk result (PutsSome out.old out.new) }
{
    out.string(match auto {
        Auto::Offline => "offline",
        Auto::Online => "online",
        Auto::OnlineKernel => "online_kernel",
        Auto::OnlineMovable => "online_movable",
    })
}

/// Writes the row of a memory block: its state, its zone if it has one, and the operation that
/// holds it, if one does.
pub(super) fn write_row(out: &mut Writer, row: &Row) -> Result<(), AllocError>
    ensures { OnOk result (PutsSome out.old out.new) }
{
    out.begin_object()?;
    out.key("state")?;
    out.string(match row.state {
        State::Offline => "offline",
        State::Online => "online",
        State::Going => "going",
        State::Absent => "absent",
    })?;
    if let Some(zone) = row.zone {
        out.key("zone")?;
        out.string(match zone {
            Zone::Normal => "normal",
            Zone::Movable => "movable",
        })?;
    }
    write_claim(out, row.claim)?;
    out.end_object()
}

/// Writes the operation that holds a memory block, if one does.
fn write_claim(out: &mut Writer, claim: Option<Claim>) -> Result<(), AllocError>
    ensures { OnOk result (PutsSome out.old out.new) }
{
    if let Some(claim) = claim {
        out.key("op")?;
        out.u64(claim.op.0)?;
        out.key("wish")?;
        out.string(match claim.wish {
            Wish::Off => "off",
            Wish::Normal => "normal",
            Wish::Movable => "movable",
        })?;
    }
    Ok(())
}
