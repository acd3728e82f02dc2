//! The places of frames, marked one after another by a walk over a state.
ghost use Rattle.std.specs.Prelude.{◌≡◌, ◌+◌, ◌^◌, ◌<◌, ◌≤◌, IfSome, OnOk};
ghost use Rattle.hp_units.specs.Arithmetic.{frame_count, pageblock_count};
ghost use Rattle.hp_units.specs.LayoutParts.{IsLayout};
ghost use Rattle.hp_units.specs.Memory.{cached_list};
ghost use Rattle.hp_units.specs.Placement.{IsWellPlaced};
ghost use Rattle.hp_map.specs.declared.places.Place.TheVariants.{Cached};
ghost use Rattle.hp_map.specs.Marks.{AreMarked, at_frame, marks_below, on_block, on_cpu, on_entry, on_frames, on_kernel, on_list, on_owner, on_unused, unused_in};

use crate::places::Place;
use hp_machine::Machine;
use hp_units::{
    Cpu, Frame, Kind, Order, Owner, Page, Pageblock, Pool, Row, State, block_of, pageblock_of,
};
use std::alloc::{AllocError, Global};

/// Sets the place of a frame, unless its number is past the last.
#[tactic(auto, using(crate::proofs::MarkLemmas::set_marks))]
fn set_place(places: &mut Vec<Place>, frame: Frame, place: &Place)
    ensures { AreMarked (at_frame frame place.now) places.old.items places.new.items }
{
    let at = frame.0 as usize;
    if at < places.len() {
        places[at] = *place;
    }
}

/// Sets the place of each frame of a list.
fn mark_list(places: &mut Vec<Place>, frames: &[Frame], place: &Place)
    ensures { AreMarked (on_list frames.now place.now) places.old.items places.new.items }
{
    for frame in frames {
        set_place(places, *frame, place);
    }
}

/// Marks the frames on a processor's list of a pool.
fn mark_pool(
    places: &mut Vec<Place>,
    alloc: Global,
    machine: &Machine,
    cpu: Cpu,
    pool: Pool,
) -> Result<(), AllocError>
    requires { cpu < machine.now.layout.cpus }
    ensures { OnOk result (AreMarked (on_list (cached_list machine.now.state.free cpu pool) (Cached cpu))
        places.old.items places.new.items) }
{
    let frames = machine.cpus().list(alloc, cpu, pool)?;
    mark_list(places, &frames, &Place::Cached(cpu));
    Ok(())
}

/// Marks the frames on a processor's lists.
fn mark_cpu(
    places: &mut Vec<Place>,
    alloc: Global,
    machine: &Machine,
    cpu: Cpu,
) -> Result<(), AllocError>
    requires { cpu < machine.now.layout.cpus }
    ensures { OnOk result (AreMarked (on_cpu machine.now.state.free cpu) places.old.items places.new.items) }
{
    mark_pool(places, alloc, machine, cpu, Pool::Nu)?;
    mark_pool(places, alloc, machine, cpu, Pool::Nm)?;
    mark_pool(places, alloc, machine, cpu, Pool::Mm)
}

/// Marks the frames on all processors' lists.
pub(crate) fn mark_cpus(
    places: &mut Vec<Place>,
    alloc: Global,
    machine: &Machine,
) -> Result<(), AllocError>
    ensures { OnOk result (AreMarked (marks_below (on_cpu machine.now.state.free) machine.now.layout.cpus)
        places.old.items places.new.items) }
{
    for number in 0..machine.layout().cpus() {
        mark_cpu(places, alloc, machine, Cpu(number))?;
    }
    Ok(())
}

/// Marks the frame that holds a page of an owner, if the page is mapped.
fn mark_page(places: &mut Vec<Place>, owner: Owner, frame: Option<Frame>)
    ensures { AreMarked (on_entry owner frame) places.old.items places.new.items }
{
    if let Some(frame) = frame {
        set_place(places, frame, &Place::Page(owner));
    }
}

/// Marks the frames of an owner's pages.
fn mark_owner(places: &mut Vec<Place>, machine: &Machine, owner: Owner)
    ensures { AreMarked (on_owner machine.now.layout machine.now.state.pages owner) places.old.items
        places.new.items }
{
    for number in 0..machine.layout().pages() {
        mark_page(places, owner, machine.frame_at(owner, Page(number)));
    }
}

/// Marks the frames of all pages.
pub(crate) fn mark_owners(places: &mut Vec<Place>, machine: &Machine)
    ensures { AreMarked
        (marks_below (on_owner machine.now.layout machine.now.state.pages) machine.now.layout.owners)
        places.old.items places.new.items }
{
    for number in 0..machine.layout().owners() {
        mark_owner(places, machine, Owner(number));
    }
}

/// Marks `count` frames from `first` on.
fn mark_frames(places: &mut Vec<Place>, first: u32, count: u32, place: &Place)
    requires { first + count ≤ 2 ^ 20 }
    ensures { AreMarked (on_frames first count place.now) places.old.items places.new.items }
{
    for offset in 0..count {
        set_place(places, Frame(first + offset), place);
    }
}

/// Returns the number of frames in a block of an order.
pub(crate) fn size_of(order: Order) -> u32
    requires { order ≤ 10 }
    ensures { result ≡ 2 ^ order }
{
    1 << order.0
}

/// Marks the frames of the kernel's block that starts at a frame, if one does.
fn mark_block(places: &mut Vec<Place>, first: u32, order: Option<Order>)
    requires { IfSome order (λ order. (order ≤ 10) × (first + 2 ^ order ≤ 2 ^ 20)) }
    ensures { AreMarked (on_block first order) places.old.items places.new.items }
{
    if let Some(order) = order {
        mark_frames(places, first, size_of(order), &Place::Kernel);
    }
}

/// Marks the frames of the kernel's blocks.
pub(crate) fn mark_kernel(places: &mut Vec<Place>, machine: &Machine)
    requires limits { IsLayout machine.now.layout }
    requires placed { IsWellPlaced machine.now.layout machine.now.state }
    ensures { AreMarked (marks_below (on_kernel machine.now.state) (frame_count machine.now.layout))
        places.old.items places.new.items }
{
    for number in 0..machine.layout().frames() {
        mark_block(places, number, machine.kernel_at(Frame(number)));
    }
}

/// Returns the place of a frame that is not in use, by the row of its memory block and the kind of
/// its pageblock.
fn unused_in(row: Option<Row>, kind: Option<Kind>) -> Place
    ensures { result ≡ unused_in row kind }
{
    match row {
        None => Place::Offline,
        Some(row) => match row.state {
            State::Absent => Place::Absent,
            State::Offline => Place::Offline,
            State::Online | State::Going => match kind {
                Some(kind) if kind.isolated => Place::Isolated,
                _ => Place::Free,
            },
        },
    }
}

/// Marks the frames of a pageblock as if none were in use.
fn mark_pageblock(places: &mut Vec<Place>, machine: &Machine, pageblock: Pageblock)
    requires { pageblock < pageblock_count machine.now.layout }
    ensures { AreMarked (on_unused machine.now.layout machine.now.state pageblock) places.old.items
        places.new.items }
{
    let layout = machine.layout();
    let first = layout.first_frame(pageblock);
    let row = machine.row(block_of(layout, first));
    let kind = machine.kind(pageblock_of(layout, first));
    mark_frames(
        places,
        first.0,
        layout.pageblock_size(),
        &unused_in(row, kind),
    );
}

/// Marks each frame as if none were in use.
pub(crate) fn mark_unused(places: &mut Vec<Place>, machine: &Machine)
    ensures { AreMarked
        (marks_below (on_unused machine.now.layout machine.now.state) (pageblock_count machine.now.layout))
        places.old.items places.new.items }
{
    let layout = machine.layout();
    for number in 0..layout.blocks() * layout.pageblocks() {
        mark_pageblock(places, machine, Pageblock(number));
    }
}
