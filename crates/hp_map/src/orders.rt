//! The cells of a memory block with each free block drawn by its order.
ghost use Rattle.std.specs.Prelude.{◌<◌, ◌≤◌, IfSome};
ghost use Rattle.hp_units.specs.Arithmetic.{frame_count};

use crate::cells::{first_of, place_at, starts_later, write_cell};
use crate::marks::size_of;
use crate::places::Place;
use hp_machine::Machine;
use hp_units::{Block, Class, Frame, Order, Text};
use std::alloc::{AllocError, Global};

/// Returns the cells of a memory block of the layout with each free block drawn by its order, or an
/// empty text if orders are not shown. A block of order 0 is drawn as `.`, one of order 1 as `()`,
/// and a larger one as its order in brackets, such as `(3.....)`. Isolated blocks are drawn as `:`,
/// `{}` and `{3:::::}`.
pub(crate) fn draw_orders(
    alloc: Global,
    machine: &Machine,
    places: &Vec<Place>,
    shows_orders: bool,
    block: Block,
) -> Result<Text, AllocError>
    requires { block < machine.now.layout.blocks }
{
    let mut out = String::new(alloc);
    if !shows_orders {
        return Ok(Text::new(out));
    }
    let layout = machine.layout();
    let first = first_of(layout, block);
    for number in 0..layout.block_size() {
        let frame = Frame(first + number);
        let sign = sign_in_block(machine, frame, place_at(places, frame.0));
        write_cell(&mut out, starts_later(layout, number), sign)?;
    }
    Ok(Text::new(out))
}

/// Returns the character of a frame in this place, by its free block's order if it is free.
fn sign_in_block(machine: &Machine, frame: Frame, place: Place) -> char
    requires { frame < frame_count machine.now.layout }
    ensures { result < 128 }
{
    match place {
        Place::Free => free_sign(machine, false, frame),
        Place::Isolated => free_sign(machine, true, frame),
        Place::Absent | Place::Offline | Place::Kernel | Place::Cached(_) | Place::Page(_) => {
            place.sign()
        }
    }
}

/// Returns the character of a free frame.
fn free_sign(machine: &Machine, is_isolated: bool, frame: Frame) -> char
    requires { frame < frame_count machine.now.layout }
    ensures { result < 128 }
{
    match order_of(machine, frame) {
        Some(order) => ordered_sign(is_isolated, order, frame.0 % size_of(order)),
        None => plain_sign(is_isolated),
    }
}

/// Returns the order of the free block that holds a frame, if one does. A free block of an order
/// starts at a multiple of its size (Knuth, volume 1, section 2.5).
fn order_of(machine: &Machine, frame: Frame) -> Option<Order>
    requires { frame < frame_count machine.now.layout }
    ensures { IfSome result (λ order. order ≤ 10) }
{
    for number in 0..machine.layout().order() + 1 {
        let order = Order(number);
        if has_order(machine.buddy().place(frame.ancestor(order)), order) {
            return Some(order);
        }
    }
    None
}

/// Returns whether a free block of this order starts at a frame. `place` is the class and the order
/// of the free block that starts there, if one does.
fn has_order(place: Option<(Class, Order)>, order: Order) -> bool {
    match place {
        Some(place) => place.1 == order,
        None => false,
    }
}

/// Returns the character of a frame in a free block of this order, `offset` frames after its first.
fn ordered_sign(is_isolated: bool, order: Order, offset: u32) -> char
    requires { order ≤ 10 }
    ensures { result < 128 }
{
    if order.0 == 0 {
        plain_sign(is_isolated)
    } else if offset == 0 {
        if is_isolated { '{' } else { '(' }
    } else if offset == size_of(order) - 1 {
        if is_isolated { '}' } else { ')' }
    } else {
        inner_sign(is_isolated, order, offset)
    }
}

/// Returns the character of a frame between the brackets of a free block: first the digits of the
/// order, and then the character of a free frame.
fn inner_sign(is_isolated: bool, order: Order, offset: u32) -> char
    requires { order ≤ 10 }
    ensures { result < 128 }
{
    if order.0 < 10 && offset == 1 {
        char::from(b'0' + order.0 as u8)
    } else if order.0 == 10 && offset == 1 {
        '1'
    } else if order.0 == 10 && offset == 2 {
        '0'
    } else {
        plain_sign(is_isolated)
    }
}

/// Returns the character of a free frame, without the order of its block.
fn plain_sign(is_isolated: bool) -> char
    ensures { result < 128 }
{
    if is_isolated { ':' } else { '.' }
}
