//! Calls that need no memory. All that they need is prepared first; then a line is printed, after
//! which every allocation may be refused.
ghost use Rattle.std.specs.Prelude.{◌<◌, length};

use crate::calls::{is_full, make_call};
use hp_machine::{Machine, MachinePort};
use hp_ops::Port;
use hp_plain::Image;
use hp_tape::{Delta, Tape};
use hp_units::{
    Auto, Block, Class, Cpu, Event, Frame, Layout, Order, Owner, Page, Pageblock, Pool, Serial,
    block_of, buddy, pageblock_of,
};
use refused_values::values::{begin, machine_of, note, two_words};
use refused_values::{Case, Outcome, expect};
use std::alloc::Global;

/// Makes a machine in which two owners have a page and the history is full, and makes the calls on
/// it.
pub fn run(case: &Case<'_>) -> Outcome {
    let mut machine = machine_of(case.alloc, 2)?;
    with_pages(case, &mut machine)
}

/// Maps the pages, makes an image of the state and a tape with room for one delta, and continues.
fn with_pages(case: &Case<'_>, machine: &mut Machine) -> Outcome {
    map_page(case.alloc, machine, Cpu(0), Owner(0))?;
    map_page(case.alloc, machine, Cpu(1), Owner(1))?;
    let image = machine.image(case.alloc)?;
    let mut tape = Tape::with_room(case.alloc, 1)?;
    with_event(case, machine, &image, &mut tape)
}

/// Maps the first page of an owner.
fn map_page(alloc: Global, machine: &mut Machine, cpu: Cpu, owner: Owner) -> Outcome {
    let event = Event::Map {
        owner,
        page: Page(0),
    };
    make_call(alloc, machine, cpu, &event)
}

/// Makes an event that holds a plan, and words; prints that all is set up, and makes the calls.
fn with_event(case: &Case<'_>, machine: &mut Machine, image: &Image, tape: &mut Tape) -> Outcome
    requires { length tape.old.deltas < tape.old.room }
{
    let event = begin(case.alloc)?;
    let words = two_words(case.alloc)?;
    case.say_set_up();
    expect(
        is_counted(machine.layout())
            && is_read(machine)
            && is_image(image)
            && is_noted(tape)
            && event.same(&event)
            && words.as_slice() == [7, 9].as_slice()
            && is_refused(case.alloc, machine),
    )
}

/// Returns whether functions of a layout give the right numbers.
fn is_counted(layout: &Layout) -> bool {
    layout.frames() == 16
        && layout.boot().len() == 4
        && layout.block_bytes() == 64
        && buddy(Frame(8), Order(1)) == Frame(10)
        && pageblock_of(layout, Frame(9)) == Pageblock(2)
        && block_of(layout, Frame(9)) == Block(2)
}

/// Returns whether functions that read a machine give what it holds.
fn is_read(machine: &Machine) -> bool {
    machine.front(Class::Nm, Order(2)) == Some(Frame(0))
        && machine.list_len(Class::Nm, Order(2)) == 2
        && machine.row(Block(3)).is_some()
        && machine.kind(Pageblock(3)).is_some()
        && machine.kernel_at(Frame(8)).is_none()
        && machine.frame_at(Owner(0), Page(0)) == Some(Frame(8))
        && machine.auto() == Auto::Offline
        && machine.journal_len() == 2
        && machine.entry(1).is_some()
        && machine.history().len() == 2
        && machine.sealed() == 0
        && machine.last_serial() == 2
        && machine.base().list(Class::Mm, Order(2)) == [Frame(8)].as_slice()
}

/// Returns whether functions that read an image give what it holds.
fn is_image(image: &Image) -> bool {
    image.same(image)
        && image.list(Class::Nm, Order(2)).len() == 2
        && image.cpu_list(Cpu(0), Pool::Mm) == [Frame(9)].as_slice()
        && image.frame_at(Owner(0), Page(0)) == Some(Frame(8))
        && image.words(Owner(0), Page(0)).is_some()
        && image.kernel_at(Frame(0)).is_none()
        && image.kind(Pageblock(0)).is_some()
        && image.row(Block(0)).is_some()
}

/// Notes a delta and takes it back. Returns whether the tape shows each.
fn is_noted(tape: &mut Tape) -> bool
    requires { length tape.old.deltas < tape.old.room }
{
    note(tape);
    tape.as_slice().len() == 1
        && tape.len() == 1
        && matches!(tape.latest(), Some(Delta::Auto { .. }))
        && tape.len() == 0
}

/// Makes a call when the history is full, directly and through a port. Returns whether both report
/// that.
fn is_refused(alloc: Global, machine: &mut Machine) -> bool {
    let undo = Event::UndoAfter { serial: Serial(0) };
    if !is_full(machine, alloc, Cpu(0), &undo) {
        return false;
    }
    let mut port = MachinePort::new(machine, Cpu(0));
    port.cpus() == 2 && port.call(alloc, &undo).is_err() && port.fault.is_some()
}
