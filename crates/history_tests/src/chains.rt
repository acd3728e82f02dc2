//! Histories and chains of volumes with an error each, and the fault that reports it.
use hp_history::{Records, Volume};
use hp_machine::{ChainFault, Machine, ReplayFault, audit_chain, replay};
use hp_plain::Image;
use hp_units::{Cpu, Event, Frame, Layout, Order, Record, Refusal, Reply, Serial};
use layouts_for_tests::{LAST_OFFLINE, four_blocks};
use std::alloc::{AllocError, Global};
use std::test::Fail;

/// Takes a block of two frames for the kernel.
const TAKE: Event = Event::KernelAlloc { order: Order(1) };

/// Gives back the block of two frames that starts at frame 0.
const GIVE: Event = Event::KernelFree { frame: Frame(0) };

/// Returns a record of processor 0.
fn record_of(serial: u64, event: Event, reply: Reply) -> Record {
    Record {
        serial: Serial(serial),
        cpu: Cpu(0),
        event,
        reply,
    }
}

/// Returns the record of an undo to serial `to`.
fn undo_of(serial: u64, to: u64, reply: Reply) -> Record {
    let undo = Event::UndoAfter { serial: Serial(to) };
    record_of(serial, undo, reply)
}

/// Returns three records: a block is taken, given back, and both steps are undone. The reply to the
/// undo reports `count` steps.
fn undone(alloc: Global, count: u64) -> Result<Vec<Record>, AllocError> {
    let mut records = Vec::with_capacity(alloc, 3)?;
    records.push(record_of(1, TAKE, Reply::Frame(Frame(0))))?;
    records.push(record_of(2, GIVE, Reply::Done))?;
    records.push(undo_of(3, 0, Reply::Undone { count }))?;
    Ok(records)
}

/// Returns the records of `undone` with the right count, without the second record.
fn with_a_gap(alloc: Global) -> Result<Vec<Record>, AllocError> {
    let mut records = Vec::with_capacity(alloc, 2)?;
    records.push(record_of(1, TAKE, Reply::Frame(Frame(0))))?;
    records.push(undo_of(3, 0, Reply::Undone { count: 2 }))?;
    Ok(records)
}

/// Returns the fault of a replay of the records, or `None` if they are a legal history.
fn fault_of(alloc: Global, layout: &Layout, records: &[Record]) -> Option<ReplayFault> {
    match replay(alloc, layout, records) {
        Ok(_image) => None,
        Err(fault) => Some(fault),
    }
}

#[test]
fn a_wrong_reply_is_named_by_its_serial(rt: HostRuntime) -> Result<(), Fail> {
    let layout = four_blocks(rt.alloc(), LAST_OFFLINE, 9)?;
    let right = undone(rt.alloc(), 2)?;
    let wrong = undone(rt.alloc(), 1)?;
    let third = ReplayFault::WrongReply { serial: Serial(3) };
    assert!(rt; fault_of(rt.alloc(), &layout, right.as_slice()).is_none());
    assert!(rt; fault_of(rt.alloc(), &layout, wrong.as_slice()) == Some(third));
    Ok(())
}

#[test]
fn a_wrong_serial_is_named_by_its_place(rt: HostRuntime) -> Result<(), Fail> {
    let layout = four_blocks(rt.alloc(), LAST_OFFLINE, 9)?;
    let records = with_a_gap(rt.alloc())?;
    let second = ReplayFault::WrongSerial { at: 1 };
    assert!(rt; fault_of(rt.alloc(), &layout, records.as_slice()) == Some(second));
    Ok(())
}

/// Makes a call, and returns whether it gets this reply.
fn gets(alloc: Global, machine: &mut Machine, event: &Event, reply: &Reply) -> bool {
    match machine.answer(alloc, Cpu(0), event) {
        Ok((_, answered)) => answered.same(reply),
        Err(_fault) => false,
    }
}

/// Makes an undo to serial `to`, and returns whether it gets this reply.
fn undo_gets(alloc: Global, machine: &mut Machine, to: u64, reply: &Reply) -> bool {
    let undo = Event::UndoAfter { serial: Serial(to) };
    gets(alloc, machine, &undo, reply)
}

/// Takes a block, gives it back and seals. Returns the volume.
fn first_volume(alloc: Global, machine: &mut Machine) -> Result<Volume, Fail> {
    let first = Reply::Frame(Frame(0));
    if gets(alloc, machine, &TAKE, &first) && gets(alloc, machine, &GIVE, &Reply::Done) {
        return Ok(machine.seal(alloc)?);
    }
    Err(Fail::from("other replies before the seal"))
}

/// Makes the calls after the first seal and seals again. Returns the volume.
///
/// An undo of sealed steps is refused, an undo that drops no step is done, and a block is taken.
fn second_volume(alloc: Global, machine: &mut Machine) -> Result<Volume, Fail> {
    let gone = Reply::Refused(Refusal::Gone);
    let none = Reply::Undone { count: 0 };
    let first = Reply::Frame(Frame(0));
    if undo_gets(alloc, machine, 0, &gone)
        && undo_gets(alloc, machine, 2, &none)
        && gets(alloc, machine, &TAKE, &first)
    {
        return Ok(machine.seal(alloc)?);
    }
    Err(Fail::from("other replies after the seal"))
}

/// Returns the two volumes of one machine.
fn both_volumes(alloc: Global, layout: &Layout) -> Result<Vec<Volume>, Fail> {
    let mut machine = Machine::boot(alloc, layout)?;
    let mut volumes = Vec::with_capacity(alloc, 2)?;
    volumes.push(first_volume(alloc, &mut machine)?)?;
    volumes.push(second_volume(alloc, &mut machine)?)?;
    Ok(volumes)
}

/// Returns the first volume twice, from two machines.
fn first_twice(alloc: Global, layout: &Layout) -> Result<Vec<Volume>, Fail> {
    let mut machine = Machine::boot(alloc, layout)?;
    let mut twin = Machine::boot(alloc, layout)?;
    let mut volumes = Vec::with_capacity(alloc, 2)?;
    volumes.push(first_volume(alloc, &mut machine)?)?;
    volumes.push(first_volume(alloc, &mut twin)?)?;
    Ok(volumes)
}

/// Sets the base of a volume to the state at boot.
fn begin_at_boot(alloc: Global, layout: &Layout, volume: &mut Volume) -> Result<(), AllocError> {
    volume.base = Image::boot(alloc, layout)?;
    Ok(())
}

/// Gives a volume the records of `second_volume`, with another reply in the last one.
fn reply_otherwise(alloc: Global, volume: &mut Volume) -> Result<(), AllocError> {
    let mut records = Vec::with_capacity(alloc, 3)?;
    records.push(undo_of(3, 0, Reply::Refused(Refusal::Gone)))?;
    records.push(undo_of(4, 2, Reply::Undone { count: 0 }))?;
    records.push(record_of(5, TAKE, Reply::Frame(Frame(2))))?;
    volume.records = Records::new(records);
    Ok(())
}

/// Returns the fault of an audit of the chain, or `None` if the volumes follow one another.
fn chain_fault(alloc: Global, layout: &Layout, volumes: &[Volume]) -> Option<ChainFault> {
    match audit_chain(alloc, layout, volumes) {
        Ok(_image) => None,
        Err(fault) => Some(fault),
    }
}

/// Returns whether the two volumes follow one another, and the second alone has a wrong count.
fn follow(alloc: Global, layout: &Layout, volumes: &[Volume]) -> bool {
    match volumes {
        [_first, second @ ..] => {
            let alone = chain_fault(alloc, layout, second);
            chain_fault(alloc, layout, volumes).is_none()
                && alone == Some(ChainFault::WrongCount { at: 0 })
        }
        _ => false,
    }
}

#[test]
fn the_second_volume_follows_the_first(rt: HostRuntime) -> Result<(), Fail> {
    let layout = four_blocks(rt.alloc(), LAST_OFFLINE, 9)?;
    let volumes = both_volumes(rt.alloc(), &layout)?;
    assert!(rt; follow(rt.alloc(), &layout, volumes.as_slice()));
    Ok(())
}

#[test]
fn the_first_volume_does_not_follow_itself(rt: HostRuntime) -> Result<(), Fail> {
    let layout = four_blocks(rt.alloc(), LAST_OFFLINE, 9)?;
    let volumes = first_twice(rt.alloc(), &layout)?;
    let fault = chain_fault(rt.alloc(), &layout, volumes.as_slice());
    assert!(rt; fault == Some(ChainFault::WrongCount { at: 1 }));
    Ok(())
}

/// Returns the fault of the two volumes if the second begins with the state at boot.
fn fault_at_boot(alloc: Global, layout: &Layout) -> Result<Option<ChainFault>, Fail> {
    let mut volumes = both_volumes(alloc, layout)?;
    if let Some(second) = volumes.get_mut(1) {
        begin_at_boot(alloc, layout, second)?;
    }
    Ok(chain_fault(alloc, layout, volumes.as_slice()))
}

/// Returns the fault of the two volumes if the second's last reply is changed.
fn fault_of_reply(alloc: Global, layout: &Layout) -> Result<Option<ChainFault>, Fail> {
    let mut volumes = both_volumes(alloc, layout)?;
    if let Some(second) = volumes.get_mut(1) {
        reply_otherwise(alloc, second)?;
    }
    Ok(chain_fault(alloc, layout, volumes.as_slice()))
}

#[test]
fn a_volume_begins_with_the_state_that_was_sealed(rt: HostRuntime) -> Result<(), Fail> {
    let layout = four_blocks(rt.alloc(), LAST_OFFLINE, 9)?;
    let fault = fault_at_boot(rt.alloc(), &layout)?;
    assert!(rt; fault == Some(ChainFault::WrongBase { at: 1 }));
    Ok(())
}

#[test]
fn a_wrong_reply_is_named_by_its_volume_too(rt: HostRuntime) -> Result<(), Fail> {
    let layout = four_blocks(rt.alloc(), LAST_OFFLINE, 9)?;
    let fault = fault_of_reply(rt.alloc(), &layout)?;
    let fifth = ReplayFault::WrongReply { serial: Serial(5) };
    let wanted = ChainFault::Replay {
        at: 1,
        fault: fifth,
    };
    assert!(rt; fault == Some(wanted));
    Ok(())
}
