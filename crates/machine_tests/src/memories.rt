//! A step of a memory that is taken back, and the numbers of states.
use hp_memory::Memory;
use hp_states::Codes;
use hp_tape::Tape;
use hp_units::{Cpu, Event, Frame, Order, Reply, Serial};
use layouts_for_tests::{LAST_OFFLINE, four_blocks};
use std::alloc::{AllocError, Global};
use std::test::Fail;

/// Boots a memory of four blocks.
fn booted(alloc: Global) -> Result<Memory, Fail> {
    let layout = four_blocks(alloc, LAST_OFFLINE, 9)?;
    Ok(Memory::boot(alloc, &layout)?)
}

/// Takes a kernel block, and undoes that step.
fn stepped_and_back(
    alloc: Global,
    memory: &mut Memory,
    tape: &mut Tape,
) -> Result<Reply, AllocError> {
    memory.is_placed();
    let take = Event::KernelAlloc { order: Order(1) };
    let mark = tape.len();
    let reply = memory.step(alloc, Serial(1), Cpu(0), &take, tape)?;
    memory.back(tape, mark);
    Ok(reply)
}

/// Returns whether the reply is frame 0.
fn is_first(answered: Result<Reply, AllocError>) -> bool {
    match answered {
        Ok(reply) => reply.same(&Reply::Frame(Frame(0))),
        Err(AllocError) => false,
    }
}

/// Returns whether the state before a step has number 0, and again once the step is undone, and
/// whether the state after the step has number 1.
fn are_numbered(
    alloc: Global,
    codes: &mut Codes,
    memory: &mut Memory,
    tape: &mut Tape,
) -> Result<bool, AllocError> {
    let before = codes.number_of(alloc, memory, Serial(0), &[])?;
    let was_first = is_first(stepped_and_back(alloc, memory, tape));
    let again = codes.number_of(alloc, memory, Serial(0), &[])?;
    let take = Event::KernelAlloc { order: Order(1) };
    let is_first = is_first(memory.step(alloc, Serial(1), Cpu(0), &take, tape));
    let after = codes.number_of(alloc, memory, Serial(0), &[])?;
    Ok(was_first && is_first && before == 0 && again == 0 && after == 1)
}

/// Returns whether `are_numbered` holds with an empty table and tape.
fn goes_back(alloc: Global, memory: &mut Memory) -> Result<bool, AllocError> {
    let mut tape = Tape::with_room(alloc, 0)?;
    let mut codes = Codes::new(alloc);
    are_numbered(alloc, &mut codes, memory, &mut tape)
}

#[test]
fn a_step_goes_back(rt: HostRuntime) -> Result<(), Fail> {
    let mut memory = booted(rt.alloc())?;
    let was_back = goes_back(rt.alloc(), &mut memory);
    drop(memory);
    assert!(rt; was_back?);
    Ok(())
}
