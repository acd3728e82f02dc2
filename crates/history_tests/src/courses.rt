//! A course of two records, and an audit of records that lead back to the state at boot.
use hp_history::{Course, Records, Volume};
use hp_machine::audit_chain;
use hp_plain::Image;
use hp_units::{Cpu, Event, Frame, Layout, Order, Record, Reply, Serial};
use layouts_for_tests::{LAST_OFFLINE, four_blocks};
use std::alloc::{AllocError, Global};
use std::test::Fail;

/// Takes a block of two frames for the kernel.
const TAKE: Event = Event::KernelAlloc { order: Order(1) };

/// Gives back the block of two frames that starts at frame 0.
const GIVE: Event = Event::KernelFree { frame: Frame(0) };

/// Returns a record of processor 0.
fn record_of(serial: u64, event: Event, reply: Reply) -> Record {
    Record {
        serial: Serial(serial),
        cpu: Cpu(0),
        event,
        reply,
    }
}

/// Returns three records: a block is taken, given back, and both steps are undone.
fn worked(alloc: Global) -> Result<Vec<Record>, AllocError> {
    let mut records = Vec::with_capacity(alloc, 3)?;
    let undo = Event::UndoAfter { serial: Serial(0) };
    records.push(record_of(1, TAKE, Reply::Frame(Frame(0))))?;
    records.push(record_of(2, GIVE, Reply::Done))?;
    records.push(record_of(3, undo, Reply::Undone { count: 2 }))?;
    Ok(records)
}

/// Returns whether an audit of the records of `worked` leads back to the state at boot.
fn leads_back(alloc: Global, layout: &Layout) -> Result<bool, Fail> {
    let records = Records::new(worked(alloc)?);
    let boot = Image::boot(alloc, layout)?;
    let base = boot.copy(alloc)?;
    let volume = Volume {
        before: 0,
        base,
        records,
    };
    let end = audit_chain(alloc, layout, &[volume])?;
    Ok(end.same(&boot))
}

#[test]
fn a_history_leads_back_to_boot(rt: HostRuntime) -> Result<(), Fail> {
    let layout = four_blocks(rt.alloc(), LAST_OFFLINE, 9)?;
    assert!(rt; leads_back(rt.alloc(), &layout)?);
    Ok(())
}

/// Carries out an event of processor 0, unless the course has no serial left.
fn act(alloc: Global, course: &mut Course, event: &Event) -> Result<(), AllocError> {
    if course.is_spent() {
        return Ok(());
    }
    match course.answer(alloc, Cpu(0), event) {
        Ok(_) => Ok(()),
        Err(AllocError) => Err(AllocError),
    }
}

/// Returns whether a course shows two steps and their deltas.
fn shows_two_steps(course: &Course) -> bool {
    course.journal_len() == 2
        && course.entry(1).is_some()
        && course.way_back(0).is_some()
        && course.history().len() == 2
        && course.memory().layout().cpus() == 2
}

/// Takes a block and gives it back. Returns whether the course shows both steps, and a seal hands
/// them out.
fn seals_two(alloc: Global, course: &mut Course) -> Result<bool, AllocError> {
    act(alloc, course, &TAKE)?;
    act(alloc, course, &GIVE)?;
    let shown = shows_two_steps(course);
    let volume = course.seal(alloc)?;
    let records = volume.records.into_vec();
    Ok(shown && records.len() == 2 && course.before() == 2 && course.last_serial() == 2)
}

/// Returns whether the base of a course, and of its copy, is its present state.
fn is_at_its_base(alloc: Global, course: &Course) -> Result<bool, AllocError> {
    let image = course.image(alloc)?;
    let copy = course.copy(alloc)?;
    Ok(course.base().same(&image) && copy.base().same(&image))
}

/// Returns whether `seals_two` and then `is_at_its_base` hold.
fn goes_on(alloc: Global, course: &mut Course) -> Result<bool, AllocError> {
    Ok(seals_two(alloc, course)? && is_at_its_base(alloc, course)?)
}

/// Boots a course on the layout of four blocks.
fn booted(alloc: Global) -> Result<Course, Fail> {
    let layout = four_blocks(alloc, LAST_OFFLINE, 9)?;
    Ok(Course::boot(alloc, &layout)?)
}

#[test]
fn a_sealed_course_goes_on_from_its_state(rt: HostRuntime) -> Result<(), Fail> {
    let mut course = booted(rt.alloc())?;
    assert!(rt; goes_on(rt.alloc(), &mut course)?);
    Ok(())
}
