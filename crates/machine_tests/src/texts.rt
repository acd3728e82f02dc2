//! Each writer of text once, and a state with a page.
use crate::looks::{Look, finds_in_four_blocks};
use hp_machine::Machine;
use hp_plain::Image;
use hp_requests::ControlFault;
use hp_text::{
    write_answer, write_call_fault, write_echo_fault, write_plan_end, write_read_fault,
    write_reply, write_reply_words, write_sealed, write_state, write_unrecorded,
};
use hp_units::{
    Block, CallFault, Cpu, Event, Frame, OpEnd, Owner, Page, Refusal, Reply, Serial, Text,
};
use indexmap::IndexSet;
use layouts_for_tests::LAST_OFFLINE;
use std::alloc::{AllocError, Global};
use std::test::Fail;

const ANSWERS: &str =
    "3: frame 8\nrefused Busy 2\n-: fault HistoryFull\nfault OutOfMemory\ncat: fault NoFile\n\
     echo: fault BadText\nplan: cancelled NoFrame restored\nplan: left - HistoryFull\nsealed 7\nmoved 8 3";

/// Writes an answer of each kind.
fn write_answers(out: &mut String) -> Result<(), AllocError> {
    write_answer(out, Serial(3), Reply::Frame(Frame(8)))?;
    write_reply(out, Reply::Refused(Refusal::Busy { block: Block(2) }))?;
    write_unrecorded(out, CallFault::HistoryFull)?;
    write_call_fault(out, CallFault::OutOfMemory)?;
    write_read_fault(out, ControlFault::NoFile)?;
    write_echo_fault(out, ControlFault::BadText)?;
    write_plan_end(
        out,
        OpEnd::Cancelled {
            why: Some(Refusal::NoFrame),
            restored: true,
        },
    )?;
    write_plan_end(
        out,
        OpEnd::Left {
            op: None,
            fault: CallFault::HistoryFull,
        },
    )?;
    write_sealed(out, 7)?;
    write_reply_words(
        out,
        Reply::Moved {
            from: Frame(8),
            to: Frame(3),
        },
    )
}

#[test]
fn answers_have_their_texts(rt: HostRuntime) -> Result<(), Fail> {
    let mut text = String::new(rt.alloc());
    write_answers(&mut text)?;
    assert!(rt; text.as_str() == ANSWERS);
    Ok(())
}

const MAPPED: &str =
    "state\nblock 0 online normal\nblock 1 online normal\nblock 2 online movable\nblock 3 offline\n\
     NM 2: 0 4\nMM 1: 10\ncpu 0 MM: 9\npage db 0 at 8: 0 0\n";

/// Makes a call of processor 0, and returns whether it gets this reply.
fn is_answered(alloc: Global, machine: &mut Machine, event: &Event, reply: &Reply) -> bool {
    match machine.answer(alloc, Cpu(0), event) {
        Ok((_, answered)) => answered.same(reply),
        Err(_fault) => false,
    }
}

/// Maps the first owner's first page twice. Returns whether the first call is done and the second
/// refused.
fn maps_once(alloc: Global, machine: &mut Machine) -> bool {
    let event = Event::Map {
        owner: Owner(0),
        page: Page(0),
    };
    let refused = Reply::Refused(Refusal::AlreadyMapped);
    is_answered(alloc, machine, &event, &Reply::Done)
        && is_answered(alloc, machine, &event, &refused)
}

/// Returns a table of owners' names that has only `db`.
fn one_name(alloc: Global) -> Result<IndexSet<Text>, AllocError> {
    let name = Text::new(String::from_str(alloc, "db")?);
    let mut names = IndexSet::new(alloc);
    let _ = names.insert_full(name)?;
    Ok(names)
}

/// Returns whether the text of a state is `MAPPED`.
fn has_the_page(alloc: Global, image: &Image, names: &IndexSet<Text>) -> Result<bool, AllocError> {
    let mut out = String::new(alloc);
    write_state(&mut out, alloc, image, names)?;
    Ok(out.as_str() == MAPPED)
}

/// Returns whether the text of a machine's state is `MAPPED`.
fn shows_the_page(alloc: Global, machine: &Machine) -> Result<bool, AllocError> {
    let names = one_name(alloc)?;
    let image = machine.image(alloc)?;
    has_the_page(alloc, &image, &names)
}

/// Checks the text of a state with one mapped page.
#[derive(Clone, Copy)]
struct Mapped;

impl Look for Mapped {
    fn finds(&self, alloc: Global, machine: &mut Machine) -> bool {
        maps_once(alloc, machine) && shows_the_page(alloc, machine) == Ok(true)
    }
}

#[test]
fn a_state_names_its_owners(rt: HostRuntime) {
    assert!(rt; finds_in_four_blocks(rt.alloc(), LAST_OFFLINE, &Mapped));
}
