//! Steps and an undo that need no memory, since there is room for all that they note and record.
//! Also an undo and a cancel on a machine whose tables are full, which allocate once, for their
//! record. What the calls need is prepared first; then a line is printed, after which allocations
//! may be refused.
use crate::calls::call_all;
use hp_machine::Machine;
use hp_scenario::{Line, Scenario, Work};
use hp_units::{Class, Cpu, Event, Frame, Layout, Order, Reply, Serial};
use refused_values::memories::Noted;
use refused_values::{Case, Outcome, Trouble, expect};
use std::alloc::Global;

/// Lines whose first three steps may allocate, since one of them makes the words of a page. The
/// later steps do not. Commits and cancels are left out: they make a list of their blocks.
pub const STEPS: &str = concat!(
    r#""0 map db 0","0 write db 0 1 7","0 map web 0","0 kalloc 0","0 kalloc 1","0 kfree 2","#,
    r#""0 read db 0 1","0 write db 0 0 9","0 online 3 normal","0 begin off 2","0 drainfor 10 0","#,
    r#""0 migrate 10","0 migrate 10","0 unmap db 0","0 drain 0","0 kalloc 3""#,
);

/// The number of steps of `STEPS` that may allocate.
const FIRST: usize = 3;

/// Lines that make five records. An undo after them finds room for its own record.
pub const RECORDED: &str = r#""0 map db 0","0 kalloc 1","0 unmap db 0","0 kfree 0","0 kalloc 0""#;

/// Lines that map a page, write to it and make two more steps, and then undo these two. The map and
/// the write remain.
pub const UNDONE: &str =
    r#""0 map db 0","0 write db 0 1 7","0 kalloc 1","0 unmap db 0","0 undo 2""#;

/// Lines that map a page, write to it, begin an operation, move the page and cancel the operation.
/// The cancel restores the state before the begin, so the map and the write remain.
pub const CANCELLED: &str =
    r#""0 map db 0","0 write db 0 1 7","0 begin off 2","0 migrate 3","0 cancel 3""#;

/// The number of steps that the undo and the cancel leave: the map and the write.
const LEFT: u64 = 2;

/// Room for more deltas than all steps note.
const ROOM: usize = 500;

/// Makes the steps of a scenario. The later ones allocate nothing, since the tape has room.
pub fn steps(case: &Case<'_>, scenario: &Scenario) -> Outcome {
    let lines = scenario.lines.as_slice();
    if lines.len() < FIRST {
        return Err(Trouble::Wrong);
    }
    let wanted = noted_of(case.alloc, &scenario.layout, lines)?;
    let (first, last) = lines.split_at(FIRST);
    let mut noted = Noted::boot(case.alloc, &scenario.layout, ROOM)?;
    let _count = noted.step_all(case.alloc, 0, first)?;
    case.say_set_up();
    match noted.step_all(case.alloc, FIRST as u64, last) {
        Ok(count) => expect(count == wanted),
        Err(_) => Err(Trouble::Wrong),
    }
}

/// Returns how many deltas the steps of the lines note.
fn noted_of(alloc: Global, layout: &Layout, lines: &[Line]) -> Outcome<usize> {
    let mut noted = Noted::boot(alloc, layout, 0)?;
    noted.step_all(alloc, 0, lines)
}

/// Makes the calls of lines, and undoes all of them when the history has room for one more record.
/// Checks that no step is left to undo, and that two free lists have the same front block as at
/// boot.
pub fn undo(case: &Case<'_>, scenario: &Scenario) -> Outcome {
    let mut machine = Machine::boot(case.alloc, &scenario.layout)?;
    call_all(case.alloc, &mut machine, scenario.lines.as_slice())?;
    case.say_set_up();
    expect(is_undone(case.alloc, &mut machine))
}

/// Undoes all steps of a machine. Returns whether none is left, and two free lists have the same
/// front block as at boot.
fn is_undone(alloc: Global, machine: &mut Machine) -> bool {
    let all = Event::UndoAfter { serial: Serial(0) };
    machine.answer(alloc, Cpu(0), &all).is_ok()
        && machine.journal_len() == 0
        && machine.front(Class::Nm, Order(2)) == Some(Frame(0))
        && machine.front(Class::Mm, Order(2)) == Some(Frame(8))
}

/// Makes the calls of a scenario. The last one, an undo or a cancel, is made on a copy of the
/// machine, since the tables of a copy have no room to spare.
pub fn go_back(case: &Case<'_>, scenario: &Scenario) -> Outcome {
    let Some((last, first)) = scenario.lines.as_slice().split_last() else {
        return Err(Trouble::Wrong);
    };
    let mut machine = Machine::boot(case.alloc, &scenario.layout)?;
    call_all(case.alloc, &mut machine, first)?;
    let mut copy = machine.copy(case.alloc)?;
    case.say_set_up();
    expect_back(case.alloc, &mut copy, last)
}

/// Makes the call of a line. Checks that it undoes or restores, and leaves `LEFT` steps.
fn expect_back(alloc: Global, machine: &mut Machine, line: &Line) -> Outcome {
    let Work::Event(event) = &line.work else {
        return Err(Trouble::Wrong);
    };
    match machine.answer(alloc, line.cpu, event) {
        Ok((_, reply)) => {
            expect(matches!(reply, Reply::Undone { .. } | Reply::Restored))?;
            expect(machine.journal_len() == LEFT)
        }
        Err(fault) => Err(Trouble::from(fault)),
    }
}
