//! Lines that probably do not do what they are meant to do.
ghost use Rattle.std.specs.Prelude.{OnOk, length};
ghost use Rattle.std.specs.List.{All};
ghost use Rattle.hp_check.specs.Adds.{IsWarning};

use crate::finding::{Finding, Subject, Warning};
use crate::quotes::first_odd;
use crate::tally::Tally;
use hp_requests::{ControlFault, File, file_at};
use hp_scenario::{Asked, Line, Work};
use hp_units::{Cpu, Event, Layout, Owner, Page, Plan, Serial};
use std::alloc::{AllocError, Global};

/// Adds the warnings about lines on a layout. The first `setup` lines are the setup, the others are
/// in the scripts of their processors. `sources` has an index for each line that works on the
/// result of an earlier line by its name.
pub(crate) fn push_warnings(
    found: &mut Vec<Finding>,
    alloc: Global,
    layout: &Layout,
    setup: u64,
    lines: &[Line],
    sources: &[Option<usize>],
) -> Result<(), AllocError>
    requires { All (IsWarning (length lines.now)) found.old.items }
    ensures { OnOk result (All (IsWarning (length lines.now)) found.new.items) }
{
    let mut tally = Tally::new(alloc);
    for index in 0..lines.len() {
        if index as u64 == setup {
            tally.end_setup(&lines[index..]);
        }
        tally.by_name = matches!(sources.get(index), Some(Some(_)));
        let line = &lines[index];
        let warning = line_warning(layout, &tally, line);
        tally.add(layout, &line.work)?;
        let Some(warning) = warning else {
            continue;
        };
        let number = index as u64 + 1;
        found.push(Finding::Warning { number, warning })?;
    }
    Ok(())
}

/// Returns the warning of a line: the first that applies.
fn line_warning(layout: &Layout, tally: &Tally, line: &Line) -> Option<Warning> {
    let work = asked_warning(layout, tally, line.cpu, &line.work);
    odd_warning(&line.work)
        .or(unfit_warning(layout.cpus(), tally.in_scripts, line))
        .or(work)
        .or(turns_warning(layout, &line.work))
}

/// Returns a warning if an `echo` or a `cat` has a character that no word of a control file has.
fn odd_warning(work: &Work) -> Option<Warning> {
    let odd = match work {
        Work::Echo(echo) => first_odd(echo.word()).or(first_odd(echo.path())),
        Work::Cat { path } => first_odd(path.as_str()),
        _ => None,
    };
    Some(Warning::Unexpected(odd?))
}

/// Returns a warning if a line is in a script and cannot be part of one on this many processors.
fn unfit_warning(cpus: u32, in_scripts: bool, line: &Line) -> Option<Warning> {
    if !in_scripts {
        return None;
    }
    match line.unfit(cpus) {
        Some(why) => Some(Warning::NotForScript(why)),
        None => None,
    }
}

/// Returns a warning about what a line asks for, if there is one.
fn asked_warning(layout: &Layout, tally: &Tally, cpu: Cpu, work: &Work) -> Option<Warning> {
    match work.asked() {
        Asked::Event(event) => {
            caller_warning(layout, tally, cpu).or(event_warning(layout, tally, event))
        }
        Asked::Plan { plan, turns: _ } => {
            caller_warning(layout, tally, cpu).or(plan_past(layout, plan))
        }
        Asked::NotTaken(fault) => Some(Warning::Echo(fault)),
        Asked::Cat { path } => cat_warning(layout, path),
        Asked::Seal => None,
    }
}

/// Returns a warning if reading the file at a path fails in every state.
fn cat_warning(layout: &Layout, path: &str) -> Option<Warning> {
    let Some(file) = file_at(path) else {
        return Some(Warning::Cat(ControlFault::NoFile));
    };
    match file {
        File::Probe => Some(Warning::Cat(ControlFault::WriteOnly)),
        File::OfBlock { block, file: _ } => {
            if block.0 < layout.blocks() {
                None
            } else {
                Some(Warning::Cat(ControlFault::NoFile))
            }
        }
        File::BlockSizeBytes | File::Buddyinfo | File::AutoOnlineBlocks => None,
    }
}

/// Returns a warning if the history has no room for a plan's begin, a drain of each processor's
/// lists, all its turns, and its commit. A plan that has to drain again makes more calls. The plan
/// is that of a `plan` line, or one that an `echo` asks for.
fn turns_warning(layout: &Layout, work: &Work) -> Option<Warning> {
    let Asked::Plan { plan: _, turns } = work.asked() else {
        return None;
    };
    let history = layout.history();
    if u64::from(turns) + u64::from(layout.cpus()) + 2 <= history {
        None
    } else {
        Some(Warning::Turns { turns, history })
    }
}

/// Returns a warning about any call of this processor: the history is full, or there is no such
/// processor.
fn caller_warning(layout: &Layout, tally: &Tally, cpu: Cpu) -> Option<Warning> {
    let history = layout.history();
    if tally.is_full(history) {
        return Some(Warning::Full { history });
    }
    past(Subject::Processor, cpu.0, layout.cpus())
}

/// Returns a warning if a number is not below `count`.
fn past(subject: Subject, number: u32, count: u32) -> Option<Warning> {
    (number >= count).then_some(Warning::Past {
        subject,
        number: u64::from(number),
        count: u64::from(count),
    })
}

/// Returns a warning if an owner, or else a page, is past the layout.
fn page_past(layout: &Layout, owner: Owner, page: Page) -> Option<Warning> {
    let owner = past(Subject::Owner, owner.0, layout.owners());
    owner.or(past(Subject::Page, page.0, layout.pages()))
}

/// Returns a warning about the first memory block of a plan that is past the layout, if there is
/// one.
fn plan_past(layout: &Layout, plan: &Plan) -> Option<Warning> {
    let blocks = layout.blocks();
    let item = plan.as_slice().iter().find(|item| item.block.0 >= blocks)?;
    past(Subject::Block, item.block.0, blocks)
}

/// Returns a warning if a memory block that begins at this address is past the layout. Returns
/// `None` if no memory block can begin there.
fn address_past(layout: &Layout, address: u64) -> Option<Warning> {
    let bytes = layout.block_bytes();
    if address % bytes != 0 {
        return None;
    }
    let number = address / bytes;
    let count = u64::from(layout.blocks());
    (number >= count).then_some(Warning::Past {
        subject: Subject::Block,
        number,
        count,
    })
}

/// Returns a warning if no earlier line can have begun the operation.
fn no_begin(tally: &Tally, op: Serial) -> Option<Warning> {
    if tally.may_begin(op) {
        None
    } else {
        Some(Warning::NoBegin { op })
    }
}

/// Returns a warning about something that an event names and that does not exist, if there is any.
/// For a `DrainFor`, the processor is checked before the operation.
fn event_warning(layout: &Layout, tally: &Tally, event: &Event) -> Option<Warning> {
    match event {
        Event::KernelAlloc { order } => past(Subject::Order, order.0, layout.order() + 1),
        Event::KernelFree { frame } => past(Subject::Frame, frame.0, layout.frames()),
        Event::Map { owner, page } => page_past(layout, *owner, *page),
        Event::Unmap { owner, page } => page_past(layout, *owner, *page),
        Event::Write {
            owner,
            page,
            index,
            value: _,
        } => page_past(layout, *owner, *page).or(past(Subject::Word, *index, layout.words())),
        Event::Read { owner, page, index } => {
            page_past(layout, *owner, *page).or(past(Subject::Word, *index, layout.words()))
        }
        Event::Drain { cpu } => past(Subject::Processor, cpu.0, layout.cpus()),
        Event::Online { block, zone: _ } => past(Subject::Block, block.0, layout.blocks()),
        Event::Begin { plan } => plan_past(layout, plan),
        Event::DrainFor { op, cpu } => past(Subject::Processor, cpu.0, layout.cpus()).or(no_begin(
            tally, *op,
        )),
        Event::Migrate { op } => no_begin(tally, *op),
        Event::Commit { op } => no_begin(tally, *op),
        Event::Cancel { op } => no_begin(tally, *op),
        Event::UndoAfter { serial: _ } => None,
        Event::Probe { address } => address_past(layout, *address),
        Event::Remove { block } => past(Subject::Block, block.0, layout.blocks()),
        Event::SetAuto { auto: _ } => None,
    }
}
