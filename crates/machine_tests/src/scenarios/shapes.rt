//! How lines are read. Texts of other shapes are refused in refusals/hostile.py.
use super::scenario;
use hp_scenario::{Line, Work};
use hp_units::{Block, Cpu, Event, Serial};
use std::test::Fail;

const CALLS: &str = r#""0 kalloc 1","0 kfree 0","0 undo 0""#;

const PLANS_AND_FILES: &str =
    r#""0 plan 5 off 2 movable 3","1 echo offline memory2/state","0 cat buddyinfo","0 remove 3","7 seal""#;

/// Returns whether there are three lines, the last of which undoes everything.
fn are_three_and_undo(lines: &[Line]) -> bool {
    match lines {
        [_first, _second, undo] => {
            matches!(&undo.work, Work::Event(Event::UndoAfter { serial: s }) if *s == Serial(0))
        }
        _ => false,
    }
}

#[test]
fn reads_a_scenario(rt: HostRuntime) -> Result<(), Fail> {
    let scenario = scenario(rt.alloc(), CALLS)?;
    assert!(rt; are_three_and_undo(scenario.lines.as_slice()));
    Ok(())
}

/// Returns whether the lines are a plan of two blocks with 5 turns, and an `echo` to memory2/state.
fn are_plan_and_echo(plan: &Line, echo: &Line) -> bool {
    let is_plan = matches!(&plan.work, Work::Plan { plan, turns: 5 } if plan.as_slice().len() == 2);
    let is_echo = matches!(&echo.work, Work::Echo(echo)
        if echo.path() == "memory2/state" && echo.word() == "offline" && echo.request().is_ok());
    is_plan && echo.cpu == Cpu(1) && is_echo
}

/// Returns whether the lines are a `cat`, a `remove`, and a seal of processor 7.
fn are_cat_remove_and_seal(cat: &Line, remove: &Line, seal: &Line) -> bool {
    let is_cat = matches!(&cat.work, Work::Cat { path } if path.as_str() == "buddyinfo");
    let is_remove =
        matches!(&remove.work, Work::Event(Event::Remove { block: b }) if *b == Block(3));
    is_cat && is_remove && matches!(&seal.work, Work::Seal) && seal.cpu == Cpu(7)
}

/// Returns whether the lines are the plan, the `echo`, the `cat`, the `remove` and the seal, in
/// order.
fn are_plans_and_files(lines: &[Line]) -> bool {
    match lines {
        [plan, echo, cat, remove, seal] => {
            are_plan_and_echo(plan, echo) && are_cat_remove_and_seal(cat, remove, seal)
        }
        _ => false,
    }
}

#[test]
fn reads_plans_and_files(rt: HostRuntime) -> Result<(), Fail> {
    let scenario = scenario(rt.alloc(), PLANS_AND_FILES)?;
    assert!(rt; are_plans_and_files(scenario.lines.as_slice()));
    Ok(())
}
