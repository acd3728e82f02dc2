//! Tests of scenarios with names for results, and of the scenarios with numbers that they become.
use super::explorations::scenario;
use hp_scenario::ScenarioFault;
use hp_scripts::{
    Bindings, NameFault, NamedScenario, PlainLine, name_fault, plain_line, resolve_front,
};
use hp_text::write_scenario;
use std::alloc::{AllocError, Global};
use std::test::Fail;

/// A scenario with names for results. Its second begin and its first kalloc are refused.
const NAMED: &str =
    "{\"layout\": {\"order\": 1, \"pageblocks\": 1, \"blocks\": 3, \"cpus\": 2, \"batch\": 1, \
     \"high\": 2,\n\"owners\": 1, \"pages\": 2, \"words\": 1, \"history\": 9,\n\
     \"boot\": [\"movable\", \"movable\", \"normal\"]},\n\"calls\": [\n\"0 begin off 1 as x\",\n\
     \"0 migrate $x\",\n\"1 kalloc 9 as x\",\n\"1 kfree $x\",\n\"0 begin off 1 as x\",\n\
     \"0 drainfor $x 1\",\n\"1 kalloc 0 as x\",\n\"1 kfree $x\",\n\"0 cancel $x\"\n]}\n";

/// `NAMED` after its first two lines were run. Their results have numbers, and 0 replaces the names
/// of later results.
const AFTER_TWO: &str =
    "{\"layout\": {\"order\": 1, \"pageblocks\": 1, \"blocks\": 3, \"cpus\": 2, \"batch\": 1, \
     \"high\": 2,\n\"owners\": 1, \"pages\": 2, \"words\": 1, \"history\": 9,\n\
     \"boot\": [\"movable\", \"movable\", \"normal\"]},\n\"calls\": [\n\"0 begin off 1\",\n\
     \"0 migrate 1\",\n\"1 kalloc 9\",\n\"1 kfree 0\",\n\"0 begin off 1\",\n\"0 drainfor 0 1\",\n\
     \"1 kalloc 0\",\n\"1 kfree 0\",\n\"0 cancel 0\"\n]}\n";

/// `NAMED` after all its lines were run: each result has a number.
const AFTER_ALL: &str =
    "{\"layout\": {\"order\": 1, \"pageblocks\": 1, \"blocks\": 3, \"cpus\": 2, \"batch\": 1, \
     \"high\": 2,\n\"owners\": 1, \"pages\": 2, \"words\": 1, \"history\": 9,\n\
     \"boot\": [\"movable\", \"movable\", \"normal\"]},\n\"calls\": [\n\"0 begin off 1\",\n\
     \"0 migrate 1\",\n\"1 kalloc 9\",\n\"1 kfree 4294967295\",\n\"0 begin off 1\",\n\
     \"0 drainfor 5 1\",\n\"1 kalloc 0\",\n\"1 kfree 4\",\n\"0 cancel 5\"\n]}\n";

/// Returns whether a scenario is written as this text.
fn is_written(alloc: Global, named: &NamedScenario, text: &str) -> Result<bool, AllocError> {
    let scenario = &named.scenario;
    let lines = scenario.lines.as_slice();
    let mut out = String::new(alloc);
    write_scenario(&mut out, &scenario.layout, &scenario.names, lines, &[])?;
    Ok(out.as_str() == text)
}

/// Returns whether `NAMED` is written as this text after its first `count` lines were run.
fn is_resolved(alloc: Global, count: u64, text: &str) -> Result<bool, AllocError> {
    match NamedScenario::read(alloc, NAMED.as_bytes()) {
        Ok(named) => {
            let resolved = resolve_front(alloc, named, count)?;
            is_written(alloc, &resolved, text)
        }
        Err(_fault) => Ok(false),
    }
}

#[test]
fn results_have_numbers(rt: HostRuntime) -> Result<(), Fail> {
    assert!(rt; is_resolved(rt.alloc(), 2, AFTER_TWO)?);
    assert!(rt; is_resolved(rt.alloc(), 9, AFTER_ALL)?);
    Ok(())
}

/// Lines after `0 begin off 0 as x`, and why their names are not understood.
const FAULTS: &[(&str, NameFault)] = &[
    ("0 migrate $y", NameFault::UnknownName),
    ("1 migrate $x", NameFault::UnknownName),
    ("0 kfree $x", NameFault::WrongKind),
    ("0 drain $x", NameFault::ReferenceNotHere),
    ("0 drainfor $x $x", NameFault::ReferenceNotHere),
    ("0 commit $x as y", NameFault::NameNotHere),
    ("0 seal as y", NameFault::NameNotHere),
    ("0 kalloc 0 as Y", NameFault::BadName),
];

/// Returns whether the names of a line after `0 begin off 0 as x` are not understood, for this
/// reason.
fn has_fault(alloc: Global, text: &str, fault: NameFault) -> Result<bool, AllocError> {
    let mut bound = Bindings::new(alloc);
    let PlainLine {
        text: _,
        source: _,
        naming,
    } = plain_line(alloc, "0 begin off 0 as x", &bound)?;
    if let Some(naming) = naming {
        bound.bind(naming, 0, 0)?;
    }
    match name_fault(alloc, text, &bound)? {
        Some(found) => Ok(found == fault),
        None => Ok(false),
    }
}

#[test]
fn names_are_not_understood_for_a_reason(rt: HostRuntime) -> Result<(), Fail> {
    for (text, fault) in FAULTS {
        assert!(rt; has_fault(rt.alloc(), text, *fault)?, "{text}");
    }
    Ok(())
}

/// The lines of a scenario, and the number of the first that is not understood.
const BAD_LINES: &[(&str, u64)] = &[
    ("0 migrate $x", 1),
    ("0 begin off 0 as x;1 migrate $x", 2),
    ("1 kalloc 0 as x;1 kfree $x;1 commit $x", 3),
    ("0 begin off 0 as x;0 drain 0 as y;0 walk", 2),
];

/// Returns whether the line with this number is the first that is not understood.
fn is_bad_line(alloc: Global, lines: &str, number: u64) -> Result<bool, AllocError> {
    let text = scenario(alloc, 9, lines)?;
    match NamedScenario::read(alloc, text.as_bytes()) {
        Err(ScenarioFault::BadLine { line }) => Ok(line == number),
        _ => Ok(false),
    }
}

#[test]
fn lines_with_other_names_are_none(rt: HostRuntime) -> Result<(), Fail> {
    for (lines, number) in BAD_LINES {
        assert!(rt; is_bad_line(rt.alloc(), lines, *number)?, "{lines}");
    }
    Ok(())
}
