//! Tests of where a search begins, and of the number of interleavings, which is computed without
//! making a call.
use super::explorations::scenario;
use hp_scenario::Scenario;
use hp_scripts::{front_of, interleavings_line, start_of};
use std::alloc::{AllocError, Global};
use std::test::Fail;

/// The lines of a scenario, the length of the setup, and what is printed of the interleavings of
/// the later lines.
const COUNTED: &[(&str, u64, &str)] = &[
    (
        "0 drain 0;1 drain 0;0 drain 1;1 drain 1;0 drain 0",
        0,
        "interleavings: 10\n",
    ),
    (
        "0 drain 0;1 drain 0;0 drain 1;1 drain 1;0 drain 0",
        5,
        "interleavings: 1\n",
    ),
    (
        "0 drain 0;1 drain 0;0 drain 1;1 drain 1;0 drain 0;1 drain 0",
        0,
        "interleavings: more than 10\n",
    ),
    (
        "0 drain 0;1 plan 2 off 1",
        1,
        "interleavings: not known: the calls of a plan are counted only by explore\n",
    ),
    ("0 drain 0;1 seal", 1, ""),
];

/// Reads the scenario of these lines; returns `None` if it is refused.
fn read(alloc: Global, lines: &str) -> Result<Option<Scenario>, AllocError> {
    let bytes = scenario(alloc, 40, lines)?;
    Ok(Scenario::read(alloc, bytes.as_bytes()).ok())
}

/// Returns whether `interleavings_line` returns `text` for a scenario after `setup` lines of setup,
/// with a limit of 10.
fn says_of(alloc: Global, read: &Scenario, setup: u64, text: &str) -> Result<bool, AllocError> {
    let cpus = read.layout.cpus();
    let line = interleavings_line(alloc, cpus, setup, read.lines.as_slice(), 10)?;
    Ok(line.as_str() == text)
}

/// Returns whether `interleavings_line` returns `text` for the scenario of these lines.
fn says(alloc: Global, lines: &str, setup: u64, text: &str) -> Result<bool, AllocError> {
    match read(alloc, lines)? {
        Some(read) => says_of(alloc, &read, setup, text),
        None => Ok(false),
    }
}

#[test]
fn interleavings_are_known_before_any_call(rt: HostRuntime) -> Result<(), Fail> {
    for (lines, setup, text) in COUNTED {
        assert!(rt; says(rt.alloc(), lines, *setup, text)?, "{lines}");
    }
    Ok(())
}

/// Returns whether a search of the scenario after one line of setup begins with one record and two
/// scripts.
fn begins_after_one(alloc: Global, scenario: &Scenario) -> bool {
    match start_of(alloc, scenario, &[], 1) {
        Ok(start) => start.machine.last_serial() == 1 && start.scripts.len() == 2,
        Err(_fault) => false,
    }
}

/// Returns whether only the first of three lines is the setup, and a search begins after it.
fn has_one_line_of_setup(alloc: Global) -> Result<bool, AllocError> {
    match read(alloc, "0 drain 0;1 drain 0;0 drain 1")? {
        Some(read) => {
            let is_front = front_of(read.lines.as_slice(), 1).len() == 1;
            Ok(is_front && begins_after_one(alloc, &read))
        }
        None => Ok(false),
    }
}

#[test]
fn searches_begin_after_the_setup(rt: HostRuntime) -> Result<(), Fail> {
    assert!(rt; has_one_line_of_setup(rt.alloc())?);
    Ok(())
}
