//! Tests of scenarios that are written as the text that they were read from, and of script lines
//! that name operation 0 before their processor has begun one.
use super::replays::LAST;
use hp_scenario::{Line, Scenario};
use hp_scripts::{Unbegun, unbegun_lines};
use hp_text::{write_calls, write_line, write_mark, write_scenario};
use hp_units::{Cpu, Event, Record, Reply, Serial, Text};
use indexmap::IndexSet;
use std::alloc::{AllocError, Global};
use std::test::Fail;

/// A plan, a `cat`, an `echo`, and a seal.
const LINES: &str =
    "{\"layout\": {\"order\": 0, \"pageblocks\": 4, \"blocks\": 3, \"cpus\": 1, \"batch\": 1, \
     \"high\": 2,\n\"owners\": 1, \"pages\": 2, \"words\": 1, \"history\": 5,\n\
     \"boot\": [\"absent\", \"offline\", \"normal\"]},\n\"calls\": [\n\"0 plan 3 off 1 movable 0\",\n\
     \"0 cat a\\u0007b\",\n\"0 echo c\\\\d e\",\n\"0 seal\"\n]}\n";

const NO_LINES: &str =
    "{\"layout\": {\"order\": 0, \"pageblocks\": 4, \"blocks\": 1, \"cpus\": 1, \"batch\": 1, \
     \"high\": 2,\n\"owners\": 1, \"pages\": 2, \"words\": 1, \"history\": 5,\n\
     \"boot\": [\"movable\"]},\n\"calls\": [\n\n]}\n";

/// A scenario whose lines name operation 0: processor 1 in line 1, in line 4 before its begin, and
/// in line 8 after it, and processor 2 in line 6, after its plan in line 2.
const SCRIPTS: &str =
    "{\"layout\": {\"order\": 0, \"pageblocks\": 4, \"blocks\": 1, \"cpus\": 3, \"batch\": 1, \
     \"high\": 2, \"owners\": 1, \"pages\": 2, \"words\": 1, \"history\": 9, \"boot\": [\"movable\"]}, \
     \"calls\": [\"1 commit 0\", \"2 plan 1 off 0\", \"1 drain 0\", \"1 cancel 0\", \"1 begin off 0\", \
     \"2 commit 0\", \"0 migrate 1\", \"1 commit 0\"]}";

/// Returns whether a scenario is written as this text.
fn is_spelled_so(alloc: Global, scenario: &Scenario, text: &str) -> Result<bool, AllocError> {
    let mut out = String::new(alloc);
    let lines = scenario.lines.as_slice();
    write_scenario(&mut out, &scenario.layout, &scenario.names, lines, &[])?;
    Ok(out.as_str() == text)
}

/// Returns whether the scenario in a text is written as that text.
fn is_spelled(alloc: Global, text: &str) -> Result<bool, AllocError> {
    match Scenario::read(alloc, text.as_bytes()) {
        Ok(scenario) => is_spelled_so(alloc, &scenario, text),
        Err(_fault) => Ok(false),
    }
}

#[test]
fn scenarios_are_read_as_they_are_written(rt: HostRuntime) -> Result<(), Fail> {
    for text in [LAST, LINES, NO_LINES] {
        assert!(rt; is_spelled(rt.alloc(), text)?, "{text}");
    }
    Ok(())
}

/// Writes lines, then calls, and a mark after them. The first `write_mark` gets `true`, so it
/// writes no mark between lines and calls.
fn write_parts(
    out: &mut String,
    names: &IndexSet<Text>,
    lines: &[Line],
    calls: &[Record],
) -> Result<(), AllocError> {
    for line in lines {
        write_line(out, names, line)?;
    }
    write_mark(out, " then ", true)?;
    write_calls(out, names, calls, " + ")?;
    write_mark(out, " then ", false)
}

fn drain(cpu: Cpu, serial: Serial) -> Record {
    Record {
        serial,
        cpu,
        event: Event::Drain { cpu },
        reply: Reply::Done,
    }
}

/// Writes calls as lines, with the names of owners.
fn lines_of(alloc: Global, names: &IndexSet<Text>, calls: &[Record]) -> Result<String, AllocError> {
    let mut out = String::new(alloc);
    write_parts(&mut out, names, &[], calls)?;
    Ok(out)
}

/// Writes two calls as lines.
fn two_lines(alloc: Global) -> Result<String, AllocError> {
    let calls = [drain(Cpu(0), Serial(1)), drain(Cpu(7), Serial(2))];
    lines_of(alloc, &IndexSet::new(alloc), &calls)
}

#[test]
fn calls_are_written_as_lines(rt: HostRuntime) -> Result<(), Fail> {
    let lines = two_lines(rt.alloc())?;
    assert!(rt; lines.as_str() == "\"0 drain 0\" + \"7 drain 7\" then ");
    Ok(())
}

/// Returns whether this line of this processor is the only one in `found`; if `line` is 0, whether
/// `found` is empty.
fn tells(found: &[Unbegun], cpu: Cpu, line: u64) -> bool {
    match found {
        [] => line == 0,
        [one] => one.cpu == cpu && one.line == line,
        _ => false,
    }
}

/// Returns whether this line of processor 1 is the only one that `unbegun_lines` returns; if `line`
/// is 0, whether it returns none.
fn tells_line(alloc: Global, read: &Scenario, setup: u64, line: u64) -> Result<bool, AllocError> {
    let cpus = read.layout.cpus();
    let found = unbegun_lines(alloc, cpus, setup, read.lines.as_slice())?;
    Ok(tells(&found, Cpu(1), line))
}

/// Returns whether `tells_line` holds for `SCRIPTS` after `setup` lines of setup.
fn has_unbegun(alloc: Global, setup: u64, line: u64) -> Result<bool, AllocError> {
    match Scenario::read(alloc, SCRIPTS.as_bytes()) {
        Ok(scenario) => tells_line(alloc, &scenario, setup, line),
        Err(_fault) => Ok(false),
    }
}

#[test]
fn the_first_lines_without_an_operation_are_told(rt: HostRuntime) -> Result<(), Fail> {
    assert!(rt; has_unbegun(rt.alloc(), 2, 4)?);
    assert!(rt; has_unbegun(rt.alloc(), 4, 0)?);
    Ok(())
}
