//! Texts of an unusual form that are read. Those that are refused are in refusals/hostile.py.
use super::{LAYOUT, text_of};
use hp_scenario::{Calls, Next, Scenario, ScenarioFault};
use std::alloc::{AllocError, Global};
use std::test::Fail;

const CALLS: &str = r#""0 kalloc 1","0 map db 3","1 undo 0""#;

/// Returns the scenario's text with `new` in place of `old`.
fn changed(alloc: Global, old: &str, new: &str) -> Result<String, Fail> {
    let text = text_of(alloc, LAYOUT, CALLS)?;
    Ok(text.replace(alloc, old, new)?)
}

/// Parts of a scenario's text, each with a text of the same meaning to put in its place.
const SAME: &[(&str, &str)] = &[
    ("", ""),
    (
        "\"order\":2,\"pageblocks\":1",
        "\"pageblocks\":1,\"order\":2",
    ),
    ("\"order\":2", "\"order\":3,\"order\":2"),
    ("{\"layout\":", "{\"calls\":[],\"layout\":"),
    ("kalloc 1", "k\\u0061lloc\\u00201"),
    ("\"calls\"", "\"c\\u0061lls\""),
    ("\"calls\":[", " \"calls\"\t:\r\n [ "),
];

/// Returns whether a scenario with three lines and one name was read, with blocks up to 2^2 frames.
fn is_the_scenario(read: Result<Scenario, ScenarioFault>) -> bool {
    match read {
        Ok(scenario) => {
            scenario.lines.as_slice().len() == 3
                && scenario.names.len() == 1
                && scenario.layout.order() == 2
        }
        Err(_) => false,
    }
}

#[test]
fn reads_other_forms(rt: HostRuntime) -> Result<(), Fail> {
    for (old, new) in SAME {
        let text = changed(rt.alloc(), old, new)?;
        assert!(rt;
            is_the_scenario(Scenario::read(rt.alloc(), text.as_bytes())),
            "{new}"
        );
        assert!(rt;
            is_the_scenario(Scenario::read_any(rt.alloc(), text.as_bytes())),
            "{new}"
        );
    }
    Ok(())
}

/// Returns whether a text is a scenario in its usual form, with one line and one name.
fn is_one_line(alloc: Global, text: &str) -> bool {
    match Calls::open(alloc, text.as_bytes()) {
        Ok(Some(opened)) => {
            let mut calls = opened;
            goes_on(alloc, &mut calls) && ends(alloc, &mut calls) && is_named(&calls)
        }
        _ => false,
    }
}

/// Reads the next line, and returns whether there is one.
fn goes_on(alloc: Global, calls: &mut Calls<'_>) -> bool {
    match calls.next(alloc) {
        Ok(next) => matches!(next, Next::Another(_)),
        Err(AllocError) => false,
    }
}

/// Reads on, and returns whether there is no further line.
fn ends(alloc: Global, calls: &mut Calls<'_>) -> bool {
    match calls.next(alloc) {
        Ok(next) => matches!(next, Next::End),
        Err(AllocError) => false,
    }
}

/// Returns whether a scenario has one name, and blocks up to 2^2 frames.
fn is_named(calls: &Calls<'_>) -> bool {
    calls.names().len() == 1 && calls.layout().order() == 2
}

#[test]
fn takes_line_by_line(rt: HostRuntime) -> Result<(), Fail> {
    let text = text_of(rt.alloc(), LAYOUT, "\"0 map db 3\"")?;
    assert!(rt; is_one_line(rt.alloc(), text.as_str()));
    Ok(())
}
