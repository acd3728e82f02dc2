//! Equal rounds of a plan's calls, which are shown once.
use hp_scenario::Scenario;
use hp_svg::picture_of;
use hp_trace::{View, trace, trace_rows};
use indexmap::IndexSet;
use std::alloc::Global;
use std::test::Fail;

/// A plan that finds no room for the last of four pages, in the eight turns that it has.
const EIGHT: &[u8] = br#"{"layout":{"order":2,"pageblocks":1,"blocks":3,"cpus":2,"batch":2,"high":2,
"owners":1,"pages":16,"words":1,"history":100,"boot":["normal","movable","movable"]},
"calls":["0 kalloc 2","0 map db 0","1 map db 1","0 map db 2","1 map db 3","0 map db 4",
"0 plan 8 off 1"]}"#;

/// The scenario of `EIGHT` with five turns, of which two find no room.
const FIVE: &[u8] = br#"{"layout":{"order":2,"pageblocks":1,"blocks":3,"cpus":2,"batch":2,"high":2,
"owners":1,"pages":16,"words":1,"history":100,"boot":["normal","movable","movable"]},
"calls":["0 kalloc 2","0 map db 0","1 map db 1","0 map db 2","1 map db 3","0 map db 4",
"0 plan 5 off 1"]}"#;

/// The end of the trace of `EIGHT`, written by hand: the first call that finds no room, and what
/// comes after it. After this round there are four more, of three calls each.
const END: &str = "\
     migrate 7                13: refused NoFrame       0:N[KKKK] 1:M>off[:::a] 2:M[aaaa]
     drainfor 7 0             14: done                  0:N[KKKK] 1:M>off[:::a] 2:M[aaaa]
     drainfor 7 1             15: done                  0:N[KKKK] 1:M>off[:::a] 2:M[aaaa]
     (4 more rounds like this, serials 16 to 27)
     cancel 7                 28: restored              0:N[KKKK] 1:M[aaaa] 2:M[a0..]
plan: cancelled NoFrame restored
";

/// The last line of the scenario, line 7.
const LAST: View = View {
    from: 7,
    to: u64::MAX,
    every: 1,
    width: 200,
    orders: false,
};

/// Returns whether the trace of a scenario ends with a text.
fn ends_with(alloc: Global, scenario: &[u8], end: &str) -> bool {
    let Ok(scenario) = Scenario::read(alloc, scenario) else {
        return false;
    };
    match trace(alloc, &scenario, LAST) {
        Ok(text) => text.as_str().ends_with(end),
        Err(_) => false,
    }
}

/// Returns whether a text is once in the trace of a scenario and once in its picture.
fn is_once(alloc: Global, scenario: &[u8], text: &str) -> Option<bool> {
    let scenario = Scenario::read(alloc, scenario).ok()?;
    let all = trace(alloc, &scenario, LAST).ok()?;
    let rows = trace_rows(alloc, &scenario, LAST).ok()?;
    let picture = picture_of(alloc, &IndexSet::new(alloc), 8, 100, rows).ok()?;
    let is_in_text = all.as_str().matches(text).count() == 1;
    Some(is_in_text && picture.as_str().matches(text).count() == 1)
}

#[test]
fn equal_rounds_are_counted(rt: HostRuntime) -> Result<(), Fail> {
    assert!(rt; ends_with(rt.alloc(), EIGHT, END));
    let four = "(4 more rounds like this, serials 16 to 27)";
    assert!(rt; is_once(rt.alloc(), EIGHT, four) == Some(true));
    let one = "(1 more round like this, serials 16 to 18)";
    assert!(rt; is_once(rt.alloc(), FIVE, one) == Some(true));
    Ok(())
}
