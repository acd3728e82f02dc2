//! Tests of interleavings that are written as scenarios.
use super::explorations::scenario;
use hp_explore::Silent;
use hp_parts::explore_text;
use hp_search::EndsForm;
use std::alloc::Global;
use std::test::Fail;
use std::thread::Threads;

/// An offline against a map, with one free frame outside the block, which both may need.
const RACE: &str = "0 map db 0;0 echo o\\u007ff]\\\" memory0;0 kalloc 0;0 begin off 1;0 migrate 0;\
     0 commit 0;1 map web 0";

/// The first interleaving that leads to end 3, as a scenario. It is that of a separate program
/// that was written by hand.
pub const LAST: &str =
    "{\"layout\": {\"order\": 1, \"pageblocks\": 1, \"blocks\": 2, \"cpus\": 2, \"batch\": 1, \
     \"high\": 1,\n\"owners\": 2, \"pages\": 2, \"words\": 1, \"history\": 40,\n\
     \"boot\": [\"normal\", \"movable\"]},\n\"calls\": [\n\"0 map db 0\",\n\
     \"0 echo o\\u007ff]\\\" memory0\",\n\"0 kalloc 0\",\n\"1 map web 0\",\n\"0 begin off 1\",\n\
     \"0 migrate 4\",\n\"0 commit 4\"\n]}\n";

/// Returns whether the first interleaving of end `number` is written as this scenario, and
/// `is_found` is as expected. The text is empty if there is no such end.
fn replays<R: Threads + Sync>(
    rt: &R,
    alloc: Global,
    scenario: &str,
    setup: u64,
    number: u64,
    text: &str,
    is_found: bool,
) -> bool {
    let form = EndsForm::Scenario(number);
    match explore_text(
        rt,
        alloc,
        scenario.as_bytes(),
        setup,
        100,
        form,
        None,
        1,
        &mut Silent,
    ) {
        Ok(finding) => finding.is_found == is_found && finding.text.as_str() == text,
        Err(_fault) => false,
    }
}

#[test]
fn an_end_is_a_scenario(rt: HostRuntime) -> Result<(), Fail> {
    let race = scenario(rt.alloc(), 40, RACE)?;
    assert!(rt; replays(&rt, rt.alloc(), &race, 3, 3, LAST, true));
    assert!(rt; replays(&rt, rt.alloc(), &race, 3, 0, "", false));
    assert!(rt; replays(&rt, rt.alloc(), &race, 3, 4, "", false));
    // All lines of `LAST` are setup now, and are written as they were read.
    assert!(rt; replays(&rt, rt.alloc(), LAST, 7, 1, LAST, true));
    Ok(())
}
