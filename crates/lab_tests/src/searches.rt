//! Tests of searches for an end, and of their text.
use super::explorations::scenario;
use hp_explore::{KEPT_BYTES, Silent, Watch};
use hp_questions::{Wanted, wanted_line};
use hp_search::{FindResult, LabFault, ScheduleForm, find_text};
use std::alloc::{AllocError, Global};
use std::sync::Wait;
use std::test::Fail;
use std::thread::Threads;

/// An offline against a map, with one free frame outside the block, which both may need.
const RACE: &str =
    "0 map db 0;0 write db 0 0 7;0 kalloc 0;0 begin off 1;0 migrate 0;0 commit 0;1 map web 0";

/// The text of a search for `NOT_FREE`. The expected replies to the four calls in each order are
/// those of a separate program that was written by hand.
const REFUSED: &str =
    "changes: 1\nfirst:\n\"1 map web 0\",\n\"0 begin off 1\",\n\"0 migrate 5\",\n\"0 commit 5\"\n";

const MOVED_TOO_LATE: &str =
    "changes: 2\nfirst:\n\"0 begin off 1\",\n\"1 map web 0\",\n\"0 migrate 4\",\n\"0 commit 4\"\n";

const ABSENT: &str = "ends so: 0\n";

const UNKNOWN: &str = "ends so: unknown\n";

const REFUSED_OBJECT: &str = "{\"found\": true, \"changes\": 1, \"first\": [\"1 map web 0\", \
     \"0 begin off 1\", \"0 migrate 5\", \"0 commit 5\"]}\n";

const ABSENT_OBJECT: &str = "{\"found\": false}\n";

const UNKNOWN_OBJECT: &str = "{\"found\": null}\n";

const REFUSED_SCENARIO: &str =
    "{\"layout\": {\"order\": 1, \"pageblocks\": 1, \"blocks\": 2, \"cpus\": 2, \
     \"batch\": 1, \"high\": 1,\n\"owners\": 2, \"pages\": 2, \"words\": 1, \"history\": 40,\n\
     \"boot\": [\"normal\", \"movable\"]},\n\"calls\": [\n\"0 map db 0\",\n\"0 write db 0 0 7\",\n\
     \"0 kalloc 0\",\n\"1 map web 0\",\n\"0 begin off 1\",\n\"0 migrate 5\",\n\"0 commit 5\"\n]}\n";

/// Parses a wanted line and appends it. Appends nothing if the text cannot be read as one.
fn push_line(alloc: Global, wanted: &mut Vec<Wanted>, text: &str) -> Result<(), AllocError> {
    match wanted_line(alloc, text) {
        Ok(Some(line)) => {
            wanted.push(line)?;
            Ok(())
        }
        Ok(None) => Ok(()),
        Err(error) => Err(error),
    }
}

/// Parses wanted lines. Leaves out a text that cannot be read as one.
fn wanted_of(alloc: Global, texts: &[&str]) -> Result<Vec<Wanted>, AllocError> {
    let mut wanted = Vec::new(alloc);
    for text in texts {
        push_line(alloc, &mut wanted, text)?;
    }
    Ok(wanted)
}

/// A watch that ends a search which has reached more states than this.
#[derive(Drop)]
struct EndsAfter(u64);

impl Watch for EndsAfter {
    ghost has_ended = { λ _. Unit {0} };

    fn counted(&mut self, _schedules: u64) {}

    fn memory(&self) -> u64 {
        KEPT_BYTES
    }

    fn goes_on(&mut self, places: u64, _bytes: u64) -> bool {
        places <= self.0
    }
}

/// Returns whether a search for an end in `jobs` threads has the expected text and result.
fn finds<R: Threads + Wait + Sync>(
    rt: &R,
    alloc: Global,
    jobs: u32,
    searched: &Searched,
) -> Result<bool, AllocError> {
    let (texts, form, text, result) = searched;
    let wanted = wanted_of(alloc, texts)?;
    let scenario = scenario(alloc, 40, RACE)?;
    let input = scenario.as_bytes();
    match find_text(rt, alloc, input, 3, &wanted, *form, jobs, &mut Silent) {
        Ok(finding) => Ok(finding.result == *result && finding.text.as_str() == *text),
        Err(_fault) => Ok(false),
    }
}

/// The wanted lines of an end, the form of the search's text, the text, and the search's result.
type Searched = (
    &'static [&'static str],
    ScheduleForm,
    &'static str,
    FindResult,
);

/// A line that an end of `RACE` has.
const NOT_FREE: &[&str] = &["refused NotFree"];

/// Lines that another end of `RACE` has.
const TOO_LATE: &[&str] = &["0: refused NoFrame", "block 1 going movable", "1: done"];

/// Lines that no end of `RACE` has together.
const NOT_THERE: &[&str] = &["block 1 offline", "1: done"];

const IN_WORDS: &[Searched] = &[
    (NOT_FREE, ScheduleForm::Words, REFUSED, FindResult::Found),
    (
        TOO_LATE,
        ScheduleForm::Words,
        MOVED_TOO_LATE,
        FindResult::Found,
    ),
    (NOT_THERE, ScheduleForm::Words, ABSENT, FindResult::Absent),
];

const IN_OTHER_FORMS: &[Searched] = &[
    (
        NOT_FREE,
        ScheduleForm::Object,
        REFUSED_OBJECT,
        FindResult::Found,
    ),
    (
        NOT_THERE,
        ScheduleForm::Object,
        ABSENT_OBJECT,
        FindResult::Absent,
    ),
    (
        NOT_FREE,
        ScheduleForm::Scenario,
        REFUSED_SCENARIO,
        FindResult::Found,
    ),
    (NOT_THERE, ScheduleForm::Scenario, "", FindResult::Absent),
];

/// Returns the index of the first search in `jobs` threads whose text or result is not the expected
/// one.
fn first_other<R: Threads + Wait + Sync>(
    rt: &R,
    alloc: Global,
    jobs: u32,
    rows: &[Searched],
) -> Result<Option<usize>, AllocError> {
    for (place, row) in rows.iter().enumerate() {
        if !finds(rt, alloc, jobs, row)? {
            return Ok(Some(place));
        }
    }
    Ok(None)
}

#[test]
fn the_fewest_changes_are_found(rt: HostRuntime) -> Result<(), Fail> {
    assert!(rt; first_other(&rt, rt.alloc(), 1, IN_WORDS)?.is_none());
    Ok(())
}

#[test]
fn threads_find_the_same(rt: HostRuntime) -> Result<(), Fail> {
    for jobs in 2..6 {
        assert!(rt; first_other(&rt, rt.alloc(), jobs, IN_WORDS)?.is_none());
        assert!(rt; first_other(&rt, rt.alloc(), jobs, IN_OTHER_FORMS)?.is_none());
    }
    Ok(())
}

/// Returns whether a search that is ended after this many states has the result `Unknown` and this
/// text.
fn ends_unknown<R: Threads + Wait + Sync>(
    rt: &R,
    alloc: Global,
    states: u64,
    form: ScheduleForm,
    text: &str,
) -> Result<bool, AllocError> {
    let wanted = wanted_of(alloc, NOT_THERE)?;
    let scenario = scenario(alloc, 40, RACE)?;
    let input = scenario.as_bytes();
    match find_text(
        rt,
        alloc,
        input,
        3,
        &wanted,
        form,
        1,
        &mut EndsAfter(states),
    ) {
        Ok(finding) => {
            Ok(finding.result == FindResult::Unknown && finding.text.as_str() == text)
        }
        Err(_fault) => Ok(false),
    }
}

#[test]
fn a_search_that_is_ended_knows_nothing(rt: HostRuntime) -> Result<(), Fail> {
    assert!(rt; ends_unknown(&rt, rt.alloc(), 0, ScheduleForm::Words, UNKNOWN)?);
    assert!(rt; ends_unknown(&rt, rt.alloc(), 2, ScheduleForm::Object, UNKNOWN_OBJECT)?);
    assert!(rt; ends_unknown(&rt, rt.alloc(), 1, ScheduleForm::Scenario, "")?);
    assert!(rt; !ends_unknown(&rt, rt.alloc(), 1000, ScheduleForm::Words, UNKNOWN)?);
    Ok(())
}

/// Wanted lines. The third names a frame past the layout, which has four.
const PAST: &[&str] = &["1: done", "block 1 offline", "frame 4"];

#[test]
fn what_is_past_the_layout_is_not_searched(rt: HostRuntime) -> Result<(), Fail> {
    let wanted = wanted_of(rt.alloc(), PAST)?;
    let scenario = scenario(rt.alloc(), 40, RACE)?;
    let input = scenario.as_bytes();
    let form = ScheduleForm::Words;
    let found = find_text(&rt, rt.alloc(), input, 3, &wanted, form, 1, &mut Silent);
    assert!(rt; matches!(found, Err(LabFault::PastLayout { number: 3 })));
    Ok(())
}

#[test]
fn what_is_found_has_other_forms(rt: HostRuntime) -> Result<(), Fail> {
    assert!(rt; first_other(&rt, rt.alloc(), 1, IN_OTHER_FORMS)?.is_none());
    Ok(())
}
