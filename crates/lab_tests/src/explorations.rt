//! Tests of explorations and their text.
use hp_explore::Silent;
use hp_parts::explore_text;
use hp_search::{EndsForm, GroupBy};
use std::alloc::{AllocError, Global};
use std::test::Fail;
use std::thread::Threads;

/// An offline against a map, with one free frame outside the block, which both may need.
/// The expected replies in each order of the four calls are those of a separate program
/// that was written by hand.
const RACE: &str =
    "0 map db 0;0 write db 0 0 7;0 kalloc 0;0 begin off 1;0 migrate 0;0 commit 0;1 map web 0";

const RACE_TEXT: &str =
    "interleavings: 4\nends: 3\n\nend 1\ninterleavings: 2\ncpu 0\nopened 0\nmoved 2 1\ndone\n\
     cpu 1\nrefused NoFrame\nblock 0 online normal\nblock 1 offline\nfirst:\n\"0 begin off 1\",\n\
     \"0 migrate 4\",\n\"0 commit 4\",\n\"1 map web 0\"\n\nend 2\ninterleavings: 1\ncpu 0\n\
     opened 0\nrefused NoFrame\nrefused NotFree 2\ncpu 1\ndone\nblock 0 online normal\n\
     block 1 going movable\nfirst:\n\"0 begin off 1\",\n\"1 map web 0\",\n\"0 migrate 4\",\n\
     \"0 commit 4\"\n\nend 3\ninterleavings: 1\ncpu 0\nopened 0\nmoved 2 1\nrefused NotFree 3\n\
     cpu 1\ndone\nblock 0 online normal\nblock 1 going movable\nfirst:\n\"1 map web 0\",\n\
     \"0 begin off 1\",\n\"0 migrate 5\",\n\"0 commit 5\"\n";

const RACE_OBJECTS: &str =
    "{\"end\": 1, \"interleavings\": 2, \"answers\": [[\"opened 0\", \"moved 2 1\", \"done\"], \
     [\"refused NoFrame\"]], \"blocks\": [\"online normal\", \"offline\"], \"first\": \
     [\"0 begin off 1\", \"0 migrate 4\", \"0 commit 4\", \"1 map web 0\"]}\n\
     {\"end\": 2, \"interleavings\": 1, \"answers\": [[\"opened 0\", \"refused NoFrame\", \
     \"refused NotFree 2\"], [\"done\"]], \"blocks\": [\"online normal\", \"going movable\"], \
     \"first\": [\"0 begin off 1\", \"1 map web 0\", \"0 migrate 4\", \"0 commit 4\"]}\n\
     {\"end\": 3, \"interleavings\": 1, \"answers\": [[\"opened 0\", \"moved 2 1\", \
     \"refused NotFree 3\"], [\"done\"]], \"blocks\": [\"online normal\", \"going movable\"], \
     \"first\": [\"1 map web 0\", \"0 begin off 1\", \"0 migrate 5\", \"0 commit 5\"]}\n";

/// The ends of `RACE`, grouped by the memory blocks. Ends 2 and 3 have the same memory blocks, so
/// their counts are added up.
const RACE_BLOCKS: &str =
    "interleavings: 4\nends: 2\n\nend 1\ninterleavings: 2\ncpu 0\nopened 0\nmoved 2 1\ndone\n\
     cpu 1\nrefused NoFrame\nblock 0 online normal\nblock 1 offline\nfirst:\n\"0 begin off 1\",\n\
     \"0 migrate 4\",\n\"0 commit 4\",\n\"1 map web 0\"\n\nend 2\ninterleavings: 2\ncpu 0\n\
     opened 0\nrefused NoFrame\nrefused NotFree 2\ncpu 1\ndone\nblock 0 online normal\n\
     block 1 going movable\nfirst:\n\"0 begin off 1\",\n\"1 map web 0\",\n\"0 migrate 4\",\n\
     \"0 commit 4\"\n";

const RACE_SUMMARY: &str = "interleavings: 4\nends: 3\nend 1: 2, 50.0 %, 1 refused, 0:N 1:off\n\
     end 2: 1, 25.0 %, 2 refused, 0:N 1:M>off\nend 3: 1, 25.0 %, 1 refused, 0:N 1:M>off\n";

const BLOCKS_SUMMARY: &str = "interleavings: 4\nends: 2\nend 1: 2, 50.0 %, 1 refused, 0:N 1:off\n\
     end 2: 2, 50.0 %, 2 refused, 0:N 1:M>off\n";

/// A setup with a line of each kind, and one line after it that brings block 1 online again.
const SETUP: &str = "0 cat buddyinfo;0 map db 0;0 unmap db 0;0 echo offline memory1/state;0 seal;\
     0 echo online_movable memory1/state;1 plan 4 off 1;0 echo x memory1/state;\
     0 echo 1 memory1/online";

const SETUP_TEXT: &str =
    "interleavings: 1\nends: 1\n\nend 1\ninterleavings: 1\ncpu 0\ndone\ncpu 1\n\
     block 0 online normal\nblock 1 online normal\nfirst:\n\"0 online 1 normal\"\n";

const NO_SCRIPT_TEXT: &str =
    "interleavings: 1\nends: 1\n\nend 1\ninterleavings: 1\ncpu 0\ncpu 1\nblock 0 online normal\n\
     block 1 offline\nfirst:\n";

/// A plan, each of whose calls is a step of its own.
const PLAN: &str = "1 echo offline memory1/state";

const PLAN_TEXT: &str =
    "interleavings: 1\nends: 1\n\nend 1\ninterleavings: 1\ncpu 0\ncpu 1\nopened 0\ndone\ndone\n\
     refused NothingToMove\ndone\nblock 0 online normal\nblock 1 offline\nfirst:\n\
     \"1 begin off 1\",\n\"1 drainfor 1 0\",\n\"1 drainfor 1 1\",\n\"1 migrate 1\",\n\
     \"1 commit 1\"\n";

/// A plan that takes block 1 offline, against a map and an unmap. The plan is done, or it cannot
/// move a page and is cancelled. Its steps are then kept or dropped.
const PLAN_RACE: &str =
    "0 map db 0;0 write db 0 0 7;0 kalloc 0;0 plan 2 off 1;1 map web 0;1 unmap web 0";

const PLANS_SUMMARY: &str = "interleavings: 42\nends: 3\nend 1: 14, 33.3 %, 3 refused, 0:N 1:off\n\
     end 2: 27, 64.2 %, 2 refused, 0:N 1:M\nend 3: 1, 2.3 %, 1 refused, 0:N 1:M\n";

/// An offline that begins in the setup.
const BEGUN: &str = "0 begin off 1;0 drainfor 0 0;0 drainfor 0 1;0 migrate 0;0 commit 0";

const BEGUN_TEXT: &str = "interleavings: 1\nends: 1\n\nend 1\ninterleavings: 1\ncpu 0\ndone\ndone\n\
     refused NothingToMove\ndone\ncpu 1\nblock 0 online normal\nblock 1 offline\nfirst:\n\
     \"0 drainfor 1 0\",\n\"0 drainfor 1 1\",\n\"0 migrate 1\",\n\"0 commit 1\"\n";

/// Operations that begin in the setup and in a script, and a line of a processor that began none.
const AGAIN: &str = "0 begin off 1;0 seal;0 cancel 0;0 begin off 1;0 commit 0;1 commit 0";

const AGAIN_TEXT: &str =
    "interleavings: 4\nends: 1\n\nend 1\ninterleavings: 4\ncpu 0\nreleased\nopened 0\ndone\n\
     cpu 1\nrefused NoOp\nblock 0 online normal\nblock 1 offline\nfirst:\n\
     \"0 cancel 1\",\n\"0 begin off 1\",\n\"0 commit 3\",\n\"1 commit 0\"\n";

/// The lines of a scenario, the length of the setup, the form of the exploration's text, by what
/// its ends are grouped, and the text.
type Explored = (&'static str, u64, EndsForm, Option<GroupBy>, &'static str);

const BLOCKS: Option<GroupBy> = Some(GroupBy::Blocks);

const ANSWERS: Option<GroupBy> = Some(GroupBy::Answers);

const PLANS: Option<GroupBy> = Some(GroupBy::Plans);

const EXPLORED: &[Explored] = &[
    (RACE, 3, EndsForm::Words, None, RACE_TEXT),
    (RACE, 3, EndsForm::Objects, None, RACE_OBJECTS),
    (SETUP, 8, EndsForm::Words, None, SETUP_TEXT),
    (PLAN, 3, EndsForm::Words, None, NO_SCRIPT_TEXT),
    (PLAN, 0, EndsForm::Words, None, PLAN_TEXT),
    (BEGUN, 1, EndsForm::Words, None, BEGUN_TEXT),
    (AGAIN, 2, EndsForm::Words, None, AGAIN_TEXT),
    (RACE, 3, EndsForm::Words, BLOCKS, RACE_BLOCKS),
    (RACE, 3, EndsForm::Objects, ANSWERS, RACE_OBJECTS),
    (RACE, 3, EndsForm::Summary, None, RACE_SUMMARY),
    (RACE, 3, EndsForm::Summary, BLOCKS, BLOCKS_SUMMARY),
    (PLAN_RACE, 3, EndsForm::Summary, PLANS, PLANS_SUMMARY),
];

/// Returns a scenario with these lines, which are separated by semicolons. Its layout has two
/// memory blocks, each one pageblock of two frames, and a history with room for `history` records.
pub fn scenario(alloc: Global, history: u64, lines: &str) -> Result<String, AllocError> {
    let calls = lines.replace(alloc, ";", "\",\"")?;
    format!(in alloc;
        "{{\"layout\":{{\"order\":1,\"pageblocks\":1,\"blocks\":2,\"cpus\":2,\"batch\":1,\"high\":1,\
         \"owners\":2,\"pages\":2,\"words\":1,\"history\":{history},\
         \"boot\":[\"normal\",\"movable\"]}},\"calls\":[\"{calls}\"]}}"
    )
}

/// Returns whether an exploration in `jobs` threads has the expected text.
fn explores<R: Threads + Sync>(
    rt: &R,
    alloc: Global,
    jobs: u32,
    row: &Explored,
) -> Result<bool, AllocError> {
    let (lines, setup, form, by, text) = row;
    let scenario = scenario(alloc, 40, lines)?;
    let input = scenario.as_bytes();
    match explore_text(rt, alloc, input, *setup, 100, *form, *by, jobs, &mut Silent) {
        Ok(finding) => Ok(finding.text.as_str() == *text),
        Err(_fault) => Ok(false),
    }
}

#[test]
fn explorations_have_their_text(rt: HostRuntime) -> Result<(), Fail> {
    for row in EXPLORED {
        assert!(rt; explores(&rt, rt.alloc(), 1, row)?, "{}", row.0);
        assert!(rt; explores(&rt, rt.alloc(), 3, row)?, "{}", row.0);
    }
    Ok(())
}

/// The text for the first two interleavings of `RACE`.
const FIRST_TEXT: &str =
    "4 interleavings; these are the first 2\nends: 1\n\nend 1\ninterleavings: 2\ncpu 0\n\
     opened 0\nmoved 2 1\ndone\ncpu 1\nrefused NoFrame\nblock 0 online normal\nblock 1 offline\n\
     first:\n\"0 begin off 1\",\n\"0 migrate 4\",\n\"0 commit 4\",\n\"1 map web 0\"\n";

/// The JSON object for `RACE` with a limit of 0.
const NO_OBJECTS: &str = "{\"first\": 0, \"interleavings\": 4}\n";

/// The JSON object for `PLAN` with a limit of 0.
const NO_OBJECTS_OF_A_PLAN: &str = "{\"first\": 0, \"interleavings\": null}\n";

/// The lines of a scenario, the length of the setup, the limit, the form of the exploration's text,
/// and the text.
type Limited = (&'static str, u64, u64, EndsForm, &'static str);

const LIMITED: &[Limited] = &[
    (RACE, 3, 2, EndsForm::Words, FIRST_TEXT),
    (RACE, 3, 0, EndsForm::Objects, NO_OBJECTS),
    (PLAN, 0, 0, EndsForm::Objects, NO_OBJECTS_OF_A_PLAN),
];

/// Returns whether an exploration stops at its limit with the expected text.
fn stops<R: Threads + Sync>(rt: &R, alloc: Global, row: &Limited) -> Result<bool, AllocError> {
    let (lines, setup, limit, form, text) = row;
    let scenario = scenario(alloc, 40, lines)?;
    let input = scenario.as_bytes();
    match explore_text(
        rt,
        alloc,
        input,
        *setup,
        *limit,
        *form,
        None,
        1,
        &mut Silent,
    ) {
        Ok(finding) => Ok(!finding.is_found && finding.text.as_str() == *text),
        Err(_fault) => Ok(false),
    }
}

#[test]
fn the_first_are_told_past_the_limit(rt: HostRuntime) -> Result<(), Fail> {
    for row in LIMITED {
        assert!(rt; stops(&rt, rt.alloc(), row)?, "{}", row.0);
    }
    Ok(())
}
