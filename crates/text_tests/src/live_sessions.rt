//! Sessions compared with what `hotplug serial` writes for the same lines.
use hp_commands::serve_serial;
use hp_live::{LiveAnswer, Session};
use hp_streams::Counted;
use layouts_for_tests::{LAST_ABSENT, four_blocks};
use std::alloc::Global;

/// Lines of every kind.
const LINES: &[&str] = &[
    "0 kalloc 0",
    "1 map web 3",
    "0 write web 3 1 77",
    "1 read web 3 1",
    "0 map db 0",
    "0 plan 8 off 2",
    "1 plan 0 off 0 movable 3",
    "0 echo online_movable auto_online_blocks",
    "0 echo offline memory1/state",
    "0 echo sideways memory1/state",
    "1 cat memory1/state",
    "1 cat memory9/state",
    "0 undo 2",
    "0 seal",
    "1 unmap web 3",
    "1 drain 0",
    "0 seal",
];

/// Some lines, with texts between them that cannot be read as lines. Three of these texts name an
/// owner that no line names.
const WITH_OTHERS: &[&str] = &[
    "",
    "0 map web 3",
    "0 map other 99999999999",
    "0 mapp another 1",
    "0  map third 1",
    "state",
    "0 map db 0",
    "0 read db 0 1 2 3",
    "1 unmap web 3",
];

/// Gives the session each text, and appends what it writes for them to `joined`. Returns whether
/// there was memory for all.
fn write_answers(
    session: &mut Session,
    alloc: Global,
    texts: &[&str],
    joined: &mut String,
) -> bool {
    let mut answer = LiveAnswer::new(alloc);
    for text in texts {
        if session.answer(alloc, text, &mut answer).is_err() {
            return false;
        }
        if joined.push_str(answer.text()).is_err() {
            return false;
        }
    }
    true
}

/// Returns whether `hotplug serial` writes this text for a scenario.
fn serves(alloc: Global, scenario: &str, wanted: &str) -> bool {
    let mut reader = Counted::new(scenario.as_bytes());
    let mut written = Vec::new(alloc);
    let mut writer = Counted::new(&mut written);
    let result = serve_serial(alloc, &mut reader, &mut writer);
    result == Ok(()) && written.as_slice() == wanted.as_bytes()
}

/// Gives the session these texts, and then has it write its state. Returns whether the whole output
/// is what `hotplug serial` writes for the session's scenario.
fn is_served(session: &mut Session, alloc: Global, texts: &[&str]) -> bool {
    let mut joined = String::new(alloc);
    let mut scenario = String::new(alloc);
    write_answers(session, alloc, texts, &mut joined)
        && session.write_state(&mut joined, alloc).is_ok()
        && session.write_scenario(&mut scenario).is_ok()
        && serves(alloc, scenario.as_str(), joined.as_str())
}

/// Returns `is_served` for a new session of four memory blocks, whose history has room for
/// `history` records.
fn are_served(alloc: Global, history: u64, texts: &[&str]) -> bool {
    let Ok(layout) = four_blocks(alloc, LAST_ABSENT, history) else {
        return false;
    };
    let Ok(mut session) = Session::start(alloc, &layout) else {
        return false;
    };
    is_served(&mut session, alloc, texts)
}

/// Gives the session a text, and returns whether the answer is `wanted`.
fn is_answered(session: &mut Session, alloc: Global, text: &str, wanted: &str) -> bool {
    let mut answer = LiveAnswer::new(alloc);
    session.answer(alloc, text, &mut answer).is_ok() && answer.text() == wanted
}

/// Returns whether a name gets no owner's number if its text cannot be read as a line. The layout
/// has two owners. After such a text, a second name is still accepted, and a third is not.
fn keeps_numbers(alloc: Global) -> bool {
    let Ok(layout) = four_blocks(alloc, LAST_ABSENT, 100) else {
        return false;
    };
    let Ok(mut session) = Session::start(alloc, &layout) else {
        return false;
    };
    is_answered(
        &mut session,
        alloc,
        "0 unmap web 0",
        "1: refused NotMapped\n",
    ) && is_answered(&mut session, alloc, "0 unmap other 99999999999", "")
        && is_answered(
            &mut session,
            alloc,
            "0 unmap db 0",
            "2: refused NotMapped\n",
        )
        && is_answered(
            &mut session,
            alloc,
            "0 unmap third 0",
            "3: refused NoOwner\n",
        )
}

#[test]
fn bad_lines_take_no_numbers(rt: HostRuntime) {
    assert!(rt; keeps_numbers(rt.alloc()));
}

#[test]
fn answers_are_what_serial_writes(rt: HostRuntime) {
    assert!(rt; are_served(rt.alloc(), 100, LINES));
    assert!(rt; are_served(rt.alloc(), 5, LINES));
    assert!(rt; are_served(rt.alloc(), 100, WITH_OTHERS));
    assert!(rt; are_served(rt.alloc(), 1, &[]));
}
