//! Objects of JSON for lines of every kind.
use hp_live::{LiveAnswer, Session, write_object};
use layouts_for_tests::{LAST_ABSENT, four_blocks};
use std::alloc::Global;

/// Lines, and the objects that reply to them.
const OBJECTS: &[(&str, &str)] = &[
    (
        "0 drain 0",
        "{\"line\":1,\"text\":\"1: done\\n\",\"serial\":1,\"answer\":\"done\"}\n",
    ),
    ("0 plan 8 off 2", PLAN),
    (
        "1 echo sideways memory1/state",
        "{\"line\":3,\"text\":\"echo: fault BadText\\n\",\"answer\":\"fault BadText\"}\n",
    ),
    (
        "1 cat memory1/state",
        "{\"line\":4,\"text\":\"online\\n\"}\n",
    ),
    (
        "0 seal",
        "{\"line\":5,\"text\":\"sealed 6\\n\",\"sealed\":6}\n",
    ),
    (
        "0 online",
        "{\"line\":6,\"text\":\"\",\"fault\":\"no line\",\"hint\":\"wanted: C online\"}\n",
    ),
];

/// The object of a plan, with its calls.
const PLAN: &str = "{\"line\":2,\"text\":\"plan: done\\n\",\"calls\":[\
{\"serial\":2,\"call\":\"begin off 2\",\"answer\":\"opened 2\"},\
{\"serial\":3,\"call\":\"drainfor 2 0\",\"answer\":\"done\"},\
{\"serial\":4,\"call\":\"drainfor 2 1\",\"answer\":\"done\"},\
{\"serial\":5,\"call\":\"migrate 2\",\"answer\":\"refused NothingToMove\"},\
{\"serial\":6,\"call\":\"commit 2\",\"answer\":\"done\"}],\"end\":\"done\"}\n";

/// Returns whether an answer is written as this object.
fn is_object(alloc: Global, number: u64, answer: &LiveAnswer, wanted: &str) -> bool {
    match write_object(alloc, Vec::new(alloc), number, answer, "wanted: C online") {
        Ok(bytes) => bytes.as_slice() == wanted.as_bytes(),
        Err(_) => false,
    }
}

/// Gives the session each line, and returns whether each reply is the object beside its line.
fn are_objects(session: &mut Session, alloc: Global, rows: &[(&str, &str)]) -> bool {
    let mut answer = LiveAnswer::new(alloc);
    let mut number = 0u64;
    for (text, wanted) in rows {
        number = number.wrapping_add(1);
        if session.answer(alloc, text, &mut answer).is_err() {
            return false;
        }
        if !is_object(alloc, number, &answer, wanted) {
            return false;
        }
    }
    true
}

/// Gives all lines to one new session of four memory blocks, and returns whether each reply is the
/// object beside its line.
fn are_written(alloc: Global, rows: &[(&str, &str)]) -> bool {
    let Ok(layout) = four_blocks(alloc, LAST_ABSENT, 100) else {
        return false;
    };
    let Ok(mut session) = Session::start(alloc, &layout) else {
        return false;
    };
    are_objects(&mut session, alloc, rows)
}

#[test]
fn answers_are_objects(rt: HostRuntime) {
    assert!(rt; are_written(rt.alloc(), OBJECTS));
}
