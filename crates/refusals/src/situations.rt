//! The cases by name, with the scenarios that they run. If a case is about one call, that
//! call is the last line.
use crate::{audits, rooms, seats};
use hp_scenario::Scenario;
use refused_values::{Outcome, memories};
use std::alloc::Global;

/// Five memory blocks of one pageblock of four frames, and two processors.
const LAYOUT: &str = concat!(
    r#"{"order":2,"pageblocks":1,"blocks":5,"cpus":2,"batch":2,"high":2,"owners":2,"pages":8,"#,
    r#""words":2,"history":100,"boot":["normal","normal","movable","offline","absent"]}"#,
);

/// The cases by name, with the lines of their scenarios; empty if a case makes what it needs
/// itself.
const CASES: &[(&str, &str)] = &[
    ("layouts", ""),
    ("copies", ""),
    ("tapes", ""),
    ("layers", ""),
    ("images", ""),
    ("additions", ""),
    ("maps", ""),
    ("memories", memories::CALLS),
    ("audits", audits::CALLS),
    ("seats", seats::CALLS),
    ("workers", ""),
    ("fixed", ""),
    ("areas-of-order-0", ""),
    ("areas-of-order-10", ""),
    ("lists-of-1-processor", ""),
    ("lists-of-64-processors", ""),
    ("steps-in-room", rooms::STEPS),
    ("undo-in-room", rooms::RECORDED),
    ("undo-after-map", rooms::UNDONE),
    ("cancel-after-map", rooms::CANCELLED),
    ("kernel-alloc", r#""0 kalloc 1""#),
    ("kernel-alloc-of-a-list", r#""0 kalloc 0","0 kalloc 0""#),
    ("kernel-free", r#""0 kalloc 1","0 kfree 0""#),
    (
        "kernel-free-to-a-list",
        r#""0 kalloc 0","0 kalloc 0","0 kalloc 0","0 kfree 0","0 kfree 1","0 kfree 2""#,
    ),
    ("map", r#""0 map db 0","1 map web 0","0 map db 1""#),
    (
        "unmap",
        r#""0 map db 0","0 map db 1","0 map db 2","0 unmap db 0","0 unmap db 1","0 unmap db 2""#,
    ),
    ("write", r#""0 map db 0","0 write db 0 1 7""#),
    ("read", r#""0 map db 0","0 write db 0 1 7","0 read db 0 1""#),
    ("drain", r#""0 map db 0","0 drain 0""#),
    ("online", r#""0 online 3 normal""#),
    ("begin", r#""0 map db 0","0 begin off 0 off 2 movable 3""#),
    (
        "drain-for",
        r#""0 map db 0","0 begin off 2","0 drainfor 2 0""#,
    ),
    ("migrate", r#""0 map db 0","0 begin off 2","0 migrate 2""#),
    (
        "commit",
        r#""0 map db 0","0 begin off 2 normal 3","0 migrate 2","0 drainfor 2 0","0 commit 2""#,
    ),
    (
        "cancel-restored",
        r#""0 map db 0","0 begin off 2","0 migrate 2","0 drainfor 2 0","0 cancel 2""#,
    ),
    (
        "cancel-released",
        r#""0 map db 0","0 begin off 2","0 migrate 2","1 write db 0 1 5","0 cancel 2""#,
    ),
    (
        "undo",
        r#""0 map db 0","0 write db 0 1 7","0 unmap db 0","0 kalloc 1","0 undo 1""#,
    ),
    (
        "probe",
        r#""0 echo online_movable auto_online_blocks","0 echo 0x100 probe""#,
    ),
    ("remove", r#""0 remove 3""#),
    ("refused", r#""0 kalloc 3","0 map db 9","2 drain 0""#),
    (
        "plan",
        r#""0 map db 0","0 write db 0 1 7","0 plan 8 off 2","0 read db 0 1""#,
    ),
    (
        "plan-cancelled",
        r#""0 kalloc 2","0 kalloc 2","0 map db 0","0 plan 2 off 2""#,
    ),
    (
        "echo",
        r#""0 map db 0","0 echo offline memory2/state","0 echo online_movable memory2/state""#,
    ),
    (
        "cat",
        concat!(
            r#""0 map db 0","0 cat memory2/state","0 cat memory2/valid_zones","#,
            r#""0 cat block_size_bytes","0 cat buddyinfo""#,
        ),
    ),
    (
        "seal",
        r#""0 map db 0","0 write db 0 1 7","0 seal","0 unmap db 0","0 undo 2","0 seal""#,
    ),
    (
        "many-records",
        concat!(
            r#""0 map db 0","0 unmap db 0","0 map db 0","0 unmap db 0","0 map db 0","#,
            r#""0 unmap db 0","0 map db 0","0 unmap db 0","0 map db 0","0 unmap db 0""#,
        ),
    ),
];

/// Returns the table of cases.
pub fn cases() -> &'static [(&'static str, &'static str)] {
    CASES
}

/// Returns the lines of a case's scenario, or `None` if there is no such case.
pub fn calls_of(name: &str) -> Option<&'static str> {
    for (known, calls) in cases() {
        if *known == name {
            return Some(*calls);
        }
    }
    None
}

/// Reads the scenario that has `LAYOUT` and these lines.
pub fn scenario_of(alloc: Global, calls: &str) -> Outcome<Scenario> {
    let text = format!(in alloc; "{{\"layout\":{LAYOUT},\"calls\":[{calls}]}}")?;
    Ok(Scenario::read(alloc, text.as_bytes())?)
}
