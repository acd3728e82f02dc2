//! Tests of scenarios with the report of `check` on each.
use hp_check::{
    Finding, Key, call_lines, check, fault_count, halves_at, has_comment, is_blank, nests_deeper,
    write_report,
};
use std::alloc::{AllocError, Global};
use std::test::Fail;

/// A scenario, and the report on it.
pub(crate) type Checked = (&'static str, &'static str);

const CHECKED: &[Checked] = &[
    (
        "{\n\"layout\": 5,\n \"calls\": [,]}",
        "line 3, column 12: not JSON\nfaults: 1, warnings: 0\n",
    ),
    ("[]", "scenario: no object\nfaults: 1, warnings: 0\n"),
    (
        "{\"layout\": 5, \"calls\": {}, \"more\": 1}",
        "scenario: keys: 3, wanted: 2\nscenario: `more` is no key of it\nlayout: no object\n\
         `calls` is no list\nfaults: 4, warnings: 0\n",
    ),
    (
        "{\"layout\":{\"ordr\":1,\"pageblocks\":1,\"blocks\":2,\"cpus\":-2,\"batch\":1,\"high\":1,\
         \"owners\":2,\"pages\":2,\"words\":1,\"history\":40,\"boot\":[\"normal\",\"moveable\"]},\n\
         \"calls\":[\"0 drain 0\",\n5,\n\"0 walk\"]}",
        "layout: `ordr` is no key of it\nlayout: `order` is missing\n\
         layout: `cpus` is no integer from 0 to 2^64-1\n\
         layout: word 2 of `boot` is none of normal, movable, offline, absent\n\
         calls 2 (line 3): no text\ncalls 3 (line 4): `0 walk`: its second word is no verb\n\
         faults: 6, warnings: 0\n",
    ),
    (
        "{\"layout\":{\"order\":10,\"pageblocks\":64,\"blocks\":256,\"cpus\":65,\"batch\":3,\
         \"high\":2000,\"owners\":0,\"pages\":1,\"words\":1,\"history\":1,\"boot\":[\"normal\"]},\
         \"calls\":[]}",
        "layout: blocks * pageblocks * 2^order is 16777216 frames, and may be at most 1048576\n\
         layout: `cpus` is 65, and may be 1 to 64\nlayout: `high` is 2000, and may be 1 to 1024\n\
         layout: `owners` is 0, and may be 1 to 64\n\
         layout: `boot` has 1 words, and `blocks` is 256\nfaults: 5, warnings: 0\n",
    ),
    (
        "{\"layout\":{\"order\":1,\"pageblocks\":1,\"blocks\":2,\"cpus\":2,\"batch\":3,\"high\":1,\
         \"owners\":2,\"pages\":2,\"words\":1,\"history\":40,\"boot\":[\"normal\",\"movable\"]},\n\
         \"calls\":[\n\"0 drain 0\",\n\"0 kalloc\", \"x\",\n\"0\", \"0 offline 1\", \"0 se\\nal\"]}",
        "layout: `batch` is 3, and may be 1 to `high`, which is 1\n\
         calls 2 (line 4): `0 kalloc`: wanted: C kalloc ORDER\n\
         calls 3 (line 4): `x`: its first word is no number of a processor\n\
         calls 4 (line 5): `0`: a verb is missing\ncalls 5 (line 5): `0 offline 1`: its second \
         word is no verb; perhaps C plan TURNS off BLOCK, or C echo offline memoryN/state\n\
         calls 6 (line 5): `0 se\\nal`: its second word is no verb\n\
         faults: 6, warnings: 0\n",
    ),
    (
        "{\"layout\":{\"order\":1,\"pageblocks\":1,\"blocks\":2,\"cpus\":2,\"batch\":1,\"high\":1,\
         \"owners\":2,\"pages\":2,\"words\":1,\"history\":40,\"boot\":[\"normal\",\"movable\"]},\n\
         \"calls\":[\"2 drain 0\", \"0 kalloc 2\", \"0 begin off 1\", \"0 commit 3\",\n\"0 commit \
         2\", \"0 map a 0\", \"0 map b 2\", \"0 map c 0\", \"0 write a 0 1 0\", \"0 kfree 4\", \"0 \
         online 2 normal\",\n\"0 begin off 0 off 9\", \"0 plan 50 off 1\", \"0 commit 99\", \"0 \
         echo off memory1/state\", \"0 cat x\"]}",
        "calls 1 (line 2): warning: processor 2 is past the layout, which has 2, counted from 0\n\
         calls 2 (line 2): warning: order 2 is past the layout, which has 2, counted from 0\n\
         calls 5 (line 3): warning: no line before begins operation 2\n\
         calls 7 (line 3): warning: page 2 is past the layout, which has 2, counted from 0\n\
         calls 8 (line 3): warning: owner 2 is past the layout, which has 2, counted from 0\n\
         calls 9 (line 3): warning: word 1 is past the layout, which has 1, counted from 0\n\
         calls 10 (line 3): warning: frame 4 is past the layout, which has 4, counted from 0\n\
         calls 11 (line 3): warning: block 2 is past the layout, which has 2, counted from 0\n\
         calls 12 (line 4): warning: block 9 is past the layout, which has 2, counted from 0\n\
         calls 13 (line 4): warning: a history of 40 records has no room for a plan with 50 turns\n\
         calls 15 (line 4): warning: echo: fault BadText\n\
         calls 16 (line 4): warning: cat: fault NoFile\nfaults: 0, warnings: 12\n",
    ),
    (
        "{\"layout\":{\"order\":1,\"pageblocks\":1,\"blocks\":2,\"cpus\":2,\"batch\":1,\"high\":1,\
         \"owners\":2,\"pages\":2,\"words\":1,\"history\":2,\"boot\":[\"normal\",\"movable\"]},\
         \"calls\":[\"0 drain 0\",\"0 drain 0\",\"0 drain 0\",\"0 drain 0\",\"0 seal\",\
         \"0 drain 0\"]}",
        "calls 3 (line 1): warning: the lines before fill the history of 2 records\n\
         calls 4 (line 1): warning: the lines before fill the history of 2 records\n\
         faults: 0, warnings: 2\n",
    ),
    (
        "{\"calls\":[\"0 drain 0\",\n[1, {\"calls\": [2,\n3, 4]}, \"]\\\", [\"],\n\
         \"x\\\\\", \"y [,\\\"\",\n7, -8], \"layout\": \"calls\"}",
        "layout: no object\ncalls 2 (line 2): no text\ncalls 5 (line 5): no text\n\
         calls 6 (line 5): no text\n\
         calls 3 (line 4): `x\\\\`: its first word is no number of a processor\n\
         calls 4 (line 4): `y [,\\\"`: its first word is no number of a processor\n\
         faults: 6, warnings: 0\n",
    ),
];

/// Texts that are no JSON, most of them for a common reason that the report names.
const HINTED: &[Checked] = &[
    (
        "",
        "line 1, column 0: not JSON: there is no text\nfaults: 1, warnings: 0\n",
    ),
    (
        " \r\n",
        "line 2, column 0: not JSON: there is no text\nfaults: 1, warnings: 0\n",
    ),
    (
        "\u{feff}[]",
        "line 1, column 1: not JSON: it begins with a byte order mark, which JSON has not\n\
         faults: 1, warnings: 0\n",
    ),
    (
        "[ // x\n]",
        "line 1, column 3: not JSON: it has a comment, and JSON has none\nfaults: 1, warnings: 0\n",
    ),
    (
        "[\"//\" 1]",
        "line 1, column 7: not JSON\nfaults: 1, warnings: 0\n",
    ),
];

/// A scenario whose lines have a small error each, such as a capital letter or a leading zero.
const MISTYPED: Checked = (
    "{\"layout\":{\"order\":1,\"pageblocks\":1,\"blocks\":2,\"cpus\":2,\"batch\":1,\"high\":1,\
         \"owners\":2,\"pages\":2,\"words\":1,\"history\":40,\"boot\":[\"normal\",\"movable\"]},\n\
     \"calls\":[\" 0 seal\",\"0 seal \",\"00 seal\",\"0 Seal\",\"0 map Db 0\",\n\
     \"0 map aaaaaaaaaabbbbbbbbbbccccccccccddd 0\",\"0 write db 0 4294967296 1\",\n\
     \"0 commit 18446744073709551616\",\"0 plan 5 off 01\",\"0 map db\",\n\
     \"0 walk aaaaaaaaaabbbbbbbbbbccccccccccddddddddddeeeeeeeeeeffffffffff\",\n\
     \"0 \\u001b[31m\\nwalk\"]}",
    "calls 1 (line 2): ` 0 seal`: it begins with a space\n\
     calls 2 (line 2): `0 seal `: it ends with a space\n\
     calls 3 (line 2): `00 seal`: `00` has a zero in front; its first word is no number of a processor\n\
     calls 4 (line 2): `0 Seal`: `Seal` has capital letters; its second word is no verb\n\
     calls 5 (line 2): `0 map Db 0`: `Db` has capital letters; wanted: C map NAME PAGE\n\
     calls 6 (line 3): `0 map aaaaaaaaaabbbbbbbbbbccccccccccddd 0`: \
     `aaaaaaaaaabbbbbbbbbbccccccccccddd` has more than 32 letters; wanted: C map NAME PAGE\n\
     calls 7 (line 3): `0 write db 0 4294967296 1`: `4294967296` is above 4294967295; \
     wanted: C write NAME PAGE INDEX VALUE\n\
     calls 8 (line 4): `0 commit 18446744073709551616`: `18446744073709551616` is above \
     18446744073709551615; wanted: C commit OP\n\
     calls 9 (line 4): `0 plan 5 off 01`: `01` has a zero in front; wanted: C plan TURNS ITEM .., \
     where an ITEM is off BLOCK, normal BLOCK or movable BLOCK\n\
     calls 10 (line 4): `0 map db`: wanted: C map NAME PAGE\n\
     calls 11 (line 5): `0 walk aaaaaaaaaabbbbbbbbbbccccccccccddddddddddeeeeeeeeeefff..`: its second \
     word is no verb\n\
     calls 12 (line 6): `0 \\u001b[31m\\nwalk`: its second word is no verb\nfaults: 12, warnings: 0\n",
);

/// A scenario with one line of setup and later lines in scripts, and the report on it. The begin
/// may get any serial above 1, so only `0 commit 1` names an operation that never begins.
const SCRIPTED: Checked = (
    "{\"layout\":{\"order\":1,\"pageblocks\":1,\"blocks\":2,\"cpus\":2,\"batch\":1,\"high\":1,\
     \"owners\":2,\"pages\":2,\"words\":1,\"history\":40,\"boot\":[\"normal\",\"movable\"]},\n\
     \"calls\":[\"0 map db 0\",\"0 begin off 1\",\"0 commit 0\",\"1 cat memory0/state\",\"1 seal\",\n\
     \"2 drain 0\",\"0 echo x memory1/state\",\"0 commit 1\",\"1 commit 3\"]}",
    "calls 4 (line 2): warning: not for a script: cat makes no call\n\
     calls 5 (line 2): warning: not for a script: seal makes no call\n\
     calls 6 (line 3): warning: not for a script: its processor is not in the layout\n\
     calls 7 (line 3): warning: not for a script: echo: fault BadText\n\
     calls 8 (line 3): warning: no line before begins operation 1\nfaults: 0, warnings: 5\n",
);

/// Keys that come twice, in the scenario and in its layout. The report has only those of the
/// scenario.
const REPEATED: Checked = (
    "{\"layout\":{\"order\":2,\"order\":1,\"pageblocks\":1,\"blocks\":2,\"cpus\":2,\"batch\":1,\"high\":1,\
         \"owners\":2,\"pages\":2,\"words\":1,\"history\":40,\"boot\":[\"normal\",\"movable\"]},\n\
     \"calls\":[\"order\"],\"calls\":[\"0 drain 0\"]}",
    "scenario: warning: `calls` stands more than once, and the last counts\nfaults: 0, warnings: 1\n",
);

/// A key of the layout that comes twice, once with an escape. It is also a name in `calls`.
const REPEATED_ESCAPED: Checked = (
    "{\"layout\":{\"owners\":2,\"pageblocks\":1,\"blocks\":2,\"cpus\":2,\"batch\":1,\"high\":1,\
         \"own\\u0065rs\" :2,\"pages\":2,\"words\":1,\"history\":40,\"boot\":[\"normal\",\"movable\"],\
         \"order\":1},\n\"calls\":[\"0 map owners 0\", \"0 map layout 0\"]}",
    "layout: warning: `owners` stands more than once, and the last counts\nfaults: 0, warnings: 1\n",
);

/// A key of the layout that comes twice.
const REPEATED_BELOW: Checked = (
    "{\"layout\":{\"order\":2,\"order\":1,\"pageblocks\":1,\"blocks\":2,\"cpus\":2,\"batch\":1,\"high\":1,\
         \"owners\":2,\"pages\":2,\"words\":1,\"history\":40,\"boot\":[\"normal\",\"movable\"]},\n\
     \"calls\":[\"0 drain 0\"]}",
    "layout: warning: `order` stands more than once, and the last counts\nfaults: 0, warnings: 1\n",
);

/// Returns the report on a text whose first `setup` lines are the setup.
fn report_after(alloc: Global, setup: u64, text: &str) -> Result<String, AllocError> {
    let mut out = String::new(alloc);
    let found = check(alloc, text.as_bytes(), setup)?;
    write_report(&mut out, alloc, text.as_bytes(), &found)?;
    Ok(out)
}

/// Returns whether this is the report on a text.
pub(crate) fn has_report(alloc: Global, text: &str, expected: &str) -> Result<bool, AllocError> {
    let report = report_after(alloc, u64::MAX, text)?;
    Ok(report.as_str() == expected)
}

/// Returns the index of the first text whose report is not the expected one.
pub(crate) fn first_other(alloc: Global, rows: &[Checked]) -> Result<Option<usize>, AllocError> {
    for (place, (text, expected)) in rows.iter().enumerate() {
        if !has_report(alloc, text, expected)? {
            return Ok(Some(place));
        }
    }
    Ok(None)
}

/// Returns `CHECKED`. Keeps proofs from evaluating it in each function that uses it.
fn checked() -> &'static [Checked] {
    CHECKED
}

#[test]
fn each_text_has_its_report(rt: HostRuntime) -> Result<(), Fail> {
    assert!(rt; first_other(rt.alloc(), checked())?.is_none());
    assert!(rt; first_other(rt.alloc(), HINTED)?.is_none());
    let others = [MISTYPED, REPEATED, REPEATED_BELOW, REPEATED_ESCAPED];
    assert!(rt; first_other(rt.alloc(), &others)?.is_none());
    Ok(())
}

/// Returns whether the report on a scenario with one line of setup is the expected one.
pub(crate) fn are_scripts_checked(alloc: Global, checked: Checked) -> Result<bool, AllocError> {
    let (text, expected) = checked;
    let after_one = report_after(alloc, 1, text)?;
    Ok(after_one.as_str() == expected)
}

#[test]
fn scripts_have_their_report(rt: HostRuntime) -> Result<(), Fail> {
    assert!(rt; are_scripts_checked(rt.alloc(), SCRIPTED)?);
    Ok(())
}

/// Returns whether the report on a text of `count` opening brackets is the expected one.
fn is_said(alloc: Global, count: usize, expected: &str) -> Result<bool, AllocError> {
    let text = "[".repeat(alloc, count)?;
    has_report(alloc, &text, expected)
}

/// Checks a text that is nested deeper than the reader accepts, and one of exactly the greatest
/// depth. Returns whether the report names this depth for the first and not for the second.
fn is_depth_said(alloc: Global) -> Result<bool, AllocError> {
    let deep = "line 1, column 128: not JSON: more than 127 objects and lists in one another\n\
                faults: 1, warnings: 0\n";
    let flat = "line 1, column 127: not JSON\nfaults: 1, warnings: 0\n";
    Ok(is_said(alloc, 128, deep)? && is_said(alloc, 127, flat)?)
}

#[test]
fn depth_is_said(rt: HostRuntime) -> Result<(), Fail> {
    assert!(rt; is_depth_said(rt.alloc())?);
    Ok(())
}

/// Returns whether each function that looks through a text finds what it should.
fn is_seen() -> bool {
    is_blank(b" \t\r\n")
        && has_comment(b"{} # x")
        && nests_deeper(b"[[], {\"[\": [1]}]", 2)
        && !nests_deeper(b"[[], {\"[\": [1]}]", 3)
        && halves_at(b"ab\ncd", 2, 2).is_some_and(|halves| halves.1 == b"d".as_slice())
        && halves_at(b"ab\ncd", 1, 4).is_none()
}

#[test]
fn texts_are_seen(rt: HostRuntime) -> Result<(), Fail> {
    assert!(rt; is_seen());
    Ok(())
}

/// Returns whether no finding is a fault.
fn are_warnings(findings: &[Finding]) -> bool {
    for finding in findings {
        if finding.is_fault() {
            return false;
        }
    }
    true
}

/// Returns whether a check of the text at index `place` of `CHECKED` finds this many faults, and
/// finds only warnings exactly if `is_whole`.
fn counts(alloc: Global, place: usize, faults: usize, is_whole: bool) -> Result<bool, AllocError> {
    let Some((text, _report)) = checked().get(place) else {
        return Ok(false);
    };
    let found = check(alloc, text.as_bytes(), u64::MAX)?;
    Ok(fault_count(&found) == faults && are_warnings(&found) == is_whole)
}

#[test]
fn faults_are_counted(rt: HostRuntime) -> Result<(), Fail> {
    assert!(rt; counts(rt.alloc(), 5, 6, false)?);
    assert!(rt; counts(rt.alloc(), 7, 0, true)?);
    assert!(rt; Key::High.name() == "high");
    Ok(())
}

/// Two lists at the key `calls`, of which the last one counts: two entries on one line, and a third
/// two lines below.
const TWICE: &[u8] = b"{\"calls\": [1],\n\"calls\": [\"a\", {},\n\n[2,\n3]]}";

/// The lines on which the entries of the last list of `TWICE` begin.
const LINES_OF_TWICE: &[u64] = &[2, 2, 4];

/// Returns whether the entries of the last list of `TWICE` are found on the lines
/// `LINES_OF_TWICE`.
fn are_lines_of_twice(alloc: Global) -> Result<bool, AllocError> {
    let lines = call_lines(alloc, TWICE)?;
    Ok(lines.as_slice() == LINES_OF_TWICE)
}

#[test]
fn entries_begin_in_their_lines(rt: HostRuntime) -> Result<(), Fail> {
    assert!(rt; are_lines_of_twice(rt.alloc())?);
    Ok(())
}
