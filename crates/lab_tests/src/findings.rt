//! Tests of reports on mistakes that no scenario of `checks` has.
use crate::checks::{Checked, are_scripts_checked, first_other, has_report};
use std::alloc::{AllocError, Global};
use std::test::Fail;

/// A layout with values out of range, besides those of `checks`, and a layout with only the key
/// `boot`, whose value is no list.
const LIMITED: &[Checked] = &[
    (
        "{\"layout\":{\"order\":11,\"pageblocks\":3,\"blocks\":0,\"cpus\":1,\"batch\":1,\"high\":1,\
         \"owners\":1,\"pages\":0,\"words\":513,\"history\":0,\"boot\":[]},\"calls\":[]}",
        "layout: `order` is 11, and may be 0 to 10\n\
         layout: `pageblocks` is 3, and may be 1, 2, 4, 8, 16, 32 or 64\n\
         layout: `blocks` is 0, and may be 1 to 256\nlayout: `pages` is 0, and may be 1 to 65536\n\
         layout: `words` is 513, and may be 1 to 512\n\
         layout: `history` is 0, and may be 1 to 16777216\nfaults: 6, warnings: 0\n",
    ),
    (
        "{\"layout\":{\"boot\":{}},\"calls\":[]}",
        "layout: keys: 1, wanted: 11\nlayout: `order` is missing\nlayout: `pageblocks` is missing\n\
         layout: `blocks` is missing\nlayout: `cpus` is missing\nlayout: `batch` is missing\n\
         layout: `high` is missing\nlayout: `owners` is missing\nlayout: `pages` is missing\n\
         layout: `words` is missing\nlayout: `history` is missing\n`boot` is no list\n\
         faults: 12, warnings: 0\n",
    ),
];

/// Texts that cannot be read as lines, with the hint of the report: for most verbs a leading zero
/// in the last word, then words close to a verb, and wrong letters in a name.
const WANTED: &[Checked] = &[
    (
        "0 kalloc 01",
        "`01` has a zero in front; wanted: C kalloc ORDER",
    ),
    (
        "0 kfree 01",
        "`01` has a zero in front; wanted: C kfree FRAME",
    ),
    (
        "0 map a 01",
        "`01` has a zero in front; wanted: C map NAME PAGE",
    ),
    (
        "0 unmap a 01",
        "`01` has a zero in front; wanted: C unmap NAME PAGE",
    ),
    (
        "0 write a 0 0 01",
        "`01` has a zero in front; wanted: C write NAME PAGE INDEX VALUE",
    ),
    (
        "0 read a 0 01",
        "`01` has a zero in front; wanted: C read NAME PAGE INDEX",
    ),
    (
        "0 drain 01",
        "`01` has a zero in front; wanted: C drain CPU",
    ),
    (
        "0 online 0 Normal",
        "`Normal` has capital letters; wanted: C online BLOCK ZONE, where ZONE is normal or \
         movable",
    ),
    (
        "0 remove 01",
        "`01` has a zero in front; wanted: C remove BLOCK",
    ),
    (
        "0 begin off 01",
        "`01` has a zero in front; wanted: C begin ITEM .., where an ITEM is off BLOCK, normal \
         BLOCK or movable BLOCK",
    ),
    (
        "0 drainfor 4294967296 01",
        "`01` has a zero in front; wanted: C drainfor OP CPU",
    ),
    (
        "0 migrate 01",
        "`01` has a zero in front; wanted: C migrate OP",
    ),
    (
        "0 commit 01",
        "`01` has a zero in front; wanted: C commit OP",
    ),
    (
        "0 cancel 01",
        "`01` has a zero in front; wanted: C cancel OP",
    ),
    (
        "0 undo 01",
        "`01` has a zero in front; wanted: C undo SERIAL",
    ),
    (
        "0 plan 1 off 01",
        "`01` has a zero in front; wanted: C plan TURNS ITEM .., where an ITEM is off BLOCK, \
         normal BLOCK or movable BLOCK",
    ),
    ("0 echo", "wanted: C echo TEXT PATH"),
    ("0 cat", "wanted: C cat PATH"),
    ("0 seal x", "wanted: C seal"),
    (
        "0 probe 0",
        "its second word is no verb; perhaps C echo 0xADDRESS probe",
    ),
    (
        "0 alloc 0",
        "its second word is no verb; perhaps C kalloc ORDER",
    ),
    (
        "0 free 0",
        "its second word is no verb; perhaps C kfree FRAME",
    ),
    (
        "0 abort 0",
        "its second word is no verb; perhaps C cancel OP",
    ),
    (
        "0  seal",
        "its second word is no verb; perhaps it has a space too many",
    ),
    (
        "0 rollback 0",
        "its second word is no verb; perhaps C undo SERIAL",
    ),
    (
        "0 map d-b 0",
        "`d-b` has other letters than a to z, 0 to 9 and _; wanted: C map NAME PAGE",
    ),
];

/// Texts that end where the JSON reader stops, with the hint of the report: an extra comma, an
/// unexpected character, or neither.
const STOPPED: &[Checked] = &[
    (
        "[1, ]",
        "line 1, column 5: not JSON: a comma too many before it",
    ),
    (
        "[1,\n\n]",
        "line 3, column 1: not JSON: a comma too many before it",
    ),
    (
        "{\"a\": 1, }",
        "line 1, column 10: not JSON: a comma too many before it",
    ),
    (
        "[1,,",
        "line 1, column 4: not JSON: a comma too many before it",
    ),
    (
        "{\"a\": 1 , ,",
        "line 1, column 11: not JSON: a comma too many before it",
    ),
    ("[\",\", \"a,\" }", "line 1, column 12: not JSON"),
    ("[}", "line 1, column 2: not JSON"),
    ("[1, 2}", "line 1, column 6: not JSON"),
    (
        "{\u{a0}",
        "line 1, column 2: not JSON: unexpected `\\u00a0`",
    ),
    (
        "[1,\u{200b}",
        "line 1, column 4: not JSON: unexpected `\\u200b`",
    ),
    (
        "[\n\u{feff}",
        "line 2, column 1: not JSON: unexpected `\\ufeff`",
    ),
    (
        "{\u{201c}",
        "line 1, column 2: not JSON: unexpected `\u{201c}`",
    ),
];

/// Lines that probably do not do what is meant, besides those of `checks`: files, addresses and
/// operations. No memory block begins at address 0x81.
const DOUBTED: Checked = (
    "{\"layout\":{\"order\":1,\"pageblocks\":1,\"blocks\":2,\"cpus\":2,\"batch\":1,\"high\":1,\
     \"owners\":2,\"pages\":2,\"words\":1,\"history\":40,\"boot\":[\"normal\",\"movable\"]},\n\
     \"calls\":[\"0 cat probe\",\"0 cat memory1/state\",\"0 cat memory2/state\",\n\
     \"0 echo 0x80 probe\",\"0 echo 0x81 probe\",\"0 remove 2\",\"0 unmap a 2\",\"0 read a 0 1\",\"0 drainfor 1 2\",\n\
     \"0 drainfor 1 0\",\"0 migrate 1\",\"0 cancel 1\",\"0 plan 1 off 1\",\"0 commit 0\",\
     \"0 commit 30\"]}",
    "calls 1 (line 2): warning: cat: fault WriteOnly\n\
     calls 3 (line 2): warning: cat: fault NoFile\n\
     calls 4 (line 3): warning: block 8 is past the layout, which has 2, counted from 0\n\
     calls 6 (line 3): warning: block 2 is past the layout, which has 2, counted from 0\n\
     calls 7 (line 3): warning: page 2 is past the layout, which has 2, counted from 0\n\
     calls 8 (line 3): warning: word 1 is past the layout, which has 1, counted from 0\n\
     calls 9 (line 3): warning: processor 2 is past the layout, which has 2, counted from 0\n\
     calls 10 (line 4): warning: no line before begins operation 1\n\
     calls 11 (line 4): warning: no line before begins operation 1\n\
     calls 12 (line 4): warning: no line before begins operation 1\n\
     calls 14 (line 4): warning: no line before begins operation 0\nfaults: 0, warnings: 11\n",
);

/// Calls and plans that find the history full leave no records, so the begin has serial 3.
const FILLED: Checked = (
    "{\"layout\":{\"order\":1,\"pageblocks\":1,\"blocks\":2,\"cpus\":2,\"batch\":1,\"high\":1,\
     \"owners\":2,\"pages\":2,\"words\":1,\"history\":2,\"boot\":[\"normal\",\"movable\"]},\n\
     \"calls\":[\"0 drain 0\",\"0 drain 0\",\"0 drain 0\",\"0 plan 1 off 1\",\"0 seal\",\n\
     \"0 begin off 1\",\"0 commit 3\",\"0 seal\",\"0 commit 4\"]}",
    "calls 3 (line 2): warning: the lines before fill the history of 2 records\n\
     calls 4 (line 2): warning: the lines before fill the history of 2 records\n\
     calls 9 (line 3): warning: no line before begins operation 4\nfaults: 0, warnings: 3\n",
);

/// An `echo` that takes memory offline is a plan of 1024 turns. With two processors a history of
/// 1027 records has no room for it. An `echo` that brings memory online is one call.
const ECHOED: Checked = (
    "{\"layout\":{\"order\":1,\"pageblocks\":1,\"blocks\":2,\"cpus\":2,\"batch\":1,\"high\":1,\
     \"owners\":2,\"pages\":2,\"words\":1,\"history\":1027,\"boot\":[\"normal\",\"movable\"]},\n\
     \"calls\":[\"0 plan 1024 off 1\",\"0 echo offline memory1/state\",\"0 plan 1023 off 1\",\n\
     \"0 echo 0 memory1/online\",\"0 echo online memory1/state\",\"0 echo offline memory2/state\",\n\
     \"2 echo offline memory1/state\"]}",
    "calls 1 (line 2): warning: a history of 1027 records has no room for a plan with 1024 turns\n\
     calls 2 (line 2): warning: a history of 1027 records has no room for a plan with 1024 turns\n\
     calls 4 (line 3): warning: a history of 1027 records has no room for a plan with 1024 turns\n\
     calls 6 (line 3): warning: block 2 is past the layout, which has 2, counted from 0\n\
     calls 7 (line 4): warning: processor 2 is past the layout, which has 2, counted from 0\n\
     faults: 0, warnings: 5\n",
);

/// The layout of `ECHOED` with a history of 1028 records, exactly enough for an `echo` that takes
/// memory offline: the report has no warning.
const ROOMY: Checked = (
    "{\"layout\":{\"order\":1,\"pageblocks\":1,\"blocks\":2,\"cpus\":2,\"batch\":1,\"high\":1,\
     \"owners\":2,\"pages\":2,\"words\":1,\"history\":1028,\"boot\":[\"normal\",\"movable\"]},\n\
     \"calls\":[\"0 echo offline memory1/state\",\"0 plan 1024 off 1\"]}",
    "faults: 0, warnings: 0\n",
);

/// Invisible or odd characters: in a key, in texts that cannot be read as lines, and in words and
/// paths of control files. The last path is only misspelled.
const UNSEEN: &[Checked] = &[
    (
        "{\"lay\u{ad}out\":1,\"calls\":[\"0\u{a0}seal\",\"0 seal\u{200b}\",\"0 map d\u{200b}b 0\"]}",
        "scenario: `lay\\u00adout` is no key of it\nscenario: `layout` is missing\n\
         calls 1 (line 1): `0\\u00a0seal`: its first word is no number of a processor\n\
         calls 2 (line 1): `0 seal\\u200b`: its second word is no verb\n\
         calls 3 (line 1): `0 map d\\u200bb 0`: `d\\u200bb` has other letters than a to z, 0 to 9 \
         and _; wanted: C map NAME PAGE\nfaults: 5, warnings: 0\n",
    ),
    (
        "{\"layout\":{\"order\":1,\"pageblocks\":1,\"blocks\":2,\"cpus\":2,\"batch\":1,\"high\":1,\
         \"owners\":2,\"pages\":2,\"words\":1,\"history\":40,\"boot\":[\"normal\",\"movable\"]},\n\
         \"calls\":[\"0 echo online\u{200b} memory1/state\",\"0 echo 1 memory1\u{2044}online\",\n\
         \"0 cat buddyinfo\u{feff}\",\"0 cat budyinfo\"]}",
        "calls 1 (line 2): warning: unexpected `\\u200b`\n\
         calls 2 (line 2): warning: unexpected `\u{2044}`\n\
         calls 3 (line 3): warning: unexpected `\\ufeff`\n\
         calls 4 (line 3): warning: cat: fault NoFile\nfaults: 0, warnings: 4\n",
    ),
];

/// A plan in a script. It may begin operation 2 before the line of another script that names this
/// operation, so the report has no warning.
const PLANNED: Checked = (
    "{\"layout\":{\"order\":1,\"pageblocks\":1,\"blocks\":2,\"cpus\":2,\"batch\":1,\"high\":1,\
     \"owners\":2,\"pages\":2,\"words\":1,\"history\":40,\"boot\":[\"normal\",\"movable\"]},\n\
     \"calls\":[\"0 drain 0\",\"1 commit 2\",\"0 plan 5 off 1\"]}",
    "faults: 0, warnings: 0\n",
);

#[test]
fn other_texts_have_their_report(rt: HostRuntime) -> Result<(), Fail> {
    assert!(rt; first_other(rt.alloc(), LIMITED)?.is_none());
    assert!(rt; first_other(rt.alloc(), &[DOUBTED, FILLED, ECHOED, ROOMY])?.is_none());
    assert!(rt; first_other(rt.alloc(), UNSEEN)?.is_none());
    assert!(rt; are_scripts_checked(rt.alloc(), PLANNED)?);
    Ok(())
}

/// The text of a scenario before its one call.
const ONE_CALL: &str =
    "{\"layout\":{\"order\":1,\"pageblocks\":1,\"blocks\":1,\"cpus\":1,\"batch\":1,\
    \"high\":1,\"owners\":1,\"pages\":1,\"words\":1,\"history\":1,\"boot\":[\"normal\"]},\"calls\":[\"";

/// Checks a scenario with `call` as its only entry in `calls`. Returns whether the report has just
/// one fault, with the text `said` for this entry.
fn is_wanted(alloc: Global, call: &str, said: &str) -> Result<bool, AllocError> {
    let head = ONE_CALL;
    let text = format!(in alloc; "{head}{call}\"]}}")?;
    let expected = format!(in alloc;
        "calls 1 (line 1): `{call}`: {said}\nfaults: 1, warnings: 0\n"
    )?;
    has_report(alloc, &text, &expected)
}

/// Returns the index of the first entry whose report does not have the expected hint.
fn first_unwanted(alloc: Global, rows: &[Checked]) -> Result<Option<usize>, AllocError> {
    for (place, (call, said)) in rows.iter().enumerate() {
        if !is_wanted(alloc, call, said)? {
            return Ok(Some(place));
        }
    }
    Ok(None)
}

/// Returns the index of the first text whose report is not the expected one.
fn first_unstopped(alloc: Global, rows: &[Checked]) -> Result<Option<usize>, AllocError> {
    for (place, (text, said)) in rows.iter().enumerate() {
        let expected = format!(in alloc; "{said}\nfaults: 1, warnings: 0\n")?;
        if !has_report(alloc, text, &expected)? {
            return Ok(Some(place));
        }
    }
    Ok(None)
}

#[test]
fn commas_and_odd_characters_are_named(rt: HostRuntime) -> Result<(), Fail> {
    assert!(rt; first_unstopped(rt.alloc(), STOPPED)?.is_none());
    Ok(())
}

#[test]
fn each_verb_has_its_form(rt: HostRuntime) -> Result<(), Fail> {
    assert!(rt; first_unwanted(rt.alloc(), WANTED)?.is_none());
    Ok(())
}
