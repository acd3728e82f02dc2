//! Tests of parts of explorations, and of their sums.
use crate::explorations::scenario;
use hp_explore::Silent;
use hp_parts::{explore_text, part_text, sum_text};
use hp_schedules::ShardId;
use hp_search::{EndsForm, PartFault};
use std::alloc::{AllocError, Global};
use std::test::Fail;
use std::thread::Threads;

/// An offline against calls of another processor, after `SETUP` lines of setup.
const RACE: &str = "0 map db 0;0 write db 0 0 7;0 kalloc 0;0 begin off 1;0 migrate 0;0 commit 0;\
     1 map web 0;1 write web 0 0 9;1 read web 0 0";

const SETUP: u64 = 3;

/// Returns the text of one part of a scenario; empty if it is refused.
fn part_of(alloc: Global, input: &[u8], number: ShardId, limit: u64) -> String {
    match part_text(alloc, input, SETUP, limit, number, &mut Silent) {
        Ok(finding) => finding.text,
        Err(_fault) => String::new(alloc),
    }
}

/// Cuts `RACE` into `of` parts, and returns the text of part `number`; empty if there is
/// no such part.
fn part(alloc: Global, number: u64, of: u64, limit: u64) -> Result<String, AllocError> {
    let Some(number) = ShardId::new(number, of) else {
        return Ok(String::new(alloc));
    };
    let scenario = scenario(alloc, 40, RACE)?;
    Ok(part_of(alloc, scenario.as_bytes(), number, limit))
}

/// Cuts `RACE` into `of` parts, and appends the text of part `number`.
fn push_part(out: &mut String, alloc: Global, number: u64, of: u64) -> Result<(), AllocError> {
    let part = part(alloc, number, of, 100)?;
    out.push_str(&part)
}

/// Returns the text of all `of` parts of `RACE`, the last part first.
fn parts(alloc: Global, of: u64) -> Result<String, AllocError> {
    let mut text = String::new(alloc);
    for number in 0..of {
        push_part(&mut text, alloc, of - number, of)?;
    }
    Ok(text)
}

/// Returns whether the sum of the parts in `text` is `whole`, in this form.
fn has_sum(alloc: Global, text: &str, form: EndsForm, whole: &str) -> bool {
    match sum_text(alloc, text.as_bytes(), form) {
        Ok(sum) => sum.is_found && sum.text.as_str() == whole,
        Err(_fault) => false,
    }
}

/// Returns whether the parts in `text` add up to the exploration of `RACE`.
fn adds_up<R: Threads + Sync>(
    rt: &R,
    alloc: Global,
    text: &str,
    form: EndsForm,
) -> Result<bool, AllocError> {
    let scenario = scenario(alloc, 40, RACE)?;
    match explore_text(
        rt,
        alloc,
        scenario.as_bytes(),
        SETUP,
        100,
        form,
        None,
        1,
        &mut Silent,
    ) {
        Ok(whole) => Ok(has_sum(alloc, text, form, whole.text.as_str())),
        Err(_fault) => Ok(false),
    }
}

/// Returns whether the `of` parts of `RACE` add up to its exploration.
fn parts_of_it_add_up<R: Threads + Sync>(
    rt: &R,
    alloc: Global,
    of: u64,
    form: EndsForm,
) -> Result<bool, AllocError> {
    let text = parts(alloc, of)?;
    adds_up(rt, alloc, &text, form)
}

/// The number of parts, and the form of their sum.
const SUMS: &[(u64, EndsForm)] = &[
    (1, EndsForm::Words),
    (3, EndsForm::Objects),
    (7, EndsForm::Scenario(2)),
    (60, EndsForm::Words),
    (3, EndsForm::Summary),
];

#[test]
fn parts_add_up(rt: HostRuntime) -> Result<(), Fail> {
    for (of, form) in SUMS {
        assert!(rt; parts_of_it_add_up(&rt, rt.alloc(), *of, *form)?, "{of}");
    }
    Ok(())
}

/// Returns why the parts in a text have no sum, or `None` if they have one.
fn fault_of(alloc: Global, text: &str) -> Option<PartFault> {
    match sum_text(alloc, text.as_bytes(), EndsForm::Words) {
        Ok(_sum) => None,
        Err(fault) => Some(fault),
    }
}

/// A piece of the text of the three parts of `RACE`, what replaces it wherever it comes, and why
/// the result has no sum; `None` if it has one.
type Refused = (&'static str, &'static str, Option<PartFault>);

const NO_PART: Option<PartFault> = Some(PartFault::NotPart { line: 1 });

const REFUSED: &[Refused] = &[
    ("\"end\": 1,", "\"end\": 1,", None),
    ("\"part\": 3,", "\"part\": 4,", NO_PART),
    ("{\"part\": 3", "x{\"part\": 3", NO_PART),
    (
        ", \"first\": [",
        ",\"first\": [",
        Some(PartFault::Changed { line: 2 }),
    ),
    ("]}\n", ", 0]}\n", Some(PartFault::NotOfPart { line: 2 })),
];

/// Returns whether the changed text is refused with the expected fault, or not refused for `None`.
fn is_refused(alloc: Global, text: &str, row: &Refused) -> Result<bool, AllocError> {
    let (old, new, fault) = row;
    let changed = text.replace(alloc, old, new)?;
    Ok(fault_of(alloc, &changed) == *fault)
}

#[test]
fn texts_without_a_sum_are_refused(rt: HostRuntime) -> Result<(), Fail> {
    let text = parts(rt.alloc(), 3)?;
    for row in REFUSED {
        assert!(rt; is_refused(rt.alloc(), &text, row)?, "{}", row.0);
    }
    Ok(())
}

/// The number of parts of `RACE`, the limit, how many times the first part comes in the text, and
/// why the text has no sum.
type First = (u64, u64, usize, PartFault);

const FIRST: &[First] = &[
    (1, 1, 1, PartFault::Stopped { line: 3 }),
    (2, 100, 1, PartFault::Missing { part: 2 }),
    (2, 100, 2, PartFault::Twice { part: 1 }),
    (2, 100, 0, PartFault::NotPart { line: 1 }),
];

/// Makes a text of the first part alone, as many times as the row says. Returns whether this text
/// is refused with the row's fault.
fn is_first_refused(alloc: Global, first: &First) -> Result<bool, AllocError> {
    let (of, limit, times, fault) = first;
    let one = part(alloc, 1, *of, *limit)?;
    let text = one.repeat(alloc, *times)?;
    Ok(fault_of(alloc, &text) == Some(*fault))
}

#[test]
fn stopped_and_missing_parts_are_refused(rt: HostRuntime) -> Result<(), Fail> {
    for row in FIRST {
        assert!(rt; is_first_refused(rt.alloc(), row)?, "{} {}", row.0, row.2);
    }
    Ok(())
}
