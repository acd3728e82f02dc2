//! Scenarios that are not explored, and why.
use super::explorations::scenario;
use hp_explore::Silent;
use hp_parts::explore_text;
use hp_requests::ControlFault;
use hp_scenario::Unfit;
use hp_search::{EndsForm, LabFault};
use std::alloc::{AllocError, Global};
use std::test::Fail;
use std::thread::Threads;

/// The lines of a scenario, the length of the setup, the wrong line, and what is wrong with it.
type Misfit = (&'static str, u64, u64, Unfit);

const MISFITS: &[Misfit] = &[
    (
        "0 cat buddyinfo;0 drain 0;1 cat buddyinfo;0 seal",
        1,
        3,
        Unfit::Cat,
    ),
    ("0 seal;0 seal", 1, 2, Unfit::Seal),
    ("2 drain 0", 0, 1, Unfit::Processor),
    (
        "0 echo offline memory/state",
        0,
        1,
        Unfit::Echo(ControlFault::NoFile),
    ),
];

/// Returns whether an exploration is refused with this fault.
fn is_refused<R: Threads + Sync>(
    rt: &R,
    alloc: Global,
    scenario: &str,
    setup: u64,
    fault: LabFault,
) -> bool {
    let form = EndsForm::Words;
    match explore_text(
        rt,
        alloc,
        scenario.as_bytes(),
        setup,
        9,
        form,
        None,
        1,
        &mut Silent,
    ) {
        Ok(_finding) => false,
        Err(found) => found == fault,
    }
}

/// Returns whether an exploration of lines, with room for `history` records, is refused with this
/// fault.
fn has_fault<R: Threads + Sync>(
    rt: &R,
    alloc: Global,
    history: u64,
    lines: &str,
    fault: LabFault,
) -> Result<bool, AllocError> {
    let text = scenario(alloc, history, lines)?;
    Ok(is_refused(rt, alloc, &text, 0, fault))
}

/// Returns whether an exploration of the lines is refused because of the wrong line, for its
/// reason.
fn has_misfit<R: Threads + Sync>(
    rt: &R,
    alloc: Global,
    misfit: &Misfit,
) -> Result<bool, AllocError> {
    let (lines, setup, line, why) = misfit;
    let fault = LabFault::NotForScript {
        line: *line,
        why: *why,
    };
    let text = scenario(alloc, 40, lines)?;
    Ok(is_refused(rt, alloc, &text, *setup, fault))
}

/// Returns the index of the first row whose exploration is not refused with the fault in the row.
fn first_other<R: Threads + Sync>(
    rt: &R,
    alloc: Global,
    rows: &[Misfit],
) -> Result<Option<usize>, AllocError> {
    for (place, row) in rows.iter().enumerate() {
        if !has_misfit(rt, alloc, row)? {
            return Ok(Some(place));
        }
    }
    Ok(None)
}

/// How many records the history has room for, the lines of a scenario, and the fault.
const REFUSED: &[(u64, &str, LabFault)] = &[
    (40, "0 drain 0;0 walk", LabFault::BadLine { line: 2 }),
    (
        1,
        "0 drain 0;1 drain 0",
        LabFault::HistoryFull { needed: Some(2) },
    ),
    (1, "1 plan 2 off 1", LabFault::HistoryFull { needed: None }),
];

#[test]
fn each_fault_has_its_cause(rt: HostRuntime) -> Result<(), Fail> {
    for (history, lines, fault) in REFUSED {
        assert!(rt;
            has_fault(&rt, rt.alloc(), *history, lines, *fault)?,
            "{lines}"
        );
    }
    assert!(rt; is_refused(&rt, rt.alloc(), "[", 0, LabFault::NotJson));
    assert!(rt; is_refused(&rt, rt.alloc(), "{}", 0, LabFault::BadShape));
    Ok(())
}

#[test]
fn each_misfit_has_its_cause(rt: HostRuntime) -> Result<(), Fail> {
    assert!(rt; first_other(&rt, rt.alloc(), MISFITS)?.is_none());
    Ok(())
}
