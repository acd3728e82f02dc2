//! Traces as text: a plan, a hostile text, narrow rows, free blocks by their orders, and long
//! texts. docs/lab_traces.py compares traces with what `hotplug serial` prints.
use hp_scenario::Scenario;
use hp_trace::{View, trace};
use std::alloc::{AllocError, Global};
use std::test::Fail;

/// A page, a plan that moves it, and a control file.
const SCENARIO: &[u8] =
    br#"{"layout":{"order":2,"pageblocks":1,"blocks":3,"cpus":1,"batch":2,"high":2,
"owners":1,"pages":4,"words":1,"history":9,"boot":["normal","movable","offline"]},
"calls":["0 map db 0","0 plan 4 off 1","0 cat memory1/state"]}"#;

const WHOLE: &str =
    "   0 boot                                               0:N[....] 1:M[....] 2:off[----]
   1 0 map db 0               1: done                   0:N[....] 1:M[a0..] 2:off[----]
   2 0 plan 4 off 1                                     0:N[....] 1:M[a0..] 2:off[----]
     begin off 1              2: opened 2               0:N[....] 1:M>off[a0::] 2:off[----]
     drainfor 2 0             3: done                   0:N[....] 1:M>off[a:::] 2:off[----]
     migrate 2                4: moved 4 0              0:N[a...] 1:M>off[::::] 2:off[----]
     migrate 2                5: refused NothingToMove  0:N[a...] 1:M>off[::::] 2:off[----]
     commit 2                 6: done                   0:N[a...] 1:off[----] 2:off[----]
plan: done
   3 0 cat memory1/state                                0:N[a...] 1:off[----] 2:off[----]
offline
";

/// A text that is long, looks like a memory block, and has control characters that a terminal
/// obeys.
const HOSTILE: &[u8] =
    br#"{"layout":{"order":2,"pageblocks":1,"blocks":3,"cpus":1,"batch":2,"high":2,
"owners":1,"pages":4,"words":1,"history":9,"boot":["normal","movable","offline"]},
"calls":["0 echo \u001b[31m\n\u009b]0:N[....] memory1/state"]}"#;

const ESCAPED: &str =
    "   0 boot                                               0:N[....] 1:M[....] 2:off[----]
   1 0 echo \\u001b\\u005b31m\\n\\u009b\\u005d0:N\\u005b....\\u005d memory1/state
                                                        0:N[....] 1:M[....] 2:off[----]
echo: fault BadText
";

/// A scenario with the layout of `SCENARIO`, and lines that change nothing in the picture.
const NARROW: &[u8] =
    br#"{"layout":{"order":2,"pageblocks":1,"blocks":3,"cpus":1,"batch":2,"high":2,
"owners":1,"pages":4,"words":1,"history":9,"boot":["normal","movable","offline"]},
"calls":["0 map db 0","0 write db 0 0 7","0 plan 4 off 1","0 seal"]}"#;

/// The trace of `NARROW` in 80 columns. The memory blocks need two lines, so later rows have only
/// the blocks that changed.
const FOLDED: &str = "   0 boot                                               0:N[....] 1:M[....]
                                                        2:off[----]
   1 0 map db 0               1: done                   1:M[a0..]
   2 0 write db 0 0 7         2: done                   =
   3 0 plan 4 off 1                                     =
     begin off 1              3: opened 3               1:M>off[a0::]
     drainfor 3 0             4: done                   1:M>off[a:::]
     migrate 3                5: moved 4 0              0:N[a...] 1:M>off[::::]
     migrate 3                6: refused NothingToMove  =
     commit 3                 7: done                   1:off[----]
plan: done
   4 0 seal                                             =
sealed 7
";

/// The trace of `NARROW` in 80 columns, with free frames drawn by the orders of their blocks.
const ORDERED: &str = "   0 boot                                               0:N[(2.)] 1:M[(2.)]
                                                        2:off[----]
   1 0 map db 0               1: done                   1:M[a0()]
   2 0 write db 0 0 7         2: done                   =
   3 0 plan 4 off 1                                     =
     begin off 1              3: opened 3               1:M>off[a0{}]
     drainfor 3 0             4: done                   1:M>off[a:{}]
     migrate 3                5: moved 4 0              0:N[a.()] 1:M>off[{2:}]
     migrate 3                6: refused NothingToMove  =
     commit 3                 7: done                   1:off[----]
plan: done
   4 0 seal                                             =
sealed 7
";

/// A scenario with a frame number that makes an answer of 26 characters, one more than fits its
/// columns.
const LONG: &[u8] = br#"{"layout":{"order":10,"pageblocks":4,"blocks":4,"cpus":1,"batch":2,"high":2,
"owners":1,"pages":4,"words":1,"history":9,"boot":["offline","offline","absent","normal"]},
"calls":["0 kalloc 3","0 begin off 3"]}"#;

const LONG_ANSWER: &str =
    "   0 boot                                               0:off[4096: -*4096] 1:off[4096: -*4096]
                                                        2:absent[4096:  *4096] 3:N[4096: .*4096]
   1 0 kalloc 3               1: frame 12288            3:N[4096: .*4088 K*8]
   2 0 begin off 3            2: refused Unmovable 12288
                                                        =
";

/// The trace of `LONG` in 80 columns, with orders: counts continue on further lines.
const COUNTS: &str = "   0 boot                                               0:off[4096: -*4096]
                                                        1:off[4096: -*4096]
                                                        2:absent[4096:  *4096]
                                                        3:N[4096: .*4096 (10)*4]
   1 0 kalloc 3               1: frame 12288            3:N[4096: .*4088 K*8
                                                        (3)*1 (4)*1 (5)*1 (6)*1
                                                        (7)*1 (8)*1 (9)*1
                                                        (10)*3]
   2 0 begin off 3            2: refused Unmovable 12288
                                                        =
";

/// The trace of `LONG` in 70 columns, from the last line on. A count of absent frames begins with a
/// space.
const ABSENT: &str = "     before line 2                                      0:off[4096:
                                                        -*4096]
                                                        1:off[4096:
                                                        -*4096]
                                                        2:absent[4096:
                                                         *4096]
                                                        3:N[4096:
                                                        .*4088 K*8]
   2 0 begin off 3            2: refused Unmovable 12288
                                                        =
";

/// The trace of `NARROW` in 120 columns from the third line on, with a row for the memory before
/// it.
const LATER: &str =
    "     before line 3                                      0:N[....] 1:M[a0..] 2:off[----]
   3 0 plan 4 off 1                                     0:N[....] 1:M[a0..] 2:off[----]
     begin off 1              3: opened 3               0:N[....] 1:M>off[a0::] 2:off[----]
     drainfor 3 0             4: done                   0:N[....] 1:M>off[a:::] 2:off[----]
     migrate 3                5: moved 4 0              0:N[a...] 1:M>off[::::] 2:off[----]
     migrate 3                6: refused NothingToMove  0:N[a...] 1:M>off[::::] 2:off[----]
     commit 3                 7: done                   0:N[a...] 1:off[----] 2:off[----]
plan: done
   4 0 seal                                             0:N[a...] 1:off[----] 2:off[----]
sealed 7
";

/// Returns whether the trace of a scenario is this text.
fn is_traced(alloc: Global, scenario: &[u8], view: View, text: &str) -> bool {
    match Scenario::read(alloc, scenario) {
        Ok(scenario) => is_traced_as(alloc, &scenario, view, text),
        Err(_fault) => false,
    }
}

/// Returns whether the trace of a scenario that was read is this text.
fn is_traced_as(alloc: Global, scenario: &Scenario, view: View, text: &str) -> bool {
    match trace(alloc, scenario, view) {
        Ok(traced) => traced.as_str() == text,
        Err(AllocError) => false,
    }
}

/// All lines, in rows of 120 columns.
const ALL: View = View {
    from: 1,
    to: 9,
    every: 1,
    width: 120,
    orders: false,
};

#[test]
fn lines_are_traced(rt: HostRuntime) -> Result<(), Fail> {
    assert!(rt; is_traced(rt.alloc(), SCENARIO, ALL, WHOLE));
    Ok(())
}

#[test]
fn texts_are_escaped(rt: HostRuntime) -> Result<(), Fail> {
    assert!(rt; is_traced(rt.alloc(), HOSTILE, ALL, ESCAPED));
    Ok(())
}

/// Returns a view of all lines from `from` on, in rows of `width` columns.
fn in_columns(from: u64, width: u64, orders: bool) -> View {
    View {
        from,
        to: 9,
        every: 1,
        width,
        orders,
    }
}

#[test]
fn wide_rows_are_folded(rt: HostRuntime) -> Result<(), Fail> {
    let alloc = rt.alloc();
    assert!(rt; is_traced(alloc, NARROW, in_columns(1, 80, false), FOLDED));
    assert!(rt; is_traced(alloc, NARROW, in_columns(1, 80, true), ORDERED));
    Ok(())
}

#[test]
fn long_answers_have_their_own_line(rt: HostRuntime) -> Result<(), Fail> {
    assert!(rt; is_traced(rt.alloc(), LONG, in_columns(1, 100, false), LONG_ANSWER));
    Ok(())
}

#[test]
fn counts_are_folded(rt: HostRuntime) -> Result<(), Fail> {
    let alloc = rt.alloc();
    assert!(rt; is_traced(alloc, LONG, in_columns(1, 80, true), COUNTS));
    assert!(rt; is_traced(alloc, LONG, in_columns(2, 70, false), ABSENT));
    Ok(())
}

#[test]
fn a_trace_begins_before_its_first_line(rt: HostRuntime) -> Result<(), Fail> {
    assert!(rt; is_traced(rt.alloc(), NARROW, in_columns(3, 120, false), LATER));
    Ok(())
}
