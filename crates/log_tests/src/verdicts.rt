//! Verdicts on small logs, of memory blocks of eight frames each.

ghost use Rattle.std.specs.Prelude.{◌≡◌};

use crate::streams::{LogBytes, Report, answer_of};
use hp_logs::LogForm;
use hp_verdicts::{
    AllowedKinds, BlockRange, JudgeFault, JudgeOptions, ReportForm, SizeFault, judge_log,
};
use std::alloc::Global;

/// A block comes online, hands a frame out and takes it back, and goes offline.
const LAWFUL: &str = "{\"block_frames\": 8}\n{\"online\": 1}\n{\"free\": 8, \"order\": 3}\n\
     {\"online\": 1, \"end\": \"ok\"}\n{\"alloc\": 9}\n{\"free\": 9}\n{\"offline\": 1}\n\
     {\"offline\": 1, \"end\": \"ok\"}\n";

/// Frame 1 is handed out twice, frame 9 comes back twice, and frame 1 is handed out once more.
const UNLAWFUL: &str = "{\"alloc\": 1}\n{\"alloc\": 1}\n{\"free\": 9}\n{\"free\": 9}\n\
     {\"alloc\": 1}\n";

/// A page moves out of the first 2^26 frames.
const FAR_MOVE: &str = "{\"move\": 0, \"to\": 67108864}\n";

/// The options of a judgement in a test.
#[derive(Clone, Copy, Drop)]
struct Case {
    block_frames: Option<u64>,
    range: Option<BlockRange>,
    allow: &'static str,
    most: u64,
}

/// Returns the options for blocks of eight frames, no allowed kinds of fault, and at most ten
/// faults.
fn plain() -> Case {
    Case {
        block_frames: Some(8),
        range: None,
        allow: "",
        most: 10,
    }
}

/// Judges a log of JSON, and returns whether it is lawful.
fn judged(alloc: Global, case: Case, log: &str, report: &mut Report) -> Result<bool, JudgeFault>
    requires { report.old.failures ≡ 0 }
{
    let mut allowed = AllowedKinds::none();
    let _ = allowed.add(case.allow);
    let Some(options) = JudgeOptions::new(case.block_frames, case.range, allowed, case.most) else {
        return Err(JudgeFault::Size(SizeFault::Wrong));
    };
    let mut source = LogBytes::new(log);
    judge_log(
        alloc,
        LogForm::Json,
        &options,
        ReportForm::Text,
        &mut source,
        report,
    )
}

/// Returns whether a log gets this verdict, and its report ends with this text.
fn ends_with(alloc: Global, case: Case, log: &str, is_lawful: bool, end: &str) -> bool {
    let mut report = Report::new(alloc);
    let answer = answer_of(judged(alloc, case, log, &mut report));
    answer == Some(is_lawful) && report.ends_with(end)
}

/// Returns whether a log is not judged, because its number of frames per memory block has this
/// fault.
fn fails_for_size(alloc: Global, case: Case, log: &str, wanted: SizeFault) -> bool {
    let mut report = Report::new(alloc);
    match judged(alloc, case, log, &mut report) {
        Err(JudgeFault::Size(fault)) => fault == wanted,
        _ => false,
    }
}

#[test]
fn a_lawful_log_has_no_fault_and_its_blocks_are_counted(rt: HostRuntime) {
    let mut report = Report::new(rt.alloc());
    let answer = answer_of(judged(rt.alloc(), plain(), LAWFUL, &mut report));
    assert_eq!(rt; answer, Some(true));
    let text = "8 lines: 1 allocs, 2 frees, 0 moves, 1 onlines, 1 offlines, 2 ends, 1 others\n\
         block 1: onlines 1 ok, 0 failed; offlines 1 ok, 0 failed; at most 1 frames in use, \
         0 handed out while going offline, 0 pages moved away\nlawful: 0 faults, 0 allowed\n";
    assert!(rt; report.is(text));
}

#[test]
fn an_unlawful_log_has_its_faults_in_order(rt: HostRuntime) {
    let end = "line 2, event 1: once: frame 1 (0x1, of block 0) is handed out, and has been in \
         use since line 1, event 0\n    \"{\\\"alloc\\\": 1}\"\n\
         line 4, event 3: in-use: frame 9 (0x9, of block 1) comes back, and has been free since \
         line 3, event 2\n\
         line 5, event 4: once: frame 1 (0x1, of block 0) is handed out, and has been in use since \
         line 2, event 1\nunlawful: 3 faults, 0 allowed\n";
    assert!(rt; ends_with(rt.alloc(), plain(), UNLAWFUL, false, end));
}

#[test]
fn allowed_faults_are_counted_apart(rt: HostRuntime) {
    let mut case = plain();
    case.allow = "once";
    assert!(rt;
        ends_with(
            rt.alloc(),
            case,
            UNLAWFUL,
            false,
            "unlawful: 1 faults, 2 allowed\n"
        )
    );
}

#[test]
fn the_most_faults_are_the_first_ones(rt: HostRuntime) {
    let mut case = plain();
    case.most = 1;
    let end = "\"\nand 2 more\nunlawful: 3 faults, 0 allowed\n";
    assert!(rt; ends_with(rt.alloc(), case, UNLAWFUL, false, end));
}

#[test]
fn some_blocks_are_judged_alone(rt: HostRuntime) {
    let mut case = plain();
    case.range = Some(BlockRange { first: 1, end: 2 });
    assert!(rt;
        ends_with(
            rt.alloc(),
            case,
            UNLAWFUL,
            false,
            "unlawful: 1 faults, 0 allowed\n"
        )
    );
    case.range = Some(BlockRange { first: 2, end: 9 });
    assert!(rt;
        ends_with(
            rt.alloc(),
            case,
            UNLAWFUL,
            true,
            "lawful: 0 faults, 0 allowed\n"
        )
    );
}

#[test]
fn the_first_line_says_how_many_frames_a_block_has(rt: HostRuntime) {
    let mut case = plain();
    case.block_frames = None;
    assert!(rt;
        ends_with(
            rt.alloc(),
            case,
            LAWFUL,
            true,
            "lawful: 0 faults, 0 allowed\n"
        )
    );
    assert!(rt; fails_for_size(rt.alloc(), case, UNLAWFUL, SizeFault::Missing));
    assert!(rt; fails_for_size(rt.alloc(), case, "{\"block_frames\": 7}", SizeFault::Wrong));
    case.block_frames = Some(16);
    assert!(rt; fails_for_size(rt.alloc(), case, LAWFUL, SizeFault::Different));
}

#[test]
fn a_malformed_event_says_what_it_may_be(rt: HostRuntime) {
    // A machine has 2^26 frames, unless a range has blocks past these.
    let end = "line 1, event 0: malformed: no aligned piece of one memory block, a block or a \
         frame outside the machine, or a move to the same frame\n    \
         \"{\\\"move\\\": 0, \\\"to\\\": 67108864}\"\nunlawful: 1 faults, 0 allowed\n";
    assert!(rt; ends_with(rt.alloc(), plain(), FAR_MOVE, false, end));
}

#[test]
fn an_unmovable_alloc_in_zone_movable_is_a_fault(rt: HostRuntime) {
    let log = "{\"online\": 1, \"zone\": \"movable\"}\n{\"alloc\": 9}\n";
    let text = "line 2, event 1: movable: frame 9 (0x9, of block 1) is handed out as unmovable, \
         and has been in zone Movable since line 1, event 0\n";
    let mut report = Report::new(rt.alloc());
    assert_eq!(rt;
        answer_of(judged(rt.alloc(), plain(), log, &mut report)),
        Some(false)
    );
    assert!(rt; report.has(text));
}

#[test]
fn a_move_out_of_the_range_is_a_free_wherever_it_goes(rt: HostRuntime) {
    let mut case = plain();
    case.range = Some(BlockRange { first: 0, end: 1 });
    let mut report = Report::new(rt.alloc());
    assert_eq!(rt;
        answer_of(judged(rt.alloc(), case, FAR_MOVE, &mut report)),
        Some(true)
    );
    assert!(rt; report.has("1 lines: 0 allocs, 1 frees, 0 moves"));
}
