//! Pictures of small logs.

ghost use Rattle.std.specs.Prelude.{◌≡◌};

use crate::streams::{LogBytes, Report, answer_of};
use hp_log_pictures::{BlockSigns, Columns, draw_log};
use hp_logs::LogForm;
use hp_verdicts::{AllowedKinds, JudgeFault, JudgeOptions, SizeFault};
use std::alloc::{AllocError, Global};
use std::test::Fail;

/// Draws a JSON log of memory blocks of eight frames each.
fn drawn(alloc: Global, log: &str, report: &mut Report) -> Result<bool, JudgeFault>
    requires { report.old.failures ≡ 0 }
{
    let Some(options) = JudgeOptions::new(Some(8), None, AllowedKinds::none(), 10) else {
        return Err(JudgeFault::Size(SizeFault::Wrong));
    };
    let mut source = LogBytes::new(log);
    draw_log(alloc, LogForm::Json, &options, &mut source, report)
}

#[test]
fn a_picture_has_a_band_for_each_block_and_its_ends(rt: HostRuntime) {
    let log = "{\"online\": 1}\n{\"online\": 1, \"end\": \"ok\"}\n{\"alloc\": 8}\n{\"alloc\": 30}\n\
         {\"offline\": 1}\n{\"offline\": 1, \"end\": \"failed\"}\n";
    let mut picture = Report::new(rt.alloc());
    assert_eq!(rt; answer_of(drawn(rt.alloc(), log, &mut picture)), Some(true));
    assert!(rt; picture.has("<svg "));
    assert!(rt; picture.has(">block 1<"));
    assert!(rt; picture.has(">block 3<"));
    assert!(rt; !picture.has(">block 0<"));
    assert!(rt; picture.has("6 events, lawful: 0 faults, 0 allowed"));
    // Of the six events, block 1 is going online from event 0 on, and going offline from event 4
    // on.
    assert!(rt; picture.has("<rect x='80' y='92' width='170' height='20' fill='#7dd3fc'/>"));
    assert!(rt; picture.has("<rect x='762' y='92' width='171' height='20' fill='#fdba74'/>"));
    assert!(rt; picture.has("<path d='M250 93l4 8h-8z' fill='#16a34a'"));
    assert!(rt; picture.has("<path d='M933 103m-4 0h8l-4 8z' fill='#ffffff'"));
    assert!(rt; picture.has("<path d='M80 112H421V92H1104V112Z'"));
}

#[test]
fn an_unlawful_log_is_drawn_too(rt: HostRuntime) {
    let mut picture = Report::new(rt.alloc());
    let log = "{\"alloc\": 1}\n{\"alloc\": 1}\n";
    assert_eq!(rt;
        answer_of(drawn(rt.alloc(), log, &mut picture)),
        Some(false)
    );
    assert!(rt; picture.has("2 events, unlawful: 1 faults, 0 allowed"));
}

/// Returns the columns of 3,000 events. Event 1,999 left seven frames in use, and the next one
/// none.
fn long_columns(alloc: Global) -> Result<Columns, AllocError> {
    let mut columns = Columns::new(alloc);
    columns.read(1999, 7, BlockSigns::none(), BlockSigns::of_online(false))?;
    let next = columns.event_count().max(2000);
    columns.read(next, 0, BlockSigns::none(), BlockSigns::none())?;
    columns.extend(columns.event_count().max(3000))?;
    Ok(columns)
}

/// Returns whether an online failed in a column.
fn has_failed(columns: &Columns, place: usize) -> bool {
    match columns.marks().get(place) {
        Some(marks) => marks.online_failed,
        None => false,
    }
}

#[test]
fn a_long_log_has_few_columns_and_keeps_its_peak(rt: HostRuntime) -> Result<(), Fail> {
    let columns = long_columns(rt.alloc())?;
    assert_eq!(rt; columns.event_count(), 3000);
    assert_eq!(rt; columns.width(), 4);
    assert_eq!(rt; columns.peaks().len(), 750);
    assert_eq!(rt; columns.peaks().get(499).copied(), Some(7));
    assert_eq!(rt; columns.peaks().iter().filter(|peak| **peak > 0).count(), 1);
    assert!(rt; has_failed(&columns, 499));
    assert!(rt; !has_failed(&columns, 500));
    Ok(())
}
