//! The driver of a plan. Its runs through a port are tested with machines and seats.
use hp_ops::Driver;
use hp_units::{Block, Event, Item, Plan, Reply, Serial, Wish};
use std::alloc::Global;
use std::test::Fail;

/// Returns the plan that takes block 2 offline.
fn offline(alloc: Global) -> Result<Plan, Fail> {
    let items = vec![in alloc;
        Item {
            block: Block(2),
            wish: Wish::Off
        },
    ]?;
    Ok(Plan::new(alloc, items)?)
}

/// Returns whether a driver asks for a drain once its operation has begun.
fn drains_once_it_has_begun(alloc: Global) -> Result<bool, Fail> {
    let plan = offline(alloc)?;
    let mut driver = Driver::new(2, 9);
    if let Some(begin) = driver.next(alloc, &plan)? {
        driver.answer(&begin, &Reply::Opened { op: Serial(1) });
    }
    Ok(matches!(driver.next(alloc, &plan)?, Some(Event::DrainFor { .. })))
}

#[test]
fn a_round_of_drains_follows_the_begin(rt: HostRuntime) -> Result<(), Fail> {
    assert!(rt; drains_once_it_has_begun(rt.alloc())?);
    Ok(())
}
