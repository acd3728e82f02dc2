//! Runs the driver of a plan's operation.
ghost use Rattle.std.specs.Prelude.{◌≡◌, None};
ghost use Rattle.hp_units.specs.Driver.{IsDriverRun};
ghost use Rattle.hp_ops.specs.Ports.{Gains};
ghost use Rattle.hp_ops.specs.Stages.{operation_in};

use crate::port::Port;
use crate::stages::Driver;
use hp_units::{Event, OpEnd, Plan, Serial};
use std::alloc::Global;

/// Carries out a plan through a port, with at most `turns` migrations (Linux, memory hotplug:
/// offlining). After a Begin it drains each processor's lists, then migrates page after page; when
/// no page is left to move, it commits. If no frame can be had, or the commit finds a frame in use,
/// it drains again. When it has tried `turns` migrations, it cancels instead of trying another.
///
/// Allocates only in the port's calls, and makes no call after one that failed. The end is `Left`
/// if a call failed; it has no operation if that call was the Begin. The end is `Undone` if the
/// operation is no longer live.
pub fn run_plan<P: Port>(alloc: Global, port: &mut P, plan: Plan, turns: u32) -> OpEnd
    requires { (P.shows port.old).fault ≡ None }
    ensures { Gains P.shows P.makes P.leaves port.old (P.shows port.new).fault port.new
        (λ gained. IsDriverRun (P.shows port.old).cpus turns plan gained (P.shows port.new).fault result) }
{
    let mut driver = Driver::new(port.cpus(), turns);
    let mut event = Event::Begin { plan };
    loop {
        match port.call(alloc, &event) {
            Ok(reply) => driver.answer(&event, &reply),
            Err(fault) => {
                return OpEnd::Left {
                    op: operation_in(&event),
                    fault,
                };
            }
        }
        match driver.work() {
            Some(next) => event = next,
            None => return driver.end(),
        }
    }
}

/// Returns the operation that a driver's event works on.
fn operation_in(event: &Event) -> Option<Serial>
    ensures { result ≡ operation_in event.now }
{
    match event {
        Event::DrainFor { op, .. }
        | Event::Migrate { op }
        | Event::Commit { op }
        | Event::Cancel { op } => Some(*op),
        _ => None,
    }
}
