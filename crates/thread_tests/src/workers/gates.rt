//! A gate that lets workers pass points in one order. A wait gives up after a limit of turns, and
//! the gate then records that.
use hp_shared::Gate;
use hp_units::Cpu;
use std::sync::atomic::{AtomicBool, AtomicU64, Ordering};
use std::thread;

/// A point that a worker passes before or after one of its calls, which are counted from 1.
#[derive(Clone, Copy, PartialEq, Eq, Drop)]
pub enum Point {
    Before(u32, u64),
    After(u32, u64),
}

/// Holds a worker at each of these points until all points before it were passed.
#[derive(Drop)]
pub struct InOrder<'a> {
    points: &'a [Point],
    passed: AtomicU64,
    missed: AtomicBool,
}

impl<'a> InOrder<'a> {
    pub fn new(points: &'a [Point]) -> InOrder<'a> {
        InOrder {
            points,
            passed: AtomicU64::new(0),
            missed: AtomicBool::new(false),
        }
    }

    /// Waits until `passed` points have been passed.
    fn wait_for(&self, passed: u64) {
        for turn in 0..100_000_000u32 {
            if self.passed.load(Ordering::SeqCst) >= passed {
                return;
            }
            if turn % 100 == 0 {
                thread::yield_now();
            }
        }
        self.missed.store(true, Ordering::SeqCst);
    }

    /// Passes a point, as often as it is in the order.
    fn pass(&self, here: Point) {
        for (place, point) in self.points.iter().enumerate() {
            if *point == here {
                self.wait_for(place as u64);
                self.passed.fetch_add(1, Ordering::SeqCst);
            }
        }
    }

    /// Returns whether all points were passed, and no wait gave up.
    pub fn was_met(&self) -> bool {
        let passed = self.passed.load(Ordering::SeqCst);
        passed == self.points.len() as u64 && !self.missed.load(Ordering::SeqCst)
    }
}

impl Gate for InOrder<'_> {
    fn before(&self, cpu: Cpu, nth: u64) {
        self.pass(Point::Before(cpu.0, nth));
    }

    fn after(&self, cpu: Cpu, nth: u64) {
        self.pass(Point::After(cpu.0, nth));
    }
}
