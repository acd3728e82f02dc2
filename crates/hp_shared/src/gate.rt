//! The gate around each call and each seal of a worker.
use hp_units::Cpu;

/// A gate that a worker passes before and after each call of its seat, and each seal. `nth` counts
/// the calls and seals of this worker, from 1; the calls of a plan count like all others. The
/// machine's lock is not held.
pub trait Gate {
    /// Called before a call or a seal.
    fn before(&self, cpu: Cpu, nth: u64);

    /// Called after the call or the seal has returned.
    fn after(&self, cpu: Cpu, nth: u64);
}

/// A gate that does nothing.
#[derive(Clone, Copy, Drop)]
pub struct OpenGate;

impl Gate for OpenGate {
    fn before(&self, cpu: Cpu, nth: u64) {
        let _ = (cpu, nth);
    }

    fn after(&self, cpu: Cpu, nth: u64) {
        let _ = (cpu, nth);
    }
}
