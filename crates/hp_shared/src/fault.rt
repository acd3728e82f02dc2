//! Why not all lines were run.
use hp_units::Cpu;

/// Why a worker did not run its lines.
#[derive(Clone, Copy, Drop)]
pub enum RunFault {
    /// No thread could be started for the worker of this processor.
    NotStarted { cpu: Cpu },
    /// Out of memory.
    OutOfMemory,
}
