//! A driver's last refusal as numbers.
ghost use Rattle.std.specs.Prelude.{◌≡◌};
ghost use Rattle.hp_schedules.specs.Causes.{cause_numbers};

use hp_units::Refusal;

/// Returns the refusal as two numbers: its kind, and the block or frame that it names, or 0 if it
/// names none. Without a refusal, both are 0.
pub(crate) fn cause_numbers(why: Option<Refusal>) -> [u32; 2]
    ensures { result ≡ cause_numbers why }
{
    let Some(refusal) = why else {
        return [0, 0];
    };
    match &refusal {
        Refusal::NoOwner => [1, 0],
        Refusal::NoPage => [2, 0],
        Refusal::NoWord => [3, 0],
        Refusal::AlreadyMapped => [4, 0],
        Refusal::NotMapped => [5, 0],
        Refusal::BadOrder => [6, 0],
        Refusal::NoFrame => [7, 0],
        Refusal::NoSuchFrame => [8, 0],
        Refusal::NotKernel => [9, 0],
        Refusal::NoCpu => [10, 0],
        Refusal::NoBlock => [11, 0],
        Refusal::EmptyPlan => [12, 0],
        Refusal::NoOp => [13, 0],
        Refusal::NothingToMove => [14, 0],
        Refusal::Gone => [15, 0],
        Refusal::BadAddress => [16, 0],
        Refusal::Twice { block } => [17, block.0],
        Refusal::Busy { block } => [18, block.0],
        Refusal::NotOnline { block } => [19, block.0],
        Refusal::NotOffline { block } => [20, block.0],
        Refusal::Unmovable { frame } => [21, frame.0],
        Refusal::NotFree { frame } => [22, frame.0],
        Refusal::NotAbsent { block } => [23, block.0],
    }
}
