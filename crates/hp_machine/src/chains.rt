//! Audits chains: whether volumes of sealed records follow one another.
ghost use Rattle.std.specs.Prelude.{◌≡◌, ◌≢◌, IfErr, IfOk, MatchBool, OnOk};
ghost use Rattle.hp_units.specs.History.{IsLegal};
ghost use Rattle.hp_units.specs.Placement.{IsWellPlaced};
ghost use Rattle.hp_history.specs.Course.{last_serial, started};
ghost use Rattle.hp_history.specs.Kept.{pictured};
ghost use Rattle.hp_history.specs.Volumes.{IsChain, state_after};
ghost use Rattle.hp_machine.specs.Chains.{FollowsEnd, IsChainFault, IsFaultAfter, RefutesChain, chain_fault, sealed_after};

use crate::replaying::{ReplayFault, followed};
use crate::same_layouts::same_layout;
use hp_history::{Journal, Volume};
use hp_plain::Image;
use hp_units::Layout;
use std::alloc::{AllocError, Global};

/// Why volumes do not follow one another. Names the first volume at fault, counted from 0; its
/// count is checked before its base, and its base before its records. `OutOfMemory` reports nothing
/// about the volumes, and may come instead of any result.
#[derive(Clone, Copy, Debug, PartialEq, Eq, Drop)]
pub enum ChainFault {
    /// The `before` of volume `at` is not the number of records in the volumes before it.
    WrongCount { at: u64 },
    /// The base of volume `at` has another layout, or is not the state that the volumes
    /// before it lead to.
    WrongBase { at: u64 },
    /// The records of volume `at` are not a legal history over its base.
    Replay { at: u64, fault: ReplayFault },
    /// Out of memory.
    OutOfMemory,
}

impl From<AllocError> for ChainFault {
    ghost use Rattle.std.specs.Prelude.{◌≡◌};
    ghost use Rattle.hp_machine.specs.declared.chains.ChainFault.TheVariants.{OutOfMemory};

    ghost from_gives = { λ _ e. e ≡ OutOfMemory };

    fn from(_error: AllocError) -> ChainFault {
        ChainFault::OutOfMemory
    }
}

/// Returns the state that volumes lead to from boot, if each follows those before it. That is: it
/// was sealed after as many records as they hold, and its base is the state that they lead to. Its
/// records must be a legal history over that base. Without volumes, the state is the one at boot.
///
/// Time is linear in the records and in the volumes' bases, and memory in the longest volume.
pub fn audit_chain(alloc: Global, layout: &Layout, volumes: &[Volume]) -> Result<Image, ChainFault>
    ensures chain { OnOk result (IsChain layout.now volumes.now) }
    ensures value { IfOk result
        (λ image. image ≡ record { layout = layout.now; memory = state_after layout.now volumes.now }) }
    ensures placed { IfOk result (λ image. IsWellPlaced image.layout image.memory) }
    ensures fault { IfErr result (IsChainFault layout.now volumes.now) }
    ensures only { IfErr result (RefutesChain layout.now volumes.now) }
{
    let mut base = Image::boot(alloc, layout)?;
    let mut end = Journal::from_image(alloc, &base, 0)?;
    for (place, volume) in volumes.iter().enumerate() {
        after_volume(alloc, &mut end, &mut base, place as u64, volume)?;
    }
    Ok(base)
}

/// Checks that a volume follows a sealed journal, replays its records in the journal, and seals
/// them. `base` becomes the journal's new base.
fn after_volume(
    alloc: Global,
    end: &mut Journal,
    base: &mut Image,
    at: u64,
    volume: &Volume,
) -> Result<(), ChainFault>
    requires start { end.old ≡ started end.old.layout end.old.base end.old.before }
    requires base { base.old ≡ pictured end.old.layout end.old.base }
    ensures follows { OnOk result (FollowsEnd end.old volume.now) }
    ensures legal { OnOk result (IsLegal end.old.layout end.old.base end.old.before volume.now.records) }
    ensures next { OnOk result (end.new ≡ sealed_after end.old volume.now) }
    ensures base { OnOk result (base.new ≡ pictured end.new.layout end.new.base) }
    ensures err { IfErr result (IsFaultAfter end.old at volume.now) }
{
    if volume.before != end.before() {
        return Err(ChainFault::WrongCount { at });
    }
    if !same_image(&volume.base, base) {
        return Err(ChainFault::WrongBase { at });
    }
    replayed(alloc, end, base, at, volume)
}

/// Replays the records of a volume that follows a sealed journal, and seals them.
fn replayed(
    alloc: Global,
    end: &mut Journal,
    base: &mut Image,
    at: u64,
    volume: &Volume,
) -> Result<(), ChainFault>
    requires start { end.old ≡ started end.old.layout end.old.base end.old.before }
    requires follows { FollowsEnd end.old volume.now }
    ensures legal { OnOk result (IsLegal end.old.layout end.old.base end.old.before volume.now.records) }
    ensures next { OnOk result (end.new ≡ sealed_after end.old volume.now) }
    ensures base { OnOk result (base.new ≡ pictured end.new.layout end.new.base) }
    ensures err { IfErr result (IsFaultAfter end.old at volume.now) }
{
    let records = volume.records.as_slice();
    match followed(alloc, end, records) {
        Ok(_) => seal_off(alloc, end, base),
        Err(fault) => Err(chain_fault(at, fault)),
    }
}

/// Seals a journal, and sets `base` to its new base.
fn seal_off(alloc: Global, end: &mut Journal, base: &mut Image) -> Result<(), ChainFault>
    ensures next { OnOk result (end.new ≡ started end.old.layout end.old.state (last_serial end.old)) }
    ensures base { OnOk result (base.new ≡ pictured end.new.layout end.new.base) }
    ensures err { IfErr result (λ fault. fault ≡ ChainFault.OutOfMemory) }
{
    let now = end.image(alloc)?;
    let _count = end.seal();
    *base = now;
    Ok(())
}

/// Returns whether two images have the same layout and the same state.
fn same_image(image: &Image, other: &Image) -> bool
    ensures { MatchBool result (image.now ≡ other.now) (image.now ≢ other.now) }
{
    same_layout(image.layout(), other.layout()) && image.same(other)
}

/// Returns the fault of volume `at`, whose records have this fault.
fn chain_fault(at: u64, fault: ReplayFault) -> ChainFault
    ensures { result ≡ chain_fault at fault }
{
    match fault {
        ReplayFault::OutOfMemory => ChainFault::OutOfMemory,
        _ => ChainFault::Replay { at, fault },
    }
}
