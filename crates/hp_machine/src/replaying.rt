//! Replays records in a journal, and compares each reply.
ghost use Rattle.std.specs.Prelude.{◌≡◌, IfErr, IfOk, OnOk};
ghost use Rattle.hp_units.specs.Boot.{boot_memory};
ghost use Rattle.hp_units.specs.History.{IsLegal, value_of};
ghost use Rattle.hp_units.specs.Placement.{IsWellPlaced};
ghost use Rattle.hp_history.specs.Course.{started};
ghost use Rattle.hp_machine.specs.Replaying.{IsCourseOf, IsFault, IsFaultHere, IsFollowed, Refutes};

use hp_history::Journal;
use hp_plain::Image;
use hp_units::{Layout, Record, Serial};
use std::alloc::{AllocError, Global};

/// Why records are not a legal history. Names the first record at fault; its serial is
/// checked before its reply. `OutOfMemory` reports nothing about the records, and may come
/// instead of any result.
#[derive(Clone, Copy, Debug, PartialEq, Eq, Drop)]
pub enum ReplayFault {
    /// The record with this serial has another reply than the definitions give.
    WrongReply { serial: Serial },
    /// The record with index `at` does not have the next serial.
    WrongSerial { at: u64 },
    /// Out of memory.
    OutOfMemory,
}

impl From<AllocError> for ReplayFault {
    ghost use Rattle.std.specs.Prelude.{◌≡◌};
    ghost use Rattle.hp_machine.specs.declared.replaying.ReplayFault.TheVariants.{OutOfMemory};

    ghost from_gives = { λ _ e. e ≡ OutOfMemory };

    fn from(_error: AllocError) -> ReplayFault {
        ReplayFault::OutOfMemory
    }
}

/// Returns the state after the records, from the state at boot and serial 1 on, if they are a legal
/// history. Time and memory are linear in the records and the layout.
pub fn replay(alloc: Global, layout: &Layout, records: &[Record]) -> Result<Image, ReplayFault>
    ensures legal { OnOk result (IsLegal layout.now (boot_memory layout.now) 0 records.now) }
    ensures value { IfOk result (λ image. image
        ≡ record { layout = layout.now; memory = value_of layout.now (boot_memory layout.now) records.now }) }
    ensures placed { IfOk result (λ image. IsWellPlaced image.layout image.memory) }
    ensures fault { IfErr result (IsFault layout.now (boot_memory layout.now) 0 records.now) }
    ensures only { IfErr result (Refutes layout.now (boot_memory layout.now) 0 records.now) }
{
    let mut journal = Journal::boot(alloc, layout)?;
    image_after(alloc, &mut journal, records)
}

/// Returns the state after the records, from a base state and after `before` earlier records, if
/// they are a legal history. Time and memory are linear in the records and the layout.
pub fn replay_from(
    alloc: Global,
    base: &Image,
    before: u64,
    records: &[Record],
) -> Result<Image, ReplayFault>
    requires placed { IsWellPlaced base.now.layout base.now.memory }
    ensures legal { OnOk result (IsLegal base.now.layout base.now.memory before records.now) }
    ensures value { IfOk result (λ image. image ≡ record {
      layout = base.now.layout;
      memory = value_of base.now.layout base.now.memory records.now;
    }) }
    ensures placed { IfOk result (λ image. IsWellPlaced image.layout image.memory) }
    ensures fault { IfErr result (IsFault base.now.layout base.now.memory before records.now) }
    ensures only { IfErr result (Refutes base.now.layout base.now.memory before records.now) }
{
    let mut journal = Journal::from_image(alloc, base, before)?;
    image_after(alloc, &mut journal, records)
}

/// Replays the records in a journal that has none, and returns the state after them. Fails if they
/// are not a legal history over its base.
fn image_after(
    alloc: Global,
    journal: &mut Journal,
    records: &[Record],
) -> Result<Image, ReplayFault>
    requires { journal.old ≡ started journal.old.layout journal.old.base journal.old.before }
    ensures legal { OnOk result
        (IsLegal journal.old.layout journal.old.base journal.old.before records.now) }
    ensures value { IfOk result (λ image. image ≡ record {
      layout = journal.old.layout;
      memory = value_of journal.old.layout journal.old.base records.now;
    }) }
    ensures placed { IfOk result (λ image. IsWellPlaced image.layout image.memory) }
    ensures fault { IfErr result
        (IsFault journal.old.layout journal.old.base journal.old.before records.now) }
    ensures only { IfErr result (Refutes journal.old.layout journal.old.base journal.old.before records.now) }
{
    followed(alloc, journal, records)?;
    let memory = journal.memory();
    memory.is_placed();
    let image = memory.image(alloc)?;
    Ok(image)
}

/// Replays the records in a journal that has none. Fails if they are not a legal
/// history over its base.
pub(crate) fn followed(
    alloc: Global,
    journal: &mut Journal,
    records: &[Record],
) -> Result<(), ReplayFault>
    requires { journal.old ≡ started journal.old.layout journal.old.base journal.old.before }
    ensures course { OnOk result
        (IsCourseOf journal.old.layout journal.old.base journal.old.before records.now journal.new) }
    ensures fault { IfErr result
        (IsFault journal.old.layout journal.old.base journal.old.before records.now) }
    ensures only { IfErr result (Refutes journal.old.layout journal.old.base journal.old.before records.now) }
{
    for (place, record) in records.iter().enumerate() {
        follow(alloc, journal, place as u64, record)?;
    }
    Ok(())
}

/// Replays the record with index `at`. Fails if it cannot follow those of the journal.
fn follow(alloc: Global, journal: &mut Journal, at: u64, next: &Record) -> Result<(), ReplayFault>
    ensures ok { OnOk result (IsFollowed journal.old next.now journal.new) }
    ensures err { IfErr result (IsFaultHere journal.old at next.now) }
{
    if !journal.expects(next.serial) {
        return Err(ReplayFault::WrongSerial { at });
    }
    match journal.answer(alloc, next.cpu, &next.event) {
        Ok((_, reply)) => {
            if reply.same(&next.reply) {
                Ok(())
            } else {
                Err(ReplayFault::WrongReply {
                    serial: next.serial,
                })
            }
        }
        Err(AllocError) => Err(ReplayFault::OutOfMemory),
    }
}
