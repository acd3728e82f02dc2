//! Closes a shared machine once its records agree with the seats' receipts.
ghost use Rattle.std.specs.Prelude.{◌≡◌, IfErr, IfOk, length};
ghost use Rattle.hp_shared.specs.Closing.{AreCounted, HasCause, HasFault, IsChecked, IsClosed};
ghost use Rattle.hp_shared.specs.Shared.{IsShared};

use crate::comparing::{compare, has_each};
use crate::job::Job;
use crate::locked::Locked;
use crate::seat::{Seat, audit_all};
use crate::shared::Shared;
use crate::volumes::wrong_volume;
use hp_history::Volume;
use hp_machine::Machine;
use hp_units::Serial;
use std::alloc::{AllocError, Global};

/// Why a shared machine was not closed.
#[derive(Clone, Copy, Debug, PartialEq, Eq, Drop)]
pub enum CloseFault {
    /// There is not exactly one seat per processor.
    SeatMissing,
    /// The index of the first volume whose `before` is not the number of records in the volumes
    /// before it. If there is none, but together the volumes do not hold all sealed records, it is
    /// the number of volumes.
    WrongVolume { at: u64 },
    /// The lowest serial at which a seat's receipts differ from its processor's records, or of a
    /// record that belongs to no seat.
    Mismatch { serial: Serial },
    /// Out of memory.
    OutOfMemory,
}

/// A machine that was closed.
#[derive(Drop)]
pub struct Closed {
    /// The machine, no longer under a lock.
    pub machine: Machine,
    /// The volumes of the machine's sealed records, in order.
    pub volumes: Vec<Volume>,
    /// How many records there are, in the volumes and in the machine.
    pub records: u64,
}

/// What comes back if a machine was not closed.
#[derive(Drop)]
pub struct CloseRefused<L: Job> {
    /// Why it was not closed.
    pub fault: CloseFault,
    /// The machine under its lock.
    pub shared: Shared<L>,
    /// The seats, in the order in which they were given.
    pub seats: Vec<Seat<L>>,
    /// The volumes, in the order in which they were given.
    pub volumes: Vec<Volume>,
}

/// What comes back if a machine that was taken from its lock was not closed.
#[derive(Drop)]
pub struct NotClosed<L: Job> {
    /// Why it was not closed.
    pub fault: CloseFault,
    /// The machine.
    pub locked: Locked<L>,
    /// The seats, in the order in which they were given.
    pub seats: Vec<Seat<L>>,
    /// The volumes, in the order in which they were given.
    pub volumes: Vec<Volume>,
}

/// Closes a shared machine, if each seat's receipts are exactly its processor's records, in order,
/// and there are no other records. The records are those of the volumes, which must be all that the
/// machine sealed, then the machine's own.
///
/// Waits for nobody: no other thread has a part in the machine any more. Takes the lock off, calls
/// `Locked::close`, and puts the machine under a lock again if that fails. No contract can state
/// what is under a lock: make these three calls yourself if you need to know which machine was
/// closed.
///
/// Errors are those of `Locked::check`; each hands back the machine, all seats and all volumes.
pub fn close<L: Job>(
    alloc: Global,
    shared: Shared<L>,
    seats: Vec<Seat<L>>,
    volumes: Vec<Volume>,
) -> Result<Closed, CloseRefused<L>>
    ensures ok { IfOk result
        (λ closed. IsClosed L.layout seats.items volumes.items closed.machine closed.records) }
    ensures volumes { IfOk result (λ closed. closed.volumes.items ≡ volumes.items) }
    ensures back { IfErr result
        (λ refused. (refused.seats.items ≡ seats.items) × (refused.volumes.items ≡ volumes.items)) }
    ensures err { IfErr result (λ refused. HasCause L.layout seats.items volumes.items refused.fault) }
{
    match shared.into_locked().close(alloc, seats, volumes) {
        Ok(closed) => Ok(closed),
        Err(refused) => Err(refused.share()),
    }
}

impl<L: Job> NotClosed<L> {
    /// Puts the machine under a lock again.
    pub fn share(self) -> CloseRefused<L>
        ensures fault { result.fault ≡ self.fault }
        ensures seats { result.seats.items ≡ self.seats.items }
        ensures volumes { result.volumes.items ≡ self.volumes.items }
    {
        let NotClosed {
            fault,
            locked,
            seats,
            volumes,
        } = self;
        CloseRefused {
            fault,
            shared: Shared::from_locked(locked),
            seats,
            volumes,
        }
    }
}

impl<L: Job> Locked<L> {
    /// Closes the machine, if each seat's receipts are exactly its processor's records, in order,
    /// and there are no other records. The records are those of the volumes, which must be all that
    /// the machine sealed, then the machine's own. If there are as many seats as processors, they
    /// have as many receipts as there are records, sealed ones included.
    ///
    /// Errors are those of `check`; each hands back this very machine, all seats and all volumes.
    pub fn close(
        self,
        alloc: Global,
        seats: Vec<Seat<L>>,
        volumes: Vec<Volume>,
    ) -> Result<Closed, NotClosed<L>>
        ensures ok { IfOk result
            (λ closed. IsClosed L.layout seats.items volumes.items closed.machine closed.records) }
        ensures machine { IfOk result (λ closed. closed.machine ≡ self.machine) }
        ensures volumes { IfOk result (λ closed. closed.volumes.items ≡ volumes.items) }
        ensures same { IfErr result (λ refused. refused.locked ≡ self) }
        ensures back { IfErr result
            (λ refused. (refused.seats.items ≡ seats.items) × (refused.volumes.items ≡ volumes.items)) }
        ensures err { IfErr result
            (λ refused. HasFault self.machine L.layout.cpus seats.items volumes.items refused.fault) }
        ensures counted { length seats.items ≡ L.layout.cpus → AreCounted L.layout seats.items self }
        ensures shown { IsShared L.layout self }
    {
        let mut locked = self;
        let mut seats = seats;
        // No effect at run time: the proof learns from this call what the seats counted.
        audit_all(&mut locked, &mut seats);
        match locked.check(alloc, &seats, &volumes) {
            Ok(records) => Ok(Closed {
                machine: locked.into_machine(),
                volumes,
                records,
            }),
            Err(fault) => Err(NotClosed {
                fault,
                locked,
                seats,
                volumes,
            }),
        }
    }

    /// Checks that the machine may be closed. There must be exactly one seat per processor, and the
    /// volumes must be all that the machine sealed. Each seat's receipts must be exactly its
    /// processor's records, in the volumes and then in the machine. Returns how many records there
    /// are in all. Takes time linear in the records and receipts if the seats are in processor
    /// order, and quadratic in the seats. Memory is one mark per seat.
    ///
    /// Errors, checked in this order: `SeatMissing`, `WrongVolume`, `Mismatch`. `OutOfMemory` may
    /// replace `Mismatch` or `Ok`.
    pub fn check(
        &self,
        alloc: Global,
        seats: &Vec<Seat<L>>,
        volumes: &Vec<Volume>,
    ) -> Result<u64, CloseFault>
        ensures ok { IfOk result
            (λ records. IsChecked self.now.machine L.layout.cpus seats.now.items volumes.now.items records) }
        ensures err { IfErr result
            (HasFault self.now.machine L.layout.cpus seats.now.items volumes.now.items) }
        ensures shown { IsShared L.layout self.now }
    {
        let machine = self.machine();
        if !has_each(seats, self.cpus()) {
            return Err(CloseFault::SeatMissing);
        }
        if let Some(at) = wrong_volume(volumes, machine.sealed()) {
            return Err(CloseFault::WrongVolume { at });
        }
        match compare(alloc, volumes, machine, seats) {
            Ok(None) => Ok(machine.last_serial()),
            Ok(Some(serial)) => Err(CloseFault::Mismatch { serial }),
            Err(AllocError) => Err(CloseFault::OutOfMemory),
        }
    }
}
