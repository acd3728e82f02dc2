//! The lock around the machine.
ghost use Rattle.std.specs.Prelude.{◌≡◌, ◌+◌, ◌^◌, ◌<◌, Err, IfErr, IfOk, OnErr, OnOk, length};
ghost use Rattle.hp_units.specs.declared.replies.CallFault.TheVariants.{HistoryFull};
ghost use Rattle.hp_history.specs.Course.{receipt_for};
ghost use Rattle.hp_shared.specs.Shared.{IsFilled, IsFresh, IsTurn, first_seats, fulls_of};
ghost use Rattle.hp_shared.specs.Volumes.{IsSealOf};

use crate::job::{Fulls, Job, Sealed};
use crate::locked::Locked;
use crate::seat::Seat;
use hp_history::Volume;
use hp_machine::Machine;
use hp_units::{CallFault, Cpu, Event, Reply, Serial};
use std::alloc::{AllocError, Global};
use std::marker::Model;
use std::sync::ledger::{Blank, Share};
use std::sync::{Mutex, Wait};

/// A machine under a lock.
#[derive(Drop)]
pub struct Shared<L: Job> {
    locked: Mutex<Locked<L>>,
    cpus: u32,
}

impl<L: Job> Model for Shared<L> {
    ghost use Rattle.std.specs.Prelude.{◌≡◌, ℕ};

    ghost Value = { ℕ };

    ghost view = { λ s. s.cpus };

    ghost invariant = { λ s. s.cpus ≡ L.layout.cpus };
}

impl<L: Job> Shared<L> {
    /// Shares a machine that has no records and sealed nothing. Returns it with one seat per
    /// processor, in order. The ledgers of its records, of its sealed records and of the calls that
    /// find its history full have one part per processor. On an error, everything comes back.
    pub fn new(
        alloc: Global,
        records: Blank,
        sealed: Blank,
        fulls: Blank,
        machine: Machine,
    ) -> Result<(Shared<L>, Vec<Seat<L>>), (Blank, Blank, Blank, Machine)>
        requires machine { IsFresh L.layout machine }
        requires name { records.name ≡ L.name }
        requires parts { records.parts ≡ L.parts }
        requires one_each { records.parts ≡ L.layout.cpus }
        requires sealed { (sealed.name ≡ L.sealed) × (sealed.parts ≡ L.layout.cpus) }
        requires fulls { (fulls.name ≡ L.fulls) × (fulls.parts ≡ L.layout.cpus) }
        ensures seats { IfOk result (λ made. made.1.items ≡ first_seats L.layout.cpus) }
        ensures back { IfErr result
            (λ back. (back.0 ≡ records) × (back.1 ≡ sealed) × (back.2 ≡ fulls) × (back.3 ≡ machine)) }
    {
        let cpus = machine.layout().cpus();
        let Ok(mut seats) = Vec::with_capacity(alloc, cpus as usize) else {
            return Err((records, sealed, fulls, machine));
        };
        let (book, mut rest) = records.open::<L>();
        let (handed, mut left) = sealed.open::<Sealed<L>>();
        let (full, mut untold) = fulls.open::<Fulls<L>>();
        for cpu in 0..cpus {
            let share = rest.split_off(1, 0);
            let own = left.split_off(1, 0);
            let told = untold.split_off(1, 0);
            seats.push_reserved(Seat::new(alloc, Cpu(cpu), share, own, told));
        }
        let shared = Shared {
            locked: Mutex::new(Locked::new(machine, book, handed, full)),
            cpus,
        };
        Ok((shared, seats))
    }

    /// Returns the number of processors.
    pub fn cpus(&self) -> u32
        ensures { result ≡ L.layout.cpus }
    {
        self.cpus
    }

    /// Makes one call for a seat under the lock, for which it may wait. Returns the serial and the
    /// reply.
    pub(crate) fn turn(
        &self,
        rt: &impl Wait,
        alloc: Global,
        share: &mut Share<L>,
        handed: &mut Share<Sealed<L>>,
        told: &mut Share<Fulls<L>>,
        cpu: Cpu,
        event: &Event,
    ) -> Result<(Serial, Reply), CallFault>
        requires { (0 < share.old.parts) × (0 < told.old.parts) }
        ensures ok { IfOk result
            (λ answer. IsTurn L.layout cpu event.now (receipt_for event.now answer) share.new.amount) }
        ensures counted { OnOk result (share.new.amount ≡ share.old.amount + 1) }
        ensures err { OnErr result (share.new.amount ≡ share.old.amount) }
        ensures only { share.old.parts ≡ L.layout.cpus → result ≡ Err HistoryFull
            → IsFilled L.layout handed.old.amount share.old.amount }
        ensures parts { share.new.parts ≡ share.old.parts }
        ensures handed { (handed.new.amount ≡ handed.old.amount)
            × (handed.new.parts ≡ handed.old.parts) }
        ensures told { (told.new.amount ≡ told.old.amount + fulls_of result)
            × (told.new.parts ≡ told.old.parts) }
        ensures late { IfOk result (λ answer. 0 < told.old.amount → L.layout.history < answer.0) }
    {
        self.locked
            .lock(rt)
            .turn(alloc, share, handed, told, cpu, event)
    }

    /// Seals the machine under the lock, for which it may wait.
    pub(crate) fn seal(
        &self,
        rt: &impl Wait,
        alloc: Global,
        share: &mut Share<L>,
        handed: &mut Share<Sealed<L>>,
    ) -> Result<Volume, AllocError>
        requires { 0 < handed.old.parts }
        ensures ok { IfOk result (λ volume. IsSealOf L.layout volume share.new.amount) }
        ensures counted { IfOk result
            (λ volume. handed.new.amount ≡ handed.old.amount + length volume.records) }
        ensures few { OnOk result (handed.new.amount < 2 ^ 64) }
        ensures err { OnErr result (handed.new.amount ≡ handed.old.amount) }
        ensures share { (share.new.amount ≡ share.old.amount) × (share.new.parts ≡ share.old.parts) }
        ensures parts { handed.new.parts ≡ handed.old.parts }
    {
        self.locked.lock(rt).seal(alloc, share, handed)
    }

    /// Puts a machine that was taken from its lock under a lock again.
    pub fn from_locked(locked: Locked<L>) -> Shared<L> {
        let cpus = locked.cpus();
        Shared {
            locked: Mutex::new(locked),
            cpus,
        }
    }

    /// Takes the lock off. Waits for nobody, since nobody else has a part in the machine.
    pub fn into_locked(self) -> Locked<L> {
        let Shared { locked, cpus: _ } = self;
        locked.into_inner()
    }
}
