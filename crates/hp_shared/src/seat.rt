//! A processor's access to the shared machine.
ghost use Rattle.std.specs.Prelude.{◌≡◌, ◌+◌, ◌<◌, [], Err, IfErr, IfOk, OnErr, length, vec_capacity};
ghost use Rattle.hp_units.specs.declared.replies.CallFault.TheVariants.{HistoryFull};
ghost use Rattle.hp_shared.specs.Closing.{AreCounted, AreReached, handed_in, receipts_in};
ghost use Rattle.hp_shared.specs.Shared.{HasReached, IsSeatCall, MayBeFull, first_seat, left_by};
ghost use Rattle.hp_shared.specs.Volumes.{IsSealOf, sealed_by};

use crate::job::{Fulls, Job, Sealed};
use crate::locked::Locked;
use crate::shared::Shared;
use hp_history::Volume;
use hp_units::{CallFault, Cpu, Event, Receipt, Reply};
use std::alloc::{AllocError, Global};
use std::marker::Model;
use std::sync::Wait;
use std::sync::ledger::Share;

/// A processor's only access to the shared machine. It keeps a receipt of each of its calls. For
/// the proof it also holds its shares of three totals of the machine: receipts, records that seals
/// handed out, and calls that found the history full. Shares take no memory; `handed` has the
/// second count at run time.
#[derive(Drop)]
pub struct Seat<L: Job> {
    cpu: Cpu,
    receipts: Vec<Receipt>,
    share: Share<L>,
    sealed: Share<Sealed<L>>,
    handed: u64,
    fulls: Share<Fulls<L>>,
}

impl<L: Job> Model for Seat<L> {
    ghost use Rattle.std.specs.Prelude.{◌≡◌, ◌<◌, length};
    ghost use Rattle.hp_shared.specs.Shared.{SeatValue};

    ghost Value = { SeatValue };

    ghost view = { λ s.
        record {
          cpu = s.cpu;
          receipts = s.receipts.items;
          sealed = s.sealed.amount;
          fulls = s.fulls.amount;
        } };

    ghost invariant = { λ s.
        (s.cpu < L.layout.cpus) × (s.share.parts ≡ 1) × (s.share.amount ≡ length s.receipts.items)
        × (s.sealed.parts ≡ 1) × (s.sealed.amount ≡ s.handed) × (s.fulls.parts ≡ 1) };
}

impl<L: Job> Seat<L> {
    /// Returns a seat whose shares count nothing yet.
    pub(crate) fn new(
        alloc: Global,
        cpu: Cpu,
        share: Share<L>,
        sealed: Share<Sealed<L>>,
        fulls: Share<Fulls<L>>,
    ) -> Seat<L>
        requires cpu { cpu < L.layout.cpus }
        requires share { (share.parts ≡ 1) × (share.amount ≡ 0) }
        requires sealed { (sealed.parts ≡ 1) × (sealed.amount ≡ 0) }
        requires fulls { (fulls.parts ≡ 1) × (fulls.amount ≡ 0) }
        ensures { result ≡ first_seat cpu }
    {
        Seat {
            cpu,
            receipts: Vec::new(alloc),
            share,
            sealed,
            handed: 0,
            fulls,
        }
    }

    /// Makes one call for the seat's processor. Returns the reply, and keeps the receipt. Reserves
    /// room for the receipt and copies the event; then takes the lock once, and may wait for it.
    ///
    /// Errors: `HistoryFull` as from `Locked::turn` (on a machine with one processor, only once the
    /// seat's unsealed receipts reach the limit), and `OutOfMemory`. On an error, nothing changes
    /// but the seat's count of calls that found the history full.
    pub fn call(
        &mut self,
        rt: &impl Wait,
        alloc: Global,
        shared: &Shared<L>,
        event: &Event,
    ) -> Result<Reply, CallFault>
        ensures ok { IfOk result (λ reply. IsSeatCall L.layout self.old event.now reply self.new) }
        ensures err { IfErr result (λ fault. self.new ≡ left_by self.old fault) }
        ensures only { result ≡ Err HistoryFull → MayBeFull L.layout self.old }
    {
        let Ok(()) = self.receipts.reserve(1) else {
            return Err(CallFault::OutOfMemory);
        };
        let Ok(asked) = event.copy(alloc) else {
            return Err(CallFault::OutOfMemory);
        };
        match shared.turn(
            rt,
            alloc,
            &mut self.share,
            &mut self.sealed,
            &mut self.fulls,
            self.cpu,
            event,
        ) {
            Ok(answer) => {
                self.receipts.push_reserved(Receipt {
                    serial: answer.0,
                    event: asked,
                    reply: answer.1,
                });
                Ok(answer.1)
            }
            Err(fault) => Err(fault),
        }
    }

    /// Reserves room for `receipts` more receipts, so that keeping them does not reallocate.
    pub fn reserve(&mut self, receipts: usize) -> Result<(), AllocError>
        ensures { self.new ≡ self.old }
    {
        self.receipts.reserve(receipts)
    }

    /// Hands out the shared machine's records since its last seal, with the state before them.
    /// Takes the lock once, and may wait for it. Makes no record and no receipt. On an error, the
    /// machine stays as it was.
    pub fn seal(
        &mut self,
        rt: &impl Wait,
        alloc: Global,
        shared: &Shared<L>,
    ) -> Result<Volume, AllocError>
        ensures ok { IfOk result (λ volume. IsSealOf L.layout volume (length self.old.receipts)) }
        ensures seat { IfOk result (λ volume. self.new ≡ sealed_by self.old volume) }
        ensures err { OnErr result (self.new ≡ self.old) }
    {
        let volume = shared.seal(rt, alloc, &mut self.share, &mut self.sealed)?;
        self.handed += volume.records.as_slice().len() as u64;
        Ok(volume)
    }

    /// Returns the processor's number, which is below the layout's number of processors.
    pub fn cpu(&self) -> Cpu
        ensures { result ≡ self.now.cpu }
    {
        self.cpu
    }

    /// Returns the receipts of the seat's calls, oldest first.
    pub fn receipts(&self) -> &[Receipt]
        ensures { result.now ≡ self.now.receipts }
    {
        self.receipts.as_slice()
    }
}

/// Called for its contract: if there are as many seats as processors, their counts add up to all
/// records and to all sealed records. If a seat found the history full, the records reach the
/// limit, or no serial is left. Has no effect.
pub(crate) fn audit_all<L: Job>(locked: &mut Locked<L>, seats: &mut Vec<Seat<L>>)
    ensures locked { locked.new ≡ locked.old }
    ensures seats { seats.new.items ≡ seats.old.items }
    ensures all { length seats.old.items ≡ L.layout.cpus
        → AreCounted L.layout seats.old.items locked.old }
{
    if seats.len() != locked.cpus() as usize {
        return;
    }
    let Some(seat) = seats.pop() else {
        return;
    };
    let mut seat = seat;
    audit_first(locked, &mut seat, seats);
    seats.push_reserved(seat);
}

/// Called for its contract: how the counts of a seat and the others add up. Has no effect.
fn audit_first<L: Job>(locked: &mut Locked<L>, seat: &mut Seat<L>, others: &mut Vec<Seat<L>>)
    ensures locked { locked.new ≡ locked.old }
    ensures seat { seat.new ≡ seat.old }
    ensures others { others.new.items ≡ others.old.items }
    ensures room { vec_capacity others.new ≡ vec_capacity others.old }
    ensures total { length others.old.items + 1 ≡ L.layout.cpus
        → receipts_in others.old.items + length seat.old.receipts ≡ locked.old.total }
    ensures sealed { length others.old.items + 1 ≡ L.layout.cpus
        → handed_in others.old.items + seat.old.sealed ≡ locked.old.machine.before }
    ensures own { HasReached L.layout locked.old.total seat.old }
    ensures reached { AreReached L.layout others.old.items locked.old.total }
{
    let mut share = seat.share.empty();
    let mut handed = seat.sealed.empty();
    audit_beside(locked, seat, others, &mut share, &mut handed);
}

/// Called for its contract: how the counts of a seat, the others and two more shares add up. Has no
/// effect.
#[cycle(audits)]
fn audit_beside<L: Job>(
    locked: &mut Locked<L>,
    seat: &mut Seat<L>,
    others: &mut Vec<Seat<L>>,
    share: &mut Share<L>,
    handed: &mut Share<Sealed<L>>,
)
    requires share { share.old.parts ≡ 0 → share.old.amount ≡ 0 }
    requires handed { handed.old.parts ≡ 0 → handed.old.amount ≡ 0 }
    ensures locked { locked.new ≡ locked.old }
    ensures seat { seat.new ≡ seat.old }
    ensures others { others.new.items ≡ others.old.items }
    ensures room { vec_capacity others.new ≡ vec_capacity others.old }
    ensures share { (share.new.parts ≡ share.old.parts) × (share.new.amount ≡ share.old.amount) }
    ensures handed { (handed.new.parts ≡ handed.old.parts) × (handed.new.amount ≡ handed.old.amount) }
    ensures total { length others.old.items + 1 + share.old.parts ≡ L.layout.cpus
        → receipts_in others.old.items + length seat.old.receipts + share.old.amount ≡ locked.old.total }
    ensures sealed { length others.old.items + 1 + handed.old.parts ≡ L.layout.cpus
        → handed_in others.old.items + seat.old.sealed + handed.old.amount ≡ locked.old.machine.before }
    ensures own { HasReached L.layout locked.old.total seat.old }
    ensures reached { AreReached L.layout others.old.items locked.old.total }
{
    locked.audit_full(&mut seat.fulls);
    let own = seat.receipts.len() as u64;
    let count = seat.handed;
    seat.share.give(share, 1, own);
    seat.sealed.give(handed, 1, count);
    audit_others(locked, others, share, handed);
    share.give(&mut seat.share, 1, own);
    handed.give(&mut seat.sealed, 1, count);
}

/// Called for its contract: how the counts of seats and two more shares add up. Has no effect.
#[cycle(audits)]
fn audit_others<L: Job>(
    locked: &mut Locked<L>,
    seats: &mut Vec<Seat<L>>,
    share: &mut Share<L>,
    handed: &mut Share<Sealed<L>>,
)
    requires share { share.old.parts ≡ 0 → share.old.amount ≡ 0 }
    requires handed { handed.old.parts ≡ 0 → handed.old.amount ≡ 0 }
    ensures locked { locked.new ≡ locked.old }
    ensures seats { seats.new.items ≡ seats.old.items }
    ensures room { vec_capacity seats.new ≡ vec_capacity seats.old }
    ensures share { (share.new.parts ≡ share.old.parts) × (share.new.amount ≡ share.old.amount) }
    ensures handed { (handed.new.parts ≡ handed.old.parts) × (handed.new.amount ≡ handed.old.amount) }
    ensures total { length seats.old.items + share.old.parts ≡ L.layout.cpus
        → receipts_in seats.old.items + share.old.amount ≡ locked.old.total }
    ensures sealed { length seats.old.items + handed.old.parts ≡ L.layout.cpus
        → handed_in seats.old.items + handed.old.amount ≡ locked.old.machine.before }
    ensures reached { AreReached L.layout seats.old.items locked.old.total }
{
    let Some(seat) = seats.pop() else {
        return locked.audit(share, handed);
    };
    let mut seat = seat;
    audit_beside(locked, &mut seat, seats, share, handed);
    seats.push_reserved(seat);
}
