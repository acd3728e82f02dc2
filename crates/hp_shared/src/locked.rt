//! What is under the lock.
ghost use Rattle.std.specs.Prelude.{◌≡◌, ◌↔◌, ◌+◌, ◌^◌, ◌≤◌, ◌<◌, Err, IfOk, OnErr, OnOk, IsTrue, length};
ghost use Rattle.hp_units.specs.declared.replies.CallFault.TheVariants.{HistoryFull};
ghost use Rattle.hp_machine.specs.Machine.{IsCalled, is_full, sealed};
ghost use Rattle.hp_history.specs.Course.{receipt_for};
ghost use Rattle.hp_history.specs.Volumes.{volume_of};
ghost use Rattle.hp_shared.specs.Shared.{IsFilled, IsFresh, IsReached, IsShared, fulls_of};

use crate::job::{Fulls, Job, Sealed};
use hp_history::Volume;
use hp_machine::Machine;
use hp_units::{CallFault, Cpu, Event, Reply, Serial};
use std::alloc::{AllocError, Global};
use std::marker::Model;
use std::sync::ledger::{Book, Share};

/// A machine of the layout of `L`, with three totals: of all records, sealed ones included, of
/// sealed records, and of calls that found the history full. Each total belongs to a ledger, which
/// has one part per processor; the seats hold the parts.
///
/// If a call found the history full, there are at least as many records as the limit, or no serial
/// is left.
#[derive(Drop)]
pub struct Locked<L: Job> {
    machine: Machine,
    book: Book<L>,
    sealed: Book<Sealed<L>>,
    fulls: Book<Fulls<L>>,
}

impl<L: Job> Model for Locked<L> {
    ghost use Rattle.std.specs.Prelude.{◌≡◌, ◌<◌};
    ghost use Rattle.hp_shared.specs.Shared.{IsReached, IsShared, LockedValue};

    ghost Value = { LockedValue };

    ghost view = { λ l. record { machine = l.machine; total = l.book.total } };

    ghost invariant = { λ l.
        IsShared L.layout (record { machine = l.machine; total = l.book.total })
        × (L.parts ≡ L.layout.cpus) × (l.sealed.total ≡ l.machine.before)
        × (0 < l.fulls.total → IsReached L.layout l.book.total) };
}

impl<L: Job> Locked<L> {
    /// Returns a machine without records. From now on the ledgers count its records, its sealed
    /// records and the calls that find its history full.
    pub(crate) fn new(
        machine: Machine,
        book: Book<L>,
        sealed: Book<Sealed<L>>,
        fulls: Book<Fulls<L>>,
    ) -> Locked<L>
        requires machine { IsFresh L.layout machine }
        requires book { (book.total ≡ 0) × (sealed.total ≡ 0) × (fulls.total ≡ 0) }
        requires one_each { L.parts ≡ L.layout.cpus }
        ensures { result ≡ record { machine = machine; total = 0 } }
    {
        machine.begins_at_boot();
        let _ = machine.history();
        Locked {
            machine,
            book,
            sealed,
            fulls,
        }
    }

    /// Makes one call of the machine for a seat, and returns the serial of its record and the
    /// reply. Waits for nobody: the caller holds the lock.
    ///
    /// A call that is recorded adds one to the total and to `share`, the seat's count of records;
    /// no such count is above the total. A call that finds the history full adds one to `told`, the
    /// seat's count of such calls. If `told` was not 0 before the call, the serial is above the
    /// limit.
    ///
    /// Errors are those of `Machine::answer`, with `HistoryFull` if and only if the history holds
    /// its limit or the last serial is 2^64 - 1. On an error, nothing but `told` changes.
    ///
    /// If `share` has the parts of all processors, it counts all records. The call then fails as
    /// `HistoryFull` only if their number, less the sealed ones in `handed`, has reached the limit,
    /// or no serial is left.
    pub fn turn(
        &mut self,
        alloc: Global,
        share: &mut Share<L>,
        handed: &mut Share<Sealed<L>>,
        told: &mut Share<Fulls<L>>,
        cpu: Cpu,
        event: &Event,
    ) -> Result<(Serial, Reply), CallFault>
        requires { (0 < share.old.parts) × (0 < told.old.parts) }
        ensures full { (result ≡ Err HistoryFull) ↔ IsTrue (is_full self.old.machine) }
        ensures only { share.old.parts ≡ L.layout.cpus → result ≡ Err HistoryFull
            → IsFilled L.layout handed.old.amount share.old.amount }
        ensures err { OnErr result ((self.new ≡ self.old) × (share.new.amount ≡ share.old.amount)) }
        ensures ok { IfOk result
            (λ answer. IsCalled self.old.machine cpu event.now (receipt_for event.now answer)
            self.new.machine) }
        ensures counted { OnOk result
            ((self.new.total ≡ self.old.total + 1) × (share.new.amount ≡ share.old.amount + 1)) }
        ensures parts { share.new.parts ≡ share.old.parts }
        ensures handed { (handed.new.amount ≡ handed.old.amount)
            × (handed.new.parts ≡ handed.old.parts) }
        ensures told { (told.new.amount ≡ told.old.amount + fulls_of result)
            × (told.new.parts ≡ told.old.parts) }
        ensures late { IfOk result (λ answer. 0 < told.old.amount → L.layout.history < answer.0) }
        ensures within { share.new.amount ≤ self.new.total }
        ensures shown { IsShared L.layout self.old }
        ensures kept { IsShared L.layout self.new }
    {
        self.book.audit(share);
        self.sealed.audit(handed);
        self.fulls.audit(told);
        let answer = self.machine.answer(alloc, cpu, event);
        count_full(&mut self.fulls, told, &answer);
        if answer.is_ok() {
            self.book.add(share, 1);
        }
        answer
    }

    /// Hands out the records since the last seal, with the state before them. Makes no record:
    /// total and share stay as they were. `handed`, the seat's share of the sealed records, rises
    /// by their number. Waits for nobody. On an error, nothing changes.
    pub fn seal(
        &mut self,
        alloc: Global,
        share: &mut Share<L>,
        handed: &mut Share<Sealed<L>>,
    ) -> Result<Volume, AllocError>
        requires { 0 < handed.old.parts }
        ensures err { OnErr result
            ((self.new ≡ self.old) × (handed.new.amount ≡ handed.old.amount)) }
        ensures counted { IfOk result
            (λ volume. handed.new.amount ≡ handed.old.amount + length volume.records) }
        ensures few { OnOk result (handed.new.amount < 2 ^ 64) }
        ensures volume { IfOk result (λ volume. volume ≡ volume_of self.old.machine) }
        ensures goes_on { OnOk result (self.new.machine ≡ sealed self.old.machine) }
        ensures total { self.new.total ≡ self.old.total }
        ensures share { (share.new.amount ≡ share.old.amount) × (share.new.parts ≡ share.old.parts) }
        ensures parts { handed.new.parts ≡ handed.old.parts }
        ensures within { share.new.amount ≤ self.new.total }
        ensures shown { IsShared L.layout self.old }
        ensures kept { IsShared L.layout self.new }
    {
        self.book.audit(share);
        self.sealed.audit(handed);
        // No effect at run time: from this call the proof reads the bound on the number of all
        // records.
        let _ = self.machine.last_serial();
        let volume = self.machine.seal(alloc)?;
        self.sealed
            .add(handed, volume.records.as_slice().len() as u64);
        Ok(volume)
    }

    /// Called for its contract: if a share has the parts of all processors, its amount is the total
    /// of its ledger. Has no effect.
    pub(crate) fn audit(&mut self, share: &mut Share<L>, handed: &mut Share<Sealed<L>>)
        ensures locked { self.new ≡ self.old }
        ensures share { (share.new.parts ≡ share.old.parts) × (share.new.amount ≡ share.old.amount) }
        ensures handed { (handed.new.parts ≡ handed.old.parts)
            × (handed.new.amount ≡ handed.old.amount) }
        ensures total { share.old.parts ≡ L.layout.cpus → share.old.amount ≡ self.old.total }
        ensures sealed { handed.old.parts ≡ L.layout.cpus
            → handed.old.amount ≡ self.old.machine.before }
    {
        self.book.audit(share);
        self.sealed.audit(handed);
    }

    /// Called for its contract: if a share counts a call that found the history full, then the
    /// number of all records has reached the limit, or no serial is left. Has no effect.
    pub(crate) fn audit_full(&mut self, told: &mut Share<Fulls<L>>)
        ensures locked { self.new ≡ self.old }
        ensures told { (told.new.parts ≡ told.old.parts) × (told.new.amount ≡ told.old.amount) }
        ensures reached { 0 < told.old.amount → IsReached L.layout self.old.total }
    {
        self.fulls.audit(told);
    }

    /// Returns the number of processors.
    pub fn cpus(&self) -> u32
        ensures is { result ≡ L.layout.cpus }
        ensures some { 1 ≤ L.layout.cpus }
    {
        self.machine.layout().cpus()
    }

    /// Returns the machine.
    pub fn machine(&self) -> &Machine
        ensures machine { result.now ≡ self.now.machine }
        ensures kept { IsShared L.layout self.now }
    {
        &self.machine
    }

    /// Returns only the machine: calls are no longer counted.
    pub fn into_machine(self) -> Machine
        ensures { result ≡ self.machine }
    {
        let Locked {
            machine,
            book: _,
            sealed: _,
            fulls: _,
        } = self;
        machine
    }
}

/// Counts a result that is `HistoryFull`.
fn count_full<L: Job>(
    fulls: &mut Book<Fulls<L>>,
    told: &mut Share<Fulls<L>>,
    answer: &Result<(Serial, Reply), CallFault>,
)
    requires { 0 < told.old.parts }
    ensures total { fulls.new.total ≡ fulls.old.total + fulls_of answer.now }
    ensures amount { told.new.amount ≡ told.old.amount + fulls_of answer.now }
    ensures parts { told.new.parts ≡ told.old.parts }
{
    match answer {
        Ok(_) => {}
        Err(CallFault::HistoryFull) => fulls.add(told, 1),
        Err(CallFault::OutOfMemory) => {}
    }
}
