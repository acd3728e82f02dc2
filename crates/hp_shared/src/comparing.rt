//! Compares all seats' receipts with all records, in one pass over the records and one over the
//! receipts.
ghost use Rattle.std.specs.Prelude.{ℕ, ◌≡◌, ◌<◌, ◌^◌, ◌∷◌, [], true, false, IfOk, IfSome, IfNone, length, vec_len};
ghost use Rattle.hp_shared.specs.Marks.{AreMarkedOn, AreMarks, AreStrays, HasRoom};
ghost use Rattle.hp_shared.specs.Comparing.{HasEach, IsCompared, IsOutcome, IsSeatAt, IsSeatOf, IsTwinless, IsUnseated, StraysHere};
ghost use Rattle.hp_history.specs.Volumes.{records_in};
ghost use Rattle.hp_shared.specs.Volumes.{ReachSealed, all_records, sealed_records};

use crate::job::Job;
use crate::marks::{Compared, lower};
use crate::seat::Seat;
use hp_history::Volume;
use hp_machine::Machine;
use hp_units::{Cpu, Record, Serial};
use std::alloc::{AllocError, Global};

/// Returns whether there is exactly one seat per processor, in any order.
pub fn has_each<L: Job>(seats: &Vec<Seat<L>>, cpus: u32) -> bool
    ensures each { result ≡ true → HasEach cpus seats.now.items }
    ensures missing { result ≡ false → HasEach cpus seats.now.items → ⊥ }
{
    if seats.len() != cpus as usize {
        return false;
    }
    for place in 0..seats.len() {
        if seats[place].cpu().0 >= cpus || has_twin(seats, place) {
            return false;
        }
    }
    true
}

/// Returns whether another seat has the same processor as the seat with index `place`.
fn has_twin<L: Job>(seats: &Vec<Seat<L>>, place: usize) -> bool
    requires { place < vec_len seats.now }
    ensures alone { result ≡ false → IsTwinless seats.now.items place }
    ensures twin { result ≡ true → IsTwinless seats.now.items place → ⊥ }
{
    let cpu = seats[place].cpu();
    for other in 0..seats.len() {
        if other != place && seats[other].cpu() == cpu {
            return true;
        }
    }
    false
}

/// Returns the index of a processor's seat. Tries the processor's number first: seats are usually
/// in the order of the processors.
fn place_of<L: Job>(seats: &Vec<Seat<L>>, cpu: Cpu) -> Option<usize>
    ensures found { IfSome result (λ place. IsSeatAt seats.now.items cpu place) }
    ensures none { IfNone result (IsUnseated seats.now.items cpu) }
{
    let own = cpu.0 as usize;
    if own < seats.len() && seats[own].cpu() == cpu {
        return Some(own);
    }
    for place in 0..seats.len() {
        if seats[place].cpu() == cpu {
            return Some(place);
        }
    }
    None
}

/// Compares the receipts of all seats, no two of which have the same processor, with all records.
/// These are the records of the volumes, which are all that the machine sealed, and then the
/// machine's own. Returns `None` if each seat's receipts are its processor's records and there are
/// no others; otherwise the lowest serial at which they differ.
pub fn compare<L: Job>(
    alloc: Global,
    volumes: &Vec<Volume>,
    machine: &Machine,
    seats: &Vec<Seat<L>>,
) -> Result<Option<Serial>, AllocError>
    requires apart { (place : ℕ) → IsTwinless seats.now.items place }
    requires reach { ReachSealed volumes.now.items machine.now.before }
    ensures { IfOk result (IsCompared (all_records volumes.now.items machine.now) seats.now.items) }
{
    // No effect at run time: from this call the proof reads the bound on the number of all records.
    let _ = machine.last_serial();
    let mut marks = vec![in alloc; Compared::start(); seats.len()]?;
    let sealed = mark_volumes(seats, &mut marks, volumes);
    let latest = mark_records(seats, &mut marks, machine.history());
    let strays = lower(sealed, latest);
    let mut lowest = strays;
    for place in 0..seats.len() {
        lowest = lower(lowest, marks[place].finish(seats[place].receipts()));
    }
    Ok(lowest)
}

/// Compares the records of volumes, before any others, with the receipts of their seats. Returns
/// the lowest serial of a record that belongs to no seat.
fn mark_volumes<L: Job>(
    seats: &Vec<Seat<L>>,
    marks: &mut Vec<Compared>,
    volumes: &Vec<Volume>,
) -> Option<Serial>
    requires apart { (place : ℕ) → IsTwinless seats.now.items place }
    requires few { records_in volumes.now.items < 2 ^ 64 }
    requires start { AreMarks [] seats.now.items marks.old.items }
    ensures marks { AreMarks (sealed_records volumes.now.items) seats.now.items marks.new.items }
    ensures len { vec_len marks.new ≡ vec_len marks.old }
    ensures strays { AreStrays (sealed_records volumes.now.items) seats.now.items result }
{
    let mut lowest = None;
    for at in 0..volumes.len() {
        lowest = lower(
            lowest,
            mark_records(seats, marks, volumes[at].records.as_slice()),
        );
    }
    lowest
}

/// Compares more records, each with the next receipt of its seat. Returns the lowest serial of a
/// record that belongs to no seat.
fn mark_records<L: Job>(
    seats: &Vec<Seat<L>>,
    marks: &mut Vec<Compared>,
    records: &[Record],
) -> Option<Serial>
    requires apart { (place : ℕ) → IsTwinless seats.now.items place }
    requires room { HasRoom (length records.now) seats.now.items marks.old.items }
    ensures marks { AreMarkedOn records.now seats.now.items marks.old.items marks.new.items }
    ensures len { vec_len marks.new ≡ vec_len marks.old }
    ensures strays { AreStrays records.now seats.now.items result }
{
    let mut lowest = None;
    for at in 0..records.len() {
        lowest = lower(lowest, mark_record(seats, marks, &records[at]));
    }
    lowest
}

/// Compares one more record with the next receipt of its seat. Returns the record's serial if it
/// belongs to no seat.
fn mark_record<L: Job>(
    seats: &Vec<Seat<L>>,
    marks: &mut Vec<Compared>,
    latest: &Record,
) -> Option<Serial>
    requires apart { (place : ℕ) → IsTwinless seats.now.items place }
    requires room { HasRoom 1 seats.now.items marks.old.items }
    ensures marks { AreMarkedOn (latest.now ∷ []) seats.now.items marks.old.items marks.new.items }
    ensures len { vec_len marks.new ≡ vec_len marks.old }
    ensures stray { IsOutcome (IsSeatOf seats.now.items latest.now.cpu)
        (StraysHere seats.now.items latest.now) result }
{
    match place_of(seats, latest.cpu) {
        Some(place) => {
            marks[place] = marks[place].step(seats[place].receipts(), latest);
            None
        }
        None => Some(latest.serial),
    }
}
