//! Whether no schedule ends as wanted, by a search in several threads.
ghost use Rattle.std.specs.Prelude.{◌≡◌, ◌<◌, ◌^◌, ℕ, [], IfOk, None, Some, length, slice_get, true};
ghost use Rattle.std.specs.Thread.{IsSend, IsSync};
ghost use Rattle.hp_explore.specs.Aims.{IsDone};
ghost use Rattle.hp_explore.specs.Reaching.{IsFirstWithin};
ghost use Rattle.hp_explore.specs.Settings.{setting};
ghost use Rattle.hp_explore.specs.Withins.{aim_within};

use crate::ExploreFault;
use crate::done_places::{DonePlaces, Question};
use crate::path_keys::PathKeys;
use crate::places::SharedPlaces;
use crate::searching::{Search, SearchTurn};
use crate::walk::keeps_places;
use crate::within::Within;
use hp_machine::Machine;
use hp_questions::Wanted;
use hp_schedules::CallScript;
use std::alloc::Global;
use std::marker::Brand;
use std::sync::Wait;
use std::thread;
use std::thread::Threads;

/// Searches in `jobs` threads, and returns whether one of them came to the end of its search. Then
/// no schedule ends as wanted, and the history has room for each call. If none did, for example
/// because one found a schedule or because they had no memory left, one thread is to search anew.
///
/// Half of the memory is for the places that the threads share, and each has an equal share of the
/// other half. Returns false at once if `jobs` is below 2, or if places cannot be compared
/// (`keeps_places`).
pub(crate) fn is_absent<R: Threads + Wait + Sync>(
    rt: &R,
    alloc: Global,
    machine: &Machine,
    scripts: &[CallScript],
    wanted: &[Wanted],
    jobs: u32,
    memory: u64,
) -> bool
    requires few { length scripts.now < 2 ^ 32 }
    ensures { result ≡ true
        → IsFirstWithin (setting machine.now scripts.now) wanted.now None None }
{
    if jobs < 2 || scripts.is_empty() || !keeps_places(scripts) {
        return false;
    }
    is_over_in_one::<Brand, R>(rt, alloc, machine, scripts, wanted, jobs, memory / 2)
}

/// Searches in `jobs` threads, and returns whether one of them came to the end of its search.
fn is_over_in_one<Q: Question + Send, R: Threads + Wait + Sync>(
    rt: &R,
    alloc: Global,
    machine: &Machine,
    scripts: &[CallScript],
    wanted: &[Wanted],
    jobs: u32,
    memory: u64,
) -> bool
    requires few { length scripts.now < 2 ^ 32 }
    requires jobs { 0 < jobs }
    requires question { (Q.setting ≡ setting machine.now scripts.now) × (Q.wanted ≡ wanted.now) }
    ensures { result ≡ true → IsDone Q.setting (aim_within Q.setting Q.wanted None) [] }
{
    let Ok(done) = DonePlaces::<Q>::new(alloc, memory) else {
        return false;
    };
    let share = memory / u64::from(jobs);
    let walk = |index: usize| -> bool
        requires { IsSend Q.row × IsSync R.row × (length scripts.now < 2 ^ 32)
            × (Q.setting ≡ setting machine.now scripts.now) × (Q.wanted ≡ wanted.now) }
        ensures { result ≡ true → IsDone Q.setting (aim_within Q.setting Q.wanted None) [] }
    {
        searches_to_end(
            rt,
            alloc,
            machine,
            scripts,
            wanted,
            index as u64,
            share,
            &done,
        )
    };
    match thread::map_indices(rt, alloc, jobs as usize, &walk) {
        Ok(found) => is_one(found.as_slice()),
        Err(_refused) => false,
    }
}

/// Searches in one thread, tells the others to stop, and returns whether the search came to its
/// end.
fn searches_to_end<Q: Question, R: Wait>(
    rt: &R,
    alloc: Global,
    machine: &Machine,
    scripts: &[CallScript],
    wanted: &[Wanted],
    seed: u64,
    memory: u64,
    done: &DonePlaces<Q>,
) -> bool
    requires few { length scripts.now < 2 ^ 32 }
    requires question { (Q.setting ≡ setting machine.now scripts.now) × (Q.wanted ≡ wanted.now) }
    ensures { result ≡ true → IsDone Q.setting (aim_within Q.setting Q.wanted None) [] }
{
    let over = are_all_done(rt, alloc, machine, scripts, wanted, seed, memory, done);
    done.stop();
    match over {
        Ok(over) => over,
        Err(_fault) => false,
    }
}

/// Searches until each schedule is done with, and returns true. Returns false if it stopped before:
/// at a schedule that ends as wanted, for lack of memory, or because the threads are to stop.
fn are_all_done<Q: Question, R: Wait>(
    rt: &R,
    alloc: Global,
    machine: &Machine,
    scripts: &[CallScript],
    wanted: &[Wanted],
    seed: u64,
    memory: u64,
    done: &DonePlaces<Q>,
) -> Result<bool, ExploreFault>
    requires few { length scripts.now < 2 ^ 32 }
    requires question { (Q.setting ≡ setting machine.now scripts.now) × (Q.wanted ≡ wanted.now) }
    ensures { IfOk result (λ over. over ≡ true
        → IsDone Q.setting (aim_within Q.setting Q.wanted None) []) }
{
    let processors = scripts.len() as u32;
    let mut aim = Within {
        alloc,
        wanted,
        budget: None,
    };
    let mut places = SharedPlaces {
        rt,
        done,
        keys: PathKeys::new(alloc),
    };
    let mut search = Search::start(alloc, machine, scripts, processors)?;
    'turns: loop {
        match search.turn(alloc, processors, seed, &mut aim, &mut places)? {
            SearchTurn::On => {}
            SearchTurn::New => {
                if done.is_stopped() || search.bytes() > memory {
                    return Ok(false);
                }
            }
            SearchTurn::Found => return Ok(false),
            SearchTurn::Over => return Ok(true),
        }
    }
}

/// Returns whether one of the walks came to its end.
fn is_one(over: &[bool]) -> bool
    ensures { result ≡ true → (i : ℕ) × (slice_get over.now i ≡ Some true) }
{
    for one in over {
        if *one {
            return true;
        }
    }
    false
}
