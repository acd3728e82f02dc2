//! The search for a schedule that an aim seeks: depth first, each place once.
ghost use Rattle.std.specs.Prelude.{◌≡◌, ◌<◌, ◌+◌, ◌++◌, ◌∷◌, ◌^◌, ℕ, List, [], IfErr, IfOk, OnOk, length, option_map};
ghost use Rattle.hp_schedules.specs.Schedules.{schedule_of};
ghost use Rattle.hp_explore.specs.Aims.{IsFirstSought, IsSearchCause, IsTurnCause};
ghost use Rattle.hp_explore.specs.Searches.{HasTurned, IsArriving, IsBegun, IsLeaving, IsTrying, turns_at};
ghost use Rattle.hp_explore.specs.Settings.{setting};
ghost use Rattle.hp_explore.specs.declared.fault.FindFault.TheVariants.{Stopped};

use crate::aim::Aim;
use crate::fault::FindFault;
use crate::places::{OwnPlaces, Places};
use crate::rotation::{cpu_at, number_at};
use crate::schedule::Schedule;
use crate::turns::latest;
use crate::visited::Visited;
use crate::{ExploreFault, Path, Watch};
use hp_machine::Machine;
use hp_schedules::CallScript;
use hp_units::Cpu;
use std::alloc::{AllocError, Global};

/// The result of one step of a search.
#[derive(Clone, Copy, Drop)]
pub(crate) enum SearchTurn {
    /// The search continues.
    On,
    /// The search has come to a place from which it goes on.
    New,
    /// The search has found a schedule.
    Found,
    /// No schedule is left.
    Over,
}

/// The state of a search: a place, its schedule, the number of the call that is tried next in the
/// order of the search, and the places that it has visited.
#[derive(Drop)]
pub(crate) struct Search<'a> {
    path: Path<'a>,
    schedule: Schedule,
    next: u32,
    visited: Visited,
}

/// Returns the first schedule that meets the aim (`Aim::is_met`), or `None` if no schedule is
/// sought. The schedules are in the order of their processors, the lower one first, and a schedule
/// comes after those that continue it. Script k is that of processor k. The machine is not changed.
///
/// The search skips a place that is equivalent to a visited one, unless a script undoes steps by
/// their serials, or works on the operation of its n-th Begin (`OwnWork::Nth`). Adds to `places`
/// the number of places from which the search goes on, not counting the beginning of the scripts.
/// `watch` is called at each of these places, and may end the search.
///
/// # Errors
///
/// `HistoryFull` if the search reaches a call for which the history has no room, `OutOfMemory` if
/// memory allocation fails, `Stopped` if the watch ended the search.
pub fn first_sought<A: Aim, W: Watch>(
    alloc: Global,
    machine: &Machine,
    scripts: &[CallScript],
    aim: &mut A,
    watch: &mut W,
    places: &mut u64,
) -> Result<Option<Vec<Cpu>>, FindFault>
    requires few { length scripts.now < 2 ^ 32 }
    requires admitted { (A.shows aim.old (setting machine.now scripts.now)).admits [] }
    ensures becomes { A.becomes aim.old (setting machine.now scripts.now) aim.new }
    ensures ok { IfOk result (λ found. IsFirstSought (setting machine.now scripts.now)
        (A.shows aim.new (setting machine.now scripts.now)) (option_map (λ s. s.items) found)) }
    ensures err { IfErr result (IsSearchCause (setting machine.now scripts.now)
        (A.shows aim.new (setting machine.now scripts.now))) }
    ensures stopped { IfErr result (λ fault. fault ≡ Stopped → W.has_ended watch.new) }
{
    let processors = scripts.len() as u32;
    let mut own = OwnPlaces;
    let mut search = Search::start(alloc, machine, scripts, processors)?;
    'turns: loop {
        match search.turn(alloc, processors, 0, aim, &mut own)? {
            SearchTurn::On => {}
            SearchTurn::New => {
                *places = places.saturating_add(1);
                if !watch.goes_on(*places, search.bytes()) {
                    return Err(FindFault::Stopped);
                }
            }
            SearchTurn::Found => return Ok(Some(search.into_schedule())),
            SearchTurn::Over => return Ok(None),
        }
    }
}

impl<'a> Search<'a> {
    /// Creates a search before any call.
    pub(crate) fn start(
        alloc: Global,
        machine: &'a Machine,
        scripts: &'a [CallScript],
        processors: u32,
    ) -> Result<Search<'a>, AllocError>
        requires { processors ≡ length scripts.now }
        ensures { IfOk result (IsBegun (setting machine.now scripts.now)) }
    {
        let path = Path::start(alloc, machine, scripts)?;
        let visited = Visited::start(alloc, machine, scripts, &path, processors)?;
        Ok(Search {
            path,
            schedule: Schedule::new(alloc),
            next: 0,
            visited,
        })
    }

    /// Makes one step of the search: tries the next call of the place, or leaves the place once all
    /// have been tried. Searches with different seeds try the processors in different orders; with
    /// the seed 0, processor 0 comes first at each place, and then those above it.
    pub(crate) fn turn<A: Aim, T: Places<A>>(
        &mut self,
        alloc: Global,
        processors: u32,
        seed: u64,
        aim: &mut A,
        places: &mut T,
    ) -> Result<SearchTurn, ExploreFault>
        requires processors { processors ≡ length self.old.path.setting.scripts }
        requires schedule { self.old.schedule ≡ schedule_of self.old.path.news }
        requires trying { IsTrying (A.shows aim.old self.old.path.setting) seed self.old.path
            self.old.next self.old.visited }
        requires kept { T.keeps places.old aim.old self.old.path }
        ensures becomes { A.becomes aim.old self.old.path.setting aim.new }
        ensures ok { IfOk result (HasTurned (A.shows aim.new self.old.path.setting) seed
            (T.keeps places.new aim.new) self.old.path.setting
            (turns_at seed self.old.path self.old.next) self.new) }
        ensures err { IfErr result (λ fault. seed ≡ 0 → IsTurnCause self.old.path.setting
            (A.shows aim.new self.old.path.setting) fault) }
    {
        if self.next < processors {
            return self.down(alloc, processors, seed, aim, places);
        }
        self.path.is_played();
        if aim.is_met(alloc, &self.path, &self.schedule, processors)? {
            return Ok(SearchTurn::Found);
        }
        let turn = self.up(processors, seed, aim, places)?;
        Ok(turn)
    }

    /// Tries the next call of the place: makes it, unless the aim rules it out or the script is
    /// finished. Takes the call back if nothing that continues from the new place has to be tried.
    fn down<A: Aim, T: Places<A>>(
        &mut self,
        alloc: Global,
        processors: u32,
        seed: u64,
        aim: &A,
        places: &mut T,
    ) -> Result<SearchTurn, ExploreFault>
        requires processors { processors ≡ length self.old.path.setting.scripts }
        requires some { self.old.next < processors }
        requires schedule { self.old.schedule ≡ schedule_of self.old.path.news }
        requires trying { IsTrying (A.shows aim.now self.old.path.setting) seed self.old.path
            self.old.next self.old.visited }
        requires kept { T.keeps places.old aim.now self.old.path }
        ensures ok { IfOk result (HasTurned (A.shows aim.now self.old.path.setting) seed
            (T.keeps places.new aim.now) self.old.path.setting
            (turns_at seed self.old.path self.old.next) self.new) }
        ensures err { IfErr result (λ fault. seed ≡ 0 → IsTurnCause self.old.path.setting
            (A.shows aim.now self.old.path.setting) fault) }
    {
        self.path.is_played();
        let cpu = cpu_at(processors, seed, self.schedule.len(), self.next);
        if !aim.may_try(&self.path, &self.schedule, cpu) {
            self.next += 1;
            return Ok(SearchTurn::On);
        }
        if !self.path.forward(alloc, cpu)? {
            self.next += 1;
            return Ok(SearchTurn::On);
        }
        self.schedule.push(Cpu(cpu))?;
        self.visited.go_on(
            latest(self.path.records()),
            self.path.positions(),
            processors,
        )?;
        let turn = self.arrive(alloc, processors, seed, aim, places)?;
        Ok(turn)
    }

    /// Goes on from the place just reached. Takes the call back if nothing that continues from the
    /// place has to be tried: the aim does not admit it, or it is done or was visited.
    fn arrive<A: Aim, T: Places<A>>(
        &mut self,
        alloc: Global,
        processors: u32,
        seed: u64,
        aim: &A,
        places: &mut T,
    ) -> Result<SearchTurn, AllocError>
        requires processors { processors ≡ length self.old.path.setting.scripts }
        requires schedule { self.old.schedule ≡ schedule_of self.old.path.news }
        requires arriving { IsArriving (A.shows aim.now self.old.path.setting) seed self.old.path
            self.old.visited }
        requires kept { T.keeps places.old aim.now self.old.path }
        ensures { IfOk result (HasTurned (A.shows aim.now self.old.path.setting) seed
            (T.keeps places.new aim.now) self.old.path.setting
            (turns_at seed self.old.path 0 + 1) self.new) }
    {
        self.path.is_played();
        if !aim.admits(&self.path, &self.schedule, processors) {
            return self.up(processors, seed, aim, places);
        }
        if self
            .visited
            .look_up(alloc, &self.path, &self.schedule, processors, aim, places)?
        {
            return self.up(processors, seed, aim, places);
        }
        self.next = 0;
        Ok(SearchTurn::New)
    }

    /// Leaves the place, which is done: takes the latest call back, and moves on to the call after
    /// it. Returns `Over` if there is no call.
    fn up<A: Aim, T: Places<A>>(
        &mut self,
        processors: u32,
        seed: u64,
        aim: &A,
        places: &mut T,
    ) -> Result<SearchTurn, AllocError>
        requires processors { processors ≡ length self.old.path.setting.scripts }
        requires schedule { self.old.schedule ≡ schedule_of self.old.path.news }
        requires leaving { IsLeaving (A.shows aim.now self.old.path.setting) seed self.old.path
            self.old.visited }
        requires kept { T.keeps places.old aim.now self.old.path }
        ensures { IfOk result (λ turn. (next : ℕ) → HasTurned (A.shows aim.now self.old.path.setting) seed
            (T.keeps places.new aim.now) self.old.path.setting
            (turns_at seed self.old.path next) self.new turn) }
    {
        places.leave(aim, &self.path)?;
        self.path.is_played();
        match self.path.back() {
            Some(cpu) => {
                self.schedule.pop();
                self.visited.go_back();
                self.path.is_played();
                self.next = number_at(processors, seed, self.schedule.len(), cpu.0) + 1;
                Ok(SearchTurn::On)
            }
            None => Ok(SearchTurn::Over),
        }
    }

    /// Returns about how many bytes the visited places take.
    pub(crate) fn bytes(&self) -> u64 {
        self.visited.bytes()
    }

    /// Returns the schedule. Allocates nothing.
    fn into_schedule(self) -> Vec<Cpu>
        ensures { result.items ≡ self.entry.schedule }
    {
        let Search { schedule, .. } = self;
        schedule.into_vec()
    }
}
