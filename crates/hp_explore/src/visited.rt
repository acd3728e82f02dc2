//! The places that a search has visited, each by its key.
ghost use Rattle.std.specs.Prelude.{◌≡◌, ◌++◌, ◌∷◌, ℕ, List, IfOk, OnOk, Some, [], length, slice_get, true};
ghost use Rattle.hp_units.specs.History.{effect_of};
ghost use Rattle.hp_units.specs.declared.replies.Record.{Record as NewRecord};
ghost use Rattle.hp_laws.specs.Numberings.{number_of};
ghost use Rattle.hp_schedules.specs.Alike.{AreMergeable, leaves_steps};
ghost use Rattle.hp_schedules.specs.Cursors.{AreCursors};
ghost use Rattle.hp_schedules.specs.Schedules.{Setting, schedule_of};
ghost use Rattle.hp_states.specs.Stops.{AreSameStops, KeepStops};
ghost use Rattle.hp_explore.specs.Settings.{setting};
ghost use Rattle.hp_explore.specs.Aims.{AreSteered};
ghost use Rattle.hp_explore.specs.Visited.{AreFollowed, ArePlaceNumbers, IsWritten};
ghost use Rattle.hp_explore.specs.LookedUp.{IsLookedUp};
ghost use Rattle.hp_states.specs.Interned.{KeepNumbers};

use crate::aim::Aim;
use crate::latest_ops::LatestOps;
use crate::path::Path;
use crate::places::Places;
use crate::schedule::Schedule;
use crate::walk::keeps_places;
use hp_machine::Machine;
use hp_schedules::{CallScript, Positions, greatest_named, is_closed};
use hp_states::{PlaceCode, PlaceSet, Stops};
use hp_units::{Record, Serial};
use std::alloc::{AllocError, Global};

/// The keys of the places that a search has visited, and the numbers of the place where it is.
///
/// Two places with the same key continue alike: with the same calls, and the aim seeks the same
/// continuations. So only one of them is tried. In keys, an operation in `latest` that is above
/// `fixed` has a number that depends only on its processor, since it does not matter when it began.
/// `numbers` is what was written last, and so is `key`, unless `Places` has it. If `is_on` is
/// false, no place is ever kept.
pub(crate) struct Visited {
    is_on: bool,
    fixed: Serial,
    latest: LatestOps,
    stops: Stops,
    keys: PlaceSet,
    numbers: Vec<u32>,
    key: PlaceCode,
}

/// Keeps callers from proving again how each field is dropped.
impl Drop for Visited {
    fn drop(self) {
        let Visited {
            is_on: _,
            fixed: _,
            latest: _latest,
            stops: _stops,
            keys: _keys,
            numbers: _,
            key: _key,
        } = self;
    }
}

impl Visited {
    /// Creates the table for a search that is at the beginning of `path`, before any call.
    pub(crate) fn start(
        alloc: Global,
        machine: &Machine,
        scripts: &[CallScript],
        path: &Path<'_>,
        processors: u32,
    ) -> Result<Visited, AllocError>
        requires begun { path.now ≡ record { setting = setting machine.now scripts.now; news = [] } }
        requires processors { processors ≡ length scripts.now }
        ensures none { IfOk result (λ visited. visited.keys ≡ []) }
        ensures mergeable { IfOk result (λ visited. visited.is_on ≡ true → AreMergeable scripts.now) }
        ensures way { IfOk result (λ visited. AreFollowed (setting machine.now scripts.now) [] visited) }
        ensures base { IfOk result (λ visited. KeepNumbers ([] ∷ []) visited.stops.lists) }
    {
        let is_on = keeps_places(scripts);
        let fixed = greatest_named(scripts);
        let latest = LatestOps::start(alloc, path.positions(), processors)?;
        let mut stops = Stops::start(alloc, is_closed(machine.history()));
        stops.number_state(alloc, path.memory(), fixed, latest.here())?;
        Ok(Visited {
            is_on,
            fixed,
            latest,
            stops,
            keys: PlaceSet::new(alloc),
            numbers: Vec::new(alloc),
            key: PlaceCode::new(alloc),
        })
    }

    /// Moves on to the place after the latest call. `positions` are those of the processors there.
    pub(crate) fn go_on(
        &mut self,
        latest: &Record,
        positions: &Positions,
        processors: u32,
    ) -> Result<(), AllocError>
        requires way { (g : Setting) × (news : List NewRecord) × AreFollowed g news self.old }
        requires processors { processors ≡ length positions.now.cursors.items }
        ensures same { (self.new.is_on ≡ self.old.is_on) × (self.new.keys ≡ self.old.keys) }
        ensures kept { KeepStops self.old.stops self.new.stops }
        ensures ok { OnOk result ((g : Setting) (news : List NewRecord) → AreFollowed g news self.old
            → (self.old.is_on ≡ true → leaves_steps (effect_of latest.now.event) ≡ true)
            → AreCursors g (news ++ latest.now ∷ []) positions.now.cursors.items
            → AreFollowed g (news ++ latest.now ∷ []) self.new) }
    {
        if !self.is_on {
            return Ok(());
        }
        self.stops.go_on(latest, self.fixed, self.latest.here())?;
        self.latest.go_on(latest, positions, processors)?;
        Ok(())
    }

    /// Moves back to the place before the latest call.
    pub(crate) fn go_back(&mut self)
        ensures same { (self.new.is_on ≡ self.old.is_on) × (self.new.keys ≡ self.old.keys) }
        ensures kept { AreSameStops self.old.stops self.new.stops }
        ensures back { (g : Setting) (news : List NewRecord) (r : NewRecord)
            → AreFollowed g (news ++ r ∷ []) self.old → AreFollowed g news self.new }
    {
        if self.is_on {
            self.stops.go_back();
            self.latest.go_back();
        }
    }

    /// Returns whether the place is done or was visited: a place with the same key is found
    /// (`Places::look_up`). If not, keeps the key, unless the place has none.
    pub(crate) fn look_up<A: Aim, T: Places<A>>(
        &mut self,
        alloc: Global,
        path: &Path<'_>,
        schedule: &Schedule,
        processors: u32,
        aim: &A,
        places: &mut T,
    ) -> Result<bool, AllocError>
        requires processors { processors ≡ length path.now.setting.scripts }
        requires schedule { schedule.now ≡ schedule_of path.now.news }
        requires admitted { (A.shows aim.now path.now.setting).admits schedule.now }
        requires way { AreFollowed path.now.setting path.now.news self.old }
        requires base { KeepNumbers ([] ∷ []) self.old.stops.lists }
        requires places { T.keeps places.old aim.now path.now }
        ensures on { OnOk result (self.new.is_on ≡ self.old.is_on) }
        ensures kept { OnOk result (KeepStops self.old.stops self.new.stops) }
        ensures way { OnOk result (AreFollowed path.now.setting path.now.news self.new) }
        ensures ok { IfOk result (IsLookedUp path.now.setting (A.shows aim.now path.now.setting)
            path.now.news self.old self.new) }
        ensures places { OnOk result (T.keeps places.new aim.now path.now) }
    {
        if !self.is_on {
            return Ok(false);
        }
        if !self.write_key(path, schedule, processors, aim)? {
            return Ok(false);
        }
        let is_common = self.is_common();
        if places.look_up(alloc, aim, path, is_common, &mut self.keys, &mut self.key)? {
            return Ok(true);
        }
        self.number_before_begin(alloc, path)?;
        Ok(false)
    }

    /// Writes the key of the place, and returns whether it has one. A place has none if it is
    /// unknown which operations a Cancel can take back there, or if a number does not fit 32 bits.
    fn write_key<A: Aim>(
        &mut self,
        path: &Path<'_>,
        schedule: &Schedule,
        processors: u32,
        aim: &A,
    ) -> Result<bool, AllocError>
        requires processors { processors ≡ length path.now.setting.scripts }
        requires schedule { schedule.now ≡ schedule_of path.now.news }
        requires admitted { (A.shows aim.now path.now.setting).admits schedule.now }
        requires way { AreFollowed path.now.setting path.now.news self.old }
        requires on { self.old.is_on ≡ true }
        ensures same { (self.new.is_on ≡ self.old.is_on) × (self.new.stops ≡ self.old.stops)
            × (self.new.keys ≡ self.old.keys) }
        ensures way { AreFollowed path.now.setting path.now.news self.new }
        ensures ok { IfOk result (λ has. has ≡ true → IsWritten path.now.setting
            (A.shows aim.now path.now.setting) self.new.stops path.now.news self.new.numbers.items
            self.new.key) }
    {
        if !self.write_numbers(path, schedule, processors, aim)? {
            return Ok(false);
        }
        let numbers = self.numbers.as_slice();
        self.key
            .write(numbers, path.memory(), self.fixed, self.latest.here())?;
        Ok(true)
    }

    /// Returns whether the key means the same in all searches of these scripts by the same aim. The
    /// first number is that of the list of operations that a Cancel can take back: 0 if there are
    /// none.
    fn is_common(&self) -> bool
        ensures { result ≡ true → slice_get self.now.numbers.items 0 ≡ Some 0 }
    {
        match self.numbers.first() {
            Some(number) => *number == 0,
            None => false,
        }
    }

    /// Numbers the state at the place if a Begin may come next.
    ///
    /// A Begin needs the number of the state before it. Without that number, later places would
    /// have no keys, and be walked again.
    fn number_before_begin(&mut self, alloc: Global, path: &Path<'_>) -> Result<(), AllocError>
        requires way { AreFollowed path.now.setting path.now.news self.old }
        requires on { self.old.is_on ≡ true }
        ensures same { (self.new.is_on ≡ self.old.is_on) × (self.new.keys ≡ self.old.keys) }
        ensures kept { KeepStops self.old.stops self.new.stops }
        ensures way { AreFollowed path.now.setting path.now.news self.new }
    {
        if path.positions().may_begin(path.scripts()) {
            self.stops
                .number_state(alloc, path.memory(), self.fixed, self.latest.here())?;
        }
        Ok(())
    }

    /// Writes the numbers of the place, and returns whether it has them.
    fn write_numbers<A: Aim>(
        &mut self,
        path: &Path<'_>,
        schedule: &Schedule,
        processors: u32,
        aim: &A,
    ) -> Result<bool, AllocError>
        requires processors { processors ≡ length path.now.setting.scripts }
        requires schedule { schedule.now ≡ schedule_of path.now.news }
        requires admitted { (A.shows aim.now path.now.setting).admits schedule.now }
        requires way { AreFollowed path.now.setting path.now.news self.old }
        requires on { self.old.is_on ≡ true }
        ensures same { (self.new.is_on ≡ self.old.is_on) × (self.new.stops ≡ self.old.stops)
            × (self.new.keys ≡ self.old.keys) }
        ensures way { AreFollowed path.now.setting path.now.news self.new }
        ensures ok { IfOk result (λ has. has ≡ true → ArePlaceNumbers path.now.setting
            (A.shows aim.now path.now.setting) self.new.stops path.now.news self.new.numbers.items) }
    {
        self.numbers.clear();
        if !self.stops.push_openings(&mut self.numbers)? {
            return Ok(false);
        }
        if !push_all_steering(
            path.positions(),
            path.scripts(),
            path.records(),
            processors,
            self.fixed,
            self.latest.here(),
            &mut self.numbers,
        )? {
            return Ok(false);
        }
        if !aim.push_marks(path, schedule, processors, &mut self.numbers)? {
            return Ok(false);
        }
        Ok(true)
    }

    /// Returns about how many bytes the states and the keys take.
    pub(crate) fn bytes(&self) -> u64 {
        self.stops.size().saturating_add(self.keys.size())
    }
}

/// Appends the numbers of each processor's position (`push_steering`), from processor 0 on. Returns
/// whether each fits 32 bits; if not, some are missing.
fn push_all_steering(
    positions: &Positions,
    scripts: &[CallScript],
    news: &[Record],
    processors: u32,
    fixed: Serial,
    latest: &[Serial],
    numbers: &mut Vec<u32>,
) -> Result<bool, AllocError>
    requires scripts { processors ≡ length scripts.now }
    requires cursors { processors ≡ length positions.now.cursors.items }
    ensures { IfOk result (λ fit. fit ≡ true → (part : List ℕ)
        × (numbers.new.items ≡ numbers.old.items ++ part)
        × ((g : Setting) → g.scripts ≡ scripts.now → AreCursors g news.now positions.now.cursors.items
        → AreSteered (number_of fixed latest.now) g processors news.now part)) }
{
    for cpu in 0..processors {
        if !positions.push_steering(scripts, news, cpu, fixed, latest, numbers)? {
            return Ok(false);
        }
    }
    Ok(true)
}
