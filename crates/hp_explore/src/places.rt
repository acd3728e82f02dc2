//! Where a search keeps the places with which it is done.
ghost use Rattle.std.specs.Prelude.{◌≡◌, ◌++◌, ◌∷◌, [], IfOk, List, OnOk, true};
ghost use Rattle.hp_units.specs.declared.replies.Record.{Record};
ghost use Rattle.hp_schedules.specs.Schedules.{schedule_of};
ghost use Rattle.hp_explore.specs.Aims.{IsDone};
ghost use Rattle.hp_explore.specs.LookedUp.{IsFoundHere};
ghost use Rattle.hp_explore.specs.Paths.{PathValue};
ghost use Rattle.hp_explore.specs.Visited.{IsPlaceKey, no_stops};

use crate::aim::Aim;
use crate::done_places::{DonePlaces, Question};
use crate::path::Path;
use crate::path_keys::PathKeys;
use crate::within::Within;
use hp_states::{PlaceCode, PlaceSet};
use std::alloc::{AllocError, Global};
use std::sync::Wait;

/// Decides where a search by an aim keeps the places that it has visited.
pub(crate) trait Places<A: Aim> {
    /// What is known of the table while the search is at the place of the path.
    ghost keeps: { Self → A → PathValue → Type 0 };

    /// Returns whether the place of the path is found by its key: among `own`, the search's own
    /// places, or among others that are done. If not, may keep the key, and change it. Whether the
    /// key means the same in all searches of these scripts by this aim is `is_common`.
    fn look_up(
        &mut self,
        alloc: Global,
        aim: &A,
        path: &Path<'_>,
        is_common: bool,
        own: &mut PlaceSet,
        key: &mut PlaceCode,
    ) -> Result<bool, AllocError>
        requires kept { keeps self.old aim.now path.now }
        requires common { is_common ≡ true → IsPlaceKey path.now.setting
            (A.shows aim.now path.now.setting) no_stops path.now.news key.old }
        ensures kept { OnOk result (keeps self.new aim.now path.now) }
        ensures ok { IfOk result (IsFoundHere path.now.setting (A.shows aim.now path.now.setting)
            path.now.news own.old own.new key.old) };

    /// Notes that the search is done with the place of the path, and leaves it.
    fn leave(&mut self, aim: &A, path: &Path<'_>) -> Result<(), AllocError>
        requires kept { keeps self.old aim.now path.now }
        requires done { IsDone path.now.setting (A.shows aim.now path.now.setting)
            (schedule_of path.now.news) }
        ensures { OnOk result ((p : PathValue) (r : Record)
            → path.now ≡ record { setting = p.setting; news = p.news ++ r ∷ [] }
            → keeps self.new aim.now p) };

    /// After a call, the search is at another place of the path.
    ghost longer: { (t : Self) (aim : A) (p : PathValue) (r : Record) → keeps t aim p
        → keeps t aim (record { setting = p.setting; news = p.news ++ r ∷ [] }) };

    /// The aim becomes narrower.
    ghost became: { (t : Self) (aim new : A) (p : PathValue) → A.becomes aim p.setting new
        → keeps t aim p → keeps t new p };
}

/// The places of a search that shares none.
#[derive(Clone, Copy, Drop)]
pub(crate) struct OwnPlaces;

impl<A: Aim> Places<A> for OwnPlaces {
    ghost keeps = { λ t aim p. Unit {0} };

    fn look_up(
        &mut self,
        _alloc: Global,
        _aim: &A,
        _path: &Path<'_>,
        _is_common: bool,
        own: &mut PlaceSet,
        key: &mut PlaceCode,
    ) -> Result<bool, AllocError> {
        own.find_or_add(key)
    }

    fn leave(&mut self, _aim: &A, _path: &Path<'_>) -> Result<(), AllocError> {
        Ok(())
    }

    ghost longer = { λ t aim p r kept. tt };

    ghost became = { λ t aim new p becomes kept. tt };
}

/// The places that the threads of a search share, and the keys of those on the path of one thread.
#[derive(Drop)]
pub(crate) struct SharedPlaces<'a, Q: Question, R: Wait> {
    pub(crate) rt: &'a R,
    pub(crate) done: &'a DonePlaces<Q>,
    pub(crate) keys: PathKeys,
}

impl<'a, 'b, Q: Question, R: Wait> Places<Within<'b>> for SharedPlaces<'a, Q, R> {
    ghost use Rattle.std.specs.Prelude.{◌≡◌, None};
    ghost use Rattle.std.proofs.Common.{◌∙◌};
    ghost use Rattle.hp_explore.specs.PathKeys.{ArePathKeys, keys_longer};
    ghost use Rattle.hp_explore.specs.Withins.{aim_within};

    ghost keeps = { λ t aim p. (p.setting ≡ Q.setting) × (aim.wanted.now ≡ Q.wanted)
        × (aim.budget ≡ None)
        × ArePathKeys Q.setting (aim_within Q.setting Q.wanted None) p.news t.keys };

    /// A key that means the same in each thread is looked up among the shared places alone.
    fn look_up(
        &mut self,
        alloc: Global,
        _aim: &Within<'b>,
        path: &Path<'_>,
        is_common: bool,
        own: &mut PlaceSet,
        key: &mut PlaceCode,
    ) -> Result<bool, AllocError> {
        if !is_common {
            return own.find_or_add(key);
        }
        if self.done.has(self.rt, key) {
            return Ok(true);
        }
        self.keys.keep(alloc, path.records().len(), key)?;
        Ok(false)
    }

    /// Tells the threads to stop if they have no memory left for the place.
    fn leave(&mut self, _aim: &Within<'b>, path: &Path<'_>) -> Result<(), AllocError> {
        path.is_played();
        let calls = path.records().len();
        if !self.keys.tell_done(self.rt, calls, self.done)? {
            self.done.stop();
        }
        self.keys.forget(calls);
        Ok(())
    }

    ghost longer = { λ t aim p r kept. (
      kept.0,
      kept.1,
      kept.2,
      keys_longer Q.setting
          (aim_within Q.setting Q.wanted None) p.news r t.keys kept.3,
    ) };

    ghost became = { λ t aim new p becomes kept. (
      kept.0,
      becomes.0 ∙ kept.1,
      becomes.1 ∙ kept.2,
      kept.3,
    ) };
}
