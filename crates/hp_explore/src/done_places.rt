//! The places with which some thread of a search is done, under locks.
ghost use Rattle.std.specs.Prelude.{◌≡◌, ◌<◌, [], IfOk, None, OnOk, true, length};
ghost use Rattle.hp_explore.specs.DonePlaces.{AreDoneKeys, IsDoneKey};
ghost use Rattle.hp_explore.specs.Withins.{aim_within};

use hp_states::{PlaceCode, PlaceSet};
use std::alloc::{AllocError, Global};
use std::marker::{Brand, Model, PhantomData};
use std::sync::atomic::{AtomicU64, Ordering};
use std::sync::{Mutex, Wait};

/// How many locks the places are spread over.
const PARTS: usize = 64;

/// A type that names one question in the proofs: the setting of its scripts, and the wanted lines.
/// Callers pass `Brand`, for which the proof of each call chooses these.
pub(crate) trait Question {
    ghost use Rattle.std.specs.Prelude.{List};
    ghost use Rattle.hp_schedules.specs.Schedules.{Setting};
    ghost use Rattle.hp_questions.specs.declared.wanted.Wanted.{Wanted};

    /// The setting of the scripts.
    ghost setting: { Setting };

    /// The wanted lines.
    ghost wanted: { List Wanted };
}

impl Question for Brand {
    ghost use Rattle.std.specs.Prelude.{[]};
    ghost use Rattle.hp_explore.specs.DonePlaces.{no_setting};

    ghost setting = { no_setting };

    ghost wanted = { [] };
}

/// Some of the places with which a thread is done.
struct Part<Q: Question> {
    places: PlaceSet,
    of: PhantomData<Q>,
}

impl<Q: Question> Model for Part<Q> {
    ghost use Rattle.std.specs.Prelude.{ℕ, List, None};
    ghost use Rattle.hp_explore.specs.DonePlaces.{AreDoneKeys};
    ghost use Rattle.hp_explore.specs.Withins.{aim_within};

    ghost Value = { List (List ℕ) };

    ghost view = { λ p. p.places };

    ghost invariant = { λ p. AreDoneKeys Q.setting (aim_within Q.setting Q.wanted None) p.places };
}

impl<Q: Question> Drop for Part<Q> {
    fn drop(self) {
        let Part {
            places: _places,
            of: _,
        } = self;
    }
}

impl<Q: Question> Part<Q> {
    /// Creates an empty part. Allocates nothing.
    fn new(alloc: Global) -> Part<Q> {
        Part {
            places: PlaceSet::new(alloc),
            of: PhantomData,
        }
    }

    /// Returns whether the place is found among these. If so, it is done.
    fn has(&self, place: &PlaceCode) -> bool
        ensures { result ≡ true
            → IsDoneKey Q.setting (aim_within Q.setting Q.wanted None) place.now }
    {
        let places = &self.places;
        places.has(place)
    }

    /// Adds a place that is done. Returns false, and adds nothing, if the part takes `most` bytes
    /// or more.
    fn add(&mut self, place: &PlaceCode, most: u64) -> Result<bool, AllocError>
        requires { IsDoneKey Q.setting (aim_within Q.setting Q.wanted None) place.now }
    {
        if self.places.size() >= most {
            return Ok(false);
        }
        let _was_here = self.places.find_or_add(place)?;
        Ok(true)
    }
}

/// The places with which some thread of a search for the end of question `Q` is done, and whether
/// the threads are to stop.
pub(crate) struct DonePlaces<Q: Question> {
    parts: Vec<Mutex<Part<Q>>>,
    most: u64,
    stopped: AtomicU64,
}

impl<Q: Question> Drop for DonePlaces<Q> {
    fn drop(self) {
        let DonePlaces {
            parts: _parts,
            most: _,
            stopped: _,
        } = self;
    }
}

impl<Q: Question> DonePlaces<Q> {
    /// Creates a collection without places, which may take about `memory` bytes.
    pub(crate) fn new(alloc: Global, memory: u64) -> Result<DonePlaces<Q>, AllocError> {
        let mut parts = Vec::new(alloc);
        for _ in 0..PARTS {
            parts.push(Mutex::new(Part::new(alloc)))?;
        }
        Ok(DonePlaces {
            parts,
            most: memory / PARTS as u64,
            stopped: AtomicU64::new(0),
        })
    }

    /// Returns whether the place is found. If so, some thread is done with it. If not, one may be
    /// done with it all the same: of several places with the same hash, only the newest is found.
    pub(crate) fn has(&self, rt: &impl Wait, place: &PlaceCode) -> bool
        ensures { result ≡ true
            → IsDoneKey Q.setting (aim_within Q.setting Q.wanted None) place.now }
    {
        match self.part_of(place) {
            Some(part) => part.lock(rt).has(place),
            None => false,
        }
    }

    /// Adds a place that is done. Returns false, and adds nothing, if there is no memory left for
    /// it.
    pub(crate) fn add(&self, rt: &impl Wait, place: &PlaceCode) -> Result<bool, AllocError>
        requires { IsDoneKey Q.setting (aim_within Q.setting Q.wanted None) place.now }
    {
        match self.part_of(place) {
            Some(part) => part.lock(rt).add(place, self.most),
            None => Ok(false),
        }
    }

    /// Tells the threads to stop.
    pub(crate) fn stop(&self) {
        self.stopped.store(1, Ordering::SeqCst);
    }

    /// Returns whether the threads are to stop.
    pub(crate) fn is_stopped(&self) -> bool {
        self.stopped.load(Ordering::SeqCst) != 0
    }

    /// Returns the part in which the place is looked for.
    fn part_of(&self, place: &PlaceCode) -> Option<&Mutex<Part<Q>>> {
        self.parts.get((place.digest() % PARTS as u64) as usize)
    }
}
