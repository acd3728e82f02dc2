//! The keys of the places on a walk's path.
ghost use Rattle.std.specs.Prelude.{◌≡◌, ◌<◌, ℕ, List, None, OnOk, Some, get_or, length};
ghost use Rattle.hp_explore.specs.DonePlaces.{IsDoneKey};
ghost use Rattle.hp_explore.specs.Withins.{aim_within};

use crate::done_places::{DonePlaces, Question};
use hp_states::PlaceCode;
use std::alloc::{AllocError, Global};
use std::marker::Model;
use std::mem::swap;
use std::sync::Wait;

/// A key, if one is kept. If not, the memory of the code is kept for a later key.
struct PathKey {
    is_kept: bool,
    code: PlaceCode,
}

impl Model for PathKey {
    ghost use Rattle.std.specs.Prelude.{ℕ, List, None, Option, Some, cond};

    ghost Value = { Option (List ℕ) };

    ghost view = { λ k. cond k.is_kept (Some k.code) None };
}

/// Keeps callers from proving again how each field is dropped.
impl Drop for PathKey {
    fn drop(self) {
        let PathKey {
            is_kept: _,
            code: _code,
        } = self;
    }
}

impl PathKey {
    /// Creates one without a key. Allocates nothing.
    fn new(alloc: Global) -> PathKey
        ensures { result ≡ None }
    {
        PathKey {
            is_kept: false,
            code: PlaceCode::new(alloc),
        }
    }

    /// Keeps a key. `key` gets the code that was here before.
    fn keep(&mut self, key: &mut PlaceCode)
        ensures { self.new ≡ Some key.old }
    {
        swap(&mut self.code, key);
        self.is_kept = true;
    }

    /// Forgets the key.
    fn forget(&mut self)
        ensures { self.new ≡ None }
    {
        self.is_kept = false;
    }

    /// Tells the other threads that the place with this key is done, if a key is kept. Returns
    /// false if they have no memory left for that.
    fn tell_done<Q: Question, R: Wait>(
        &self,
        rt: &R,
        done: &DonePlaces<Q>,
    ) -> Result<bool, AllocError>
        requires { (key : List ℕ) → self.now ≡ Some key
            → IsDoneKey Q.setting (aim_within Q.setting Q.wanted None) key }
    {
        if !self.is_kept {
            return Ok(true);
        }
        done.add(rt, &self.code)
    }
}

/// The keys of the places on a walk's path, each by how many calls lead to its place. A place has
/// no key here if it has none that means the same in each thread.
///
/// The table keeps its memory as the path gets shorter, so that few keys need new memory.
pub(crate) struct PathKeys {
    keys: Vec<PathKey>,
}

impl Model for PathKeys {
    ghost use Rattle.std.specs.Prelude.{ℕ, List, Option};

    ghost Value = { List (Option (List ℕ)) };

    ghost view = { λ k. k.keys.items };
}

/// Keeps callers from proving again how each field is dropped.
impl Drop for PathKeys {
    fn drop(self) {
        let PathKeys { keys: _keys } = self;
    }
}

impl PathKeys {
    /// Creates a table without keys. Allocates nothing.
    pub(crate) fn new(alloc: Global) -> PathKeys
        ensures { (calls : ℕ) → get_or result calls None ≡ None }
    {
        PathKeys {
            keys: Vec::new(alloc),
        }
    }

    /// Keeps the key of the place after `calls` calls. `key` gets some code that was kept before.
    pub(crate) fn keep(
        &mut self,
        alloc: Global,
        calls: usize,
        key: &mut PlaceCode,
    ) -> Result<(), AllocError>
        ensures here { OnOk result (get_or self.new calls None ≡ Some key.old) }
        ensures others { OnOk result ((at : ℕ) → (at ≡ calls → ⊥)
            → get_or self.new at None ≡ get_or self.old at None) }
    {
        reach(&mut self.keys, alloc, calls)?;
        self.keys[calls].keep(key);
        Ok(())
    }

    /// Forgets the key of the place after `calls` calls.
    pub(crate) fn forget(&mut self, calls: usize)
        ensures here { get_or self.new calls None ≡ None }
        ensures others { (at : ℕ) → (at ≡ calls → ⊥)
            → get_or self.new at None ≡ get_or self.old at None }
    {
        if let Some(kept) = self.keys.get_mut(calls) {
            kept.forget();
        }
    }

    /// Tells the other threads that the place after `calls` calls is done, if its key is kept.
    /// Returns false if they have no memory left for that.
    pub(crate) fn tell_done<Q: Question, R: Wait>(
        &self,
        rt: &R,
        calls: usize,
        done: &DonePlaces<Q>,
    ) -> Result<bool, AllocError>
        requires { (key : List ℕ) → get_or self.now calls None ≡ Some key
            → IsDoneKey Q.setting (aim_within Q.setting Q.wanted None) key }
    {
        match self.keys.get(calls) {
            Some(kept) => kept.tell_done(rt, done),
            None => Ok(true),
        }
    }
}

/// Appends places without keys, up to the one after `calls` calls.
fn reach(keys: &mut Vec<PathKey>, alloc: Global, calls: usize) -> Result<(), AllocError>
    ensures long { OnOk result (calls < length keys.new.items) }
    ensures same { (at : ℕ) → get_or keys.new.items at None ≡ get_or keys.old.items at None }
{
    'places: while keys.len() <= calls {
        keys.push(PathKey::new(alloc))?;
    }
    Ok(())
}
