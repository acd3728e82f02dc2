//! What names are bound to.
ghost use Rattle.std.specs.Prelude.{◌≡◌, ◌↔◌, [], IfOk, IsTrue, None, OnErr, OnOk, length, option_map, slice_get};
ghost use Rattle.std.specs.Map.{lookup};
ghost use Rattle.std.specs.Str.{bytes_eq};
ghost use Rattle.hp_scripts.specs.Bindings as spec;

use crate::results::{NamedResult, ResultKind};
use hp_units::Text;
use indexmap::IndexMap;
use std::alloc::{AllocError, Global};
use std::marker::Model;

/// A name that a line gives its result.
#[derive(Drop)]
pub struct Naming {
    /// The processor's number as the line has it, a space, and the name.
    pub key: Text,
    /// What the result is.
    pub kind: ResultKind,
}

/// The latest result for each processor and name. In contracts, its value is a list of keys and
/// results.
#[derive(Drop)]
pub struct Bindings {
    results: IndexMap<Text, NamedResult>,
}

impl Model for Bindings {
    ghost use Rattle.hp_scripts.specs.Bindings.{Bound};

    ghost Value = { Bound };

    ghost view = { λ b. b.results.entries };
}

impl Bindings {
    /// Creates bindings without names.
    pub fn new(alloc: Global) -> Bindings
        ensures { result ≡ [] }
    {
        Bindings {
            results: IndexMap::new(alloc),
        }
    }

    /// Binds a name to the result of the line at index `line`. `number` is the result's number, or
    /// 0 while that is not known.
    pub fn bind(&mut self, naming: Naming, line: usize, number: u64) -> Result<(), AllocError>
        ensures ok { OnOk result (self.new ≡ spec.bound_to self.old naming line number) }
        ensures err { OnErr result (self.new ≡ self.old) }
        ensures absent { OnErr result (lookup (bytes_eq naming.key) self.old ≡ None) }
    {
        let Naming { key, kind } = naming;
        self.results
            .insert(key, NamedResult { kind, line, number })?;
        Ok(())
    }

    /// Returns whether there are no names.
    pub fn is_empty(&self) -> bool
        ensures { IsTrue result ↔ (self.now ≡ []) }
    {
        self.results.is_empty()
    }

    /// Returns how many names there are, of all processors.
    pub fn len(&self) -> usize
        ensures { result ≡ length self.now }
    {
        self.results.len()
    }

    /// Returns the key at `index`: a processor's word, a space, and a name.
    pub fn key_at(&self, index: usize) -> Option<&str>
        ensures { option_map (λ key. key.now) result
            ≡ option_map (λ entry. entry.0) (slice_get self.now index) }
    {
        let (key, _) = self.results.get_index(index)?;
        Some(key.as_str())
    }

    /// Fills in the numbers of the results of the first lines. `numbers[n]` is the number of the
    /// result of line `n`, counted from 0.
    pub(crate) fn number(&mut self, numbers: &[u64])
        ensures { self.new ≡ spec.numbered numbers.now self.old }
    {
        for index in 0..self.results.len() {
            if let Some(found) = self.results.get_index_mut(index) {
                *found = numbered(*found, numbers);
            }
        }
    }

    /// Returns the processor's latest result that has this name.
    pub(crate) fn result_at(
        &self,
        alloc: Global,
        cpu: &str,
        name: &str,
    ) -> Result<Option<NamedResult>, AllocError>
        ensures { IfOk result (λ found. found ≡ spec.result_at self.now cpu.now name.now) }
    {
        let key = key_of(alloc, cpu, name)?;
        Ok(self.results.get(&key).copied())
    }
}

/// Returns a result with its number filled in, if `numbers` has it.
fn numbered(found: NamedResult, numbers: &[u64]) -> NamedResult
    ensures { result ≡ spec.numbered_result numbers.now found }
{
    let number = match numbers.get(found.line) {
        Some(number) => *number,
        None => found.number,
    };
    NamedResult { number, ..found }
}

/// Returns the key of a name: the processor's word, a space, and the name.
pub(crate) fn key_of(alloc: Global, cpu: &str, name: &str) -> Result<Text, AllocError>
    ensures { IfOk result (λ key. key ≡ spec.key_of cpu.now name.now) }
{
    let mut key = String::new(alloc);
    key.push_str(cpu)?;
    key.push(' ')?;
    key.push_str(name)?;
    Ok(Text::new(key))
}
