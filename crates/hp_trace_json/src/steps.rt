//! The steps that are not undone, by their serials.
ghost use Rattle.std.specs.Prelude.{◌≡◌, ◌≤◌, ◌⊎◌, [], ◌∷◌, ◌++◌, IfOk, OnOk, drop, if◌then◌else◌, length};
ghost use Rattle.hp_trace_json.specs.Steps.{steps_after};

use hp_units::Serial;
use std::alloc::{AllocError, Global};
use std::marker::Model;

/// The serials of the steps that are not undone, oldest first.
#[derive(Drop)]
pub struct NetSerials {
    serials: Vec<Serial>,
}

impl Model for NetSerials {
    ghost use Rattle.std.specs.Prelude.{List, ℕ};

    ghost Value = { List ℕ };

    ghost view = { λ s. s.serials.items };
}

impl NetSerials {
    /// Creates an empty list.
    pub fn new(alloc: Global) -> NetSerials
        ensures { result ≡ [] }
    {
        NetSerials {
            serials: Vec::new(alloc),
        }
    }

    /// Returns how many steps there are.
    pub fn len(&self) -> usize
        ensures { result ≡ length self.now }
    {
        self.serials.len()
    }

    /// Updates the list after the call with this serial. `count` is the number of steps that are
    /// not undone now; if that is more than before, adds the serial. Returns the steps that the
    /// call dropped.
    pub fn follow(
        &mut self,
        alloc: Global,
        count: u64,
        serial: Serial,
    ) -> Result<Vec<Serial>, AllocError>
        ensures dropped { IfOk result (λ dropped. dropped.items ≡ drop count self.old) }
        ensures steps { OnOk result (self.new ≡ steps_after self.old count serial) }
    {
        let kept = self.kept_of(count);
        let dropped = Vec::from_slice(alloc, &self.serials[kept..])?;
        self.serials.truncate(kept);
        add_step(&mut self.serials, (kept as u64) < count, serial)?;
        Ok(dropped)
    }

    /// Returns how many of the earlier steps are left after a call that leaves `count` steps.
    fn kept_of(&self, count: u64) -> usize
        ensures low { result ≤ count }
        ensures within { result ≤ length self.now }
        ensures most { (result ≡ count) ⊎ (result ≡ length self.now) }
    {
        let all = self.serials.len();
        if count < all as u64 {
            count as usize
        } else {
            all
        }
    }
}

/// Adds a step if `is_step` is true.
fn add_step(serials: &mut Vec<Serial>, is_step: bool, serial: Serial) -> Result<(), AllocError>
    ensures { OnOk result
        (serials.new.items ≡ serials.old.items ++ (if is_step then serial ∷ [] else [])) }
{
    if is_step {
        serials.push(serial)?;
    }
    Ok(())
}
