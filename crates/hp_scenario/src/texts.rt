//! The texts of a JSON array.
ghost use Rattle.std.specs.Prelude.{◌≡◌, ◌<◌, Some, length, slice_get};
ghost use Rattle.serde_json.specs.Find.{as_str};
ghost use Rattle.serde_json.specs.View.{items_view};
ghost use Rattle.hp_scenario.specs.Form.{each_in};

use serde_json::Value;
use std::marker::Model;

/// Values that are all texts. In contracts, their value is the list of the texts.
#[derive(Drop)]
pub struct Texts<'a> {
    values: &'a [Value],
}

impl<'a> Model for Texts<'a> {
    ghost use Rattle.std.specs.Prelude.{◌≡◌, true, List, ℕ, map};
    ghost use Rattle.std.specs.List.{list_all};
    ghost use Rattle.hp_scenario.specs.Form.{is_text, text_of};

    ghost Value = { List (List ℕ) };

    ghost view = { λ t. map text_of t.values.now };

    ghost invariant = { λ t. list_all is_text t.values.now ≡ true };
}

impl<'a> Texts<'a> {
    /// Wraps values, or returns `None` if one of them is not a text.
    pub(crate) fn new(values: &'a Vec<Value>) -> Option<Texts<'a>>
        ensures { result ≡ each_in as_str (items_view values.now.items) }
    {
        let values = values.as_slice();
        for value in values {
            if !value.is_string() {
                return None;
            }
        }
        Some(Texts { values })
    }

    /// Returns how many texts there are.
    pub fn len(&self) -> usize
        ensures { result ≡ length self.now }
    {
        self.values.len()
    }

    /// Returns the text with index `place`.
    #[tactic(auto, using(crate::proofs::TextLists::text_there, crate::proofs::TextLists::text_lacks))]
    pub fn at(&self, place: usize) -> &'a str
        requires { place < length self.now }
        ensures { slice_get self.now place ≡ Some result.now }
    {
        let values = self.values;
        match values[place].as_str() {
            Some(text) => text,
            None => unreachable!(),
        }
    }
}
