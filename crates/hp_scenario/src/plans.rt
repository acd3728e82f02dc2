//! A plan's items.
ghost use Rattle.std.specs.Prelude.{◌≡◌, map, IfOk};
ghost use Rattle.hp_scenario.specs.Lines as says;

use crate::numbers::number32;
use hp_units::{Block, Item, Plan, Wish};
use std::alloc::{AllocError, Global};

/// Returns the plan whose items are in the words, two words each.
pub(crate) fn plan_from(alloc: Global, words: &[&str]) -> Result<Option<Plan>, AllocError>
    ensures { IfOk result (λ plan. plan ≡ says.items_of (map (λ w. w.now) words.now)) }
{
    let mut items = Vec::new(alloc);
    let mut rest = words;
    while let [wish, block, tail @ ..] = rest {
        let Some(item) = item_from(wish, block) else {
            return Ok(None);
        };
        items.push(item)?;
        rest = tail;
    }
    if !rest.is_empty() {
        return Ok(None);
    }
    Ok(Some(Plan::new(alloc, items)?))
}

/// Returns a plan's item: what becomes of a memory block, and the block's number.
#[tactic(auto, unfolding(crate::specs::Lines::item_of))]
fn item_from(wish: &str, block: &str) -> Option<Item>
    ensures { result ≡ says.item_of wish.now block.now }
{
    let wish = wish_from(wish)?;
    let block = Block(number32(block)?);
    Some(Item { block, wish })
}

/// Returns the wish that a word names: what becomes of a memory block.
#[tactic(auto, unfolding(crate::specs::Lines::wish_of))]
fn wish_from(word: &str) -> Option<Wish>
    ensures { result ≡ says.wish_of word.now }
{
    match word {
        "off" => Some(Wish::Off),
        "normal" => Some(Wish::Normal),
        "movable" => Some(Wish::Movable),
        _ => None,
    }
}
