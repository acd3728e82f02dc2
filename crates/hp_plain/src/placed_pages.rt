//! The test of an owner's page: it must have both a frame and the layout's number of words, or
//! neither, and its frame must be in no other place.
ghost use Rattle.std.specs.Prelude.{MatchBool, if◌then◌else◌};
ghost use Rattle.std.specs.Option.{option_map};
ghost use Rattle.hp_units.specs.Pages.{holds};
ghost use Rattle.hp_units.specs.Placement.{IsPage};
ghost use Rattle.hp_plain.specs.Placing.{AreMarked, IsTwice};

use crate::marks::Marks;
use hp_units::{Frame, Layout, Order};

/// Returns whether a page has both a frame and the layout's number of words, or neither, and marks
/// the frame. Returns false if the frame is already marked.
pub fn place_page(
    layout: &Layout,
    marks: &mut Marks,
    frame: Option<Frame>,
    words: Option<&[u64]>,
) -> bool
    ensures { MatchBool result
        (IsPage layout.now frame (option_map (λ words. words.now) words.entry)
        × AreMarked marks.old marks.new (λ other. if holds other frame then 1 else 0))
        (IsPage layout.now frame (option_map (λ words. words.now) words.entry)
        → IsTwice marks.old (λ other. if holds other frame then 1 else 0)) }
{
    match frame {
        Some(frame) => match words {
            Some(words) => words.len() == layout.words() as usize && marks.mark(Order(0), frame),
            None => false,
        },
        None => words.is_none(),
    }
}
