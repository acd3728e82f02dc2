//! The free areas as plain lists, with the kind of each pageblock.
ghost use Rattle.std.specs.Prelude.{◌≡◌, ◌≢◌, ◌+◌, ◌*◌, ◌<◌, IfOk, MatchBool, OnErr, OnOk, length};
ghost use Rattle.hp_units.specs.Boot.{empty_areas};
ghost use Rattle.hp_units.specs.FreeAreas.{with_back};
ghost use Rattle.hp_units.specs.InLayout.{AreFreeAreasOf};
ghost use Rattle.hp_units.specs.Memory.{class_index, free_list, with_kind};

use crate::lists::FrameList;
use crate::lists::many::{copy_of_lists, empty_lists, same_lists};
use hp_units::{Class, Frame, Kind, Layout, Order, Pageblock};
use std::alloc::{AllocError, Global};
use std::marker::Model;

/// The free areas as plain lists (Gorman, chapter 6: `free_area`). The index of a list is five
/// times its order plus the index of its class.
#[derive(Drop)]
pub(crate) struct Areas {
    lists: Vec<FrameList>,
    kinds: Vec<Kind>,
}

impl Model for Areas {
    ghost use Rattle.hp_units.specs.Memory.{FreeAreas};

    ghost Value = { FreeAreas };

    ghost view = { λ a. record { lists = a.lists.items; kinds = a.kinds.items } };
}

impl Areas {
    /// Creates areas without free blocks; each pageblock is movable and not isolated.
    pub(crate) fn empty(alloc: Global, layout: &Layout) -> Result<Areas, AllocError>
        ensures value { IfOk result (λ areas. areas ≡ empty_areas layout.now) }
        ensures layout { IfOk result (AreFreeAreasOf layout.now) }
    {
        let lists = empty_lists(alloc, 5 * (layout.order() as usize + 1))?;
        let kinds = vec![in alloc; Kind::plain(); layout.blocks() as usize
            * layout.pageblocks() as usize]?;
        Ok(Areas { lists, kinds })
    }

    /// Returns a copy.
    pub(crate) fn copy(&self, alloc: Global) -> Result<Areas, AllocError>
        ensures { IfOk result (λ areas. areas ≡ self.now) }
    {
        let lists = copy_of_lists(alloc, &self.lists)?;
        let kinds = Vec::from_slice(alloc, &self.kinds)?;
        Ok(Areas { lists, kinds })
    }

    /// Returns whether both have the same lists and the same kinds.
    pub(crate) fn same(&self, other: &Areas) -> bool
        ensures { MatchBool result (self.now ≡ other.now) (self.now ≢ other.now) }
    {
        same_lists(&self.lists, &other.lists) && same_kinds(&self.kinds, &other.kinds)
    }

    /// Returns the kind of each pageblock.
    pub(crate) fn kinds(&self) -> &[Kind]
        ensures { result.now ≡ self.now.kinds }
    {
        self.kinds.as_slice()
    }

    /// Sets the kind of a pageblock.
    pub(crate) fn set_kind(&mut self, pageblock: Pageblock, kind: Kind)
        requires { pageblock < length self.old.kinds }
        ensures { self.new ≡ with_kind self.old pageblock kind }
    {
        self.kinds[pageblock.0 as usize] = kind;
    }

    /// Returns the free blocks of a class and an order by their first frames, front first. The list
    /// is empty above the greatest order (Gorman, chapter 6: `free_area`).
    pub(crate) fn free_list(&self, class: Class, order: Order) -> &[Frame]
        ensures { result.now ≡ free_list self.now class order }
    {
        match self.lists.get(list_number(class, order)) {
            Some(list) => list.as_slice(),
            None => &[],
        }
    }

    /// Adds a free block at the back of its list. If memory runs out, nothing changes.
    pub(crate) fn add_back(
        &mut self,
        class: Class,
        order: Order,
        frame: Frame,
    ) -> Result<(), AllocError>
        requires { 5 * order + class_index class < length self.old.lists }
        ensures value { OnOk result (self.new ≡ with_back self.old class order frame) }
        ensures err { OnErr result (self.new ≡ self.old) }
    {
        self.lists[list_number(class, order)].push_back(frame)
    }
}

/// Returns the index of the list of a class and an order.
fn list_number(class: Class, order: Order) -> usize
    ensures { result ≡ 5 * order + class_index class }
{
    5 * order.0 as usize + class.index() as usize
}

/// Returns whether both have the same kinds.
fn same_kinds(kinds: &[Kind], others: &[Kind]) -> bool
    ensures { MatchBool result (kinds.now ≡ others.now) (kinds.now ≢ others.now) }
{
    kinds == others
}
