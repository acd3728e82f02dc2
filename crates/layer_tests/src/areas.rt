ghost use Rattle.std.specs.Prelude.{◌≡◌, IfOk};
ghost use Rattle.hp_units.specs.Boot.{empty_areas};
ghost use Rattle.hp_tape.specs.Tapes.{HasRoom};
ghost use Rattle.hp_buddy.specs.Buddy.{AreApart};
ghost use Rattle.layer_tests.specs.SmallLayouts.{two_blocks};

use crate::layouts::two_blocks;
use hp_buddy::Buddy;
use hp_tape::{Delta, ListId, Tape};
use hp_units::{Class, Frame, Layout, Mobility, Order, Pageblock, Zone};
use std::alloc::{AllocError, Global};
use std::test::Fail;

/// Returns the free areas of two pageblocks. The first is one free block of zone Normal.
pub(crate) fn one_free_pageblock(alloc: Global, layout: &Layout) -> Result<Buddy, AllocError>
    requires { layout.now ≡ two_blocks }
    ensures layout { IfOk result (λ b. b.layout ≡ two_blocks) }
    ensures apart { IfOk result (λ b. AreApart b.layout b.areas) }
{
    let mut buddy = Buddy::new(alloc, layout)?;
    let mut tape = Tape::with_room(alloc, 1)?;
    buddy.add_pageblock(Zone::Normal, Pageblock(0), &mut tape);
    let copy = buddy.copy(alloc)?;
    Ok(copy)
}

/// Returns the free areas of `one_free_pageblock` for the tests' layout.
fn small_buddy(alloc: Global) -> Result<Buddy, Fail>
    ensures layout { IfOk result (λ b. b.layout ≡ two_blocks) }
    ensures apart { IfOk result (λ b. AreApart b.layout b.areas) }
{
    let layout = two_blocks(alloc)?;
    let buddy = one_free_pageblock(alloc, &layout)?;
    Ok(buddy)
}

/// Returns whether the first block is alone on its list, and its pageblock is movable.
fn is_whole(buddy: &Buddy) -> bool
    requires { buddy.now.layout ≡ two_blocks }
{
    buddy.front(Class::Nm, Order(1)) == Some(Frame(0))
        && buddy.next(Frame(0)).is_none()
        && buddy.len(Class::Nm, Order(1)) == 1
        && buddy.kind(Pageblock(0)).mobility == Mobility::Movable
}

/// Takes a frame and gives it back. Returns whether the block is whole again, and its first frame
/// can be stolen.
fn is_joined_and_stolen(buddy: &mut Buddy, tape: &mut Tape) -> bool
    requires layout { buddy.old.layout ≡ two_blocks }
    requires apart { AreApart buddy.old.layout buddy.old.areas }
    requires room { HasRoom tape.old 7 }
{
    let Some(frame) = buddy.take(Class::Nm, Order(0), tape) else {
        return false;
    };
    buddy.give(Zone::Normal, frame, Order(0), tape);
    let is_whole = is_whole(buddy);
    let stolen = buddy.steal(Mobility::Unmovable, Order(0), tape);
    is_whole && stolen == Some(Frame(0))
}

#[test]
fn splits_joins_and_steals(rt: HostRuntime) -> Result<(), Fail> {
    let mut buddy = small_buddy(rt.alloc())?;
    let mut tape = Tape::with_room(rt.alloc(), 7)?;
    assert!(rt; is_joined_and_stolen(&mut buddy, &mut tape));
    Ok(())
}

/// Isolates the pageblock and removes it if it is whole. Returns whether it was isolated, and its
/// first frame is gone.
fn is_isolated_and_removed(buddy: &mut Buddy, tape: &mut Tape) -> bool
    requires layout { buddy.old.layout ≡ two_blocks }
    requires apart { AreApart buddy.old.layout buddy.old.areas }
    requires room { HasRoom tape.old 7 }
{
    buddy.move_pageblock(Zone::Normal, Pageblock(0), true, tape);
    let isolated = buddy.kind(Pageblock(0)).isolated;
    if let Some((class, order)) = buddy.place(Frame(0)) {
        if class == Class::IsoN && order == Order(1) {
            buddy.remove_pageblock(Zone::Normal, Pageblock(0), tape);
        }
    }
    isolated && buddy.place(Frame(0)).is_none()
}

#[test]
fn isolates_and_removes(rt: HostRuntime) -> Result<(), Fail> {
    let mut buddy = small_buddy(rt.alloc())?;
    let mut tape = Tape::with_room(rt.alloc(), 7)?;
    assert!(rt; is_isolated_and_removed(&mut buddy, &mut tape));
    Ok(())
}

/// Undoes the delta of a block that left its list. Returns whether the block is back on the empty
/// list.
fn is_back(buddy: &mut Buddy) -> bool
    requires layout { buddy.old.layout ≡ two_blocks }
    requires areas { buddy.old.areas ≡ empty_areas two_blocks }
{
    buddy.back(Delta::Unlink {
        list: ListId::Area {
            class: Class::Nm,
            order: 1,
        },
        frame: Frame(0),
        after: None,
    });
    is_whole(buddy)
}

#[test]
fn goes_back(rt: HostRuntime) -> Result<(), Fail> {
    let layout = two_blocks(rt.alloc())?;
    let mut buddy = Buddy::new(rt.alloc(), &layout)?;
    assert!(rt; is_back(&mut buddy));
    Ok(())
}
