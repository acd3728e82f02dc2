//! Loading the free areas from an Image.
ghost use Rattle.std.specs.Prelude.{◌≡◌, ◌<◌, ◌≤◌, [], IfOk, length};
ghost use Rattle.hp_units.specs.Arithmetic.{pageblock_count};
ghost use Rattle.hp_units.specs.LayoutParts.{IsLayout};
ghost use Rattle.hp_units.specs.Memory.{free_list, kind_of, plain_kind, with_free_list, with_kind};
ghost use Rattle.hp_units.specs.Placement.{IsWellPlaced};
ghost use Rattle.hp_memory.specs.Tables.{AreCopied, ArePartly};

use hp_buddy::Buddy;
use hp_plain::Image;
use hp_tape::{Delta, ListId};
use hp_units::{Class, Kind, Order, Pageblock};
use std::alloc::{AllocError, Global};

/// Creates the free areas of an Image. Its state must be well placed.
pub fn buddy_of(alloc: Global, image: &Image) -> Result<Buddy, AllocError>
    requires placed { IsWellPlaced image.now.layout image.now.memory }
    ensures { IfOk result
        (λ buddy. buddy ≡ record { layout = image.now.layout; areas = image.now.memory.free.areas }) }
{
    let mut buddy = Buddy::new(alloc, image.layout())?;
    load_lists(&mut buddy, image);
    load_kinds(&mut buddy, image);
    Ok(buddy)
}

/// Loads the free blocks onto empty lists.
fn load_lists(buddy: &mut Buddy, image: &Image)
    requires placed { IsWellPlaced image.now.layout image.now.memory }
    requires layout { buddy.old.layout ≡ image.now.layout }
    requires none { AreCopied [] [] 0 image.now.memory.free.areas.lists buddy.old.areas.lists }
    ensures lists { buddy.new.areas ≡ record buddy.old.areas { lists = image.now.memory.free.areas.lists } }
    ensures layout { buddy.new.layout ≡ buddy.old.layout }
{
    for number in 0..5 * (image.layout().order() + 1) {
        load_list(buddy, image, Class::numbered(number % 5), Order(number / 5));
    }
}

/// Loads the free blocks of a class and an order, last one first.
fn load_list(buddy: &mut Buddy, image: &Image, class: Class, order: Order)
    requires limits { IsLayout image.now.layout }
    requires placed { IsWellPlaced image.now.layout image.now.memory }
    requires layout { buddy.old.layout ≡ image.now.layout }
    requires order { order ≤ image.now.layout.order }
    requires partly { ArePartly image.now.memory.free.areas.lists buddy.old.areas.lists }
    requires none { free_list buddy.old.areas class order ≡ [] }
    ensures list { buddy.new.areas
        ≡ with_free_list buddy.old.areas class order (free_list image.now.memory.free.areas class order) }
    ensures layout { buddy.new.layout ≡ buddy.old.layout }
{
    let frames = image.list(class, order);
    for number in 0..frames.len() {
        let frame = frames[frames.len() - 1 - number];
        buddy.back(Delta::Unlink {
            list: ListId::of_area(class, order),
            frame,
            after: None,
        });
    }
}

/// Loads the kinds of the pageblocks.
fn load_kinds(buddy: &mut Buddy, image: &Image)
    requires placed { IsWellPlaced image.now.layout image.now.memory }
    requires layout { buddy.old.layout ≡ image.now.layout }
    requires none { AreCopied plain_kind plain_kind 0 image.now.memory.free.areas.kinds
        buddy.old.areas.kinds }
    ensures kinds { buddy.new.areas ≡ record buddy.old.areas { kinds = image.now.memory.free.areas.kinds } }
    ensures layout { buddy.new.layout ≡ buddy.old.layout }
{
    for number in 0..image.layout().blocks() * image.layout().pageblocks() {
        load_kind(buddy, image, Pageblock(number));
    }
}

/// Loads the kind of one pageblock.
fn load_kind(buddy: &mut Buddy, image: &Image, pageblock: Pageblock)
    requires pageblock { pageblock < pageblock_count buddy.old.layout }
    requires size { pageblock < length buddy.old.areas.kinds }
    ensures kind { buddy.new.areas
        ≡ with_kind buddy.old.areas pageblock (kind_of image.now.memory.free.areas pageblock) }
    ensures layout { buddy.new.layout ≡ buddy.old.layout }
{
    let was = image.kind(pageblock).unwrap_or(Kind::plain());
    let now = buddy.kind(pageblock);
    buddy.back(Delta::Kind {
        pageblock,
        was,
        now,
    });
}
