//! Adding the free areas to an Image.
ghost use Rattle.std.specs.Prelude.{◌≡◌, ◌+◌, ◌*◌, ◌<◌, ◌≤◌, [], OnOk, length};
ghost use Rattle.hp_units.specs.Arithmetic.{pageblock_count};
ghost use Rattle.hp_units.specs.InLayout.{AreFreeAreasOf};
ghost use Rattle.hp_units.specs.Memory.{free_list, kind_of, plain_kind, with_free_list, with_kind};
ghost use Rattle.hp_units.specs.Rows.{with_areas};
ghost use Rattle.hp_memory.specs.Tables.{AreCopied};

use hp_buddy::Buddy;
use hp_plain::{Image, Part};
use hp_units::{Class, Order, Pageblock};
use std::alloc::{AllocError, Global};

/// Adds the free areas to an Image that has none.
pub fn put_areas(alloc: Global, image: &mut Image, buddy: &Buddy) -> Result<(), AllocError>
    requires layout { image.old.layout ≡ buddy.now.layout }
    requires within { AreFreeAreasOf buddy.now.layout buddy.now.areas }
    requires lists { AreCopied [] [] 0 buddy.now.areas.lists image.old.memory.free.areas.lists }
    requires kinds { AreCopied plain_kind plain_kind 0 buddy.now.areas.kinds
        image.old.memory.free.areas.kinds }
    ensures { OnOk result
        (image.new ≡ record image.old { memory = with_areas image.old.memory buddy.now.areas }) }
{
    put_lists(alloc, image, buddy)?;
    put_kinds(image, buddy)
}

/// Adds the free blocks to empty lists.
fn put_lists(alloc: Global, image: &mut Image, buddy: &Buddy) -> Result<(), AllocError>
    requires layout { image.old.layout ≡ buddy.now.layout }
    requires within { AreFreeAreasOf buddy.now.layout buddy.now.areas }
    requires lists { AreCopied [] [] 0 buddy.now.areas.lists image.old.memory.free.areas.lists }
    ensures { OnOk result (image.new ≡ record image.old {
      memory = with_areas image.old.memory
          (record image.old.memory.free.areas { lists = buddy.now.areas.lists });
    }) }
{
    for number in 0..5 * (image.layout().order() + 1) {
        put_list(
            alloc,
            image,
            buddy,
            Class::numbered(number % 5),
            Order(number / 5),
        )?;
    }
    Ok(())
}

/// Adds the free blocks of a class and an order to their list, which is empty.
fn put_list(
    alloc: Global,
    image: &mut Image,
    buddy: &Buddy,
    class: Class,
    order: Order,
) -> Result<(), AllocError>
    requires layout { image.old.layout ≡ buddy.now.layout }
    requires order { order ≤ buddy.now.layout.order }
    requires within { AreFreeAreasOf buddy.now.layout buddy.now.areas }
    requires size { 5 * order + 5 ≤ length image.old.memory.free.areas.lists }
    requires none { free_list image.old.memory.free.areas class order ≡ [] }
    ensures { OnOk result (image.new ≡ record image.old {
      memory = with_areas image.old.memory
          (with_free_list image.old.memory.free.areas class order (free_list buddy.now.areas class order));
    }) }
{
    let list = buddy.list(alloc, class, order)?;
    let frames = list.as_slice();
    for number in 0..frames.len() {
        let frame = frames[number];
        image.add(Part::Free {
            class,
            order,
            frame,
        })?;
    }
    Ok(())
}

/// Adds the kinds of the pageblocks.
fn put_kinds(image: &mut Image, buddy: &Buddy) -> Result<(), AllocError>
    requires layout { image.old.layout ≡ buddy.now.layout }
    requires within { AreFreeAreasOf buddy.now.layout buddy.now.areas }
    requires kinds { AreCopied plain_kind plain_kind 0 buddy.now.areas.kinds
        image.old.memory.free.areas.kinds }
    ensures { OnOk result (image.new ≡ record image.old {
      memory = with_areas image.old.memory
          (record image.old.memory.free.areas { kinds = buddy.now.areas.kinds });
    }) }
{
    for number in 0..image.layout().blocks() * image.layout().pageblocks() {
        put_kind(image, buddy, Pageblock(number))?;
    }
    Ok(())
}

/// Adds the kind of one pageblock.
fn put_kind(image: &mut Image, buddy: &Buddy, pageblock: Pageblock) -> Result<(), AllocError>
    requires layout { image.old.layout ≡ buddy.now.layout }
    requires pageblock { pageblock < pageblock_count buddy.now.layout }
    ensures { OnOk result (image.new ≡ record image.old {
      memory = with_areas image.old.memory
          (with_kind image.old.memory.free.areas pageblock (kind_of buddy.now.areas pageblock));
    }) }
{
    let kind = buddy.kind(pageblock);
    image.add(Part::Kind { pageblock, kind })
}
