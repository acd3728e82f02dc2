//! Adding the owners' pages to an Image.
ghost use Rattle.std.specs.Prelude.{◌≡◌, ◌<◌, [], None, OnOk, length, replicate, slice_index_or, slice_set};
ghost use Rattle.hp_units.specs.Memory.{entry_of, with_entry};
ghost use Rattle.hp_pages.specs.Pages.{ArePageFramesOf, AreSettled, pages_of, words_of, words_row};
ghost use Rattle.hp_memory.specs.Tables.{AreCopied};

use hp_pages::Pages;
use hp_plain::{Image, Part};
use hp_units::{Owner, Page, Words};
use std::alloc::{AllocError, Global};

/// Adds the owners' pages to an Image that has none.
pub fn put_pages(alloc: Global, image: &mut Image, pages: &Pages) -> Result<(), AllocError>
    requires layout { image.old.layout ≡ pages.now.layout }
    requires pages { ArePageFramesOf pages.now.layout pages.now.pages }
    requires settled { AreSettled pages.now.pages }
    requires table { AreCopied [] (replicate pages.now.layout.pages None) 0 pages.now.pages.table
        image.old.memory.pages.table }
    requires contents { AreCopied [] (replicate pages.now.layout.pages None) 0
        (pages_of pages.now.layout pages.now.pages).contents image.old.memory.pages.contents }
    ensures { OnOk result (image.new ≡ record image.old
        { memory = record image.old.memory { pages = pages_of pages.now.layout pages.now.pages } }) }
{
    for number in 0..image.layout().owners() {
        put_row(alloc, image, pages, Owner(number))?;
    }
    Ok(())
}

/// Adds the pages of one owner, who has none in the Image.
fn put_row(alloc: Global, image: &mut Image, pages: &Pages, owner: Owner) -> Result<(), AllocError>
    requires layout { image.old.layout ≡ pages.now.layout }
    requires pages { ArePageFramesOf pages.now.layout pages.now.pages }
    requires settled { AreSettled pages.now.pages }
    requires owner { owner < pages.now.layout.owners }
    requires table_size { owner < length image.old.memory.pages.table }
    requires contents_size { owner < length image.old.memory.pages.contents }
    requires table { slice_index_or image.old.memory.pages.table owner []
        ≡ replicate pages.now.layout.pages None }
    requires contents { slice_index_or image.old.memory.pages.contents owner []
        ≡ replicate pages.now.layout.pages None }
    ensures { OnOk result (image.new ≡ record image.old {
      memory = record image.old.memory {
        pages = record {
          table = slice_set image.old.memory.pages.table owner
              (slice_index_or pages.now.pages.table owner []);
          contents = slice_set image.old.memory.pages.contents owner
              (words_row pages.now.layout pages.now.pages owner);
        };
      };
    }) }
{
    for number in 0..image.layout().pages() {
        put_page(alloc, image, pages, owner, Page(number))?;
    }
    Ok(())
}

/// Adds one page, which has no entry in the Image.
fn put_page(
    alloc: Global,
    image: &mut Image,
    pages: &Pages,
    owner: Owner,
    page: Page,
) -> Result<(), AllocError>
    requires layout { image.old.layout ≡ pages.now.layout }
    requires settled { AreSettled pages.now.pages }
    requires owner { owner < pages.now.layout.owners }
    requires page { page < pages.now.layout.pages }
    requires entry { entry_of image.old.memory.pages.table owner page ≡ None }
    requires words { entry_of image.old.memory.pages.contents owner page ≡ None }
    ensures { OnOk result (image.new ≡ record image.old {
      memory = record image.old.memory {
        pages = record {
          table = with_entry image.old.memory.pages.table owner page
              (entry_of pages.now.pages.table owner page);
          contents = with_entry image.old.memory.pages.contents owner page
              (words_of pages.now.layout pages.now.pages owner page);
        };
      };
    }) }
{
    let Some(frame) = pages.frame_at(owner, page) else {
        return Ok(());
    };
    if let Some(slice) = pages.words(owner, page) {
        let words = Words::new(alloc, Vec::from_slice(alloc, slice)?)?;
        return image.add(Part::Mapped {
            owner,
            page,
            frame,
            words,
        });
    }
    Ok(())
}
