//! Parts that are added to a state. If memory runs out, the state must be as before, and the part
//! is added again.
ghost use Rattle.std.specs.Prelude.{◌≡◌};
ghost use Rattle.hp_units.specs.Arithmetic.{frame_count};

use crate::trouble::{Case, Outcome, Trouble, expect};
use crate::values::{layout_of, two_words};
use hp_plain::{Image, Part};
use hp_units::{Class, Cpu, Frame, Order, Owner, Page, Pool};
use std::alloc::{AllocError, Global};

/// The kind of a part to add.
#[derive(Clone, Copy)]
enum Addition {
    /// A free block.
    Free,
    /// A frame of a processor's list.
    Cached,
    /// A page.
    Page,
}

/// Adds a part of each kind to an empty state.
pub fn run(case: &mut Case<'_>) -> Outcome {
    let layout = layout_of(case.alloc, 10)?;
    let mut image = Image::empty(case.alloc, &layout)?;
    add_all(case, &mut image)
}

/// Adds a part of each kind.
fn add_all(case: &mut Case<'_>, image: &mut Image) -> Outcome {
    add(case, image, Addition::Free)?;
    add(case, image, Addition::Cached)?;
    add(case, image, Addition::Page)
}

/// Adds a part. If memory runs out, checks that the state is as before and adds it again.
fn add(case: &mut Case<'_>, image: &mut Image, addition: Addition) -> Outcome {
    let before = image.copy(case.alloc)?;
    match put(case.alloc, image, addition) {
        Ok(()) => Ok(()),
        Err(trouble) => {
            let is_kept = expect(image.same(&before));
            case.refused(trouble, is_kept)?;
            put(case.alloc, image, addition)
        }
    }
}

/// Adds a part, and checks that it is there.
fn put(alloc: Global, image: &mut Image, addition: Addition) -> Outcome {
    let layout = image.layout();
    if layout.order() != 2 || layout.frames() != 16 || layout.cpus() != 2 {
        return Err(Trouble::Wrong);
    }
    if layout.owners() != 2 || layout.pages() != 8 || layout.words() != 2 {
        return Err(Trouble::Wrong);
    }
    put_small(alloc, image, addition)?;
    expect(is_there(image, addition))
}

/// Adds a part to a state of sixteen frames.
fn put_small(alloc: Global, image: &mut Image, addition: Addition) -> Result<(), AllocError>
    requires order { image.old.layout.order ≡ 2 }
    requires frames { frame_count image.old.layout ≡ 16 }
    requires cpus { image.old.layout.cpus ≡ 2 }
    requires owners { image.old.layout.owners ≡ 2 }
    requires pages { image.old.layout.pages ≡ 8 }
    requires words { image.old.layout.words ≡ 2 }
{
    match addition {
        Addition::Free => image.add(Part::Free {
            class: Class::Nm,
            order: Order(1),
            frame: Frame(4),
        }),
        Addition::Cached => image.add(Part::Cached {
            cpu: Cpu(1),
            pool: Pool::Nm,
            frame: Frame(6),
        }),
        Addition::Page => image.add(Part::Mapped {
            owner: Owner(1),
            page: Page(3),
            frame: Frame(5),
            words: two_words(alloc)?,
        }),
    }
}

/// Returns whether the part is there.
fn is_there(image: &Image, addition: Addition) -> bool {
    match addition {
        Addition::Free => image.list(Class::Nm, Order(1)) == [Frame(4)].as_slice(),
        Addition::Cached => image.cpu_list(Cpu(1), Pool::Nm) == [Frame(6)].as_slice(),
        Addition::Page => image.words(Owner(1), Page(3)) == Some([7, 9].as_slice()),
    }
}
