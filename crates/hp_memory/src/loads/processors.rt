//! Loading the processors' lists from an Image.
ghost use Rattle.std.specs.Prelude.{◌≡◌, ◌<◌, [], IfOk};
ghost use Rattle.hp_units.specs.LayoutParts.{IsLayout};
ghost use Rattle.hp_units.specs.Memory.{cached_list};
ghost use Rattle.hp_units.specs.Placement.{IsWellPlaced};
ghost use Rattle.hp_buddy.specs.Cpus.{list_of, with_list_of};
ghost use Rattle.hp_memory.specs.Tables.{AreCopied, ArePartly};

use hp_buddy::Cpus;
use hp_plain::{Image, pool_numbered};
use hp_tape::{Delta, ListId};
use hp_units::{Cpu, Pool};
use std::alloc::{AllocError, Global};

/// Creates the processors' lists of an Image. Its state must be well placed.
pub fn cpus_of(alloc: Global, image: &Image) -> Result<Cpus, AllocError>
    requires placed { IsWellPlaced image.now.layout image.now.memory }
    ensures { IfOk result
        (λ cpus. cpus ≡ record { layout = image.now.layout; cached = image.now.memory.free.cached }) }
{
    let mut cpus = Cpus::new(alloc, image.layout())?;
    load_lists(&mut cpus, image);
    Ok(cpus)
}

/// Loads the single frames onto empty lists.
fn load_lists(cpus: &mut Cpus, image: &Image)
    requires placed { IsWellPlaced image.now.layout image.now.memory }
    requires layout { cpus.old.layout ≡ image.now.layout }
    requires none { AreCopied [] [] 0 image.now.memory.free.cached cpus.old.cached }
    ensures { cpus.new ≡ record cpus.old { cached = image.now.memory.free.cached } }
{
    for number in 0..3 * image.layout().cpus() {
        load_list(cpus, image, Cpu(number / 3), pool_numbered(number % 3));
    }
}

/// Loads the frames of a processor's list of a pool, last one first.
fn load_list(cpus: &mut Cpus, image: &Image, cpu: Cpu, pool: Pool)
    requires limits { IsLayout image.now.layout }
    requires placed { IsWellPlaced image.now.layout image.now.memory }
    requires layout { cpus.old.layout ≡ image.now.layout }
    requires cpu { cpu < image.now.layout.cpus }
    requires partly { ArePartly image.now.memory.free.cached cpus.old.cached }
    requires none { list_of cpus.old cpu pool ≡ [] }
    ensures { cpus.new ≡ with_list_of cpus.old cpu pool (cached_list image.now.memory.free cpu pool) }
{
    let frames = image.cpu_list(cpu, pool);
    for number in 0..frames.len() {
        let frame = frames[frames.len() - 1 - number];
        cpus.back(Delta::Unlink {
            list: ListId::of_cpu(pool, cpu),
            frame,
            after: None,
        });
    }
}
