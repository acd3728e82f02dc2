//! Adding the processors' lists to an Image.
ghost use Rattle.std.specs.Prelude.{◌≡◌, ℕ, ◌+◌, ◌*◌, ◌<◌, ◌≤◌, true, [], OnOk, length};
ghost use Rattle.hp_units.specs.Arithmetic.{IsFrame};
ghost use Rattle.hp_units.specs.FreeAreas.{is_on};
ghost use Rattle.hp_units.specs.Memory.{cached_list, with_cached_list};
ghost use Rattle.hp_units.specs.declared.rows.Pool.{Pool};
ghost use Rattle.hp_buddy.specs.Cpus.{list_of};
ghost use Rattle.hp_memory.specs.Tables.{AreCopied};

use hp_buddy::Cpus;
use hp_plain::{Image, Part, pool_numbered};
use hp_units::{Cpu, Pool};
use std::alloc::{AllocError, Global};

/// Adds the processors' lists to an Image whose lists are empty.
pub fn put_cpus(alloc: Global, image: &mut Image, cpus: &Cpus) -> Result<(), AllocError>
    requires layout { image.old.layout ≡ cpus.now.layout }
    requires within { (cpu : ℕ) (pool : Pool) (frame : ℕ) → is_on frame (list_of cpus.now cpu pool) ≡ true
        → IsFrame cpus.now.layout frame }
    requires size { length cpus.now.cached ≡ 3 * cpus.now.layout.cpus }
    requires lists { AreCopied [] [] 0 cpus.now.cached image.old.memory.free.cached }
    ensures { OnOk result (image.new ≡ record image.old {
      memory =
          record image.old.memory { free = record image.old.memory.free { cached = cpus.now.cached } };
    }) }
{
    for number in 0..3 * image.layout().cpus() {
        put_list(
            alloc,
            image,
            cpus,
            Cpu(number / 3),
            pool_numbered(number % 3),
        )?;
    }
    Ok(())
}

/// Adds the frames of a processor's list of a pool. The Image's list is empty.
fn put_list(
    alloc: Global,
    image: &mut Image,
    cpus: &Cpus,
    cpu: Cpu,
    pool: Pool,
) -> Result<(), AllocError>
    requires layout { image.old.layout ≡ cpus.now.layout }
    requires cpu { cpu < cpus.now.layout.cpus }
    requires within { (other : ℕ) (among : Pool) (frame : ℕ)
        → is_on frame (list_of cpus.now other among) ≡ true → IsFrame cpus.now.layout frame }
    requires size { 3 * cpu + 3 ≤ length image.old.memory.free.cached }
    requires none { cached_list image.old.memory.free cpu pool ≡ [] }
    ensures { OnOk result (image.new ≡ record image.old {
      memory = record image.old.memory
          { free = with_cached_list image.old.memory.free cpu pool (list_of cpus.now cpu pool) };
    }) }
{
    let list = cpus.list(alloc, cpu, pool)?;
    let frames = list.as_slice();
    for number in 0..frames.len() {
        let frame = frames[number];
        image.add(Part::Cached { cpu, pool, frame })?;
    }
    Ok(())
}
