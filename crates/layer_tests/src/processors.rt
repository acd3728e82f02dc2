ghost use Rattle.std.specs.Prelude.{◌≡◌, IfOk, IfSome};
ghost use Rattle.hp_units.specs.Boot.{empty_cached};
ghost use Rattle.hp_tape.specs.Tapes.{HasRoom};
ghost use Rattle.hp_buddy.specs.Cpus.{AreTogether, MayBePut};
ghost use Rattle.layer_tests.specs.SmallLayouts.{two_blocks};

use crate::areas::one_free_pageblock;
use crate::layouts::two_blocks;
use hp_buddy::{Buddy, Cpus};
use hp_tape::{Delta, ListId, Tape};
use hp_units::{Cpu, Frame, Pool, Zone};
use std::alloc::Global;
use std::test::Fail;

/// Processors' lists, and the free areas that refill them.
struct Small {
    cpus: Cpus,
    buddy: Buddy,
}

/// Returns the empty lists of one processor, and one free pageblock of zone Normal.
fn small_memory(alloc: Global) -> Result<Small, Fail>
    ensures layout { IfOk result (λ m. m.cpus.layout ≡ two_blocks) }
    ensures together { IfOk result (λ m. AreTogether m.cpus m.buddy) }
{
    let layout = two_blocks(alloc)?;
    let buddy = one_free_pageblock(alloc, &layout)?;
    let empty = Cpus::new(alloc, &layout)?;
    let cpus = empty.copy(alloc)?;
    Ok(Small { cpus, buddy })
}

/// Takes a frame from the movable pool of zone Normal.
fn take(cpus: &mut Cpus, buddy: &mut Buddy, tape: &mut Tape) -> Option<Frame>
    requires layout { cpus.old.layout ≡ two_blocks }
    requires together { AreTogether cpus.old buddy.old }
    requires room { HasRoom tape.old 4 }
    ensures layout { cpus.new.layout ≡ two_blocks }
    ensures together { AreTogether cpus.new buddy.new }
    ensures frame { IfSome result (MayBePut cpus.new buddy.new) }
{
    cpus.take_one(Cpu(0), Pool::Nm, buddy, tape)
}

/// Puts a frame of zone Normal on its list. Returns whether it is alone there.
fn puts(cpus: &mut Cpus, buddy: &mut Buddy, frame: Frame, tape: &mut Tape) -> bool
    requires layout { cpus.old.layout ≡ two_blocks }
    requires together { AreTogether cpus.old buddy.old }
    requires frame { MayBePut cpus.old buddy.old frame }
    requires room { HasRoom tape.old 4 }
    ensures layout { cpus.new.layout ≡ two_blocks }
    ensures together { AreTogether cpus.new buddy.new }
{
    cpus.put_one(Cpu(0), Zone::Normal, frame, buddy, tape);
    cpus.front(Cpu(0), Pool::Nm) == Some(frame) && cpus.len(Cpu(0), Pool::Nm) == 1
}

/// Drains the lists if each has at most one frame. Returns whether the list of pool Nm is then
/// empty.
fn drains(cpus: &mut Cpus, buddy: &mut Buddy, tape: &mut Tape) -> bool
    requires layout { cpus.old.layout ≡ two_blocks }
    requires together { AreTogether cpus.old buddy.old }
    requires room { HasRoom tape.old 9 }
{
    let cpu = Cpu(0);
    if cpus.len(cpu, Pool::Nu) <= 1
        && cpus.len(cpu, Pool::Nm) <= 1
        && cpus.len(cpu, Pool::Mm) <= 1
    {
        cpus.drain(cpu, buddy, tape);
    }
    cpus.len(cpu, Pool::Nm) == 0
}

/// Takes a frame, puts it on its list and drains the lists. Returns whether each of these works.
fn goes_round(cpus: &mut Cpus, buddy: &mut Buddy, alloc: Global) -> Result<bool, Fail>
    requires layout { cpus.old.layout ≡ two_blocks }
    requires together { AreTogether cpus.old buddy.old }
{
    let mut taking = Tape::with_room(alloc, 4)?;
    let mut putting = Tape::with_room(alloc, 4)?;
    let mut draining = Tape::with_room(alloc, 9)?;
    let Some(frame) = take(cpus, buddy, &mut taking) else {
        return Ok(false);
    };
    let is_put = puts(cpus, buddy, frame, &mut putting);
    Ok(is_put && drains(cpus, buddy, &mut draining))
}

#[test]
fn frames_go_in_and_out(rt: HostRuntime) -> Result<(), Fail> {
    let Small {
        mut cpus,
        mut buddy,
    } = small_memory(rt.alloc())?;
    assert!(rt; goes_round(&mut cpus, &mut buddy, rt.alloc())?);
    Ok(())
}

/// Undoes the delta of a frame that left its list. Returns whether the frame is back on the empty
/// list.
fn is_back(cpus: &mut Cpus) -> bool
    requires layout { cpus.old.layout ≡ two_blocks }
    requires cached { cpus.old.cached ≡ empty_cached two_blocks }
{
    cpus.back(Delta::Unlink {
        list: ListId::Cpu {
            pool: Pool::Mm,
            cpu: 0,
        },
        frame: Frame(3),
        after: None,
    });
    cpus.front(Cpu(0), Pool::Mm) == Some(Frame(3)) && cpus.next(Frame(3)).is_none()
}

#[test]
fn goes_back(rt: HostRuntime) -> Result<(), Fail> {
    let layout = two_blocks(rt.alloc())?;
    let mut cpus = Cpus::new(rt.alloc(), &layout)?;
    assert!(rt; is_back(&mut cpus));
    Ok(())
}
