ghost use Rattle.std.specs.Prelude.{◌≡◌, IfOk};
ghost use Rattle.hp_units.specs.Boot.{empty_blocks};
ghost use Rattle.hp_tape.specs.Tapes.{HasRoom};
ghost use Rattle.layer_tests.specs.SmallLayouts.{two_blocks};

use crate::layouts::two_blocks;
use hp_pages::Blocks;
use hp_tape::{Delta, Tape};
use hp_units::{Auto, Block, Row, Serial, State, Wish, Zone};
use std::alloc::Global;
use std::test::Fail;

/// Returns the rows of two memory blocks in a new layer.
fn small_blocks(alloc: Global) -> Result<Blocks, Fail>
    ensures { IfOk result
        (λ b. b ≡ record { layout = two_blocks; blocks = empty_blocks two_blocks }) }
{
    let layout = two_blocks(alloc)?;
    let blocks = Blocks::new(alloc, &layout)?;
    let copy = blocks.copy(alloc)?;
    Ok(copy)
}

/// Sets the row of the second memory block and claims the block. Sets what added blocks become, and
/// undoes that. Returns whether the layer shows each of these changes.
fn is_claimed_and_set(blocks: &mut Blocks, tape: &mut Tape) -> bool
    requires blocks { blocks.old ≡ record { layout = two_blocks; blocks = empty_blocks two_blocks } }
    requires room { HasRoom tape.old 3 }
{
    blocks.set(Block(1), Row::online(Zone::Movable), tape);
    blocks.claim(Block(1), Serial(5), Wish::Off, tape);
    blocks.set_auto(Auto::Online, tape);
    let is_set = blocks.auto() == Auto::Online
        && blocks.is_live(Serial(5))
        && blocks.next_claimed(Serial(5), Block(0)) == Some(Block(1))
        && blocks.next_claimed(Serial(5), Block(2)).is_none();
    blocks.back(Delta::Auto {
        was: Auto::Offline,
        now: Auto::Online,
    });
    is_set && blocks.auto() == Auto::Offline && blocks.row(Block(1)).state == State::Going
}

#[test]
fn sets_and_goes_back(rt: HostRuntime) -> Result<(), Fail> {
    let mut blocks = small_blocks(rt.alloc())?;
    let mut tape = Tape::with_room(rt.alloc(), 3)?;
    assert!(rt; is_claimed_and_set(&mut blocks, &mut tape));
    Ok(())
}
