//! Hears a block of bytes: replies to each line that ends in it.
ghost use Rattle.std.specs.Prelude.{◌≡◌, ◌≢◌, ◌<◌, ◌-◌, ◌^◌, ◌++◌, List, ℕ};
ghost use Rattle.hp_streams.specs.Talks.{Hears, HearsLine, Holds, IsWhole, desk};
ghost use Rattle.hp_streams.specs.declared.hearing.Pause.TheVariants.{Broken};

use crate::cuts::cut;
use crate::held::Held;
use crate::replying::Talk;
use crate::sending::say;
use crate::{Failed, Sink};
use std::alloc::Global;

/// Where the replies to the lines of a block ended.
#[derive(Clone, Copy, Drop)]
pub(crate) enum Pause {
    /// At the end of the block.
    More,
    /// At a line that ends the talk.
    Quit,
    /// At a write that failed.
    Broken,
}

/// Replies to each line that ends in `block`, and keeps the beginning of the next line in `held`.
/// The first line begins with what `held` has. Stops at a line `quit`, and at a write that fails.
pub(crate) fn hear<T: Talk, W: Sink>(
    talk: &mut T,
    alloc: Global,
    held: &mut Held,
    block: &[u8],
    out: &mut Vec<u8>,
    writer: &mut W,
) -> Pause
    requires { W.failures writer.old < 2 ^ 64 - 1 }
    ensures heard { (line : List ℕ) → IsWhole line → Holds held.old line
        → Hears T.replies result (desk talk.old (W.contents writer.old) out.old.items) (line ++ block.now)
        (desk talk.new (W.contents writer.new) out.new.items) held.new }
    ensures calm { result ≢ Broken → W.failures writer.new ≡ W.failures writer.old }
    ensures failed { result ≡ Broken → W.failures writer.old < W.failures writer.new }
{
    let mut rest = block;
    while let Some((front, after)) = cut(rest) {
        match hear_line(talk, alloc, held, front, out, writer) {
            Pause::More => rest = after,
            pause => return pause,
        }
    }
    held.hold(rest);
    Pause::More
}

/// Replies to a line, unless it is `quit`. Its beginning is in `held`, and `end` is the rest of it.
pub(crate) fn hear_line<T: Talk, W: Sink>(
    talk: &mut T,
    alloc: Global,
    held: &mut Held,
    end: &[u8],
    out: &mut Vec<u8>,
    writer: &mut W,
) -> Pause
    requires { W.failures writer.old < 2 ^ 64 - 1 }
    ensures heard { (line : List ℕ) → Holds held.old line
        → HearsLine T.replies result (desk talk.old (W.contents writer.old) out.old.items) (line ++ end.now)
        (desk talk.new (W.contents writer.new) out.new.items) held.new }
    ensures calm { result ≢ Broken → W.failures writer.new ≡ W.failures writer.old }
    ensures failed { result ≡ Broken → W.failures writer.old < W.failures writer.new }
{
    held.hold(end);
    if held.is_quit() {
        return Pause::Quit;
    }
    let said = say(talk, alloc, held, out, writer);
    held.clear();
    match said {
        Ok(()) => Pause::More,
        Err(Failed) => Pause::Broken,
    }
}
