//! Sends what was written.
ghost use Rattle.std.specs.Prelude.{◌≡◌, ◌<◌, ◌-◌, ◌^◌, List, ℕ, [], OnErr, OnOk};
ghost use Rattle.std.specs.Io.KnownBytes.{Appends};
ghost use Rattle.hp_streams.specs.Talks.{Breaks, Holds, Misses, RepliesTo, Says, Sends, desk};

use crate::held::Held;
use crate::replying::Talk;
use crate::{Failed, Sink};
use std::alloc::{AllocError, Global};

/// If at least this many bytes wait to be sent, they are sent before the next line is replied to.
const MUCH: usize = 65_536;

/// Sends bytes. If a call of the writer fails, a beginning of them was sent.
fn send_all<W: Sink>(writer: &mut W, bytes: &[u8]) -> Result<(), Failed>
    requires { W.failures writer.old < 2 ^ 64 - 1 }
    ensures ok { OnOk result (Appends (W.contents writer.old) (W.contents writer.new) bytes.now) }
    ensures calm { OnOk result (W.failures writer.new ≡ W.failures writer.old) }
    ensures err { OnErr result (Breaks (W.contents writer.old) bytes.now [] (W.contents writer.new)) }
    ensures failed { OnErr result (W.failures writer.old < W.failures writer.new) }
{
    let mut at = 0;
    while at < bytes.len() {
        match writer.write(&bytes[at..]) {
            Ok(count) => at += count,
            Err(Failed) => return Err(Failed),
        }
    }
    Ok(())
}

/// Sends all bytes of `out`, which waited to be sent, and empties it.
pub(crate) fn send<W: Sink>(writer: &mut W, out: &mut Vec<u8>) -> Result<(), Failed>
    requires { W.failures writer.old < 2 ^ 64 - 1 }
    ensures ok { OnOk result (Appends (W.contents writer.old) (W.contents writer.new) out.old.items) }
    ensures empty { OnOk result (out.new.items ≡ []) }
    ensures calm { OnOk result (W.failures writer.new ≡ W.failures writer.old) }
    ensures err { OnErr result
        (Breaks (W.contents writer.old) out.old.items [] (W.contents writer.new)) }
    ensures failed { OnErr result (W.failures writer.old < W.failures writer.new) }
{
    send_all(writer, out.as_slice())?;
    out.clear();
    Ok(())
}

/// Sends the bytes of `out`, which wait to be sent, if they are at least `MUCH`.
fn send_much<W: Sink>(writer: &mut W, out: &mut Vec<u8>) -> Result<(), Failed>
    requires { W.failures writer.old < 2 ^ 64 - 1 }
    ensures ok { OnOk result (Sends (W.contents writer.old) out.old.items []
        (W.contents writer.new) out.new.items) }
    ensures calm { OnOk result (W.failures writer.new ≡ W.failures writer.old) }
    ensures err { OnErr result
        (Breaks (W.contents writer.old) out.old.items [] (W.contents writer.new)) }
    ensures failed { OnErr result (W.failures writer.old < W.failures writer.new) }
{
    if out.len() < MUCH {
        return Ok(());
    }
    send(writer, out)
}

/// Sends the bytes of `out`, which waited to be sent, and a text after them.
fn send_with<W: Sink>(writer: &mut W, out: &mut Vec<u8>, text: &str) -> Result<(), Failed>
    requires { W.failures writer.old < 2 ^ 64 - 1 }
    ensures ok { OnOk result (Sends (W.contents writer.old) out.old.items text.now
        (W.contents writer.new) out.new.items) }
    ensures calm { OnOk result (W.failures writer.new ≡ W.failures writer.old) }
    ensures err { OnErr result
        (Breaks (W.contents writer.old) out.old.items text.now (W.contents writer.new)) }
    ensures failed { OnErr result (W.failures writer.old < W.failures writer.new) }
{
    match send(writer, out) {
        Ok(()) => send_all(writer, text.as_bytes()),
        Err(Failed) => Err(Failed),
    }
}

/// Replies to the line that is held, and then sends what waits if it is at least `MUCH` bytes. If
/// there is no memory for the reply, sends what waits, and then the text of `Talk::lost`.
pub(crate) fn say<T: Talk, W: Sink>(
    talk: &mut T,
    alloc: Global,
    held: &Held,
    out: &mut Vec<u8>,
    writer: &mut W,
) -> Result<(), Failed>
    requires { W.failures writer.old < 2 ^ 64 - 1 }
    ensures ok { OnOk result ((line : List ℕ) → Holds held.now line
        → Says T.replies (desk talk.old (W.contents writer.old) out.old.items) line
        (desk talk.new (W.contents writer.new) out.new.items)) }
    ensures calm { OnOk result (W.failures writer.new ≡ W.failures writer.old) }
    ensures err { OnErr result ((line : List ℕ) → Holds held.now line
        → Misses T.replies (desk talk.old (W.contents writer.old) out.old.items) line
        (desk talk.new (W.contents writer.new) out.new.items)) }
    ensures failed { OnErr result (W.failures writer.old < W.failures writer.new) }
{
    match reply(talk, alloc, held, out) {
        Ok(()) => send_much(writer, out),
        Err(AllocError) => send_with(writer, out, talk.lost()),
    }
}

/// Appends the reply to the line that is held.
fn reply<T: Talk>(
    talk: &mut T,
    alloc: Global,
    held: &Held,
    out: &mut Vec<u8>,
) -> Result<(), AllocError>
    ensures ok { OnOk result ((line : List ℕ) → Holds held.now line
        → RepliesTo T.replies talk.old line out.old.items talk.new out.new.items) }
    ensures err { OnErr result ((line : List ℕ) → Holds held.now line
        → T.replies talk.old line T.lost_text talk.new) }
    ensures kept { OnErr result (out.new.items ≡ out.old.items) }
{
    if held.is_long() {
        talk.reply_to_long(alloc, out)
    } else {
        talk.reply(alloc, held.bytes(), out)
    }
}
