//! A talk: reads lines and writes a reply to each, until it ends.
ghost use Rattle.std.specs.Prelude.{◌≡◌, ◌≢◌, ◌<◌, ◌-◌, ◌^◌, List, ℕ, [], IfNone, IfOk, OnErr, Some, length};
ghost use Rattle.hp_streams.specs.Ends.{BlockHeard, HearsMore, IsReadCalm, IsTalk, IsWriteCalm, LastHeard};
ghost use Rattle.hp_streams.specs.Talks.{Holds, IsWhole, desk, nothing_held};
ghost use Rattle.hp_streams.specs.declared.talking.TalkEnd.TheVariants.{ReadFailed, WriteFailed};

use crate::hearing::{Pause, hear, hear_line};
use crate::held::Held;
use crate::replying::Talk;
use crate::sending::send;
use crate::{Failed, Sink, Source};
use std::alloc::{AllocError, Global};

/// How many bytes are read at once.
const BLOCK: usize = 65_536;

/// How a talk ended.
#[derive(Clone, Copy, Drop)]
pub enum TalkEnd {
    /// At the end of the input.
    Input,
    /// At a line `quit`.
    Quit,
    /// At a read that failed.
    ReadFailed,
    /// At a write that failed.
    WriteFailed,
    /// After 2^64 - 1 reads.
    Worn,
}

/// Replies to each line that the reader gives, and writes the replies, until the talk ends. What
/// was written is sent before more is read, so whoever waits for a reply gets it.
///
/// The last line may lack its newline. An empty line is a line. Fails if there is no memory for its
/// buffers; nothing was read then.
pub fn run_talk<T: Talk, R: Source, W: Sink>(
    talk: &mut T,
    alloc: Global,
    reader: &mut R,
    writer: &mut W,
) -> Result<TalkEnd, AllocError>
    requires reader { R.failures reader.old < 2 ^ 64 - 1 }
    requires writer { W.failures writer.old < 2 ^ 64 - 1 }
    ensures ok { IfOk result (λ end. IsTalk T.replies end talk.old talk.new (R.remaining reader.old)
        (R.remaining reader.new) (W.contents writer.old) (W.contents writer.new)) }
    ensures read { IfOk result
        (λ end. end ≡ ReadFailed → R.failures reader.old < R.failures reader.new) }
    ensures written { IfOk result
        (λ end. end ≡ WriteFailed → W.failures writer.old < W.failures writer.new) }
    ensures err { OnErr result ((reader.new ≡ reader.old) × (writer.new ≡ writer.old)) }
{
    let mut held = Held::new(alloc)?;
    let mut block = vec![in alloc; 0u8; BLOCK]?;
    let mut out = Vec::with_capacity(alloc, 2 * BLOCK)?;
    Ok(talk_on(talk, alloc, &mut held, &mut block, &mut out, reader, writer))
}

/// Reads, replies and sends until the talk ends. At the start, `held` is empty, and nothing waits
/// to be sent.
fn talk_on<T: Talk, R: Source, W: Sink>(
    talk: &mut T,
    alloc: Global,
    held: &mut Held,
    block: &mut [u8],
    out: &mut Vec<u8>,
    reader: &mut R,
    writer: &mut W,
) -> TalkEnd
    requires reader { R.failures reader.old < 2 ^ 64 - 1 }
    requires writer { W.failures writer.old < 2 ^ 64 - 1 }
    requires held { held.old ≡ nothing_held }
    requires out { out.old.items ≡ [] }
    requires block { 0 < length block.old }
    ensures ok { IsTalk T.replies result talk.old talk.new (R.remaining reader.old)
        (R.remaining reader.new) (W.contents writer.old) (W.contents writer.new) }
    ensures read { result ≡ ReadFailed → R.failures reader.old < R.failures reader.new }
    ensures written { result ≡ WriteFailed → W.failures writer.old < W.failures writer.new }
{
    for _read in 0..u64::MAX {
        if let Some(end) = hear_more(talk, alloc, held, block, out, reader, writer) {
            return end;
        }
    }
    TalkEnd::Worn
}

/// Reads a block, replies to the lines that end in it, and sends the replies. Returns how the talk
/// ended, or `None` if it goes on. In that case nothing waits to be sent, as at the start.
fn hear_more<T: Talk, R: Source, W: Sink>(
    talk: &mut T,
    alloc: Global,
    held: &mut Held,
    block: &mut [u8],
    out: &mut Vec<u8>,
    reader: &mut R,
    writer: &mut W,
) -> Option<TalkEnd>
    requires reader { R.failures reader.old < 2 ^ 64 - 1 }
    requires writer { W.failures writer.old < 2 ^ 64 - 1 }
    requires out { out.old.items ≡ [] }
    requires block { 0 < length block.old }
    ensures block { length block.new ≡ length block.old }
    ensures heard { (line : List ℕ) → IsWhole line → Holds held.old line
        → HearsMore T.replies result (desk talk.old (W.contents writer.old) []) line
        (R.remaining reader.old) (R.remaining reader.new) (desk talk.new (W.contents writer.new) [])
        held.new }
    ensures out { IfNone result (out.new.items ≡ []) }
    ensures reads { IsReadCalm result (R.failures reader.old) (R.failures reader.new) }
    ensures writes { IsWriteCalm result (W.failures writer.old) (W.failures writer.new) }
{
    match reader.read(block) {
        Ok(0) => Some(hear_last(talk, alloc, held, out, writer)),
        Ok(count) => hear_block(talk, alloc, held, &block[..count], out, writer),
        Err(Failed) => Some(TalkEnd::ReadFailed),
    }
}

/// Replies to the lines that end in a block, and sends the replies. Returns how the talk ended, or
/// `None` if it goes on.
fn hear_block<T: Talk, W: Sink>(
    talk: &mut T,
    alloc: Global,
    held: &mut Held,
    block: &[u8],
    out: &mut Vec<u8>,
    writer: &mut W,
) -> Option<TalkEnd>
    requires writer { W.failures writer.old < 2 ^ 64 - 1 }
    requires out { out.old.items ≡ [] }
    ensures heard { (line : List ℕ) → IsWhole line → Holds held.old line
        → BlockHeard T.replies result (desk talk.old (W.contents writer.old) []) line block.now
        (desk talk.new (W.contents writer.new) []) held.new }
    ensures out { IfNone result (out.new.items ≡ []) }
    ensures read { result ≢ Some ReadFailed }
    ensures writes { IsWriteCalm result (W.failures writer.old) (W.failures writer.new) }
{
    match hear(talk, alloc, held, block, out, writer) {
        Pause::More => match send(writer, out) {
            Ok(()) => None,
            Err(Failed) => Some(TalkEnd::WriteFailed),
        },
        Pause::Quit => match send(writer, out) {
            Ok(()) => Some(TalkEnd::Quit),
            Err(Failed) => Some(TalkEnd::WriteFailed),
        },
        Pause::Broken => Some(TalkEnd::WriteFailed),
    }
}

/// Replies to the last line of the input if it lacks its newline, and sends the reply. Returns how
/// the talk ended.
fn hear_last<T: Talk, W: Sink>(
    talk: &mut T,
    alloc: Global,
    held: &mut Held,
    out: &mut Vec<u8>,
    writer: &mut W,
) -> TalkEnd
    requires writer { W.failures writer.old < 2 ^ 64 - 1 }
    requires out { out.old.items ≡ [] }
    ensures heard { (line : List ℕ) → IsWhole line → Holds held.old line
        → LastHeard T.replies result (desk talk.old (W.contents writer.old) []) line
        (desk talk.new (W.contents writer.new) []) }
    ensures read { result ≢ ReadFailed }
    ensures written { result ≡ WriteFailed → W.failures writer.old < W.failures writer.new }
{
    if held.is_empty() {
        return TalkEnd::Input;
    }
    match hear_line(talk, alloc, held, b"", out, writer) {
        Pause::More => match send(writer, out) {
            Ok(()) => TalkEnd::Input,
            Err(Failed) => TalkEnd::WriteFailed,
        },
        Pause::Quit => TalkEnd::Quit,
        Pause::Broken => TalkEnd::WriteFailed,
    }
}
