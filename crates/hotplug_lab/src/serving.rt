//! Runs a command from a reader to a writer.

ghost use Rattle.std.specs.Prelude.{◌≡◌, ◌≢◌, ◌<◌, ◌-◌, ◌^◌, IfErr, IfOk, IfSome, OnOk, string_bytes};
ghost use Rattle.std.specs.Io.KnownBytes.{Appends, Keeps};
ghost use Rattle.hp_streams.specs.Reading.{ReadsAll};
ghost use Rattle.hp_lab_shell.specs.Needs.{unbegun_of};
ghost use Rattle.hotplug_lab.specs.Words.{Answers, IsServeFault, IsTextFault, IsUnanswered, Serves, ServesText};
ghost use Rattle.hp_scripts.specs.Named.{named_in};

use crate::answering::answer_to;
use hp_lab_shell::{Served, TextAndStatus, Word, look_for_line, unbegun_of};
use hp_search::LabProgramFault;
use hp_states::Watch;
use hp_streams::{Failed, Sink, Source, read_all, write_all};
use std::alloc::Global;
use std::sync::Wait;
use std::thread::Threads;

/// Reads a scenario, runs a command on it, and writes the text. `watch` gets the progress of a
/// search, and is dropped before anything is written.
///
/// Returns the exit status. If the command searches interleavings, also returns, per processor, the
/// first script line that works on operation 0 although the processor has begun none.
pub fn serve_word<R: Source, W: Sink, P: Watch + Drop>(
    rt: &(impl Threads + Wait + Sync),
    alloc: Global,
    word: Word<'_>,
    reader: &mut R,
    writer: &mut W,
    watch: P,
) -> Result<Served, LabProgramFault>
    requires reader { R.failures reader.old < 2 ^ 64 - 1 }
    requires writer { W.failures writer.old < 2 ^ 64 - 1 }

    // The reader is at its end, and what it gave was not longer than the limit.
    ensures read { OnOk result (ReadsAll (R.remaining reader.old) (R.remaining reader.new)) }
    // The writer got the command's text for the bytes that were read, and nothing else.
    ensures ok { IfOk result (λ served. Serves word.entry (R.remaining reader.old) (W.contents writer.old)
        (W.contents writer.new) served.status) }
    // Per processor, the first script line that works on operation 0 before that processor begins
    // one.
    ensures told { IfOk result (λ served. IfSome (R.remaining reader.old)
        (λ input. served.unbegun.items ≡ unbegun_of word.entry (named_in input))) }
    // After any fault but `WriteFailed`, nothing was written.
    ensures silent { IfErr result
        (λ fault. fault ≢ LabProgramFault.WriteFailed
        → Keeps (W.contents writer.old) (W.contents writer.new)) }
    // Each fault comes only from its cause.
    ensures err { IfErr result (IsServeFault word.entry (R.remaining reader.old)
        (R.failures reader.old < R.failures reader.new) (W.failures writer.old < W.failures writer.new)) }
{
    let input = read_all(alloc, reader)?;
    serve_text(rt, alloc, word, &input, writer, watch)
}

/// Runs a command on the text of a scenario, and writes the result. Does and returns what
/// `serve_word` does and returns after it has read that text.
pub fn serve_text<W: Sink, P: Watch + Drop>(
    rt: &(impl Threads + Wait + Sync),
    alloc: Global,
    word: Word<'_>,
    input: &[u8],
    writer: &mut W,
    watch: P,
) -> Result<Served, LabProgramFault>
    requires { W.failures writer.old < 2 ^ 64 - 1 }
    ensures ok { IfOk result (λ served. ServesText word.entry input.now (W.contents writer.old)
        (W.contents writer.new) served.status) }
    ensures told { IfOk result
        (λ served. served.unbegun.items ≡ unbegun_of word.entry (named_in input.now)) }
    ensures silent { IfErr result
        (λ fault. fault ≢ LabProgramFault.WriteFailed
        → Keeps (W.contents writer.old) (W.contents writer.new)) }
    ensures err { IfErr result
        (IsTextFault word.entry input.now (W.failures writer.old < W.failures writer.new)) }
{
    let answer = watched_answer(rt, alloc, input, word, watch)?;
    let unbegun = unbegun_of(alloc, input, word)?;
    let status = write_answer(writer, &answer)?;
    Ok(Served { status, unbegun })
}

/// Writes an answer's text, and returns its status.
fn write_answer<W: Sink>(writer: &mut W, answer: &TextAndStatus) -> Result<u8, LabProgramFault>
    requires { W.failures writer.old < 2 ^ 64 - 1 }
    ensures status { IfOk result (λ status. status ≡ answer.now.status) }
    ensures ok { OnOk result
        (Appends (W.contents writer.old) (W.contents writer.new) (string_bytes answer.now.text)) }
    ensures err { IfErr result
        (λ fault. (fault ≡ LabProgramFault.WriteFailed) × (W.failures writer.old < W.failures writer.new)) }
{
    match write_all(writer, answer.text.as_bytes()) {
        Ok(()) => Ok(answer.status),
        Err(Failed) => Err(LabProgramFault::WriteFailed),
    }
}

/// Returns the text and the exit status of a command on a scenario. `watch` gets the progress of a
/// search, and is dropped.
fn watched_answer<P: Watch + Drop>(
    rt: &(impl Threads + Wait + Sync),
    alloc: Global,
    input: &[u8],
    word: Word<'_>,
    mut watch: P,
) -> Result<TextAndStatus, LabProgramFault>
    ensures ok { IfOk result
        (λ answer. Answers word.entry input.now (string_bytes answer.text) answer.status) }
    ensures err { IfErr result (IsUnanswered word.entry input.now) }
{
    look_for_line(alloc, input, word)?;
    answer_to(rt, alloc, input, word, &mut watch)
}
