//! Serves a command from a reader to a writer.

ghost use Rattle.std.specs.Prelude.{◌≡◌, ◌≢◌, ◌<◌, ◌-◌, ◌^◌, Some, IfErr, IfOk, OnOk, string_bytes};
ghost use Rattle.std.specs.Io.KnownBytes.{Appends, Keeps};
ghost use Rattle.hp_streams.specs.Reading.{ReadsAll};
ghost use Rattle.hp_commands.specs.Served.{IsOutputOf, Serves, WritesTextOf};
ghost use Rattle.hp_commands.specs.Faults.{IsFaultOf};
ghost use Rattle.hp_commands.specs.declared.commands.Command.TheVariants.{Serial};

use crate::audits::audit;
use crate::commands::Command;
use crate::fault::ProgramFault;
use crate::runs::run;
use crate::serial::serial;
use hp_streams::{Failed, Sink, Source, read_all, write_all};
use std::alloc::Global;
use std::sync::Wait;
use std::thread::Threads;

/// Writes a text.
fn write_text<W: Sink>(writer: &mut W, text: &str) -> Result<(), ProgramFault>
    requires { W.failures writer.old < 2 ^ 64 - 1 }
    ensures ok { OnOk result (Appends (W.contents writer.old) (W.contents writer.new) text.now) }
    ensures err { IfErr result
        (λ fault. (fault ≡ ProgramFault.WriteFailed) × (W.failures writer.old < W.failures writer.new)) }
{
    match write_all(writer, text.as_bytes()) {
        Ok(()) => Ok(()),
        Err(Failed) => Err(ProgramFault::WriteFailed),
    }
}

/// Runs a command on what the reader gives, and writes its text. `Run` and `Audit` may wait for
/// their workers.
pub fn serve<R: Source, W: Sink, T: Threads + Wait + Sync>(
    rt: &T,
    command: Command,
    alloc: Global,
    reader: &mut R,
    writer: &mut W,
) -> Result<(), ProgramFault>
    requires reader { R.failures reader.old < 2 ^ 64 - 1 }
    requires writer { W.failures writer.old < 2 ^ 64 - 1 }

    // The reader gave all that it had, at most the limit.
    ensures read { OnOk result (ReadsAll (R.remaining reader.old) (R.remaining reader.new)) }
    // The writer got the command's text for the bytes that were read, and nothing else.
    ensures ok { OnOk result
        (Serves command (R.remaining reader.old) (W.contents writer.old) (W.contents writer.new)) }
    // After any fault except `WriteFailed`, nothing was written.
    ensures silent { IfErr result
        (λ fault. fault ≢ ProgramFault.WriteFailed → Keeps (W.contents writer.old) (W.contents writer.new)) }
    // Each fault comes only from its cause.
    ensures err { IfErr result (IsFaultOf command (R.remaining reader.old)
        (R.failures reader.old < R.failures reader.new) (W.failures writer.old < W.failures writer.new)) }
{
    let input = read_all(alloc, reader)?;
    let text = text_of(rt, command, alloc, input)?;
    write_text(writer, &text)
}

/// Returns the text that a command makes of its input.
fn text_of<T: Threads + Wait + Sync>(
    rt: &T,
    command: Command,
    alloc: Global,
    input: Vec<u8>,
) -> Result<String, ProgramFault>
    ensures ok { IfOk result (λ out. IsOutputOf command input.items (string_bytes out)) }
    ensures err { IfErr result (IsFaultOf command (Some input.items) ⊥ ⊥) }
{
    match command {
        Command::Serial => serial(alloc, input),
        Command::Run => run(rt, alloc, &input),
        Command::Audit => audit(rt, alloc, &input),
    }
}

/// Runs the scenario that the reader gives, and writes its text.
pub fn serve_serial<R: Source, W: Sink>(
    alloc: Global,
    reader: &mut R,
    writer: &mut W,
) -> Result<(), ProgramFault>
    requires reader { R.failures reader.old < 2 ^ 64 - 1 }
    requires writer { W.failures writer.old < 2 ^ 64 - 1 }

    // The reader gave all that it had, at most the limit.
    ensures read { OnOk result (ReadsAll (R.remaining reader.old) (R.remaining reader.new)) }
    // The writer got the text for the bytes that were read, and nothing else.
    ensures ok { OnOk result
        (WritesTextOf (R.remaining reader.old) (W.contents writer.old) (W.contents writer.new)) }
    // After any fault except `WriteFailed`, nothing was written.
    ensures silent { IfErr result
        (λ fault. fault ≢ ProgramFault.WriteFailed → Keeps (W.contents writer.old) (W.contents writer.new)) }
    // Each fault comes only from its cause.
    ensures err { IfErr result (IsFaultOf Serial (R.remaining reader.old)
        (R.failures reader.old < R.failures reader.new) (W.failures writer.old < W.failures writer.new)) }
{
    let input = read_all(alloc, reader)?;
    let text = serial(alloc, input)?;
    write_text(writer, &text)
}
