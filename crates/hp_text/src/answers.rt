//! The reply to an event.
ghost use Rattle.std.specs.Prelude.{◌≡◌, ◌++◌, OnOk, string_bytes};
ghost use Rattle.hp_units.specs.Texts.{reply_text};
ghost use Rattle.hp_text.specs.Answers.{bare_reply_line, fault_line, reply_line, sealed_line, unrecorded_line};

use crate::numbers::{write_number, write_numbered, write_pair};
use crate::refusals::{write_call_fault_name, write_refused};
use hp_units::{CallFault, Reply, Serial};
use std::alloc::AllocError;

/// Writes the serial of a record and its reply, as `3: frame 0`.
pub fn write_answer(out: &mut String, serial: Serial, reply: Reply) -> Result<(), AllocError>
    ensures { OnOk result (string_bytes out.new ≡ string_bytes out.old ++ reply_line serial reply) }
{
    write_number(out, serial.0)?;
    out.push_str(": ")?;
    write_reply(out, reply)
}

/// Writes a reply without its serial, as `frame 0`.
pub fn write_reply(out: &mut String, reply: Reply) -> Result<(), AllocError>
    ensures { OnOk result (string_bytes out.new ≡ string_bytes out.old ++ bare_reply_line reply) }
{
    write_reply_words(out, reply)?;
    out.push('\n')
}

/// Writes the words of a reply like `write_reply`, without the newline.
pub fn write_reply_words(out: &mut String, reply: Reply) -> Result<(), AllocError>
    ensures { OnOk result (string_bytes out.new ≡ string_bytes out.old ++ reply_text reply) }
{
    match reply {
        Reply::Frame(frame) => write_numbered(out, "frame ", u64::from(frame.0)),
        Reply::Word(value) => write_numbered(out, "word ", value),
        Reply::Moved { from, to } => {
            write_pair(out, "moved ", u64::from(from.0), u64::from(to.0))
        }
        Reply::Opened { op } => write_numbered(out, "opened ", op.0),
        Reply::Undone { count } => write_numbered(out, "undone ", count),
        Reply::Refused(refusal) => write_refused(out, refusal),
        Reply::Done => out.push_str("done"),
        Reply::Restored => out.push_str("restored"),
        Reply::Released => out.push_str("released"),
    }
}

/// Writes why an event left no record, with a dash in place of a serial, as `-: fault HistoryFull`.
pub fn write_unrecorded(out: &mut String, fault: CallFault) -> Result<(), AllocError>
    ensures { OnOk result (string_bytes out.new ≡ string_bytes out.old ++ unrecorded_line fault) }
{
    out.push_str("-: ")?;
    write_call_fault(out, fault)
}

/// Writes why an event left no record, as `fault HistoryFull`.
pub fn write_call_fault(out: &mut String, fault: CallFault) -> Result<(), AllocError>
    ensures { OnOk result (string_bytes out.new ≡ string_bytes out.old ++ fault_line fault) }
{
    out.push_str("fault ")?;
    write_call_fault_name(out, fault)?;
    out.push('\n')
}

/// Writes how many records a seal handed out, as `sealed 3`.
pub fn write_sealed(out: &mut String, count: u64) -> Result<(), AllocError>
    ensures { OnOk result (string_bytes out.new ≡ string_bytes out.old ++ sealed_line count) }
{
    write_numbered(out, "sealed ", count)?;
    out.push('\n')
}
