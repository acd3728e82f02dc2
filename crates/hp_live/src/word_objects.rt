//! Objects that do not answer a line.
ghost use Rattle.std.specs.Prelude.{◌≡◌, ◌++◌, [], ◌∷◌, OnErr, OnOk};
ghost use Rattle.hp_live.specs.Objects.{Adds};
ghost use Rattle.hp_live.specs.Talks.{fault_object, fault_tokens, word_object};

use crate::objects::{begin, write_fault_keys};
use json::Writer;
use std::alloc::{AllocError, Global};

/// Appends an object with one key and its text, and a newline.
pub(crate) fn write_word(
    out: &mut Vec<u8>,
    alloc: Global,
    key: &str,
    text: &str,
) -> Result<(), AllocError>
    ensures ok { OnOk result (out.new.items ≡ out.old.items ++ word_object key.now text.now) }
    ensures err { OnErr result (out.new.items ≡ out.old.items) }
{
    let mut writer = Writer::new(Vec::new(alloc));
    writer.begin_object()?;
    writer.key(key)?;
    writer.string(text)?;
    writer.end_object()?;
    append_line(out, writer.into_inner())
}

/// Appends an object that reports why a text cannot be read as a line, and a newline.
pub(crate) fn write_fault(
    out: &mut Vec<u8>,
    alloc: Global,
    number: u64,
    hint: &str,
) -> Result<(), AllocError>
    ensures ok { OnOk result (out.new.items ≡ out.old.items ++ fault_object number hint.now) }
    ensures err { OnErr result (out.new.items ≡ out.old.items) }
{
    let mut writer = Writer::new(Vec::new(alloc));
    write_fault_tokens(&mut writer, number, hint)?;
    append_line(out, writer.into_inner())
}

/// Writes the tokens of an object that reports why a text cannot be read as a line.
fn write_fault_tokens(writer: &mut Writer, number: u64, hint: &str) -> Result<(), AllocError>
    ensures { OnOk result (Adds writer.old writer.new (fault_tokens number hint.now)) }
{
    begin(writer, number, "")?;
    write_fault_keys(writer, hint)?;
    writer.end_object()
}

/// Appends an object and a newline.
fn append_line(out: &mut Vec<u8>, object: Vec<u8>) -> Result<(), AllocError>
    ensures ok { OnOk result (out.new.items ≡ out.old.items ++ (object.items ++ 10 ∷ [])) }
    ensures err { OnErr result (out.new.items ≡ out.old.items) }
{
    let mut line = object;
    line.push(b'\n')?;
    out.extend_from_slice(line.as_slice())
}
