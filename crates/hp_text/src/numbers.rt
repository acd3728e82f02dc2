//! Numbers in decimal.
ghost use Rattle.std.specs.Prelude.{◌≡◌, ◌++◌, OnOk, string_bytes};
ghost use Rattle.std.specs.Fmt.{decimal};
ghost use Rattle.hp_text.specs.State.{number_word};

use itoa::Buffer;
use std::alloc::AllocError;

/// Writes a number.
pub(crate) fn write_number(out: &mut String, number: u64) -> Result<(), AllocError>
    ensures { OnOk result (string_bytes out.new ≡ string_bytes out.old ++ decimal number) }
{
    let mut digits = Buffer::new();
    out.push_str(digits.format(number))
}

/// Writes a number after a space.
pub(crate) fn write_word(out: &mut String, number: u64) -> Result<(), AllocError>
    ensures { OnOk result (string_bytes out.new ≡ string_bytes out.old ++ number_word number) }
{
    out.push(' ')?;
    write_number(out, number)
}

/// Writes words, then a number.
pub(crate) fn write_numbered(out: &mut String, words: &str, number: u64) -> Result<(), AllocError>
    ensures { OnOk result (string_bytes out.new ≡ string_bytes out.old ++ words.now ++ decimal number) }
{
    out.push_str(words)?;
    write_number(out, number)
}

/// Writes words, then two numbers with a space between.
pub(crate) fn write_pair(
    out: &mut String,
    words: &str,
    first: u64,
    second: u64,
) -> Result<(), AllocError>
    ensures { OnOk result (string_bytes out.new
        ≡ string_bytes out.old ++ words.now ++ decimal first ++ number_word second) }
{
    write_numbered(out, words, first)?;
    write_word(out, second)
}
