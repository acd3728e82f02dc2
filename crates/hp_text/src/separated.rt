//! Separators between the texts of a list.
ghost use Rattle.std.specs.Prelude.{◌≡◌, ◌++◌, OnOk, string_bytes};
ghost use Rattle.hp_text.specs.Separated.{mark_before};

use std::alloc::AllocError;

/// Writes the separator before a text, unless the text is the first of its list.
pub fn write_mark(out: &mut String, mark: &str, is_first: bool) -> Result<(), AllocError>
    ensures { OnOk result (string_bytes out.new ≡ string_bytes out.old ++ mark_before mark.now is_first) }
{
    if is_first {
        return Ok(());
    }
    out.push_str(mark)
}
