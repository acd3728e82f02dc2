//! Reads the layout of a scenario in its usual form, token by token: its numbers in their usual
//! order, then `boot`.
ghost use Rattle.std.specs.Prelude.{◌≡◌, ◌∷◌, [], IfOk, IfSome, IsTrue, None, Some};
ghost use Rattle.json.specs.Token.{key as key_token, begin_object, begin_array, end_object};
ghost use Rattle.serde_json.specs.Data.{unsigned};
ghost use Rattle.serde_json.specs.Read.{number_of};
ghost use Rattle.hp_units.specs.LayoutParts.{layout_fault};
ghost use Rattle.hp_units.specs.PartsSeen.{parts_seen};
ghost use Rattle.hp_scenario.specs.Usual.{ArePair, AreRows, EndsWithBoots, IsLayoutAt, IsRow, parts_from, rows_of};

use crate::form::boot_from;
use crate::plain_reader::PlainReader;
use fast_float::Numeral;
use hp_units::{Boot, Layout, LayoutFault, Parts};
use json::Token;
use std::alloc::{AllocError, Global};

/// Reads the layout that comes next, if it has the usual form and no fault.
pub(crate) fn layout_after(
    alloc: Global,
    reader: &mut PlainReader<'_>,
) -> Result<Option<Layout>, AllocError>
    ensures { IfOk result (λ l. IfSome l (λ l. IsLayoutAt l reader.old reader.new)) }
{
    if !takes_object(reader) {
        return Ok(None);
    }
    let Some(numbers) = numbers_after(reader) else {
        return Ok(None);
    };
    let mut boot = Vec::new(alloc);
    if !takes_boot(reader, &mut boot)? {
        return Ok(None);
    }
    layout_of(alloc, &numbers, &boot)
}

/// Returns the layout with these numbers and these blocks at boot, if it has no fault.
fn layout_of(
    alloc: Global,
    numbers: &Parts<'_>,
    boot: &[Boot],
) -> Result<Option<Layout>, AllocError>
    ensures { IfOk result (λ l. IfSome l (λ l.
        (l ≡ parts_from (parts_seen numbers.now) boot.now) × (layout_fault l ≡ None))) }
{
    let parts = Parts { boot, ..*numbers };
    match Layout::new(alloc, &parts) {
        Ok(layout) => Ok(Some(layout)),
        Err(LayoutFault::OutOfMemory) => Err(AllocError),
        Err(_) => Ok(None),
    }
}

/// Reads the numbers of a layout, in their usual order, as parts without blocks at boot.
fn numbers_after<'a>(reader: &mut PlainReader<'_>) -> Option<Parts<'a>>
    ensures { IfSome result (λ n. AreRows (rows_of (parts_seen n)) reader.old reader.new) }
{
    let (order, pageblocks) = pair_after(reader, "order", "pageblocks")?;
    let (blocks, cpus) = pair_after(reader, "blocks", "cpus")?;
    let (batch, high) = pair_after(reader, "batch", "high")?;
    let (owners, pages) = pair_after(reader, "owners", "pages")?;
    let (words, history) = pair_after(reader, "words", "history")?;
    Some(Parts {
        order,
        pageblocks,
        blocks,
        cpus,
        batch,
        high,
        owners,
        pages,
        words,
        history,
        boot: &[],
    })
}

/// Reads the numbers at two keys, one after the other.
fn pair_after(reader: &mut PlainReader<'_>, first: &str, second: &str) -> Option<(u64, u64)>
    ensures { IfSome result (λ n. ArePair first.now second.now n.0 n.1 reader.old reader.new) }
{
    let one = number_after(reader, first)?;
    let other = number_after(reader, second)?;
    Some((one, other))
}

/// Reads the number at a key.
fn number_after(reader: &mut PlainReader<'_>, key: &str) -> Option<u64>
    ensures { IfSome result (λ n. IsRow key.now n reader.old reader.new) }
{
    if !takes_key(reader, key) {
        return None;
    }
    match reader.next() {
        Some(Token::Number(text)) => whole_number(text),
        _ => None,
    }
}

/// Returns the whole number in a number's text; `None` also if it is below 0 or does not fit.
#[tactic(auto, using(crate::proofs::WholeNumber::is_unsigned))]
fn whole_number(text: &str) -> Option<u64>
    ensures { IfSome result (λ n. number_of text.now ≡ Some (unsigned n)) }
{
    let bytes = text.as_bytes();
    if bytes.is_empty() || bytes[0] == b'-' {
        return None;
    }
    Numeral::scan(bytes).to_u64()
}

/// Takes the blocks' states at boot. Returns whether these came next, and then the layout's end.
fn takes_boot(reader: &mut PlainReader<'_>, boot: &mut Vec<Boot>) -> Result<bool, AllocError>
    requires { boot.old.items ≡ [] }
    ensures { IfOk result (λ sure. IsTrue sure → EndsWithBoots boot.new.items reader.old reader.new) }
{
    if !takes_array(reader, "boot") {
        return Ok(false);
    }
    'words: while !reader.take_end_array() {
        let Some(Token::String(word)) = reader.next() else {
            return Ok(false);
        };
        let Some(block) = boot_from(word) else {
            return Ok(false);
        };
        boot.push(block)?;
    }
    Ok(takes_end(reader))
}

/// Takes a token. Returns whether it is this key.
pub(crate) fn takes_key(reader: &mut PlainReader<'_>, key: &str) -> bool
    ensures { IsTrue result → reader.old ≡ key_token key.now ∷ reader.new }
{
    match reader.next() {
        Some(Token::Key(found)) => found == key,
        _ => false,
    }
}

/// Takes two tokens. Returns whether they are this key and the beginning of an array.
pub(crate) fn takes_array(reader: &mut PlainReader<'_>, key: &str) -> bool
    ensures { IsTrue result → reader.old ≡ key_token key.now ∷ begin_array ∷ reader.new }
{
    if !takes_key(reader, key) {
        return false;
    }
    matches!(reader.next(), Some(Token::BeginArray))
}

/// Takes a token. Returns whether an object begins.
pub(crate) fn takes_object(reader: &mut PlainReader<'_>) -> bool
    ensures { IsTrue result → reader.old ≡ begin_object ∷ reader.new }
{
    matches!(reader.next(), Some(Token::BeginObject))
}

/// Takes a token. Returns whether an object ends.
fn takes_end(reader: &mut PlainReader<'_>) -> bool
    ensures { IsTrue result → reader.old ≡ end_object ∷ reader.new }
{
    matches!(reader.next(), Some(Token::EndObject))
}

/// Takes a token. Returns whether an object ends, and with it the text.
pub(crate) fn is_over(reader: &mut PlainReader<'_>) -> bool
    ensures { IsTrue result → reader.old ≡ end_object ∷ [] }
{
    if !takes_end(reader) {
        return false;
    }
    reader.is_at_end()
}
