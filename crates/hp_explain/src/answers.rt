//! The answers that a scenario's processors got, read from a text.
ghost use Rattle.std.specs.Prelude.{◌≡◌, ◌<◌, ◌^◌, IfOk, OnOk, false, length, map, true};
ghost use Rattle.std.specs.Str.Lines.{lines as lines_of};
ghost use Rattle.hp_explain.specs.AnswerObjects.{AreObjectsOf};
ghost use Rattle.hp_explain.specs.Answers.{IsRunText, are_objects};

use crate::answer_lines::read_words;
use crate::answers_fault::AnswersFault;
use crate::observed::Observed;
use crate::seen_scripts::read_objects;
use hp_schedules::CallScript;
use std::alloc::{AllocError, Global};
use std::str::from_utf8;

/// Reads the answers that a scenario's processors got. Script k is that of processor k.
///
/// The text is what `hotplug run` prints: for each processor in order a line `cpu C`, then the
/// answer to each line of its script. The number of records, in the last line, may be missing. The
/// times of these answers are unknown.
///
/// Or each line is a JSON object such as `{"cpu": 0, "answer": "done", "from": 3, "to": 7}`. A
/// processor's objects are in the order of its lines. `from` and `to` are whole numbers: the line
/// began at `from` or later, and was answered at `to` or before. A missing `from` is 0, and a
/// missing `to` is that of the processor's next line that has one. If none has, it stays unknown.
///
/// A line may end in `\r\n`. Empty lines at the end are ignored; in a text of objects, all empty
/// lines are.
///
/// # Errors
///
/// The first line at fault, or `TooFew` with a processor that has fewer answers than lines.
/// `NotUtf8` if the text is not UTF-8, `OutOfMemory` if memory allocation fails.
pub fn read_answers(
    alloc: Global,
    input: &[u8],
    scripts: &[CallScript],
) -> Result<Observed, AnswersFault>
    requires { length scripts.now < 2 ^ 32 }
    ensures sizes { IfOk result (λ seen. map length seen ≡ map length scripts.now) }
    ensures words { IfOk result (λ seen. are_objects input.now ≡ false → IsRunText input.now seen) }
    ensures objects { IfOk result (λ seen. are_objects input.now ≡ true → AreObjectsOf input.now seen) }
{
    let Ok(text) = from_utf8(input) else {
        return Err(AnswersFault::NotUtf8);
    };
    let mut lines = Vec::new(alloc);
    split_lines(&mut lines, text)?;
    if are_objects(input) {
        let seen = read_objects(alloc, lines.as_slice(), scripts)?;
        Ok(Observed::new(seen))
    } else {
        let seen = read_words(alloc, lines.as_slice(), scripts)?;
        Ok(Observed::new(seen))
    }
}

/// Replaces `lines` by the lines of a text.
fn split_lines<'a>(lines: &mut Vec<&'a str>, text: &'a str) -> Result<(), AllocError>
    ensures { OnOk result (map (λ l. l.now) lines.new.items ≡ lines_of text.now) }
{
    lines.clear();
    lines.extend(text.lines())
}

/// Returns whether the first byte that is not white space opens a JSON object.
fn are_objects(input: &[u8]) -> bool
    ensures { result ≡ are_objects input.now }
{
    for byte in input {
        if !byte.is_ascii_whitespace() {
            return *byte == b'{';
        }
    }
    false
}
