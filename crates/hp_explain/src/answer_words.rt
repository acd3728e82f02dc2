//! The answers of lines in words, as `hotplug run` prints them.
ghost use Rattle.std.specs.Prelude.{◌≡◌, ◌++◌, IfOk, IfSome, OnOk, string_bytes, true};
ghost use Rattle.hp_text.specs.State.{newline};
ghost use Rattle.hp_explain.specs.Answers.{answer_text};

use hp_questions::{Pattern, refusal_pattern, reply_pattern};
use hp_scenario::only64;
use hp_schedules::LineAnswer;
use hp_text::{write_plan_end, write_reply};
use hp_units::{OpEnd, Refusal, Reply, Serial};
use std::alloc::{AllocError, Global};

/// Parses an answer as `hotplug run` prints it, or returns `None` if no call gets such an answer.
pub(crate) fn answer_in(alloc: Global, text: &str) -> Result<Option<LineAnswer>, AllocError>
    ensures { IfOk result (λ answer. IfSome answer (λ a. text.now ≡ answer_text a)) }
{
    match answer_like(alloc, text) {
        Ok(Some(answer)) => answer_if_spelled(alloc, text, answer),
        Ok(None) => Ok(None),
        Err(e) => Err(e),
    }
}

/// Returns whether the text is an answer that a call gets.
pub(crate) fn is_answer(alloc: Global, text: &str) -> Result<bool, AllocError> {
    match answer_in(alloc, text) {
        Ok(Some(_answer)) => Ok(true),
        Ok(None) => Ok(false),
        Err(e) => Err(e),
    }
}

/// Returns the answer if the text is, byte for byte, what is written for it.
fn answer_if_spelled(
    alloc: Global,
    text: &str,
    answer: LineAnswer,
) -> Result<Option<LineAnswer>, AllocError>
    ensures { IfOk result (λ answer. IfSome answer (λ a. text.now ≡ answer_text a)) }
{
    if is_spelled(alloc, text, &answer)? {
        Ok(Some(answer))
    } else {
        Ok(None)
    }
}

/// Returns whether the text is, byte for byte, what is written for the answer.
fn is_spelled(alloc: Global, text: &str, answer: &LineAnswer) -> Result<bool, AllocError>
    ensures { IfOk result (λ is. is ≡ true → text.now ≡ answer_text answer.now) }
{
    let mut written = String::new(alloc);
    write_answer_line(&mut written, answer)?;
    let line = format!(in alloc; "{text}\n")?;
    Ok(line.as_str() == written.as_str())
}

/// Writes an answer, with a newline.
fn write_answer_line(out: &mut String, answer: &LineAnswer) -> Result<(), AllocError>
    ensures { OnOk result
        (string_bytes out.new ≡ string_bytes out.old ++ (answer_text answer.now ++ newline)) }
{
    match answer {
        LineAnswer::Reply(reply) => write_reply(out, *reply),
        LineAnswer::Plan(end) => write_plan_end(out, *end),
    }
}

/// Parses an answer. Also takes some texts that are not answers: the caller compares the text with
/// what is written for the result.
fn answer_like(alloc: Global, text: &str) -> Result<Option<LineAnswer>, AllocError> {
    match text.strip_prefix("plan: ") {
        Some(end) => plan_like(alloc, end),
        None => reply_like(alloc, text),
    }
}

/// Parses the reply to a call.
fn reply_like(alloc: Global, text: &str) -> Result<Option<LineAnswer>, AllocError> {
    let mut words = Vec::new(alloc);
    words.extend(text.split(' '))?;
    match reply_of(words.as_slice()) {
        Some(reply) => Ok(Some(LineAnswer::Reply(reply))),
        None => Ok(None),
    }
}

/// Parses the end of a plan.
fn plan_like(alloc: Global, text: &str) -> Result<Option<LineAnswer>, AllocError> {
    let mut words = Vec::new(alloc);
    words.extend(text.split(' '))?;
    match end_of(words.as_slice()) {
        Some(end) => Ok(Some(LineAnswer::Plan(end))),
        None => Ok(None),
    }
}

/// Returns the reply with these words.
fn reply_of(words: &[&str]) -> Option<Reply> {
    match words {
        [word, args @ ..] => reply_by(word, args),
        [] => None,
    }
}

/// Returns the reply with this first word and these other words.
fn reply_by(word: &str, args: &[&str]) -> Option<Reply> {
    match word {
        "opened" => Some(Reply::Opened {
            op: Serial(only64(args)?),
        }),
        _ => Some(reply_in(reply_pattern(word, args)?)),
    }
}

/// Returns the reply in a pattern. For `AnyOf`, which matches every refusal of a kind, this is the
/// refusal that it stores.
fn reply_in(pattern: Pattern) -> Reply {
    match pattern {
        Pattern::Exactly(reply) => reply,
        Pattern::AnyOf(refusal) => Reply::Refused(refusal),
    }
}

/// Returns the refusal with these words.
fn refusal_of(words: &[&str]) -> Option<Refusal> {
    match reply_in(refusal_pattern(words)?) {
        Reply::Refused(refusal) => Some(refusal),
        _ => None,
    }
}

/// Returns the end of a plan with these words. Returns `None` also for the words of a plan that was
/// left, since no call finished it.
fn end_of(words: &[&str]) -> Option<OpEnd> {
    match words {
        ["done"] => Some(OpEnd::Done),
        ["undone"] => Some(OpEnd::Undone),
        ["refused", refusal @ ..] => Some(OpEnd::Refused(refusal_of(refusal)?)),
        ["cancelled", why @ .., what] => cancelled(why, what),
        _ => None,
    }
}

/// Returns the end of a cancelled plan from its words: `why` has the words of the last refusal, or
/// a dash, and `what` is what the Cancel did.
fn cancelled(why: &[&str], what: &str) -> Option<OpEnd> {
    let why = cause_of(why)?;
    match what {
        "restored" => Some(OpEnd::Cancelled {
            why,
            restored: true,
        }),
        "released" => Some(OpEnd::Cancelled {
            why,
            restored: false,
        }),
        _ => None,
    }
}

/// Returns the last refusal of a cancelled plan from its words. Returns `Some(None)` for a dash,
/// which means that there was none.
fn cause_of(words: &[&str]) -> Option<Option<Refusal>> {
    match words {
        ["-"] => Some(None),
        _ => Some(Some(refusal_of(words)?)),
    }
}

/// Returns whether the text begins like what `hotplug run` prints for a line that no call finished:
/// its call left no record, or the line seals the history.
pub(crate) fn is_of_no_call(text: &str) -> bool {
    text.starts_with("fault ") || text.starts_with("plan: left ") || text.starts_with("sealed ")
}
