//! Parses a wanted line.
ghost use Rattle.std.specs.Prelude.{◌≡◌, IfOk, OnOk, Some, map, option_map};
ghost use Rattle.hp_units.specs.NumberWords.{number_of};
ghost use Rattle.hp_questions.specs.declared.wanted.EndLine.TheVariants.{Answer};
ghost use Rattle.hp_questions.specs.declared.wanted.Wanted.TheVariants.{Has, Lacks};
ghost use Rattle.hp_scenario.specs.Words.{words_of};
ghost use Rattle.hp_questions.specs.WantedLines as says;

use crate::block_words::block_from;
use crate::plan_words::{own_plan_line, plan_line};
use crate::reply_words::reply_pattern;
use crate::wanted::{EndLine, Pattern, Wanted};
use hp_scenario::split_words;
use hp_units::{Cpu, number32, number64};
use std::alloc::{AllocError, Global};

/// Parses a wanted line. Returns `None` for a text that cannot be read as one.
///
/// A line is a reply to any processor, such as `refused NotFree 3`; a reply to one processor, such
/// as `0: done`; the n-th reply to one processor, such as `cpu 0 answer 2: done`; the end of a plan
/// of any processor, such as `plan: cancelled NoFrame restored`, or of one, such as `0: plan:
/// done`; or a memory block, such as `block 1 offline`. A refusal without its frame or block, such
/// as `refused NotFree`, matches every refusal of its kind, and `plan: cancelled` every cancelled
/// plan. After `not `, an end without the line is wanted.
pub fn wanted_line(alloc: Global, text: &str) -> Result<Option<Wanted>, AllocError>
    ensures { IfOk result (λ line. line ≡ says.wanted_line text.now) }
{
    match text.strip_prefix("not ") {
        Some(rest) => lacking_line(alloc, rest),
        None => having_line(alloc, text),
    }
}

/// Parses a line that an end is to lack.
fn lacking_line(alloc: Global, text: &str) -> Result<Option<Wanted>, AllocError>
    ensures { IfOk result (λ line. line ≡ option_map (λ l. Lacks l) (says.end_line text.now)) }
{
    match end_line(alloc, text)? {
        Some(line) => Ok(Some(Wanted::Lacks(line))),
        None => Ok(None),
    }
}

/// Parses a line that an end is to have.
fn having_line(alloc: Global, text: &str) -> Result<Option<Wanted>, AllocError>
    ensures { IfOk result (λ line. line ≡ option_map (λ l. Has l) (says.end_line text.now)) }
{
    match end_line(alloc, text)? {
        Some(line) => Ok(Some(Wanted::Has(line))),
        None => Ok(None),
    }
}

/// Parses a line of an end.
#[tactic(auto, unfolding(crate::specs::WantedLines::end_line))]
fn end_line(alloc: Global, text: &str) -> Result<Option<EndLine>, AllocError>
    ensures { IfOk result (λ line. line ≡ says.end_line text.now) }
{
    let mut parts = Vec::new(alloc);
    split_parts(&mut parts, text)?;
    line_in(alloc, parts.as_slice())
}

/// Splits the text at its colons into `parts`.
fn split_parts<'a>(parts: &mut Vec<&'a str>, text: &'a str) -> Result<(), AllocError>
    ensures { OnOk result (map (λ w. w.now) parts.new.items ≡ says.parts_of text.now) }
{
    parts.clear();
    parts.extend(text.split(':'))
}

/// Parses a line that is split at its colons.
#[tactic(auto, unfolding(crate::specs::WantedLines::line_in))]
fn line_in(alloc: Global, parts: &[&str]) -> Result<Option<EndLine>, AllocError>
    ensures { IfOk result (λ line. line ≡ says.line_in (map (λ w. w.now) parts.now)) }
{
    match parts {
        [line] => lone_line(alloc, line),
        [who, rest] => colon_line(alloc, who, rest),
        [who, mark, end] => own_plan_line(alloc, who, mark, end),
        _ => Ok(None),
    }
}

/// Parses a line with one colon: the end of any processor's plan, or a reply to one processor.
#[tactic(auto, unfolding(crate::specs::WantedLines::colon_line))]
fn colon_line(alloc: Global, who: &str, rest: &str) -> Result<Option<EndLine>, AllocError>
    ensures { IfOk result (λ line. line ≡ says.colon_line who.now rest.now) }
{
    match who {
        "plan" => plan_line(alloc, None, rest),
        _ => answer_line(alloc, who, rest),
    }
}

/// Parses a line without a colon.
fn lone_line(alloc: Global, text: &str) -> Result<Option<EndLine>, AllocError>
    ensures { IfOk result (λ line. line ≡ says.line_of (words_of text.now)) }
{
    let mut words = Vec::new(alloc);
    split_words(&mut words, text)?;
    Ok(line_from(words.as_slice()))
}

/// Parses a wanted reply. `who`, the text before the colon, names a processor or one of its
/// replies; `rest` is the text after the colon.
fn answer_line(alloc: Global, who: &str, rest: &str) -> Result<Option<EndLine>, AllocError>
    ensures { IfOk result (λ line. line ≡ says.answer_of (words_of who.now) (words_of rest.now)) }
{
    let mut words = Vec::new(alloc);
    split_words(&mut words, who)?;
    let mut reply = Vec::new(alloc);
    split_words(&mut reply, rest)?;
    Ok(answer_from(words.as_slice(), reply.as_slice()))
}

/// Parses a reply to any processor, or a memory block.
#[tactic(auto, unfolding(crate::specs::WantedLines::line_of))]
fn line_from(words: &[&str]) -> Option<EndLine>
    ensures { result ≡ says.line_of (map (λ w. w.now) words.now) }
{
    let [word, args @ ..] = words else {
        return None;
    };
    line_by(word, args)
}

/// Parses a reply to any processor, or a memory block, from its first word and the other words.
#[tactic(auto, unfolding(crate::specs::WantedLines::line_by))]
fn line_by(word: &str, args: &[&str]) -> Option<EndLine>
    ensures { result ≡ says.line_by word.now (map (λ w. w.now) args.now) }
{
    match word {
        "block" => block_from(args),
        _ => any_answer(word, args),
    }
}

/// Parses a reply to any processor.
#[tactic(auto, unfolding(crate::specs::WantedLines::any_of))]
fn any_answer(word: &str, args: &[&str]) -> Option<EndLine>
    ensures { result ≡ says.any_of word.now (map (λ w. w.now) args.now) }
{
    let reply = reply_pattern(word, args)?;
    Some(EndLine::Answer { cpu: None, reply })
}

/// Parses a wanted reply. The words `who` name a processor or one of its replies; `reply` has the
/// words after the colon.
#[tactic(auto, unfolding(crate::specs::WantedLines::answer_of))]
fn answer_from(who: &[&str], reply: &[&str]) -> Option<EndLine>
    ensures { result ≡ says.answer_of (map (λ w. w.now) who.now) (map (λ w. w.now) reply.now) }
{
    match reply_after_space(reply) {
        Some(reply) => line_by_words(who, reply),
        None => None,
    }
}

/// Parses the words after a colon as a reply. The first word must be empty, since a
/// space follows the colon.
#[tactic(auto, unfolding(crate::specs::WantedLines::reply_after_space))]
fn reply_after_space(words: &[&str]) -> Option<Pattern>
    ensures { result ≡ says.reply_after_space (map (λ w. w.now) words.now) }
{
    match words {
        [space, word, args @ ..] => {
            if space.is_empty() {
                reply_pattern(word, args)
            } else {
                None
            }
        }
        _ => None,
    }
}

/// Parses the words before the colon of a wanted reply: `CPU` for any reply to this processor, or
/// `cpu CPU answer NUMBER` for one of its replies.
#[tactic(auto, unfolding(crate::specs::WantedLines::answer_by))]
fn line_by_words(who: &[&str], reply: Pattern) -> Option<EndLine>
    ensures { result ≡ says.answer_by (map (λ w. w.now) who.now) reply }
{
    match who {
        [cpu] => some_answer(cpu, reply),
        [first, cpu, second, number] => named_answer(first, cpu, second, number, reply),
        _ => None,
    }
}

/// Parses the words `cpu CPU answer NUMBER`.
#[tactic(auto, unfolding(crate::specs::WantedLines::named_answer))]
fn named_answer(
    first: &str,
    cpu: &str,
    second: &str,
    number: &str,
    reply: Pattern,
) -> Option<EndLine>
    ensures { result ≡ says.named_answer first.now cpu.now second.now number.now reply }
{
    match first {
        "cpu" => match second {
            "answer" => numbered_answer(cpu, number, reply),
            _ => None,
        },
        _ => None,
    }
}

/// Parses the number of a processor. Returns the wanted line for any reply to this processor.
fn some_answer(cpu: &str, reply: Pattern) -> Option<EndLine>
    ensures { result ≡ option_map (λ c. Answer (Some c) reply) (number_of 32 cpu.now) }
{
    let cpu = Some(Cpu(number32(cpu)?));
    Some(EndLine::Answer { cpu, reply })
}

/// Parses the number of a processor and the number of a reply to it, counted from 1. Returns the
/// wanted line for this reply.
#[tactic(auto, unfolding(crate::specs::WantedLines::numbered_answer))]
fn numbered_answer(cpu: &str, number: &str, reply: Pattern) -> Option<EndLine>
    ensures { result ≡ says.numbered_answer cpu.now number.now reply }
{
    let cpu = Cpu(number32(cpu)?);
    let number = number64(number)?;
    if number == 0 {
        return None;
    }
    Some(EndLine::AnswerAt {
        cpu,
        earlier: number - 1,
        reply,
    })
}
