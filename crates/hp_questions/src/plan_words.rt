//! Parses the wanted end of a plan.
ghost use Rattle.std.specs.Prelude.{◌≡◌, IfOk, map, option_map};
ghost use Rattle.hp_scenario.specs.Words.{words_of};
ghost use Rattle.hp_questions.specs.WantedLines as says;

use crate::plan_lines::EndPattern;
use crate::reply_words::refusal_pattern;
use crate::wanted::{EndLine, Pattern};
use hp_scenario::split_words;
use hp_units::{Cpu, number32};
use std::alloc::{AllocError, Global};

/// Parses a line such as `0: plan: done`, which is split at its colons into a processor, `plan` and
/// the plan's end.
#[tactic(auto, unfolding(crate::specs::WantedLines::own_plan))]
pub(crate) fn own_plan_line(
    alloc: Global,
    who: &str,
    mark: &str,
    end: &str,
) -> Result<Option<EndLine>, AllocError>
    ensures { IfOk result (λ line. line ≡ says.own_plan who.now mark.now end.now) }
{
    match mark {
        " plan" => match number32(who) {
            Some(cpu) => plan_line(alloc, Some(Cpu(cpu)), end),
            None => Ok(None),
        },
        _ => Ok(None),
    }
}

/// Parses the text after the last colon as the end of a plan of processor `cpu`, or of any
/// processor if `cpu` is `None`.
#[tactic(auto, unfolding(crate::specs::WantedLines::plan_line))]
pub(crate) fn plan_line(
    alloc: Global,
    cpu: Option<Cpu>,
    end: &str,
) -> Result<Option<EndLine>, AllocError>
    ensures { IfOk result (λ line. line ≡ says.plan_line cpu (words_of end.now)) }
{
    let mut words = Vec::new(alloc);
    split_words(&mut words, end)?;
    Ok(plan_from(cpu, words.as_slice()))
}

/// Parses the words after a colon as the end of a plan.
#[tactic(auto, unfolding(crate::specs::WantedLines::plan_line))]
fn plan_from(cpu: Option<Cpu>, words: &[&str]) -> Option<EndLine>
    ensures { result ≡ says.plan_line cpu (map (λ w. w.now) words.now) }
{
    match end_after_space(words) {
        Some(end) => Some(EndLine::Plan { cpu, end }),
        None => None,
    }
}

/// Parses the words after a colon as the end of a plan. The first word must be empty, since a
/// space follows the colon.
#[tactic(auto, unfolding(crate::specs::WantedLines::end_after_space))]
fn end_after_space(words: &[&str]) -> Option<EndPattern>
    ensures { result ≡ says.end_after_space (map (λ w. w.now) words.now) }
{
    match words {
        [space, word, args @ ..] => {
            if space.is_empty() {
                end_pattern(word, args)
            } else {
                None
            }
        }
        _ => None,
    }
}

/// Parses the end of a plan as `hotplug run` prints it, such as `cancelled NoFrame restored`, from
/// its first word and the other words.
#[tactic(auto, unfolding(crate::specs::WantedLines::end_of))]
fn end_pattern(word: &str, args: &[&str]) -> Option<EndPattern>
    ensures { result ≡ says.end_of word.now (map (λ w. w.now) args.now) }
{
    match word {
        "done" => bare_end(EndPattern::Done, args),
        "undone" => bare_end(EndPattern::Undone, args),
        "refused" => Some(EndPattern::Refused(refusal_pattern(args)?)),
        "cancelled" => cancelled(args),
        _ => None,
    }
}

/// Returns `end` if there are no arguments.
#[tactic(auto, unfolding(crate::specs::WantedLines::bare_end))]
fn bare_end(end: EndPattern, args: &[&str]) -> Option<EndPattern>
    ensures { result ≡ says.bare_end end (map (λ w. w.now) args.now) }
{
    match args {
        [] => Some(end),
        [_, ..] => None,
    }
}

/// Parses the words after `cancelled`: none, or the last refusal and what the Cancel did.
#[tactic(auto, unfolding(crate::specs::WantedLines::cancelled_end))]
fn cancelled(args: &[&str]) -> Option<EndPattern>
    ensures { result ≡ says.cancelled_end (map (λ w. w.now) args.now) }
{
    match args {
        [] => Some(EndPattern::Cancelled),
        [why, what] => cancelled_as(cause(why)?, what),
        [name, number, what] => { cancelled_as(Some(refusal_pattern(&[*name, *number])?), what) }
        _ => None,
    }
}

/// Parses a last refusal without a number, or a dash for none.
#[tactic(auto, unfolding(crate::specs::WantedLines::cause_of))]
fn cause(why: &str) -> Option<Option<Pattern>>
    ensures { result ≡ says.cause_of why.now }
{
    match why {
        "-" => Some(None),
        _ => Some(Some(refusal_pattern(&[why])?)),
    }
}

/// Parses what the Cancel did: `restored` or `released`.
#[tactic(auto, unfolding(crate::specs::WantedLines::cancelled_as))]
fn cancelled_as(why: Option<Pattern>, what: &str) -> Option<EndPattern>
    ensures { result ≡ says.cancelled_as why what.now }
{
    match what {
        "restored" => Some(EndPattern::CancelledAs {
            why,
            restored: true,
        }),
        "released" => Some(EndPattern::CancelledAs {
            why,
            restored: false,
        }),
        _ => None,
    }
}
