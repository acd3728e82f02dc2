//! The contents of a line, with names as they are written.
ghost use Rattle.std.specs.Prelude.{◌≡◌, map, IfOk, is_some, option_map};
ghost use Rattle.hp_scenario.specs.Lines as says;
ghost use Rattle.hp_scenario.specs.Seen.{request_seen, said_seen};

use crate::lines::Work;
use crate::numbers::number32;
use crate::verbs::{begin, cat, echo, event_from, plan, seal};
use crate::words::split_words;
use hp_units::{Cpu, Event, Page};
use std::alloc::{AllocError, Global};

/// An access to a page of an owner. The owner's name is beside it, in [`Request::Named`].
#[derive(Clone, Copy)]
pub(crate) enum Access {
    Map { page: Page },
    Unmap { page: Page },
    Write { page: Page, index: u32, value: u64 },
    Read { page: Page, index: u32 },
}

/// The work of a line that names no owner, or an access to a page of a named one.
#[derive(Drop)]
pub(crate) enum Request<'a> {
    Plain(Work),
    Named { name: &'a str, access: Access },
}

/// A processor, and what it asks for.
#[derive(Drop)]
pub(crate) struct Said<'a> {
    pub(crate) cpu: Cpu,
    pub(crate) request: Request<'a>,
}

/// Reads a text as a line, or returns `None` if it is not one. `words` is scratch space, used again
/// for each line.
#[inline(always)]
#[tactic(auto, unfolding(crate::specs::Lines::line_says))]
pub(crate) fn line_says<'a>(
    alloc: Global,
    words: &mut Vec<&'a str>,
    text: &'a str,
) -> Result<Option<Said<'a>>, AllocError>
    ensures { IfOk result (λ said. option_map said_seen said ≡ says.line_says text.now) }
{
    split_words(words, text)?;
    words_say(alloc, words)
}

/// Returns whether a text can be read as a line.
pub fn is_line(alloc: Global, text: &str) -> Result<bool, AllocError>
    ensures { IfOk result (λ is. is ≡ is_some (says.line_says text.now)) }
{
    let mut words = Vec::new(alloc);
    Ok(line_says(alloc, &mut words, text)?.is_some())
}

/// Reads a line from its words.
#[tactic(auto, unfolding(crate::specs::Lines::words_say))]
fn words_say<'a>(alloc: Global, words: &[&'a str]) -> Result<Option<Said<'a>>, AllocError>
    ensures { IfOk result (λ said. option_map said_seen said ≡ says.words_say (map (λ w. w.now) words.now)) }
{
    let [cpu, rest @ ..] = words else {
        return Ok(None);
    };
    let Some(cpu) = number32(cpu) else {
        return Ok(None);
    };
    let Some(request) = request_from(alloc, rest)? else {
        return Ok(None);
    };
    let cpu = Cpu(cpu);
    Ok(Some(Said { cpu, request }))
}

/// Reads, from the words after the processor, what a line asks for.
#[tactic(auto, unfolding(crate::specs::Lines::request_of))]
fn request_from<'a>(alloc: Global, words: &[&'a str]) -> Result<Option<Request<'a>>, AllocError>
    ensures { IfOk result
        (λ request. option_map request_seen request ≡ says.request_of (map (λ w. w.now) words.now)) }
{
    let Some((verb, args)) = words.split_first() else {
        return Ok(None);
    };
    match *verb {
        "begin" => begin(alloc, args),
        "plan" => plan(alloc, args),
        "echo" => echo(alloc, args),
        "cat" => cat(alloc, args),
        "seal" => Ok(seal(args)),
        _ => Ok(event_from(verb, args)),
    }
}
