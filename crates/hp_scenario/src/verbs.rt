//! The verbs of a line: each makes a request of the words after it.
ghost use Rattle.std.specs.Prelude.{◌≡◌, map, IfOk, option_map};
ghost use Rattle.hp_scenario.specs.Lines as says;
ghost use Rattle.hp_scenario.specs.Seen.{request_seen};

use crate::lines::Work;
use crate::numbers::{number32, number64};
use crate::plans::plan_from;
use crate::requests::{Access, Request};
use crate::words::is_name;
use hp_requests::Echo;
use hp_units::{Block, Cpu, Event, Frame, Order, Page, Serial, Text, Zone};
use std::alloc::{AllocError, Global};

/// Returns what a verb asks for, given the words after it. Only for verbs that take one to four
/// words.
#[tactic(auto, unfolding(crate::specs::Lines::event_of))]
pub(crate) fn event_from<'a>(verb: &str, args: &[&'a str]) -> Option<Request<'a>>
    ensures { option_map request_seen result ≡ says.event_of verb.now (map (λ w. w.now) args.now) }
{
    match args {
        [word] => Some(Request::Plain(Work::Event(event_of_number(verb, word)?))),
        [first, second] => request_of_two(verb, first, second),
        [name, page, index] => request_of_three(verb, name, page, index),
        [name, page, index, value] => request_of_four(verb, name, page, index, value),
        _ => None,
    }
}

/// Parses the only word as a decimal number below 2^32, without a sign and without leading zeros.
/// Returns `None` for any other word, or if there is not exactly one.
#[tactic(auto, unfolding(crate::specs::Lines::only_number))]
pub fn only32(args: &[&str]) -> Option<u32>
    ensures { result ≡ says.only_number 32 (map (λ w. w.now) args.now) }
{
    let [word] = args else { return None };
    number32(word)
}

/// Parses the only word as a decimal number below 2^64, without a sign and without leading zeros.
/// Returns `None` for any other word, or if there is not exactly one.
#[tactic(auto, unfolding(crate::specs::Lines::only_number))]
pub fn only64(args: &[&str]) -> Option<u64>
    ensures { result ≡ says.only_number 64 (map (λ w. w.now) args.now) }
{
    let [word] = args else { return None };
    number64(word)
}

/// Returns an access to a page of the owner that a word names, or `None` if the word is no name.
#[inline(always)]
fn named<'a>(name: &'a str, access: Access) -> Option<Request<'a>>
    ensures { option_map request_seen result ≡ says.named_if name.now access }
{
    if !is_name(name) {
        return None;
    }
    Some(Request::Named { name, access })
}

/// Returns the event of a verb with one number.
#[inline(always)]
#[tactic(auto, unfolding(crate::specs::Lines::event_of_number))]
fn event_of_number(verb: &str, word: &str) -> Option<Event>
    ensures { result ≡ says.event_of_number verb.now word.now }
{
    match verb {
        "kalloc" => Some(Event::KernelAlloc {
            order: Order(number32(word)?),
        }),
        "kfree" => Some(Event::KernelFree {
            frame: Frame(number32(word)?),
        }),
        "drain" => Some(Event::Drain {
            cpu: Cpu(number32(word)?),
        }),
        "remove" => Some(Event::Remove {
            block: Block(number32(word)?),
        }),
        "migrate" => Some(Event::Migrate {
            op: Serial(number64(word)?),
        }),
        "commit" => Some(Event::Commit {
            op: Serial(number64(word)?),
        }),
        "cancel" => Some(Event::Cancel {
            op: Serial(number64(word)?),
        }),
        "undo" => Some(Event::UndoAfter {
            serial: Serial(number64(word)?),
        }),
        _ => None,
    }
}

/// Returns the request of a verb with two words.
#[inline(always)]
#[tactic(auto, unfolding(crate::specs::Lines::request_of_two))]
fn request_of_two<'a>(verb: &str, first: &'a str, second: &str) -> Option<Request<'a>>
    ensures { option_map request_seen result ≡ says.request_of_two verb.now first.now second.now }
{
    match verb {
        "map" => {
            let page = Page(number32(second)?);
            named(first, Access::Map { page })
        }
        "unmap" => {
            let page = Page(number32(second)?);
            named(first, Access::Unmap { page })
        }
        "online" => {
            let block = Block(number32(first)?);
            let zone = zone_from(second)?;
            Some(Request::Plain(Work::Event(Event::Online { block, zone })))
        }
        "drainfor" => {
            let op = Serial(number64(first)?);
            let cpu = Cpu(number32(second)?);
            Some(Request::Plain(Work::Event(Event::DrainFor { op, cpu })))
        }
        _ => None,
    }
}

/// Returns the request of `read`, the verb with three words.
#[inline(always)]
#[tactic(auto, unfolding(crate::specs::Lines::request_of_three))]
fn request_of_three<'a>(verb: &str, name: &'a str, page: &str, index: &str) -> Option<Request<'a>>
    ensures { option_map request_seen result ≡ says.request_of_three verb.now name.now page.now index.now }
{
    if verb != "read" {
        return None;
    }
    let page = Page(number32(page)?);
    let index = number32(index)?;
    named(name, Access::Read { page, index })
}

/// Returns the request of `write`, the verb with four words.
#[inline(always)]
#[tactic(auto, unfolding(crate::specs::Lines::request_of_four))]
fn request_of_four<'a>(
    verb: &str,
    name: &'a str,
    page: &str,
    index: &str,
    value: &str,
) -> Option<Request<'a>>
    ensures { option_map request_seen result
        ≡ says.request_of_four verb.now name.now page.now index.now value.now }
{
    if verb != "write" {
        return None;
    }
    let page = Page(number32(page)?);
    let index = number32(index)?;
    let value = number64(value)?;
    named(name, Access::Write { page, index, value })
}

/// Returns the zone that a word names, `normal` or `movable`; `None` for any other word.
#[tactic(auto, unfolding(crate::specs::Lines::zone_of))]
pub fn zone_from(word: &str) -> Option<Zone>
    ensures { result ≡ says.zone_of word.now }
{
    match word {
        "normal" => Some(Zone::Normal),
        "movable" => Some(Zone::Movable),
        _ => None,
    }
}

#[tactic(auto, unfolding(crate::specs::Lines::begin_of))]
pub(crate) fn begin<'a>(alloc: Global, args: &[&'a str]) -> Result<Option<Request<'a>>, AllocError>
    ensures { IfOk result
        (λ request. option_map request_seen request ≡ says.begin_of (map (λ w. w.now) args.now)) }
{
    let Some(plan) = plan_from(alloc, args)? else {
        return Ok(None);
    };
    Ok(Some(Request::Plain(Work::Event(Event::Begin { plan }))))
}

#[tactic(auto, unfolding(crate::specs::Lines::plan_of))]
pub(crate) fn plan<'a>(alloc: Global, args: &[&'a str]) -> Result<Option<Request<'a>>, AllocError>
    ensures { IfOk result
        (λ request. option_map request_seen request ≡ says.plan_of (map (λ w. w.now) args.now)) }
{
    let [turns, rest @ ..] = args else {
        return Ok(None);
    };
    let Some(turns) = number32(turns) else {
        return Ok(None);
    };
    let Some(plan) = plan_from(alloc, rest)? else {
        return Ok(None);
    };
    Ok(Some(Request::Plain(Work::Plan { plan, turns })))
}

#[tactic(auto, unfolding(crate::specs::Lines::echo_of))]
pub(crate) fn echo<'a>(alloc: Global, args: &[&'a str]) -> Result<Option<Request<'a>>, AllocError>
    ensures { IfOk result
        (λ request. option_map request_seen request ≡ says.echo_of (map (λ w. w.now) args.now)) }
{
    let [word, path] = args else {
        return Ok(None);
    };
    if word.is_empty() || path.is_empty() {
        return Ok(None);
    }
    let echo = echo_from(alloc, word, path)?;
    Ok(Some(Request::Plain(Work::Echo(echo))))
}

/// Returns the `echo` of a word to the control file at a path.
fn echo_from(alloc: Global, word: &str, path: &str) -> Result<Echo, AllocError>
    ensures { IfOk result (λ echo. echo ≡ record { path = path.now; word = word.now }) }
{
    let path = Text::new(String::from_str(alloc, path)?);
    let word = Text::new(String::from_str(alloc, word)?);
    Echo::new(alloc, path, word)
}

#[tactic(auto, unfolding(crate::specs::Lines::cat_of))]
pub(crate) fn cat<'a>(alloc: Global, args: &[&'a str]) -> Result<Option<Request<'a>>, AllocError>
    ensures { IfOk result
        (λ request. option_map request_seen request ≡ says.cat_of (map (λ w. w.now) args.now)) }
{
    let [path] = args else {
        return Ok(None);
    };
    if path.is_empty() {
        return Ok(None);
    }
    let path = Text::new(String::from_str(alloc, path)?);
    Ok(Some(Request::Plain(Work::Cat { path })))
}

#[tactic(auto, unfolding(crate::specs::Lines::seal_of))]
pub(crate) fn seal<'a>(args: &[&'a str]) -> Option<Request<'a>>
    ensures { option_map request_seen result ≡ says.seal_of (map (λ w. w.now) args.now) }
{
    match args {
        [] => Some(Request::Plain(Work::Seal)),
        [_, ..] => None,
    }
}
