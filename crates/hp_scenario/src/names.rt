//! Reads lines, and gives owners' names numbers in the order in which they first occur.
ghost use Rattle.std.specs.Prelude.{◌≡◌, ◌^◌, ◌<◌, IfNone, IfOk, IfSome, OnErr, Some, option_map};
ghost use Rattle.std.specs.List.{position};
ghost use Rattle.std.specs.Str.{bytes_eq};
ghost use Rattle.indexmap.specs.IndexSet.{insert_key};
ghost use Rattle.hp_scenario.specs.Names.{access_event, line_in, names_with, owner_of, work_of};
ghost use Rattle.hp_scenario.specs.Seen.{request_seen};

use crate::lines::{Line, Work};
use crate::requests::{Access, Request, line_says};
use hp_units::{Event, Owner, Text};
use indexmap::IndexSet;
use std::alloc::{AllocError, Global};

/// Reads a line, given the owners' names of the lines before it. A name that is new becomes the
/// last.
///
/// Returns `None` if the text cannot be read as a line. The names are then as before, as they
/// are after an error.
pub fn read_line(
    alloc: Global,
    names: &mut IndexSet<Text>,
    text: &str,
) -> Result<Option<Line>, AllocError>
    ensures is { IfOk result
        (λ line. option_map (λ line. record { names = names.new.keys; line = line }) line
        ≡ line_in names.old.keys text.now) }
    ensures none { IfOk result (λ line. IfNone line (names.new.keys ≡ names.old.keys)) }
    ensures err { OnErr result (names.new.keys ≡ names.old.keys) }
{
    let mut words = Vec::new(alloc);
    line_from(alloc, names, &mut words, text)
}

/// Reads a line as [`read_line`] does. `words` is scratch space, used again for each line.
#[inline(always)]
#[tactic(auto, unfolding(crate::specs::Names::line_in))]
pub(crate) fn line_from<'a>(
    alloc: Global,
    names: &mut IndexSet<Text>,
    words: &mut Vec<&'a str>,
    text: &'a str,
) -> Result<Option<Line>, AllocError>
    ensures is { IfOk result
        (λ line. option_map (λ line. record { names = names.new.keys; line = line }) line
        ≡ line_in names.old.keys text.now) }
    ensures none { IfOk result (λ line. IfNone line (names.new.keys ≡ names.old.keys)) }
    ensures err { OnErr result (names.new.keys ≡ names.old.keys) }
{
    let Some(said) = line_says(alloc, words, text)? else {
        return Ok(None);
    };
    let cpu = said.cpu;
    let work = numbered_work(alloc, names, said.request)?;
    Ok(Some(Line { cpu, work }))
}

/// Returns the work of a request, with the owner's number in place of its name.
#[inline(always)]
fn numbered_work(
    alloc: Global,
    names: &mut IndexSet<Text>,
    request: Request<'_>,
) -> Result<Work, AllocError>
    ensures ok { IfOk result
        (λ work. (names.new.keys ≡ names_with names.old.keys (request_seen request.entry))
        × (work ≡ work_of names.old.keys (request_seen request.entry))) }
    ensures err { OnErr result (names.new.keys ≡ names.old.keys) }
{
    match request {
        Request::Plain(work) => Ok(work),
        Request::Named { name, access } => {
            let owner = owner_of(alloc, names, name)?;
            Ok(Work::Event(access_event(owner, access)))
        }
    }
}

/// Returns the number of a name. A new name becomes the last one.
fn owner_of(alloc: Global, names: &mut IndexSet<Text>, name: &str) -> Result<Owner, AllocError>
    ensures ok { IfOk result (λ owner. (names.new.keys ≡ insert_key bytes_eq names.old.keys name.now)
        × (owner ≡ owner_of names.old.keys name.now)) }
    ensures err { OnErr result (names.new.keys ≡ names.old.keys) }
{
    let index = index_of(alloc, names, name)?;
    Ok(Owner(index as u32))
}

/// Returns the index of a name. A new name becomes the last one. Allocates only if the name is new
/// or there are more than 64 names.
#[tactic(auto, using(crate::proofs::KnownNames::known_place, crate::proofs::KnownNames::known_stays))]
fn index_of(alloc: Global, names: &mut IndexSet<Text>, name: &str) -> Result<usize, AllocError>
    ensures ok { IfOk result (λ index. (names.new.keys ≡ insert_key bytes_eq names.old.keys name.now)
        × (index ≡ owner_of names.old.keys name.now)) }
    ensures low { IfOk result (λ index. index < 2 ^ 32) }
    ensures err { OnErr result (names.new.keys ≡ names.old.keys) }
{
    if let Some(index) = known_index(names, name) {
        return Ok(index);
    }
    if names.len() >= u32::MAX as usize {
        return Err(AllocError);
    }
    let name = Text::new(String::from_str(alloc, name)?);
    let (index, _) = names.insert_full(name)?;
    Ok(index)
}

/// Returns the index of a name among at most 64 names, the most owners that a layout can have.
/// Returns `None` if the name is not there, or if there are more names.
fn known_index(names: &IndexSet<Text>, name: &str) -> Option<usize>
    ensures is { IfSome result (λ index. position (bytes_eq name.now) names.now.keys ≡ Some index) }
    ensures low { IfSome result (λ index. index < 2 ^ 32) }
{
    let known = names.as_slice();
    if known.len() > 64 {
        return None;
    }
    for index in 0..known.len() {
        if name == known[index].as_str() {
            return Some(index);
        }
    }
    None
}

/// Returns the event of an owner's access.
fn access_event(owner: Owner, access: Access) -> Event
    ensures { result ≡ access_event owner access }
{
    match access {
        Access::Map { page } => Event::Map { owner, page },
        Access::Unmap { page } => Event::Unmap { owner, page },
        Access::Write { page, index, value } => Event::Write {
            owner,
            page,
            index,
            value,
        },
        Access::Read { page, index } => Event::Read { owner, page, index },
    }
}
