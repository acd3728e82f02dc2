//! Searches one part of a scenario.
ghost use Rattle.std.specs.Prelude.{◌≡◌, ◌^◌, ◌<◌, IfErr, IfOk, length, string_bytes};
ghost use Rattle.hp_explore.specs.Faults.{IsCause};
ghost use Rattle.hp_search.specs.Faults.{IsFaultOf};
ghost use Rattle.hp_search.specs.Prepared.{names_of, setting_of};
ghost use Rattle.hp_parts.specs.Parts.{IsFullPart, IsPartCause, IsPartOf, IsPartOn, IsToldPart};

use crate::Search;
use crate::calls::calls_for;
use crate::writing::write_part;
use hp_explore::{Exploration, ExploreFault, Watch, explore_part};
use hp_schedules::{ShardId, total_of};
use hp_search::{LabFault, Prepared, SearchText, prepare, write_more};
use simdutf8::basic::from_utf8;
use std::alloc::Global;

/// Searches one part of all interleavings of the scenario in `input`, as `explore_text` searches
/// all of them. The text is JSON, one object per line: the head, which names the search and the
/// part; then each end that an interleaving of the part leads to. An end is the object that
/// `explore_text` writes, and also has the processors of the first interleaving's calls. A part
/// without interleavings has only its head.
///
/// If the part has more interleavings than `limit`, its ends are those of the first `limit`. If
/// `watch` ends the search, they are those of the interleavings up to that point. In both cases a
/// last object reports that not all were counted, and `is_found` is false.
///
/// While the search runs, `watch` gets its progress, and may end it.
///
/// Errors: those of `explore_text`. But `HistoryFull` comes only if the history has no room for a
/// call of this part's search, and at most `limit` interleavings of the part come before that call.
pub fn part_text<W: Watch>(
    alloc: Global,
    input: &[u8],
    setup: u64,
    limit: u64,
    number: ShardId,
    watch: &mut W,
) -> Result<SearchText, LabFault>
    ensures ok { IfOk result
        (λ f. IsPartOf number input.now setup limit (W.has_ended watch.new) (string_bytes f.text)
        f.is_found) }
    ensures err { IfErr result (IsFaultOf input.now setup) }
    ensures full { IfErr result (IsFullPart number input.now setup limit) }
{
    let Ok(scenario) = from_utf8(input) else {
        return Err(LabFault::NotJson);
    };
    let prepared = prepare(alloc, input, setup)?;
    match part_on(alloc, &prepared, scenario, number, limit, watch) {
        Ok(finding) => Ok(finding),
        Err(fault) => Err(prepared.told_fault(alloc, fault)),
    }
}

/// Searches one part of a prepared scenario, whose text is `scenario`.
fn part_on<W: Watch>(
    alloc: Global,
    prepared: &Prepared,
    scenario: &str,
    number: ShardId,
    limit: u64,
    watch: &mut W,
) -> Result<SearchText, ExploreFault>
    requires { length prepared.now.start.scripts.items < 2 ^ 32 }
    ensures ok { IfOk result (λ f. IsPartOn number prepared.now.setup scenario.now limit
        (W.has_ended watch.new) (string_bytes f.text) f.is_found
        (names_of prepared.now) (setting_of prepared.now)) }
    ensures err { IfErr result (IsPartCause number limit (setting_of prepared.now)) }
{
    let machine = &prepared.start.machine;
    let scripts = prepared.start.scripts.as_slice();
    let calls = calls_for(scripts.len() as u32, number.of());
    let explored = explore_part(alloc, machine, scripts, number.part(calls), limit, watch)?;
    let search = Search {
        of: number.of(),
        calls,
        setup: prepared.setup,
        scenario,
    };
    // The search has made the calls of each first interleaving, so only memory can run out.
    let Ok(finding) = told(alloc, prepared, &search, number.number(), &explored) else {
        return Err(ExploreFault::OutOfMemory);
    };
    Ok(finding)
}

/// Returns the text of a part's exploration.
fn told(
    alloc: Global,
    prepared: &Prepared,
    search: &Search<'_>,
    number: u32,
    explored: &Exploration,
) -> Result<SearchText, ExploreFault>
    ensures ok { IfOk result (λ f. IsToldPart (names_of prepared.now) (setting_of prepared.now) search.now
        number explored.now (string_bytes f.text) f.is_found) }
    ensures err { IfErr result (IsCause (setting_of prepared.now)) }
{
    let more = prepared.more_than(alloc, explored.is_whole)?;
    let mut text = String::new(alloc);
    write_part(&mut text, alloc, prepared, search, number, &explored.ends)?;
    write_more(&mut text, total_of(&explored.ends), more)?;
    Ok(SearchText {
        text,
        is_found: more.is_none(),
    })
}
