//! Adds up the texts of the parts of a search.
ghost use Rattle.std.specs.Prelude.{◌≡◌, ◌+◌, ◌^◌, ◌<◌, IfErr, IfOk, Some, length, string_bytes};
ghost use Rattle.serde_json.specs.View.{view};
ghost use Rattle.hp_scenario.specs.Scenario.{json_of};
ghost use Rattle.hp_search.specs.Ends.{AreEndsTold};
ghost use Rattle.hp_search.specs.Holding.{HoldsIn};
ghost use Rattle.hp_search.specs.Prepared.{before_of, names_of, setting_of};
ghost use Rattle.hp_parts.specs.Cuts.{IsLineAt};
ghost use Rattle.hp_parts.specs.Heads.{IsNumber, head_line};
ghost use Rattle.hp_parts.specs.Ordering.{AreAll, AreWithin, lists_of};
ghost use Rattle.hp_search.specs.declared.lab_fault.LabFault.TheVariants.{OutOfMemory};
ghost use Rattle.hp_search.specs.declared.part_fault.PartFault.TheVariants as part;
ghost use Rattle.hp_parts.specs.Faults.{IsMisplaced, IsSumFault, IsTooMany, IsUnsummedIn, IsUntoldSum, fault_of_head, fault_of_order};
ghost use Rattle.hp_parts.specs.Sums.{IsSum, IsSumOf, IsSumOn};
ghost use Rattle.hp_parts.specs.Taking.{HasRead};

use crate::taking::gather;
use crate::{
    Head, OrderFault, PartEnds, SumFault, ends_by_number, head_from, is_head, json_in, line_at, sum,
};
use hp_schedules::Ending;
use hp_search::{EndsForm, LabFault, PartFault, Prepared, SearchText, prepare};
use serde_json::Value;
use std::alloc::Global;

/// Adds up the parts of a search, and returns the text of the whole exploration as `explore_text`
/// does. `input` has the texts of all parts of one search, as `part_text` writes them, one after
/// another in any order; the scenario is the one that the heads name.
///
/// Takes the count and the schedule of each end, and plays the schedule again on the scenario. So
/// it finds a line that does not match its own schedule, but not a count that was changed.
/// `explore_text` returns the same text if its limit allows for all interleavings. It is tested,
/// not proved, that `sum_text` accepts whatever `part_text` writes.
///
/// # Errors
///
/// - `NotPart`, `OtherSearch`, `NotOfPart`, `Changed` or `Stopped` with the number of the first
///   line at fault, counted from 1. The line belongs to no part or has no newline, is a head that
///   this search does not write, has no complete interleaving of its part, was changed, or reports
///   that its part was stopped. An empty input has the fault `NotPart` with line 1.
/// - `HistoryFull` if the history has no room for a call of the schedule in the first line at
///   fault.
/// - `OtherCount` with the number, from 1, of a part that has fewer or more ends than its head
///   names.
/// - `Twice` or `Missing` with the first number that comes twice or is missing.
/// - `TooMany` if there are 2^64 interleavings or more.
/// - `Head` with the number of the part in line 1, if the scenario in its head cannot be read, or
///   a line after the setup may not be in a script.
/// - `OutOfMemory`, which may come in place of any other result.
pub fn sum_text(alloc: Global, input: &[u8], form: EndsForm) -> Result<SearchText, PartFault>
    ensures ok { IfOk result (λ f. IsSumOf form input.now (string_bytes f.text) f.is_found) }
    ensures err { IfErr result (IsSumFault input.now) }
{
    let Some(text) = line_at(input, 0) else {
        return Err(PartFault::NotPart { line: 1 });
    };
    let Some(value) = json_in(alloc, text)? else {
        return Err(PartFault::NotPart { line: 1 });
    };
    sum_of(alloc, input, text, &value, form)
}

/// Adds up the parts. `text` is the first line, and `value` its JSON.
fn sum_of(
    alloc: Global,
    input: &[u8],
    text: &[u8],
    value: &Value,
    form: EndsForm,
) -> Result<SearchText, PartFault>
    requires line { IsLineAt input.now 0 text.now }
    requires value { Some (view value.now) ≡ json_of text.now }
    ensures ok { IfOk result (λ f. IsSumOf form input.now (string_bytes f.text) f.is_found) }
    ensures err { IfErr result (IsSumFault input.now) }
{
    let Some(head) = head_from(value) else {
        return Err(PartFault::NotPart { line: 1 });
    };
    if !is_head(alloc, &head.search, head.number, head.ends, text)? {
        return Err(PartFault::NotPart { line: 1 });
    }
    sum_after(alloc, input, &head, text.len() + 1, form)
}

/// Adds up the parts of a search. The first head and its newline take `start` bytes.
fn sum_after(
    alloc: Global,
    input: &[u8],
    head: &Head<'_>,
    start: usize,
    form: EndsForm,
) -> Result<SearchText, PartFault>
    requires line { IsLineAt input.now 0 (head_line head.now.search head.now.number head.now.ends) }
    requires start { start ≡ length (head_line head.now.search head.now.number head.now.ends) + 1 }
    requires number { IsNumber head.now.search head.now.number }
    ensures ok { IfOk result (λ f. HoldsIn (IsSumOn form input.now head.now.search (string_bytes f.text)
        f.is_found) head.now.search.scenario head.now.search.setup) }
    ensures err { IfErr result (IsUnsummedIn input.now head.now) }
{
    let search = &head.search;
    let prepared = match prepare(alloc, search.scenario.as_bytes(), search.setup) {
        Ok(prepared) => prepared,
        Err(fault) => return Err(fault_of_head(head.number, fault)),
    };
    sum_on(alloc, input, &prepared, head, start, form)
}

/// Adds up the parts of a search of a prepared scenario. The first head and its newline take
/// `start` bytes.
fn sum_on(
    alloc: Global,
    input: &[u8],
    prepared: &Prepared,
    head: &Head<'_>,
    start: usize,
    form: EndsForm,
) -> Result<SearchText, PartFault>
    requires few { length prepared.now.start.scripts.items < 2 ^ 32 }
    requires read { HasRead (names_of prepared.now) (setting_of prepared.now) head.now input.now start }
    ensures ok { IfOk result (λ f. IsSumOn form input.now head.now.search (string_bytes f.text) f.is_found
        (names_of prepared.now) (before_of prepared.now) (setting_of prepared.now)) }
    ensures err { IfErr result
        (IsUntoldSum input.now (names_of prepared.now) (setting_of prepared.now) head.now.search) }
{
    let parts = gather(alloc, input, prepared, head, start)?;
    let search = &head.search;
    let lists = lists_of(alloc, parts, search.of)?;
    let ends = summed(alloc, &lists)?;
    told(alloc, prepared, &ends, form)
}

/// Returns the ends of each part, in the order of the parts' numbers. Fails if a part is missing or
/// comes twice.
fn lists_of(alloc: Global, parts: Vec<PartEnds>, of: u32) -> Result<Vec<Vec<Ending>>, PartFault>
    requires { AreWithin of parts.items }
    ensures ok { IfOk result (λ lists. AreAll parts.items of (lists_of lists.items)) }
    ensures err { IfErr result (IsMisplaced parts.items of) }
{
    match ends_by_number(alloc, parts, of) {
        Ok(lists) => Ok(lists),
        Err(fault) => Err(fault_of_order(fault)),
    }
}

/// Returns the fault of the sum if the scenario that the head of part `part` names cannot be
/// prepared for a search.
fn fault_of_head(part: u32, fault: LabFault) -> PartFault
    ensures { result ≡ fault_of_head part fault }
{
    match fault {
        LabFault::OutOfMemory => PartFault::Lab(LabFault::OutOfMemory),
        _ => PartFault::Head { part, fault },
    }
}

/// Returns the fault of the sum if a part is missing or comes twice.
fn fault_of_order(fault: OrderFault) -> PartFault
    ensures { result ≡ fault_of_order fault }
{
    match fault {
        OrderFault::Missing { part } => PartFault::Missing { part },
        OrderFault::Twice { part } => PartFault::Twice { part },
        OrderFault::OutOfMemory => PartFault::Lab(LabFault::OutOfMemory),
    }
}

/// Adds up the ends of all parts. Fails if there are 2^64 interleavings or more.
fn summed(alloc: Global, lists: &[Vec<Ending>]) -> Result<Vec<Ending>, PartFault>
    ensures ok { IfOk result (λ ends. IsSum (lists_of lists.now) ends.items) }
    ensures err { IfErr result (IsTooMany (lists_of lists.now)) }
{
    match sum(alloc, lists) {
        Ok(ends) => Ok(ends),
        Err(SumFault::TooMany) => Err(PartFault::TooMany),
        Err(SumFault::OutOfMemory) => Err(PartFault::Lab(LabFault::OutOfMemory)),
    }
}

/// Returns the text of all ends in `form`. If the history has no room for the calls of a schedule,
/// fails as if memory ran out.
fn told(
    alloc: Global,
    prepared: &Prepared,
    ends: &[Ending],
    form: EndsForm,
) -> Result<SearchText, PartFault>
    ensures ok { IfOk result (λ f. AreEndsTold form (names_of prepared.now) (before_of prepared.now)
        (setting_of prepared.now) ends.now None (string_bytes f.text) f.is_found) }
    ensures err { IfErr result (λ fault. fault ≡ part.Lab OutOfMemory) }
{
    // The calls of each schedule were made when its line was taken, so only memory can run out.
    match prepared.ends_told(alloc, ends, None, form) {
        Ok(finding) => Ok(finding),
        Err(_) => Err(PartFault::Lab(LabFault::OutOfMemory)),
    }
}
