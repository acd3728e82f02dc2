//! Explores a scenario.
ghost use Rattle.std.specs.Prelude.{◌≡◌, ◌^◌, ◌<◌, IfErr, IfOk, length, string_bytes};
ghost use Rattle.hp_explore.specs.Faults.{IsCauseWithin};
ghost use Rattle.hp_search.specs.Faults.{IsFaultOf};
ghost use Rattle.hp_search.specs.Prepared.{before_of, names_of, setting_of};
ghost use Rattle.hp_parts.specs.Explorations.{IsExplorationOf, IsExploredOn, IsFaultWithin};

use crate::explore_with_jobs;
use hp_explore::{ExploreFault, Watch};
use hp_search::{EndsForm, GroupBy, LabFault, Prepared, SearchText, grouped, prepare};
use std::alloc::Global;
use std::thread::Threads;

/// Explores the scenario in `input`, in `jobs` threads, at most 256: counts all interleavings of
/// its scripts' calls, or the first `limit` if there are more. If `watch` ends the search, the
/// first ones up to that point are counted.
///
/// The first `setup` lines are run in order. Each later line goes to the script of its processor,
/// where operation 0 is the one that the processor began last.
///
/// As words, the text has the number of interleavings. For each different end, it has how many lead
/// to it, the processors' replies, the states of the memory blocks, and the calls of the first
/// interleaving that leads to it. As objects, it has one line of JSON per end. As a summary, it has
/// the numbers of interleavings and ends, and one line of words per end. In these three forms, if
/// not all interleavings were counted, the text reports that, and `is_found` is false.
///
/// As `Scenario(n)`, the text has the layout, the lines of the setup, and the calls of the first
/// interleaving that leads to end `n`. Without an end `n`, the text is empty and `is_found` is
/// false.
///
/// With `by`, ends that agree in this part of their outcome are grouped, and the text has the
/// groups in place of the ends.
///
/// While a single thread searches, `watch` gets its progress, and may end it. If several do, it is
/// called once, with the total, after they have finished. If their results cannot be used, a single
/// thread searches anew ([`explore_with_jobs`]).
///
/// Errors: those of reading the scenario; `NotForScript` with the first line after the setup that
/// may not be in a script; `HistoryFull` if the history has no room for a call of the search, and
/// at most `limit` complete interleavings come before that call; `OutOfMemory`, which may come in
/// place of any other result.
pub fn explore_text<W: Watch>(
    rt: &(impl Threads + Sync),
    alloc: Global,
    input: &[u8],
    setup: u64,
    limit: u64,
    form: EndsForm,
    by: Option<GroupBy>,
    jobs: u32,
    watch: &mut W,
) -> Result<SearchText, LabFault>
    ensures ok { IfOk result (λ f. IsExplorationOf form by input.now setup limit
        (W.has_ended watch.new) (string_bytes f.text) f.is_found) }
    ensures err { IfErr result (IsFaultOf input.now setup) }
    ensures full { IfErr result (IsFaultWithin input.now setup limit) }
{
    let prepared = prepare(alloc, input, setup)?;
    match explored(rt, alloc, &prepared, limit, form, by, jobs, watch) {
        Ok(finding) => Ok(finding),
        Err(fault) => Err(prepared.told_fault(alloc, fault)),
    }
}

/// Explores a prepared scenario in `jobs` threads and returns the result as text in `form`.
fn explored<W: Watch>(
    rt: &(impl Threads + Sync),
    alloc: Global,
    prepared: &Prepared,
    limit: u64,
    form: EndsForm,
    by: Option<GroupBy>,
    jobs: u32,
    watch: &mut W,
) -> Result<SearchText, ExploreFault>
    requires { length prepared.now.start.scripts.items < 2 ^ 32 }
    ensures ok { IfOk result (λ f. IsExploredOn form by (names_of prepared.now) (before_of prepared.now)
        (setting_of prepared.now) limit (W.has_ended watch.new) (string_bytes f.text) f.is_found) }
    ensures err { IfErr result (IsCauseWithin (setting_of prepared.now) limit) }
{
    let machine = &prepared.start.machine;
    let scripts = prepared.start.scripts.as_slice();
    let explored = explore_with_jobs(rt, alloc, machine, scripts, limit, jobs, watch)?;
    let processors = machine.layout().cpus();
    let shown = grouped(alloc, explored, by, processors, scripts)?;
    // The search has made the calls of each first interleaving, so only memory can run out.
    let Ok(finding) = prepared.exploration_told(alloc, &shown, form) else {
        return Err(ExploreFault::OutOfMemory);
    };
    Ok(finding)
}
