//! The text and the exit status of each command, from a scenario's bytes.

ghost use Rattle.std.specs.Prelude.{◌≡◌, if◌then◌else◌, IfErr, IfOk, string_bytes};
ghost use Rattle.hotplug_lab.specs.Words.{IsAddedOf, IsAnswerOf, IsExploringOf, IsPartialOf, IsSearchOf, IsUnanswered, find_status};
ghost use Rattle.hp_lab_shell.specs.declared.words.Word.TheVariants.{Explore, Find, Never, Part, Sum};

use hp_lab_shell::{ExploreOptions, TextAndStatus, Word, checked, drawn, logged, told, traced};
use hp_parts::{explore_text, part_text, sum_text};
use hp_questions::Wanted;
use hp_schedules::ShardId;
use hp_search::{
    EndsForm, FindResult, FindText, GroupBy, LabProgramFault, ScheduleForm, SearchText, find_text,
};
use hp_states::Watch;
use std::alloc::Global;
use std::sync::Wait;
use std::thread::Threads;

/// Returns the text and the exit status of a command on a scenario. `watch` gets the progress of a
/// search.
pub(crate) fn answer_to<W: Watch>(
    rt: &(impl Threads + Wait + Sync),
    alloc: Global,
    input: &[u8],
    word: Word<'_>,
    watch: &mut W,
) -> Result<TextAndStatus, LabProgramFault>
    ensures ok { IfOk result
        (λ answer. IsAnswerOf word.entry input.now (string_bytes answer.text) answer.status) }
    ensures err { IfErr result (IsUnanswered word.entry input.now) }
{
    match word {
        Word::Check(setup) => checked(alloc, input, setup),
        Word::Explore {
            asked,
            form,
            by,
            jobs,
        } => explored(rt, alloc, input, asked, form, by, jobs, watch),
        Word::Part { asked, part } => partial(alloc, input, asked, part, watch),
        Word::Sum(form) => summed(alloc, input, form),
        Word::Find {
            setup,
            wanted,
            form,
            jobs,
        } => found(rt, alloc, input, setup, wanted, form, jobs, watch),
        Word::Never {
            setup,
            wanted,
            form,
            jobs,
        } => never(rt, alloc, input, setup, wanted, form, jobs, watch),
        Word::Trace(view) => traced(alloc, input, view),
        Word::Picture(drawing) => drawn(alloc, input, drawing),
        Word::Log => logged(alloc, input),
        Word::Told(form) => told(alloc, input, form),
    }
}

/// Explores the interleavings of the scripts, at most `asked.limit` of them, in `jobs` threads.
fn explored<W: Watch>(
    rt: &(impl Threads + Wait + Sync),
    alloc: Global,
    input: &[u8],
    asked: ExploreOptions,
    form: EndsForm,
    by: Option<GroupBy>,
    jobs: u32,
    watch: &mut W,
) -> Result<TextAndStatus, LabProgramFault>
    ensures ok { IfOk result
        (λ answer. IsExploringOf asked form by input.now (string_bytes answer.text) answer.status) }
    ensures err { IfErr result (IsUnanswered (Explore asked form by jobs) input.now) }
{
    let ExploreOptions { setup, limit } = asked;
    let finding = explore_text(rt, alloc, input, setup, limit, form, by, jobs, watch)?;
    Ok(answer_with(finding, 0, 3))
}

/// Explores one part of the interleavings of the scripts, at most `asked.limit` of them.
fn partial<W: Watch>(
    alloc: Global,
    input: &[u8],
    asked: ExploreOptions,
    part: &ShardId,
    watch: &mut W,
) -> Result<TextAndStatus, LabProgramFault>
    ensures ok { IfOk result
        (λ answer. IsPartialOf asked part.now input.now (string_bytes answer.text) answer.status) }
    ensures err { IfErr result (IsUnanswered (Part asked part.entry) input.now) }
{
    let finding = part_text(alloc, input, asked.setup, asked.limit, *part, watch)?;
    Ok(answer_with(finding, 0, 3))
}

/// Adds up the results of all parts of an exploration.
fn summed(alloc: Global, input: &[u8], form: EndsForm) -> Result<TextAndStatus, LabProgramFault>
    ensures ok { IfOk result
        (λ answer. IsAddedOf form input.now (string_bytes answer.text) answer.status) }
    ensures err { IfErr result (IsUnanswered (Sum form) input.now) }
{
    let finding = sum_text(alloc, input, form)?;
    Ok(answer_with(finding, 0, 3))
}

/// Searches in `jobs` threads for an interleaving whose end meets each of the wanted lines. The
/// status is 0 if there is one, and 3 if there is none or that is not known.
fn found<W: Watch>(
    rt: &(impl Threads + Wait + Sync),
    alloc: Global,
    input: &[u8],
    setup: u64,
    wanted: &[Wanted],
    form: ScheduleForm,
    jobs: u32,
    watch: &mut W,
) -> Result<TextAndStatus, LabProgramFault>
    ensures ok { IfOk result (λ answer.
        IsSearchOf setup wanted.now form 0 3 input.now (string_bytes answer.text) answer.status) }
    ensures err { IfErr result (IsUnanswered (Find setup wanted.entry form jobs) input.now) }
{
    let finding = find_text(rt, alloc, input, setup, wanted, form, jobs, watch)?;
    Ok(find_answer(finding, 0, 3))
}

/// Searches in `jobs` threads for an interleaving whose end meets each of the wanted lines, to show
/// that there is none. The status is 0 if there is none, and 3 if there is one or that is not
/// known.
fn never<W: Watch>(
    rt: &(impl Threads + Wait + Sync),
    alloc: Global,
    input: &[u8],
    setup: u64,
    wanted: &[Wanted],
    form: ScheduleForm,
    jobs: u32,
    watch: &mut W,
) -> Result<TextAndStatus, LabProgramFault>
    ensures ok { IfOk result (λ answer.
        IsSearchOf setup wanted.now form 3 0 input.now (string_bytes answer.text) answer.status) }
    ensures err { IfErr result (IsUnanswered (Never setup wanted.entry form jobs) input.now) }
{
    let finding = find_text(rt, alloc, input, setup, wanted, form, jobs, watch)?;
    Ok(find_answer(finding, 3, 0))
}

/// Returns the text and the exit status of a search for an end. The status is `found` if an
/// interleaving ends as wanted, `absent` if none does, and 3 if that is not known.
fn find_answer(finding: FindText, found: u8, absent: u8) -> TextAndStatus
    ensures text { string_bytes result.text ≡ string_bytes finding.text }
    ensures status { result.status ≡ find_status finding.result found absent }
{
    let status = match finding.result {
        FindResult::Found => found,
        FindResult::Absent => absent,
        FindResult::Unknown => 3,
    };
    TextAndStatus {
        text: finding.text,
        status,
    }
}

/// Returns an exploration's text, with the status `found` if its `is_found` is true, and `absent`
/// if not.
fn answer_with(finding: SearchText, found: u8, absent: u8) -> TextAndStatus
    ensures text { string_bytes result.text ≡ string_bytes finding.text }
    ensures status { result.status ≡ (if finding.is_found then found else absent) }
{
    let status = if finding.is_found { found } else { absent };
    TextAndStatus {
        text: finding.text,
        status,
    }
}
