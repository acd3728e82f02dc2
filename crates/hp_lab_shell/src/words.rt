//! The commands of the program, and how they are read from the command line.

use crate::arguments::{
    FILE, FIND, GROUP, HTML, JOBS, JSON, LOG, NEVER, PART, PROGRESS, SCENARIO, SUMMARY,
};
use crate::budgets::{Budgets, MEMORY_MIB, budgets_of};
use crate::checks::ALL;
use clap::ArgMatches;
use hp_questions::Wanted;
use hp_schedules::ShardId;
use hp_search::{EndsForm, GroupBy, ScheduleForm};
use hp_trace::View;
use hp_units::number64;

/// The default width of a cell, in pixels. The greatest follows.
const CELL: u64 = 8;

const WIDEST_CELL: u64 = 32;

/// The default scale of a picture, in per cent. The least and the greatest follow.
const SCALE: u64 = 100;

const LEAST_SCALE: u64 = 25;

const MOST_SCALE: u64 = 400;

/// The default width of a trace's rows in columns.
pub(crate) const WIDTH: u64 = 200;

/// Printed if the command line names no subcommand of the program. But clap reports that first.
const NO_WORD: &str = "there is no such word";

/// Printed if `--scenario` is not 1 although a search finds a single interleaving.
pub(crate) const ONE_FOUND: &str = "a search tells one interleaving: --scenario 1";

/// The most threads.
const MOST_JOBS: u64 = 256;

/// The options of an exploration.
#[derive(Clone, Copy)]
pub struct ExploreOptions {
    /// How many lines of the scenario run in order first.
    pub setup: u64,
    /// The greatest number of interleavings to count.
    pub limit: u64,
}

/// The options of a picture.
#[derive(Clone, Copy)]
pub struct Drawing {
    /// What it shows.
    pub view: View,
    /// How many pixels wide the cell of a frame is, before it is scaled.
    pub cell: u8,
    /// The scale of the whole picture, in per cent.
    pub scale: u16,
}

/// How a trace is written as JSON.
#[derive(Clone, Copy)]
pub enum JsonForm {
    /// One object per line.
    Lines,
    /// These lines in a page, which steps through them.
    Page,
}

/// A command on a scenario.
#[derive(Clone, Copy)]
pub enum Word<'a> {
    /// Report what is wrong with the scenario, and where. This many lines are the setup; later
    /// lines are in scripts.
    Check(u64),
    /// Explore the interleavings of the scripts, at most `asked.limit` of them, in `jobs` threads.
    /// Group the ends by the part `by` of their outcome, if it is not `None`.
    Explore {
        asked: ExploreOptions,
        form: EndsForm,
        by: Option<GroupBy>,
        jobs: u32,
    },
    /// Search one part of the interleavings of the scripts, and count at most `asked.limit`.
    Part {
        asked: ExploreOptions,
        part: &'a ShardId,
    },
    /// Add up all parts, whose texts come in place of a scenario.
    Sum(EndsForm),
    /// Find an interleaving whose end meets each of the lines in `wanted`, in `jobs` threads. The
    /// first `setup` lines of the scenario run in order before it.
    Find {
        setup: u64,
        wanted: &'a [Wanted],
        form: ScheduleForm,
        jobs: u32,
    },
    /// Expect that no interleaving has an end that meets each of the lines in `wanted`, in a search
    /// in `jobs` threads. The first `setup` lines of the scenario run in order before it.
    Never {
        setup: u64,
        wanted: &'a [Wanted],
        form: ScheduleForm,
        jobs: u32,
    },
    /// Trace the reply to each line, with the memory after each call.
    Trace(View),
    /// Draw the trace as one picture, with all memory blocks in each row.
    Picture(Drawing),
    /// Log what happens to frames and memory blocks, in the form that `judge` reads.
    Log,
    /// Write the trace as JSON.
    Told(JsonForm),
}

/// What the program was asked to do, and on which files.
#[derive(Clone, Copy)]
pub(crate) struct Request<'m, 'a, 'w> {
    /// What to do with the scenario.
    pub word: Word<'w>,
    /// The names of the files, in order; empty for standard input.
    pub files: &'m [&'a str],
    /// Whether progress is printed even if standard error is not a terminal.
    pub progress: bool,
    /// Whether it is a search for an end.
    pub is_search: bool,
    /// How far a search may go.
    pub budgets: Budgets,
}

/// Returns the texts of the lines that `--find` or `--never` names, if one of these options is
/// given.
pub(crate) fn texts_from<'m, 'a>(matches: &'m ArgMatches<'a>) -> Option<&'m [&'a str]> {
    let (_name, words) = matches.subcommand()?;
    words.get_strs(FIND).or(words.get_strs(NEVER))
}

/// Returns whether `--find` or `--never` is used with a `--scenario` that names another
/// interleaving than the one found.
pub(crate) fn is_past_the_found(matches: &ArgMatches<'_>) -> bool {
    let Some((_name, words)) = matches.subcommand() else {
        return false;
    };
    texts_from(matches).is_some() && words.get_one::<u64>(SCENARIO).unwrap_or(1) != 1
}

/// Printed if the text of `--part` names no part.
const NO_PART: &str = "--part may be I/N, with I from 1 to N, and N at most 1000000";

/// Returns whether a command asked for a scenario, but the exit status shows that there is no
/// interleaving to make it of.
pub(crate) fn lacks_scenario(word: Word<'_>, status: u8) -> bool {
    match word {
        Word::Explore { form, .. } | Word::Sum(form) => {
            matches!(form, EndsForm::Scenario(_)) && status != 0
        }
        Word::Find { form, .. } => matches!(form, ScheduleForm::Scenario) && status != 0,
        Word::Never { form, .. } => matches!(form, ScheduleForm::Scenario) && status == 0,
        _ => false,
    }
}

/// Returns the part that `--part` names as `I/N`, if there is such a part.
pub(crate) fn part_from(matches: &ArgMatches<'_>) -> Option<ShardId> {
    let (_name, words) = matches.subcommand()?;
    let (number, of) = words.get_str(PART)?.split_once('/')?;
    ShardId::new(number64(number)?, number64(of)?)
}

/// Returns the names of files; empty if no file is named.
fn files_of<'m, 'a>(names: Option<&'m [&'a str]>) -> &'m [&'a str] {
    match names {
        Some(names) => names,
        None => &[],
    }
}

/// Returns the request on the command line, or why it cannot be served. `wanted` has the lines that
/// the command line requires of an end, and `part` the part that it names.
pub(crate) fn request_from<'m, 'a, 'w>(
    matches: &'m ArgMatches<'a>,
    wanted: &'w [Wanted],
    part: Option<&'w ShardId>,
) -> Result<Request<'m, 'a, 'w>, &'static str> {
    match matches.subcommand() {
        Some((name, words)) => Ok(Request {
            word: word_from(name, words, wanted, part)?,
            files: files_of(words.get_strs(FILE)),
            progress: name == "explore" && words.get_flag(PROGRESS),
            is_search: is_search(name, words),
            budgets: budgets_from(name, words),
        }),
        None => Err(NO_WORD),
    }
}

/// Returns whether a subcommand asks for a search for an end.
fn is_search(name: &str, words: &ArgMatches<'_>) -> bool {
    name == "explore" && (words.get_strs(FIND).is_some() || words.get_strs(NEVER).is_some())
}

/// Returns how far a search may go. Only in a search for an end, `--limit` bounds the states.
fn budgets_from(name: &str, words: &ArgMatches<'_>) -> Budgets {
    if name != "explore" {
        return Budgets {
            limit: None,
            memory: MEMORY_MIB << 20,
            seconds: None,
        };
    }
    let limit = if is_search(name, words) {
        words.get_one::<u64>("limit")
    } else {
        None
    };
    budgets_of(words, limit)
}

/// Returns the command of a subcommand and its options, or why it cannot be run.
fn word_from<'a>(
    name: &str,
    words: &ArgMatches<'_>,
    wanted: &'a [Wanted],
    part: Option<&'a ShardId>,
) -> Result<Word<'a>, &'static str> {
    match name {
        "check" => Ok(Word::Check(words.get_one::<u64>("setup").unwrap_or(ALL))),
        "explore" => exploring_word(words, wanted, part),
        "sum" => Ok(Word::Sum(ends_form_from(words))),
        "trace" => tracing_word(words),
        _ => Err(NO_WORD),
    }
}

/// Returns the command of `explore`: a search for an end, one part, or the whole exploration.
fn exploring_word<'a>(
    words: &ArgMatches<'_>,
    wanted: &'a [Wanted],
    part: Option<&'a ShardId>,
) -> Result<Word<'a>, &'static str> {
    let asked = exploration_from(words);
    let setup = asked.setup;
    let form = schedule_form_from(words);
    if words.get_strs(FIND).is_some() {
        let jobs = search_jobs_from(words)?;
        return Ok(Word::Find {
            setup,
            wanted,
            form,
            jobs,
        });
    }
    if words.get_strs(NEVER).is_some() {
        let jobs = search_jobs_from(words)?;
        return Ok(Word::Never {
            setup,
            wanted,
            form,
            jobs,
        });
    }
    if words.get_str(PART).is_none() {
        return whole_word(asked, words);
    }
    match part {
        Some(part) => Ok(Word::Part { asked, part }),
        None => Err(NO_PART),
    }
}

/// Returns in how many threads to search for an end, or what is wrong with the options. Several
/// threads do not count the states that they reach.
fn search_jobs_from(words: &ArgMatches<'_>) -> Result<u32, &'static str> {
    if words.get_one::<u64>(JOBS).is_some() && words.get_one::<u64>("limit").is_some() {
        return Err("with --find or --never, --jobs cannot be used with --limit");
    }
    jobs_from(words)
}

/// Returns in how many threads to search.
fn jobs_from(words: &ArgMatches<'_>) -> Result<u32, &'static str> {
    let jobs = words.get_one::<u64>(JOBS).unwrap_or(1);
    if jobs == 0 || jobs > MOST_JOBS {
        return Err("--jobs may be 1 to 256");
    }
    Ok(jobs as u32)
}

/// Returns the command of `explore` that counts all interleavings up to the limit, or what is wrong
/// with its options.
fn whole_word<'a>(asked: ExploreOptions, words: &ArgMatches<'_>) -> Result<Word<'a>, &'static str> {
    Ok(Word::Explore {
        asked,
        form: ends_form_from(words),
        jobs: jobs_from(words)?,
        by: group_from(words)?,
    })
}

/// Returns the part of the outcome by which ends are grouped, if they are.
fn group_from(words: &ArgMatches<'_>) -> Result<Option<GroupBy>, &'static str> {
    match words.get_str(GROUP) {
        Some("blocks") => Ok(Some(GroupBy::Blocks)),
        Some("answers") => Ok(Some(GroupBy::Answers)),
        Some("plans") => Ok(Some(GroupBy::Plans)),
        Some(_) => Err("--group may be blocks, answers or plans"),
        None => Ok(None),
    }
}

/// Returns the command of `trace`.
fn tracing_word<'a>(words: &ArgMatches<'_>) -> Result<Word<'a>, &'static str> {
    if words.get_flag(LOG) {
        return Ok(Word::Log);
    }
    if words.get_flag(JSON) {
        return Ok(Word::Told(JsonForm::Lines));
    }
    if words.get_flag(HTML) {
        return Ok(Word::Told(JsonForm::Page));
    }
    let view = view_from(words);
    if view.from > view.to {
        return Err("--from is past --to");
    }
    if words.get_flag("svg") {
        return Ok(Word::Picture(drawing_from(words, view)?));
    }
    if words.get_one::<u64>("cell").is_some() {
        return Err("--cell is for --svg alone");
    }
    if words.get_one::<u64>("scale").is_some() {
        return Err("--scale is for --svg alone");
    }
    Ok(Word::Trace(view))
}

/// Returns the options of a picture, or what is wrong with them.
fn drawing_from(words: &ArgMatches<'_>, view: View) -> Result<Drawing, &'static str> {
    let cell = words.get_one::<u64>("cell").unwrap_or(CELL);
    if cell == 0 || cell > WIDEST_CELL {
        return Err("--cell may be 1 to 32");
    }
    let scale = words.get_one::<u64>("scale").unwrap_or(SCALE);
    if scale < LEAST_SCALE || scale > MOST_SCALE {
        return Err("--scale may be 25 to 400");
    }
    Ok(Drawing {
        view,
        cell: cell as u8,
        scale: scale as u16,
    })
}

/// Returns the options of an exploration.
fn exploration_from(words: &ArgMatches<'_>) -> ExploreOptions {
    ExploreOptions {
        setup: words.get_one::<u64>("setup").unwrap_or(0),
        limit: words.get_one::<u64>("limit").unwrap_or(u64::MAX),
    }
}

/// Returns the form of the ends.
fn ends_form_from(words: &ArgMatches<'_>) -> EndsForm {
    match words.get_one::<u64>(SCENARIO) {
        Some(number) => EndsForm::Scenario(number),
        None if words.get_flag(JSON) => EndsForm::Objects,
        None if words.get_flag(SUMMARY) => EndsForm::Summary,
        None => EndsForm::Words,
    }
}

/// Returns the form of the interleaving that a search finds.
pub(crate) fn schedule_form_from(words: &ArgMatches<'_>) -> ScheduleForm {
    match words.get_one::<u64>(SCENARIO) {
        Some(_) => ScheduleForm::Scenario,
        None if words.get_flag(JSON) => ScheduleForm::Object,
        None => ScheduleForm::Words,
    }
}

/// Returns which lines a trace shows, and how.
fn view_from(words: &ArgMatches<'_>) -> View {
    View {
        from: words.get_one::<u64>("from").unwrap_or(1),
        to: words.get_one::<u64>("to").unwrap_or(u64::MAX),
        every: words.get_one::<u64>("every").unwrap_or(1),
        width: words.get_one::<u64>("width").unwrap_or(WIDTH),
        orders: words.get_flag("orders"),
    }
}
