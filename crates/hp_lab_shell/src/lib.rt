//! The program `hotplug_lab` around the commands that search. It has the command line, the files
//! that it names, and what is shown of a scenario without a search. It prints on standard error:
//! warnings, faults, and how far a search has come.
//!
//! A `Laboratory` runs `check`, `explore`, `sum` and `trace`. The crate owns all commands: their
//! options and help, their defaults and limits, what each needs of a scenario, and the exit status
//! if no command is run. hp_check, hp_trace and hp_svg make the texts of `check` and `trace`, and
//! hp_judge the lines of a log; this crate joins them and adds the exit status. hp_verdicts
//! does all of `judge` but the command line, and hp_explain all of `explain` but the command line.
//! No contract covers how clap reads the command line, or what a file or a stream gives or takes:
//! that is tested on the built program.
//!
//! Read src/command.rt, src/words.rt and src/laboratory.rt first, then specs/Needs and
//! specs/Checks.
#![tactic(auto)]

mod arguments;
mod budgets;
mod checks;
mod command;
mod explain_words;
mod explaining;
mod files;
mod judging;
mod laboratory;
mod live;
mod live_arguments;
mod logs;
mod messages;
mod needs;
mod output;
mod pictures;
mod plain;
mod progress;
mod scripts;
mod search_words;
mod shell;
mod show_words;
mod text_and_status;
mod words;

pub use checks::checked;
pub use laboratory::{Laboratory, Served};
pub use logs::logged;
pub use needs::{look_for_line, unbegun_of};
pub use pictures::{drawn, told, traced};
pub use shell::run_program;
pub use text_and_status::TextAndStatus;
pub use words::{Drawing, ExploreOptions, JsonForm, Word};
