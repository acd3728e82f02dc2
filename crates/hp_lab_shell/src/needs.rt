//! What a command needs of a scenario, and what is worth a warning.
ghost use Rattle.std.specs.Prelude.{◌≡◌, IfErr, IfOk, OnOk, true};
ghost use Rattle.hp_scripts.specs.Named.{named_in};
ghost use Rattle.hp_lab_shell.specs.Needs.{HasLines, IsLineFault, IsPast, first_shown, has_line, last_named, setup_named, unbegun_of};

use crate::checks::ALL;
use crate::scripts::{line_count, unbegun_in};
use crate::words::Word;
use hp_scripts::Unbegun;
use hp_search::LabProgramFault;
use hp_trace::View;
use std::alloc::{AllocError, Global};

/// Returns, per processor, the first script line that works on operation 0 although the processor
/// has begun none. Empty for a command that does not search the scripts of a scenario.
pub fn unbegun_of(alloc: Global, input: &[u8], word: Word<'_>) -> Result<Vec<Unbegun>, AllocError>
    ensures { IfOk result (λ found. found.items ≡ unbegun_of word.entry (named_in input.now)) }
{
    match word {
        Word::Explore { asked, .. } | Word::Part { asked, .. } => {
            unbegun_in(alloc, input, asked.setup)
        }
        Word::Find { setup, .. } | Word::Never { setup, .. } => unbegun_in(alloc, input, setup),
        Word::Check(_) => Ok(Vec::new(alloc)),
        Word::Sum(_) => Ok(Vec::new(alloc)),
        Word::Trace(_) => Ok(Vec::new(alloc)),
        Word::Picture(_) => Ok(Vec::new(alloc)),
        Word::Log => Ok(Vec::new(alloc)),
        Word::Told(_) => Ok(Vec::new(alloc)),
    }
}

/// Checks that the scenario has the line that a command names. Bytes that are not a scenario pass.
#[tactic(auto, using(crate::proofs::Named::none_needed))]
pub fn look_for_line(alloc: Global, input: &[u8], word: Word<'_>) -> Result<(), LabProgramFault>
    ensures ok { OnOk result (HasLines word.entry input.now) }
    ensures err { IfErr result (IsLineFault word.entry input.now) }
{
    let asked = last_named(word);
    if asked == 0 {
        return Ok(());
    }
    let count = line_count(alloc, input)?;
    look_among(asked, count)
}

/// Checks that line `asked` is one of `count` lines. Passes if their number is not known.
fn look_among(asked: u64, count: Option<u64>) -> Result<(), LabProgramFault>
    ensures ok { OnOk result (has_line asked count ≡ true) }
    ensures err { IfErr result (IsPast asked count) }
{
    match count {
        Some(lines) => {
            if lines < asked {
                Err(LabProgramFault::PastEnd { asked, lines })
            } else {
                Ok(())
            }
        }
        None => Ok(()),
    }
}

/// Returns the last line that a command needs, counted from 1; 0 if it needs none.
fn last_named(word: Word<'_>) -> u64
    ensures { result ≡ last_named word.entry }
{
    match word {
        Word::Check(setup) => setup_named(setup),
        Word::Explore { asked, .. } | Word::Part { asked, .. } => asked.setup,
        Word::Find { setup, .. } | Word::Never { setup, .. } => setup,
        Word::Sum(_) => 0,
        Word::Trace(view) => first_shown(view),
        Word::Picture(drawing) => first_shown(drawing.view),
        Word::Log => 0,
        Word::Told(_) => 0,
    }
}

/// Returns the last setup line that a check needs; 0 if `setup` is `ALL`.
fn setup_named(setup: u64) -> u64
    ensures { result ≡ setup_named setup }
{
    if setup == ALL { 0 } else { setup }
}

/// Returns the first line that is shown, or 0 if that is the first of all.
fn first_shown(view: View) -> u64
    ensures { result ≡ first_shown view }
{
    if view.from <= 1 { 0 } else { view.from }
}
