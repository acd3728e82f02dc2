//! Parses a wanted line about a memory block.
ghost use Rattle.std.specs.Prelude.{◌≡◌, map};
ghost use Rattle.hp_questions.specs.WantedLines as says;

use crate::wanted::EndLine;
use hp_scenario::zone_from;
use hp_units::{Block, Claim, Row, State, Zone, number32};

/// Parses the words after `block` in a wanted line: the block's number, its final state, and its
/// zone if it has one.
#[tactic(auto, unfolding(crate::specs::WantedLines::block_of))]
pub(crate) fn block_from(args: &[&str]) -> Option<EndLine>
    ensures { result ≡ says.block_of (map (λ w. w.now) args.now) }
{
    let [number, word, args @ ..] = args else {
        return None;
    };
    let block = Block(number32(number)?);
    let row = row_from(word, args)?;
    Some(EndLine::Block { block, row })
}

/// Parses a memory block's row from its state and the other words.
#[tactic(auto, unfolding(crate::specs::WantedLines::row_of))]
fn row_from(word: &str, args: &[&str]) -> Option<Row>
    ensures { result ≡ says.row_of word.now (map (λ w. w.now) args.now) }
{
    match word {
        "offline" => bare_row(State::Offline, args),
        "absent" => bare_row(State::Absent, args),
        "online" => zone_row(State::Online, args),
        "going" => zone_row(State::Going, args),
        _ => None,
    }
}

/// Returns the row of a block that is offline or absent, if there are no further words.
#[tactic(auto, unfolding(crate::specs::WantedLines::bare_row))]
fn bare_row(state: State, args: &[&str]) -> Option<Row>
    ensures { result ≡ says.bare_row state (map (λ w. w.now) args.now) }
{
    let zone: Option<Zone> = None;
    let claim: Option<Claim> = None;
    match args {
        [] => Some(Row { state, zone, claim }),
        [_, ..] => None,
    }
}

/// Parses the row of a block that is online or going, which has a zone.
#[tactic(auto, unfolding(crate::specs::WantedLines::zone_row))]
fn zone_row(state: State, args: &[&str]) -> Option<Row>
    ensures { result ≡ says.zone_row state (map (λ w. w.now) args.now) }
{
    let [word] = args else { return None };
    let zone = zone_from(word)?;
    let claim: Option<Claim> = None;
    Some(Row {
        state,
        zone: Some(zone),
        claim,
    })
}
