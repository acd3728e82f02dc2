//! Parses a wanted reply: its first word and the other words.
ghost use Rattle.std.specs.Prelude.{◌≡◌, map};
ghost use Rattle.hp_questions.specs.WantedLines as says;

use crate::wanted::Pattern;
use hp_scenario::{only32, only64};
use hp_units::{Block, Frame, Refusal, Reply, Serial, number32};

/// Parses a reply as `explore` prints it, such as `frame 4`, from its first word and the other
/// words.
#[tactic(auto, unfolding(crate::specs::WantedLines::reply_of))]
pub fn reply_pattern(word: &str, args: &[&str]) -> Option<Pattern>
    ensures { result ≡ says.reply_of word.now (map (λ w. w.now) args.now) }
{
    match word {
        "done" => bare_reply(Reply::Done, args),
        "restored" => bare_reply(Reply::Restored, args),
        "released" => bare_reply(Reply::Released, args),
        "frame" => Some(Pattern::Exactly(Reply::Frame(Frame(only32(args)?)))),
        "word" => Some(Pattern::Exactly(Reply::Word(only64(args)?))),
        "undone" => Some(Pattern::Exactly(Reply::Undone {
            count: only64(args)?,
        })),
        "moved" => moved(args),
        "opened" => opened(args),
        "refused" => refusal_pattern(args),
        _ => None,
    }
}

/// Returns a pattern for exactly this reply, if there are no arguments.
#[tactic(auto, unfolding(crate::specs::WantedLines::bare_reply))]
fn bare_reply(reply: Reply, args: &[&str]) -> Option<Pattern>
    ensures { result ≡ says.bare_reply reply (map (λ w. w.now) args.now) }
{
    match args {
        [] => Some(Pattern::Exactly(reply)),
        [_, ..] => None,
    }
}

#[tactic(auto, unfolding(crate::specs::WantedLines::moved_reply))]
fn moved(args: &[&str]) -> Option<Pattern>
    ensures { result ≡ says.moved_reply (map (λ w. w.now) args.now) }
{
    let [from, to] = args else { return None };
    let from = Frame(number32(from)?);
    let to = Frame(number32(to)?);
    Some(Pattern::Exactly(Reply::Moved { from, to }))
}

/// Parses the argument of `opened`, which must be 0: an end does not show the operation's number.
#[tactic(auto, unfolding(crate::specs::WantedLines::opened_reply))]
fn opened(args: &[&str]) -> Option<Pattern>
    ensures { result ≡ says.opened_reply (map (λ w. w.now) args.now) }
{
    let op = only64(args)?;
    if op == 0 {
        Some(Pattern::Exactly(Reply::Opened { op: Serial(0) }))
    } else {
        None
    }
}

/// Parses a refusal. A name alone matches every refusal of its kind.
#[tactic(auto, unfolding(crate::specs::WantedLines::refusal_of))]
pub fn refusal_pattern(args: &[&str]) -> Option<Pattern>
    ensures { result ≡ says.refusal_of (map (λ w. w.now) args.now) }
{
    match args {
        [name] => Some(Pattern::AnyOf(named_refusal(name)?)),
        [name, number] => {
            let number = number32(number)?;
            let refusal = numbered_refusal(name, number)?;
            Some(Pattern::Exactly(Reply::Refused(refusal)))
        }
        _ => None,
    }
}

/// Returns the refusal with this name, with 0 for its frame or block.
#[tactic(auto, unfolding(crate::specs::WantedLines::named_refusal))]
fn named_refusal(name: &str) -> Option<Refusal>
    ensures { result ≡ says.named_refusal name.now }
{
    match name {
        "NoOwner" => Some(Refusal::NoOwner),
        "NoPage" => Some(Refusal::NoPage),
        "NoWord" => Some(Refusal::NoWord),
        "AlreadyMapped" => Some(Refusal::AlreadyMapped),
        "NotMapped" => Some(Refusal::NotMapped),
        "BadOrder" => Some(Refusal::BadOrder),
        "NoFrame" => Some(Refusal::NoFrame),
        "NoSuchFrame" => Some(Refusal::NoSuchFrame),
        "NotKernel" => Some(Refusal::NotKernel),
        "NoCpu" => Some(Refusal::NoCpu),
        "NoBlock" => Some(Refusal::NoBlock),
        "EmptyPlan" => Some(Refusal::EmptyPlan),
        "NoOp" => Some(Refusal::NoOp),
        "NothingToMove" => Some(Refusal::NothingToMove),
        "Gone" => Some(Refusal::Gone),
        "BadAddress" => Some(Refusal::BadAddress),
        _ => numbered_refusal(name, 0),
    }
}

/// Returns the refusal with this name, for the frame or block with this number.
#[tactic(auto, unfolding(crate::specs::WantedLines::numbered_refusal))]
fn numbered_refusal(name: &str, number: u32) -> Option<Refusal>
    ensures { result ≡ says.numbered_refusal name.now number }
{
    let block = Block(number);
    let frame = Frame(number);
    match name {
        "Twice" => Some(Refusal::Twice { block }),
        "Busy" => Some(Refusal::Busy { block }),
        "NotOnline" => Some(Refusal::NotOnline { block }),
        "NotOffline" => Some(Refusal::NotOffline { block }),
        "Unmovable" => Some(Refusal::Unmovable { frame }),
        "NotFree" => Some(Refusal::NotFree { frame }),
        "NotAbsent" => Some(Refusal::NotAbsent { block }),
        _ => None,
    }
}
