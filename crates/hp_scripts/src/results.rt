//! The results of lines that may have names.
ghost use Rattle.std.specs.Prelude.{◌≡◌};
ghost use Rattle.hp_scripts.specs.Results as spec;

use hp_units::{Event, Reply, Serial};

/// What a named result is.
#[derive(Clone, Copy, Debug, Drop)]
pub enum ResultKind {
    /// The operation that a `begin` began.
    Operation,
    /// The frame that a `kalloc` got.
    Frame,
}

/// How lines use names.
#[derive(Clone, Copy, Debug, Drop)]
pub(crate) enum NameUse {
    /// A line's result is of this kind, and may have a name.
    Gives(ResultKind),
    /// The number after the verb is that of a result of this kind, and a name may take its place.
    Takes(ResultKind),
}

/// A result with a name.
#[derive(Clone, Copy, Debug, Drop)]
pub struct NamedResult {
    /// What it is.
    pub kind: ResultKind,
    /// The index of the line that has the result.
    pub line: usize,
    /// The number of the operation or the frame; 0 while it is not known.
    pub number: u64,
}

/// A frame that no layout has.
const NO_FRAME: u64 = 4_294_967_295;

/// An operation that no machine has: it comes after the last one that a history has room for.
const NO_OPERATION: u64 = 18_446_744_073_709_551_615;

impl ResultKind {
    /// Returns whether both are the same kind.
    pub(crate) fn is(self, other: ResultKind) -> bool
        ensures { result ≡ spec.same_kind self other }
    {
        match self {
            ResultKind::Operation => match other {
                ResultKind::Operation => true,
                ResultKind::Frame => false,
            },
            ResultKind::Frame => match other {
                ResultKind::Operation => false,
                ResultKind::Frame => true,
            },
        }
    }
}

/// Returns how lines of this verb use names, if they may have any.
#[tactic(auto, unfolding(crate::specs::Results::use_of_verb))]
pub(crate) fn use_of_verb(verb: &str) -> Option<NameUse>
    ensures { result ≡ spec.use_of_verb verb.now }
{
    match verb {
        "begin" => Some(NameUse::Gives(ResultKind::Operation)),
        "kalloc" => Some(NameUse::Gives(ResultKind::Frame)),
        "drainfor" => Some(NameUse::Takes(ResultKind::Operation)),
        "migrate" => Some(NameUse::Takes(ResultKind::Operation)),
        "commit" => Some(NameUse::Takes(ResultKind::Operation)),
        "cancel" => Some(NameUse::Takes(ResultKind::Operation)),
        "kfree" => Some(NameUse::Takes(ResultKind::Frame)),
        _ => None,
    }
}

/// Returns the number of a call's result. For a `Begin` it is the number of the operation, even if
/// it was refused. For a `KernelAlloc` it is the frame, or 4294967295, which no layout has, if it
/// was refused. For any other call it is 0.
pub fn result_number(event: &Event, serial: Serial, reply: &Reply) -> u64
    ensures { result ≡ spec.result_number event.now serial reply.now }
{
    match event {
        Event::Begin { plan: _ } => serial.0,
        Event::KernelAlloc { order: _ } => frame_number(reply),
        _ => 0,
    }
}

/// Returns the number of the frame in a reply, or `NO_FRAME` if the reply is another.
fn frame_number(reply: &Reply) -> u64
    ensures { result ≡ spec.frame_number reply.now }
{
    match reply {
        Reply::Frame(frame) => u64::from(frame.0),
        _ => NO_FRAME,
    }
}

/// Returns the number of the result of a call that made no record, since the history was full. For
/// a `Begin` it is an operation that no machine has, and for a `KernelAlloc` a frame that no layout
/// has. For any other call it is 0.
pub fn missing_number(event: &Event) -> u64
    ensures { result ≡ spec.missing_number event.now }
{
    match event {
        Event::Begin { plan: _ } => NO_OPERATION,
        Event::KernelAlloc { order: _ } => NO_FRAME,
        _ => 0,
    }
}
