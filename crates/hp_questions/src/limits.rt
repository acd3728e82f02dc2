//! Wanted lines that name something outside the layout.
ghost use Rattle.std.specs.Prelude.{◌↔◌, IfNone, IfSome, IsTrue};
ghost use Rattle.hp_questions.specs.Limits.{AreWithin, IsAnswerPast, IsEndPast, IsFirstPast, IsLinePast, IsPast, IsPatternPast, IsPlanPast, IsRefusalPast, IsReplyPast};

use crate::plan_lines::EndPattern;
use crate::wanted::{EndLine, Pattern, Wanted};
use hp_units::{Cpu, Layout, Refusal, Reply};

/// Returns the number, from 1, of the first line that names a processor, a memory block or a frame
/// outside the layout. No end can have such a line, so asking for it is a mistake.
pub fn first_past(wanted: &[Wanted], layout: &Layout) -> Option<u64>
    ensures some { IfSome result (IsFirstPast layout.now wanted.now) }
    ensures none { IfNone result (AreWithin layout.now wanted.now) }
{
    for index in 0..wanted.len() {
        if wanted[index].is_past(layout) {
            return Some(index as u64 + 1);
        }
    }
    None
}

impl Wanted {
    /// Returns whether the line, which an end is to have or to lack, names
    /// something outside the layout.
    fn is_past(&self, layout: &Layout) -> bool
        ensures { IsTrue result ↔ IsPast layout.now self.now }
    {
        match self {
            Wanted::Has(line) => line.is_past(layout),
            Wanted::Lacks(line) => line.is_past(layout),
        }
    }
}

impl EndLine {
    /// Returns whether the line names something outside the layout.
    fn is_past(&self, layout: &Layout) -> bool
        ensures { IsTrue result ↔ IsLinePast layout.now self.now }
    {
        match self {
            EndLine::Answer { cpu: None, reply } => reply.is_past(layout),
            EndLine::Answer {
                cpu: Some(cpu),
                reply,
            } => is_answer_past(*cpu, reply, layout),
            EndLine::AnswerAt {
                cpu,
                earlier: _,
                reply,
            } => is_answer_past(*cpu, reply, layout),
            EndLine::Plan { cpu, end } => is_plan_past(cpu, end, layout),
            EndLine::Block { block, row: _ } => block.0 >= layout.blocks(),
        }
    }
}

/// Returns whether the layout has no processor `cpu`, or the pattern names
/// something outside the layout.
fn is_answer_past(cpu: Cpu, reply: &Pattern, layout: &Layout) -> bool
    ensures { IsTrue result ↔ IsAnswerPast layout.now cpu reply.now }
{
    cpu.0 >= layout.cpus() || reply.is_past(layout)
}

/// Returns whether `cpu` names a processor that the layout does not have, or the pattern for a
/// plan's end names something outside the layout.
fn is_plan_past(cpu: &Option<Cpu>, end: &EndPattern, layout: &Layout) -> bool
    ensures { IsTrue result ↔ IsPlanPast layout.now cpu.now end.now }
{
    match cpu {
        Some(cpu) => cpu.0 >= layout.cpus() || end.is_past(layout),
        None => end.is_past(layout),
    }
}

impl EndPattern {
    /// Returns whether the pattern names something outside the layout. Only a refusal with a frame
    /// or memory block can.
    fn is_past(&self, layout: &Layout) -> bool
        ensures { IsTrue result ↔ IsEndPast layout.now self.now }
    {
        match self {
            EndPattern::Refused(refusal) => refusal.is_past(layout),
            EndPattern::CancelledAs {
                why: Some(refusal),
                restored: _,
            } => refusal.is_past(layout),
            _ => false,
        }
    }
}

impl Pattern {
    /// Returns whether the pattern names something outside the layout. A pattern for all refusals
    /// of a kind names nothing.
    fn is_past(&self, layout: &Layout) -> bool
        ensures { IsTrue result ↔ IsPatternPast layout.now self.now }
    {
        match self {
            Pattern::Exactly(reply) => is_reply_past(reply, layout),
            Pattern::AnyOf(_) => false,
        }
    }
}

/// Returns whether the reply names a frame or a memory block outside the layout.
fn is_reply_past(reply: &Reply, layout: &Layout) -> bool
    ensures { IsTrue result ↔ IsReplyPast layout.now reply.now }
{
    match reply {
        Reply::Frame(frame) => frame.0 >= layout.frames(),
        Reply::Moved { from, to } => from.0 >= layout.frames() || to.0 >= layout.frames(),
        Reply::Refused(refusal) => is_refusal_past(*refusal, layout),
        _ => false,
    }
}

/// Returns whether the refusal names a frame or a memory block outside the layout.
fn is_refusal_past(refusal: Refusal, layout: &Layout) -> bool
    ensures { IsTrue result ↔ IsRefusalPast layout.now refusal }
{
    match refusal {
        Refusal::Twice { block } => block.0 >= layout.blocks(),
        Refusal::Busy { block } => block.0 >= layout.blocks(),
        Refusal::NotOnline { block } => block.0 >= layout.blocks(),
        Refusal::NotOffline { block } => block.0 >= layout.blocks(),
        Refusal::NotAbsent { block } => block.0 >= layout.blocks(),
        Refusal::Unmovable { frame } => frame.0 >= layout.frames(),
        Refusal::NotFree { frame } => frame.0 >= layout.frames(),
        _ => false,
    }
}
