//! What is wanted of an end, and which ends meet it.
ghost use Rattle.std.specs.Prelude.{◌≡◌, ◌↔◌, IfOk, IsTrue, None, Some, slice_get};
ghost use Rattle.hp_questions.specs.Patterns.{IsAsWanted, IsKindOf, kind_of};
ghost use Rattle.hp_questions.specs.Wanted.{HasAnswer, HasAnswerAt, HasLine, HasReply, HasReplyAt, IsMetBy, Meets};

use crate::plan_lines::EndPattern;
use hp_schedules::{CallScript, Outcome, Replies};
use hp_units::{Block, Cpu, Frame, Refusal, Reply, Row};
use std::alloc::{AllocError, Global};

/// A pattern for a reply.
#[derive(Clone, Copy, PartialEq, Eq, Drop)]
pub enum Pattern {
    /// Exactly this reply.
    Exactly(Reply),
    /// Any refusal for this reason, whatever frame or block it names.
    AnyOf(Refusal),
}

/// A line of an end.
#[derive(Clone, Copy, PartialEq, Eq, Drop)]
pub enum EndLine {
    /// A reply to processor `cpu` matches. If `cpu` is `None`, a reply to any processor counts.
    Answer {
        cpu: Option<Cpu>,
        reply: Pattern,
    },
    /// This processor's reply after `earlier` others matches.
    AnswerAt {
        cpu: Cpu,
        earlier: u64,
        reply: Pattern,
    },
    /// A plan of processor `cpu` ended as wanted. If `cpu` is `None`, a plan of
    /// any processor counts.
    Plan {
        cpu: Option<Cpu>,
        end: EndPattern,
    },
    /// The memory block has this row at the end. The rows of an end have no claims.
    Block {
        block: Block,
        row: Row,
    },
}

/// What is wanted of an end.
#[derive(Clone, Copy, PartialEq, Eq, Drop)]
pub enum Wanted {
    /// The end has the line.
    Has(EndLine),
    /// The end does not have the line.
    Lacks(EndLine),
}

impl Pattern {
    /// Returns whether the reply matches.
    pub fn is_met_by(&self, reply: &Reply) -> bool
        ensures { IsTrue result ↔ IsAsWanted self.now reply.now }
    {
        match self {
            Pattern::Exactly(wanted) => reply.same(wanted),
            Pattern::AnyOf(wanted) => is_of_kind(*wanted, reply),
        }
    }

    /// Returns whether one of the replies matches.
    fn is_among(&self, replies: &[Reply]) -> bool
        ensures { IsTrue result ↔ HasReply self.now replies.now }
    {
        for index in 0..replies.len() {
            if self.is_met_by(&replies[index]) {
                return true;
            }
        }
        false
    }

    /// Returns whether any processor has a reply that matches.
    fn is_among_all(&self, all: &[Replies]) -> bool
        ensures { IsTrue result ↔ HasAnswer self.now all.now None }
    {
        for index in 0..all.len() {
            if self.is_among(all[index].as_slice()) {
                return true;
            }
        }
        false
    }

    /// Returns whether processor `cpu` has a reply that matches. If `cpu` is `None`, a reply to any
    /// processor counts.
    fn is_answered(&self, all: &[Replies], cpu: Option<Cpu>) -> bool
        ensures { IsTrue result ↔ HasAnswer self.now all.now cpu }
    {
        match cpu {
            Some(cpu) => match all.get(cpu.0 as usize) {
                Some(answers) => self.is_among(answers.as_slice()),
                None => false,
            },
            None => self.is_among_all(all),
        }
    }

    /// Returns whether this processor's reply after `earlier` others matches.
    fn is_answered_at(&self, all: &[Replies], cpu: Cpu, earlier: u64) -> bool
        ensures { IsTrue result ↔ HasAnswerAt self.now all.now cpu earlier }
    {
        match all.get(cpu.0 as usize) {
            Some(answers) => self.is_at(answers.as_slice(), earlier),
            None => false,
        }
    }

    /// Returns whether the reply after `earlier` others matches.
    fn is_at(&self, replies: &[Reply], earlier: u64) -> bool
        ensures { IsTrue result ↔ HasReplyAt self.now replies.now earlier }
    {
        match replies.get(earlier as usize) {
            Some(reply) => self.is_met_by(reply),
            None => false,
        }
    }
}

impl EndLine {
    /// Returns whether the end has the line.
    fn is_in(
        &self,
        alloc: Global,
        cpus: u32,
        scripts: &[CallScript],
        outcome: &Outcome,
    ) -> Result<bool, AllocError>
        ensures { IfOk result (λ is. IsTrue is ↔ HasLine cpus scripts.now outcome.now self.now) }
    {
        match self {
            EndLine::Answer { cpu, reply } => Ok(reply.is_answered(outcome.replies(), *cpu)),
            EndLine::AnswerAt {
                cpu,
                earlier,
                reply,
            } => Ok(reply.is_answered_at(outcome.replies(), *cpu, *earlier)),
            EndLine::Plan { cpu, end } => {
                end.is_end_of(alloc, cpus, scripts, outcome.replies(), *cpu)
            }
            EndLine::Block { block, row } => Ok(has_row(outcome.blocks(), *block, row)),
        }
    }
}

impl Wanted {
    /// Returns whether the end meets the wanted line: it either has or lacks the line, as wanted.
    fn is_met_by(
        &self,
        alloc: Global,
        cpus: u32,
        scripts: &[CallScript],
        outcome: &Outcome,
    ) -> Result<bool, AllocError>
        ensures { IfOk result (λ is. IsTrue is ↔ IsMetBy cpus scripts.now outcome.now self.now) }
    {
        match self {
            Wanted::Has(line) => line.is_in(alloc, cpus, scripts, outcome),
            Wanted::Lacks(line) => Ok(!line.is_in(alloc, cpus, scripts, outcome)?),
        }
    }
}

/// Returns whether the end of these scripts has all lines that it must have, and none that it must
/// not have. `cpus` is the number of processors of the layout.
///
/// Allocates only for lines about plans.
pub fn are_met(
    alloc: Global,
    wanted: &[Wanted],
    cpus: u32,
    scripts: &[CallScript],
    outcome: &Outcome,
) -> Result<bool, AllocError>
    ensures { IfOk result (λ met. IsTrue met ↔ Meets cpus scripts.now wanted.now outcome.now) }
{
    for index in 0..wanted.len() {
        if !wanted[index].is_met_by(alloc, cpus, scripts, outcome)? {
            return Ok(false);
        }
    }
    Ok(true)
}

/// Returns whether the memory block has this row.
fn has_row(rows: &[Row], block: Block, row: &Row) -> bool
    ensures { IsTrue result ↔ (slice_get rows.now block ≡ Some row.now) }
{
    match rows.get(block.0 as usize) {
        Some(found) => same_row(found, row),
        None => false,
    }
}

/// Returns whether both rows are equal.
fn same_row(row: &Row, other: &Row) -> bool
    ensures { IsTrue result ↔ (row.now ≡ other.now) }
{
    *row == *other
}

/// Returns whether the reply is a refusal for the same reason as `wanted`, whatever frame or block
/// either names.
pub(crate) fn is_of_kind(wanted: Refusal, reply: &Reply) -> bool
    ensures { IsTrue result ↔ IsKindOf wanted reply.now }
{
    match reply {
        Reply::Refused(refusal) => kind_of(*refusal).same(kind_of(wanted)),
        _ => false,
    }
}

/// Returns the refusal with 0 in place of the frame or block that it names.
fn kind_of(refusal: Refusal) -> Refusal
    ensures { result ≡ kind_of refusal }
{
    match refusal {
        Refusal::Twice { .. } => Refusal::Twice { block: Block(0) },
        Refusal::Busy { .. } => Refusal::Busy { block: Block(0) },
        Refusal::NotOnline { .. } => Refusal::NotOnline { block: Block(0) },
        Refusal::NotOffline { .. } => Refusal::NotOffline { block: Block(0) },
        Refusal::Unmovable { .. } => Refusal::Unmovable { frame: Frame(0) },
        Refusal::NotFree { .. } => Refusal::NotFree { frame: Frame(0) },
        Refusal::NotAbsent { .. } => Refusal::NotAbsent { block: Block(0) },
        _ => refusal,
    }
}
