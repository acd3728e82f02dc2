//! How the plans of scripts ended.
ghost use Rattle.std.specs.Prelude.{◌≡◌, ◌++◌, ◌∷◌, [], IfOk, List, OnOk, length, slice_index_or};
ghost use Rattle.hp_units.specs.declared.replies.Reply.{Reply as OneReply};
ghost use Rattle.hp_questions.specs.PlanEnds.{AreRead, all_plan_ends, end_answered, end_finished, plan_ends};

use hp_schedules::{CallScript, FinishedLine, LineAnswer, Positions, Replies};
use hp_units::{Cpu, OpEnd, Record, Reply, Serial};
use std::alloc::{AllocError, Global};
use std::marker::Model;
use std::slice;

/// The ends of one processor's finished plans, in the order of its lines. In contracts, its value
/// is the list of these ends.
#[derive(Drop)]
pub struct PlanEnds {
    ends: Vec<OpEnd>,
}

impl Model for PlanEnds {
    ghost use Rattle.std.specs.Prelude.{List};
    ghost use Rattle.hp_units.specs.declared.replies.OpEnd.{OpEnd};

    ghost Value = { List OpEnd };

    ghost view = { λ e. e.ends.items };
}

impl PlanEnds {
    /// Returns the ends in order.
    pub fn as_slice(&self) -> &[OpEnd]
        ensures { result.now ≡ self.now }
    {
        let PlanEnds { ends } = self;
        ends.as_slice()
    }
}

/// Returns how the plans of each script ended, from processor 0 on, given the replies to each
/// processor. `cpus` is the number of processors of the layout.
pub fn all_plan_ends(
    alloc: Global,
    cpus: u32,
    scripts: &[CallScript],
    all: &[Replies],
) -> Result<Vec<PlanEnds>, AllocError>
    ensures { IfOk result (λ ends. ends.items ≡ all_plan_ends cpus scripts.now all.now) }
{
    let mut ends = Vec::new(alloc);
    for index in 0..scripts.len() {
        ends.reserve(1)?;
        let own = plan_ends(alloc, cpus, &scripts[index], replies_of(all, index))?;
        ends.push_reserved(own);
    }
    Ok(ends)
}

/// Returns the replies to the calls of the script at `index`, or no replies if `all` has none for
/// this script.
fn replies_of(all: &[Replies], index: usize) -> &[Reply]
    ensures { result.now ≡ slice_index_or all.now index [] }
{
    match all.get(index) {
        Some(replies) => replies.as_slice(),
        None => &[],
    }
}

/// Returns how the plans of a script ended, given the replies to its calls.
///
/// Runs the script again, alone and without a machine: each call gets the next of the replies.
fn plan_ends(
    alloc: Global,
    cpus: u32,
    script: &CallScript,
    replies: &[Reply],
) -> Result<PlanEnds, AllocError>
    ensures { IfOk result (λ ends. ends ≡ plan_ends cpus script.now replies.now) }
{
    let mut positions = Positions::start(alloc, cpus, slice::from_ref(script))?;
    let mut calls = Vec::new(alloc);
    let mut ends = Vec::new(alloc);
    for reply in replies {
        read_reply(
            alloc,
            cpus,
            script,
            *reply,
            &mut positions,
            &mut calls,
            &mut ends,
        )?;
    }
    Ok(PlanEnds { ends })
}

/// Gives the script's next call this reply, and appends the end of the plan that the call finished,
/// if it finished one. Ignores the reply if the script is finished.
///
/// `positions` has the script's position after `calls`, the calls so far.
fn read_reply(
    alloc: Global,
    cpus: u32,
    script: &CallScript,
    reply: Reply,
    positions: &mut Positions,
    calls: &mut Vec<Record>,
    ends: &mut Vec<OpEnd>,
) -> Result<(), AllocError>
    requires { length positions.old.cursors.items ≡ 1 }
    ensures { OnOk result ((replies : List OneReply)
        → AreRead cpus script.now replies positions.old.cursors.items calls.old.items ends.old.items
        → AreRead cpus script.now (replies ++ reply ∷ [])
        positions.new.cursors.items calls.new.items ends.new.items) }
{
    let scripts = slice::from_ref(script);
    calls.reserve(1)?;
    let Some(call) = positions.request(alloc, cpus, scripts, calls.as_slice(), 0)? else {
        return Ok(());
    };
    let latest = Record {
        serial: Serial(0),
        cpu: Cpu(0),
        event: call.event.copy(alloc)?,
        reply,
    };
    positions.go_on(cpus, scripts, 0, &call, &latest);
    let ended = end_of(&positions.answered(scripts, &latest));
    calls.push_reserved(latest);
    if let Some(end) = ended {
        ends.push(end)?;
    }
    Ok(())
}

/// Returns the end of the plan that a call finished, if it finished one.
fn end_of(finished: &Option<FinishedLine>) -> Option<OpEnd>
    ensures { result ≡ end_finished finished.now }
{
    match finished {
        Some(line) => end_in(&line.answer),
        None => None,
    }
}

/// Returns the end of a plan, if the answer to a line is one.
fn end_in(answer: &Option<LineAnswer>) -> Option<OpEnd>
    ensures { result ≡ end_answered answer.now }
{
    match answer {
        Some(LineAnswer::Plan(end)) => Some(*end),
        _ => None,
    }
}
