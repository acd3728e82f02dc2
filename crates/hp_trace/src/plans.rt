//! A plan, with a row for each of its calls.
ghost use Rattle.std.specs.Prelude.{◌≡◌, ◌||◌, not, None, IfOk, IsTrue, OnOk, false, string_bytes};
ghost use Rattle.hp_trace.specs.Calls.{IsDriven, MakesPlan, answer_text, moved_of, step_text};
ghost use Rattle.hp_trace.specs.Ports.{is_memory};
ghost use Rattle.hp_text.specs.Plans.{plan_line};
ghost use Rattle.hp_trace.specs.Rows.{Adds, DrawsIf, Says};

use crate::rows::Rows;
use hp_machine::Machine;
use hp_map::Move;
use hp_ops::{Port, run_plan};
use hp_text::{write_event, write_plan_end, write_reply_words};
use hp_units::{CallFault, Cpu, Event, OpEnd, Plan, Receipt, Reply};
use indexmap::IndexSet;
use std::alloc::{AllocError, Global};

/// A port, through which a plan's driver makes its calls: a processor of a machine, and the rows of
/// the calls. The port's receipts are the machine's records of this processor.
#[derive(Drop)]
struct TracePort<'a> {
    machine: &'a mut Machine,
    cpu: Cpu,
    fault: Option<CallFault>,
    rows: &'a mut Rows,
    /// Whether a call or a row was out of memory.
    is_lost: bool,
}

impl<'a> TracePort<'a> {
    /// Creates a processor's port, with no call made yet.
    fn new(machine: &'a mut Machine, cpu: Cpu, rows: &'a mut Rows) -> TracePort<'a>
        ensures same_machine { result.machine.ghost_name ≡ machine.entry.ghost_name }
        ensures same_rows { result.rows.ghost_name ≡ rows.entry.ghost_name }
        ensures machine { result.machine.now ≡ machine.old }
        ensures rows { result.rows.now ≡ rows.old }
        ensures cpu { result.cpu ≡ cpu }
        ensures fault { result.fault ≡ None }
        ensures lost { result.is_lost ≡ false }
    {
        TracePort {
            machine,
            cpu,
            fault: None,
            rows,
            is_lost: false,
        }
    }
}

impl<'a> Port for TracePort<'a> {
    ghost use Rattle.std.specs.Prelude.{◌≡◌, refl};
    ghost use Rattle.std.proofs.Common.{◌∙◌};
    ghost use Rattle.hp_machine.specs.MachinePorts.{port_value};
    ghost use Rattle.hp_trace.specs.Ports.{IsTraced, LeavesOff, traced_joined, traced_nothing};

    ghost shows = { λ p. port_value p.machine.now p.cpu p.fault };

    ghost makes = { λ p gained q. (q.machine.ghost_name ≡ p.machine.ghost_name)
        × (q.rows.ghost_name ≡ p.rows.ghost_name) × (q.cpu ≡ p.cpu)
        × IsTraced p.cpu p.rows.now p.is_lost p.machine.now gained q.rows.now q.is_lost
        q.machine.now };

    ghost leaves = { λ p fault q. (q.machine.ghost_name ≡ p.machine.ghost_name)
        × (q.rows.ghost_name ≡ p.rows.ghost_name) × (q.machine.now ≡ p.machine.now)
        × (q.rows.now ≡ p.rows.now) × LeavesOff p.machine.now p.is_lost fault q.is_lost };

    fn cpus(&self) -> u32 {
        self.machine.layout().cpus()
    }

    fn call(&mut self, alloc: Global, event: &Event) -> Result<Reply, CallFault> {
        match self.machine.call(alloc, self.cpu, event) {
            Ok(receipt) => {
                let is_drawn = draw_step(self.rows, alloc, self.machine, &receipt);
                self.is_lost = is_lost(self.is_lost, is_drawn);
                self.fault = None;
                Ok(receipt.reply)
            }
            Err(fault) => {
                self.is_lost = self.is_lost || is_memory(fault);
                self.fault = Some(fault);
                Err(fault)
            }
        }
    }

    ghost nothing = { λ p.
        (refl, refl, refl, traced_nothing p.cpu p.rows.now p.is_lost p.machine.now) };

    ghost joined = { λ p q r xs ys a b. (
      b.0 ∙ a.0,
      b.1 ∙ a.1,
      b.2 ∙ a.2,
      traced_joined p.cpu q.cpu xs ys
          p.rows.now q.rows.now r.rows.now p.is_lost q.is_lost r.is_lost p.machine.now q.machine.now
          r.machine.now a.2 a.3 b.3,
    ) };
}

/// Returns whether an earlier call or row was out of memory, or this row could not be drawn.
fn is_lost(was_lost: bool, is_drawn: bool) -> bool
    ensures { result ≡ (was_lost || not is_drawn) }
{
    was_lost || !is_drawn
}

/// Returns whether a call left no record because it was out of memory.
fn is_memory(fault: CallFault) -> bool
    ensures { result ≡ is_memory fault }
{
    match fault {
        CallFault::HistoryFull => false,
        CallFault::OutOfMemory => true,
    }
}

/// Draws the row of a call of a plan, and returns whether there was memory for it.
fn draw_step(rows: &mut Rows, alloc: Global, machine: &Machine, receipt: &Receipt) -> bool
    ensures { IsTrue result
        → DrawsIf rows.old.form machine.now (step_text receipt.now.event) (answer_text receipt.now)
        (moved_of receipt.now.reply) rows.old rows.new }
{
    match step_text(alloc, &receipt.event) {
        Ok(asked) => draw_receipt(rows, alloc, machine, asked.as_str(), receipt).is_ok(),
        Err(AllocError) => false,
    }
}

/// Returns an event of a plan's driver as a scenario spells it, indented because it is below the
/// plan's line. The event accesses no page, so its text needs no owner's name.
fn step_text(alloc: Global, event: &Event) -> Result<String, AllocError>
    ensures { IfOk result (λ text. string_bytes text ≡ step_text event.now) }
{
    let mut out = String::from_str(alloc, "     ")?;
    write_event(&mut out, &IndexSet::new(alloc), event)?;
    Ok(out)
}

/// Draws the row of a call: what was asked, its serial and its reply, and the memory after it.
pub(crate) fn draw_receipt(
    rows: &mut Rows,
    alloc: Global,
    machine: &Machine,
    asked: &str,
    receipt: &Receipt,
) -> Result<(), AllocError>
    ensures { OnOk result
        (DrawsIf rows.old.form machine.now asked.now (answer_text receipt.now)
        (moved_of receipt.now.reply) rows.old rows.new) }
{
    let answer = answer_text(alloc, receipt)?;
    rows.draw(
        alloc,
        machine,
        asked,
        answer.as_str(),
        moved_of(receipt.reply),
        Some(receipt),
    )
}

/// Returns the page that a call moved, if it moved one.
fn moved_of(reply: Reply) -> Option<Move>
    ensures { result ≡ moved_of reply }
{
    match reply {
        Reply::Moved { from, to } => Some(Move { from, to }),
        _ => None,
    }
}

/// Returns the serial and the reply of a call.
fn answer_text(alloc: Global, receipt: &Receipt) -> Result<String, AllocError>
    ensures { IfOk result (λ text. string_bytes text ≡ answer_text receipt.now) }
{
    let serial = receipt.serial;
    let reply = receipt.reply;
    let mut out = format!(in alloc; "{serial}: ")?;
    write_reply_words(&mut out, reply)?;
    Ok(out)
}

/// Runs a plan's driver with at most `turns` migrations. Adds a row of the memory before it, a row
/// for each of its calls, and a text with how the plan ended.
pub(crate) fn trace_plan(
    rows: &mut Rows,
    alloc: Global,
    machine: &mut Machine,
    cpu: Cpu,
    plan: &Plan,
    turns: u32,
    asked: &str,
) -> Result<(), AllocError>
    ensures { OnOk result (Adds rows.old rows.new
        (λ list. MakesPlan machine.old cpu turns plan.now asked.now list machine.new)) }
{
    rows.draw(alloc, machine, asked, "", None, None)?;
    let plan = plan.copy(alloc)?;
    match drive(rows, alloc, machine, cpu, plan, turns) {
        Ok(end) => say_end(rows, alloc, end),
        Err(AllocError) => Err(AllocError),
    }
}

/// Writes how a plan ended.
fn say_end(rows: &mut Rows, alloc: Global, end: OpEnd) -> Result<(), AllocError>
    ensures { OnOk result (Says (plan_line end) rows.old rows.new) }
{
    let mut out = String::new(alloc);
    write_plan_end(&mut out, end)?;
    rows.say(alloc, out.as_str())
}

/// Runs a plan's driver, with a row for each of its calls.
fn drive(
    rows: &mut Rows,
    alloc: Global,
    machine: &mut Machine,
    cpu: Cpu,
    plan: Plan,
    turns: u32,
) -> Result<OpEnd, AllocError>
    ensures { IfOk result (λ end. Adds rows.old rows.new
        (λ list. IsDriven machine.old cpu turns plan end list machine.new)) }
{
    let mut port = TracePort::new(machine, cpu, rows);
    let end = run_plan(alloc, &mut port, plan, turns);
    let is_lost = port.is_lost;
    // No effect at run time: the proof reads what the machine and the rows hold from these uses.
    let _ = &*port.machine;
    let _ = &*port.rows;
    if is_lost {
        return Err(AllocError);
    }
    Ok(end)
}
