//! How far the driver of a plan is: the event that it asks for next, or how its run ended.
ghost use Rattle.std.specs.Prelude.{◌≡◌, ◌-◌, ◌≤◌, ℕ, [], IfOk, List, None, OnErr, Some, cond};
ghost use Rattle.hp_units.specs.Driver.{cause_after, is_migrate};
ghost use Rattle.hp_ops.specs.Names.{Begin, Cancel, Commit, DrainFor, Item, Migrate};
ghost use Rattle.hp_ops.specs.Stages.{EndsAs, Follows, IsAfter, IsRound, MovesOn, end_in, event_in, has_begun, is_over, key_of, stage_number, stage_op, undone_by, work_in};

use hp_units::{Cpu, Event, OpEnd, Plan, Refusal, Reply, Serial};
use std::alloc::{AllocError, Global};

/// What a driver does next.
#[derive(Clone, Copy, Drop)]
pub(crate) enum Stage {
    /// Begins the operation of its plan.
    Begin,
    /// Drains the lists of a processor.
    DrainFor { op: Serial, cpu: Cpu },
    /// Moves a page.
    Migrate { op: Serial },
    /// Commits.
    Commit { op: Serial },
    /// Cancels.
    Cancel { op: Serial },
    /// Nothing more: the run ended like this. `None` after a reply that no machine gives.
    Ended(Option<OpEnd>),
}

/// The driver of a plan, between its calls: a few words, however many calls there are. It does not
/// keep the plan, which only the Begin needs.
#[derive(Clone, Copy, Drop)]
pub struct Driver {
    /// The number of processors.
    cpus: u32,
    /// How many migrations may still be tried.
    left: u32,
    /// The last refusal of a migration or a commit.
    why: Option<Refusal>,
    /// What comes next.
    stage: Stage,
}

/// What the next events of a driver depend on: how many migrations are left, and the stage with its
/// operation.
#[derive(Clone, Copy, PartialEq, Eq, Drop)]
pub struct DriverKey {
    /// How many migrations may still be tried.
    pub left: u32,
    /// The number of the stage; each processor's drain has its own.
    pub stage: u64,
    /// The operation that the stage works on, or 0 if it works on none.
    pub op: Serial,
}

impl Driver {
    /// Returns a driver before its first call, for `cpus` processors, with at most `turns`
    /// migrations.
    pub fn new(cpus: u32, turns: u32) -> Self
        ensures { IsAfter cpus turns [] result }
    {
        Driver {
            cpus,
            left: turns,
            why: None,
            stage: Stage::Begin,
        }
    }

    /// Returns the event to ask for next, or `None` if the run is over (Linux, memory hotplug:
    /// offlining). Allocates only for a Begin, which has a copy of the plan.
    pub fn next(&self, alloc: Global, plan: &Plan) -> Result<Option<Event>, AllocError>
        ensures ok { IfOk result (λ next. next ≡ event_in plan.now self.now.stage) }
        ensures err { OnErr result (event_in plan.now self.now.stage ≡ Some (Begin plan.now)) }
    {
        match self.stage {
            Stage::Begin => Ok(Some(Event::Begin {
                plan: plan.copy(alloc)?,
            })),
            _ => Ok(self.work()),
        }
    }

    /// Takes the reply to an event, and moves on.
    pub fn answer(&mut self, event: &Event, reply: &Reply)
        ensures { MovesOn self.old event.now reply.now self.new }
    {
        self.left = left_after(self.left, event);
        self.why = why_after(self.why, event, reply);
        self.stage = self.stage_after(event, reply);
    }

    /// Returns what the next events depend on. Drivers with equal keys, for equally many
    /// processors, ask for the same events after the same replies.
    pub fn key(&self) -> DriverKey
        ensures { result ≡ key_of self.now }
    {
        DriverKey {
            left: self.left,
            stage: self.stage.number(),
            op: self.stage.operation(),
        }
    }

    /// Returns whether the driver has taken a reply.
    pub fn has_begun(&self) -> bool
        ensures { result ≡ has_begun self.now.stage }
    {
        !matches!(self.stage, Stage::Begin)
    }

    /// Returns whether the run is over: the driver asks for nothing more.
    pub fn is_over(&self) -> bool
        ensures { result ≡ is_over self.now.stage }
    {
        matches!(self.stage, Stage::Ended(_))
    }

    /// Returns how the run ended, or `None` if it goes on, or ended by a reply that no machine
    /// gives.
    pub fn ended(&self) -> Option<OpEnd>
        ensures { result ≡ end_in self.now.stage }
    {
        match self.stage {
            Stage::Ended(end) => end,
            _ => None,
        }
    }

    /// Returns the last refusal of a migration or a commit, if any.
    pub fn why(&self) -> Option<Refusal>
        ensures { result ≡ self.now.why }
    {
        self.why
    }

    /// Returns the event to ask for next, if it is work on the operation.
    pub(crate) fn work(&self) -> Option<Event>
        ensures { result ≡ work_in self.now.stage }
    {
        match self.stage {
            Stage::DrainFor { op, cpu } => Some(Event::DrainFor { op, cpu }),
            Stage::Migrate { op } => Some(Event::Migrate { op }),
            Stage::Commit { op } => Some(Event::Commit { op }),
            Stage::Cancel { op } => Some(Event::Cancel { op }),
            _ => None,
        }
    }

    /// Returns how the run ended.
    pub(crate) fn end(&self) -> OpEnd
        requires { (end : OpEnd) × (end_in self.now.stage ≡ Some end) }
        ensures { end_in self.now.stage ≡ Some result }
    {
        match self.stage {
            Stage::Ended(Some(end)) => end,
            _ => unreachable!(),
        }
    }

    /// Returns the stage after the reply to an event.
    fn stage_after(&self, event: &Event, reply: &Reply) -> Stage
        ensures next { Follows self.now.cpus self.now.left event.now reply.now result }
        ensures end { EndsAs self.now.why event.now reply.now result }
    {
        match event {
            Event::Begin { .. } => self.after_begin(reply),
            Event::DrainFor { op, cpu } => self.after_drain(*op, *cpu, reply),
            Event::Migrate { op } => self.after_migrate(*op, reply),
            Event::Commit { op } => self.after_commit(*op, reply),
            Event::Cancel { .. } => self.after_cancel(reply),
            _ => Stage::Ended(unless_live(reply)),
        }
    }

    /// Returns the stage after a Begin: a round of drains, if it opened an operation.
    fn after_begin(&self, reply: &Reply) -> Stage
        ensures next { (plan : List Item)
            → Follows self.now.cpus self.now.left (Begin plan) reply.now result }
        ensures end { (plan : List Item) → EndsAs self.now.why (Begin plan) reply.now result }
    {
        match reply {
            Reply::Opened { op } => self.round(*op, 0),
            Reply::Refused(refusal) => Stage::Ended(Some(OpEnd::Refused(*refusal))),
            _ => Stage::Ended(None),
        }
    }

    /// Returns the stage after the reply to a drain. If the drain was done, this is the
    /// next processor's drain. After the last processor it is a migration, or a cancel if
    /// no more may be tried.
    fn after_drain(&self, op: Serial, cpu: Cpu, reply: &Reply) -> Stage
        ensures next { Follows self.now.cpus self.now.left (DrainFor op cpu) reply.now result }
        ensures end { EndsAs self.now.why (DrainFor op cpu) reply.now result }
    {
        match reply {
            Reply::Done if cpu.0 < self.cpus => self.round(op, cpu.0 + 1),
            Reply::Done => self.turn(op),
            _ => Stage::Ended(unless_live(reply)),
        }
    }

    /// Returns the stage after a migration: a round of drains if no frame can be had, and the
    /// commit if no page is left. If a page moved, it is another migration, or a cancel if no more
    /// may be tried.
    fn after_migrate(&self, op: Serial, reply: &Reply) -> Stage
        ensures next { Follows self.now.cpus self.now.left (Migrate op) reply.now result }
        ensures end { EndsAs self.now.why (Migrate op) reply.now result }
    {
        match reply {
            Reply::Moved { .. } => self.turn(op),
            Reply::Refused(refusal) => match refusal {
                Refusal::NoFrame => self.round(op, 0),
                Refusal::NothingToMove => Stage::Commit { op },
                _ => Stage::Ended(unless_live(reply)),
            },
            _ => Stage::Ended(None),
        }
    }

    /// Returns the stage after a commit: a round of drains if a frame of a going block is in no
    /// free block (it may be on a processor's list), and otherwise the end.
    fn after_commit(&self, op: Serial, reply: &Reply) -> Stage
        ensures next { Follows self.now.cpus self.now.left (Commit op) reply.now result }
        ensures end { EndsAs self.now.why (Commit op) reply.now result }
    {
        match reply {
            Reply::Done => Stage::Ended(Some(OpEnd::Done)),
            Reply::Refused(refusal) => match refusal {
                Refusal::NotFree { .. } => self.round(op, 0),
                _ => Stage::Ended(unless_live(reply)),
            },
            _ => Stage::Ended(None),
        }
    }

    /// Returns the stage after a cancel: the end.
    fn after_cancel(&self, reply: &Reply) -> Stage
        ensures next { (op : ℕ) → Follows self.now.cpus self.now.left (Cancel op) reply.now result }
        ensures end { (op : ℕ) → EndsAs self.now.why (Cancel op) reply.now result }
    {
        let why = self.why;
        match reply {
            Reply::Restored => Stage::Ended(Some(OpEnd::Cancelled {
                why,
                restored: true,
            })),
            Reply::Released => Stage::Ended(Some(OpEnd::Cancelled {
                why,
                restored: false,
            })),
            _ => Stage::Ended(unless_live(reply)),
        }
    }

    /// Returns the drain of processor `cpu` in a round of drains. After the last processor, returns
    /// a migration, or a cancel if no more may be tried.
    fn round(&self, op: Serial, cpu: u32) -> Stage
        ensures next { IsRound self.now.cpus self.now.left op cpu result }
        ensures end { end_in result ≡ None }
    {
        if cpu < self.cpus {
            Stage::DrainFor { op, cpu: Cpu(cpu) }
        } else {
            self.turn(op)
        }
    }

    /// Returns a migration, or a cancel if no more may be tried.
    fn turn(&self, op: Serial) -> Stage
        ensures next { (cpus cpu : ℕ) → cpus ≤ cpu → IsRound cpus self.now.left op cpu result }
        ensures end { end_in result ≡ None }
    {
        if 0 < self.left {
            Stage::Migrate { op }
        } else {
            Stage::Cancel { op }
        }
    }
}

impl Stage {
    /// Returns the number of the stage.
    fn number(&self) -> u64
        ensures { result ≡ stage_number self.now }
    {
        match self {
            Stage::Begin => 0,
            Stage::Migrate { .. } => 1,
            Stage::Commit { .. } => 2,
            Stage::Cancel { .. } => 3,
            Stage::Ended(_) => 4,
            Stage::DrainFor { cpu, .. } => 5 + u64::from(cpu.0),
        }
    }

    /// Returns the operation that the stage works on, or 0 if it works on none.
    fn operation(&self) -> Serial
        ensures { result ≡ stage_op self.now }
    {
        match self {
            Stage::DrainFor { op, .. }
            | Stage::Migrate { op }
            | Stage::Commit { op }
            | Stage::Cancel { op } => *op,
            _ => Serial(0),
        }
    }
}

/// Returns how many migrations may be tried after an event, if `left` was the number before.
fn left_after(left: u32, event: &Event) -> u32
    ensures { result ≡ left - cond (is_migrate event.now) 1 0 }
{
    match event {
        Event::Migrate { .. } => left.saturating_sub(1),
        _ => left,
    }
}

/// Returns the last refusal of a migration or a commit after a reply, if `why` was the last before.
fn why_after(why: Option<Refusal>, event: &Event, reply: &Reply) -> Option<Refusal>
    ensures { result ≡ cause_after why event.now reply.now }
{
    match event {
        Event::Migrate { .. } | Event::Commit { .. } => match reply {
            Reply::Refused(refusal) => Some(*refusal),
            _ => why,
        },
        _ => why,
    }
}

/// Returns the end `Undone`, if a reply reports that the operation is no longer live.
fn unless_live(reply: &Reply) -> Option<OpEnd>
    ensures { result ≡ undone_by reply.now }
{
    match reply {
        Reply::Refused(Refusal::NoOp) => Some(OpEnd::Undone),
        _ => None,
    }
}
