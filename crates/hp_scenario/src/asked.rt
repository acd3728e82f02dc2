//! What a line asks for. For an `echo`, that is what its control file makes of the word.
ghost use Rattle.std.specs.Prelude.{◌≡◌};
ghost use Rattle.hp_scenario.specs.Asked as means;
ghost use Rattle.hp_scenario.specs.Seen.{asked_seen};

use crate::lines::Work;
use hp_requests::{CONTROL_TURNS, ControlFault, Request};
use hp_units::{Event, Plan};

/// What a line asks for. For an `echo`, that is what its control file makes of the word.
#[derive(Drop)]
pub enum Asked<'a> {
    /// One event of the machine.
    Event(&'a Event),
    /// A run of a plan's driver, with at most `turns` migrations.
    Plan { plan: &'a Plan, turns: u32 },
    /// Nothing: the control file of an `echo` does not take the word, for this reason.
    NotTaken(ControlFault),
    /// The text of a control file.
    Cat { path: &'a str },
    /// The records since the last seal.
    Seal,
}

impl Work {
    /// Returns what the work asks for. A plan that an `echo` asks for tries at most `CONTROL_TURNS`
    /// migrations.
    #[inline(always)]
    #[tactic(auto, unfolding(crate::specs::Asked::asked_by))]
    pub fn asked(&self) -> Asked<'_>
        ensures { asked_seen result ≡ means.asked_by self.now }
    {
        match self {
            Work::Event(event) => Asked::Event(event),
            Work::Plan { plan, turns } => Asked::Plan {
                plan,
                turns: *turns,
            },
            Work::Echo(echo) => asked_of(echo.request()),
            Work::Cat { path } => Asked::Cat {
                path: path.as_str(),
            },
            Work::Seal => Asked::Seal,
        }
    }

    /// Returns whether the work is a seal.
    pub fn is_seal(&self) -> bool
        ensures { result ≡ means.is_seal self.now }
    {
        matches!(self.asked(), Asked::Seal)
    }
}

/// Returns what an `echo` asks for, or why the control file does not take its word.
#[inline(always)]
fn asked_of(request: &Result<Request, ControlFault>) -> Asked<'_>
    ensures { asked_seen result ≡ means.asked_of request.now }
{
    match request {
        Ok(Request::Event(event)) => Asked::Event(event),
        Ok(Request::Plan(plan)) => Asked::Plan {
            plan,
            turns: CONTROL_TURNS,
        },
        Err(fault) => Asked::NotTaken(*fault),
    }
}
