//! The phase of a memory block in a log, and the events from one phase to another.
ghost use Rattle.std.specs.Prelude.{◌≡◌, ℕ, ◌++◌, OnOk, if◌then◌else◌, not};
ghost use Rattle.std.specs.List.{list_any};
ghost use Rattle.hp_judge.specs.Events.{leaves_offline};
ghost use Rattle.hp_judge.specs.Phases.{direct_events, from_offline, phase_events, phase_of, same_zone, to_offline, wished_phase};
ghost use Rattle.hp_judge.specs.Turns.{goes_offline, phase_seen, turn_events};

use crate::LogEvent;
use crate::step_events::add;
use hp_units::{Block, Row, State, Wish, Zone};
use std::alloc::AllocError;

/// The phase of a memory block in a log. An absent block is offline there.
#[derive(Clone, Copy, Drop)]
pub(crate) enum Phase {
    Offline,
    GoingOnline { zone: Zone },
    Online { zone: Zone },
    GoingOffline { zone: Zone },
}

/// How a memory block gets from one phase to another.
#[derive(Clone, Copy, Drop)]
pub(crate) enum Turn {
    /// It is in the same phase.
    Stays,
    /// By the end of an online.
    ComesOnline,
    /// By the start of an offline.
    BeginsOffline,
    /// By an offline that fails.
    StaysOnline,
    /// It goes offline, unless it is offline already, and from there into the other phase.
    ThroughOffline,
}

impl Phase {
    /// Returns the phase that a row shows.
    pub(crate) fn of(row: &Row) -> Phase
        ensures { phase_seen result ≡ phase_of row.now }
    {
        match row.state {
            State::Offline => match row.claim {
                Some(claim) => Phase::wished(claim.wish),
                None => Phase::Offline,
            },
            State::Online => Phase::Online {
                zone: row.zone.unwrap_or(Zone::Normal),
            },
            State::Going => Phase::GoingOffline {
                zone: row.zone.unwrap_or(Zone::Normal),
            },
            State::Absent => Phase::Offline,
        }
    }

    /// Returns the phase of an offline block that an operation holds with this wish.
    fn wished(wish: Wish) -> Phase
        ensures { phase_seen result ≡ wished_phase wish }
    {
        match wish {
            Wish::Off => Phase::Offline,
            Wish::Normal => Phase::GoingOnline { zone: Zone::Normal },
            Wish::Movable => Phase::GoingOnline {
                zone: Zone::Movable,
            },
        }
    }

    /// Returns how a block gets from this phase to another.
    fn turn(self, to: Phase) -> Turn
        ensures { (block : ℕ) → turn_events block result
            ≡ direct_events block (phase_seen self) (phase_seen to) }
    {
        match self {
            Phase::Offline => Turn::ThroughOffline,
            Phase::GoingOnline { zone } => to.from_going_online(zone),
            Phase::Online { zone } => to.from_online(zone),
            Phase::GoingOffline { zone } => to.from_going_offline(zone),
        }
    }

    /// Returns how a block that goes online into a zone gets to this phase.
    fn from_going_online(self, from: Zone) -> Turn
        ensures { (block : ℕ) → turn_events block result
            ≡ direct_events block (phase_seen (Phase.GoingOnline from)) (phase_seen self) }
    {
        match self {
            Phase::GoingOnline { zone } => turn_within(from, zone, Turn::Stays),
            Phase::Online { zone } => turn_within(from, zone, Turn::ComesOnline),
            Phase::Offline | Phase::GoingOffline { .. } => Turn::ThroughOffline,
        }
    }

    /// Returns how a block that is online in a zone gets to this phase.
    fn from_online(self, from: Zone) -> Turn
        ensures { (block : ℕ) → turn_events block result
            ≡ direct_events block (phase_seen (Phase.Online from)) (phase_seen self) }
    {
        match self {
            Phase::Online { zone } => turn_within(from, zone, Turn::Stays),
            Phase::GoingOffline { zone } => turn_within(from, zone, Turn::BeginsOffline),
            Phase::Offline | Phase::GoingOnline { .. } => Turn::ThroughOffline,
        }
    }

    /// Returns how a block that goes offline from a zone gets to this phase.
    fn from_going_offline(self, from: Zone) -> Turn
        ensures { (block : ℕ) → turn_events block result
            ≡ direct_events block (phase_seen (Phase.GoingOffline from)) (phase_seen self) }
    {
        match self {
            Phase::Online { zone } => turn_within(from, zone, Turn::StaysOnline),
            Phase::GoingOffline { zone } => turn_within(from, zone, Turn::Stays),
            Phase::Offline | Phase::GoingOnline { .. } => Turn::ThroughOffline,
        }
    }

    /// Returns whether a block in this phase goes offline on its way to another phase.
    pub(crate) fn goes_offline(self, to: Phase) -> bool
        ensures { (block : ℕ) → result
            ≡ list_any leaves_offline (phase_events block (phase_seen self) (phase_seen to)) }
    {
        match self.turn(to) {
            Turn::ThroughOffline => !self.is_offline(),
            Turn::Stays | Turn::ComesOnline | Turn::BeginsOffline | Turn::StaysOnline => false,
        }
    }

    /// Returns whether a block in this phase is offline.
    fn is_offline(self) -> bool
        ensures { result ≡ not (goes_offline (phase_seen self)) }
    {
        match self {
            Phase::Offline => true,
            Phase::GoingOnline { .. } | Phase::Online { .. } | Phase::GoingOffline { .. } => false,
        }
    }

    /// Adds the events of a block that goes offline from this phase.
    fn push_to_offline(self, log: &mut Vec<LogEvent>, block: Block) -> Result<(), AllocError>
        ensures { OnOk result (log.new.items ≡ log.old.items ++ to_offline block (phase_seen self)) }
    {
        match self {
            Phase::Offline => Ok(()),
            Phase::GoingOnline { .. } => add(log, LogEvent::OnlineEnds { block, ok: false }),
            Phase::Online { .. } => {
                add(log, LogEvent::OfflineBegins { block })?;
                add(log, LogEvent::OfflineEnds { block, ok: true })
            }
            Phase::GoingOffline { .. } => add(log, LogEvent::OfflineEnds { block, ok: true }),
        }
    }

    /// Adds the events of an offline block that goes into this phase.
    fn push_from_offline(self, log: &mut Vec<LogEvent>, block: Block) -> Result<(), AllocError>
        ensures { OnOk result (log.new.items ≡ log.old.items ++ from_offline block (phase_seen self)) }
    {
        match self {
            Phase::Offline => Ok(()),
            Phase::GoingOnline { zone } => add(log, LogEvent::OnlineBegins { block, zone }),
            Phase::Online { zone } => {
                add(log, LogEvent::OnlineBegins { block, zone })?;
                add(log, LogEvent::OnlineEnds { block, ok: true })
            }
            Phase::GoingOffline { zone } => {
                add(log, LogEvent::OnlineBegins { block, zone })?;
                add(log, LogEvent::OnlineEnds { block, ok: true })?;
                add(log, LogEvent::OfflineBegins { block })
            }
        }
    }
}

/// Adds the events of a memory block that goes from one phase to another.
pub(crate) fn push_phase_events(
    log: &mut Vec<LogEvent>,
    block: Block,
    from: Phase,
    to: Phase,
) -> Result<(), AllocError>
    ensures { OnOk result (log.new.items
        ≡ log.old.items ++ phase_events block (phase_seen from) (phase_seen to)) }
{
    match from.turn(to) {
        Turn::Stays => Ok(()),
        Turn::ComesOnline => add(log, LogEvent::OnlineEnds { block, ok: true }),
        Turn::BeginsOffline => add(log, LogEvent::OfflineBegins { block }),
        Turn::StaysOnline => add(log, LogEvent::OfflineEnds { block, ok: false }),
        Turn::ThroughOffline => {
            from.push_to_offline(log, block)?;
            to.push_from_offline(log, block)
        }
    }
}

/// Returns `turn` if the zones are the same, otherwise the turn through offline.
fn turn_within(from: Zone, to: Zone, turn: Turn) -> Turn
    ensures { result ≡ (if same_zone from to then turn else Turn.ThroughOffline) }
{
    match from {
        Zone::Normal => match to {
            Zone::Normal => turn,
            Zone::Movable => Turn::ThroughOffline,
        },
        Zone::Movable => match to {
            Zone::Normal => Turn::ThroughOffline,
            Zone::Movable => turn,
        },
    }
}
