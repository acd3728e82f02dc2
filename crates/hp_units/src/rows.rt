//! Kinds of pageblocks, rows of memory blocks, and classes of free blocks.
ghost use Rattle.std.specs.Prelude.{◌≡◌, ◌<◌, None, Some};
ghost use Rattle.hp_units.specs.FreeAreas.{class_of_kind, other_mobility};
ghost use Rattle.hp_units.specs.Memory.{class_index, class_numbered, class_of_pool, isolated_class, offline_row, plain_kind, pool_index, pool_of, usable_class, zone_of_pool};
ghost use Rattle.hp_units.specs.Rows.{claimed_row, is_absent, is_claimed, is_claimed_by, is_going, is_off, is_offline, is_online, state_number, zone_number};
ghost use Rattle.hp_units.specs.declared.rows.State.TheVariants.{Online as OnlineState};

use crate::Serial;

/// The zone of an online memory block (Linux guide, Memory Hot(Un)Plug; Gorman, chapter 2).
#[derive(Clone, Copy, PartialEq, Eq, Drop)]
pub enum Zone {
    /// For the kernel and for owners' pages.
    Normal,
    /// For owners' pages only.
    Movable,
}

/// What a pageblock's free blocks are for, as long as they are not stolen (Linux: migrate type).
#[derive(Clone, Copy, PartialEq, Eq, Drop)]
pub enum Mobility {
    /// For kernel blocks.
    Unmovable,
    /// For owners' pages.
    Movable,
}

impl Mobility {
    /// Returns the mobility to steal from when this one has no free block (Gorman, chapter 6:
    /// fallback).
    pub fn other(self) -> Mobility
        ensures { result ≡ other_mobility self }
    {
        match self {
            Mobility::Unmovable => Mobility::Movable,
            Mobility::Movable => Mobility::Unmovable,
        }
    }
}

/// A pageblock's mobility, and whether it is isolated.
#[derive(Clone, Copy, PartialEq, Eq, Drop)]
pub struct Kind {
    /// What the pageblock is used for. It changes only while the whole pageblock is one free block.
    pub mobility: Mobility,
    /// True if nothing is taken from the pageblock's free blocks (Linux: MIGRATE_ISOLATE). Its
    /// frames on processors' lists can still be handed out.
    pub isolated: bool,
}

impl Kind {
    /// Returns the kind of a pageblock in an offline memory block: movable and not isolated.
    pub fn plain() -> Kind
        ensures { result ≡ plain_kind }
    {
        Kind {
            mobility: Mobility::Movable,
            isolated: false,
        }
    }
}

/// The class of a free block: its zone and mobility, or that it is isolated. Each class has free
/// lists of its own.
#[derive(Clone, Copy, PartialEq, Eq, Drop)]
pub enum Class {
    /// Zone Normal, mobility Unmovable.
    Nu,
    /// Zone Normal, mobility Movable.
    Nm,
    /// Zone Movable.
    Mm,
    /// Isolated, zone Normal.
    IsoN,
    /// Isolated, zone Movable.
    IsoM,
}

impl Class {
    /// Returns the class's index among the lists of an order, 0 to 4.
    pub fn index(self) -> u32
        ensures is { result ≡ class_index self }
        ensures below { result < 5 }
    {
        match self {
            Class::Nu => 0,
            Class::Nm => 1,
            Class::Mm => 2,
            Class::IsoN => 3,
            Class::IsoM => 4,
        }
    }

    /// Returns the class with this index, 0 to 4. Any greater index gives the last class.
    pub fn numbered(number: u32) -> Class
        ensures { result ≡ class_numbered number }
    {
        match number {
            0 => Class::Nu,
            1 => Class::Nm,
            2 => Class::Mm,
            3 => Class::IsoN,
            _ => Class::IsoM,
        }
    }

    /// Returns the class of a zone's free blocks with this mobility that are not isolated.
    pub fn usable(zone: Zone, mobility: Mobility) -> Class
        ensures { result ≡ usable_class zone mobility }
    {
        match (zone, mobility) {
            (Zone::Normal, Mobility::Unmovable) => Class::Nu,
            (Zone::Normal, Mobility::Movable) => Class::Nm,
            (Zone::Movable, _) => Class::Mm,
        }
    }

    /// Returns the class of a zone's isolated free blocks.
    pub fn isolated(zone: Zone) -> Class
        ensures { result ≡ isolated_class zone }
    {
        match zone {
            Zone::Normal => Class::IsoN,
            Zone::Movable => Class::IsoM,
        }
    }

    /// Returns the class of a zone's free blocks in a pageblock of this kind.
    pub fn of_kind(zone: Zone, kind: Kind) -> Class
        ensures { result ≡ class_of_kind zone kind }
    {
        if kind.isolated {
            Class::isolated(zone)
        } else {
            Class::usable(zone, kind.mobility)
        }
    }
}

/// The classes of single frames that each processor keeps lists of (Gorman, chapter 6).
#[derive(Clone, Copy, PartialEq, Eq, Drop)]
pub enum Pool {
    /// Zone Normal, mobility Unmovable.
    Nu,
    /// Zone Normal, mobility Movable.
    Nm,
    /// Zone Movable.
    Mm,
}

impl Pool {
    /// Returns the pool's index among a processor's lists, 0 to 2.
    pub fn index(self) -> u32
        ensures is { result ≡ pool_index self }
        ensures below { result < 3 }
    {
        match self {
            Pool::Nu => 0,
            Pool::Nm => 1,
            Pool::Mm => 2,
        }
    }

    /// Returns the pool of single frames of a zone and a mobility.
    pub fn of_mobility(zone: Zone, mobility: Mobility) -> Pool
        ensures { result ≡ pool_of zone mobility }
    {
        match (zone, mobility) {
            (Zone::Normal, Mobility::Unmovable) => Pool::Nu,
            (Zone::Normal, Mobility::Movable) => Pool::Nm,
            (Zone::Movable, _) => Pool::Mm,
        }
    }

    /// Returns the class that the pool's frames are taken from and given back to.
    pub fn class(self) -> Class
        ensures { result ≡ class_of_pool self }
    {
        match self {
            Pool::Nu => Class::Nu,
            Pool::Nm => Class::Nm,
            Pool::Mm => Class::Mm,
        }
    }

    /// Returns the zone of the pool's frames.
    pub fn zone(self) -> Zone
        ensures { result ≡ zone_of_pool self }
    {
        match self {
            Pool::Nu | Pool::Nm => Zone::Normal,
            Pool::Mm => Zone::Movable,
        }
    }
}

/// The state of a memory block (Linux guide, Memory Hot(Un)Plug).
#[derive(Clone, Copy, PartialEq, Eq, Drop)]
pub enum State {
    /// There, but not in use.
    Offline,
    /// In use.
    Online,
    /// Being taken offline by an operation.
    Going,
    /// Not there.
    Absent,
}

impl State {
    /// Returns the state's number, 0 to 3.
    pub fn number(self) -> u8
        ensures { result ≡ state_number self }
    {
        match self {
            State::Offline => 0,
            State::Online => 1,
            State::Going => 2,
            State::Absent => 3,
        }
    }
}

/// What an operation makes of a memory block.
#[derive(Clone, Copy, PartialEq, Eq, Drop)]
pub enum Wish {
    /// It goes offline.
    Off,
    /// It goes online in zone Normal.
    Normal,
    /// It goes online in zone Movable.
    Movable,
}

impl Wish {
    /// Returns whether the block is to go offline.
    pub fn is_off(self) -> bool
        ensures { result ≡ is_off self }
    {
        matches!(self, Wish::Off)
    }
}

/// An operation's hold on a memory block.
#[derive(Clone, Copy, PartialEq, Eq, Drop)]
pub struct Claim {
    /// The operation's number.
    pub op: Serial,
    /// What the operation makes of the block.
    pub wish: Wish,
}

/// A memory block's row. A block that is online or going offline has a zone; a block that an
/// operation holds has a claim.
#[derive(Clone, Copy, PartialEq, Eq, Drop)]
pub struct Row {
    /// Whether the block is there and in use.
    pub state: State,
    /// The block's zone, unless the block is offline or absent.
    pub zone: Option<Zone>,
    /// The claim of the operation that holds the block, if any.
    pub claim: Option<Claim>,
}

impl Row {
    /// Creates a row with neither a zone nor a claim.
    pub fn bare(state: State) -> Row
        ensures { result ≡ record offline_row { state = state } }
    {
        Row {
            state,
            zone: None,
            claim: None,
        }
    }

    /// Creates the row of a block that is online in a zone, with no claim.
    pub fn online(zone: Zone) -> Row
        ensures { result ≡ record { state = OnlineState; zone = Some zone; claim = None } }
    {
        Row {
            state: State::Online,
            zone: Some(zone),
            claim: None,
        }
    }

    /// Returns the row after an operation claims its block. With the wish Off, the block is then
    /// going offline (Linux, memory hotplug: offlining).
    pub fn claimed(self, op: Serial, wish: Wish) -> Row
        ensures { result ≡ claimed_row self op wish }
    {
        let state = match wish {
            Wish::Off => State::Going,
            Wish::Normal | Wish::Movable => self.state,
        };
        Row {
            state,
            zone: self.zone,
            claim: Some(Claim { op, wish }),
        }
    }

    /// Returns the row without its claim.
    pub fn unclaimed(self) -> Row
        ensures { result ≡ record self { claim = None } }
    {
        Row {
            state: self.state,
            zone: self.zone,
            claim: None,
        }
    }

    /// Returns whether an operation holds the block.
    pub fn is_claimed(self) -> bool
        ensures { result ≡ is_claimed self }
    {
        self.claim.is_some()
    }

    /// Returns whether the operation `op` holds the block.
    pub fn is_claimed_by(self, op: Serial) -> bool
        ensures { result ≡ is_claimed_by op self }
    {
        match self.claim {
            Some(claim) => claim.op == op,
            None => false,
        }
    }

    /// Returns whether the block is in use (Linux, memory hotplug: state online).
    pub fn is_online(self) -> bool
        ensures { result ≡ is_online self }
    {
        matches!(self.state, State::Online)
    }

    /// Returns whether the block is going offline (Linux, memory hotplug: state going-offline).
    pub fn is_going(self) -> bool
        ensures { result ≡ is_going self }
    {
        matches!(self.state, State::Going)
    }

    /// Returns whether the block is there but not in use (Linux, memory hotplug: state offline).
    pub fn is_offline(self) -> bool
        ensures { result ≡ is_offline self }
    {
        matches!(self.state, State::Offline)
    }

    /// Returns whether the block is not there.
    pub fn is_absent(self) -> bool
        ensures { result ≡ is_absent self }
    {
        matches!(self.state, State::Absent)
    }

    /// Returns the zone's number, 1 or 2, or 0 without a zone.
    pub fn zone_number(self) -> u8
        ensures { result ≡ zone_number self.zone }
    {
        match self.zone {
            None => 0,
            Some(Zone::Normal) => 1,
            Some(Zone::Movable) => 2,
        }
    }
}

/// What a memory block is at boot.
#[derive(Clone, Copy, PartialEq, Eq, Drop)]
pub enum Boot {
    /// Offline.
    Offline,
    /// Online in zone Normal.
    Normal,
    /// Online in zone Movable.
    Movable,
    /// Absent.
    Absent,
}

/// What an added memory block becomes at once (Linux guide: auto_online_blocks).
#[derive(Clone, Copy, PartialEq, Eq, Drop)]
pub enum Auto {
    /// Offline.
    Offline,
    /// Online in zone Normal.
    Online,
    /// Online in zone Normal, the kernel's zone (Linux: online_kernel).
    OnlineKernel,
    /// Online in zone Movable.
    OnlineMovable,
}
