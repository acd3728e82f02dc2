//! The marks of a column: what it shows of a memory block besides its frames in use.

use hp_judge::Phase;

/// What happened to a memory block in a column's events.
#[derive(Clone, Copy, Drop)]
pub struct BlockSigns {
    /// Whether an event left the block going online, going offline, or offline.
    pub going_online: bool,
    pub going_offline: bool,
    pub offline: bool,
    /// Whether an online or an offline ended, and how.
    pub online_ok: bool,
    pub online_failed: bool,
    pub offline_ok: bool,
    pub offline_failed: bool,
}

impl BlockSigns {
    /// Returns no marks.
    pub fn none() -> BlockSigns {
        BlockSigns {
            going_online: false,
            going_offline: false,
            offline: false,
            online_ok: false,
            online_failed: false,
            offline_ok: false,
            offline_failed: false,
        }
    }

    /// Returns the mark of a phase. A block that is online, or whose phase is unknown, has none.
    pub fn of_phase(phase: &Phase) -> BlockSigns {
        let mut marks = BlockSigns::none();
        match phase {
            Phase::GoingOnline { .. } => marks.going_online = true,
            Phase::GoingOffline { .. } => marks.going_offline = true,
            Phase::Offline { .. } => marks.offline = true,
            _ => {}
        }
        marks
    }

    /// Returns the mark of an online that ended.
    pub fn of_online(ok: bool) -> BlockSigns {
        let mut marks = BlockSigns::none();
        marks.online_ok = ok;
        marks.online_failed = !ok;
        marks
    }

    /// Returns the mark of an offline that ended.
    pub fn of_offline(ok: bool) -> BlockSigns {
        let mut marks = BlockSigns::none();
        marks.offline_ok = ok;
        marks.offline_failed = !ok;
        marks
    }

    /// Returns the marks of both.
    pub fn with(self, other: BlockSigns) -> BlockSigns {
        BlockSigns {
            going_online: self.going_online || other.going_online,
            going_offline: self.going_offline || other.going_offline,
            offline: self.offline || other.offline,
            online_ok: self.online_ok || other.online_ok,
            online_failed: self.online_failed || other.online_failed,
            offline_ok: self.offline_ok || other.offline_ok,
            offline_failed: self.offline_failed || other.offline_failed,
        }
    }
}
