//! The kinds of faults that a log may have and still be lawful.
ghost use Rattle.std.specs.Prelude.{◌≡◌};
ghost use Rattle.hp_verdicts.specs.Reports.{allowed_none, allows, allows_law};

use hp_judge::{Fault, Law};

/// The kinds of faults that do not make a log unlawful.
///
/// A log may lack events of a known kind: Linux 6.1 hands out some pages without an event, so its
/// logs have frees of frames that are not in use.
#[derive(Clone, Copy, Drop)]
pub struct AllowedKinds {
    pub malformed: bool,
    pub once: bool,
    pub in_use: bool,
    pub present: bool,
    pub empty: bool,
    pub movable: bool,
    pub going_online: bool,
    pub going_offline: bool,
    pub online: bool,
    pub offline: bool,
}

impl AllowedKinds {
    /// Returns the empty set.
    pub fn none() -> AllowedKinds
        ensures { result ≡ allowed_none }
    {
        AllowedKinds {
            malformed: false,
            once: false,
            in_use: false,
            present: false,
            empty: false,
            movable: false,
            going_online: false,
            going_offline: false,
            online: false,
            offline: false,
        }
    }

    /// Returns whether the set has the fault's kind.
    pub fn allows(&self, fault: Fault) -> bool
        ensures { result ≡ allows self.now fault }
    {
        match fault {
            Fault::Malformed => self.malformed,
            Fault::Unlawful(violation) => self.allows_law(violation.law),
        }
    }

    /// Returns whether the set has the law's kind.
    fn allows_law(&self, law: Law) -> bool
        ensures { result ≡ allows_law self.now law }
    {
        match law {
            Law::Once => self.once,
            Law::InUse => self.in_use,
            Law::Present => self.present,
            Law::Empty => self.empty,
            Law::Movable => self.movable,
            Law::GoingOnline => self.going_online,
            Law::GoingOffline => self.going_offline,
            Law::Online => self.online,
            Law::Offline => self.offline,
        }
    }

    /// Adds the kind with this name, as `--allow` takes it. Returns false if there is no such kind.
    pub fn add(&mut self, name: &str) -> bool {
        match name {
            "malformed" => self.malformed = true,
            "once" => self.once = true,
            "in-use" => self.in_use = true,
            "present" => self.present = true,
            "empty" => self.empty = true,
            "movable" => self.movable = true,
            "going-online" => self.going_online = true,
            "going-offline" => self.going_offline = true,
            "online" => self.online = true,
            "offline" => self.offline = true,
            _ => return false,
        }
        true
    }
}
