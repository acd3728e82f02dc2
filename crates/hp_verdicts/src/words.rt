//! The names and texts of faults.

use hp_judge::{Fault, Law};

/// Returns the name of a fault's kind, as `--allow` takes it.
pub(crate) fn kind_name(fault: Fault) -> &'static str {
    match fault {
        Fault::Malformed => "malformed",
        Fault::Unlawful(violation) => law_name(violation.law),
    }
}

/// Returns the name of a law.
fn law_name(law: Law) -> &'static str {
    match law {
        Law::Once => "once",
        Law::InUse => "in-use",
        Law::Present => "present",
        Law::Empty => "empty",
        Law::Movable => "movable",
        Law::GoingOnline => "going-online",
        Law::GoingOffline => "going-offline",
        Law::Online => "online",
        Law::Offline => "offline",
    }
}

/// Returns whether a law is about a frame, rather than a memory block.
pub(crate) fn is_of_frame(law: Law) -> bool {
    match law {
        Law::Once | Law::InUse | Law::Present | Law::Empty | Law::Movable => true,
        Law::GoingOnline | Law::GoingOffline | Law::Online | Law::Offline => false,
    }
}

/// Returns the text of a broken law. In a report it is between the frame or memory block and the
/// line of the earlier event.
pub(crate) fn broken(law: Law) -> &'static str {
    match law {
        Law::Once => "is handed out, and has been in use since",
        Law::InUse => "comes back, and has been free since",
        Law::Present => "is handed out from a block that has been offline since",
        Law::Empty => "is left behind in a block that goes offline, in use since",
        Law::Movable => "is handed out as unmovable, and has been in zone Movable since",
        Law::GoingOnline => "has another event before the end of the online that began at",
        Law::GoingOffline => "has another event before the end of the offline that began at",
        Law::Online => "can only start to go offline, since it has been online since",
        Law::Offline => "can only start to go online, since it has been offline since",
    }
}

/// The text of a malformed event.
pub(crate) const MALFORMED: &str = "no aligned piece of one memory block, a block or a frame \
     outside the machine, or a move to the same frame";
