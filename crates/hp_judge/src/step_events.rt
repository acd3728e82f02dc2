//! Adds events to a log.
ghost use Rattle.std.specs.Prelude.{◌≡◌, ◌++◌, ◌∷◌, [], OnOk};

use crate::LogEvent;
use std::alloc::AllocError;

/// Adds an event.
pub(crate) fn add(log: &mut Vec<LogEvent>, event: LogEvent) -> Result<(), AllocError>
    ensures { OnOk result (log.new.items ≡ log.old.items ++ event ∷ []) }
{
    log.push(event)?;
    Ok(())
}
