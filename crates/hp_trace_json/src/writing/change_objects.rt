//! A change alone, without a row.
ghost use Rattle.std.specs.Prelude.{IfOk};
ghost use Rattle.hp_trace_json.specs.ChangeObjects.{IsChangeObject};

use crate::change::StateChange;
use crate::writing::changes::write_change;
use hp_units::Text;
use indexmap::IndexSet;
use json::Writer;
use std::alloc::{AllocError, Global};

/// Returns an object with the change at the key `change`, as a row has it. The object is empty if
/// nothing changed.
pub fn change_object(
    alloc: Global,
    names: &IndexSet<Text>,
    change: &StateChange,
) -> Result<Vec<u8>, AllocError>
    ensures { IfOk result (λ text. IsChangeObject change.now text.items) }
{
    let mut out = Writer::new(Vec::new(alloc));
    out.begin_object()?;
    write_change(&mut out, alloc, names, change)?;
    out.end_object()?;
    Ok(out.into_inner())
}
