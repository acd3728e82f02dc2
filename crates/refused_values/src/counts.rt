//! Makes free areas and processors' lists of the smallest and of the largest shape.
//! refusals/check_refusals.py counts the allocations after the line that reports that all is set
//! up.
use crate::trouble::{Case, Outcome};
use crate::values::layout_with;
use hp_buddy::{Buddy, Cpus};

/// Makes the free areas of a layout with this greatest order.
pub fn free_areas(case: &Case<'_>, order: u64) -> Outcome {
    let layout = layout_with(case.alloc, order, 2, 10)?;
    case.say_set_up();
    drop(Buddy::new(case.alloc, &layout)?);
    Ok(())
}

/// Makes the lists of this many processors.
pub fn lists(case: &Case<'_>, cpus: u64) -> Outcome {
    let layout = layout_with(case.alloc, 2, cpus, 10)?;
    case.say_set_up();
    drop(Cpus::new(case.alloc, &layout)?);
    Ok(())
}
