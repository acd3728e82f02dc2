//! Creates, copies and compares many lists of frames.
ghost use Rattle.std.specs.Prelude.{◌≡◌, ◌≢◌, [], replicate, IfOk, MatchBool};

use super::FrameList;
use std::alloc::{AllocError, Global};

/// Returns `count` empty lists.
pub(crate) fn empty_lists(alloc: Global, count: usize) -> Result<Vec<FrameList>, AllocError>
    ensures { IfOk result (λ lists. lists.items ≡ replicate count []) }
{
    let mut lists = Vec::new(alloc);
    for _number in 0..count {
        lists.push(FrameList::new(alloc))?;
    }
    Ok(lists)
}

/// Returns copies of the lists.
pub(crate) fn copy_of_lists(
    alloc: Global,
    lists: &[FrameList],
) -> Result<Vec<FrameList>, AllocError>
    ensures { IfOk result (λ copy. copy.items ≡ lists.now) }
{
    let mut copy = Vec::new(alloc);
    for list in lists {
        copy.push(list.copy(alloc)?)?;
    }
    Ok(copy)
}

/// Returns whether both have the same lists.
pub(crate) fn same_lists(lists: &[FrameList], others: &[FrameList]) -> bool
    ensures { MatchBool result (lists.now ≡ others.now) (lists.now ≢ others.now) }
{
    lists == others
}
