//! Checks that volumes are all that a shared machine sealed.
ghost use Rattle.std.specs.Prelude.{IfNone, IfSome};
ghost use Rattle.hp_shared.specs.Volumes.{IsWrongAt, ReachSealed};

use hp_history::Volume;

/// Returns the index of the first volume whose `before` is not the number of records in the volumes
/// before it. If there is none, but together the volumes do not hold `sealed` records, returns the
/// number of volumes. Returns `None` if they do.
pub fn wrong_volume(volumes: &Vec<Volume>, sealed: u64) -> Option<u64>
    ensures wrong { IfSome result (λ at. IsWrongAt volumes.now.items sealed at) }
    ensures right { IfNone result (ReachSealed volumes.now.items sealed) }
{
    let mut count: u128 = 0;
    for at in 0..volumes.len() {
        let volume = &volumes[at];
        if volume.before as u128 != count {
            return Some(at as u64);
        }
        count += volume.records.as_slice().len() as u128;
    }
    if sealed as u128 != count {
        return Some(volumes.len() as u64);
    }
    None
}
