//! Whether counts fit a limit.
ghost use Rattle.std.specs.Prelude.{◌≡◌, ◌↔◌, ◌+◌, ◌<◌, ◌≤◌, IfNone, IfSome, IsTrue, map, sum_by};
ghost use Rattle.hp_parts.specs.Adding.{counted_by};

use hp_schedules::Ending;

/// Returns whether all lists together count at most `room` schedules.
pub(crate) fn fit_in(lists: &[Vec<Ending>], room: u64) -> bool
    ensures { IsTrue result ↔ (counted_by (map (λ ends. ends.items) lists.now) ≤ room) }
{
    let mut left = room;
    for ends in lists {
        match left_after(ends.as_slice(), left) {
            Some(less) => left = less,
            None => return false,
        }
    }
    true
}

/// Returns how much of `room` is left after the schedules that these ends count, or `None` if they
/// count more than `room`.
pub(crate) fn left_after(ends: &[Ending], room: u64) -> Option<u64>
    ensures some { IfSome result (λ left. sum_by (λ e. e.count) ends.now + left ≡ room) }
    ensures none { IfNone result (room < sum_by (λ e. e.count) ends.now) }
{
    let mut left = room;
    for end in ends {
        match left.checked_sub(end.count) {
            Some(less) => left = less,
            None => return None,
        }
    }
    Some(left)
}
