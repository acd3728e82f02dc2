//! The trail: how many schedules were added to which end, in order.
ghost use Rattle.std.specs.Prelude.{◌≡◌, ◌+◌, ◌<◌, ◌≤◌, ◌^◌, IfSome, length, sum_by};
ghost use Rattle.hp_schedules.specs.Trails.{IsGathered, IsShareOf, IsSummedUp, left_over};

/// An end, and a number of schedules that lead to it, such as those that continue from one place.
#[derive(Clone, Copy, Drop)]
pub struct Share {
    /// The end's index in the list of ends.
    pub end: usize,
    /// The number of these schedules.
    pub count: u64,
}

/// The shares that were added to the ends, oldest first.
///
/// `places` has for each end the index at which `gather` last stored a sum of that end, or 0 if
/// it has stored none. This is only a hint: by now that sum may be gone, or another share may be
/// at that index.
#[derive(Drop)]
pub(crate) struct Trail {
    pub(crate) shares: Vec<Share>,
    pub(crate) places: Vec<usize>,
}

impl Trail {
    /// Replaces the shares from index `start` on by their sums, one for each end.
    pub(crate) fn gather(&mut self, start: usize)
        requires within { start ≤ length self.old.shares.items }
        requires fits { sum_by (λ s. s.count) self.old.shares.items < 2 ^ 64 }
        ensures { IsGathered start self.old.shares.items self.new.shares.items }
    {
        let mut end = start;
        for at in start..self.shares.len() {
            end = self.sum_up(start, end, at);
        }
        self.shares.truncate(end);
    }

    /// Adds the share at index `at` to the sums, which are at the indexes from `start` to before
    /// `end`, and returns the new `end`.
    fn sum_up(&mut self, start: usize, end: usize, at: usize) -> usize
        requires start { start ≤ end }
        requires end { end ≤ at }
        requires at { at < length self.old.shares.items }
        requires fits { left_over (λ s. s.count) end at self.old.shares.items < 2 ^ 64 }
        ensures { IsSummedUp start end at self.old.shares.items result self.new.shares.items }
    {
        let share = self.shares[at];
        if let Some(place) = self.place_of(share.end, start, end) {
            self.shares[place].count += share.count;
            return end;
        }
        self.shares[end] = share;
        if share.end < self.places.len() {
            self.places[share.end] = end;
        }
        end + 1
    }

    /// Returns the index of the sum for the end with index `end`. Returns `None` if the end's entry
    /// in `places` is not the index of such a sum. The sums are at the indexes from `start` to
    /// before `many`.
    fn place_of(&self, end: usize, start: usize, many: usize) -> Option<usize>
        requires { many ≤ length self.now.shares.items }
        ensures from { IfSome result (λ place. start ≤ place) }
        ensures below { IfSome result (λ place. place < many) }
        ensures of { IfSome result (IsShareOf self.now.shares.items end) }
    {
        let Some(place) = self.places.get(end).copied() else {
            return None;
        };
        if place < start || place >= many {
            return None;
        }
        if self.shares[place].end != end {
            return None;
        }
        Some(place)
    }
}
