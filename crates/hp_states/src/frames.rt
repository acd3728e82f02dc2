//! What a walk stores for each place on its current path.
ghost use Rattle.std.specs.Prelude.{◌≡◌, ◌+◌, ◌-◌, ◌^◌, ◌<◌, length, true, false};

use hp_schedules::Tally;

/// One level of the walk's stack: a place on the current path.
#[derive(Clone, Copy, Drop)]
pub struct Level {
    /// The processor whose call is tried next.
    pub next: u32,
    /// True while no processor before `next` had a call to make.
    pub is_over: bool,
    /// The length of the tally's trail when the walk reached the place.
    pub start: usize,
}

/// How a place just reached was treated.
#[derive(Clone, Copy, Drop)]
pub enum Treatment {
    /// The place's schedules are counted, or belong to another part.
    Counted,
    /// The place is to be walked.
    Open(Level),
}

impl Level {
    /// Creates the level of a place just reached, with all processors still to be tried.
    pub(crate) fn new(tally: &Tally) -> Level
        ensures { result ≡ record { next = 0; is_over = true; start = length tally.now.trail } }
    {
        Level {
            next: 0,
            is_over: true,
            start: tally.trail_len(),
        }
    }

    /// Moves on past a processor that had no call to make.
    pub fn passed(self) -> Level
        requires { self.next < 2 ^ 32 - 1 }
        ensures { result ≡ record self { next = self.next + 1 } }
    {
        Level {
            next: self.next + 1,
            is_over: self.is_over,
            start: self.start,
        }
    }

    /// Moves on past a processor that made a call.
    pub fn led_on(self) -> Level
        requires { self.next < 2 ^ 32 - 1 }
        ensures { result ≡ record self { next = self.next + 1; is_over = false } }
    {
        Level {
            next: self.next + 1,
            is_over: false,
            start: self.start,
        }
    }
}
