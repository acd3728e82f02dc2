//! What watches a search, and may end it.
ghost use Rattle.std.specs.Prelude.{◌≡◌, false, true};

/// How many bytes a search in several threads may keep, unless its watch gives another number.
pub const KEPT_BYTES: u64 = 2_147_483_648;

/// Watches a search: gets its progress, and may end it.
pub trait Watch {
    /// What holds of a watch that has ended a search.
    ghost has_ended: { Self → Type 0 };

    /// Called with the number of schedules counted so far. A watch cannot take back that it has
    /// ended a search.
    fn counted(&mut self, schedules: u64)
        ensures { has_ended self.old → has_ended self.new };

    /// Returns how many bytes a search in several threads may keep, all threads together.
    fn memory(&self) -> u64;

    /// Called with the number of places that a search has reached so far, and with about how many
    /// bytes it keeps. Returns whether the search goes on.
    fn goes_on(&mut self, places: u64, bytes: u64) -> bool
        ensures { result ≡ false → has_ended self.new };
}

/// A watch that ignores the progress and never ends a search.
#[derive(Clone, Copy, PartialEq, Eq, Drop)]
pub struct Silent;

impl Watch for Silent {
    ghost has_ended = { λ _. ⊥ };

    fn counted(&mut self, _schedules: u64) {}

    fn memory(&self) -> u64 {
        KEPT_BYTES
    }

    fn goes_on(&mut self, _places: u64, _bytes: u64) -> bool {
        true
    }
}

/// How many places a search has reached, and whether its watch has ended it.
#[derive(Clone, Copy, Drop)]
pub struct Reach {
    /// The number of places.
    pub places: u64,
    /// True once the watch has ended the search.
    pub is_stopped: bool,
}

impl Reach {
    /// Counts a place, and asks the watch whether the search goes on there. Does neither once the
    /// watch has ended the search.
    pub fn ask<W: Watch>(&mut self, bytes: u64, watch: &mut W)
        ensures { (self.old.is_stopped ≡ true → W.has_ended watch.old)
            → self.new.is_stopped ≡ true → W.has_ended watch.new }
    {
        if self.is_stopped {
            return;
        }
        self.places = self.places.saturating_add(1);
        self.is_stopped = !watch.goes_on(self.places, bytes);
    }
}
