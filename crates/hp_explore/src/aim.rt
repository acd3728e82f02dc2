//! What a search looks for.
ghost use Rattle.std.specs.Prelude.{◌≡◌, ◌↔◌, ◌++◌, ◌∷◌, [], IfOk, IsTrue, List, false, length, true, ℕ};
ghost use Rattle.hp_schedules.specs.Schedules.{Setting, schedule_of};
ghost use Rattle.hp_explore.specs.Aims.{AimValue, IsLawful, IsNarrower, IsTried, MayBeSkipped};

use crate::path::Path;
use crate::schedule::Schedule;
use std::alloc::{AllocError, Global};

/// Decides what a search looks for, and where it goes.
///
/// The search goes from call to call. A place is the schedule of the calls made so far, and `path`
/// has their records. At each place, the search asks `may_try` before each call and `admits` after
/// it. It skips a place that is equivalent to a visited one; `push_marks` gives the aim's part of
/// the key by which it compares them.
///
/// After all continuations of a place, the search asks `is_met`. This may make the aim narrower:
/// for example, to seek only schedules that are better than this one.
///
/// If the aim is whole, the search covers every place. If it then finds nothing, the history also
/// has room for every call.
pub trait Aim {
    /// What the aim is in a setting: which schedules are sought, which ones the search may return,
    /// which places are admitted, which calls may be tried there, which numbers are marks, and
    /// whether the aim is whole.
    ghost shows: { Self → Setting → AimValue };

    /// What `is_met` may make of the aim.
    ghost becomes: { Self → Setting → Self → Type 0 };

    /// Returns whether the processor's next call may be tried. If not, no sought schedule makes it
    /// here, and the aim is not whole.
    fn may_try(&self, path: &Path<'_>, schedule: &Schedule, cpu: u32) -> bool
        requires schedule { schedule.now ≡ schedule_of path.now.news }
        requires admitted { (shows self.now path.now.setting).admits schedule.now }
        ensures tried { result ≡ true → (shows self.now path.now.setting).tries schedule.now cpu }
        ensures skipped { result ≡ false
            → MayBeSkipped (shows self.now path.now.setting) (schedule.now ++ cpu ∷ []) };

    /// Returns whether the search goes on from the place that the latest call led to. If not, no
    /// sought schedule continues from it, and the aim is not whole.
    fn admits(&self, path: &Path<'_>, schedule: &Schedule, processors: u32) -> bool
        requires processors { processors ≡ length path.now.setting.scripts }
        requires schedule { schedule.now ≡ schedule_of path.now.news }
        requires called { IsTried (shows self.now path.now.setting) schedule.now }
        ensures admitted { result ≡ true → (shows self.now path.now.setting).admits schedule.now }
        ensures skipped { result ≡ false
            → MayBeSkipped (shows self.now path.now.setting) schedule.now };

    /// Appends the place's marks. Returns whether each number fits 32 bits; if not, the contents of
    /// `numbers` are unspecified.
    fn push_marks(
        &self,
        path: &Path<'_>,
        schedule: &Schedule,
        processors: u32,
        numbers: &mut Vec<u32>,
    ) -> Result<bool, AllocError>
        requires processors { processors ≡ length path.now.setting.scripts }
        requires schedule { schedule.now ≡ schedule_of path.now.news }
        requires admitted { (shows self.now path.now.setting).admits schedule.now }
        ensures { IfOk result (λ fit. fit ≡ true → (marks : List ℕ)
            × (numbers.new.items ≡ numbers.old.items ++ marks)
            × (shows self.now path.now.setting).marks path.now.news marks) };

    /// Returns true if the search is to return this schedule, and false only if the aim does not
    /// seek it. May make the aim narrower first; the search then goes on by the new aim.
    fn is_met(
        &mut self,
        alloc: Global,
        path: &Path<'_>,
        schedule: &Schedule,
        processors: u32,
    ) -> Result<bool, AllocError>
        requires processors { processors ≡ length path.now.setting.scripts }
        requires schedule { schedule.now ≡ schedule_of path.now.news }
        requires admitted { (shows self.old path.now.setting).admits schedule.now }
        ensures becomes { becomes self.old path.now.setting self.new }
        ensures found { IfOk result (λ met.
            met ≡ true → (shows self.new path.now.setting).found schedule.now) }
        ensures missed { IfOk result (λ met.
            met ≡ false → (shows self.new path.now.setting).sought schedule.now → ⊥) };

    /// The aim may stay as it is.
    ghost stays: { (aim : Self) (g : Setting) → becomes aim g aim };

    /// Two changes of the aim, one after the other, are one change.
    ghost joined: { (aim : Self) (g : Setting) (mid new : Self) → becomes aim g mid → becomes mid g new
        → becomes aim g new };

    /// The aim becomes no wider.
    ghost narrower: { (aim : Self) (g : Setting) (new : Self) → becomes aim g new
        → IsNarrower (shows aim g) (shows new g) };

    /// Sought schedules can be played. Equally many calls lead to places with the same marks. From
    /// admitted places with the same key, the same continuations are sought.
    ghost lawful: { (aim : Self) (g : Setting) → IsLawful g (shows aim g) };
}
