//! The text of ends, in each form.
ghost use Rattle.std.specs.Prelude.{◌≡◌, ◌++◌, IfErr, IfNone, IfOk, IfSome, OnOk, string_bytes, Some};
ghost use Rattle.hp_explore.specs.Faults.{FillsAlong, IsCause};
ghost use Rattle.hp_explore.specs.declared.exploring.ExploreFault.TheVariants.{HistoryFull};
ghost use Rattle.hp_search.specs.Ends.{AreEndsTold, HasNoEnd, IsEndTold, IsNumbered, IsTold};
ghost use Rattle.hp_search.specs.Faults.{FillsAlongSome};
ghost use Rattle.hp_search.specs.Prepared.{before_of, names_of, setting_of};
ghost use Rattle.hp_search.specs.Texts.{end_keys, exploration_text, numbered_text, objects_text, replay_text};

use crate::found::SearchText;
use crate::prepared::Prepared;
use crate::{EndsForm, write_counts, write_end, write_keys, write_more, write_summary};
use hp_explore::{Exploration, ExploreFault};
use hp_schedules::{Ending, HowMany, total_of};
use hp_units::Cpu;
use std::alloc::Global;

impl Prepared {
    /// Returns the text of an exploration of the scripts, as `explore_text` of hp_parts returns it.
    ///
    /// Replays an end's first interleaving if its calls are in the text. The error is `HistoryFull`
    /// if the history has no room for all calls of such an interleaving, or `OutOfMemory`.
    pub fn exploration_told(
        &self,
        alloc: Global,
        explored: &Exploration,
        form: EndsForm,
    ) -> Result<SearchText, ExploreFault>
        ensures ok { IfOk result
            (λ f. IsTold form (names_of self.now) (before_of self.now) (setting_of self.now) explored.now
            (string_bytes f.text) f.is_found) }
        ensures err { IfErr result (IsCause (setting_of self.now)) }
        ensures along { IfErr result (λ fault. fault ≡ HistoryFull
            → FillsAlongSome (setting_of self.now) explored.now.ends.items) }
    {
        let more = self.more_than(alloc, explored.is_whole)?;
        self.ends_told(alloc, &explored.ends, more, form)
    }

    /// Returns the text of `ends` in `form`, as `explore_text` of hp_parts returns it. `more` is
    /// `None` if all interleavings were counted, and otherwise what is known of their number.
    ///
    /// Replays an end's first interleaving if its calls are in the text; a summary has none. The
    /// error is `HistoryFull` if the history has no room for all calls of such an interleaving, or
    /// `OutOfMemory`.
    pub fn ends_told(
        &self,
        alloc: Global,
        ends: &[Ending],
        more: Option<HowMany>,
        form: EndsForm,
    ) -> Result<SearchText, ExploreFault>
        ensures ok { IfOk result
            (λ f. AreEndsTold form (names_of self.now) (before_of self.now) (setting_of self.now)
            ends.now more (string_bytes f.text) f.is_found) }
        ensures err { IfErr result (IsCause (setting_of self.now)) }
        ensures along { IfErr result (λ fault. fault ≡ HistoryFull
            → FillsAlongSome (setting_of self.now) ends.now) }
    {
        match form {
            EndsForm::Words => {
                let mut text = String::new(alloc);
                self.write_words(&mut text, alloc, ends, more)?;
                Ok(SearchText {
                    text,
                    is_found: more.is_none(),
                })
            }
            EndsForm::Objects => {
                let mut text = String::new(alloc);
                self.write_objects(&mut text, alloc, ends)?;
                write_more(&mut text, total_of(ends), more)?;
                Ok(SearchText {
                    text,
                    is_found: more.is_none(),
                })
            }
            EndsForm::Summary => {
                let mut text = String::new(alloc);
                write_summary(&mut text, alloc, ends, more)?;
                Ok(SearchText {
                    text,
                    is_found: more.is_none(),
                })
            }
            EndsForm::Scenario(number) => self.end_told(alloc, ends, number),
        }
    }

    /// Writes how many interleavings and ends there are, then each end, as words.
    fn write_words(
        &self,
        out: &mut String,
        alloc: Global,
        ends: &[Ending],
        more: Option<HowMany>,
    ) -> Result<(), ExploreFault>
        ensures ok { OnOk result (string_bytes out.new ≡ string_bytes out.old
            ++ exploration_text (names_of self.now) (setting_of self.now) ends.now more) }
        ensures err { IfErr result (IsCause (setting_of self.now)) }
        ensures along { IfErr result (λ fault. fault ≡ HistoryFull
            → FillsAlongSome (setting_of self.now) ends.now) }
    {
        write_counts(out, ends, more)?;
        for index in 0..ends.len() {
            self.write_numbered(out, alloc, index + 1, &ends[index])?;
        }
        Ok(())
    }

    /// Writes end `number` as words. Replays its first interleaving, and fails like `played`.
    fn write_numbered(
        &self,
        out: &mut String,
        alloc: Global,
        number: usize,
        end: &Ending,
    ) -> Result<(), ExploreFault>
        ensures ok { OnOk result (string_bytes out.new ≡ string_bytes out.old
            ++ numbered_text (names_of self.now) (setting_of self.now) number (Some end.now)) }
        ensures err { IfErr result (IsCause (setting_of self.now)) }
        ensures along { IfErr result (λ fault. fault ≡ HistoryFull
            → FillsAlong (setting_of self.now) end.now.first.items) }
    {
        let played = self.played(alloc, end.first.as_slice())?;
        let calls = self.calls_of(&played);
        let layout = self.start.machine.layout();
        write_end(out, &self.scenario.names, layout, number, end, calls)?;
        Ok(())
    }

    /// Writes one JSON object per end, in order.
    fn write_objects(
        &self,
        out: &mut String,
        alloc: Global,
        ends: &[Ending],
    ) -> Result<(), ExploreFault>
        ensures ok { OnOk result (string_bytes out.new ≡ string_bytes out.old
            ++ objects_text (names_of self.now) (setting_of self.now) ends.now) }
        ensures err { IfErr result (IsCause (setting_of self.now)) }
        ensures along { IfErr result (λ fault. fault ≡ HistoryFull
            → FillsAlongSome (setting_of self.now) ends.now) }
    {
        for index in 0..ends.len() {
            self.write_end_keys(out, alloc, index + 1, &ends[index])?;
            out.push_str("}\n")?;
        }
        Ok(())
    }

    /// Writes the JSON object of an end without its closing bracket. The object has the end's
    /// number, how many interleavings lead to it, the processors' replies, the states of the memory
    /// blocks, and the calls of the first interleaving. Replays that interleaving, and fails like
    /// `played`.
    pub fn write_end_keys(
        &self,
        out: &mut String,
        alloc: Global,
        number: usize,
        end: &Ending,
    ) -> Result<(), ExploreFault>
        ensures ok { OnOk result (string_bytes out.new
            ≡ string_bytes out.old ++ end_keys (names_of self.now) (setting_of self.now) number end.now) }
        ensures err { IfErr result (IsCause (setting_of self.now)) }
        ensures along { IfErr result (λ fault. fault ≡ HistoryFull
            → FillsAlong (setting_of self.now) end.now.first.items) }
    {
        let played = self.played(alloc, end.first.as_slice())?;
        let calls = self.calls_of(&played);
        write_keys(out, &self.scenario.names, number, end, calls)?;
        Ok(())
    }

    /// Returns a schedule of the scripts as a scenario, or an empty text if it cannot be played.
    /// Replays the schedule, and fails like `played`.
    fn replay_told(&self, alloc: Global, schedule: &[Cpu]) -> Result<String, ExploreFault>
        ensures ok { IfOk result (λ text. string_bytes text
            ≡ replay_text (names_of self.now) (before_of self.now) (setting_of self.now) schedule.now) }
        ensures err { IfErr result (IsCause (setting_of self.now)) }
        ensures along { IfErr result (λ fault. fault ≡ HistoryFull
            → FillsAlong (setting_of self.now) schedule.now) }
    {
        let played = self.played(alloc, schedule)?;
        let text = self.replay_of(alloc, self.calls_of(&played))?;
        Ok(text)
    }

    /// Returns the first interleaving of end `number` as a scenario, or an empty text if no end has
    /// this number.
    fn end_told(
        &self,
        alloc: Global,
        ends: &[Ending],
        number: u64,
    ) -> Result<SearchText, ExploreFault>
        ensures ok { IfOk result
            (λ f. IsEndTold (names_of self.now) (before_of self.now) (setting_of self.now) ends.now number
            (string_bytes f.text) f.is_found) }
        ensures err { IfErr result (IsCause (setting_of self.now)) }
        ensures along { IfErr result (λ fault. fault ≡ HistoryFull
            → FillsAlongSome (setting_of self.now) ends.now) }
    {
        match numbered_end(ends, number) {
            Some(end) => {
                let schedule = end.first.as_slice();
                let text = self.replay_told(alloc, schedule)?;
                Ok(SearchText {
                    text,
                    is_found: true,
                })
            }
            None => Ok(SearchText {
                text: String::new(alloc),
                is_found: false,
            }),
        }
    }
}

/// Returns end `number`, if there is one; ends are counted from 1.
#[tactic(auto, using(crate::proofs::Known::numbered_at))]
fn numbered_end(ends: &[Ending], number: u64) -> Option<&Ending>
    ensures some { IfSome result (λ end. IsNumbered ends.now number end.now) }
    ensures none { IfNone result (HasNoEnd ends.now number) }
{
    if number == 0 || number > ends.len() as u64 {
        return None;
    }
    Some(&ends[(number - 1) as usize])
}
