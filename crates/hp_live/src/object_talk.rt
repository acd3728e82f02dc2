//! A session that replies in objects of JSON.
ghost use Rattle.std.specs.Prelude.{◌≡◌, ◌<◌, ◌+◌, ◌++◌, List, ℕ, [], IfOk, None, OnErr, OnOk, codes, length};
ghost use Rattle.hp_scripts.specs.Seen.{named_seen};
ghost use Rattle.hp_text.specs.Scenarios.{scenario_text};
ghost use Rattle.hp_text.specs.State.{state_text};
ghost use Rattle.hp_streams.specs.Talks.{RepliesTo, line_limit};
ghost use Rattle.hp_live.specs.Objects.{WritesObject};
ghost use Rattle.hp_live.specs.ObjectTalks.{objects};
ghost use Rattle.hp_live.specs.Sessions.{IsResumed};
ghost use Rattle.hp_live.specs.Talks.{IsLostText, RepliesText, RepliesWord, ShowsObject, fault_object, number_of, word_object};
ghost use Rattle.hp_live.specs.declared.live_words.LiveWord.TheVariants.{Line};

use crate::answers::{Did, LiveAnswer};
use crate::live_words::{LiveWord, word_of};
use crate::objects::write_object;
use crate::session::Session;
use crate::states::ShownStates;
use crate::word_objects::{write_fault, write_word};
use crate::words::help;
use hp_check::{name_typo, write_expected};
use hp_scripts::NamedScenario;
use hp_streams::Talk;
use std::alloc::{AllocError, Global};
use std::str;

/// Replies to each line with one object of JSON: to a line of a scenario with its answer, to a
/// command word such as `state` with a text. An empty line has no reply.
#[derive(Drop)]
pub struct ObjectTalk {
    session: Session,
    states: ShownStates,
    answer: LiveAnswer,
    hint: String,
}

impl ObjectTalk {
    /// Begins a talk after a scenario's lines. With `is_state_shown`, each answer also reports how
    /// the state differs from the last one reported; the first answer reports the whole state.
    pub fn begin(
        alloc: Global,
        named: NamedScenario,
        is_state_shown: bool,
    ) -> Result<ObjectTalk, AllocError>
        ensures session { IfOk result (λ talk. IsResumed (named_seen named) talk.session) }
        ensures states { IfOk result
            (λ talk. talk.states ≡ record { is_shown = is_state_shown; last = None }) }
    {
        Ok(ObjectTalk {
            session: Session::resume(alloc, named)?,
            states: ShownStates::new(is_state_shown),
            answer: LiveAnswer::new(alloc),
            hint: String::new(alloc),
        })
    }

    /// Replies to a text.
    fn reply_to_text(
        &mut self,
        alloc: Global,
        text: &str,
        out: &mut Vec<u8>,
    ) -> Result<(), AllocError>
        ensures ok { OnOk result (RepliesTo RepliesText (objects self.old) text.now out.old.items
            (objects self.new) out.new.items) }
        ensures err { OnErr result (IsLostText (objects self.old) text.now (objects self.new)) }
        ensures kept { OnErr result (out.new.items ≡ out.old.items) }
    {
        match word_of(text) {
            LiveWord::Nothing => Ok(()),
            LiveWord::Help => write_word(out, alloc, "help", help()),
            LiveWord::State => self.show_state(alloc, out),
            LiveWord::Scenario => self.show_scenario(alloc, out),
            LiveWord::Line => self.reply_to_line(alloc, text, out),
        }
    }

    /// Writes an object with the machine's state.
    fn show_state(&self, alloc: Global, out: &mut Vec<u8>) -> Result<(), AllocError>
        ensures ok { OnOk result (out.new.items ≡ out.old.items ++ word_object (codes "state")
            (state_text self.now.session.machine.layout self.now.session.names
            self.now.session.machine.state)) }
        ensures kept { OnErr result (out.new.items ≡ out.old.items) }
    {
        let mut text = String::new(alloc);
        self.session.write_state(&mut text, alloc)?;
        write_word(out, alloc, "state", text.as_str())
    }

    /// Writes an object with the layout and all lines so far.
    fn show_scenario(&self, alloc: Global, out: &mut Vec<u8>) -> Result<(), AllocError>
        ensures ok { OnOk result (out.new.items ≡ out.old.items ++ word_object (codes "scenario")
            (scenario_text self.now.session.machine.layout self.now.session.names
            self.now.session.lines [])) }
        ensures kept { OnErr result (out.new.items ≡ out.old.items) }
    {
        let mut text = String::new(alloc);
        self.session.write_scenario(&mut text)?;
        write_word(out, alloc, "scenario", text.as_str())
    }

    /// Replies to a text that may be a line.
    fn reply_to_line(
        &mut self,
        alloc: Global,
        text: &str,
        out: &mut Vec<u8>,
    ) -> Result<(), AllocError>
        ensures ok { OnOk result (RepliesTo (RepliesWord Line) (objects self.old) text.now
            out.old.items (objects self.new) out.new.items) }
        ensures err { OnErr result (IsLostText (objects self.old) text.now (objects self.new)) }
        ensures kept { OnErr result (out.new.items ≡ out.old.items) }
    {
        match self.session.answer(alloc, text, &mut self.answer) {
            Ok(()) => self.show_answer(alloc, text, out),
            Err(_) => Err(AllocError),
        }
    }

    /// Writes the object of the answer to a text.
    fn show_answer(
        &mut self,
        alloc: Global,
        text: &str,
        out: &mut Vec<u8>,
    ) -> Result<(), AllocError>
        ensures ok { OnOk result ((reply : List ℕ)
            × ShowsObject (number_of self.old.answer.did self.old.session.lines)
            self.old.answer self.old.states self.old.session.machine reply self.new.states
            × (out.new.items ≡ out.old.items ++ reply)) }
        ensures kept { OnErr result (out.new.items ≡ out.old.items) }
        ensures session { self.new.session ≡ self.old.session }
        ensures states { OnErr result (self.new.states ≡ self.old.states) }
    {
        self.write_hint(alloc, text)?;
        let mut object = self.object(alloc)?;
        let session = &self.session;
        let shown = self
            .states
            .show(alloc, &mut object, &session.names, &session.machine)?;
        out.extend_from_slice(object.as_slice())?;
        self.states.keep(shown);
        Ok(())
    }

    /// Sets `hint` to what was expected if the text could not be read as a line, and to the empty
    /// text otherwise.
    fn write_hint(&mut self, alloc: Global, text: &str) -> Result<(), AllocError>
        ensures session { self.new.session ≡ self.old.session }
        ensures states { self.new.states ≡ self.old.states }
        ensures answer { self.new.answer ≡ self.old.answer }
    {
        self.hint.clear();
        match self.answer.did() {
            Did::NoLine => {
                let names = name_typo(alloc, text, &self.session.bound)?;
                write_expected(&mut self.hint, text, &names)
            }
            _ => Ok(()),
        }
    }

    /// Returns the answer's object.
    fn object(&self, alloc: Global) -> Result<Vec<u8>, AllocError>
        ensures { IfOk result (λ object. WritesObject []
            (number_of self.now.answer.did self.now.session.lines) self.now.answer object.items) }
    {
        let buffer = Vec::with_capacity(alloc, 256)?;
        write_object(
            alloc,
            buffer,
            self.number(),
            &self.answer,
            self.hint.as_str(),
        )
    }

    /// Returns the number of the line that was answered. After a text that cannot be read as a
    /// line, returns the number of the next line.
    fn number(&self) -> u64
        ensures { result ≡ number_of self.now.answer.did self.now.session.lines }
    {
        match self.answer.did() {
            Did::NoLine => self.session.next_number(),
            _ => self.session.line_count(),
        }
    }

    /// Refuses a line that is not UTF-8, or too long.
    fn refuse(&self, alloc: Global, hint: &str, out: &mut Vec<u8>) -> Result<(), AllocError>
        ensures ok { OnOk result (out.new.items
            ≡ out.old.items ++ fault_object (length self.now.session.lines + 1) hint.now) }
        ensures kept { OnErr result (out.new.items ≡ out.old.items) }
    {
        write_fault(out, alloc, self.session.next_number(), hint)
    }
}

impl Talk for ObjectTalk {
    ghost use Rattle.std.specs.Prelude.{codes};
    ghost use Rattle.hp_live.specs.ObjectTalks.{objects};
    ghost use Rattle.hp_live.specs.Talks.{RepliesObject, lost_object};

    ghost replies = { λ t line reply u. RepliesObject (objects t) line reply (objects u) };

    ghost lost_text = { lost_object };

    fn lost(&self) -> &'static str {
        "{\"fault\":\"OutOfMemory\",\"hint\":\"out of memory: see state\"}\n"
    }

    fn reply(&mut self, alloc: Global, line: &[u8], out: &mut Vec<u8>) -> Result<(), AllocError> {
        match str::from_utf8(line) {
            Ok(text) => self.reply_to_text(alloc, text, out),
            Err(_) => self.refuse(alloc, "it is not UTF-8", out),
        }
    }

    fn reply_to_long(&mut self, alloc: Global, out: &mut Vec<u8>) -> Result<(), AllocError> {
        self.refuse(alloc, "it has more than 65536 bytes", out)
    }
}
