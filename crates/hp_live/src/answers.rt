//! The answer to a line.
ghost use Rattle.std.specs.Prelude.{◌≡◌, ◌++◌, OnOk, string_bytes};
ghost use Rattle.hp_live.specs.Answers.{did_text, said, untold};
ghost use Rattle.hp_live.specs.Results.{left_by};

use hp_requests::ControlFault;
use hp_text::{write_answer, write_echo_fault, write_plan_end, write_sealed, write_unrecorded};
use hp_units::{CallFault, OpEnd, Receipt, Reply, Serial};
use std::alloc::{AllocError, Global};
use std::marker::Model;

/// What a line did.
#[derive(Clone, Copy, Drop)]
pub enum Did {
    /// Nothing: the text cannot be read as a line.
    NoLine,
    /// Its event left a record with this serial and this reply.
    Event { serial: Serial, reply: Reply },
    /// Its event left no record.
    Unrecorded(CallFault),
    /// Its plan ended like this.
    Plan(OpEnd),
    /// Nothing: the control file of its `echo` does not take the word.
    NotTaken(ControlFault),
    /// It read a control file, or reported why the file cannot be read.
    File,
    /// It sealed this many records.
    Sealed(u64),
}

impl Did {
    /// Returns the serial and the reply of the record that the event left, if it left one.
    pub(crate) fn left(self) -> Option<(Serial, Reply)>
        ensures { result ≡ left_by self }
    {
        match self {
            Did::Event { serial, reply } => Some((serial, reply)),
            _ => None,
        }
    }
}

/// The answer to a line: what it did, the calls of its plan, and the text that `hotplug serial`
/// writes for it. One answer can be used for line after line, so that its buffers are reused.
#[derive(Drop)]
pub struct LiveAnswer {
    pub(crate) text: String,
    pub(crate) calls: Vec<Receipt>,
    pub(crate) did: Did,
}

impl Model for LiveAnswer {
    ghost use Rattle.std.specs.Prelude.{string_bytes};
    ghost use Rattle.hp_live.specs.Answers.{AnswerValue};

    ghost Value = { AnswerValue };

    ghost view = { λ a. record { text = string_bytes a.text; calls = a.calls.items; did = a.did } };
}

impl LiveAnswer {
    /// Returns an empty answer.
    pub fn new(alloc: Global) -> LiveAnswer
        ensures { result ≡ untold }
    {
        LiveAnswer {
            text: String::new(alloc),
            calls: Vec::new(alloc),
            did: Did::NoLine,
        }
    }

    /// Returns the text that `hotplug serial` writes for the line. Empty if there was no line,
    /// since the text could not be read as one.
    pub fn text(&self) -> &str
        ensures { result.now ≡ self.now.text }
    {
        self.text.as_str()
    }

    /// Returns the calls of the line's plan, in order.
    pub fn calls(&self) -> &[Receipt]
        ensures { result.now ≡ self.now.calls }
    {
        self.calls.as_slice()
    }

    /// Returns what the line did.
    pub fn did(&self) -> Did
        ensures { result ≡ self.now.did }
    {
        self.did
    }

    /// Empties the answer.
    pub(crate) fn clear(&mut self)
        ensures { self.new ≡ untold }
    {
        self.text.clear();
        self.calls.clear();
        self.did = Did::NoLine;
    }

    /// Sets what the line did, and writes its text.
    pub(crate) fn say(&mut self, did: Did) -> Result<(), AllocError>
        ensures ok { OnOk result (self.new ≡ said self.old did) }
        ensures did { self.new.did ≡ did }
    {
        self.did = did;
        write_did(&mut self.text, &did)
    }
}

/// Writes what a line did. Writes nothing for a control file, whose text was written when it was
/// read.
fn write_did(out: &mut String, did: &Did) -> Result<(), AllocError>
    ensures { OnOk result (string_bytes out.new ≡ string_bytes out.old ++ did_text did.now) }
{
    match did {
        Did::Event { serial, reply } => write_answer(out, *serial, *reply),
        Did::Unrecorded(fault) => write_unrecorded(out, *fault),
        Did::Plan(end) => write_plan_end(out, *end),
        Did::NotTaken(fault) => write_echo_fault(out, *fault),
        Did::Sealed(count) => write_sealed(out, *count),
        Did::NoLine | Did::File => Ok(()),
    }
}
