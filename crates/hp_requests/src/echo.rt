//! A word that is written to a control file.
ghost use Rattle.std.specs.Prelude.{◌≡◌, IfOk};
ghost use Rattle.hp_requests.specs.Writes.{echo_request};

use crate::fault::ControlFault;
use crate::writes::{Request, echo_answer};
use hp_units::Text;
use std::alloc::{AllocError, Global};
use std::marker::Model;

/// The control file's path, the word, and what the word asks for.
#[derive(Drop)]
struct Parts {
    path: Text,
    word: Text,
    request: Result<Request, ControlFault>,
}

/// A word that `echo` writes to a control file. What it asks for is computed once, when it is made.
/// Everything is in one box, so that lines without an echo stay small. In contracts, its value is
/// the path and the word.
pub struct Echo {
    parts: Box<Parts>,
}

impl Drop for Echo {
    fn drop(self) {
        let Echo { parts: _parts } = self;
    }
}

impl Model for Echo {
    ghost use Rattle.std.specs.Prelude.{◌≡◌};
    ghost use Rattle.hp_requests.specs.Writes.{echo_request};
    ghost use Rattle.hp_requests.specs.Echoes.{EchoValue};

    ghost Value = { EchoValue };

    ghost view = { λ e. record { path = e.parts.value.path; word = e.parts.value.word } };

    ghost invariant = { λ e. e.parts.value.request ≡ echo_request e.parts.value.path e.parts.value.word };
}

impl Echo {
    /// Returns the `echo` of a word to the control file at a path.
    pub fn new(alloc: Global, path: Text, word: Text) -> Result<Echo, AllocError>
        ensures { IfOk result (λ echo. echo ≡ record { path = path; word = word }) }
    {
        let request = echo_answer(alloc, path.as_str(), word.as_str())?;
        let parts = Parts {
            path,
            word,
            request,
        };
        let parts = Box::new(alloc, parts)?;
        Ok(Echo { parts })
    }

    /// Returns the control file's path.
    pub fn path(&self) -> &str
        ensures { result.now ≡ self.now.path }
    {
        self.parts.path.as_str()
    }

    /// Returns the word, to which `echo` adds a newline.
    pub fn word(&self) -> &str
        ensures { result.now ≡ self.now.word }
    {
        self.parts.word.as_str()
    }

    /// Returns what the word asks for, or why the control file does not take it.
    pub fn request(&self) -> &Result<Request, ControlFault>
        ensures { result.now ≡ echo_request self.now.path self.now.word }
    {
        &self.parts.request
    }
}
