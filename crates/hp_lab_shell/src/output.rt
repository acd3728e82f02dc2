//! Standard output, whose reader may go away.

ghost use Rattle.std.specs.Prelude.{◌≡◌};

use hp_streams::{Failed, Sink};
use std::io::{ErrorKind, Result as IoResult, Write};

/// A writer that counts its failed calls, and stores whether the last failure came from a closed
/// pipe. A pipe is closed if its reader has gone, as `head` does when it has enough lines.
#[derive(Drop)]
pub(crate) struct Output<W> {
    inner: W,
    failures: u64,
    is_left: bool,
}

impl<W> Output<W> {
    /// Wraps a writer; no call has failed yet.
    pub(crate) fn new(inner: W) -> Output<W>
        ensures { result.failures ≡ 0 }
    {
        Output {
            inner,
            failures: 0,
            is_left: false,
        }
    }

    /// Returns whether the last call that failed did so because the reader had gone.
    pub(crate) fn is_left(&self) -> bool {
        self.is_left
    }
}

impl<W: Write> Sink for Output<W> {
    ghost contents = { λ o. W.contents o.inner };

    ghost failures = { λ o. o.failures };

    fn write(&mut self, bytes: &[u8]) -> Result<usize, Failed> {
        match self.inner.write(bytes) {
            Ok(count) if count > 0 || bytes.is_empty() => Ok(count),
            failed => {
                self.failures += 1;
                self.is_left = is_broken(&failed);
                Err(Failed)
            }
        }
    }
}

/// Returns whether a call failed because the other end of a pipe is closed.
fn is_broken(written: &IoResult<usize>) -> bool {
    match written {
        Ok(_) => false,
        Err(error) => error.kind() == ErrorKind::BrokenPipe,
    }
}
