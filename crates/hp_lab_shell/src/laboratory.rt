//! The interface through which the program runs `check`, `explore`, `sum` and `trace`.
ghost use Rattle.std.specs.Prelude.{◌<◌, ◌-◌, ◌^◌};
ghost use Rattle.std.specs.Thread.{IsSync};

use crate::words::Word;
use hp_scripts::Unbegun;
use hp_search::LabProgramFault;
use hp_states::Watch;
use hp_streams::{Sink, Source};
use std::alloc::Global;
use std::sync::Wait;
use std::thread::Threads;

/// The result of a command: the exit status, and what deserves a warning.
#[derive(Drop)]
pub struct Served {
    /// The exit status.
    pub status: u8,
    /// Per processor, the first script line that works on operation 0 although the
    /// processor has begun none.
    pub unbegun: Vec<Unbegun>,
}

/// Runs the commands that `Word` has.
pub trait Laboratory {
    /// Runs a command on the text that `reader` gives, and writes the result to `writer`. Some
    /// commands run in threads. `watch` gets the progress of a search.
    fn serve<T: Threads + Wait + Sync, R: Source, W: Sink, P: Watch + Drop>(
        &self,
        threads: &T,
        alloc: Global,
        word: Word<'_>,
        reader: &mut R,
        writer: &mut W,
        watch: P,
    ) -> Result<Served, LabProgramFault>
        requires threads { IsSync T.row }
        requires reader { R.failures reader.old < 2 ^ 64 - 1 }
        requires writer { W.failures writer.old < 2 ^ 64 - 1 };

    /// Runs a command on a text in memory, and writes the result to `writer`. Some commands run in
    /// threads. `watch` gets the progress of a search.
    fn serve_text<T: Threads + Wait + Sync, W: Sink, P: Watch + Drop>(
        &self,
        threads: &T,
        alloc: Global,
        word: Word<'_>,
        input: &[u8],
        writer: &mut W,
        watch: P,
    ) -> Result<Served, LabProgramFault>
        requires threads { IsSync T.row }
        requires writer { W.failures writer.old < 2 ^ 64 - 1 };
}
