//! Reads all the bytes of a source.

ghost use Rattle.std.specs.Prelude.{◌≡◌, ◌<◌, ◌≤◌, ◌-◌, ◌^◌, length, IfOk, IfErr, OnOk};
ghost use Rattle.std.specs.Io.KnownBytes.{Consumes, IsAtEnd};
ghost use Rattle.hp_streams.specs.Reading.{IsReadFault, ReadsAll, limit};
ghost use Rattle.hp_streams.specs.declared.reading.ReadFault.TheVariants.{OutOfMemory};

use crate::streams::Source;
use std::alloc::{AllocError, Global};

/// The greatest length of an input, in bytes.
pub const LIMIT: usize = 16_777_216;

/// Why an input was not read.
#[derive(Clone, Copy, Debug, PartialEq, Eq, Drop)]
pub enum ReadFault {
    /// A call of the source failed.
    ReadFailed,
    /// There are more than 16,777,216 bytes.
    TooLong,
    /// Out of memory.
    OutOfMemory,
}

impl From<AllocError> for ReadFault {
    ghost from_gives = { λ _ e. e ≡ OutOfMemory };

    fn from(_e: AllocError) -> ReadFault {
        ReadFault::OutOfMemory
    }
}

/// Reads all bytes of a source. Fails if there are more than `LIMIT`.
pub fn read_all<R: Source>(alloc: Global, reader: &mut R) -> Result<Vec<u8>, ReadFault>
    requires { R.failures reader.old < 2 ^ 64 - 1 }
    ensures bytes { IfOk result (λ v. Consumes (R.remaining reader.old) (R.remaining reader.new) v.items) }
    ensures limit { IfOk result (λ v. length v.items ≤ limit) }
    ensures end { OnOk result (IsAtEnd (R.remaining reader.new)) }
    ensures read { OnOk result (ReadsAll (R.remaining reader.old) (R.remaining reader.new)) }
    ensures err { IfErr result
        (IsReadFault (R.remaining reader.old) (R.failures reader.old < R.failures reader.new)) }
{
    let mut bytes = Vec::new(alloc);
    let mut buffer = [0u8; 8192];
    while bytes.len() <= LIMIT {
        let Ok(count) = reader.read(&mut buffer) else {
            return Err(ReadFault::ReadFailed);
        };
        if count == 0 {
            return Ok(bytes);
        }
        bytes.extend_from_slice(&buffer[..count])?;
    }
    Err(ReadFault::TooLong)
}
