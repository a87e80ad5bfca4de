//! Reads a source to its end, within a limit.
//! It does not look at the bytes, and it gives none back where it stops early.

ghost use Rattle.std.specs.Prelude.{◌^◌, ◌<◌};
ghost use Rattle.tv_outside.specs.Reading.{Takes};

use crate::Source;
use std::alloc::Global;
use thiserror::Error;

/// Why a source was not read to its end.
#[derive(Debug, Drop, PartialEq, Eq, Error)]
pub enum ReadEnd {
    /// One byte more than the limit was taken.
    #[error("the input is too long")]
    TooLong,
    /// A read failed.
    #[error("a read failed")]
    Fault,
    /// Memory was wanting.
    #[error("out of memory")]
    Memory,
}

// How many bytes one read asks for at most.
pub(crate) const CHUNK: usize = 4096;

/// All bytes that are left in `source`, of which there may be at most `limit`.
///
/// Where it answers an error, the bytes that its reads took are gone. It never takes more than `limit + 1`, and it reads no
/// more after the end, nor after a read that failed.
pub fn read_all<S: Source>(alloc: Global, source: &mut S, limit: usize) -> Result<Vec<u8>, ReadEnd>
    requires { limit < 2 ^ 32 }
    ensures { Takes (S.seen source.old) (S.seen source.new) limit result }
{
    let mut bytes = Vec::new(alloc);
    let mut buffer = [0; CHUNK];
    'reads: loop {
        let room = (limit + 1 - bytes.len()).min(CHUNK);
        let Ok(count) = source.read(&mut buffer[..room]) else {
            return Err(ReadEnd::Fault);
        };
        if count == 0 {
            return Ok(bytes);
        }
        if count > limit - bytes.len() {
            return Err(ReadEnd::TooLong);
        }
        if bytes.extend_from_slice(&buffer[..count]).is_err() {
            return Err(ReadEnd::Memory);
        }
    }
}
