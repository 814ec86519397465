//! A source is read to its end.
ghost use Rattle.std.specs.Prelude.{◌≡◌, ◌<◌, ◌≤◌, ◌-◌, ◌^◌, length, IfOk, IsErrOf};
ghost use Rattle.outside_io.specs.Faults.{Rose};
ghost use Rattle.outside_io.specs.Whole.{ReadsAll, ReadsPast, ReadsWithin};
ghost use Rattle.outside_io.specs.declared.reading.ReadError.TheVariants.{OutOfMemory};

use crate::{Source, Taken};
use std::alloc::{AllocError, Global};
use thiserror::Error;

/// How many bytes are asked for in one read.
const PIECE: usize = 65_536;

/// Why a source was not read to its end.
#[derive(Clone, Copy, Debug, PartialEq, Eq, Error)]
pub enum ReadError {
    /// A read failed.
    #[error("read fault")]
    Failed,
    /// There are more bytes than the limit.
    #[error("input too large")]
    TooLarge,
    /// Memory is wanting.
    #[error("out of memory")]
    OutOfMemory,
}

impl From<AllocError> for ReadError {
    ghost from_gives = { λ _ e. e ≡ OutOfMemory };

    fn from(_: AllocError) -> Self {
        ReadError::OutOfMemory
    }
}

/// All the bytes of the source, if there are no more than `limit`. Reading stops at the first byte
/// past the limit, which is taken from the source too. `limit` is below 2^64 - 1.
pub fn read_all<S: Source>(
    alloc: Global,
    source: &mut S,
    limit: usize,
) -> Result<Vec<u8>, ReadError>
    requires { limit < 2 ^ 64 - 1 }
    ensures all { IfOk result (λ bytes. ReadsAll (S.left source.old) (S.left source.new) bytes.items) }
    ensures within { IfOk result (λ bytes. length bytes.items ≤ limit) }

    // Past the limit means TooLarge, and nothing else does.
    ensures too_large { IsErrOf result ReadError.TooLarge → ReadsPast limit (S.left source.old) (S.left source.new) }
    ensures failed { IsErrOf result ReadError.Failed → Rose (S.faults source.old) (S.faults source.new) }
    ensures failed_within { IsErrOf result ReadError.Failed → ReadsWithin limit (S.left source.old) (S.left source.new) }
    ensures wanting_within { IsErrOf result ReadError.OutOfMemory → ReadsWithin limit (S.left source.old) (S.left source.new) }
    ensures later { S.faults source.old ≤ S.faults source.new }
{
    let mut bytes = Vec::new(alloc);
    let mut piece = [0; PIECE];
    'reading: loop {
        let room = limit - bytes.len();
        let most = (room + 1).min(PIECE);
        match source.read(&mut piece[..most]) {
            Taken::Some(count) if count > room => return Err(ReadError::TooLarge),
            Taken::Some(count) => bytes.extend_from_slice(&piece[..count])?,
            Taken::End => return Ok(bytes),
            Taken::Failed => return Err(ReadError::Failed),
        }
    }
}
