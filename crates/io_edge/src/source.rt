//! Sources: where bytes come from.

ghost use Rattle.std.specs.Prelude.{◌≡◌, ◌+◌, ◌≤◌, length, IfOk, OnErr};
ghost use Rattle.std.specs.Io.{ReadsAtMost};
ghost use Rattle.std.specs.Io.KnownBytes.{Consumes, IsAtEnd, ReadConsumes};
ghost use Rattle.io_edge.specs.Outside.{ConsumesAtMost, HasCause, Rose, SourceShown};

use crate::fault::Failed;
use std::alloc::{AllocError, Global};

/// Where bytes come from.
pub trait Source {
    /// What contracts see of the source.
    ghost shown: { Self → SourceShown };

    /// Puts some of the bytes that are left at the front of `buf`, and says how many.
    ///
    /// An answer 0 for a `buf` that isn't empty is the end of input. Takes no memory.
    fn take(&mut self, buf: &mut [u8]) -> Result<usize, Failed>
        ensures bound { ReadsAtMost result buf.new }
        ensures bytes { ReadConsumes (shown self.old).left (shown self.new).left result buf.new }
        ensures cause { HasCause (shown self.old).faults (shown self.new).faults result };
}

/// Why bytes weren't read to their end.
#[derive(Clone, Copy, Debug, PartialEq, Eq)]
pub enum InputError {
    /// The source failed.
    Failed,
    /// There was no memory for the bytes.
    NoMemory,
}

impl From<AllocError> for InputError {
    ghost use Rattle.io_edge.specs.declared.source.InputError.TheVariants.{NoMemory};

    ghost from_gives = { λ _ error. error ≡ NoMemory };

    fn from(_: AllocError) -> InputError {
        InputError::NoMemory
    }
}

impl From<Failed> for InputError {
    ghost use Rattle.io_edge.specs.declared.source.InputError.TheVariants.{Failed};

    ghost from_gives = { λ _ error. error ≡ Failed };

    fn from(_: Failed) -> InputError {
        InputError::Failed
    }
}

/// How many bytes are asked of a source at once.
const PIECE: usize = 65536;

/// Reads to the end of a source, or stops when it holds `most + 1` bytes, and takes none beyond them.
///
/// Takes memory for the bytes. After an error those that were taken are lost.
#[tactic(auto, using(crate::proofs::Pieces::consumed_more))]
pub fn read_up_to<S: Source>(
    alloc: Global,
    source: &mut S,
    most: usize,
) -> Result<Vec<u8>, InputError>
    ensures ok { IfOk result (λ bytes. Consumes (S.shown source.old).left (S.shown source.new).left bytes.items) }
    ensures bound { IfOk result (λ bytes. length bytes.items ≤ most + 1) }
    ensures whole { IfOk result (λ bytes. length bytes.items ≤ most → IsAtEnd (S.shown source.new).left) }

    ensures err { OnErr result (ConsumesAtMost (S.shown source.old).left (S.shown source.new).left (most + 1)) }
    ensures later { (S.shown source.old).faults ≤ (S.shown source.new).faults }
    ensures failed { result ≡ Err InputError.Failed → Rose (S.shown source.old).faults (S.shown source.new).faults }
{
    let mut bytes = Vec::new(alloc);
    let mut piece = [0; PIECE];
    while bytes.len() <= most {
        let room = (most - bytes.len()).min(PIECE - 1) + 1;
        let count = source.take(&mut piece[..room])?;
        if count == 0 {
            break;
        }
        bytes.extend_from_slice(&piece[..count])?;
    }
    Ok(bytes)
}
