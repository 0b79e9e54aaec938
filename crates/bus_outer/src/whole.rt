//! All that a source gives, and all of some bytes to a sink.
ghost use Rattle.std.specs.Prelude.{◌≡◌, ◌≤◌, IfOk, IfSome};
ghost use Rattle.bus_outer.specs.declared.whole.ReadError.TheVariants.{Memory};
ghost use Rattle.bus_outer.specs.Sources.{read_limit, ReadsWhole, CountsRead};
ghost use Rattle.bus_outer.specs.Sinks.{WritesText};

use crate::{Pull, Push, Sink, Source, WriteFault};
use std::alloc::{AllocError, Global};
use thiserror::Error;

/// Why a source couldn't be read whole.
#[derive(Clone, Copy, Debug, PartialEq, Eq, Error)]
pub enum ReadError {
    /// A pull failed: the count of faults of the source rose.
    #[error("the source failed")]
    Fault,
    /// The source has more bytes than the limit.
    #[error("the source has too many bytes")]
    TooLarge,
    /// Memory was refused.
    #[error("out of memory")]
    Memory,
}

impl From<AllocError> for ReadError {
    ghost from_gives = { λ _ e. e ≡ Memory };

    fn from(_: AllocError) -> Self {
        ReadError::Memory
    }
}

/// How many bytes one pull asks for.
const PIECE: usize = 4096;

/// The greatest limit of [`read_whole`], in bytes.
pub const READ_LIMIT: usize = 67_108_864;

/// Reads all that a source gives, at most `limit` bytes, which is at most [`READ_LIMIT`].
///
/// Ok has every byte up to the end. `Fault` comes exactly where a pull failed: the count of faults rose, as it
/// does at no other answer. `TooLarge` comes exactly where a byte past the limit was taken, `Memory` where memory
/// was refused. After an error the bytes taken are gone from the source: at most `limit` after `Fault` and
/// `Memory`, and at most a pull of 4096 bytes more after `TooLarge`.
pub fn read_whole<S: Source>(
    alloc: Global,
    source: &mut S,
    limit: usize,
) -> Result<Vec<u8>, ReadError>
    requires { limit ≤ read_limit }
    ensures whole { IfOk result (λ v. IfSome (S.left source.old) (λ xs. v.items ≡ xs)) }
    ensures taken { ReadsWhole limit (S.left source.old) (S.left source.new) result }
    ensures counts { CountsRead (S.faults source.old) (S.faults source.new) result }
{
    let mut bytes = Vec::new(alloc);
    let mut buf = [0u8; PIECE];
    'pieces: loop {
        match source.pull(&mut buf) {
            Pull::Got(n) => {
                // Before the bytes are kept, so that want of memory never hides a text that is too large.
                if n > limit - bytes.len() {
                    return Err(ReadError::TooLarge);
                }
                bytes.extend_from_slice(&buf[..n])?;
            }
            Pull::End => return Ok(bytes),
            Pull::Failed => return Err(ReadError::Fault),
        }
    }
}

/// Writes all of some bytes, and takes no memory.
///
/// `WriteFault` comes exactly where a push failed: the sink has taken a front of them, and its count of faults rose.
pub fn write_all<K: Sink>(sink: &mut K, bytes: &[u8]) -> Result<(), WriteFault>
    ensures { WritesText K.held K.faults sink.old sink.new result bytes.now }
{
    let mut rest = bytes;
    while !rest.is_empty() {
        match sink.push(rest) {
            Push::Took(n) => rest = rest.split_at(n).1,
            Push::Failed => return Err(WriteFault),
        }
    }
    Ok(())
}
