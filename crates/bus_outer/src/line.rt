//! Lines among bytes that are at hand.
ghost use Rattle.std.specs.Prelude.{◌≡◌, ◌≢◌, ◌<◌, ◌++◌, ℕ, IfNone, IfSome, slice_index, drop, length, min, take};
ghost use Rattle.bus_outer.specs.Sources.{line_length, StopsAtFeed};
ghost use Rattle.bus_outer.specs.declared.source.Pull.TheVariants.{Got};

use crate::piece::copy_piece;

/// Where the first line feed stands.
fn first_feed(bytes: &[u8]) -> Option<usize>
    ensures none { IfNone result ((k : ℕ) → k < length bytes.now → slice_index bytes.now k ≢ 10) }
    ensures before { IfSome result (λ at. (k : ℕ) → k < at → slice_index bytes.now k ≢ 10) }
    ensures found { IfSome result (λ at. (at < length bytes.now) × (slice_index bytes.now at ≡ 10)) }
{
    memchr::memchr(b'\n', bytes)
}

/// The first line, its line feed included; all where there is no line feed.
fn first_line(bytes: &[u8]) -> &[u8]
    ensures { result.now ≡ take (line_length bytes.now) bytes.now }
{
    match first_feed(bytes) {
        Some(at) => &bytes[..at + 1],
        None => bytes,
    }
}

/// Copies a piece of the first line to the front of the buffer: no more than there is room for.
pub(crate) fn copy_line(from: &[u8], piece: usize, buf: &mut [u8]) -> usize
    ensures count { result ≡ min (min piece (length buf.old)) (line_length from.now) }
    ensures some { 0 < piece → 0 < length buf.old → 0 < length from.now → 0 < result }
    ensures copied { from.now ≡ take result buf.new ++ drop result from.now }
    ensures line { StopsAtFeed (Got result) buf.new }
{
    copy_piece(first_line(from), piece, buf)
}
