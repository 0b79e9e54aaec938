//! A piece of some bytes, as one call gives it.
ghost use Rattle.std.specs.Prelude.{◌≡◌, ◌++◌, drop, length, min, take};

/// Copies a piece to the front of the buffer: no more than there is, nor than there is room for.
pub(crate) fn copy_piece(from: &[u8], piece: usize, buf: &mut [u8]) -> usize
    ensures count { result ≡ min (min piece (length buf.old)) (length from.now) }
    ensures copied { from.now ≡ take result buf.new ++ drop result from.now }
{
    let n = piece.min(buf.len()).min(from.len());
    buf[..n].copy_from_slice(&from[..n]);
    n
}
