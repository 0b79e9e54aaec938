//! The pieces of a text between bytes of one kind.
ghost use Rattle.std.specs.Prelude.{◌≡◌, ◌≢◌, ◌==◌, ◌∷◌, ◌<◌, ℕ, [], length, slice_index, IfNone, IfSome, MatchOption};
ghost use Rattle.std.specs.List.{slice_split};

use memchr::memchr;

/// Where the first of this byte stands.
fn first_of(byte: u8, text: &[u8]) -> Option<usize>
    ensures none { IfNone result ((k : ℕ) → k < length text.now → slice_index text.now k ≢ byte) }
    ensures before { IfSome result (λ at. (k : ℕ) → k < at → slice_index text.now k ≢ byte) }
    ensures found { IfSome result (λ at. (at < length text.now) × (slice_index text.now at ≡ byte)) }
{
    memchr(byte, text)
}

/// What stands before the first of this byte, and what stands behind it; None where the text has none.
pub(crate) fn cut(byte: u8, text: &[u8]) -> Option<(&[u8], &[u8])>
    ensures pieces { MatchOption result (slice_split (λ b. b == byte) text.now ≡ text.now ∷ [])
        (λ r. slice_split (λ b. b == byte) text.now ≡ r.0.now ∷ slice_split (λ b. b == byte) r.1.now) }
    ensures shorter { MatchOption result (text.now ≡ text.now) (λ r. length r.1.now < length text.now) }
{
    match first_of(byte, text) {
        None => None,
        Some(at) => Some((text.split_at(at).0, text.split_at(at + 1).1)),
    }
}
