//! Where lines end.
ghost use Rattle.std.specs.Prelude.{◌≡◌, ◌<◌, ◌∷◌, [], length, MatchOption};
ghost use Rattle.line_cuts.specs.Cuts.{pieces};

use memchr::memchr;

/// The first line of some bytes without its line end, and what stands behind that; none where no line ends in them.
pub fn first_line(bytes: &[u8]) -> Option<(&[u8], &[u8])>
    ensures cut { MatchOption result (pieces bytes.now ≡ bytes.now ∷ []) (λ parts. pieces bytes.now ≡ parts.0.now ∷ pieces parts.1.now) }
    ensures shorter { MatchOption result (bytes.now ≡ bytes.now) (λ parts. length parts.1.now < length bytes.now) }
{
    let end = memchr(b'\n', bytes)?;
    Some((&bytes[..end], &bytes[end + 1..]))
}
