//! Lines, which end at line feeds.

ghost use Rattle.std.specs.Prelude.{◌≡◌, ◌++◌, ◌∷◌, MatchOption};
ghost use Rattle.dcel_text.specs.Lines.{HasNoFeed, line_feed};

/// Splits the bytes at the first line feed.
///
/// Returns what comes before it and what comes after it, or `None` if there is no line feed.
pub fn split_line(bytes: &[u8]) -> Option<(&[u8], &[u8])>
    ensures { MatchOption result
        (HasNoFeed bytes.now)
        (λ x. HasNoFeed x.0.now × (bytes.now ≡ x.0.now ++ line_feed ∷ x.1.now)) }
{
    for (i, b) in bytes.iter().enumerate() {
        if *b == b'\n' {
            return Some((&bytes[..i], &bytes[i + 1..]));
        }
    }
    None
}
