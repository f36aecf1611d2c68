//! Where a line ends, and the lines of a text.
ghost use Rattle.std.specs.Prelude.{◌≡◌, ◌≢◌, ◌<◌, ◌≤◌, ◌∷◌, ◌++◌, ◌⊎◌, ◌↔◌, [], ℕ, length, slice_index, IfSome, IsNone};
ghost use Rattle.std.specs.Option.{MatchOption};
ghost use Rattle.line_streams.specs.Cuts.{lines_of};
ghost use Rattle.line_streams.specs.Streams.{IsOneLine};

/// The place of the first newline, or the number of the bytes where there is none.
fn newline_at(bytes: &[u8]) -> usize
    ensures within { result ≤ length bytes.now }
    ensures before { (k : ℕ) → k < result → slice_index bytes.now k ≢ 10 }
    ensures found { result < length bytes.now → slice_index bytes.now result ≡ 10 }
{
    for (place, byte) in bytes.iter().enumerate() {
        if *byte == b'\n' {
            return place;
        }
    }
    bytes.len()
}

/// What stands before the first newline, and what after it. None where there is no newline.
pub(crate) fn split_line(bytes: &[u8]) -> Option<(&[u8], &[u8])>
    ensures parts { MatchOption result (IsOneLine bytes.now) (λ r. IsOneLine r.0.now × (bytes.now ≡ r.0.now ++ (10 ∷ r.1.now))) }
    ensures shorter { IfSome result (λ r. length r.1.now < length bytes.now) }
{
    let (front, back) = bytes.split_at(newline_at(bytes));
    match back.split_first() {
        Some((_newline, rest)) => Some((front, rest)),
        None => None,
    }
}

/// The text's first line without its newline, and all that stands after that. None where the text is empty.
pub fn next_line(text: &str) -> Option<(&str, &str)>
    ensures end { IsNone result ↔ (text.now ≡ []) }
    ensures cut { IfSome result (λ r. (text.now ≡ r.0.now ++ (10 ∷ r.1.now)) ⊎ ((text.now ≡ r.0.now) × (r.1.now ≡ []))) }
    ensures line { IfSome result (λ r. lines_of text.now ≡ r.0.now ∷ lines_of r.1.now) }
    ensures shorter { IfSome result (λ r. length r.1.now < length text.now) }
{
    if text.is_empty() {
        return None;
    }
    match text.split_once('\n') {
        Some((line, rest)) => Some((line, rest)),
        None => Some((text, "")),
    }
}
