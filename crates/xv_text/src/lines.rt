//! A text as lines.

ghost use Rattle.std.specs.Prelude.{◌≡◌, ◌==◌, ◌<◌, [], ◌∷◌, ◌++◌, not, length, position, IfSome, IfNone};
ghost use Rattle.xv_text.specs.Lines.{whole_lines, has_rest};
ghost use Rattle.xv_text.specs.Fields.{is_empty};
ghost use Rattle.xv_text.specs.Cuts.{Lacks, IsCut};

/// The line that a text begins with, without its line feed, and the text behind it; none where no line feed is
/// left.
pub fn next_line(text: &[u8]) -> Option<(&[u8], &[u8])>
    ensures cut { IfSome result (λ found. text.now ≡ found.0.now ++ 10 ∷ found.1.now) }
    ensures first { IfSome result (λ found. whole_lines text.now ≡ found.0.now ∷ whole_lines found.1.now) }
    ensures rest { IfSome result (λ found. has_rest text.now ≡ has_rest found.1.now) }
    ensures shorter { IfSome result (λ found. length found.1.now < length text.now) }
    ensures no_line { IfNone result (whole_lines text.now ≡ []) }
    ensures only_rest { IfNone result (has_rest text.now ≡ not (is_empty text.now)) }
{
    cut_at(text, b'\n')
}

/// What stands before the first such byte, and what behind it; none where there is no such byte.
pub(crate) fn cut_at(bytes: &[u8], byte: u8) -> Option<(&[u8], &[u8])>
    ensures found { IfSome result (λ found. IsCut byte bytes.now found.0.now found.1.now) }
    ensures none { IfNone result (Lacks byte bytes.now) }
{
    match place_of(bytes, byte) {
        Some(place) => Some((&bytes[..place], &bytes[place + 1..])),
        None => None,
    }
}

/// The first place of a byte; none where there is no such byte.
fn place_of(bytes: &[u8], byte: u8) -> Option<usize>
    ensures { result ≡ position (λ b. b == byte) bytes.now }
{
    bytes.iter().position(|b| *b == byte)
}
