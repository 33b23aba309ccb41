//! Words by their spellings.

ghost use Rattle.std.specs.Prelude.{◌≡◌, ℕ, List, find};
ghost use Rattle.xv_text.specs.Words.{is_spelled};

/// A word of a text, which is known by how it is spelled.
pub trait TextWord: Copy {
    /// How the word is spelled.
    ghost spelling: { Self → List ℕ };

    /// How the word is spelled.
    fn spelling(self) -> &'static [u8]
        ensures { result.now ≡ spelling self };
}

/// The first of these words that is spelled as a field; none where no word is.
pub fn first_spelled<W: TextWord>(words: &[W], field: &[u8]) -> Option<W>
    ensures { result ≡ find (λ word. is_spelled (W.spelling word) field.now) words.now }
{
    for word in words {
        if is_spelled(word.spelling(), field) {
            return Some(*word);
        }
    }
    None
}

/// Whether a field is spelled so.
pub fn is_spelled(spelling: &[u8], field: &[u8]) -> bool
    ensures { result ≡ is_spelled spelling.now field.now }
{
    spelling == field
}
