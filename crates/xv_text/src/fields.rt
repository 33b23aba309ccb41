//! A line as fields.

ghost use Rattle.std.specs.Prelude.{◌≡◌, ◌↔◌, [], ◌∷◌, IsTrue, IfSome, IfNone};
ghost use Rattle.xv_text.specs.Lines.{fields};

use crate::lines::cut_at;
use std::marker::Model;

/// Fields that follow one another to the end of a line. Contracts see them as a list of fields, each a list of
/// bytes.
#[derive(Drop)]
pub struct Fields<'a> {
    bytes: &'a [u8],
    ended: bool,
}

impl<'a> Model for Fields<'a> {
    ghost use Rattle.std.specs.Prelude.{ℕ, List, [], if◌then◌else◌};
    ghost use Rattle.xv_text.specs.Lines.{fields};

    ghost Value = { List (List ℕ) };

    ghost view = { λ f. if f.ended then [] else fields f.bytes.now };
}

/// The first field of a line, and those behind it.
pub fn first_field(line: &[u8]) -> (&[u8], Fields)
    ensures { fields line.now ≡ result.0.now ∷ result.1 }
{
    match cut_at(line, b' ') {
        Some((first, rest)) => (
            first,
            Fields {
                bytes: rest,
                ended: false,
            },
        ),
        None => (
            line,
            Fields {
                bytes: line,
                ended: true,
            },
        ),
    }
}

impl<'a> Fields<'a> {
    /// The first field, and those behind it; none where no field is left.
    pub fn split_first(&self) -> Option<(&'a [u8], Fields<'a>)>
        ensures first { IfSome result (λ split. self.now ≡ split.0.now ∷ split.1) }
        ensures none { IfNone result (self.now ≡ []) }
    {
        if self.ended {
            None
        } else {
            Some(first_field(self.bytes))
        }
    }

    /// The same fields once more.
    pub(crate) fn again(&self) -> Fields<'a>
        ensures { result ≡ self.now }
    {
        Fields {
            bytes: self.bytes,
            ended: self.ended,
        }
    }

    /// Whether no field is left.
    pub fn is_done(&self) -> bool
        ensures { IsTrue result ↔ (self.now ≡ []) }
    {
        self.ended
    }
}
