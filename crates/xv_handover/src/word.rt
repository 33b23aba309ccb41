//! The words that lines of a handover's script begin with.

ghost use Rattle.std.specs.Prelude.{◌≡◌};
ghost use Rattle.xv_handover.specs.Words.{word_of, node_of};

use xv_text::{TextWord, first_spelled};

/// The word of a line.
#[derive(Clone, Copy, Debug, PartialEq, Eq)]
pub enum Word {
    Write,
    Image,
    Offer,
    Withdraw,
    Resend,
    Restart,
    Pass,
    Stop,
}

/// A node by its name.
#[derive(Clone, Copy, Debug, PartialEq, Eq)]
pub enum NodeName {
    A,
    B,
}

/// All words.
const WORDS: [Word; 8] = [
    Word::Write,
    Word::Image,
    Word::Offer,
    Word::Withdraw,
    Word::Resend,
    Word::Restart,
    Word::Pass,
    Word::Stop,
];

/// The word that a field is; none where it is no word of a script.
pub(crate) fn word_of(field: &[u8]) -> Option<Word>
    ensures { result ≡ word_of field.now }
{
    first_spelled(&WORDS, field)
}

impl TextWord for Word {
    ghost use Rattle.xv_handover.specs.Words.{spelling as spelling_of};

    ghost spelling = { spelling_of };

    fn spelling(self) -> &'static [u8] {
        match self {
            Word::Write => b"write",
            Word::Image => b"image",
            Word::Offer => b"offer",
            Word::Withdraw => b"withdraw",
            Word::Resend => b"resend",
            Word::Restart => b"restart",
            Word::Pass => b"pass",
            Word::Stop => b"stop",
        }
    }
}

/// The node that a field names; none where it is neither `a` nor `b`.
pub(crate) fn node_of(field: &[u8]) -> Option<NodeName>
    ensures { result ≡ node_of field.now }
{
    match field {
        b"a" => Some(NodeName::A),
        b"b" => Some(NodeName::B),
        _ => None,
    }
}
