//! The words that lines of a script begin with.

ghost use Rattle.std.specs.Prelude.{◌≡◌};
ghost use Rattle.xv_script.specs.Words.{word_of, named, kinds};

use xv_text::{Kind, TextWord, first_spelled};

/// The word of a line.
#[derive(Clone, Copy, Debug, PartialEq, Eq)]
pub enum Word {
    Guest,
    Begin,
    Read,
    Advance,
    Release,
    Round,
    Page,
    Send,
    Deliver,
    Apply,
    Ack,
    Credit,
    Stun,
    Switch,
    Cancel,
    Probe,
    Stop,
}

/// What the number behind a word names.
#[derive(Clone, Copy, Debug, PartialEq, Eq)]
pub enum Named {
    /// Nothing, and then no number follows.
    Nothing,
    OfGuests,
    OfDisks,
    OfStreams,
    OfUnits,
}

/// All words.
const WORDS: [Word; 17] = [
    Word::Guest,
    Word::Begin,
    Word::Read,
    Word::Advance,
    Word::Release,
    Word::Round,
    Word::Page,
    Word::Send,
    Word::Deliver,
    Word::Apply,
    Word::Ack,
    Word::Credit,
    Word::Stun,
    Word::Switch,
    Word::Cancel,
    Word::Probe,
    Word::Stop,
];

/// The word that a field is; none where it is no word of a script.
pub(crate) fn word_of(field: &[u8]) -> Option<Word>
    ensures { result ≡ word_of field.now }
{
    first_spelled(&WORDS, field)
}

impl TextWord for Word {
    ghost use Rattle.xv_script.specs.Words.{spelling as spelling_of};

    ghost spelling = { spelling_of };

    fn spelling(self) -> &'static [u8] {
        match self {
            Word::Guest => b"guest",
            Word::Begin => b"begin",
            Word::Read => b"read",
            Word::Advance => b"advance",
            Word::Release => b"release",
            Word::Round => b"round",
            Word::Page => b"page",
            Word::Send => b"send",
            Word::Deliver => b"deliver",
            Word::Apply => b"apply",
            Word::Ack => b"ack",
            Word::Credit => b"credit",
            Word::Stun => b"stun",
            Word::Switch => b"switch",
            Word::Cancel => b"cancel",
            Word::Probe => b"probe",
            Word::Stop => b"stop",
        }
    }
}

impl Word {
    /// What the number behind the word names.
    pub(crate) fn named(self) -> Named
        ensures { result ≡ named self }
    {
        match self {
            Word::Guest => Named::OfGuests,
            Word::Begin | Word::Read | Word::Advance | Word::Release => Named::OfDisks,
            Word::Send | Word::Deliver => Named::OfStreams,
            Word::Probe => Named::OfUnits,
            Word::Round
            | Word::Page
            | Word::Apply
            | Word::Ack
            | Word::Credit
            | Word::Stun
            | Word::Switch
            | Word::Cancel
            | Word::Stop => Named::Nothing,
        }
    }
}

impl Named {
    /// The kinds of the fields behind a word that names this.
    pub(crate) fn kinds(self) -> &'static [Kind]
        ensures { result.now ≡ kinds self }
    {
        match self {
            Named::Nothing => &[],
            Named::OfGuests | Named::OfDisks | Named::OfStreams | Named::OfUnits => &[Kind::Number],
        }
    }
}
