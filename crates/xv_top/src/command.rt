//! The table of commands.

ghost use Rattle.std.specs.Prelude.{◌≡◌, ◌≢◌, ◌<◌, ◌^◌, ℕ, ◌∷◌, [], map, decimal, IfSome, IfNone, string_bytes};
ghost use Rattle.xv_top.specs.Command.{words_of, IsNoCommand};

use xv_base::LineBuf;

/// How a report is written.
#[derive(Clone, Copy, Debug, PartialEq, Eq)]
pub enum Form {
    /// A line for each number.
    Rows,
    /// One line of JSON.
    Json,
}

/// What the program is called to do.
#[derive(Clone, Copy, Debug, PartialEq, Eq)]
pub enum Command {
    /// Plays a script on a migration of a job, and writes its report in a form.
    Replay(Form),
    /// Writes the job that a number makes.
    Gen(u16),
    /// Plays a script on two nodes that hand a guest over.
    Handover,
    /// Drives the job that a number makes to its end.
    Drive(u16),
}

/// The command that words call; none where they call none.
pub fn command_of(words: &[String]) -> Option<Command>
    ensures found { IfSome result (λ command. map (λ w. string_bytes w) words.now ≡ words_of command) }
    ensures none { IfNone result (IsNoCommand (map (λ w. string_bytes w) words.now)) }
{
    match words {
        [word] => of_one_word(word.as_str()),
        [word, more] => of_two_words(word.as_str(), more.as_str()),
        _ => None,
    }
}

fn of_one_word(word: &str) -> Option<Command>
    ensures found { IfSome result (λ command. (word.now ∷ []) ≡ words_of command) }
    ensures none { IfNone result (IsNoCommand (word.now ∷ [])) }
{
    match word {
        "replay" => Some(Command::Replay(Form::Rows)),
        "handover" => Some(Command::Handover),
        _ => None,
    }
}

fn of_two_words(word: &str, more: &str) -> Option<Command>
    ensures found { IfSome result (λ command. (word.now ∷ more.now ∷ []) ≡ words_of command) }
    ensures none { IfNone result (IsNoCommand (word.now ∷ more.now ∷ [])) }
{
    match word {
        "replay" if more == "--json" => Some(Command::Replay(Form::Json)),
        "gen" => number_of(more).map(Command::Gen),
        "drive" => number_of(more).map(Command::Drive),
        _ => None,
    }
}

/// The number below 2^16 that a word says in decimal digits without leading zeros; none where it says none.
fn number_of(word: &str) -> Option<u16>
    ensures found { IfSome result (λ number. word.now ≡ decimal number) }
    ensures none { IfNone result ((number : ℕ) → number < 2 ^ 16 → word.now ≢ decimal number) }
{
    let Ok(number) = word.parse::<u16>() else {
        return None;
    };
    let mut spelled = LineBuf::new();
    spelled.push_number(u32::from(number));
    if spelled.bytes() == word.as_bytes() {
        Some(number)
    } else {
        None
    }
}
