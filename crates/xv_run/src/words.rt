//! The words that call the command.

ghost use Rattle.std.specs.Prelude.{◌≡◌, ◌∷◌, [], map, IfSome, IfNone, string_bytes};
ghost use Rattle.xv_run.specs.Words.{run_words, IsNoRun};

use xv_top::Form;

/// The form of the report that the words ask for; none where they do not call the command.
pub fn form_of(words: &[String]) -> Option<Form>
    ensures found { IfSome result (λ form. map (λ w. string_bytes w) words.now ≡ run_words form) }
    ensures none { IfNone result (IsNoRun (map (λ w. string_bytes w) words.now)) }
{
    match words {
        [word] => of_one_word(word.as_str()),
        [word, more] => of_two_words(word.as_str(), more.as_str()),
        _ => None,
    }
}

fn of_one_word(word: &str) -> Option<Form>
    ensures found { IfSome result (λ form. (word.now ∷ []) ≡ run_words form) }
    ensures none { IfNone result (IsNoRun (word.now ∷ [])) }
{
    match word {
        "run" => Some(Form::Rows),
        _ => None,
    }
}

fn of_two_words(word: &str, more: &str) -> Option<Form>
    ensures found { IfSome result (λ form. (word.now ∷ more.now ∷ []) ≡ run_words form) }
    ensures none { IfNone result (IsNoRun (word.now ∷ more.now ∷ [])) }
{
    match word {
        "run" if more == "--json" => Some(Form::Json),
        _ => None,
    }
}
