// Whether each option has its value.
ghost use Rattle.std.specs.Prelude.{◌≡◌, ◌∷◌, drop, map, string_bytes, true, false};
ghost use Rattle.clap.specs.Lexer.{long_of};
ghost use Rattle.ow_command_line.specs.Plain.{behind, behind_option, has_values};
ghost use Rattle.ow_command_line.specs.Words.{is_value};

use crate::option_word::option_in;

// A value isn't empty, and begins with no `-`.
fn is_value(text: &str) -> bool
    ensures { result ≡ is_value text.now }
{
    match text.as_bytes() {
        [] => false,
        [first, ..] => *first != b'-',
    }
}

// Whether an option waits for its value after a word that names one, or none where the word names none, or one with a wrong
// value.
fn behind_option(word: &str) -> Option<bool>
    ensures { result ≡ behind_option (long_of word.now) }
{
    match option_in(word) {
        None => None,
        Some((_, None)) => Some(true),
        Some((_, Some(value))) => { if is_value(value) { Some(false) } else { None } }
    }
}

// Whether an option waits for its value after this word, or none where the word isn't allowed there.
#[tactic(auto, unfolding(crate::specs::Plain::behind))]
fn behind(word: &str, waits: bool) -> Option<bool>
    ensures { result ≡ behind word.now waits }
{
    if !waits {
        return behind_option(word);
    }
    if is_value(word) { Some(false) } else { None }
}

/// Whether the words are options, each with its value.
pub(crate) fn has_values(words: &[String]) -> bool
    ensures { result ≡ has_values (map string_bytes words.now) false }
{
    let mut waits = false;
    for word in words {
        match behind(word.as_str(), waits) {
            Some(next) => waits = next,
            None => return false,
        }
    }
    !waits
}
