// A word that names an option.
ghost use Rattle.std.specs.Prelude.{◌≡◌, Some, None, option_map};
ghost use Rattle.clap.specs.Lexer.{long_of, name_and_value, strip_byte};

// What follows a first `-`.
fn after_dash(word: &str) -> Option<&str>
    ensures { option_map (λ rest. rest.now) result ≡ strip_byte 45 word.now }
{
    word.strip_prefix('-')
}

// What comes before the first `=`, and what comes after it, if there is one.
fn name_and_value(text: &str) -> (&str, Option<&str>)
    ensures { (result.0.now, option_map (λ value. value.now) result.1) ≡ name_and_value text.now }
{
    match text.split_once('=') {
        Some((name, value)) => (name, Some(value)),
        None => (text, None),
    }
}

/// The option that a word names, `--x` or `--x=V`, and its value where the word has one.
pub(crate) fn option_in(word: &str) -> Option<(&str, Option<&str>)>
    ensures { option_map (λ p. (p.0.now, option_map (λ value. value.now) p.1)) result ≡ long_of word.now }
{
    let rest = after_dash(after_dash(word)?)?;
    if rest.is_empty() {
        return None;
    }
    Some(name_and_value(rest))
}
