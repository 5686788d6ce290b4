// Texts, cut at a character.
ghost use Rattle.std.specs.Prelude.{◌≡◌, ◌∷◌, ◌<◌, ◌==◌, [], length, IfSome, MatchOption};
ghost use Rattle.ow_schedule.specs.Grammar.{cut_at};
ghost use Rattle.std.specs.List.{slice_split};
ghost use Rattle.std.specs.Option.{option_map_or};

/// The text before the first such character, and the text after it where there is one.
pub(crate) fn first_piece(text: &str, at: char) -> (&str, Option<&str>)
    requires { at < 128 }
    ensures split { slice_split (λ b. b == at) text.now
        ≡ result.0.now ∷ option_map_or (λ rest. slice_split (λ b. b == at) rest.now) result.1 [] }
    ensures shorter { IfSome result.1 (λ rest. length rest.now < length text.now) }
{
    match text.split_once(at) {
        Some((before, after)) => (before, Some(after)),
        None => (text, None),
    }
}

/// The texts before and after the first such character, where there is one.
pub(crate) fn cut(text: &str, at: char) -> Option<(&str, &str)>
    requires { at < 128 }
    ensures { MatchOption result (cut_at at text.now ≡ None)
        (λ x. cut_at at text.now ≡ Some (x.0.now, x.1.now)) }
{
    text.split_once(at)
}
