//! The parts of a text between marks.

ghost use Rattle.std.specs.Prelude.{◌≡◌, ◌<◌, ◌==◌, ◌∷◌, [], length, MatchOption, IfSome};
ghost use Rattle.std.specs.List.{position, slice_split};

/// Where the first of these marks stands.
fn first_mark(mark: u16, text: &[u16]) -> Option<usize>
    ensures { result ≡ position (λ c. c == mark) text.now }
{
    text.iter().position(|c| *c == mark)
}

/// What stands in front of the first of these marks, and behind it.
pub fn part_at(mark: u16, text: &[u16]) -> Option<(&[u16], &[u16])>
    ensures cases { MatchOption result (slice_split (λ c. c == mark) text.now ≡ text.now ∷ []) (λ x. slice_split (λ c. c == mark) text.now ≡ x.0.now ∷ slice_split (λ c. c == mark) x.1.now) }
    ensures shorter { IfSome result (λ x. length x.1.now < length text.now) }
{
    match first_mark(mark, text) {
        Some(place) => Some((&text[..place], &text[place + 1..])),
        None => None,
    }
}
