// Texts in lines.

ghost use Rattle.std.specs.Prelude.{◌≡◌, ◌∷◌, ◌<◌, Some, length, option_map, MatchOption};
ghost use Rattle.std.specs.List.{before_first, after_first};
ghost use Rattle.show_refusal.specs.Pieces.{is_feed, feed_place, lines_left};

// What comes before the first line feed and what follows it.
fn parts(text: &str) -> Option<(&str, &str)>
    ensures { MatchOption result (feed_place text.now ≡ length text.now)
        (λ x. (feed_place text.now < length text.now)
        × (x.0.now ≡ before_first is_feed text.now)
        × (x.1.now ≡ after_first is_feed text.now)) }
{
    text.split_once('\n')
}

/// The first line, and what is left after it.
pub fn first_line(text: &str) -> (&str, Option<&str>)
    ensures { lines_left (Some text.now)
        ≡ result.0.now ∷ lines_left (option_map (λ left. left.now) result.1) }
{
    match parts(text) {
        Some((line, left)) => (line, Some(left)),
        None => (text, None),
    }
}
