// The rounds that `draw` shows.

ghost use Rattle.std.specs.Prelude.{◌≡◌, ◌∷◌, [], ℕ, option_map, IfSome, IfOk, IfErr, IsNone};
ghost use Rattle.show_picture.specs.declared.span.Span.{Span};
ghost use Rattle.cli_host.specs.Presses.{parts_of};
ghost use Rattle.cli_output.specs.Spans.{IsEnd, IsSpan, IsSpanWord, IsNoSpan, greatest_round};

use cli_host::request::number_to;
use cli_host::status::Fault;
use show_picture::Span;
use std::alloc::Global;

// The most that a word says.
const MOST: u16 = 65_535;

/// The rounds of the word after `--rounds`: `A:B`, `A:` or `:B`. Without a word all are.
pub fn span_of(alloc: Global, word: Option<&str>) -> Result<Span, Fault>
    ensures ok { IfOk result (IsSpanWord (option_map (λ w. w.now) word.entry)) }
    ensures err { IfErr result (IsNoSpan (option_map (λ w. w.now) word.entry)) }
{
    match word {
        None => Ok(Span {
            first: 1,
            last: u32::MAX,
        }),
        Some(word) => match span(word) {
            Some(span) => Ok(span),
            None => Err(Fault::BadSpan(String::from_str(alloc, word)?)),
        },
    }
}

// The rounds that a word says.
fn span(word: &str) -> Option<Span>
    ensures some { IfSome result (IsSpan word.now) }
    ensures none { IsNone result → (span : Span) → IsSpan word.now span → ⊥ }
{
    if word.len() < 2 {
        return None;
    }
    let (first, last) = word.split_once(':')?;
    let span = Span {
        first: end_of(1, first)?,
        last: end_of(u32::MAX, last)?,
    };
    if span.first > span.last {
        return None;
    }
    Some(span)
}

// The round of an end, or where none is written the one that is meant then.
fn end_of(missing: u32, word: &str) -> Option<u32>
    ensures some { IfSome result (IsEnd missing word.now) }
    ensures none { IsNone result → (round : ℕ) → IsEnd missing word.now round → ⊥ }
{
    if word.is_empty() {
        return Some(missing);
    }
    let round = number_to(MOST, word)?;
    Some(u32::from(round))
}
