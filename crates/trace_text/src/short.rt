// The lines of most events, read at once.

ghost use Rattle.std.specs.Prelude.{◌≡◌, ℕ, ◌∷◌, ◌++◌, IfSome};
ghost use Rattle.trace_text.specs.declared.format.Format.{Format};
ghost use Rattle.trace_text.specs.Text.{line_of, IsTraced};
ghost use Rattle.trace_text.specs.Parts.{short_event};

use group_spec::trace::TraceEvent;

// What a short line tells: that the scan of a task of one digit starts, or commits.
#[derive(Clone, Copy)]
pub(crate) enum Short {
    Start(u8),
    Commit(u8),
}

impl Short {
    #[inline(always)]
    pub(crate) fn event(self) -> TraceEvent
        ensures { result ≡ short_event self }
    {
        match self {
            Short::Start(task) => TraceEvent::Start(task),
            Short::Commit(task) => TraceEvent::Commit(task),
        }
    }
}

// A short line at the front, and what follows its line feed. It is read without a search for its end.
#[inline(always)]
pub(crate) fn short_line(text: &[u8]) -> Option<(Short, &[u8])>
    ensures { (format : Format) (cars : ℕ)
        → IfSome result (λ p. IsTraced format cars (short_event p.0)
        × (text.now ≡ line_of format (short_event p.0) ++ (10 ∷ p.1.now))) }
{
    match text {
        [b'S', b' ', digit @ b'0'..=b'9', b'\n', rest @ ..] => {
            Some((Short::Start(*digit - b'0'), rest))
        }
        [b'C', b' ', digit @ b'0'..=b'9', b'\n', rest @ ..] => {
            Some((Short::Commit(*digit - b'0'), rest))
        }
        _ => None,
    }
}
