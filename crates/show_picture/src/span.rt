// The rounds of a picture.

ghost use Rattle.std.specs.Prelude.{◌≡◌, ◌≤◌, ◌<◌, ◌+◌, true};

/// The rounds that a picture shows, as far as its trace has them: from `first` to `last`, counted from 1.
#[derive(Clone, Copy)]
pub struct Span {
    pub first: u32,
    pub last: u32,
}

impl Span {
    /// Those that it shows of so many rounds.
    pub fn window(self, rounds: u64) -> Window {
        let first = u64::from(self.first).max(1);
        let end = u64::from(self.last).min(rounds).saturating_add(1);
        Window {
            first,
            count: end.saturating_sub(first),
        }
    }
}

/// So many rounds, from the first on.
#[derive(Clone, Copy)]
pub struct Window {
    pub first: u64,
    pub count: u64,
}

impl Window {
    /// The round after the last.
    pub fn end(self) -> u64
        ensures { result ≤ self.first + self.count }
    {
        self.first.saturating_add(self.count)
    }

    /// Whether a round is one of them.
    pub fn has(self, round: u64) -> bool
        ensures { result ≡ true → (self.first ≤ round) × (round < self.first + self.count) }
    {
        self.first <= round && round < self.end()
    }

    /// Whether one of them is from a round on, and before another.
    pub fn meets(self, from: u64, to: u64) -> bool {
        from < self.end() && self.first < to
    }
}
