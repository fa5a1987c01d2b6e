// One forward pass over places, with joins where paths meet, over whatever is kept of a place.

ghost use Rattle.std.specs.Prelude.{◌≡◌, ℕ, ◌<◌, ◌+◌, ◌^◌, Option, Some, None, option_map, IfOk, length, slice_set, true, false, Bool};
ghost use Rattle.ranges_laws.specs.Pass.{Moves, Arrived, passed, advance, merged};
ghost use Rattle.ranges_transfer.specs.Tables.{held, moved, IsAheadOf, IsInTable, target_next, Merges, Comes, IsStepped, IsFresh, IsPassed, IsAheadBelow, IsFineBelow};
ghost use Rattle.ranges_transfer.specs.Seen.{IsPassedShowing};

use crate::observer::Observer;
use std::alloc::{AllocError, Global};

/// What a place hands on: to the next place, and to another.
#[derive(Drop)]
pub struct Handed<K: Drop> {
    pub next: Option<K>,
    pub jump: Option<(usize, K)>,
}

/// What is kept of places, and what instructions make of it.
pub trait Flow {
    type Facts: Drop;

    /// What is answered of a place that is refused.
    type Refused: Drop;

    /// What holds on both of two paths, if something covers both.
    ghost join: { Self.Facts → Self.Facts → Option Self.Facts };

    /// The moves of a place, unless it is refused.
    ghost moves: { Self → ℕ → Self.Facts → Option (Moves Self.Facts) };

    /// A place that is one of its own.
    ghost holds: { Self → ℕ → Type 0 };

    /// Facts that it takes.
    ghost takes: { Self → Self.Facts → Type 0 };

    /// What is answered of a place with these facts, where it is refused.
    ghost refuses: { Self → ℕ → Self.Facts → Self.Refused → Type 0 };

    fn join(first: Self::Facts, second: Self::Facts) -> Option<Self::Facts>
        ensures { result ≡ join first second };

    fn hand_on(
        &self,
        alloc: Global,
        place: usize,
        facts: Self::Facts,
    ) -> Result<Option<Handed<Self::Facts>>, AllocError>
        requires own { holds self.now place }
        requires fine { takes self.now facts }
        ensures { IfOk result (λ m. moves self.now place facts ≡ option_map moved m) };

    /// The refusal of a place, should it be refused.
    fn refusal(&self, place: usize, facts: &Self::Facts) -> Self::Refused
        requires own { holds self.now place }
        requires fine { takes self.now facts.now }
        ensures { refuses self.now place facts.now result };
}

// What comes to a place, joined with what waits there; false where nothing covers both.
#[inline(always)]
fn arrive<F: Flow>(waiting: &mut Vec<Option<F::Facts>>, to: usize, facts: F::Facts) -> bool
    requires { to < length waiting.old.items }
    ensures { Merges F.join waiting.old.items to facts result waiting.new.items }
{
    let joined = match waiting[to].take() {
        Some(other) => F::join(other, facts),
        None => Some(facts),
    };
    let found = joined.is_some();
    waiting[to] = joined;
    found
}

// What comes to a target, if there is one.
#[inline(always)]
fn bring<F: Flow>(waiting: &mut Vec<Option<F::Facts>>, target: Option<(usize, F::Facts)>) -> bool
    requires { IsInTable (length waiting.old.items) target }
    ensures { Comes F.join target waiting.old.items result waiting.new.items }
{
    match target {
        Some((to, facts)) => arrive::<F>(waiting, to, facts),
        None => true,
    }
}

// The next place as a target.
#[inline(always)]
fn onward<K: Drop>(place: usize, next: Option<K>) -> Option<(usize, K)>
    requires { place < 9223372036854775808 }
    ensures { result ≡ target_next place next }
{
    match next {
        Some(facts) => Some((place + 1, facts)),
        None => None,
    }
}

// The pass goes over a place. One that nothing reaches hands nothing on.
#[inline(always)]
fn step<F: Flow>(
    alloc: Global,
    flow: &F,
    waiting: &mut Vec<Option<F::Facts>>,
    place: usize,
) -> Result<Option<F::Refused>, AllocError>
    requires room { place < 9223372036854775808 }
    requires low { place + 1 < length waiting.old.items }
    requires own { F.holds flow.now place }
    requires fine { (k : F.Facts) → held waiting.old.items place ≡ Some k → F.takes flow.now k }
    requires ahead { (k : F.Facts) (m : Moves F.Facts) → F.moves flow.now place k ≡ Some m
        → IsAheadOf (length waiting.old.items) place m.jump }
    ensures { IfOk result (IsStepped F.join (F.moves flow.now) (F.refuses flow.now) place
        waiting.old.items waiting.new.items) }
{
    let Some(facts) = waiting[place].take() else {
        return Ok(None);
    };
    let refusal = flow.refusal(place, &facts);
    let Some(Handed { next, jump }) = flow.hand_on(alloc, place, facts)? else {
        return Ok(Some(refusal));
    };
    if !bring::<F>(waiting, onward(place, next)) {
        return Ok(Some(refusal));
    }
    if !bring::<F>(waiting, jump) {
        return Ok(Some(refusal));
    }
    Ok(None)
}

// The table at the entry.
fn fresh<K: Drop>(alloc: Global, entry: K, count: usize) -> Result<Vec<Option<K>>, AllocError>
    requires { count < 9223372036854775808 }
    ensures { IfOk result (λ table. IsFresh entry count table.items) }
{
    let mut table = Vec::with_capacity(alloc, count + 1)?;
    table.push(Some(entry))?;
    for _ in 0..count {
        table.push(None)?;
    }
    Ok(table)
}

/// Goes over so many places before an observer, from the first on, until one is refused.
pub fn pass<F: Flow, O: Observer<F::Facts>>(
    alloc: Global,
    flow: &F,
    entry: F::Facts,
    count: usize,
    observer: &mut O,
) -> Result<Option<F::Refused>, AllocError>
    requires room { count < 9223372036854775808 }
    requires own { (place : ℕ) → place < count → F.holds flow.now place }
    requires ahead { IsAheadBelow (F.moves flow.now) count }
    requires fine { IsFineBelow F.join (F.moves flow.now) (F.takes flow.now) entry count }
    ensures passed { IfOk result (IsPassed F.join (F.moves flow.now) (F.refuses flow.now) entry
        count) }
    ensures shown { IfOk result (IsPassedShowing F.join (F.moves flow.now) (F.refuses flow.now)
        entry count (O.shows observer.old) (O.text observer.old) (O.text observer.new)) }
{
    let mut waiting = fresh(alloc, entry, count)?;
    for place in 0..count {
        observer.see(place, &waiting[place])?;
        let refused = step(alloc, flow, &mut waiting, place)?;
        if refused.is_some() {
            return Ok(refused);
        }
    }
    Ok(None)
}
