//! Ranges of integers, and what an operation makes of them.
#![tactic(auto)]

ghost use Rattle.std.specs.Prelude.{IfSome, Bool, cond, ◌≡◌, ◌≢◌, ◌↔◌, IsTrue, ℤ, pos, ◌+ℤ◌, ◌-ℤ◌, ◌*ℤ◌, ◌≤ℤ◌, int_div, int_rem};
ghost use Rattle.std.specs.Int.{int_min, int_max};
ghost use Rattle.ranges_interval.specs.declared.Interval.{Interval};
ghost use Rattle.ranges_interval.specs.Interval.{IsIn, IsWithin, IsOrdered, IsWithoutZero, IsEnd, IsOperand, interval_add, interval_sub, span, interval_mul, interval_div, greatest_remainder, interval_mod, interval_abs, interval_min, interval_max, interval_limit, interval_join};
ghost use Rattle.ranges_interval.specs.Compared.{integer_equal, unless_empty, at_least, at_most, equal_to, other_than, interval_narrow, LeavesAll, LeavesOnly, LeavesLeast, GrowsNarrowed};
ghost use Rattle.ranges_interval.specs.Held.{absolute, limited, Holds1, Holds, Holds3, IsLeast1, IsLeast, IsLeast3, Grows1, Grows, GrowsWithoutZero, Grows3};
ghost use Rattle.il_syntax.specs.declared.tree.Comparison.{Comparison as Comparing};
ghost use Rattle.il_syntax.specs.declared.tree.Comparison.TheVariants.{Greater, GreaterOrEqual, Equal};

use il_syntax::tree::Comparison;

/// The integers from `lo` to `hi`, both included: none where `lo` is above `hi` (own rule). An operand has a number, and
/// its ends lie from -2147483648, the least DINT, to 4294967295, the greatest UDINT.
#[derive(Clone, Copy, PartialEq, Eq, Debug)]
pub struct Interval {
    pub lo: i128,
    pub hi: i128,
}

// The product of two ends.
fn product(x: i128, y: i128) -> i128
    requires first { IsEnd x }
    requires second { IsEnd y }
    ensures { result ≡ x *ℤ y }
{
    x * y
}

// The quotient of two ends, rounded toward 0.
fn quotient(x: i128, y: i128) -> i128
    requires first { IsEnd x }
    requires second { IsEnd y }
    requires nonzero { y ≢ pos 0 }
    ensures { result ≡ int_div x y }
{
    x / y
}

// From the least to the greatest of four numbers.
fn span(a: i128, b: i128, c: i128, d: i128) -> Interval
    ensures { result ≡ span a b c d }
{
    Interval {
        lo: a.min(b).min(c.min(d)),
        hi: a.max(b).max(c.max(d)),
    }
}

// The greatest size of a remainder by a divisor of the range.
fn greatest_remainder(divisor: Interval) -> i128
    requires { IsOperand divisor }
    ensures { result ≡ greatest_remainder divisor }
{
    divisor.lo.abs().max(divisor.hi.abs()) - 1
}

// The range, unless it is empty.
fn unless_empty(range: Interval) -> Option<Interval>
    ensures { result ≡ unless_empty range }
{
    if range.lo <= range.hi {
        Some(range)
    } else {
        None
    }
}

// The numbers of a range from one on.
fn at_least(range: Interval, number: i128) -> Option<Interval>
    ensures { result ≡ at_least range number }
{
    unless_empty(Interval {
        lo: range.lo.max(number),
        hi: range.hi,
    })
}

// The numbers of a range up to one.
fn at_most(range: Interval, number: i128) -> Option<Interval>
    ensures { result ≡ at_most range number }
{
    unless_empty(Interval {
        lo: range.lo,
        hi: range.hi.min(number),
    })
}

// One number of a range.
fn equal_to(range: Interval, number: i128) -> Option<Interval>
    ensures { result ≡ equal_to range number }
{
    if range.lo <= number && number <= range.hi {
        Some(Interval {
            lo: number,
            hi: number,
        })
    } else {
        None
    }
}

// A lower end after a number, if it is that number.
#[tactic(auto, using(crate::proofs::Outcomes::cond_yes, crate::proofs::Outcomes::cond_no))]
fn end_above(lo: i128, number: i128) -> i128
    requires { IsEnd lo }
    ensures { result ≡ cond (integer_equal lo number) (lo +ℤ pos 1) lo }
{
    if lo == number { lo + 1 } else { lo }
}

// An upper end before a number, if it is that number.
#[tactic(auto, using(crate::proofs::Outcomes::cond_yes, crate::proofs::Outcomes::cond_no))]
fn end_below(hi: i128, number: i128) -> i128
    requires { IsEnd hi }
    ensures { result ≡ cond (integer_equal hi number) (hi -ℤ pos 1) hi }
{
    if hi == number { hi - 1 } else { hi }
}

// The numbers of a range but one, which only an end can lose.
fn other_than(range: Interval, number: i128) -> Option<Interval>
    requires { IsOperand range }
    ensures { result ≡ other_than range number }
{
    unless_empty(Interval {
        lo: end_above(range.lo, number),
        hi: end_below(range.hi, number),
    })
}

// What GT leaves.
fn greater(range: Interval, number: i128, holds: bool) -> Option<Interval>
    requires { IsEnd number }
    ensures { result ≡ interval_narrow Greater holds range number }
{
    if holds {
        at_least(range, number + 1)
    } else {
        at_most(range, number)
    }
}

// What GE leaves.
fn greater_or_equal(range: Interval, number: i128, holds: bool) -> Option<Interval>
    requires { IsEnd number }
    ensures { result ≡ interval_narrow GreaterOrEqual holds range number }
{
    if holds {
        at_least(range, number)
    } else {
        at_most(range, number - 1)
    }
}

// What EQ leaves.
fn equal(range: Interval, number: i128, holds: bool) -> Option<Interval>
    requires { IsOperand range }
    ensures { result ≡ interval_narrow Equal holds range number }
{
    if holds {
        equal_to(range, number)
    } else {
        other_than(range, number)
    }
}

// What a comparison leaves.
fn narrowed(comparison: Comparison, holds: bool, range: Interval, number: i128) -> Option<Interval>
    requires range_operand { IsOperand range }
    requires number_end { IsEnd number }
    ensures { result ≡ interval_narrow comparison holds range number }
{
    match comparison {
        Comparison::Greater => greater(range, number, holds),
        Comparison::LessOrEqual => greater(range, number, !holds),
        Comparison::GreaterOrEqual => greater_or_equal(range, number, holds),
        Comparison::Less => greater_or_equal(range, number, !holds),
        Comparison::Equal => equal(range, number, holds),
        Comparison::NotEqual => equal(range, number, !holds),
    }
}

impl Interval {
    /// The range of ADD (own rule).
    pub fn add(self, other: Interval) -> Interval
        requires self_operand { IsOperand self }
        requires other_operand { IsOperand other }
        ensures value { result ≡ interval_add self other }
        ensures ordered { IsOrdered result }
        ensures holds { Holds ◌+ℤ◌ self other result }
        ensures least { IsLeast ◌+ℤ◌ self other result }
    {
        Interval {
            lo: self.lo + other.lo,
            hi: self.hi + other.hi,
        }
    }

    /// The range of SUB (own rule).
    pub fn sub(self, other: Interval) -> Interval
        requires self_operand { IsOperand self }
        requires other_operand { IsOperand other }
        ensures value { result ≡ interval_sub self other }
        ensures ordered { IsOrdered result }
        ensures holds { Holds ◌-ℤ◌ self other result }
        ensures least { IsLeast ◌-ℤ◌ self other result }
    {
        Interval {
            lo: self.lo - other.hi,
            hi: self.hi - other.lo,
        }
    }

    /// The range of MUL (own rule).
    pub fn mul(self, other: Interval) -> Interval
        requires self_operand { IsOperand self }
        requires other_operand { IsOperand other }
        ensures value { result ≡ interval_mul self other }
        ensures ordered { IsOrdered result }
        ensures holds { Holds ◌*ℤ◌ self other result }
        ensures least { IsLeast ◌*ℤ◌ self other result }
    {
        span(
            product(self.lo, other.lo),
            product(self.lo, other.hi),
            product(self.hi, other.lo),
            product(self.hi, other.hi),
        )
    }

    /// The range of DIV, which rounds toward 0, by a divisor without 0 (own rule).
    pub fn div(self, divisor: Interval) -> Interval
        requires self_operand { IsOperand self }
        requires divisor_operand { IsOperand divisor }
        requires without_zero { IsWithoutZero divisor }
        ensures value { result ≡ interval_div self divisor }
        ensures ordered { IsOrdered result }
        ensures holds { Holds int_div self divisor result }
        ensures least { IsLeast int_div self divisor result }
    {
        span(
            quotient(self.lo, divisor.lo),
            quotient(self.lo, divisor.hi),
            quotient(self.hi, divisor.lo),
            quotient(self.hi, divisor.hi),
        )
    }

    /// The range of MOD, whose sign is the dividend's, by a divisor without 0 (own rule). It holds all remainders; its
    /// ends need not be reached.
    pub fn mod_(self, divisor: Interval) -> Interval
        requires self_operand { IsOperand self }
        requires divisor_operand { IsOperand divisor }
        requires without_zero { IsWithoutZero divisor }
        ensures value { result ≡ interval_mod self divisor }
        ensures operand { IsOperand result }
        ensures holds { Holds int_rem self divisor result }
    {
        let most = greatest_remainder(divisor);
        Interval {
            lo: self.lo.max(-most).min(0),
            hi: self.hi.min(most).max(0),
        }
    }

    /// The range of ABS (own rule).
    pub fn abs(self) -> Interval
        requires { IsOperand self }
        ensures value { result ≡ interval_abs self }
        ensures operand { IsOperand result }
        ensures holds { Holds1 absolute self result }
        ensures least { IsLeast1 absolute self result }
    {
        if 0 <= self.lo {
            self
        } else if self.hi <= 0 {
            Interval {
                lo: -self.hi,
                hi: -self.lo,
            }
        } else {
            Interval {
                lo: 0,
                hi: (-self.lo).max(self.hi),
            }
        }
    }

    /// The range of MIN (own rule).
    pub fn min(self, other: Interval) -> Interval
        requires self_operand { IsOperand self }
        requires other_operand { IsOperand other }
        ensures value { result ≡ interval_min self other }
        ensures operand { IsOperand result }
        ensures holds { Holds int_min self other result }
        ensures least { IsLeast int_min self other result }
    {
        Interval {
            lo: self.lo.min(other.lo),
            hi: self.hi.min(other.hi),
        }
    }

    /// The range of MAX (own rule).
    pub fn max(self, other: Interval) -> Interval
        requires self_operand { IsOperand self }
        requires other_operand { IsOperand other }
        ensures value { result ≡ interval_max self other }
        ensures operand { IsOperand result }
        ensures holds { Holds int_max self other result }
        ensures least { IsLeast int_max self other result }
    {
        Interval {
            lo: self.lo.max(other.lo),
            hi: self.hi.max(other.hi),
        }
    }

    /// The range of LIMIT(MN, IN, MX), which is MIN(MAX(IN, MN), MX), also where MN is above MX (own rule).
    pub fn limit(least: Interval, input: Interval, most: Interval) -> Interval
        requires least_operand { IsOperand least }
        requires input_operand { IsOperand input }
        requires most_operand { IsOperand most }
        ensures value { result ≡ interval_limit least input most }
        ensures operand { IsOperand result }
        ensures holds { Holds3 limited least input most result }
        ensures least { IsLeast3 limited least input most result }
    {
        input.max(least).min(most)
    }

    /// The least range that both lie in, as of SEL (own rule).
    pub fn join(self, other: Interval) -> Interval
        requires self_operand { IsOperand self }
        requires other_operand { IsOperand other }
        ensures value { result ≡ interval_join self other }
        ensures operand { IsOperand result }
        ensures holds_self { IsWithin self result }
        ensures holds_other { IsWithin other result }
        ensures least { (s : Interval) → IsWithin self s → IsWithin other s → IsWithin result s }
    {
        Interval {
            lo: self.min(other).lo,
            hi: self.max(other).hi,
        }
    }

    /// What is left of a range where its numbers compare so with `number`, as GT is `range > number`; none where no number
    /// does (own rule). Amid the others of NE, and of EQ that does not hold, `number` itself is kept.
    pub fn narrow(
        comparison: Comparison,
        holds: bool,
        range: Interval,
        number: i128,
    ) -> Option<Interval>
        requires range_operand { IsOperand range }
        requires number_end { IsEnd number }
        ensures value { result ≡ interval_narrow comparison holds range number }
        ensures operand { IfSome result (λ r. IsOperand r) }
        ensures all { LeavesAll comparison holds range number result }
        ensures only { LeavesOnly comparison holds range number result }
        ensures least { LeavesLeast comparison holds range number result }
    {
        narrowed(comparison, holds, range, number)
    }

    /// Whether this range lies in the other, by their ends (own rule).
    pub fn within(self, other: Interval) -> bool
        ensures ends { IsTrue result ↔ IsWithin self other }
        ensures numbers { IsOrdered self → (IsTrue result
            ↔ ((z : ℤ) → IsIn self z → IsIn other z)) }
    {
        other.lo <= self.lo && self.hi <= other.hi
    }
}

/// A law: the range of each operation grows with the ranges of its operands.
pub fn ranges_grow()
    ensures add { Grows interval_add }
    ensures sub { Grows interval_sub }
    ensures mul { Grows interval_mul }
    ensures div { GrowsWithoutZero interval_div }
    ensures mod_ { GrowsWithoutZero interval_mod }
    ensures abs { Grows1 interval_abs }
    ensures min { Grows interval_min }
    ensures max { Grows interval_max }
    ensures limit { Grows3 interval_limit }
    ensures join { Grows interval_join }
    ensures narrow { (comparison : Comparing) (holds : Bool) (c : ℤ)
        → GrowsNarrowed (λ i. interval_narrow comparison holds i c) }
{}
