// The calls of ranges, and those of the standard blocks.

ghost use Rattle.std.specs.Prelude.{◌≡◌};
ghost use Rattle.ranges_interval.specs.Interval.{between};

use il_blocks::bistable::{ResetDominant, SetDominant};
use il_blocks::counters::{DownCounter, UpCounter, UpDownCounter};
use il_blocks::edges::EdgeDetector;
use il_blocks::timers::{DelayTimer, PulseTimer};
use il_syntax::tree::Comparison;
use ranges_interval::Interval;

fn range(lo: i128, hi: i128) -> Interval
    ensures { result ≡ between lo hi }
{
    Interval { lo, hi }
}

/// The lower and the upper end of each result, whether a range that is in itself does so, and the lower end of what is above 3.
pub fn ranges() -> [i128; 22] {
    let add = range(0, 9).add(range(1, 1));
    let sub = range(0, 9).sub(range(0, 9));
    let mul = range(-3, 2).mul(range(-5, 4));
    let div = range(-7, 7).div(range(2, 3));
    let remainder = range(-5, 20).mod_(range(3, 4));
    let abs = range(-32768, 32767).abs();
    let min = range(0, 9).min(range(-2, 5));
    let max = range(0, 9).max(range(-2, 5));
    let limit = Interval::limit(range(0, 0), range(-32768, 32767), range(9, 9));
    let join = range(3, 3).join(range(10, 10));
    let within = range(3, 4).within(range(3, 4));
    let above = match Interval::narrow(Comparison::Greater, true, range(0, 9), 3) {
        Some(left) => left.lo,
        None => 0,
    };
    [
        add.lo,
        add.hi,
        sub.lo,
        sub.hi,
        mul.lo,
        mul.hi,
        div.lo,
        div.hi,
        remainder.lo,
        remainder.hi,
        abs.lo,
        abs.hi,
        min.lo,
        min.hi,
        max.lo,
        max.hi,
        limit.lo,
        limit.hi,
        join.lo,
        join.hi,
        within as i128,
        above,
    ]
}

/// Q1 of SR and of RS, Q of R_TRIG and of F_TRIG.
pub fn flags() -> [i128; 4] {
    let mut set = SetDominant::new();
    set.s1 = true;
    set.sr();
    let mut reset = ResetDominant::new();
    reset.s = true;
    reset.rs();
    let mut rising = EdgeDetector::new();
    rising.clk = true;
    rising.r_trig();
    let mut falling = EdgeDetector::new();
    falling.f_trig();
    [
        set.q1 as i128,
        reset.q1 as i128,
        rising.q as i128,
        falling.q as i128,
    ]
}

/// CV of CTU, CTD and CTUD: one up, loaded with 2, one up.
pub fn counters() -> [i128; 3] {
    let mut up = UpCounter::new();
    up.cu = true;
    up.ctu();
    let mut down = DownCounter::new();
    down.pv = 2;
    down.ld = true;
    down.ctd();
    let mut both = UpDownCounter::new();
    both.cu = true;
    both.ctud();
    [up.cv as i128, down.cv as i128, both.cv as i128]
}

/// ET of a TON of a second at NOW 500, 300 and 1300, and Q of a TOF and of a TP whose inputs rise.
pub fn timers() -> [i128; 5] {
    let mut on = DelayTimer::new();
    on.input = true;
    on.pt = 1000;
    on.ton(500);
    let first = on.et;
    on.ton(300);
    let second = on.et;
    on.ton(1300);
    let mut off = DelayTimer::new();
    off.input = true;
    off.tof(500);
    let mut pulse = PulseTimer::new();
    pulse.input = true;
    pulse.pt = 1000;
    pulse.tp(500);
    [
        first as i128,
        second as i128,
        on.et as i128,
        off.q as i128,
        pulse.q as i128,
    ]
}
