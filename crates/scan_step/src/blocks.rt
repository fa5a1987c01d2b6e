// Calls of the standard blocks (IEC 61131-3:2003, 2.5.2.3). The variables of an instance are in the order of its
// inputs, outputs and inner ones.

ghost use Rattle.std.specs.Prelude.{◌≡◌, ◌+◌, [], IsSome, Some, None, pos};
ghost use Rattle.il_syntax.specs.declared.tree.Elementary.TheVariants.{Int, Time};
ghost use Rattle.load_slots.specs.Layout.{rows};
ghost use Rattle.il_statics.specs.declared.names.StandardBlock.TheVariants.{Sr, Rs, RTrig, FTrig, Ctu, Ctd, Ctud, Tp, Ton, Tof};
ghost use Rattle.scan_step.specs.Blocks.{set_dominant_at, reset_dominant_at, detector_at, put_detector, up_counter_at, down_counter_at, put_counter, up_down_counter_at, put_up_down_counter, delay_timer_at, put_delay_timer, pulse_timer_at, put_pulse_timer, count_at, put_flag as flag_put, put_count, block_at, now_behind};

use crate::rows::{flag, milliseconds, narrow, number};
use il_blocks::bistable::{ResetDominant, SetDominant};
use il_blocks::counters::{DownCounter, UpCounter, UpDownCounter};
use il_blocks::edges::EdgeDetector;
use il_blocks::timers::{DelayTimer, PulseTimer};
use il_statics::names::StandardBlock;

// The INT of a word of an instance.
#[inline(always)]
fn count(numbers: &[i64], at: usize, offset: usize) -> i16
    requires { IsSome (count_at Int (rows numbers.now []) (at + offset)) }
    ensures { count_at Int (rows numbers.now []) (at + offset) ≡ Some result }
{
    narrow(number(numbers, at, offset))
}

// The TIME of a word of an instance, in milliseconds.
#[inline(always)]
fn time(numbers: &[i64], at: usize, offset: usize) -> u32
    requires { IsSome (count_at Time (rows numbers.now []) (at + offset)) }
    ensures { count_at Time (rows numbers.now []) (at + offset) ≡ Some (pos result) }
{
    milliseconds(number(numbers, at, offset))
}

// Gives a word of an instance a Boolean.
#[inline(always)]
fn put_flag(numbers: &[i64], flags: &mut [bool], at: usize, offset: usize, value: bool)
    requires { IsSome (flag_put value (rows numbers.now flags.old) (at + offset)) }
    ensures { flag_put value (rows numbers.now flags.old) (at + offset)
        ≡ Some (rows numbers.now flags.new) }
{
    let _numbers = numbers;
    flags[at + offset] = value;
}

// Gives a word of an instance a number.
#[inline(always)]
fn put_number(numbers: &mut [i64], flags: &[bool], at: usize, offset: usize, value: i64)
    requires { IsSome (put_count value (rows numbers.old flags.now) (at + offset)) }
    ensures { put_count value (rows numbers.old flags.now) (at + offset)
        ≡ Some (rows numbers.new flags.now) }
{
    let _flags = flags;
    numbers[at + offset] = value;
}

#[inline(always)]
fn set_dominant(numbers: &[i64], flags: &[bool], at: usize) -> SetDominant
    requires { IsSome (set_dominant_at (rows numbers.now flags.now) at) }
    ensures { set_dominant_at (rows numbers.now flags.now) at ≡ Some result }
{
    SetDominant {
        s1: flag(flags, at, 0),
        r: flag(flags, at, 1),
        q1: flag(flags, at, 2),
    }
}

#[inline(always)]
fn reset_dominant(numbers: &[i64], flags: &[bool], at: usize) -> ResetDominant
    requires { IsSome (reset_dominant_at (rows numbers.now flags.now) at) }
    ensures { reset_dominant_at (rows numbers.now flags.now) at ≡ Some result }
{
    ResetDominant {
        s: flag(flags, at, 0),
        r1: flag(flags, at, 1),
        q1: flag(flags, at, 2),
    }
}

#[inline(always)]
fn detector(numbers: &[i64], flags: &[bool], at: usize) -> EdgeDetector
    requires { IsSome (detector_at (rows numbers.now flags.now) at) }
    ensures { detector_at (rows numbers.now flags.now) at ≡ Some result }
{
    EdgeDetector {
        clk: flag(flags, at, 0),
        q: flag(flags, at, 1),
        m: flag(flags, at, 2),
    }
}

#[inline(always)]
fn put_detector(numbers: &mut [i64], flags: &mut [bool], at: usize, block: EdgeDetector)
    requires { IsSome (put_detector block (rows numbers.old flags.old) at) }
    ensures { put_detector block (rows numbers.old flags.old) at
        ≡ Some (rows numbers.new flags.new) }
{
    put_flag(numbers, flags, at, 1, block.q);
    put_flag(numbers, flags, at, 2, block.m);
}

#[inline(always)]
fn up_counter(numbers: &[i64], flags: &[bool], at: usize) -> UpCounter
    requires { IsSome (up_counter_at (rows numbers.now flags.now) at) }
    ensures { up_counter_at (rows numbers.now flags.now) at ≡ Some result }
{
    UpCounter {
        cu: flag(flags, at, 0),
        r: flag(flags, at, 1),
        pv: count(numbers, at, 2),
        q: flag(flags, at, 3),
        cv: count(numbers, at, 4),
        m: flag(flags, at, 5),
    }
}

#[inline(always)]
fn down_counter(numbers: &[i64], flags: &[bool], at: usize) -> DownCounter
    requires { IsSome (down_counter_at (rows numbers.now flags.now) at) }
    ensures { down_counter_at (rows numbers.now flags.now) at ≡ Some result }
{
    DownCounter {
        cd: flag(flags, at, 0),
        ld: flag(flags, at, 1),
        pv: count(numbers, at, 2),
        q: flag(flags, at, 3),
        cv: count(numbers, at, 4),
        m: flag(flags, at, 5),
    }
}

// The output, the count and the last edge of a counter one way.
#[inline(always)]
fn put_counter(numbers: &mut [i64], flags: &mut [bool], at: usize, q: bool, cv: i16, m: bool)
    requires { IsSome (put_counter q cv m (rows numbers.old flags.old) at) }
    ensures { put_counter q cv m (rows numbers.old flags.old) at
        ≡ Some (rows numbers.new flags.new) }
{
    put_flag(numbers, flags, at, 3, q);
    put_number(numbers, flags, at, 4, i64::from(cv));
    put_flag(numbers, flags, at, 5, m);
}

#[inline(always)]
fn up_down_counter(numbers: &[i64], flags: &[bool], at: usize) -> UpDownCounter
    requires { IsSome (up_down_counter_at (rows numbers.now flags.now) at) }
    ensures { up_down_counter_at (rows numbers.now flags.now) at ≡ Some result }
{
    UpDownCounter {
        cu: flag(flags, at, 0),
        cd: flag(flags, at, 1),
        r: flag(flags, at, 2),
        ld: flag(flags, at, 3),
        pv: count(numbers, at, 4),
        qu: flag(flags, at, 5),
        qd: flag(flags, at, 6),
        cv: count(numbers, at, 7),
        mu: flag(flags, at, 8),
        md: flag(flags, at, 9),
    }
}

#[inline(always)]
fn put_up_down_counter(numbers: &mut [i64], flags: &mut [bool], at: usize, block: UpDownCounter)
    requires { IsSome (put_up_down_counter block (rows numbers.old flags.old) at) }
    ensures { put_up_down_counter block (rows numbers.old flags.old) at
        ≡ Some (rows numbers.new flags.new) }
{
    put_flag(numbers, flags, at, 5, block.qu);
    put_flag(numbers, flags, at, 6, block.qd);
    put_number(numbers, flags, at, 7, i64::from(block.cv));
    put_flag(numbers, flags, at, 8, block.mu);
    put_flag(numbers, flags, at, 9, block.md);
}

#[inline(always)]
fn delay_timer(numbers: &[i64], flags: &[bool], at: usize) -> DelayTimer
    requires { IsSome (delay_timer_at (rows numbers.now flags.now) at) }
    ensures { delay_timer_at (rows numbers.now flags.now) at ≡ Some result }
{
    DelayTimer {
        input: flag(flags, at, 0),
        pt: time(numbers, at, 1),
        q: flag(flags, at, 2),
        et: time(numbers, at, 3),
        run: flag(flags, at, 4),
        last: time(numbers, at, 5),
    }
}

#[inline(always)]
fn put_delay_timer(numbers: &mut [i64], flags: &mut [bool], at: usize, block: DelayTimer)
    requires { IsSome (put_delay_timer block (rows numbers.old flags.old) at) }
    ensures { put_delay_timer block (rows numbers.old flags.old) at
        ≡ Some (rows numbers.new flags.new) }
{
    put_flag(numbers, flags, at, 2, block.q);
    put_number(numbers, flags, at, 3, i64::from(block.et));
    put_flag(numbers, flags, at, 4, block.run);
    put_number(numbers, flags, at, 5, i64::from(block.last));
}

#[inline(always)]
fn pulse_timer(numbers: &[i64], flags: &[bool], at: usize) -> PulseTimer
    requires { IsSome (pulse_timer_at (rows numbers.now flags.now) at) }
    ensures { pulse_timer_at (rows numbers.now flags.now) at ≡ Some result }
{
    PulseTimer {
        input: flag(flags, at, 0),
        pt: time(numbers, at, 1),
        q: flag(flags, at, 2),
        et: time(numbers, at, 3),
        run: flag(flags, at, 4),
        m: flag(flags, at, 5),
        last: time(numbers, at, 6),
    }
}

#[inline(always)]
fn put_pulse_timer(numbers: &mut [i64], flags: &mut [bool], at: usize, block: PulseTimer)
    requires { IsSome (put_pulse_timer block (rows numbers.old flags.old) at) }
    ensures { put_pulse_timer block (rows numbers.old flags.old) at
        ≡ Some (rows numbers.new flags.new) }
{
    put_flag(numbers, flags, at, 2, block.q);
    put_number(numbers, flags, at, 3, i64::from(block.et));
    put_flag(numbers, flags, at, 4, block.run);
    put_flag(numbers, flags, at, 5, block.m);
    put_number(numbers, flags, at, 6, i64::from(block.last));
}

// SR
#[inline(always)]
fn call_sr(numbers: &mut [i64], flags: &mut [bool], at: usize)
    requires { IsSome (block_at Sr None (rows numbers.old flags.old) at) }
    ensures { block_at Sr None (rows numbers.old flags.old) at ≡ Some (rows numbers.new flags.new) }
{
    let mut block = set_dominant(numbers, flags, at);
    block.sr();
    put_flag(numbers, flags, at, 2, block.q1);
}

// RS
#[inline(always)]
fn call_rs(numbers: &mut [i64], flags: &mut [bool], at: usize)
    requires { IsSome (block_at Rs None (rows numbers.old flags.old) at) }
    ensures { block_at Rs None (rows numbers.old flags.old) at ≡ Some (rows numbers.new flags.new) }
{
    let mut block = reset_dominant(numbers, flags, at);
    block.rs();
    put_flag(numbers, flags, at, 2, block.q1);
}

// R_TRIG
#[inline(always)]
fn call_r_trig(numbers: &mut [i64], flags: &mut [bool], at: usize)
    requires { IsSome (block_at RTrig None (rows numbers.old flags.old) at) }
    ensures { block_at RTrig None (rows numbers.old flags.old) at
        ≡ Some (rows numbers.new flags.new) }
{
    let mut block = detector(numbers, flags, at);
    block.r_trig();
    put_detector(numbers, flags, at, block);
}

// F_TRIG
#[inline(always)]
fn call_f_trig(numbers: &mut [i64], flags: &mut [bool], at: usize)
    requires { IsSome (block_at FTrig None (rows numbers.old flags.old) at) }
    ensures { block_at FTrig None (rows numbers.old flags.old) at
        ≡ Some (rows numbers.new flags.new) }
{
    let mut block = detector(numbers, flags, at);
    block.f_trig();
    put_detector(numbers, flags, at, block);
}

// CTU
#[inline(always)]
fn call_ctu(numbers: &mut [i64], flags: &mut [bool], at: usize)
    requires { IsSome (block_at Ctu None (rows numbers.old flags.old) at) }
    ensures { block_at Ctu None (rows numbers.old flags.old) at
        ≡ Some (rows numbers.new flags.new) }
{
    let mut block = up_counter(numbers, flags, at);
    block.ctu();
    put_counter(numbers, flags, at, block.q, block.cv, block.m);
}

// CTD
#[inline(always)]
fn call_ctd(numbers: &mut [i64], flags: &mut [bool], at: usize)
    requires { IsSome (block_at Ctd None (rows numbers.old flags.old) at) }
    ensures { block_at Ctd None (rows numbers.old flags.old) at
        ≡ Some (rows numbers.new flags.new) }
{
    let mut block = down_counter(numbers, flags, at);
    block.ctd();
    put_counter(numbers, flags, at, block.q, block.cv, block.m);
}

// CTUD
#[inline(always)]
fn call_ctud(numbers: &mut [i64], flags: &mut [bool], at: usize)
    requires { IsSome (block_at Ctud None (rows numbers.old flags.old) at) }
    ensures { block_at Ctud None (rows numbers.old flags.old) at
        ≡ Some (rows numbers.new flags.new) }
{
    let mut block = up_down_counter(numbers, flags, at);
    block.ctud();
    put_up_down_counter(numbers, flags, at, block);
}

// TP
#[inline(always)]
fn call_tp(numbers: &mut [i64], flags: &mut [bool], now: u32, at: usize)
    requires { IsSome (block_at Tp (Some (pos now)) (rows numbers.old flags.old) at) }
    ensures { block_at Tp (Some (pos now)) (rows numbers.old flags.old) at
        ≡ Some (rows numbers.new flags.new) }
{
    let mut block = pulse_timer(numbers, flags, at);
    block.tp(now);
    put_pulse_timer(numbers, flags, at, block);
}

// TON
#[inline(always)]
fn call_ton(numbers: &mut [i64], flags: &mut [bool], now: u32, at: usize)
    requires { IsSome (block_at Ton (Some (pos now)) (rows numbers.old flags.old) at) }
    ensures { block_at Ton (Some (pos now)) (rows numbers.old flags.old) at
        ≡ Some (rows numbers.new flags.new) }
{
    let mut block = delay_timer(numbers, flags, at);
    block.ton(now);
    put_delay_timer(numbers, flags, at, block);
}

// TOF
#[inline(always)]
fn call_tof(numbers: &mut [i64], flags: &mut [bool], now: u32, at: usize)
    requires { IsSome (block_at Tof (Some (pos now)) (rows numbers.old flags.old) at) }
    ensures { block_at Tof (Some (pos now)) (rows numbers.old flags.old) at
        ≡ Some (rows numbers.new flags.new) }
{
    let mut block = delay_timer(numbers, flags, at);
    block.tof(now);
    put_delay_timer(numbers, flags, at, block);
}

// NOW, in milliseconds, at a slot of rows of which some are in front.
#[inline(always)]
fn now_at(front: &[i64], numbers: &[i64], clock: usize) -> u32
    requires { IsSome (now_behind front.now clock numbers.now) }
    ensures { now_behind front.now clock numbers.now ≡ Some (pos result) }
{
    if clock < front.len() {
        milliseconds(front[clock])
    } else {
        milliseconds(numbers[clock - front.len()])
    }
}

/// A call of the block of an instance at a base, once its inputs are assigned, on the rows after some in front. NOW is at a
/// slot of its own, counted from the first in front.
#[inline(always)]
pub fn call_block(
    front: &[i64],
    numbers: &mut [i64],
    flags: &mut [bool],
    block: StandardBlock,
    clock: usize,
    at: usize,
)
    requires { IsSome (block_at block (now_behind front.now clock numbers.old)
        (rows numbers.old flags.old) at) }
    ensures { block_at block (now_behind front.now clock numbers.old)
        (rows numbers.old flags.old) at
        ≡ Some (rows numbers.new flags.new) }
{
    match block {
        StandardBlock::Sr => call_sr(numbers, flags, at),
        StandardBlock::Rs => call_rs(numbers, flags, at),
        StandardBlock::RTrig => call_r_trig(numbers, flags, at),
        StandardBlock::FTrig => call_f_trig(numbers, flags, at),
        StandardBlock::Ctu => call_ctu(numbers, flags, at),
        StandardBlock::Ctd => call_ctd(numbers, flags, at),
        StandardBlock::Ctud => call_ctud(numbers, flags, at),
        StandardBlock::Tp => call_tp(numbers, flags, now_at(front, numbers, clock), at),
        StandardBlock::Ton => call_ton(numbers, flags, now_at(front, numbers, clock), at),
        StandardBlock::Tof => call_tof(numbers, flags, now_at(front, numbers, clock), at),
    }
}
