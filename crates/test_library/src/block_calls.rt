// Worked calls of the blocks.

use il_blocks::bistable::{ResetDominant, SetDominant};
use il_blocks::counters::{DownCounter, UpCounter, UpDownCounter};
use il_blocks::edges::EdgeDetector;
use il_blocks::timers::{DelayTimer, PulseTimer};

// S1, R; Q1
#[test]
fn sr_is_set_dominant(rt: HostRuntime) {
    let mut block = SetDominant::new();
    for (s1, r, q1) in [
        (false, false, false),
        (true, false, true),
        (false, false, true),
        (false, true, false),
        (true, true, true),
    ] {
        block.s1 = s1;
        block.r = r;
        block.sr();
        assert!(rt; block.q1 == q1);
    }
}

// S, R1; Q1
#[test]
fn rs_is_reset_dominant(rt: HostRuntime) {
    let mut block = ResetDominant::new();
    for (s, r1, q1) in [
        (false, false, false),
        (true, false, true),
        (false, false, true),
        (false, true, false),
        (true, true, false),
    ] {
        block.s = s;
        block.r1 = r1;
        block.rs();
        assert!(rt; block.q1 == q1);
    }
}

// CLK; Q
#[test]
fn edges_show_for_one_call(rt: HostRuntime) {
    let mut rising = EdgeDetector::new();
    for (clk, q) in [(true, true), (true, false), (false, false), (true, true)] {
        rising.clk = clk;
        rising.r_trig();
        assert!(rt; rising.q == q);
    }
    // a first call with CLK FALSE is an edge
    let mut falling = EdgeDetector::new();
    for (clk, q) in [(false, true), (false, false), (true, false), (false, true)] {
        falling.clk = clk;
        falling.f_trig();
        assert!(rt; falling.q == q);
    }
}

// CU; CV, Q
#[test]
fn ctu_counts_to_two(rt: HostRuntime) {
    let mut block = UpCounter::new();
    block.pv = 2;
    for (cu, cv, q) in [(true, 1, false), (false, 1, false), (true, 2, true)] {
        block.cu = cu;
        block.ctu();
        assert!(rt; block.cv == cv && block.q == q);
    }
}

// LD, CD; CV, Q
#[test]
fn ctd_counts_from_one(rt: HostRuntime) {
    let mut block = DownCounter::new();
    block.pv = 1;
    for (ld, cd, cv, q) in [(true, false, 1, false), (false, true, 0, true)] {
        block.ld = ld;
        block.cd = cd;
        block.ctd();
        assert!(rt; block.cv == cv && block.q == q);
    }
}

// CU, CD, R, LD; CV, QU, QD
#[test]
fn ctud_counts_both_ways(rt: HostRuntime) {
    let mut block = UpDownCounter::new();
    block.pv = 2;
    for (cu, cd, r, ld, cv, qu, qd) in [
        (true, false, false, false, 1, false, false),
        (false, false, false, false, 1, false, false),
        (true, true, false, false, 1, false, false),
        (false, false, false, false, 1, false, false),
        (false, true, false, false, 0, false, true),
        (false, false, false, true, 2, true, false),
        (false, false, true, true, 0, false, true),
    ] {
        block.cu = cu;
        block.cd = cd;
        block.r = r;
        block.ld = ld;
        block.ctud();
        assert!(rt; block.cv == cv && block.qu == qu && block.qd == qd);
    }
}

// counters at the ends of INT stay
#[test]
fn counters_stay_at_the_ends(rt: HostRuntime) {
    let mut up = UpCounter::new();
    up.cu = true;
    up.cv = 32767;
    up.ctu();
    assert!(rt; up.cv == 32767);
    let mut down = DownCounter::new();
    down.cd = true;
    down.cv = -32768;
    down.ctd();
    assert!(rt; down.cv == -32768);
}

// NOW, IN; ET, Q
#[test]
fn ton_delays_a_rise(rt: HostRuntime) {
    let mut at_once = DelayTimer::new();
    at_once.input = true;
    at_once.ton(500);
    assert!(rt; at_once.q);
    // the clock goes back at the second call
    let mut block = DelayTimer::new();
    block.pt = 1000;
    for (now, et, q) in [(500, 0, false), (300, 0, false), (1300, 1000, true)] {
        block.input = true;
        block.ton(now);
        assert!(rt; block.et == et && block.q == q);
    }
}

#[test]
fn tof_delays_a_fall(rt: HostRuntime) {
    let mut block = DelayTimer::new();
    block.pt = 100;
    for (now, input, et, q) in [
        (100, true, 0, true),
        (200, false, 0, true),
        (250, false, 50, true),
        (300, false, 100, false),
    ] {
        block.input = input;
        block.tof(now);
        assert!(rt; block.et == et && block.q == q);
    }
}

#[test]
fn tp_makes_a_pulse(rt: HostRuntime) {
    let mut block = PulseTimer::new();
    block.pt = 200;
    for (now, input, et, q) in [
        (100, true, 0, true),
        (200, false, 100, true),
        (300, false, 0, false),
        (400, true, 0, true),
    ] {
        block.input = input;
        block.tp(now);
        assert!(rt; block.et == et && block.q == q);
    }
}
