// The timers.

ghost use Rattle.std.specs.Prelude.{◌≡◌, pos};
ghost use Rattle.il_blocks.specs.Blocks.{elapsed, ton, tof, tp};
ghost use Rattle.il_blocks.specs.Opening.{opening_delay_timer, opening_pulse_timer};

use std::marker::Model;

/// TON or TOF (IEC 61131-3:2003, 2.5.2.3.4): the inputs IN (`input`) and PT, the outputs Q and ET, whether a delay has
/// begun, and the time of the last call. Times are in milliseconds. An instance is called by one of the two alone.
#[derive(Clone, Copy, Default)]
pub struct DelayTimer {
    pub input: bool,
    pub pt: u32,
    pub q: bool,
    pub et: u32,
    pub run: bool,
    pub last: u32,
}

impl Model for DelayTimer {
    ghost use Rattle.std.specs.Prelude.{pos, nat_abs};
    ghost use Rattle.il_blocks.specs.Blocks as blocks;

    ghost Value = { blocks.DelayTimer };

    ghost view = { λ b. record { input = b.input; pt = pos b.pt; q = b.q; et = pos b.et; run = b.run; last = pos b.last } };

    ghost inverse = { λ b. record { input = b.input; pt = nat_abs b.pt; q = b.q; et = nat_abs b.et; run = b.run; last = nat_abs b.last } };
}

impl DelayTimer {
    /// A block with every variable FALSE or T#0s.
    pub fn new() -> DelayTimer
        ensures { result ≡ opening_delay_timer }
    {
        DelayTimer::default()
    }

    /// A call of TON at `now` milliseconds, once the inputs are assigned: Q rises when IN has been TRUE for PT, and
    /// falls with IN. A `now` below that of the last call adds nothing to ET (own rule).
    pub fn ton(&mut self, now: u32)
        ensures { self.new ≡ ton (pos now) self.old }
    {
        self.et = if self.input && self.run {
            elapsed(self.pt, self.et, self.last, now)
        } else {
            0
        };
        self.q = self.input && self.et >= self.pt;
        self.run = self.input;
        self.last = now;
    }

    /// A call of TOF at `now` milliseconds, once the inputs are assigned: Q rises with IN, and falls when IN has been
    /// FALSE for PT. A `now` below that of the last call adds nothing to ET (own rule).
    pub fn tof(&mut self, now: u32)
        ensures { self.new ≡ tof (pos now) self.old }
    {
        if self.input {
            self.q = true;
            self.et = 0;
            self.run = false;
        } else if self.q {
            self.et = if self.run {
                elapsed(self.pt, self.et, self.last, now)
            } else {
                0
            };
            self.run = true;
            self.q = self.et < self.pt;
        }
        self.last = now;
    }
}

/// TP (IEC 61131-3:2003, 2.5.2.3.4): the inputs IN (`input`) and PT, the outputs Q and ET, whether a pulse runs, M, the
/// last IN, and the time of the last call. Times are in milliseconds.
#[derive(Clone, Copy, Default)]
pub struct PulseTimer {
    pub input: bool,
    pub pt: u32,
    pub q: bool,
    pub et: u32,
    pub run: bool,
    pub m: bool,
    pub last: u32,
}

impl Model for PulseTimer {
    ghost use Rattle.std.specs.Prelude.{pos, nat_abs};
    ghost use Rattle.il_blocks.specs.Blocks as blocks;

    ghost Value = { blocks.PulseTimer };

    ghost view = { λ b. record { input = b.input; pt = pos b.pt; q = b.q; et = pos b.et; run = b.run; m = b.m; last = pos b.last } };

    ghost inverse = { λ b. record { input = b.input; pt = nat_abs b.pt; q = b.q; et = nat_abs b.et; run = b.run; m = b.m; last = nat_abs b.last } };
}

impl PulseTimer {
    /// A block with every variable FALSE or T#0s.
    pub fn new() -> PulseTimer
        ensures { result ≡ opening_pulse_timer }
    {
        PulseTimer::default()
    }

    /// A call of TP at `now` milliseconds, once the inputs are assigned: a rising edge of IN begins a pulse of the
    /// length PT on Q, and none begins while one runs. A `now` below that of the last call adds nothing to ET (own
    /// rule).
    pub fn tp(&mut self, now: u32)
        ensures { self.new ≡ tp (pos now) self.old }
    {
        if self.run {
            self.et = elapsed(self.pt, self.et, self.last, now);
        } else if self.input && !self.m {
            self.run = true;
            self.et = 0;
        }
        self.run = self.run && self.et < self.pt;
        self.q = self.run;
        if !self.run && !self.input {
            self.et = 0;
        }
        self.m = self.input;
        self.last = now;
    }
}

// The time that has elapsed at a call, in milliseconds: a clock that went back adds nothing, and the preset time
// bounds it.
fn elapsed(preset: u32, before: u32, last: u32, now: u32) -> u32
    ensures { pos result ≡ elapsed (pos preset) (pos before) (pos last) (pos now) }
{
    preset.min(before.saturating_add(now.saturating_sub(last)))
}
