// The counters.

ghost use Rattle.std.specs.Prelude.{◌≡◌};
ghost use Rattle.il_blocks.specs.Blocks.{counted_up, counted_down, ctu, ctd, ctud_edges, ctud};
ghost use Rattle.il_blocks.specs.Opening.{opening_up_counter, opening_down_counter, opening_up_down_counter};

use std::marker::Model;

/// CTU (IEC 61131-3:2003, 2.5.2.3.3): the inputs CU, R and PV, the outputs Q and CV, and M, the last CU.
#[derive(Clone, Copy, Default)]
pub struct UpCounter {
    pub cu: bool,
    pub r: bool,
    pub pv: i16,
    pub q: bool,
    pub cv: i16,
    pub m: bool,
}

impl Model for UpCounter {
    ghost use Rattle.il_blocks.specs.Blocks as blocks;

    ghost Value = { blocks.UpCounter };

    ghost view = { λ b. record { cu = b.cu; r = b.r; pv = b.pv; q = b.q; cv = b.cv; m = b.m } };

    ghost inverse = { λ b. record { cu = b.cu; r = b.r; pv = b.pv; q = b.q; cv = b.cv; m = b.m } };
}

impl UpCounter {
    /// A block with every variable FALSE or 0.
    pub fn new() -> UpCounter
        ensures { result ≡ opening_up_counter }
    {
        UpCounter::default()
    }

    /// A call, once the inputs are assigned: R makes CV 0, and else a rising edge of CU adds 1 up to 32767. Q tells
    /// whether CV has reached PV (own rule).
    pub fn ctu(&mut self)
        ensures { self.new ≡ ctu self.old }
    {
        if self.r {
            self.cv = 0;
        } else if self.cu && !self.m {
            self.cv = counted_up(self.cv);
        }
        self.m = self.cu;
        self.q = self.cv >= self.pv;
    }
}

/// CTD (IEC 61131-3:2003, 2.5.2.3.3): the inputs CD, LD and PV, the outputs Q and CV, and M, the last CD.
#[derive(Clone, Copy, Default)]
pub struct DownCounter {
    pub cd: bool,
    pub ld: bool,
    pub pv: i16,
    pub q: bool,
    pub cv: i16,
    pub m: bool,
}

impl Model for DownCounter {
    ghost use Rattle.il_blocks.specs.Blocks as blocks;

    ghost Value = { blocks.DownCounter };

    ghost view = { λ b. record { cd = b.cd; ld = b.ld; pv = b.pv; q = b.q; cv = b.cv; m = b.m } };

    ghost inverse = { λ b. record { cd = b.cd; ld = b.ld; pv = b.pv; q = b.q; cv = b.cv; m = b.m } };
}

impl DownCounter {
    /// A block with every variable FALSE or 0.
    pub fn new() -> DownCounter
        ensures { result ≡ opening_down_counter }
    {
        DownCounter::default()
    }

    /// A call, once the inputs are assigned: LD makes CV PV, and else a rising edge of CD takes 1 down to -32768. Q
    /// says whether CV is at most 0 (own rule).
    pub fn ctd(&mut self)
        ensures { self.new ≡ ctd self.old }
    {
        if self.ld {
            self.cv = self.pv;
        } else if self.cd && !self.m {
            self.cv = counted_down(self.cv);
        }
        self.m = self.cd;
        self.q = self.cv <= 0;
    }
}

/// CTUD (IEC 61131-3:2003, 2.5.2.3.3): the inputs CU, CD, R, LD and PV, the outputs QU, QD and CV, and MU and MD,
/// the last CU and CD.
#[derive(Clone, Copy, Default)]
pub struct UpDownCounter {
    pub cu: bool,
    pub cd: bool,
    pub r: bool,
    pub ld: bool,
    pub pv: i16,
    pub qu: bool,
    pub qd: bool,
    pub cv: i16,
    pub mu: bool,
    pub md: bool,
}

impl Model for UpDownCounter {
    ghost use Rattle.il_blocks.specs.Blocks as blocks;

    ghost Value = { blocks.UpDownCounter };

    ghost view = { λ b. record { cu = b.cu; cd = b.cd; r = b.r; ld = b.ld; pv = b.pv; qu = b.qu; qd = b.qd; cv = b.cv; mu = b.mu; md = b.md } };

    ghost inverse = { λ b. record { cu = b.cu; cd = b.cd; r = b.r; ld = b.ld; pv = b.pv; qu = b.qu; qd = b.qd; cv = b.cv; mu = b.mu; md = b.md } };
}

impl UpDownCounter {
    /// A block with every variable FALSE or 0.
    pub fn new() -> UpDownCounter
        ensures { result ≡ opening_up_down_counter }
    {
        UpDownCounter::default()
    }

    /// A call, once the inputs are assigned: R makes CV 0, else LD makes it PV, and else a rising edge of CU alone
    /// adds 1 as CTU does, and one of CD alone takes 1 as CTD does. QU says whether CV has reached PV, QD whether
    /// it is at most 0 (own rule).
    pub fn ctud(&mut self)
        ensures { self.new ≡ ctud self.old }
    {
        if self.r {
            self.cv = 0;
        } else if self.ld {
            self.cv = self.pv;
        } else {
            self.cv = after_edges(self.cu && !self.mu, self.cd && !self.md, self.cv);
        }
        self.mu = self.cu;
        self.md = self.cd;
        self.qu = self.cv >= self.pv;
        self.qd = self.cv <= 0;
    }
}

// One more, unless the count is the greatest INT.
fn counted_up(count: i16) -> i16
    ensures { result ≡ counted_up count }
{
    count.saturating_add(1)
}

// One less, unless the count is the least INT.
fn counted_down(count: i16) -> i16
    ensures { result ≡ counted_down count }
{
    count.saturating_sub(1)
}

// A count after the edges of CU and CD: both together, or none, leave it.
fn after_edges(up: bool, down: bool, count: i16) -> i16
    ensures { result ≡ ctud_edges up down count }
{
    match (up, down) {
        (true, false) => counted_up(count),
        (false, true) => counted_down(count),
        (true, true) | (false, false) => count,
    }
}
