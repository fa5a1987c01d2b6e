// The edge detectors.

ghost use Rattle.std.specs.Prelude.{◌≡◌};
ghost use Rattle.il_blocks.specs.Blocks.{r_trig, f_trig};
ghost use Rattle.il_blocks.specs.Opening.{opening_edge_detector};

use std::marker::Model;

/// R_TRIG or F_TRIG (IEC 61131-3:2003, 2.5.2.3.2): the input CLK, the output Q, and M, which keeps CLK for R_TRIG
/// and NOT CLK for F_TRIG. An instance is called by one of the two alone.
#[derive(Clone, Copy, Default)]
pub struct EdgeDetector {
    pub clk: bool,
    pub q: bool,
    pub m: bool,
}

impl Model for EdgeDetector {
    ghost use Rattle.il_blocks.specs.Blocks as blocks;

    ghost Value = { blocks.EdgeDetector };

    ghost view = { λ b. record { clk = b.clk; q = b.q; m = b.m } };

    ghost inverse = { λ b. record { clk = b.clk; q = b.q; m = b.m } };
}

impl EdgeDetector {
    /// A block with every variable FALSE.
    pub fn new() -> EdgeDetector
        ensures { result ≡ opening_edge_detector }
    {
        EdgeDetector::default()
    }

    /// A call of R_TRIG, once CLK is assigned: Q shows a rising edge for one call (own rule).
    pub fn r_trig(&mut self)
        ensures { self.new ≡ r_trig self.old }
    {
        self.q = self.clk && !self.m;
        self.m = self.clk;
    }

    /// A call of F_TRIG, once CLK is assigned: Q shows a falling edge for one call, and so does a first call with
    /// CLK FALSE (own rule).
    pub fn f_trig(&mut self)
        ensures { self.new ≡ f_trig self.old }
    {
        self.q = !self.clk && !self.m;
        self.m = !self.clk;
    }
}
