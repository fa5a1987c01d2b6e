// The bistable blocks.

ghost use Rattle.std.specs.Prelude.{◌≡◌};
ghost use Rattle.il_blocks.specs.Blocks.{sr, rs};
ghost use Rattle.il_blocks.specs.Opening.{opening_set_dominant, opening_reset_dominant};

use std::marker::Model;

/// SR, whose set input wins (IEC 61131-3:2003, 2.5.2.3.1): the inputs S1 and R, the output Q1.
#[derive(Clone, Copy, Default)]
pub struct SetDominant {
    pub s1: bool,
    pub r: bool,
    pub q1: bool,
}

impl Model for SetDominant {
    ghost use Rattle.il_blocks.specs.Blocks as blocks;

    ghost Value = { blocks.SetDominant };

    ghost view = { λ b. record { s1 = b.s1; r = b.r; q1 = b.q1 } };

    ghost inverse = { λ b. record { s1 = b.s1; r = b.r; q1 = b.q1 } };
}

impl SetDominant {
    /// A block with every variable FALSE.
    pub fn new() -> SetDominant
        ensures { result ≡ opening_set_dominant }
    {
        SetDominant::default()
    }

    /// A call, once the inputs are assigned: S1 sets Q1, and else R resets it (own rule).
    pub fn sr(&mut self)
        ensures { self.new ≡ sr self.old }
    {
        self.q1 = self.s1 || (!self.r && self.q1);
    }
}

/// RS, whose reset input wins (IEC 61131-3:2003, 2.5.2.3.1): the inputs S and R1, the output Q1.
#[derive(Clone, Copy, Default)]
pub struct ResetDominant {
    pub s: bool,
    pub r1: bool,
    pub q1: bool,
}

impl Model for ResetDominant {
    ghost use Rattle.il_blocks.specs.Blocks as blocks;

    ghost Value = { blocks.ResetDominant };

    ghost view = { λ b. record { s = b.s; r1 = b.r1; q1 = b.q1 } };

    ghost inverse = { λ b. record { s = b.s; r1 = b.r1; q1 = b.q1 } };
}

impl ResetDominant {
    /// A block with every variable FALSE.
    pub fn new() -> ResetDominant
        ensures { result ≡ opening_reset_dominant }
    {
        ResetDominant::default()
    }

    /// A call, once the inputs are assigned: R1 resets Q1, and else S sets it (own rule).
    pub fn rs(&mut self)
        ensures { self.new ≡ rs self.old }
    {
        self.q1 = !self.r1 && (self.s || self.q1);
    }
}
