// The collector's pass.
ghost use Rattle.std.specs.Prelude.{◌≡◌, ◌<◌, ◌≤◌, ◌+◌, ◌-◌, ℕ};
ghost use Rattle.group_spec.specs.declared.calls.Call.{Call};
ghost use Rattle.group_spec.specs.Hands.{IsInOrder};
ghost use Rattle.threads_desk.specs.Account.{times, membership, IsWord};
ghost use Rattle.threads_desk.specs.Passes.{Gathered, IsFloorOf, AreCalls, IsPart, entered};

use crate::desk::Desk;
use crate::rule::{Gather, Look, View};
use atomic_table::Seat;
use group_spec::hand::Hand;
use std::marker::Model;

/// The pass of the collector: the calls in its hand.
#[derive(Drop)]
pub struct HandPass {
    pub(crate) hand: Hand,
    pub(crate) seat: Seat<u64, View>,
}

impl Model for HandPass {
    ghost use Rattle.std.specs.Prelude.{◌≡◌, []};
    ghost use Rattle.threads_desk.specs.Account.{gathered_of};
    ghost use Rattle.threads_desk.specs.Passes.{Holding, holding_code, IsHandOf, IsAccounted, AreCalls};

    ghost Value = { Holding };

    ghost coded = { holding_code };

    ghost view = { λ p. record {
      table = p.seat.table_id;
      floors = p.seat.table_id.words;
      hand = p.hand;
      gathered = gathered_of p.seat.me.0;
    } };

    ghost invariant = { λ p. IsHandOf p.seat.table_id.words p.seat.me.0 × (p.seat.me.1 ≡ [])
        × IsAccounted (gathered_of p.seat.me.0) p.hand
        × AreCalls p.seat.table_id.words p.hand };
}

impl HandPass {
    /// The calls in the hand.
    pub fn hand(&self) -> Hand
        ensures hand { result ≡ self.now.hand }
        ensures order { IsInOrder self.now.hand }
        ensures calls { AreCalls self.now.floors self.now.hand }
        ensures accounted { (c : Call) → times c self.now.gathered
            ≡ entered self.now c + membership self.now.hand c }
    {
        self.hand.in_order();
        self.hand
    }

    /// Sets the hand to a part of it, once a refresh has entered the other calls.
    pub fn keep(&mut self, hand: Hand)
        requires { IsPart hand self.old.hand }
        ensures { self.new ≡ record self.old { hand = hand } }
    {
        self.hand = hand;
    }
}

impl Desk {
    // Gathers the calls from a floor, where the hand has none from there: one step on one word.
    fn gather_from(&self, pass: &mut HandPass, from: u8)
        requires table { pass.old.table ≡ self.now.table }
        requires from { IsFloorOf self.now.floors from }
        ensures { Gathered pass.old pass.new }
    {
        let _floors = self.floors;
        if !pass.hand.has_from(from) {
            let word = self
                .table
                .shared
                .swap::<Gather>(&mut pass.seat, usize::from(from - 1), 0);
            pass.hand.insert_from(from, word as u16);
        }
    }

    /// Gathers the calls from each floor from which the hand has none, rising.
    pub fn gather(&self, pass: HandPass) -> HandPass
        requires { pass.table ≡ self.now.table }
        ensures { Gathered pass result }
    {
        let mut pass = pass;
        for index in 0..self.floors {
            self.gather_from(&mut pass, index + 1);
        }
        pass
    }

    /// The word of a floor as it was in one moment, for display.
    pub fn shown(&self, pass: HandPass, from: u8) -> (HandPass, u64)
        requires table { pass.table ≡ self.now.table }
        requires from { IsFloorOf self.now.floors from }
        ensures same { result.0 ≡ pass }
        ensures word { IsWord self.now.floors (from - 1) result.1 }
    {
        let HandPass { hand, mut seat } = pass;
        let _floors = self.floors;
        let word = self
            .table
            .shared
            .load::<Look>(&mut seat, usize::from(from - 1));
        (HandPass { hand, seat }, word)
    }
}
