// The desk, and the passes of its panels.
ghost use Rattle.std.specs.Prelude.{◌≡◌, ◌≢◌, ◌+◌, ◌*◌, ◌<◌, ◌≤◌, [], ◌++◌, ◌∷◌, length, IfOk, IfErr, bit_or};
ghost use Rattle.threads_desk.specs.Passes.{Answered, IsFloorOf, AreNewPanels, AreAllPanels, AreCalls, IsBalanced, AreAnsweredNew};
ghost use Rattle.il_syntax.specs.declared.fault.Refusal.TheVariants.{Memory};

use crate::hand_pass::HandPass;
use crate::rule::{Account, NextPanel, PanelBack, Press, Size, View};
use atomic_table::{Seat, Table};
use group_spec::hand::Hand;
use il_syntax::fault::Refusal;
use std::alloc::{AllocError, Global};
use std::marker::Model;
use std::snapshot::Snapshot;

/// The answer to a press.
#[derive(Clone, Copy, Debug, PartialEq, Eq)]
pub enum Pressed {
    New,
    Already,
    SameFloor,
}

/// The calls that landing panels have pressed and that the collector has not gathered yet: a word for each floor, in which bit
/// `to - 1` is the call to the floor `to`.
#[derive(Drop)]
pub struct Desk {
    pub(crate) table: Table<u64, View, Size, Account, Global>,
    pub(crate) floors: u8,
    panels: u8,
}

impl Model for Desk {
    ghost use Rattle.std.specs.Prelude.{◌≡◌, ◌≤◌};
    ghost use Rattle.threads_desk.specs.Passes.{Layout, layout_code};

    ghost Value = { Layout };

    ghost coded = { layout_code };

    ghost view = { λ d. record { table = d.table.shared.table_id; floors = d.floors; panels = d.panels } };

    ghost invariant = { λ d.
        (d.table.shared.key ≡ record { floors = d.floors; panels = d.panels })
        × (d.table.shared.table_id.words ≡ d.floors) × (d.table.shared.table_id.slots ≡ 0)
        × (1 ≤ d.floors) × (d.floors ≤ 16) × (1 ≤ d.panels) × (d.panels ≤ 4) };
}

/// The pass of a landing panel.
#[derive(Drop)]
pub struct PanelPass {
    floor: u8,
    panel: u8,
    seat: Seat<u64, View>,
}

impl Model for PanelPass {
    ghost use Rattle.std.specs.Prelude.{◌≡◌, ◌≤◌, []};
    ghost use Rattle.threads_desk.specs.Account.{news_of, pressed_of};
    ghost use Rattle.threads_desk.specs.Passes.{Panel, panel_code, panels_of, IsPanelOf};

    ghost Value = { Panel };

    ghost coded = { panel_code };

    ghost view = { λ p. record {
      table = p.seat.table_id;
      panels = panels_of p.seat.me.0;
      floor = p.floor;
      panel = p.panel;
      news = news_of p.seat.me.0;
      pressed = pressed_of p.seat.me.0;
    } };

    ghost invariant = { λ p. IsPanelOf p.floor p.seat.me.0 × (p.seat.me.1 ≡ [])
        × (1 ≤ p.floor) × (p.floor ≤ p.seat.table_id.words) };
}

impl PanelPass {
    /// The floor of the panel.
    pub fn floor(&self) -> u8
        ensures { result ≡ self.now.floor }
    {
        self.floor
    }

    /// The number of the panel on its floor, from 1 on.
    pub fn panel(&self) -> u8
        ensures { result ≡ self.now.panel }
    {
        self.panel
    }
}

impl Desk {
    /// How many floors it has.
    pub fn floors(&self) -> u8
        ensures { result ≡ self.now.floors }
    {
        self.floors
    }

    /// Presses the call from the panel's floor to another floor: one step on one word.
    pub fn press(&self, pass: PanelPass, to: u8) -> (PanelPass, Pressed)
        requires table { pass.table ≡ self.now.table }
        requires to { IsFloorOf self.now.floors to }
        ensures { Answered pass to result.1 result.0 }
    {
        let PanelPass {
            floor,
            panel,
            mut seat,
        } = pass;
        if floor == to {
            return (PanelPass { floor, panel, seat }, Pressed::SameFloor);
        }
        let _floors = self.floors;
        let mask = 1u64 << (to - 1);
        let found = self
            .table
            .shared
            .fetch_or::<Press>(&mut seat, usize::from(floor - 1), mask);
        let answer = if found & mask == 0 {
            Pressed::New
        } else {
            Pressed::Already
        };
        (PanelPass { floor, panel, seat }, answer)
    }
}

/// What a closed desk leaves. It is made by its close alone.
#[derive(Drop)]
pub struct DeskClosed {
    of: Snapshot<Desk>,
    desk: Hand,
    hand: Hand,
}

impl Model for DeskClosed {
    ghost use Rattle.threads_desk.specs.Passes.{Left, left_code};

    ghost Value = { Left };

    ghost coded = { left_code };

    ghost view = { λ c. record { table = c.of.value.table; desk = c.desk; hand = c.hand } };
}

impl DeskClosed {
    /// The calls on the desk.
    pub fn desk(&self) -> &Hand
        ensures { result.now ≡ self.now.desk }
    {
        &self.desk
    }

    /// The calls in the collector's hand.
    pub fn hand(&self) -> &Hand
        ensures { result.now ≡ self.now.hand }
    {
        &self.hand
    }
}

impl Desk {
    ghost use Rattle.threads_desk.specs.Passes.{IsHandOf, IsOpening, IsAllBack};
    ghost use Rattle.threads_desk.specs.Account.{gathered_of};

    // Makes the panels of all floors.
    fn make_panels(
        &self,
        alloc: Global,
        seat: &mut Seat<u64, View>,
    ) -> Result<Vec<PanelPass>, Refusal>
        requires table { seat.old.table_id ≡ self.now.table }
        requires seat { (seat.old.me.1 ≡ []) × IsOpening self.now.floors self.now.panels 0
            seat.old.me.0 }
        ensures panels { IfOk result (λ v. AreNewPanels self.now v.items) }
        ensures seat { IfOk result (λ v. (seat.new.table_id ≡ seat.old.table_id)
            × (seat.new.me.1 ≡ []) × IsOpening self.now.floors self.now.panels
            (self.now.floors * self.now.panels) seat.new.me.0) }
        ensures memory { IfErr result (λ e. e ≡ Memory) }
    {
        let mut passes = Vec::new(alloc);
        for number in 0..self.floors * self.panels {
            let next = self.table.shared.split_seat::<NextPanel>(seat);
            passes.push(PanelPass {
                floor: number / self.panels + 1,
                panel: number % self.panels + 1,
                seat: next,
            })?;
        }
        Ok(passes)
    }

    /// An empty desk of so many floors, with so many panels on each: the passes of the panels by floor and panel, and the collector's.
    pub fn new(
        alloc: Global,
        floors: u8,
        panels: u8,
    ) -> Result<(Desk, Vec<PanelPass>, HandPass), Refusal>
        requires floors { (2 ≤ floors) × (floors ≤ 16) }
        requires panels { (1 ≤ panels) × (panels ≤ 4) }
        ensures desk { IfOk result (λ r. (r.0.floors ≡ floors) × (r.0.panels ≡ panels)) }
        ensures panels { IfOk result (λ r. AreNewPanels r.0 r.1.items) }
        ensures hand { IfOk result (λ r. r.2 ≡ record
            { table = r.0.table; floors = floors; hand = []; gathered = [] }) }
        ensures memory { IfErr result (λ e. e ≡ Memory) }
    {
        let words = [0; 16];
        let size = Size {
            floors: u64::from(floors),
            panels: u64::from(panels),
        };
        let (table, mut seat) = Table::of_words(alloc, &words[..usize::from(floors)], &size)?;
        let desk = Desk {
            table,
            floors,
            panels,
        };
        let passes = desk.make_panels(alloc, &mut seat)?;
        let hand = HandPass {
            hand: Hand::new(),
            seat,
        };
        Ok((desk, passes, hand))
    }

    // Takes in the seats of all panels.
    fn take_back(&self, panels: Vec<PanelPass>, mut seat: Seat<u64, View>) -> Seat<u64, View>
        requires table { seat.table_id ≡ self.now.table }
        requires seat { (seat.me.1 ≡ []) × IsHandOf self.now.floors seat.me.0 }
        requires panels { AreAllPanels self.now panels.items }
        ensures table { (result.table_id ≡ seat.table_id) × (result.me.1 ≡ []) }
        ensures back { IsAllBack self.now.floors panels.items result.me.0 }
        ensures gathered { gathered_of result.me.0 ≡ gathered_of seat.me.0 }
    {
        let mut panels = panels;
        while let Some(pass) = panels.pop() {
            let PanelPass { seat: other, .. } = pass;
            self.table.shared.join_seat::<PanelBack>(&mut seat, other);
        }
        seat
    }

    /// The calls on the desk and those in the hand, at the end. It takes the passes of all panels and the collector's.
    pub fn close(self, panels: Vec<PanelPass>, pass: HandPass) -> DeskClosed
        requires hand { pass.table ≡ self.table }
        requires panels { AreAllPanels self panels.items }
        ensures balanced { IsBalanced self.floors panels.items pass.gathered result.desk }
        ensures pressed { AreAnsweredNew self.floors panels.items }
        ensures calls { AreCalls self.floors result.desk }
        ensures hand { result.hand ≡ pass.hand }
        ensures table { result.table ≡ self.table }
    {
        let of = Snapshot::of(&self);
        let HandPass { hand, seat } = pass;
        let seat = self.take_back(panels, seat);
        let Desk { table, floors, .. } = self;
        let closed = table.close_with(seat);
        let mut desk = Hand::new();
        for index in 0..floors {
            desk.insert_from(index + 1, closed.word(usize::from(index)) as u16);
        }
        closed.free();
        DeskClosed { of, desk, hand }
    }
}
