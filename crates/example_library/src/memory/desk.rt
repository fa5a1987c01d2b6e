// The calls of a desk and of its passes.

ghost use Rattle.std.specs.Prelude.{◌≡◌, ◌≤◌};
ghost use Rattle.threads_desk.specs.Passes.{AreAllPanels};

use crate::memory::lines::{allocation, no_allocation, print};
use crate::memory::station;
use crate::memory::text::FLOORS;
use group_spec::report::Report;
use il_syntax::fault::Refusal;
use std::alloc::Global;
use std::io::Print;
use std::sync::Wait;
use threads_desk::{Desk, HandPass, PanelPass, Pressed};

// A panel presses a call: whether it is answered so.
fn press(desk: &Desk, panel: PanelPass, to: u8, wanted: Pressed) -> (PanelPass, bool)
    requires table { panel.table ≡ desk.now.table }
    requires floors { desk.now.floors ≡ FLOORS }
    requires to { (1 ≤ to) × (to ≤ FLOORS) }
    ensures { result.0.table ≡ panel.table }
{
    let (panel, answer) = desk.press(panel, to);
    (panel, answer == wanted)
}

// The panel, which is on the last floor, presses a call, the same again, another one, and one to its own floor.
fn press_each(desk: &Desk, panel: PanelPass) -> (PanelPass, [bool; 4])
    requires table { panel.table ≡ desk.now.table }
    requires floors { desk.now.floors ≡ FLOORS }
    ensures { result.0.table ≡ panel.table }
{
    let (panel, first) = press(desk, panel, 1, Pressed::New);
    let (panel, again) = press(desk, panel, 1, Pressed::Already);
    let (panel, other) = press(desk, panel, 2, Pressed::New);
    let (panel, own) = press(desk, panel, FLOORS, Pressed::SameFloor);
    (panel, [first, again, other, own])
}

// The last of all panels makes these presses: whether all are answered so.
fn press_last(desk: &Desk, panels: &mut Vec<PanelPass>) -> bool
    requires floors { desk.now.floors ≡ FLOORS }
    requires panels { AreAllPanels desk.now panels.old.items }
    ensures { AreAllPanels desk.now panels.new.items }
{
    match panels.pop() {
        Some(panel) => {
            let (panel, answers) = press_each(desk, panel);
            panels.push_reserved(panel);
            answers == [true; 4]
        }
        None => false,
    }
}

// The word of the last floor is shown, and its calls are gathered: how many there are. All but the first are kept.
fn gather(desk: &Desk, pass: HandPass) -> (HandPass, [i128; 3])
    requires table { pass.table ≡ desk.now.table }
    requires floors { desk.now.floors ≡ FLOORS }
    ensures { (result.0.table ≡ pass.table) × (result.0.floors ≡ pass.floors) }
{
    let (pass, word) = desk.shown(pass, FLOORS);
    let mut pass = desk.gather(pass);
    let mut hand = pass.hand();
    let count = hand.len();
    hand.take_first();
    pass.keep(hand);
    let kept = pass.hand().len();
    (pass, [word as i128, count as i128, kept as i128])
}

/// Each call over a desk with two panels on each floor, with those of a station that takes calls from the collector's hand before the desk is closed.
pub fn all<R: Print + Wait>(rt: &R, alloc: Global, report: &mut Report) -> Result<(), Refusal> {
    let (desk, mut panels, pass) = Desk::new(alloc, FLOORS, 2)?;
    no_allocation(rt);
    let are_pressed = press_last(&desk, &mut panels);
    let (pass, answers) = gather(&desk, pass);
    print(rt, "Desk::press", &[are_pressed as i128]);
    print(rt, "Desk::shown, gather, HandPass::keep", &answers);
    allocation(rt);
    let (pass, done) = station::all(rt, alloc, pass, report);
    no_allocation(rt);
    let closed = desk.close(panels, pass);
    print(rt, "Desk::close", &[closed.hand().len() as i128]);
    allocation(rt);
    done
}
