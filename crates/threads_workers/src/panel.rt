// The worker of a panel.

ghost use Rattle.std.specs.Prelude.{◌≡◌, [], ◌∷◌, false, All, IfOk};
ghost use Rattle.threads_workers.specs.Panels.{IsPressAt, is_at, calls_at, HasPressed};

use cli_host::press::Press;
use std::alloc::AllocError;
use std::snapshot::Snapshot;
use std::thread::{Promise, PromisedHandle, Scope};
use threads_desk::{Desk, PanelPass};

/// A panel as it was before its worker made its presses, and the presses of the run.
#[derive(Drop)]
pub struct Pressing<'p> {
    pub before: Snapshot<PanelPass>,
    pub presses: Snapshot<&'p [Press]>,
}

impl<'p> Promise<PanelPass> for Pressing<'p> {
    ghost use Rattle.threads_workers.specs.Panels.{HasPressed};

    ghost kept_by = { λ p pass. HasPressed p.before.value pass p.presses.value.now };
}

/// The handle of a panel's worker.
pub type PanelHandle<'p> = PromisedHandle<PanelPass, Pressing<'p>>;

// Whether a press is for this panel.
fn is_for(press: &Press, pass: &PanelPass) -> bool
    ensures { result ≡ is_at pass.now.floor pass.now.panel press.now }
{
    press.from == u16::from(pass.floor()) && press.panel == u16::from(pass.panel())
}

/// Whether one of the presses is for this panel.
pub fn is_pressed(pass: &PanelPass, presses: &[Press]) -> bool
    ensures { result ≡ false → calls_at pass.now.floor pass.now.panel presses.now ≡ [] }
{
    'presses: for press in presses {
        if is_for(press, pass) {
            return true;
        }
    }
    false
}

/// Makes the presses that are for this panel, in their order.
pub fn work(desk: &Desk, pass: PanelPass, presses: &[Press]) -> PanelPass
    requires table { pass.table ≡ desk.now.table }
    requires presses { All (λ press. IsPressAt desk.now.floors press) presses.now }
    ensures { HasPressed pass result presses.now }
{
    let mut pass = pass;
    'presses: for press in presses {
        pass = press_if(desk, pass, press);
    }
    pass
}

// Makes a press, if it is for this panel.
fn press_if(desk: &Desk, pass: PanelPass, press: &Press) -> PanelPass
    requires table { pass.table ≡ desk.now.table }
    requires press { IsPressAt desk.now.floors press.now }
    ensures { HasPressed pass result (press.now ∷ []) }
{
    let _floors = desk.floors();
    if !is_for(press, &pass) {
        return pass;
    }
    let (pass, _answer) = desk.press(pass, press.to as u8);
    pass
}

/// Starts the worker of a panel.
pub fn start<'s, E>(
    scope: &Scope<'s, E>,
    desk: &'s Desk,
    pass: PanelPass,
    presses: &'s [Press],
) -> Result<PanelHandle<'s>, AllocError>
    requires table { pass.table ≡ desk.now.table }
    requires presses { All (λ press. IsPressAt desk.now.floors press) presses.now }
    ensures { IfOk result (λ h. (h.promise.before.value ≡ pass)
        × (h.promise.presses.value.now ≡ presses.now)) }
{
    let promise = Pressing {
        before: Snapshot::of(&pass),
        presses: Snapshot::of(&presses),
    };
    let job = move || -> PanelPass
        requires table { pass.table ≡ desk.now.table }
        requires presses { All (λ press. IsPressAt desk.now.floors press) presses.now }
        ensures { HasPressed pass result presses.entry.now }
    { work(desk, pass, presses) };
    Ok(scope.spawn_with(promise, job)?)
}
