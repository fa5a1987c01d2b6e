// The worker that gathers calls and refreshes the image by the plant.

ghost use Rattle.std.specs.Prelude.{◌≡◌, ◌≤◌, ◌+◌, ℕ, IfOk};
ghost use Rattle.group_rounds.specs.Ahead.{setting_round, Rises};
ghost use Rattle.group_rounds.specs.Driven.{switches_in};
ghost use Rattle.group_spec.specs.Image.{sizes_of};
ghost use Rattle.threads_workers.specs.Ran.{IsEntered};

use crate::gate::Gate;
use cli_host::press::Setting;
use group_journal::fault::StationFault;
use group_plant::switches::Switches;
use group_rounds::ahead::{at_first, set_in};
use group_spec::report::Report;
use std::alloc::AllocError;
use std::snapshot::Snapshot;
use std::sync::Wait;
use std::thread::{Promise, PromisedHandle, Scope, Threads};
use threads_desk::{Desk, HandPass};
use threads_station::{Naming, RefreshPass, Station};

/// The passes of a refresher.
#[derive(Drop)]
pub struct Refresher<G: Naming> {
    pub pass: RefreshPass<G>,
    pub hand: HandPass,
}

/// How many rounds a refresher has, and what the building sets of the plant, by its rounds.
#[derive(Clone, Copy)]
pub struct Pace<'s> {
    pub rounds: u16,
    pub settings: &'s [Setting],
}

/// The rounds of a refresher, and the desk of its hand.
#[derive(Drop)]
pub struct RefreshRounds {
    pub rounds: u16,
    pub desk: Snapshot<Desk>,
}

impl<G: Naming> Promise<Result<Refresher<G>, StationFault>> for RefreshRounds {
    ghost use Rattle.std.specs.Prelude.{◌≡◌, IfOk};
    ghost use Rattle.threads_workers.specs.Ran.{IsEntered};

    ghost kept_by = { λ p r. IfOk r (λ d. (d.hand.table ≡ p.desk.value.table)
        × (d.pass.refreshes ≡ p.rounds) × (d.pass.driven ≡ p.rounds)
        × IsEntered d.pass.entered d.hand) };
}

/// The handle of a refresher's worker.
pub type RefresherHandle<G> = PromisedHandle<Result<Refresher<G>, StationFault>, RefreshRounds>;

// One round: each floor is gathered, and the image is refreshed by the plant.
fn round<G: Naming, R: Wait>(
    rt: &R,
    station: &Station<G>,
    desk: &Desk,
    refresher: Refresher<G>,
    switches: Switches,
    report: &mut Report,
) -> Result<Refresher<G>, StationFault>
    requires table { refresher.hand.table ≡ desk.now.table }
    requires floors { refresher.hand.floors ≡ (sizes_of G.program.config).floors }
    requires switches { switches ≡ G.switches (refresher.pass.refreshes + 1) }
    requires limit { switches.run_limit ≤ (sizes_of G.program.config).cars }
    requires entered { IsEntered refresher.pass.entered refresher.hand }
    ensures hand { IfOk result (λ r. (r.hand.table ≡ refresher.hand.table)
        × (r.hand.floors ≡ refresher.hand.floors)) }
    ensures counts { IfOk result (λ r. (r.pass.refreshes ≡ refresher.pass.refreshes + 1)
        × (r.pass.driven ≡ refresher.pass.driven + 1)) }
    ensures entered { IfOk result (λ r. IsEntered r.pass.entered r.hand) }
{
    let Refresher { pass, hand } = refresher;
    let hand = desk.gather(hand);
    let (pass, hand, driven) = station.drive(rt, pass, switches, hand, report);
    driven?;
    Ok(Refresher { pass, hand })
}

/// So many rounds of gathering and refreshing, each followed by what its gate waits for. At a fault it gives up.
pub fn work<G: Naming, T: Gate, R: Wait>(
    rt: &R,
    station: &Station<G>,
    desk: &Desk,
    gate: &T,
    refresher: Refresher<G>,
    pace: Pace<'_>,
) -> Result<Refresher<G>, StationFault>
    requires new { (refresher.pass.refreshes ≡ 0) × (refresher.pass.driven ≡ 0) }
    requires table { refresher.hand.table ≡ desk.now.table }
    requires floors { refresher.hand.floors ≡ (sizes_of G.program.config).floors }
    requires rises { Rises setting_round 0 pace.settings.now }
    requires switches { G.switches
        ≡ switches_in (sizes_of G.program.config).cars pace.settings.now }
    requires limit { (n : ℕ)
        → (G.switches n).run_limit ≤ (sizes_of G.program.config).cars }
    requires entered { IsEntered refresher.pass.entered refresher.hand }
    ensures counts { IfOk result (λ d. (d.hand.table ≡ refresher.hand.table)
        × (d.pass.refreshes ≡ pace.entry.rounds) × (d.pass.driven ≡ pace.entry.rounds)) }
    ensures entered { IfOk result (λ d. IsEntered d.pass.entered d.hand) }
{
    let mut refresher = refresher;
    let mut report = Report::new();
    let mut standing = at_first(station.verified().sizes().cars, pace.settings);
    'rounds: for below in 0..pace.rounds {
        standing = set_in(standing, below + 1);
        match round(rt, station, desk, refresher, standing.switches, &mut report) {
            Ok(next) => {
                gate.refreshed(rt, below + 1);
                refresher = next;
            }
            Err(fault) => {
                gate.gives_up(rt);
                return Err(fault);
            }
        }
    }
    Ok(refresher)
}

/// Starts the worker of a refresher.
pub fn start<'s, E, G: Naming + Send + Sync, T: Gate + Sync, R: Threads + Wait + Sync>(
    scope: &Scope<'s, E>,
    rt: &'s R,
    station: &'s Station<G>,
    desk: &'s Desk,
    gate: &'s T,
    refresher: Refresher<G>,
    pace: Pace<'s>,
) -> Result<RefresherHandle<G>, AllocError>
    requires new { (refresher.pass.refreshes ≡ 0) × (refresher.pass.driven ≡ 0) }
    requires table { refresher.hand.table ≡ desk.now.table }
    requires floors { refresher.hand.floors ≡ (sizes_of G.program.config).floors }
    requires rises { Rises setting_round 0 pace.settings.now }
    requires switches { G.switches
        ≡ switches_in (sizes_of G.program.config).cars pace.settings.now }
    requires limit { (n : ℕ)
        → (G.switches n).run_limit ≤ (sizes_of G.program.config).cars }
    requires entered { IsEntered refresher.pass.entered refresher.hand }
    ensures { IfOk result (λ h. (h.promise.rounds ≡ pace.entry.rounds)
        × (h.promise.desk.value.table ≡ desk.now.table)) }
{
    let job = move || -> Result<Refresher<G>, StationFault>
        requires new { (refresher.pass.refreshes ≡ 0) × (refresher.pass.driven ≡ 0) }
        requires table { refresher.hand.table ≡ desk.now.table }
        requires floors { refresher.hand.floors ≡ (sizes_of G.program.config).floors }
        requires rises { Rises setting_round 0 pace.settings.now }
        requires switches { G.switches
            ≡ switches_in (sizes_of G.program.config).cars pace.settings.now }
        requires limit { (n : ℕ)
            → (G.switches n).run_limit ≤ (sizes_of G.program.config).cars }
        requires entered { IsEntered refresher.pass.entered refresher.hand }
        ensures { IfOk result (λ d. (d.hand.table ≡ desk.entry.now.table)
            × (d.pass.refreshes ≡ pace.entry.rounds) × (d.pass.driven ≡ pace.entry.rounds)
            × IsEntered d.pass.entered d.hand) }
    { work(rt, station, desk, gate, refresher, pace) };
    let promise = RefreshRounds {
        rounds: pace.rounds,
        desk: Snapshot::of(desk),
    };
    Ok(scope.spawn_with(promise, job)?)
}
