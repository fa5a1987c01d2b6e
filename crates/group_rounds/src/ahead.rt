// The presses and the settings that are still to come, by their rounds.

ghost use Rattle.std.specs.Prelude.{◌≡◌, ◌≤◌, ◌+◌, ℕ, List, take, drop, length, IfOk};
ghost use Rattle.cli_host.specs.declared.press.Setting.{Setting as SettingOf};
ghost use Rattle.group_rounds.specs.Ahead.{press_round, setting_round, of_round, Rises, IsAhead, IsStanding};
ghost use Rattle.group_rounds.specs.Driven.{set_of, set_all};

use cli_host::press::{Press, Set, Setting};
use group_plant::switches::Switches;
use std::alloc::{AllocError, Global};

/// A copy of presses by their rounds, those of a round in their order.
pub fn presses_by_round(alloc: Global, presses: &[Press]) -> Result<Vec<Press>, AllocError>
    ensures { IfOk result (λ ps. IsAhead press_round 0 presses.now ps.items) }
{
    let mut ordered = presses.to_vec(alloc)?;
    ordered.sort_by_key(|press| press.round)?;
    Ok(ordered)
}

/// A copy of settings by their rounds, those of a round in their order.
pub fn settings_by_round(alloc: Global, settings: &[Setting]) -> Result<Vec<Setting>, AllocError>
    ensures { IfOk result (λ ss. IsAhead setting_round 0 settings.now ss.items) }
{
    let mut ordered = settings.to_vec(alloc)?;
    ordered.sort_by_key(|setting| setting.round)?;
    Ok(ordered)
}

/// How many presses at the front are of a round, which is the first of all that are left.
pub fn presses_due(presses: &[Press], round: u16) -> usize
    requires rises { Rises press_round round presses.now }
    ensures room { result ≤ length presses.now }
    ensures due { take result presses.now ≡ of_round press_round round presses.now }
    ensures later { IsAhead press_round (round + 1) presses.now (drop result presses.now) }
{
    let mut count = 0;
    'presses: while count < presses.len() && presses[count].round == round {
        count += 1;
    }
    count
}

// How many settings at the front are of a round, which is the first of all that are left.
fn settings_due(settings: &[Setting], round: u16) -> usize
    requires rises { Rises setting_round round settings.now }
    ensures room { result ≤ length settings.now }
    ensures due { take result settings.now ≡ of_round setting_round round settings.now }
    ensures later { IsAhead setting_round (round + 1) settings.now (drop result settings.now) }
{
    let mut count = 0;
    'settings: while count < settings.len() && settings[count].round == round {
        count += 1;
    }
    count
}

// FIRE and RUNLIMIT, with one of them set anew.
fn set_of(before: Switches, set: Set) -> Switches
    ensures { result ≡ set_of before set }
{
    match set {
        Set::Fire(fire) => Switches { fire, ..before },
        Set::RunLimit(run_limit) => Switches {
            run_limit,
            ..before
        },
    }
}

// FIRE and RUNLIMIT, with each of these set.
fn set_all(before: Switches, settings: &[Setting]) -> Switches
    ensures { result ≡ set_all before settings.now }
{
    let mut switches = before;
    'settings: for setting in settings {
        switches = set_of(switches, setting.set);
    }
    switches
}

/// What is set of the plant in a round, and the settings of later rounds, by their rounds.
#[derive(Clone, Copy)]
pub struct Standing<'s> {
    pub switches: Switches,
    pub later: &'s [Setting],
}

/// What is set before the first round of a group of so many cars: there is no FIRE, and all of them may run.
pub fn at_first(cars: u8, settings: &[Setting]) -> Standing<'_>
    requires { Rises setting_round 0 settings.now }
    ensures { (all : List SettingOf) → IsAhead setting_round 0 all settings.now
        → IsStanding cars all 0 result.switches result.later.now }
{
    let none = settings_due(settings, 0);
    Standing {
        switches: Switches::opening(cars),
        later: &settings[none..],
    }
}

/// What is set in the next round.
pub fn set_in<'s>(before: Standing<'s>, round: u16) -> Standing<'s>
    requires { Rises setting_round round before.later.now }
    ensures { (cars n : ℕ) (all : List SettingOf) → round ≡ n + 1
        → IsStanding cars all n before.entry.switches before.entry.later.now
        → IsStanding cars all round result.switches result.later.now }
{
    let due = settings_due(before.later, round);
    Standing {
        switches: set_all(before.switches, &before.later[..due]),
        later: &before.later[due..],
    }
}
