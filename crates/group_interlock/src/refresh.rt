// A refresh.

ghost use Rattle.std.specs.Prelude.{◌≡◌, ◌≤◌, ◌+◌, ◌++◌, [], length};
ghost use Rattle.group_spec.specs.Settle.{denies_running, running_denial, denials_of, settled_all};
ghost use Rattle.group_interlock.specs.Beside.{first_cars, settled_beside};

use crate::motor::{granted, is_at_end, is_fire_up};
use crate::settled::{AllSettled, Settled, listed, open_denial, replace};
use group_spec::report::{DENIAL_PLACES, Denial, Rule};
use group_spec::{Bounded, CarFields, CarOutputs, Fields, Outputs};

// The order in which rules deny a running motor.
const RUNNING_ORDER: [Rule; 4] = [Rule::Unlocked, Rule::AtEnd, Rule::Fire, Rule::Crowded];

// Whether a rule denies a running car to run on under the new fields of all cars, beside so many cars that do.
fn denies_running(
    all: &Fields,
    running: u8,
    fields: CarFields,
    outputs: CarOutputs,
    rule: Rule,
) -> bool
    ensures { result ≡ denies_running all.now (first_cars running) (running + 1) fields outputs
        rule }
{
    match rule {
        Rule::Reversal | Rule::NotLevel => false,
        Rule::Unlocked => !fields.locked || outputs.opens,
        Rule::AtEnd => is_at_end(fields, outputs.motor),
        Rule::Crowded => all.run_limit <= running,
        Rule::Fire => is_fire_up(all.fire, outputs.motor),
    }
}

// The rule that denies a running car to run on, if one does.
fn running_denial(all: &Fields, running: u8, fields: CarFields, outputs: CarOutputs) -> Option<Rule>
    ensures { result ≡ running_denial all.now (first_cars running) (running + 1) fields outputs }
{
    if !outputs.motor.runs() {
        return None;
    }
    for rule in RUNNING_ORDER {
        if denies_running(all, running, fields, outputs, rule) {
            return Some(rule);
        }
    }
    None
}

// One car at a refresh, beside so many cars before it that run on.
fn settle_running(all: &Fields, running: u8, fields: CarFields, outputs: CarOutputs) -> Settled
    ensures { result ≡ settled_beside all.now running fields outputs }
{
    let denial = running_denial(all, running, fields, outputs);
    Settled {
        outputs: CarOutputs {
            motor: granted(outputs.motor, denial),
            opens: outputs.opens && fields.level,
        },
        denials: listed(open_denial(outputs.opens, fields.level), denial),
    }
}

// Adds the denials of a car.
fn add_denials(denials: &mut Bounded<Denial, DENIAL_PLACES>, car: u8, rules: &[Rule])
    requires { length denials.old + length rules.now ≤ DENIAL_PLACES }
    ensures { denials.new ≡ denials.old ++ denials_of car rules.now }
{
    for rule in rules {
        denials.push(Denial { car, rule: *rule });
    }
}

// Takes all denials out of a row.
fn clear(denials: &mut Bounded<Denial, DENIAL_PLACES>)
    ensures { denials.new ≡ [] }
{
    if denials.len() > 0 {
        *denials = Bounded::new();
    }
}

/// A refresh, in place: what is left of the outputs of all cars under new fields of as
/// many (own rule). Running cars that fail rule 2, 3 or 6 stop, by the first that they fail; of the rest the RUNLIMIT
/// lowest-numbered run on, and the others stop by 5. Open commands stay exactly at a level, otherwise they end by 4.
#[inline(always)]
#[tactic(auto, unfolding(group_spec::specs::Settle::settled_all))]
pub fn settle_each(
    outputs: &mut Outputs,
    fields: &Fields,
    denials: &mut Bounded<Denial, DENIAL_PLACES>,
)
    requires { length outputs.old ≡ length fields.now.cars }
    ensures outputs { outputs.new ≡ (settled_all outputs.old fields.now).outputs }
    ensures denials { denials.new ≡ (settled_all outputs.old fields.now).denials }
{
    clear(denials);
    let count = fields.cars.len();
    let cars = fields.cars.as_slice();
    let mut running = 0;
    for index in 0..count {
        let car = index as u8 + 1;
        let settled = settle_running(fields, running, cars[index], outputs.as_slice()[index]);
        running += u8::from(settled.outputs.motor.runs());
        replace(outputs, index, settled.outputs);
        add_denials(denials, car, settled.denials.as_slice());
    }
}

/// All outputs, settled under the fields, beside the outputs before.
pub fn settle_all(outputs: &Outputs, fields: &Fields) -> AllSettled
    requires { length outputs.now ≡ length fields.now.cars }
    ensures { result ≡ settled_all outputs.now fields.now }
{
    let mut after = outputs.copied();
    let mut denials = Bounded::new();
    settle_each(&mut after, fields, &mut denials);
    AllSettled {
        outputs: after,
        denials,
    }
}
