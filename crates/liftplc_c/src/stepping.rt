// Rounds.

ghost use Rattle.std.specs.Prelude.{◌≡◌, ◌≢◌, ◌≤◌, Option, Some, None, true, false, IfSome, MatchOption};
ghost use Rattle.group_spec.specs.Image.{sizes_of, FieldsInRange};
ghost use Rattle.group_world.specs.Worlds.{WorldOf};
ghost use Rattle.liftplc_c.specs.Handles.{IsLed, Rests};
ghost use Rattle.liftplc_c.specs.Inputs.{are_taken, fields_of, round_status};
ghost use Rattle.liftplc_c.specs.Rounds.{GoesRound};

use crate::fields::{FieldsInput, fields_of};
use crate::handle::Handle;
use crate::history::led;
use crate::outputs::{RoundOutputs, put};
use crate::status::Status;
use group_rounds::kept::Rounds;
use group_spec::{Fields, MOST_CARS, in_range};
use std::alloc::Global;

// A round under fields in their ranges, and what it left.
fn go_round(rounds: &mut Rounds, fields: Fields, outputs: &mut RoundOutputs)
    requires inside { FieldsInRange (sizes_of rounds.old.world.program.config) fields }
    requires rests { Rests rounds.old.world.world }
    ensures round { GoesRound fields rounds.old.world rounds.new.world outputs.new }
    ensures rests { Rests rounds.new.world.world }
{
    rounds.go(fields);
    put(outputs, &rounds.world, &rounds.notices);
}

// A round, if the fields of no more cars than a group may have lie in their ranges: whether they did.
fn step_counted(rounds: &mut Rounds, fields: &FieldsInput, outputs: &mut RoundOutputs) -> bool
    requires few { fields.now.car_count ≤ MOST_CARS }
    requires rests { Rests rounds.old.world.world }
    ensures answered { result ≡ are_taken (sizes_of rounds.old.world.program.config) fields.now }
    ensures round { result ≡ true → GoesRound (fields_of fields.now) rounds.old.world
        rounds.new.world outputs.new }
    ensures kept { result ≡ false → (rounds.new.world ≡ rounds.old.world)
        × (outputs.new ≡ outputs.old) }
    ensures rests { Rests rounds.new.world.world }
{
    let taken = fields_of(fields);
    if !in_range(&taken, rounds.world.sizes()) {
        return false;
    }
    go_round(rounds, taken, outputs);
    true
}

// A round, if the fields lie in their ranges: whether they did.
fn step(rounds: &mut Rounds, fields: &FieldsInput, outputs: &mut RoundOutputs) -> bool
    requires { Rests rounds.old.world.world }
    ensures answered { result ≡ are_taken (sizes_of rounds.old.world.program.config) fields.now }
    ensures round { result ≡ true → GoesRound (fields_of fields.now) rounds.old.world
        rounds.new.world outputs.new }
    ensures led { IsLed rounds.new.world }
    ensures kept { result ≡ false → (rounds.new.world ≡ rounds.old.world)
        × (outputs.new ≡ outputs.old) }
    ensures rests { Rests rounds.new.world.world }
{
    if fields.car_count > MOST_CARS {
        led(&rounds.world);
        return false;
    }
    let done = step_counted(rounds, fields, outputs);
    led(&rounds.world);
    done
}

/// A round of the controller: 0. 4: the handle isn't open. 5: a field is out of range. But for 0 nothing is changed.
#[unsafe(no_mangle)]
pub extern "C" fn liftplc_round(
    alloc: Global,
    handle: &mut Handle,
    fields: &FieldsInput,
    outputs: &mut RoundOutputs,
) -> u32
    ensures answered { MatchOption handle.old.held.world (result ≡ 4)
        (λ w. result ≡ round_status (sizes_of w.program.config) fields.now) }
    ensures round { result ≡ 0 → (w v : WorldOf) × (handle.old.held.world ≡ Some w)
        × (handle.new.held.world ≡ Some v) × GoesRound (fields_of fields.now) w v outputs.new }
    ensures led { IfSome handle.new.held.world IsLed }
    ensures kept { result ≢ 0 → (handle.new.held.world ≡ handle.old.held.world)
        × (outputs.new ≡ outputs.old) }
{
    let Some(mut rounds) = handle.take(alloc) else {
        return Status::Closed as u32;
    };
    let done = step(&mut rounds, fields, outputs);
    handle.put(rounds);
    if done {
        Status::Done as u32
    } else {
        Status::OutOfRange as u32
    }
}
