// What a name means in a unit (IEC 61131-3:2003, 2.4.3).

ghost use Rattle.std.specs.Prelude.{◌≡◌, Some, option_map, option_copied, slice_get};
ghost use Rattle.il_syntax.specs.declared.tree.Config.{Config as Configuration};
ghost use Rattle.il_syntax.specs.declared.tree.Unit.{Unit as ProgramUnit};
ghost use Rattle.il_statics.specs.Names.{is_seen_by, meaning, variable_named};
ghost use Rattle.load_scope.specs.Views.{binding_of, variable_of};
ghost use Rattle.load_scope.specs.Tables.{IsScope, AreTables};
ghost use Rattle.load_scope.specs.Meanings.{image_seen, variable_binding, global_binding};

use crate::entry::{Binding, ImageName, Variable};
use crate::numbers::{is_program, unit_number};
use crate::tables::{Scope, Tables};
use crate::words::is_predeclared;
use il_statics::names::{Audience, Role};
use il_syntax::tree::{Config, UnitKind};

/// What a name means in the unit of a number; none where it is unknown there.
#[inline(always)]
pub fn meaning(config: &Config, tables: &Tables, at: usize, name: &str) -> Option<Binding>
    requires { AreTables config.now tables.now }
    ensures { (unit : ProgramUnit) → slice_get config.now.units at ≡ Some unit → result
        ≡ option_map (binding_of config.now) (meaning config.now unit name.now) }
{
    let Some(scope) = tables.scopes.as_slice().get(at) else {
        return None;
    };
    meaning_in(config, tables, scope, name)
}

// What a name means in the unit of a scope.
#[inline(always)]
fn meaning_in(config: &Config, tables: &Tables, scope: &Scope, name: &str) -> Option<Binding>
    requires { AreTables config.now tables.now }
    ensures { (unit : ProgramUnit) → IsScope config.now unit scope.now → result
        ≡ option_map (binding_of config.now) (meaning config.now unit name.now) }
{
    match scope.own.get(name) {
        Some(seen) => variable_binding(seen),
        None => global_meaning(config, tables, name),
    }
}

// A variable, if it is seen.
#[inline(always)]
fn variable_binding(seen: Option<Variable>) -> Option<Binding>
    ensures { result ≡ variable_binding seen }
{
    match seen {
        Some(variable) => Some(Binding::Variable(variable)),
        None => None,
    }
}

/// The variable that a name means in the unit of a number.
#[inline(always)]
pub fn variable<'t>(tables: &'t Tables, at: usize, name: &str) -> Option<&'t Variable>
    ensures { (config : Configuration) (unit : ProgramUnit) → AreTables config tables.now
        → slice_get config.units at ≡ Some unit → option_copied result
        ≡ option_map (variable_of config) (variable_named config unit name.now) }
{
    match tables.scopes.as_slice().get(at) {
        Some(scope) => variable_in(scope, name),
        None => None,
    }
}

// The variable that a name means in the unit of a scope.
#[inline(always)]
fn variable_in<'t>(scope: &'t Scope, name: &str) -> Option<&'t Variable>
    ensures { (config : Configuration) (unit : ProgramUnit) → IsScope config unit scope.now
        → option_copied result
        ≡ option_map (variable_of config) (variable_named config unit name.now) }
{
    match scope.own.find(name) {
        Some(seen) => seen.as_ref(),
        None => None,
    }
}

/// What a unit of a kind and role sees of an image name.
pub fn image_seen(kind: UnitKind, role: Option<Role>, image: ImageName) -> Option<Variable>
    ensures { result ≡ image_seen kind role image }
{
    if is_program(kind) && is_seen_by(role, image.audience) {
        Some(image.variable)
    } else {
        None
    }
}

/// Whether programs of a role see what is meant for an audience; without a role they see all (own rule).
pub fn is_seen_by(role: Option<Role>, audience: Audience) -> bool
    ensures { result ≡ is_seen_by role audience }
{
    match (audience, role) {
        (Audience::Everybody, _) => true,
        (Audience::CarPrograms, Some(Role::Group)) => false,
        (Audience::CarPrograms, _) => true,
        (Audience::GroupPrograms, Some(Role::Car)) => false,
        (Audience::GroupPrograms, _) => true,
    }
}

// What a name means that is neither a variable of the unit nor an image name.
fn global_meaning(config: &Config, tables: &Tables, name: &str) -> Option<Binding>
    requires { AreTables config.now tables.now }
    ensures { result ≡ global_binding config.now name.now }
{
    if unit_number(config, &tables.units, name).is_some() {
        Some(Binding::Unit)
    } else if is_predeclared(config, name) {
        Some(Binding::Standard)
    } else {
        None
    }
}
