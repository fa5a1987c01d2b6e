// The rules of externals (IEC 61131-3:2003, 2.4.3).

ghost use Rattle.std.specs.Prelude.{◌≡◌, ◌≢◌, true, false};
ghost use Rattle.il_syntax.specs.declared.tree.Config.{Config};
ghost use Rattle.il_syntax.specs.declared.tree.Form.{Form as WrittenForm};
ghost use Rattle.load_scope.specs.Views.{type_of};
ghost use Rattle.il_statics.specs.Least.{IsLeast};
ghost use Rattle.load_declarations.specs.Places.{Among};
ghost use Rattle.load_declarations.specs.Externals.{BreaksExternal, BreaksExternals, IsOther};

use crate::fault::DeclareFault;
use il_statics::{Found, earlier, fault_if};
use il_syntax::tree::{Declaration, Form, Named, Scalar, Subrange};
use load_scope::Scoped;
use load_scope::entry::VariableType;

/// The first fault of externals: a name that is no global's, or a type that is not the global's.
pub fn externals_fault(names: &Scoped, externals: &[Declaration]) -> Option<Found<DeclareFault>>
    ensures { IsLeast result (Among (BreaksExternals names.now) externals.now) }
{
    let mut found = None;
    for external in externals {
        found = earlier(
            found,
            names_fault(names, external, external.names.as_slice()),
        );
    }
    found
}

// The first fault of names that a declaration makes external.
fn names_fault(
    names: &Scoped,
    external: &Declaration,
    named: &[Named],
) -> Option<Found<DeclareFault>>
    ensures { IsLeast result (Among (BreaksExternal names.now external.now) named.now) }
{
    let mut found = None;
    for name in named {
        found = earlier(found, external_fault(names, external, name));
    }
    found
}

// The fault of an external name.
fn external_fault(
    names: &Scoped,
    external: &Declaration,
    named: &Named,
) -> Option<Found<DeclareFault>>
    ensures { IsLeast result (BreaksExternal names.now external.now named.now) }
{
    match names.global(named.name.as_str()) {
        None => fault_if(true, DeclareFault::Unknown, named.place),
        Some(global) => fault_if(
            is_other_type(&external.declared.form, global),
            DeclareFault::TypeDiffers,
            external.declared.place,
        ),
    }
}

// Whether a scalar's or an array's type is not the global's. That of an instance is no external's in any case.
fn is_other_type(form: &Form, global: VariableType) -> bool
    ensures { (config : Config) (other : WrittenForm) → global ≡ type_of config other
        → IsOther form.now other result }
{
    match (form, global) {
        (Form::Scalar(own), VariableType::Scalar(other)) => !is_same_scalar(*own, other),
        (
            Form::Array { bounds, element },
            VariableType::Array {
                bounds: other_bounds,
                element: other_element,
            },
        ) => !(is_same_range(*bounds, other_bounds) && is_same_scalar(*element, other_element)),
        (Form::Block(_), _) => false,
        _ => true,
    }
}

// Whether two scalar types are one.
fn is_same_scalar(own: Scalar, other: Scalar) -> bool
    ensures yes { result ≡ true → own ≡ other }
    ensures no { result ≡ false → own ≢ other }
{
    own == other
}

// Whether two ranges are one.
fn is_same_range(own: Subrange, other: Subrange) -> bool
    ensures yes { result ≡ true → own ≡ other }
    ensures no { result ≡ false → own ≢ other }
{
    own == other
}
