// The standard functions (IEC 61131-3:2003, 2.5.1.5).

ghost use Rattle.std.specs.Prelude.{◌≡◌, find, option_map};
ghost use Rattle.il_statics.specs.Names.{standard_function};
ghost use Rattle.load_scope.specs.Words.{is_name};

use crate::words::is_name;
use il_statics::names::StandardFunction;
use il_statics::standard::{NamedFunction, standard_functions};

/// The standard function of a name (2.5.1.5).
pub fn standard_function(name: &str) -> Option<StandardFunction>
    ensures { result ≡ standard_function name.now }
{
    match row_named(standard_functions(), name) {
        Some(row) => Some(row.function),
        None => None,
    }
}

// The row of a name.
fn row_named<'a>(rows: &'a [NamedFunction], name: &str) -> Option<&'a NamedFunction>
    ensures { option_map (λ r. r.now) result
        ≡ find (λ r. is_name r.name.now name.now) rows.now }
{
    rows.iter().find(|row| is_name(name, row.name))
}
