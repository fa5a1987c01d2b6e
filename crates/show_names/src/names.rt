// The names that declarations give.

ghost use Rattle.std.specs.Prelude.{◌≡◌, ◌||◌, List, ℕ, is_some, IfOk, OnOk};
ghost use Rattle.std.specs.Iterator.{YieldsFirstBy, item_count};
ghost use Rattle.base_maps.specs.NameMap.{get};
ghost use Rattle.show_names.specs.Names.{declared_names, is_declared, declares, is_block, name_shown, names_left};

use base_maps::Table;
use il_syntax::tree::{Declaration, Form, Named, Unit};
use std::alloc::{AllocError, Global};

/// A declared name, its line, whether it is an instance of a function block, and whether it has an
/// initial value.
#[derive(Clone, Copy)]
pub struct Declared<'c> {
    pub name: &'c str,
    pub line: u32,
    pub is_instance: bool,
    pub has_initial: bool,
}

/// The names that are left of declarations.
#[derive(Clone, Copy)]
pub struct DeclaredNames<'c> {
    /// Those of the declaration that is begun.
    pub names: &'c [Named],
    /// Whether that one declares instances.
    pub is_instance: bool,
    /// Whether that one has an initial value.
    pub has_initial: bool,
    /// The declarations after it.
    pub declarations: &'c [Declaration],
}

/// The names of declarations, in the order of the text.
pub fn declared_names<'c>(declarations: &'c [Declaration]) -> DeclaredNames<'c>
    ensures { names_left result ≡ declared_names declarations.now }
{
    DeclaredNames {
        names: &[],
        is_instance: false,
        has_initial: false,
        declarations,
    }
}

impl<'c> Iterator for DeclaredNames<'c> {
    type Item = Declared<'c>;

    ghost next_gives = { YieldsFirstBy name_shown names_left };

    ghost remaining = { item_count names_left };

    fn next(&mut self) -> Option<Declared<'c>> {
        'declarations: loop {
            if let Some((named, names)) = self.names.split_first() {
                self.names = names;
                return Some(Declared {
                    name: named.name.as_str(),
                    line: named.place.line,
                    is_instance: self.is_instance,
                    has_initial: self.has_initial,
                });
            }
            let (declaration, declarations) = self.declarations.split_first()?;
            self.names = declaration.names.as_slice();
            self.is_instance = is_block(&declaration.declared.form);
            self.has_initial = declaration.initial.is_some();
            self.declarations = declarations;
        }
    }
}

/// Whether a type is a function block (IEC 61131-3:2003, 2.5.2.1).
pub fn is_block(form: &Form) -> bool
    ensures { result ≡ is_block form.now }
{
    matches!(form, Form::Block(_))
}

/// The names that a unit declares, externals among them, each with an entry.
pub fn name_table(alloc: Global, unit: &Unit) -> Result<Table<bool>, AllocError>
    ensures { IfOk result (λ table. (name : List ℕ) → is_some (get table name)
        ≡ declares unit.now name) }
{
    let mut table = Table::new(alloc);
    put_names(alloc, &mut table, unit.inputs.as_slice())?;
    put_names(alloc, &mut table, unit.outputs.as_slice())?;
    put_names(alloc, &mut table, unit.variables.as_slice())?;
    put_names(alloc, &mut table, unit.externals.as_slice())?;
    Ok(table)
}

// Puts the names that declarations give into a table.
fn put_names(
    alloc: Global,
    table: &mut Table<bool>,
    declarations: &[Declaration],
) -> Result<(), AllocError>
    ensures { OnOk result ((name : List ℕ) → is_some (get table.new name)
        ≡ (is_some (get table.old name) || is_declared declarations.now name)) }
{
    'names: for declared in declared_names(declarations) {
        table.put(alloc, declared.name, true)?;
    }
    Ok(())
}
