// The values with which slots begin.

ghost use Rattle.std.specs.Prelude.{◌≡◌, [], IfOk, OnOk};
ghost use Rattle.load_slots.specs.Layout.{rows};
ghost use Rattle.load_code.specs.Laying.{with_value, with_values};

use crate::laying::Opening;
use il_semantics::value::Value;
use load_slots::parts::parts_of;
use std::alloc::{AllocError, Global};
use std::marker::Model;

/// The number and the Boolean with which each slot begins that a task keeps from one scan to the next.
#[derive(Drop)]
pub struct FirstRows {
    numbers: Vec<i64>,
    flags: Vec<bool>,
}

impl Model for FirstRows {
    ghost use Rattle.load_slots.specs.Layout.{Rows, rows_code};

    ghost Value = { Rows };

    ghost coded = { rows_code };

    ghost view = { λ r. record { numbers = r.numbers.items; flags = r.flags.items } };
}

impl FirstRows {
    // No slot.
    fn new(alloc: Global) -> FirstRows
        ensures { result ≡ rows [] [] }
    {
        FirstRows {
            numbers: Vec::new(alloc),
            flags: Vec::new(alloc),
        }
    }

    // Adds the value of one slot more.
    fn push(&mut self, value: Value) -> Result<(), AllocError>
        ensures { OnOk result (self.new ≡ with_value self.old value) }
    {
        let (number, flag) = parts_of(value);
        self.numbers.push(number)?;
        self.flags.push(flag)?;
        Ok(())
    }

    /// The values with which slots begin.
    pub(crate) fn of(alloc: Global, openings: &[Opening]) -> Result<FirstRows, AllocError>
        ensures { IfOk result (λ r. r ≡ with_values (rows [] []) openings.now) }
    {
        let mut first = FirstRows::new(alloc);
        'values: for opening in openings {
            first.push(opening.value)?;
        }
        Ok(first)
    }

    /// The numbers; 0 at a slot of a Boolean.
    pub fn numbers(&self) -> &[i64]
        ensures { result.now ≡ self.now.numbers }
    {
        self.numbers.as_slice()
    }

    /// The Booleans; FALSE at a slot of a number.
    pub fn flags(&self) -> &[bool]
        ensures { result.now ≡ self.now.flags }
    {
        self.flags.as_slice()
    }
}
