// The lines of a unit.

ghost use Rattle.std.specs.Prelude.{◌≡◌, ◌++◌, map, option_map, OnOk};
ghost use Rattle.base_json.specs.Forms.{row_in};
ghost use Rattle.base_json.specs.Objects.{line_of, object};
ghost use Rattle.base_texts.specs.Puts.{Puts};
ghost use Rattle.show_names.specs.RangeLines.{front_text, reached_text, not_reached_text, refused_line, kind_word, heading_text, reached_members, reached_with, not_reached_members, variable_shown, refused_members, heading_members, refused_row, heading_row};

use crate::range_values::{add_result, add_variables, put_result, put_variables};
use crate::range_variables::{RangedVariable, instruction_variables};
use crate::source::put_told;
use base_json::form::Form;
use base_json::object::Object;
use il_semantics::known::Known;
use il_statics::Found;
use il_syntax::tree::{Step, Unit, UnitKind};
use ranges_pass::{PlaceFacts, RangeFault, Witness};
use std::alloc::{AllocError, Global};

/// Writes a row for each instruction.
#[derive(Drop)]
pub struct Lines<'s> {
    pub alloc: Global,
    pub form: Form,
    /// The rows so far.
    pub text: String,
    /// The text of the configuration, where plain lines show its instructions.
    pub source: Option<&'s [u8]>,
}

impl Witness for Lines<'_> {
    ghost use Rattle.std.specs.Prelude.{option_map, string_bytes};
    ghost use Rattle.show_names.specs.RangeLines.{step_row};

    ghost text = { λ l. string_bytes l.text };

    ghost shows = { λ l. step_row l.form (option_map (λ s. s.now) l.source) };

    fn reached(&mut self, step: &Step, known: &PlaceFacts) -> Result<(), AllocError> {
        match self.form {
            Form::Plain => put_reached(self.alloc, &mut self.text, self.source, step, known),
            Form::Json => put_reached_object(self.alloc, &mut self.text, step, known),
        }
    }

    fn not_reached(&mut self, step: &Step) -> Result<(), AllocError> {
        match self.form {
            Form::Plain => put_not_reached(&mut self.text, self.source, step),
            Form::Json => put_not_reached_object(self.alloc, &mut self.text, step),
        }
    }
}

// `line L`, and after it the text of the instruction, where that is to be shown.
fn put_front(text: &mut String, source: Option<&[u8]>, step: &Step) -> Result<(), AllocError>
    ensures { OnOk result (Puts text.old text.new
        (front_text (option_map (λ s. s.now) source.entry) step.now)) }
{
    write!(text, "line {}", step.place.line)?;
    put_told(text, source, step.place.offset as usize)
}

// `line L: result R`, and the variables that the instruction names.
fn put_reached(
    alloc: Global,
    text: &mut String,
    source: Option<&[u8]>,
    step: &Step,
    known: &PlaceFacts,
) -> Result<(), AllocError>
    ensures { OnOk result (Puts text.old text.new
        (reached_text (option_map (λ s. s.now) source.entry) step.now known.now)) }
{
    let variables = instruction_variables(alloc, known, &step.instruction)?;
    put_front(text, source, step)?;
    text.push_str(": result ")?;
    put_result(text, known.result())?;
    put_variables(text, variables.as_slice())?;
    text.push_str("\n")
}

// `line L: not reached`
fn put_not_reached(text: &mut String, source: Option<&[u8]>, step: &Step) -> Result<(), AllocError>
    ensures { OnOk result (Puts text.old text.new
        (not_reached_text (option_map (λ s. s.now) source.entry) step.now)) }
{
    put_front(text, source, step)?;
    text.push_str(": not reached\n")
}

// The object of an instruction that is reached.
fn put_reached_object(
    alloc: Global,
    text: &mut String,
    step: &Step,
    known: &PlaceFacts,
) -> Result<(), AllocError>
    ensures { OnOk result (Puts text.old text.new
        (line_of (object (reached_members step.now known.now)))) }
{
    let variables = instruction_variables(alloc, known, &step.instruction)?;
    let mut object = Object::begin(alloc)?;
    add_reached(
        &mut object,
        step.place.line,
        known.result(),
        variables.as_slice(),
    )?;
    object.put_line(text)
}

// Its line, its result and its variables.
fn add_reached(
    object: &mut Object,
    line: u32,
    found: Option<Known>,
    variables: &[RangedVariable<'_>],
) -> Result<(), AllocError>
    ensures { OnOk result (object.new ≡ object.old ++ reached_with line found
        (map variable_shown variables.now)) }
{
    object.number_member("line", u64::from(line))?;
    add_result(object, found)?;
    add_variables(object, variables)
}

// The object of an instruction that is not reached.
fn put_not_reached_object(alloc: Global, text: &mut String, step: &Step) -> Result<(), AllocError>
    ensures { OnOk result (Puts text.old text.new
        (line_of (object (not_reached_members step.now)))) }
{
    let mut object = Object::begin(alloc)?;
    object.number_member("line", u64::from(step.place.line))?;
    object.truth_member("reached", false)?;
    object.put_line(text)
}

/// The row of the instruction where the unit is refused.
pub fn put_refused(
    alloc: Global,
    text: &mut String,
    form: Form,
    found: &Option<Found<RangeFault>>,
) -> Result<(), AllocError>
    ensures { OnOk result (Puts text.old text.new (refused_row form found.now)) }
{
    match found {
        Some(found) => put_refusal(alloc, text, form, found.place().line, found.number()),
        None => Ok(()),
    }
}

// `line L: refused 43`, or its object.
fn put_refusal(
    alloc: Global,
    text: &mut String,
    form: Form,
    line: u32,
    number: u16,
) -> Result<(), AllocError>
    ensures { OnOk result (Puts text.old text.new
        (row_in form (refused_line line number) (refused_members line number))) }
{
    match form {
        Form::Plain => writeln!(text, "line {}: refused {}", line, number),
        Form::Json => {
            let mut object = Object::begin(alloc)?;
            object.number_member("line", u64::from(line))?;
            object.number_member("refused", u64::from(number))?;
            object.put_line(text)
        }
    }
}

// The word of a kind of unit.
fn kind_word(kind: UnitKind) -> &'static str
    ensures { result.now ≡ kind_word kind }
{
    match kind {
        UnitKind::Function(_, _) => "FUNCTION",
        UnitKind::FunctionBlock => "FUNCTION_BLOCK",
        UnitKind::Program => "PROGRAM",
    }
}

/// The heading of a unit.
pub fn put_heading(
    alloc: Global,
    text: &mut String,
    form: Form,
    unit: &Unit,
) -> Result<(), AllocError>
    ensures { OnOk result (Puts text.old text.new (heading_row form unit.now)) }
{
    match form {
        Form::Plain => put_heading_line(text, unit),
        Form::Json => put_heading_object(alloc, text, unit),
    }
}

// `PROGRAM COUNTS line 1`
fn put_heading_line(text: &mut String, unit: &Unit) -> Result<(), AllocError>
    ensures { OnOk result (Puts text.old text.new (heading_text unit.now)) }
{
    text.push_str(kind_word(unit.kind))?;
    text.push_str(" ")?;
    text.push_str(unit.name.name.as_str())?;
    writeln!(text, " line {}", unit.place.line)
}

// Its object.
fn put_heading_object(alloc: Global, text: &mut String, unit: &Unit) -> Result<(), AllocError>
    ensures { OnOk result (Puts text.old text.new (line_of (object (heading_members unit.now)))) }
{
    let mut object = Object::begin(alloc)?;
    add_heading(&mut object, unit)?;
    object.put_line(text)
}

fn add_heading(object: &mut Object, unit: &Unit) -> Result<(), AllocError>
    ensures { OnOk result (object.new ≡ object.old ++ heading_members unit.now) }
{
    object.text_member("kind", kind_word(unit.kind))?;
    object.text_member("unit", unit.name.name.as_str())?;
    object.number_member("line", u64::from(unit.place.line))
}
