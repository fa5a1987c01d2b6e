// What a name is never.

ghost use Rattle.std.specs.Prelude.{◌≡◌, OnOk};
ghost use Rattle.base_texts.specs.Puts.{Puts};
ghost use Rattle.show_names.specs.Warnings.{called_never, variable_never, output_never, never_of, never_line, never_text};

use std::alloc::AllocError;

/// What never happens to a name.
#[derive(Clone, Copy)]
pub enum Never {
    Read,
    Written,
    /// Neither read nor written.
    Used,
    Called,
}

/// The list of a unit that declares a name (IEC 61131-3:2003, 2.4.3).
#[derive(Clone, Copy)]
pub enum Origin {
    Input,
    Output,
    Variable,
    External,
}

/// Of what is called, or declared as an instance.
pub fn called_never(called: bool) -> Option<Never>
    ensures { result ≡ called_never called }
{
    if called { None } else { Some(Never::Called) }
}

/// Of a variable or a global. An initial value that is read and never written is a constant.
pub fn variable_never(has_initial: bool, read: bool, written: bool) -> Option<Never>
    ensures { result ≡ variable_never has_initial read written }
{
    match (read, written) {
        (true, true) => None,
        (true, false) => {
            if has_initial {
                None
            } else {
                Some(Never::Written)
            }
        }
        (false, true) => Some(Never::Read),
        (false, false) => Some(Never::Used),
    }
}

// Of an output, which goes to the caller.
fn output_never(read: bool, written: bool) -> Option<Never>
    ensures { result ≡ output_never read written }
{
    match (read, written) {
        (_, true) => None,
        (true, false) => Some(Never::Written),
        (false, false) => Some(Never::Used),
    }
}

/// Of a name that is no instance. An input comes from the caller, and an external is read and
/// written elsewhere too.
pub fn never_of(origin: Origin, has_initial: bool, read: bool, written: bool) -> Option<Never>
    ensures { result ≡ never_of origin has_initial read written }
{
    match origin {
        Origin::Input => { if read { None } else { Some(Never::Read) } }
        Origin::Output => output_never(read, written),
        Origin::Variable => variable_never(has_initial, read, written),
        Origin::External => {
            if read || written {
                None
            } else {
                Some(Never::Used)
            }
        }
    }
}

/// A line for what a name is never, if there is something to say.
pub fn put_never(
    text: &mut String,
    line: u32,
    name: &str,
    never: Option<Never>,
) -> Result<(), AllocError>
    ensures { OnOk result (Puts text.old text.new (never_text line name.now never)) }
{
    match never {
        Some(never) => put_never_line(text, line, name, never),
        None => Ok(()),
    }
}

#[tactic(auto, unfolding(crate::specs::Warnings::never_line))]
fn put_never_line(text: &mut String, line: u32, name: &str, never: Never) -> Result<(), AllocError>
    ensures { OnOk result (Puts text.old text.new (never_line line name.now never)) }
{
    write!(text, "line {}: {} is never ", line, name)?;
    match never {
        Never::Read => text.push_str("read\n"),
        Never::Written => text.push_str("written\n"),
        Never::Used => text.push_str("used\n"),
        Never::Called => text.push_str("called\n"),
    }
}
