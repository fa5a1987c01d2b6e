// What is reported of the types of an instruction.

ghost use Rattle.std.specs.Prelude.{◌≡◌, OnOk};
ghost use Rattle.base_texts.specs.Puts.{Puts};
ghost use Rattle.reasons_types.specs.TypeReasons.{is_type_number, type_lines};

use crate::types_inputs::put_called;
use crate::types_operands::put_operands_of;
use crate::types_taken::put_taken;
use crate::types_wanted::put_wanted;
use il_syntax::tree::Instruction;
use load_scope::UnitScope;
use std::alloc::AllocError;

/// The type that the current result must have, what the operator takes, the types of an own function's inputs, and those of the operands.
pub fn put_types(
    text: &mut String,
    scope: &UnitScope<'_>,
    instruction: &Instruction,
) -> Result<(), AllocError>
    ensures { OnOk result (Puts text.old text.new
        (type_lines scope.now.config scope.now.unit instruction.now)) }
{
    put_wanted(text, scope, instruction)?;
    put_taken(text, instruction)?;
    put_called(text, scope.names(), instruction)?;
    put_operands_of(text, scope, instruction)
}

/// Whether the types of operands give the reason.
pub fn is_type_number(number: u16) -> bool
    ensures { result ≡ is_type_number number }
{
    number == 30 || number == 31 || number == 32
}
