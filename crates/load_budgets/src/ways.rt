// How control paths go on after each instruction of a body.

ghost use Rattle.std.specs.Prelude.{◌≡◌, IfOk, Some, map, slice_get};
ghost use Rattle.il_syntax.specs.declared.tree.Unit.{Unit as ProgramUnit};
ghost use Rattle.load_budgets.specs.Ways.{way_of, callee_of};

use base_lists::Items;
use il_syntax::tree::{Condition, Instruction, Unit};
use load_scope::Scoped;
use load_scope::entry::{Binding, BlockType, VariableType};
use std::alloc::{AllocError, Global};

/// How a control path goes on after an instruction.
#[derive(Clone, Copy)]
pub enum Way {
    /// To the next place, after the body of an own unit if it runs one.
    Next {
        callee: Option<usize>,
    },
    /// To a place, with a condition also to the next.
    Jump {
        condition: Condition,
        to: Option<usize>,
    },
    /// Out of the body, with a condition also to the next place.
    Return {
        condition: Condition,
    },
}

/// The ways of a unit's instructions.
pub fn ways(alloc: Global, names: &Scoped, at: usize, unit: &Unit) -> Result<Items<Way>, AllocError>
    requires { slice_get names.now.units at ≡ Some unit.now }
    ensures { IfOk result (λ ways. ways
        ≡ map (λ s. way_of names.now unit.now s.instruction) unit.now.body.steps) }
{
    let mut ways = Items::new(alloc);
    'steps: for step in unit.body.steps.as_slice() {
        ways.push(way_of(names, at, &step.instruction))?;
    }
    Ok(ways)
}

/// The way of an instruction.
#[inline(always)]
pub fn way_of(names: &Scoped, at: usize, instruction: &Instruction) -> Way
    ensures { (unit : ProgramUnit) → slice_get names.now.units at ≡ Some unit → result
        ≡ way_of names.now unit instruction.now }
{
    match instruction {
        Instruction::Jump { condition, label } => Way::Jump {
            condition: *condition,
            to: names.label(at, label.name.as_str()),
        },
        Instruction::Return { condition } => Way::Return {
            condition: *condition,
        },
        Instruction::Call { instance, .. } => Way::Next {
            callee: own_block(names.meaning(at, instance.name.as_str())),
        },
        Instruction::Invoke { function, .. } => Way::Next {
            callee: names.function(function.name.as_str()),
        },
        _ => Way::Next { callee: None },
    }
}

// The own block of an instance.
fn own_block(binding: Option<Binding>) -> Option<usize>
    ensures { result ≡ callee_of binding }
{
    match binding {
        Some(Binding::Variable(variable)) => match variable.declared {
            VariableType::Instance(Some(BlockType::Own(number))) => Some(number),
            _ => None,
        },
        _ => None,
    }
}
