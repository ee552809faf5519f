ghost use Rattle.std.specs.Prelude.{◌≡◌, IfOk, OnOk};
ghost use Rattle.sr_code.specs.Operands.{put_value};
ghost use Rattle.sr_core.specs.declared.component.Core.{Core};
ghost use Rattle.sr_meaning.specs.Expressions.{leaf_meaning};
ghost use Rattle.sr_gen_expr.specs.Emitting.{Gives, instruction_of};

use crate::emitting::emit;
use sr_code::{Coded, Instruction};
use sr_core::Leaf;
use sr_value::{Duplicate, NoMemory, Place, Row};
use std::alloc::Global;

/// Emits the code of a leaf, which puts its value in a program of any core.
pub fn gen_leaf(
    alloc: Global,
    place: Place,
    leaf: &Leaf,
    out: &mut Row<Coded>,
) -> Result<(), NoMemory>
    ensures { OnOk result ((core : Core) → Gives put_value core place (leaf_meaning leaf.now) out.old out.new) }
{
    let instruction = leaf_instruction(alloc, leaf)?;
    emit(place, instruction, out)?;
    Ok(())
}

/// The instruction of a leaf.
fn leaf_instruction(alloc: Global, leaf: &Leaf) -> Result<Instruction, NoMemory>
    ensures { IfOk result (λ i. i ≡ instruction_of leaf.now) }
{
    match leaf {
        Leaf::Constant(value) => Ok(Instruction::Constant(value.copy(alloc)?)),
        Leaf::Operation { whose, op } => Ok(Instruction::Operation {
            whose: *whose,
            op: *op,
        }),
        Leaf::MyResource => Ok(Instruction::MyResource),
        Leaf::MyMachine => Ok(Instruction::MyMachine),
        Leaf::Count { op } => Ok(Instruction::Count { op: *op }),
        Leaf::MakeMachine => Ok(Instruction::MakeMachine),
        Leaf::Moment => Ok(Instruction::Moment),
    }
}
