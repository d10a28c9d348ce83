//! The instructions by which a path, or a condition, is evaluated by sets: those of its token list, and between them such
//! as make a set of what a step has found, and decide each location once.

ghost use Rattle.std.specs.Prelude.{◌≡◌, ◌++◌, map, OnOk, IfOk};
ghost use Rattle.jsonpath_paths.specs.tree.Tree.{Condition};
ghost use Rattle.jsonpath_select.specs.plan.Code.{all_by_sets, by_sets, condition_code, decided_by_sets};
ghost use Rattle.jsonpath_select.specs.plan.NextFilter.{CodesCondition};
ghost use Rattle.jsonpath_select.specs.plan.Ordered.{instruction_of};

use crate::machine::instruction::Instruction;
use jsonpath_nodes::NoMemory;
use std::alloc::Global;

// The instructions of a path by sets, from those as they are.
pub(crate) fn instructions_by_sets<'t>(
    alloc: Global,
    code: &[Instruction<'t>],
) -> Result<Vec<Instruction<'t>>, NoMemory>
    ensures { IfOk result (λ found. map instruction_of found.items ≡ all_by_sets (map instruction_of code.now)) }
{
    let mut found = Vec::with_capacity(alloc, code.len())?;
    for instruction in code {
        push_by_sets(*instruction, &mut found)?;
    }
    Ok(found)
}

// The instructions by which a condition is decided by sets, from those of the condition with the end of its filter. The
// candidates that pass stay as they are, with their repeats.
pub(crate) fn condition_by_sets<'t>(
    alloc: Global,
    condition: &[Instruction<'t>],
) -> Result<Vec<Instruction<'t>>, NoMemory>
    ensures { IfOk result (λ found. (f : Condition) → CodesCondition condition.now f → map instruction_of found.items ≡ decided_by_sets (condition_code f)) }
{
    let mut found = Vec::with_capacity(alloc, condition.len())?;
    found.push(Instruction::Distinct)?;
    for instruction in &condition[..condition.len().saturating_sub(1)] {
        push_by_sets(*instruction, &mut found)?;
    }
    found.push(Instruction::Leave)?;
    found.push(Instruction::PutBack)?;
    Ok(found)
}

// Adds an instruction and what stands before and behind it by sets.
fn push_by_sets<'t>(
    instruction: Instruction<'t>,
    code: &mut Vec<Instruction<'t>>,
) -> Result<(), NoMemory>
    ensures { OnOk result (map instruction_of code.new.items ≡ map instruction_of code.old.items ++ by_sets (instruction_of instruction.entry)) }
{
    if let Instruction::Step { leaves: true, .. }
    | Instruction::Enter { leaves: true, .. } = instruction
    {
        code.push(Instruction::Topmost)?;
    }
    code.push(instruction)?;
    match instruction {
        Instruction::Step { .. } => code.push(Instruction::InOrder)?,
        Instruction::Enter { .. } => code.push(Instruction::Distinct)?,
        Instruction::Leave => {
            code.push(Instruction::PutBack)?;
            code.push(Instruction::InOrder)?;
        }
        _ => {}
    }
    Ok(())
}
