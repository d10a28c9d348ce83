//! The machine's two stacks: the candidates of each open filter, and the operands.

ghost use Rattle.std.specs.Prelude.{◌≡◌, ◌++◌, [], ◌∷◌, List, length, OnOk};
ghost use Rattle.jsonpath_select.specs.plan.Stack.{EndsInMarks, EndsInOne, found_on};
ghost use Rattle.jsonpath_select.specs.declared.tagged.marks.Found.{Found as FoundOf};

use crate::tagged::marks::Found;
use crate::tagged::operand::Operand;
use jsonpath_nodes::NoMemory;

// The candidates of each filter that is open, the innermost last, and the operands.
#[derive(Drop)]
pub struct Stacks<'t, M> {
    pub(crate) frames: Vec<Found<M>>,
    pub(crate) operands: Vec<Operand<'t, M>>,
}

impl<'t, M> Stacks<'t, M> {
    // The candidates of the innermost filter that is open, or the root outside all filters.
    pub(crate) fn innermost_candidates(&self) -> &Found<M>
        requires { EndsInOne self.now.frames.items }
        ensures { (below : List (FoundOf M)) × (self.now.frames.items ≡ below ++ result.now ∷ []) }
    {
        match self.frames.as_slice() {
            [.., frame] => frame,
            [] => unreachable!(),
        }
    }

    // How many candidates the innermost filter that is open has.
    pub(crate) fn candidate_count(&self) -> usize
        requires { EndsInOne self.now.frames.items }
        ensures { (below : List (FoundOf M)) × (frame : FoundOf M) × (self.now.frames.items ≡ below ++ frame ∷ []) × (result ≡ length frame.pairs.marks.items) }
    {
        self.innermost_candidates().pairs.marks.as_slice().len()
    }
}

// Takes the marks of a path from the top of the operands, where they have to be.
pub(crate) fn pop_marks<M: Drop>(operands: &mut Vec<Operand<'_, M>>) -> Found<M>
    requires { EndsInMarks operands.old.items }
    ensures { operands.old.items ≡ operands.new.items ++ found_on result ∷ [] }
{
    match operands.pop() {
        Some(Operand::Marks(found)) => found,
        _ => unreachable!(),
    }
}

// Puts something on top of a stack.
pub(crate) fn push_top<T: Drop>(stack: &mut Vec<T>, top: T) -> Result<(), NoMemory>
    ensures { OnOk result (stack.new.items ≡ stack.old.items ++ top ∷ []) }
{
    stack.push(top)?;
    Ok(())
}

// Takes what is on top of a stack, which has to hold something.
pub(crate) fn pop_top<T>(stack: &mut Vec<T>) -> T
    requires { EndsInOne stack.old.items }
    ensures { stack.old.items ≡ stack.new.items ++ result ∷ [] }
{
    match stack.pop() {
        Some(top) => top,
        None => unreachable!(),
    }
}
