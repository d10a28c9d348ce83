//! The filters of a path, one after the other: the steps before the next one, and where its condition ends.

ghost use Rattle.std.specs.Prelude.{◌≡◌, ◌≤◌, map, drop, length, IfNone, IfSome, IsTrue};
ghost use Rattle.std.specs.List.{list_all};
ghost use Rattle.jsonpath_paths.specs.tree.Tree.{PathSteps};
ghost use Rattle.jsonpath_select.specs.plan.NextFilter.{CodesSteps, ComesNext, behind_leave};
ghost use Rattle.jsonpath_select.specs.plan.Ordered.{instruction_of};
ghost use Rattle.jsonpath_select.specs.plan.Unfiltered.{is_plain_step};

use crate::machine::instruction::Instruction;

// The plain steps to a filter, and how it takes its candidates from where they lead: `leaves` says that `..` stands
// before it, `deep` that its own `@` has a step, as in `[?(@.a)]`.
#[derive(Clone, Copy)]
pub struct FilterApproach<'c, 't> {
    pub(crate) steps: &'c [Instruction<'t>],
    pub(crate) leaves: bool,
    pub(crate) deep: bool,
}

// The plain steps that lead to the next filter, and the instructions from its condition on; None if no filter is left.
pub(crate) fn next_filter<'c, 't>(
    left: &'c [Instruction<'t>],
) -> Option<(FilterApproach<'c, 't>, &'c [Instruction<'t>])>
    requires { (ss : PathSteps) × CodesSteps left.now ss }
    ensures some { IfSome result (λ next. ComesNext left.now next.0 next.1.now) }
    ensures none { IfNone result (IsTrue (list_all is_plain_step left.now)) }
{
    for (end, instruction) in left.iter().enumerate() {
        match instruction {
            Instruction::Step { .. } => {}
            Instruction::Enter { leaves, deep } => {
                let approach = FilterApproach {
                    steps: &left[..end],
                    leaves: *leaves,
                    deep: *deep,
                };
                return Some((approach, &left[end + 1..]));
            }
            _ => unreachable!(),
        }
    }
    None
}

// The index behind the end of the filter with whose condition the instructions begin.
pub(crate) fn condition_end(left: &[Instruction<'_>]) -> usize
    ensures within { result ≤ length left.now }
    ensures behind { map instruction_of (drop result left.now) ≡ behind_leave 0 (map instruction_of left.now) }
{
    let mut depth: usize = 0;
    for (place, instruction) in left.iter().enumerate() {
        match instruction {
            Instruction::Enter { .. } => depth += 1,
            Instruction::Leave => {
                if depth == 0 {
                    return place + 1;
                }
                depth -= 1;
            }
            _ => {}
        }
    }
    left.len()
}

// The instructions behind the end of the filter with whose condition these begin.
pub(crate) fn instructions_after_condition<'c, 't>(
    left: &'c [Instruction<'t>],
) -> &'c [Instruction<'t>]
    ensures behind { map instruction_of result.now ≡ behind_leave 0 (map instruction_of left.now) }
    ensures within { length result.now ≤ length left.now }
{
    &left[condition_end(left)..]
}
