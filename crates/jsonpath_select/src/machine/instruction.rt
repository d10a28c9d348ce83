//! `Instruction`, what the machine runs, and the instructions of a token list, which are found from its end.

ghost use Rattle.std.specs.Prelude.{◌≡◌, OnOk, IfOk, map, reverse};
ghost use Rattle.jsonpath_select.specs.plan.Code.{scanned, with_dots, starts_with_step, note_own_step, in_brackets, scan};
ghost use Rattle.jsonpath_select.specs.plan.Ordered.{instruction_of, front_of, scan_of};

use crate::machine::stacks::push_top;
use jsonpath_nodes::NoMemory;
use jsonpath_paths::{FilterToken, ParseToken};
use std::alloc::Global;

// What the machine does next.
#[derive(Clone, Copy)]
pub enum Instruction<'t> {
    // A path begins: at the root where it is `absolute`, else at the candidates.
    Start { absolute: bool },
    // A plain step; `leaves` says that `..` stands before it, so that it is also taken from all below.
    Step { leaves: bool, token: &'t ParseToken },
    // A filter begins: `leaves` if `..` stands before it, `deep` if its own `@` has a step, as in `[?(@.a)]`.
    Enter { leaves: bool, deep: bool },
    // The filter ends.
    Leave,
    // A literal.
    Constant(&'t ParseToken),
    // A comparison of the two terms before it.
    Compares(FilterToken),
    // `&&` or `||` between the two conditions before it.
    Joins(FilterToken),
    // By sets: of what a path has found, a descent begins only at what is below nothing else found.
    Topmost,
    // By sets: what a path has found is put in document order, each location once.
    InOrder,
    // By sets: the candidates of the filter that begins are put aside, and each location of them is decided once.
    Distinct,
    // By sets: those put aside whose location has passed are taken.
    PutBack,
}

// The instructions of a token list, in their order.
pub(crate) fn instructions_of_token_list<'t>(
    alloc: Global,
    tokens: &'t [ParseToken],
) -> Result<Vec<Instruction<'t>>, NoMemory>
    ensures { IfOk result (λ code. map instruction_of code.items ≡ (scan tokens.now).code) }
{
    let mut code = scan_from_end(alloc, tokens)?;
    code.as_mut_slice().reverse();
    Ok(code)
}

// The instructions of a token list, from the last to the first, as a scan from its end finds them.
fn scan_from_end<'t>(
    alloc: Global,
    tokens: &'t [ParseToken],
) -> Result<Vec<Instruction<'t>>, NoMemory>
    ensures { IfOk result (λ code. front_of code.items ≡ (scan tokens.now).code) }
{
    let len = tokens.len();
    let mut code = Vec::with_capacity(alloc, len)?;
    let mut own = Vec::new(alloc);
    for i in 0..len {
        scan_token(&tokens[len - 1 - i], &mut code, &mut own)?;
    }
    Ok(code)
}

// Takes in the token before those taken so far: adds its instruction, or changes the one found last. `own` tells of
// each bracket that is open whether its own `@` has a step.
fn scan_token<'t>(
    token: &'t ParseToken,
    code: &mut Vec<Instruction<'t>>,
    own: &mut Vec<bool>,
) -> Result<(), NoMemory>
    ensures { OnOk result (scan_of code.new.items own.new.items ≡ scanned token.now (scan_of code.old.items own.old.items)) }
{
    match token {
        ParseToken::Absolute => push_top(code, Instruction::Start { absolute: true }),
        ParseToken::Relative => {
            let has_step = starts_with_step(code.as_slice());
            code.push(Instruction::Start { absolute: false })?;
            note_own_step(has_step, own)
        }
        ParseToken::In => note_dots_before_step(false, code),
        ParseToken::Leaves => note_dots_before_step(true, code),
        ParseToken::Array => {
            let deep = own.pop().unwrap_or(false);
            push_step_or_filter_of_bracket(deep, code)
        }
        ParseToken::ArrayEof => {
            code.push(Instruction::Leave)?;
            push_top(own, false)
        }
        ParseToken::Filter(op) if op.is_comparison() => push_top(code, Instruction::Compares(*op)),
        ParseToken::Filter(op) => push_top(code, Instruction::Joins(*op)),
        _ => push_top(code, Instruction::Constant(token)),
    }
}

// Whether the instructions found so far, the last one in front, begin with a step or a filter.
fn starts_with_step(code: &[Instruction<'_>]) -> bool
    ensures { result ≡ starts_with_step (front_of code.now) }
{
    match code {
        [.., Instruction::Step { .. }] | [.., Instruction::Enter { .. }] => true,
        _ => false,
    }
}

// Notes for the innermost bracket that its own `@` has a step, if `has_step` says that a path from that `@` has one.
fn note_own_step(has_step: bool, own: &mut Vec<bool>) -> Result<(), NoMemory>
    ensures { OnOk result (reverse own.new.items ≡ note_own_step has_step (reverse own.old.items)) }
{
    match own.pop() {
        Some(before) => push_top(own, before || has_step),
        None => Ok(()),
    }
}

// Notes at the step or filter found last that `.` or `..` stands before it. A `Constant` becomes a plain step.
fn note_dots_before_step(leaves: bool, code: &mut Vec<Instruction<'_>>) -> Result<(), NoMemory>
    ensures { OnOk result (front_of code.new.items ≡ with_dots leaves (front_of code.old.items)) }
{
    let found = match code.pop() {
        Some(Instruction::Constant(token)) | Some(Instruction::Step { token, .. }) => {
            Instruction::Step { leaves, token }
        }
        Some(Instruction::Enter { deep, .. }) => Instruction::Enter { leaves, deep },
        Some(other) => other,
        None => return Ok(()),
    };
    push_top(code, found)
}

// Takes in a bracket that opens. Where one token alone stands in it (names, indexes, a range or `*`), it is a plain
// step; else it is a filter, whose own `@` has a step if `deep` is set.
fn push_step_or_filter_of_bracket(
    deep: bool,
    code: &mut Vec<Instruction<'_>>,
) -> Result<(), NoMemory>
    ensures { OnOk result (front_of code.new.items ≡ in_brackets deep (front_of code.old.items)) }
{
    let filter = Instruction::Enter {
        leaves: false,
        deep,
    };
    match code.pop() {
        Some(Instruction::Constant(token)) => match code.pop() {
            Some(Instruction::Leave) => push_top(
                code,
                Instruction::Step {
                    leaves: false,
                    token,
                },
            ),
            Some(other) => {
                code.push(other)?;
                code.push(Instruction::Constant(token))?;
                push_top(code, filter)
            }
            None => {
                code.push(Instruction::Constant(token))?;
                push_top(code, filter)
            }
        },
        Some(other) => {
            code.push(other)?;
            push_top(code, filter)
        }
        None => push_top(code, filter),
    }
}
