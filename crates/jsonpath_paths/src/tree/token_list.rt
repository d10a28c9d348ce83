//! The token list of a tree.

ghost use Rattle.std.specs.Prelude.{◌≡◌, ◌++◌, IfOk, OnOk};
ghost use Rattle.jsonpath_paths.specs.tree.View.{path_of, inner_of, condition_of, term_of};
ghost use Rattle.jsonpath_paths.specs.tree.Visit.{root_token, path_tokens, one_step, inner_tokens, condition_tokens, term_tokens};

use crate::token::tokens::ParseToken;
use crate::tree::parser_node::{Condition, Inner, ParserNode, ParserStep, Term};
use std::alloc::{AllocError, Global};

// Room for the tokens of most paths.
const ROOM: usize = 32;

// The token list of a path's tree. At first there is room for its text's tokens, or those of most paths if fewer.
pub(crate) fn token_list(
    alloc: Global,
    path: &ParserNode,
    text_tokens: usize,
) -> Result<Vec<ParseToken>, AllocError>
    ensures { IfOk result (λ tokens. tokens.items ≡ path_tokens (path_of path.now)) }
{
    let mut tokens = Vec::with_capacity(alloc, text_tokens.min(ROOM))?;
    push_path(path, &mut tokens)?;
    Ok(tokens)
}

// The token that a path begins with: `Absolute` from the root, else `Relative`.
pub(crate) fn root_token(absolute: bool) -> ParseToken
    ensures { result ≡ root_token absolute }
{
    if absolute {
        ParseToken::Absolute
    } else {
        ParseToken::Relative
    }
}

// Adds the tokens of a path: that of the root or the candidate, and those of the steps.
#[cycle(list)]
fn push_path(path: &ParserNode, tokens: &mut Vec<ParseToken>) -> Result<(), AllocError>
    ensures { OnOk result (tokens.new.items ≡ tokens.old.items ++ path_tokens (path_of path.now)) }
{
    tokens.push(root_token(path.absolute))?;
    for step in &path.steps {
        push_step(step, tokens)?;
    }
    Ok(())
}

// Adds the tokens of a step: `Leaves` for `..`, brackets where it has them, else `In`; and what it selects.
#[cycle(list)]
fn push_step(step: &ParserStep, tokens: &mut Vec<ParseToken>) -> Result<(), AllocError>
    ensures { OnOk result (tokens.new.items ≡ tokens.old.items ++ one_step step.now.leaves step.now.bracket (inner_tokens (inner_of step.now.inner))) }
{
    if step.leaves {
        tokens.push(ParseToken::Leaves)?;
    }
    if step.bracket {
        tokens.push(ParseToken::Array)?;
    } else if !step.leaves {
        tokens.push(ParseToken::In)?;
    }
    push_step_inner(&step.inner, tokens)?;
    if step.bracket {
        tokens.push(ParseToken::ArrayEof)?;
    }
    Ok(())
}

// Adds the token or the filter that a step has behind its dots or in its brackets.
#[cycle(list)]
fn push_step_inner(inner: &Inner, tokens: &mut Vec<ParseToken>) -> Result<(), AllocError>
    ensures { OnOk result (tokens.new.items ≡ tokens.old.items ++ inner_tokens (inner_of inner.now)) }
{
    match inner {
        Inner::Token(token) => tokens.push(token.clone()?)?,
        Inner::Filter(condition) => push_condition(condition, tokens)?,
    }
    Ok(())
}

// Adds the tokens of a condition: first those of what it joins or compares, then the operator.
#[cycle(list)]
fn push_condition(condition: &Condition, tokens: &mut Vec<ParseToken>) -> Result<(), AllocError>
    ensures { OnOk result (tokens.new.items ≡ tokens.old.items ++ condition_tokens (condition_of condition.now)) }
{
    match condition {
        Condition::Lone(path) => push_path(path, tokens)?,
        Condition::Compare(left, op, right) => {
            push_term(left, tokens)?;
            push_term(right, tokens)?;
            tokens.push(ParseToken::Filter(*op))?;
        }
        Condition::Join(op, left, right) => {
            push_condition(left, tokens)?;
            push_condition(right, tokens)?;
            tokens.push(ParseToken::Filter(*op))?;
        }
    }
    Ok(())
}

// Adds the tokens of a side of a comparison: a path or a literal.
#[cycle(list)]
fn push_term(term: &Term, tokens: &mut Vec<ParseToken>) -> Result<(), AllocError>
    ensures { OnOk result (tokens.new.items ≡ tokens.old.items ++ term_tokens (term_of term.now)) }
{
    match term {
        Term::Path(path) => push_path(path, tokens)?,
        Term::Literal(token) => tokens.push(token.clone()?)?,
    }
    Ok(())
}
