//! Copies of tokens and trees, which mean what the originals mean.

ghost use Rattle.std.specs.Prelude.{◌≡◌, IfOk};
ghost use Rattle.jsonpath_paths.specs.tree.View.{path_of, inner_of, condition_of, term_of};

use crate::token::tokens::ParseToken;
use crate::tree::parser_node::{Condition, Inner, ParserNode, ParserStep, Term, node_of_steps};
use std::alloc::{AllocError, Global};

/// Clones a token to an equal one. The only error is out of memory, for a token with a list of names or indexes.
impl Clone for ParseToken {
    ghost is_clone = { λ token copy. copy ≡ token };

    fn clone(&self) -> Result<ParseToken, AllocError> {
        match self {
            ParseToken::Absolute => Ok(ParseToken::Absolute),
            ParseToken::Relative => Ok(ParseToken::Relative),
            ParseToken::In => Ok(ParseToken::In),
            ParseToken::Leaves => Ok(ParseToken::Leaves),
            ParseToken::All => Ok(ParseToken::All),
            ParseToken::Key(s) => Ok(ParseToken::Key(*s)),
            ParseToken::Keys(spans) => Ok(ParseToken::Keys(spans.clone()?)),
            ParseToken::Array => Ok(ParseToken::Array),
            ParseToken::ArrayEof => Ok(ParseToken::ArrayEof),
            ParseToken::Filter(op) => Ok(ParseToken::Filter(*op)),
            ParseToken::Range(from, to, step) => Ok(ParseToken::Range(*from, *to, *step)),
            ParseToken::Union(indexes) => Ok(ParseToken::Union(indexes.clone()?)),
            ParseToken::Number(d) => Ok(ParseToken::Number(*d)),
            ParseToken::Bool(b) => Ok(ParseToken::Bool(*b)),
            ParseToken::Eof => Ok(ParseToken::Eof),
        }
    }
}

/// Clones a syntax tree: the clone is an equal tree. `clone` returns a `Result`; its only error is out of memory.
impl Clone for ParserNode {
    ghost is_clone = { λ node copy. path_of copy ≡ path_of node };

    fn clone(&self) -> Result<ParserNode, AllocError> {
        copy_node(*self.steps.allocator(), self)
    }
}

// A copy of a path's tree.
#[cycle(copy)]
#[tactic(auto, using(crate::proofs::parser::LevelLemmas::steps_pushed, crate::specs::tree::View::path_of_out))]
fn copy_node(alloc: Global, path: &ParserNode) -> Result<ParserNode, AllocError>
    ensures { IfOk result (λ p. path_of p ≡ path_of path.now) }
{
    let mut steps: Vec<ParserStep> = Vec::new(alloc);
    for step in &path.steps {
        let inner = copy_step_inner(alloc, &step.inner)?;
        steps.push(ParserStep {
            leaves: step.leaves,
            bracket: step.bracket,
            inner,
        })?;
    }
    Ok(node_of_steps(path.absolute, steps))
}

// A copy of what a step selects: a token or a filter.
#[cycle(copy)]
fn copy_step_inner(alloc: Global, inner: &Inner) -> Result<Inner, AllocError>
    ensures { IfOk result (λ i. inner_of i ≡ inner_of inner.now) }
{
    match inner {
        Inner::Token(token) => Ok(Inner::Token(token.clone()?)),
        Inner::Filter(condition) => Ok(Inner::Filter(copy_condition(alloc, condition)?)),
    }
}

// A copy of the condition of a filter.
#[cycle(copy)]
fn copy_condition(alloc: Global, condition: &Condition) -> Result<Condition, AllocError>
    ensures { IfOk result (λ c. condition_of c ≡ condition_of condition.now) }
{
    match condition {
        Condition::Lone(path) => Ok(Condition::Lone(copy_node(alloc, path)?)),
        Condition::Compare(left, op, right) => {
            let first = copy_term(alloc, left)?;
            let second = copy_term(alloc, right)?;
            Ok(Condition::Compare(first, *op, second))
        }
        Condition::Join(op, left, right) => {
            let first = Box::new(alloc, copy_condition(alloc, left)?)?;
            let second = Box::new(alloc, copy_condition(alloc, right)?)?;
            Ok(Condition::Join(*op, first, second))
        }
    }
}

// A copy of a side of a comparison.
#[cycle(copy)]
fn copy_term(alloc: Global, term: &Term) -> Result<Term, AllocError>
    ensures { IfOk result (λ t. term_of t ≡ term_of term.now) }
{
    match term {
        Term::Path(path) => Ok(Term::Path(copy_node(alloc, path)?)),
        Term::Literal(token) => Ok(Term::Literal(token.clone()?)),
    }
}
