//! Passes the token list of a syntax tree to a receiver, token by token.

ghost use Rattle.std.specs.Prelude.{◌≡◌, ◌++◌, false, true};
ghost use Rattle.jsonpath_paths.specs.declared.text.str_reader.StrRange.{StrRange};
ghost use denote.Ref.{Bor};
ghost use Rattle.jsonpath_paths.specs.tree.View.{path_of, inner_of, condition_of, term_of};
ghost use Rattle.jsonpath_paths.specs.tree.Visit.{path_tokens, one_step, inner_tokens, condition_tokens, term_tokens, MayReadPath, MayReadInner, MayReadCondition, MayReadTerm};
ghost use Rattle.jsonpath_paths.specs.plan.Handed.{Handed};

use crate::text::str_reader::StrRange;
use crate::token::tokens::ParseToken;
use crate::tree::parser_node::{Condition, Inner, ParserNode, ParserStep, Term};
use crate::tree::parser_token_handler::ParserTokenHandler;
use crate::tree::token_list::root_token;

/// A trait: a walk over a syntax tree. It passes the tree's token list (the tree written out as a list of
/// `ParseToken`s), token by token, to a receiver, which is a `ParserTokenHandler`.
///
/// ```text
/// struct Walker;
///
/// impl ParserNodeVisitor for Walker {}
/// ```
pub trait ParserNodeVisitor {
    /// Passes the token list of the syntax tree `node` (the tree written out as a list) to `handler`, token by token,
    /// also if the handler could not receive an earlier token. With each token it passes `reader`, a function that
    /// turns a span of the path text into a `V`, mostly a `&str`. Precondition: whatever `reader` returns for a span
    /// satisfies the handler's `takes`, a predicate that only proofs use.
    fn visit<V, H: ParserTokenHandler<V>, R: Fn(&StrRange) -> V>(
        &self,
        node: &ParserNode,
        handler: &mut H,
        reader: &R,
    )
        requires may { MayReadPath (R.pre reader.now) (path_of node.now) }
        requires reads { (s : Bor StrRange) (v : V) → R.post reader.now s v → H.takes handler.old s.now v }
        ensures stays_failed { H.has_failed handler.old ≡ true → H.has_failed handler.new ≡ true }
        ensures given { H.has_failed handler.new ≡ false → H.tokens handler.new ≡ H.tokens handler.old ++ path_tokens (path_of node.now) }
        ensures still_takes { (s : StrRange) (v : V) → H.takes handler.old s v → H.takes handler.new s v }
    {
        visit_node(node, handler, reader);
    }
}

// Hands over the tokens of a path: that of the root or the candidate, and those of the steps.
#[cycle(visit)]
#[tactic(auto, using(crate::proofs::tree::ViewLemmas::may_read_steps))]
fn visit_node<V, H: ParserTokenHandler<V>, R: Fn(&StrRange) -> V>(
    node: &ParserNode,
    handler: &mut H,
    reader: &R,
)
    requires may { MayReadPath (R.pre reader.now) (path_of node.now) }
    requires reads { (s : Bor StrRange) (v : V) → R.post reader.now s v → H.takes handler.old s.now v }
    ensures { Handed H.has_failed H.tokens H.takes handler.old handler.new (path_tokens (path_of node.now)) }
{
    handler.handle(&root_token(node.absolute), reader);
    for step in &node.steps {
        visit_step(step, handler, reader);
    }
}

// Hands over the tokens of a step: `Leaves` for `..`, brackets where it has them, else `In`; and what it selects.
#[cycle(visit)]
fn visit_step<V, H: ParserTokenHandler<V>, R: Fn(&StrRange) -> V>(
    step: &ParserStep,
    handler: &mut H,
    reader: &R,
)
    requires may { MayReadInner (R.pre reader.now) (inner_of step.now.inner) }
    requires reads { (s : Bor StrRange) (v : V) → R.post reader.now s v → H.takes handler.old s.now v }
    ensures { Handed H.has_failed H.tokens H.takes handler.old handler.new (one_step step.now.leaves step.now.bracket (inner_tokens (inner_of step.now.inner))) }
{
    if step.leaves {
        handler.handle(&ParseToken::Leaves, reader);
    }
    if step.bracket {
        handler.handle(&ParseToken::Array, reader);
    } else if !step.leaves {
        handler.handle(&ParseToken::In, reader);
    }
    visit_step_inner(&step.inner, handler, reader);
    if step.bracket {
        handler.handle(&ParseToken::ArrayEof, reader);
    }
}

// Hands over the token or the filter that a step has behind its dots or in its brackets.
#[cycle(visit)]
fn visit_step_inner<V, H: ParserTokenHandler<V>, R: Fn(&StrRange) -> V>(
    inner: &Inner,
    handler: &mut H,
    reader: &R,
)
    requires may { MayReadInner (R.pre reader.now) (inner_of inner.now) }
    requires reads { (s : Bor StrRange) (v : V) → R.post reader.now s v → H.takes handler.old s.now v }
    ensures { Handed H.has_failed H.tokens H.takes handler.old handler.new (inner_tokens (inner_of inner.now)) }
{
    match inner {
        Inner::Token(token) => handler.handle(token, reader),
        Inner::Filter(condition) => visit_condition(condition, handler, reader),
    }
}

// Hands over the tokens of a condition: first those of what it joins or compares, then the operator.
#[cycle(visit)]
fn visit_condition<V, H: ParserTokenHandler<V>, R: Fn(&StrRange) -> V>(
    condition: &Condition,
    handler: &mut H,
    reader: &R,
)
    requires may { MayReadCondition (R.pre reader.now) (condition_of condition.now) }
    requires reads { (s : Bor StrRange) (v : V) → R.post reader.now s v → H.takes handler.old s.now v }
    ensures { Handed H.has_failed H.tokens H.takes handler.old handler.new (condition_tokens (condition_of condition.now)) }
{
    match condition {
        Condition::Lone(path) => visit_node(path, handler, reader),
        Condition::Compare(left, op, right) => {
            visit_term(left, handler, reader);
            visit_term(right, handler, reader);
            handler.handle(&ParseToken::Filter(*op), reader);
        }
        Condition::Join(op, left, right) => {
            visit_condition(left, handler, reader);
            visit_condition(right, handler, reader);
            handler.handle(&ParseToken::Filter(*op), reader);
        }
    }
}

// Hands over the tokens of a side of a comparison: a path or a literal.
#[cycle(visit)]
fn visit_term<V, H: ParserTokenHandler<V>, R: Fn(&StrRange) -> V>(
    term: &Term,
    handler: &mut H,
    reader: &R,
)
    requires may { MayReadTerm (R.pre reader.now) (term_of term.now) }
    requires reads { (s : Bor StrRange) (v : V) → R.post reader.now s v → H.takes handler.old s.now v }
    ensures { Handed H.has_failed H.tokens H.takes handler.old handler.new (term_tokens (term_of term.now)) }
{
    match term {
        Term::Path(path) => visit_node(path, handler, reader),
        Term::Literal(token) => handler.handle(token, reader),
    }
}
