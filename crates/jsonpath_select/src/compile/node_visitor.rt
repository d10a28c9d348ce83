//! Passes the token list of a compiled path to a visitor, token by token.
ghost use Rattle.std.specs.Prelude.{◌≡◌, ◌++◌, ◌∷◌, [], List, Bool, false, true};
ghost use Rattle.jsonpath_paths.specs.tree.View.{path_of, inner_of, condition_of, term_of};
ghost use Rattle.jsonpath_paths.specs.tree.Visit.{root_token, path_tokens, one_step, inner_tokens, condition_tokens, term_tokens};

use crate::compile::node::Node;
use jsonpath_paths::laws::one_tree_per_text;
use jsonpath_paths::{Condition, Inner, ParseToken, ParserNode, ParserStep, Term};

/// A trait of receivers: a receiver gets the tokens of a compiled path, one after another.
///
/// ```text
/// impl NodeVisitor for Tokens {
///     ghost tokens = { λ c. c.tokens.items };
///
///     ghost has_failed = { λ c. c.failed };
///
///     fn visit_token(&mut self, token: &ParseToken) {
///         match token.clone() {
///             Ok(copy) => {
///                 if self.tokens.push(copy).is_err() {
///                     self.failed = true;
///                 }
///             }
///             Err(_) => self.failed = true,
///         }
///     }
///
///     fn failed(&self) -> bool {
///         self.failed
///     }
/// }
/// ```
///
/// `visit` passes to it the tokens of a `Node`, which is a compiled path:
///
/// ```text
/// let mut plain = Tokens {
///     tokens: Vec::new(rt.alloc()),
///     failed: false,
/// };
/// plain.visit(&node);
/// ```
pub trait NodeVisitor {
    ghost use Rattle.jsonpath_paths.specs.declared.token.tokens.ParseToken.{ParseToken};
    ghost use Rattle.jsonpath_paths.specs.Spelling.{Spells};
    ghost use Rattle.jsonpath_paths.specs.tree.Tree.{Path};
    ghost use Rattle.jsonpath_paths.specs.tree.Visit.{path_tokens};

    /// A function that implementors define for proofs: the list of tokens that this receiver received, in order.
    ghost tokens: { Self → List ParseToken };

    /// For proofs: whether this receiver failed to receive a token; from then on, its list `tokens` means nothing.
    ghost has_failed: { Self → Bool };

    /// A method that implementors provide: receives the next token of a compiled path. It may fail, for example if
    /// memory runs out; from then on the method `failed` must return true.
    fn visit_token(&mut self, token: &ParseToken)
        ensures stays_failed { has_failed self.old ≡ true → has_failed self.new ≡ true }
        ensures given { has_failed self.new ≡ false → tokens self.new ≡ tokens self.old ++ token.now ∷ [] };

    /// A method that implementors may override; by default it does nothing. It is called after the tokens of each
    /// comparison side. It must not change `tokens` (for proofs: the tokens received so far) or what `failed` returns.
    fn end_term(&mut self)
        ensures failed { has_failed self.new ≡ has_failed self.old }
        ensures tokens { tokens self.new ≡ tokens self.old }
    {}

    /// Whether this receiver of tokens has failed to receive some token, for example since memory ran out.
    fn failed(&self) -> bool
        ensures { result ≡ has_failed self.now };

    /// Passes the compiled path `node` to this receiver as a list of tokens, one by one; the list is the path's syntax
    /// tree written out. If the receiver fails to receive a token, the later tokens are passed to it all the same.
    final fn visit(&mut self, node: &Node)
        ensures stays_failed { has_failed self.old ≡ true → has_failed self.new ≡ true }
        ensures given { has_failed self.new ≡ false → (p : Path) → Spells node.now p → tokens self.new ≡ tokens self.old ++ path_tokens p }
    {
        one_tree_per_text();
        visit_path(node.tree(), self);
    }
}

// The token that a path begins with: `Absolute` from the root, else `Relative`.
fn first_token_of_path(absolute: bool) -> ParseToken
    ensures { result ≡ root_token absolute }
{
    if absolute {
        ParseToken::Absolute
    } else {
        ParseToken::Relative
    }
}

// Gives the visitor the tokens of a path.
#[cycle(visit)]
fn visit_path<V: NodeVisitor>(path: &ParserNode, visitor: &mut V)
    ensures stays_failed { V.has_failed visitor.old ≡ true → V.has_failed visitor.new ≡ true }
    ensures given { V.has_failed visitor.new ≡ false → V.tokens visitor.new ≡ V.tokens visitor.old ++ path_tokens (path_of path.now) }
{
    visitor.visit_token(&first_token_of_path(path.absolute));
    for step in &path.steps {
        visit_step(step, visitor);
    }
}

// Gives the visitor the tokens of a step.
#[cycle(visit)]
fn visit_step<V: NodeVisitor>(step: &ParserStep, visitor: &mut V)
    ensures stays_failed { V.has_failed visitor.old ≡ true → V.has_failed visitor.new ≡ true }
    ensures given { V.has_failed visitor.new ≡ false → V.tokens visitor.new ≡ V.tokens visitor.old ++ one_step step.now.leaves step.now.bracket (inner_tokens (inner_of step.now.inner)) }
{
    if step.leaves {
        visitor.visit_token(&ParseToken::Leaves);
    }
    if step.bracket {
        visitor.visit_token(&ParseToken::Array);
    } else if !step.leaves {
        visitor.visit_token(&ParseToken::In);
    }
    visit_token_or_filter(&step.inner, visitor);
    if step.bracket {
        visitor.visit_token(&ParseToken::ArrayEof);
    }
}

// Gives the visitor the tokens of what stands behind a dot or in brackets.
#[cycle(visit)]
fn visit_token_or_filter<V: NodeVisitor>(inner: &Inner, visitor: &mut V)
    ensures stays_failed { V.has_failed visitor.old ≡ true → V.has_failed visitor.new ≡ true }
    ensures given { V.has_failed visitor.new ≡ false → V.tokens visitor.new ≡ V.tokens visitor.old ++ inner_tokens (inner_of inner.now) }
{
    match inner {
        Inner::Token(token) => visitor.visit_token(token),
        Inner::Filter(condition) => visit_condition(condition, visitor),
    }
}

// Gives the visitor the tokens of a condition: of its sides, then of how they are joined or compared.
#[cycle(visit)]
fn visit_condition<V: NodeVisitor>(condition: &Condition, visitor: &mut V)
    ensures stays_failed { V.has_failed visitor.old ≡ true → V.has_failed visitor.new ≡ true }
    ensures given { V.has_failed visitor.new ≡ false → V.tokens visitor.new ≡ V.tokens visitor.old ++ condition_tokens (condition_of condition.now) }
{
    match condition {
        Condition::Lone(path) => visit_path(path, visitor),
        Condition::Compare(left, op, right) => {
            visit_term(left, visitor);
            visit_term(right, visitor);
            visitor.visit_token(&ParseToken::Filter(*op));
        }
        Condition::Join(op, left, right) => {
            visit_condition(left, visitor);
            visit_condition(right, visitor);
            visitor.visit_token(&ParseToken::Filter(*op));
        }
    }
}

// Gives the visitor the tokens of a side of a comparison, and then its end.
#[cycle(visit)]
fn visit_term<V: NodeVisitor>(term: &Term, visitor: &mut V)
    ensures stays_failed { V.has_failed visitor.old ≡ true → V.has_failed visitor.new ≡ true }
    ensures given { V.has_failed visitor.new ≡ false → V.tokens visitor.new ≡ V.tokens visitor.old ++ term_tokens (term_of term.now) }
{
    match term {
        Term::Path(path) => visit_path(path, visitor),
        Term::Literal(token) => visitor.visit_token(token),
    }
    visitor.end_term();
}
