//! What receives the token list of a tree.

ghost use Rattle.std.specs.Prelude.{◌≡◌, ◌++◌, ◌∷◌, [], List, Bool, false, true};

use crate::text::str_reader::StrRange;
use crate::token::tokens::ParseToken;

/// A trait of receivers of a syntax tree's token list (the tree written out as a list), one `ParseToken` at a time.
/// With each token, a receiver gets a function that turns a span of the path text into a `V`, such as a `&str`.
///
/// ```text
/// impl<V> ParserTokenHandler<V> for Collector {
///     ghost tokens = { λ c. c.tokens.items };
///
///     ghost has_failed = { λ c. c.failed };
///
///     fn handle<R: Fn(&StrRange) -> V>(&mut self, token: &ParseToken, _reader: &R) {
///         match token.clone() {
///             Ok(copy) => {
///                 if self.tokens.push(copy).is_err() {
///                     self.failed = true;
///                 }
///             }
///             Err(_) => self.failed = true,
///         }
///     }
///
///     fn failed(&self) -> bool {
///         self.failed
///     }
/// }
/// ```
pub trait ParserTokenHandler<V> {
    ghost use Rattle.jsonpath_paths.specs.declared.token.tokens.ParseToken.{ParseToken};
    ghost use Rattle.jsonpath_paths.specs.declared.text.str_reader.StrRange.{StrRange};
    ghost use Rattle.jsonpath_paths.specs.tree.Visit.{MayRead};
    ghost use denote.Ref.{Bor};

    /// A function that implementors define, only for proofs: the list of the tokens received so far, in order.
    ghost tokens: { Self → List ParseToken };

    /// For proofs: whether this receiver failed to receive a token; once it has, its list `tokens` means nothing.
    ghost has_failed: { Self → Bool };

    /// For proofs: the values that this receiver of tokens allows for a span of the path text. The function `reader`,
    /// passed to it with each token, must return only such values for that span. By default, all are allowed.
    ghost takes: { Self → StrRange → V → Type 0 } = { λ _ _ _. Unit {0} };

    /// A method that implementors provide: receives the next token of a path. If that fails, for example since memory
    /// runs out, `failed` returns true from then on. For each span in the token, the receiver may call the closure
    /// `reader` to get what the path text has at this span. Precondition: each value that `reader` returns for a span
    /// is allowed by `takes`, a predicate of this receiver that only proofs use.
    fn handle<R: Fn(&StrRange) -> V>(&mut self, token: &ParseToken, reader: &R)
        requires may { MayRead (R.pre reader.now) token.now }
        requires reads { (s : Bor StrRange) (v : V) → R.post reader.now s v → takes self.old s.now v }
        ensures stays_failed { has_failed self.old ≡ true → has_failed self.new ≡ true }
        ensures given { has_failed self.new ≡ false → tokens self.new ≡ tokens self.old ++ token.now ∷ [] }
        ensures still_takes { (s : StrRange) (v : V) → takes self.old s v → takes self.new s v };

    /// A method that implementors provide: whether this token receiver failed to receive a token (out of memory).
    fn failed(&self) -> bool
        ensures { result ≡ has_failed self.now };
}
