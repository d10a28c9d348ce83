//! Lemmas about path texts and their syntax trees. Each is the contract of a function that does nothing.

ghost use Rattle.std.specs.Prelude.{◌≡◌, ◌⊎◌, ℕ, suc, List, ◌∷◌, ◌++◌, length, Some, None, true, false};
ghost use Rattle.std.specs.Str.{IsUtf8};
ghost use Rattle.jsonpath_paths.specs.tree.Joined.{filter_text, joined_text, JoinsSides};
ghost use Rattle.jsonpath_paths.specs.token.Kinds.{IsFirst, HasNone, all_pass, begins_none, ends_word};
ghost use Rattle.jsonpath_paths.specs.token.Refusals.{MatchPlace};
ghost use Rattle.jsonpath_paths.specs.token.Tokens.{TakesToken};
ghost use Rattle.jsonpath_paths.specs.text.TextPlace.{Place};
ghost use Rattle.jsonpath_paths.specs.Spelling.{Spells, IsInGrammar};
ghost use Rattle.jsonpath_paths.specs.token.Reading.{first};
ghost use Rattle.jsonpath_paths.specs.text.Characters.{goes_on};
ghost use Rattle.jsonpath_paths.specs.tree.Tree.{Path, is_comparison};
ghost use Rattle.jsonpath_paths.specs.tree.Visit.{path_tokens};
ghost use Rattle.jsonpath_paths.specs.tree.WellFormed.{IsPath};
ghost use Rattle.jsonpath_paths.specs.RefusedAt.{RefusedAt};
ghost use Rattle.jsonpath_paths.specs.WholeText.{tree_of_text, place_of_text};
ghost use Rattle.jsonpath_paths.specs.declared.token.tokens.FilterToken.{FilterToken};
ghost use Rattle.jsonpath_paths.specs.declared.token.tokens.Kind.{Kind};
ghost use Rattle.jsonpath_paths.specs.declared.token.tokens.Token.{Token};
ghost use Rattle.jsonpath_paths.specs.declared.token.tokens.TokenError.{TokenError};

/// Lemma: the first token of a text is its longest prefix that is a token, and has one kind alone. A text with no first
/// token has no prefix that is a token. A text has at most one first token, with only one possible end.
///
/// ```text
/// laws::longest_front();
/// ```
pub fn longest_front()
    ensures found { (cs : List ℕ) (kind : Kind) (n : ℕ) → first cs ≡ Some (kind, n) → IsFirst cs kind n }
    ensures none { (cs : List ℕ) → first cs ≡ None → HasNone cs }
    ensures one { (cs : List ℕ) (kind other : Kind) (n m : ℕ) → IsFirst cs kind n → IsFirst cs other m → (kind ≡ other) × (n ≡ m) }
    ensures one_or_none { (cs : List ℕ) → ((kind : Kind) × (n : ℕ) × IsFirst cs kind n) ⊎ HasNone cs }
    ensures one_token { (from to other : Place) (t u : Token) → TakesToken from t to → TakesToken from u other → (t ≡ u) × (to ≡ other) }
{}

/// Lemma: if a path text begins with a word (an unquoted name or whole number) that doesn't begin with `$`, the text's
/// first token is this whole word.
///
/// ```text
/// laws::word_is_first_token();
/// ```
pub fn word_is_first_token()
    ensures { (c : ℕ) (cs rest : List ℕ) → begins_none c ≡ false → all_pass goes_on cs ≡ true → ends_word rest ≡ true
        → IsFirst (c ∷ cs ++ rest) Kind.Key (suc (length cs)) }
{}

/// Lemma: a text has at most one syntax tree.
///
/// ```text
/// laws::one_tree_per_text();
/// ```
pub fn one_tree_per_text()
    ensures { (text : List ℕ) (p q : Path) → Spells text p → Spells text q → p ≡ q }
{}

/// Lemma: no two syntax trees that the grammar allows have the same token list (the tree written as `ParseToken`s).
///
/// ```text
/// laws::one_tree_per_token_list();
/// ```
pub fn one_tree_per_token_list()
    ensures { (p q : Path) → IsPath p → IsPath q → path_tokens p ≡ path_tokens q → p ≡ q }
{}

/// Lemma: a text parses to a syntax tree exactly if `tree_of_text`, a function for proofs, computes this tree from the
/// text. So a proof can show which tree a constant text such as `$.a` has, just by evaluating the function.
///
/// ```text
/// laws::spelled_tree();
/// ```
pub fn spelled_tree()
    ensures found { (text : List ℕ) (p : Path) → tree_of_text text ≡ Some p → Spells text p }
    ensures only { (text : List ℕ) (p : Path) → Spells text p → tree_of_text text ≡ Some p }
{}

/// Lemma: a text has a certain syntax error (`Eof`, or `Position` with a byte position) exactly if `place_of_text`, a
/// function for proofs, computes this error from the text. So a text has at most one syntax error, and a proof finds
/// that of a constant text just by evaluating the function.
///
/// ```text
/// laws::error_position();
/// ```
pub fn error_position()
    ensures found { (text : List ℕ) (error : TokenError) → IsUtf8 text → place_of_text text ≡ Some error → RefusedAt text error }
    ensures only { (text : List ℕ) (error : TokenError) → IsUtf8 text → RefusedAt text error → place_of_text text ≡ Some error }
{}

/// Lemma: a syntax error is `Eof`, or `Position` with a byte position that is at most the text's length.
///
/// ```text
/// laws::refused_within_text();
/// ```
pub fn refused_within_text()
    ensures { (text : List ℕ) (error : TokenError) → IsUtf8 text → RefusedAt text error → MatchPlace error (length text) }
{}

/// Lemma: if `$[?(a)]` and `$[?(b)]` are paths, the tree of `$[?((a) && (b))]` joins the conditions of these two paths,
/// with nothing changed but the positions of their tokens in the text. The same holds for `||`.
///
/// ```text
/// laws::connective_joins_conditions();
/// ```
pub fn connective_joins_conditions()
    ensures { (o : FilterToken) (a b : List ℕ) (p : Path) → is_comparison o ≡ false → IsUtf8 a → IsUtf8 b → IsInGrammar (filter_text a) → IsInGrammar (filter_text b)
        → Spells (joined_text o a b) p → JoinsSides o a b p }
{}
