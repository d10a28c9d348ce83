//! A document read once from its text, for many paths: results and changed documents come from the text's own tree.
ghost use Rattle.std.specs.Prelude.{◌≡◌, ℕ, List, map, option_map, string_bytes, vec_len, IfOk, IfErr};
ghost use Rattle.std.specs.List.Sorted.{IsStrictlySortedBy};
ghost use Rattle.serde_json.specs.Data.{Data};
ghost use Rattle.json_trees.specs.AsRead.{text_document};
ghost use Rattle.json_trees.specs.ExactDocument.{name_bytes};
ghost use Rattle.jsonpath_nodes.specs.document.OfData.{document_of};
ghost use Rattle.jsonpath_nodes.specs.place.Location.{location_cmp};
ghost use Rattle.jsonpath_nodes.specs.place.SpotPlace.{step_of};
ghost use Rattle.jsonpath_select.specs.Meaning.{Selects, SelectsNodes};
ghost use Rattle.jsonpath_select.specs.answer.AnswerText.{IsTextOf, IsDocumentRefused};
ghost use Rattle.jsonpath_select.specs.answer.Counted.{IsCountOf, IsFirstOf, TellsIfAny};
ghost use Rattle.jsonpath_select.specs.answer.Given.{IsTextOfAnswer, IsTypedCountOf, IsTextRefusedOf, IsTypedRefusedOf};
ghost use Rattle.jsonpath_lib.specs.Text.{IsTreeOf, IsTextOfChanged, IsChangedTextRefused, Replaces, IsWhyUnprinted, AreTextsOf, AreTextsRefused, AreTyped, AreTypedRefused};
ghost use Rattle.jsonpath_lib.specs.update.Masked.{IsMasked, AreRemoved, AreTargetsOfAll};

use crate::step_lists::steps_to_each;
use crate::update::several_paths::select_paths_in_any_order;
use json::Scratch;
use json_trees::{
    Document, Replacement, StepList, TextValue, Unprinted, are_in_order, changed_text,
    compact_list_text, compact_text,
};
use jsonpath_nodes::laws::locations_once_in_order_ascend;
use jsonpath_nodes::{TreeNode, in_document_order};
use jsonpath_paths::PathParser;
use jsonpath_select::{
    AnyPath, JsonPathError, exists_in_tree, first_in_tree, read_document, select_in_tree,
    select_nodes_in_tree, serde_error, unread_number_error,
};
use serde::DeserializeOwned;
use serde_json::{Error, Value};
use std::alloc::Global;

/// A JSON document, read once from its text, on which many paths can be run. It borrows the text, and the `Scratch` in
/// which strings with escapes are stored without them. What it answers is what a `Value` of the same text answers.
///
/// ```text
/// let mut scratch = Scratch::new(alloc);
/// let text = Text::read(alloc, b"{\"a\": [1, 2]}", &mut scratch)?;
/// assert_eq!(rt; text.count(alloc, &compile_path(alloc, "$.a[*]")?)?, 2);
/// assert_eq!(rt; text.count(alloc, &compile_path(alloc, "$.b")?)?, 0);
/// ```
#[derive(Drop)]
pub struct Text<'a> {
    tree: Document<'a>,
}

impl<'a> Text<'a> {
    /// Reads a JSON text, as `read_document` does: of an object's members with the same name the last counts. Errors:
    /// `Serde`, with `serde_json`'s message, if the bytes are no JSON document, nest deeper than 127 levels or have a
    /// number beyond all `f64`; or `OutOfMemory`.
    ///
    /// ```text
    /// let mut scratch = Scratch::new(alloc);
    /// assert!(rt; Text::read(alloc, b"{\"a\": [1, 2]}", &mut scratch).is_ok());
    /// ```
    pub fn read(
        alloc: Global,
        bytes: &'a [u8],
        scratch: &'a mut Scratch,
    ) -> Result<Text<'a>, JsonPathError>
        ensures ok { IfOk result (λ text. (document : Data) × IsTextOf bytes.now document × IsTreeOf text document) }
        ensures refused { IfErr result (IsDocumentRefused bytes.now) }
    {
        let Ok(text) = simdutf8::compat::from_utf8(bytes) else {
            return Err(why_refused(alloc, bytes));
        };
        match Document::read_in_order(alloc, text, scratch) {
            Some(tree) => Ok(Text { tree }),
            None => Err(why_refused(alloc, bytes)),
        }
    }

    /// The selected values, in the order in which the path's steps find them, with duplicates. They borrow from this
    /// `Text`: `TextValue::value` returns each, a number as the text writes it. The only error is `OutOfMemory`.
    ///
    /// ```text
    /// let mut scratch = Scratch::new(alloc);
    /// let text = Text::read(alloc, b"[\"a\", 1.50]", &mut scratch)?;
    /// let found = text.select(alloc, &compile_path(alloc, "$[1]")?)?;
    /// assert!(rt; matches!(found[0].value(), json::Value::Number("1.50")));
    /// ```
    pub fn select<P: AnyPath>(
        &self,
        alloc: Global,
        path: &P,
    ) -> Result<Vec<TextValue<'_, 'a>>, JsonPathError>
        ensures ok { IfOk result (λ found. (document : Data) → IsTreeOf self.now document → Selects (P.spelling path.now) (document_of document) (map text_document found.items)) }
        ensures refused { IfErr result (λ e. e ≡ JsonPathError.OutOfMemory) }
    {
        Ok(select_in_tree(alloc, self.root(alloc), path)?)
    }

    /// The selected nodes, each a value with its location, in the order in which the path's steps find them, with
    /// duplicates. They borrow from this `Text`. The only error is `OutOfMemory`.
    ///
    /// ```text
    /// let mut scratch = Scratch::new(alloc);
    /// let text = Text::read(alloc, b"[1, [2, 3]]", &mut scratch)?;
    /// let nodes = text.select_nodes(alloc, &compile_path(alloc, "$[1][1]")?)?;
    /// assert!(rt; nodes[0].location(alloc)?.to_string(alloc)?.as_str() == "$[1][1]");
    /// ```
    pub fn select_nodes<P: AnyPath>(
        &self,
        alloc: Global,
        path: &P,
    ) -> Result<Vec<TreeNode<TextValue<'_, 'a>>>, JsonPathError>
        ensures ok { IfOk result (λ found. (document : Data) → IsTreeOf self.now document → SelectsNodes name_bytes text_document (P.spelling path.now) (document_of document) found.items) }
        ensures refused { IfErr result (λ e. e ≡ JsonPathError.OutOfMemory) }
    {
        Ok(select_nodes_in_tree(alloc, self.root(alloc), path)?)
    }

    /// The selected values as a JSON text: `[`, their compact texts joined by `,`, and `]`, in the order in which the
    /// path's steps find the values, with duplicates. Errors: `Serde` exactly if a selected value contains, at any
    /// depth, a number that is neither an `i64` nor a `u64`, such as 1.5; or `OutOfMemory`.
    ///
    /// ```text
    /// let mut scratch = Scratch::new(alloc);
    /// let text = Text::read(alloc, b"[0.5, 2]", &mut scratch)?;
    /// assert!(rt; text.select_as_str(alloc, &compile_path(alloc, "$[1]")?)?.as_str() == "[2]");
    /// ```
    pub fn select_as_str<P: AnyPath>(
        &self,
        alloc: Global,
        path: &P,
    ) -> Result<String, JsonPathError>
        ensures ok { IfOk result (λ line. (document : Data) → IsTreeOf self.now document → IsTextOfAnswer (Selects (P.spelling path.now) (document_of document)) (string_bytes line)) }
        ensures refused { IfErr result (λ e. (document : Data) → IsTreeOf self.now document → IsTextRefusedOf (Selects (P.spelling path.now) (document_of document)) e) }
    {
        let found = self.select(alloc, path)?;
        match compact_list_text(alloc, found.as_slice()) {
            Ok(line) => Ok(line),
            Err(unprinted) => Err(why_unprinted(alloc, unprinted)),
        }
    }

    /// Deserializes each selected value to a `T`, in the order in which the path's steps find the values, with
    /// duplicates. Errors: `OutOfMemory`, or `Serde` if `serde_json` can't make a `T` of a selected value, or if such a
    /// value contains a number that is neither an `i64` nor a `u64`, such as 1.5, even if `T` is `f64`.
    ///
    /// ```text
    /// let mut scratch = Scratch::new(alloc);
    /// let text = Text::read(alloc, b"[1, 2, 3]", &mut scratch)?;
    /// let numbers = text.select_as::<u8, _>(alloc, &compile_path(alloc, "$[1:]")?)?;
    /// assert!(rt; matches!(numbers.as_slice(), [2, 3]));
    /// ```
    pub fn select_as<T: DeserializeOwned, P: AnyPath>(
        &self,
        alloc: Global,
        path: &P,
    ) -> Result<Vec<T>, JsonPathError>
        ensures ok { IfOk result (λ found. (document : Data) → IsTreeOf self.now document → IsTypedCountOf (Selects (P.spelling path.now) (document_of document)) (vec_len found)) }
        ensures refused { IfErr result (λ e. (document : Data) → IsTreeOf self.now document → IsTypedRefusedOf (Selects (P.spelling path.now) (document_of document)) e) }
    {
        let found = self.select(alloc, path)?;
        typed_values(alloc, found.as_slice())
    }

    /// The number of values that the path selects, duplicates included. The only error is `OutOfMemory`.
    ///
    /// ```text
    /// let mut scratch = Scratch::new(alloc);
    /// let text = Text::read(alloc, b"[1, 2, 3]", &mut scratch)?;
    /// assert_eq!(rt; text.count(alloc, &compile_path(alloc, "$[0,0,1]")?)?, 3);
    /// ```
    pub fn count<P: AnyPath>(&self, alloc: Global, path: &P) -> Result<usize, JsonPathError>
        ensures ok { IfOk result (λ count. (document : Data) → IsTreeOf self.now document → IsCountOf (Selects (P.spelling path.now) (document_of document)) count) }
        ensures refused { IfErr result (λ e. e ≡ JsonPathError.OutOfMemory) }
    {
        let found = self.select(alloc, path)?;
        Ok(found.len())
    }

    /// The value that the path's steps find first, or `None` if they find none. The only error is `OutOfMemory`.
    ///
    /// ```text
    /// let mut scratch = Scratch::new(alloc);
    /// let text = Text::read(alloc, b"[1, 2, 3]", &mut scratch)?;
    /// let first = text.first(alloc, &compile_path(alloc, "$[2,0]")?)?;
    /// assert!(rt; matches!(first.map(|found| found.value()), Some(json::Value::Number("3"))));
    /// ```
    pub fn first<P: AnyPath>(
        &self,
        alloc: Global,
        path: &P,
    ) -> Result<Option<TextValue<'_, 'a>>, JsonPathError>
        ensures ok { IfOk result (λ first. (document : Data) → IsTreeOf self.now document → IsFirstOf (Selects (P.spelling path.now) (document_of document)) (option_map text_document first)) }
        ensures refused { IfErr result (λ e. e ≡ JsonPathError.OutOfMemory) }
    {
        Ok(first_in_tree(alloc, self.root(alloc), path)?)
    }

    /// Whether the path selects any value. The only error is `OutOfMemory`.
    ///
    /// ```text
    /// let mut scratch = Scratch::new(alloc);
    /// let text = Text::read(alloc, b"[1, 2, 3]", &mut scratch)?;
    /// assert!(rt; text.exists(alloc, &compile_path(alloc, "$[*][?(@ > 2)]")?)?);
    /// ```
    pub fn exists<P: AnyPath>(&self, alloc: Global, path: &P) -> Result<bool, JsonPathError>
        ensures ok { IfOk result (λ any. (document : Data) → IsTreeOf self.now document → TellsIfAny (Selects (P.spelling path.now) (document_of document)) any) }
        ensures refused { IfErr result (λ e. e ≡ JsonPathError.OutOfMemory) }
    {
        Ok(exists_in_tree(alloc, self.root(alloc), path)?)
    }

    /// The compact text of the document with null in place of each value below the root that any of the paths selects.
    /// All paths are applied to the document as it was read. Errors: `Serde` exactly if a number that is neither an `i64`
    /// nor a `u64` is left in it; or `OutOfMemory`.
    ///
    /// ```text
    /// let mut scratch = Scratch::new(alloc);
    /// let text = Text::read(alloc, b"[1]", &mut scratch)?;
    /// assert!(rt; text.mask_as_str(alloc, &[compile_path(alloc, "$[0]")?])?.as_str() == "[null]");
    /// ```
    pub fn mask_as_str(
        &self,
        alloc: Global,
        paths: &[PathParser<'_>],
    ) -> Result<String, JsonPathError>
        ensures ok { IfOk result (λ text. (document : Data) → IsTreeOf self.now document → IsTextOfChanged (IsMasked paths.now (document_of document)) (string_bytes text)) }
        ensures refused { IfErr result (λ e. (document : Data) → IsTreeOf self.now document → IsChangedTextRefused (IsMasked paths.now (document_of document)) e) }
    {
        self.replaced_as_str(alloc, paths, Replacement::Null)
    }

    /// The compact text of the document without the values below the root that any of the paths selects, all of them
    /// removed at once. All paths are applied to the document as it was read. Errors: `Serde` exactly if a number that
    /// is neither an `i64` nor a `u64` is left in it; or `OutOfMemory`.
    ///
    /// ```text
    /// let mut scratch = Scratch::new(alloc);
    /// let text = Text::read(alloc, b"[1, 2]", &mut scratch)?;
    /// assert!(rt; text.remove_as_str(alloc, &[compile_path(alloc, "$[0]")?])?.as_str() == "[2]");
    /// ```
    pub fn remove_as_str(
        &self,
        alloc: Global,
        paths: &[PathParser<'_>],
    ) -> Result<String, JsonPathError>
        ensures ok { IfOk result (λ text. (document : Data) → IsTreeOf self.now document → IsTextOfChanged (AreRemoved paths.now (document_of document)) (string_bytes text)) }
        ensures refused { IfErr result (λ e. (document : Data) → IsTreeOf self.now document → IsChangedTextRefused (AreRemoved paths.now (document_of document)) e) }
    {
        self.replaced_as_str(alloc, paths, Replacement::Nothing)
    }

    // The root of the text's tree, on which paths are run.
    fn root(&self, alloc: Global) -> TextValue<'_, 'a>
        ensures { (document : Data) → IsTreeOf self.now document → text_document result ≡ document_of document }
    {
        self.tree.text_root(alloc)
    }

    // The text of the document with a replacement at the topmost locations below the root that the paths select.
    fn replaced_as_str(
        &self,
        alloc: Global,
        paths: &[PathParser<'_>],
        replacement: Replacement,
    ) -> Result<String, JsonPathError>
        ensures ok { IfOk result (λ text. (document : Data) → IsTreeOf self.now document → IsTextOfChanged (Replaces replacement paths.now (document_of document)) (string_bytes text)) }
        ensures refused { IfErr result (λ e. (document : Data) → IsTreeOf self.now document → IsChangedTextRefused (Replaces replacement paths.now (document_of document)) e) }
    {
        locations_once_in_order_ascend();
        let root = self.root(alloc);
        let nodes = select_paths_in_any_order(alloc, root, paths)?;
        let each = steps_to_each(alloc, nodes.as_slice())?;
        let lists = each.lists(alloc)?;
        let targets = lists.as_slice();
        if are_in_order(targets) {
            return text_with_replacement(alloc, root, targets, replacement);
        }
        drop(lists);
        drop(each);
        let ordered = in_document_order(alloc, nodes.as_slice())?;
        drop(nodes);
        let each = steps_to_each(alloc, ordered.as_slice())?;
        let lists = each.lists(alloc)?;
        text_with_replacement(alloc, root, lists.as_slice(), replacement)
    }
}

// The text of a document with a replacement at the topmost of the targets below its root, which are those of some paths.
fn text_with_replacement(
    alloc: Global,
    root: TextValue<'_, '_>,
    targets: &[StepList<'_, '_>],
    replacement: Replacement,
) -> Result<String, JsonPathError>
    requires { IsStrictlySortedBy location_cmp (map (λ p. map step_of p.steps.now) targets.now) }
    ensures ok { IfOk result (λ text. (document : Data) (paths : List (List ℕ)) → text_document root.entry ≡ document_of document → AreTargetsOfAll paths (text_document root.entry) (map (λ p. map step_of p.steps.now) targets.now) → IsTextOfChanged (Replaces replacement paths (document_of document)) (string_bytes text)) }
    ensures refused { IfErr result (λ e. (document : Data) (paths : List (List ℕ)) → text_document root.entry ≡ document_of document → AreTargetsOfAll paths (text_document root.entry) (map (λ p. map step_of p.steps.now) targets.now) → IsChangedTextRefused (Replaces replacement paths (document_of document)) e) }
{
    match changed_text(alloc, root, targets, replacement) {
        Ok(text) => Ok(text),
        Err(unprinted) => Err(why_unprinted(alloc, unprinted)),
    }
}

// Each value as a `T`. Refused where a number in one of them is unread, else where `serde_json` makes no `T` of one.
#[tactic(auto, using(crate::proofs::TextLemmas::typed_by_texts, crate::proofs::TextLemmas::unread_typed, crate::proofs::TextLemmas::untyped))]
fn typed_values<T: DeserializeOwned>(
    alloc: Global,
    values: &[TextValue<'_, '_>],
) -> Result<Vec<T>, JsonPathError>
    ensures ok { IfOk result (λ found. AreTyped (map text_document values.now) (vec_len found)) }
    ensures refused { IfErr result (AreTypedRefused (map text_document values.now)) }
{
    let texts = texts_of_values(alloc, values)?;
    let mut found = Vec::new(alloc);
    for text in &texts {
        let typed = typed_value(alloc, text).map_err(|error| serde_error(alloc, &error))?;
        found.push(typed)?;
    }
    Ok(found)
}

// The compact text of each value. Refused where a number in one of them is unread.
fn texts_of_values(
    alloc: Global,
    values: &[TextValue<'_, '_>],
) -> Result<Vec<String>, JsonPathError>
    ensures ok { IfOk result (λ texts. AreTextsOf (map text_document values.now) (map string_bytes texts.items)) }
    ensures refused { IfErr result (AreTextsRefused (map text_document values.now)) }
{
    let mut texts = Vec::with_capacity(alloc, values.len())?;
    for value in values {
        match compact_text(alloc, *value) {
            Ok(text) => texts.push(text)?,
            Err(unprinted) => return Err(why_unprinted(alloc, unprinted)),
        }
    }
    Ok(texts)
}

// The value with this text as a `T`, which `serde_json` makes of it; its error where it makes none.
fn typed_value<T: DeserializeOwned>(alloc: Global, text: &str) -> Result<T, Error> {
    serde_json::from_value(alloc, Value::from_str(alloc, text)?)
}

// The error where there is no text.
fn why_unprinted(alloc: Global, unprinted: Unprinted) -> JsonPathError
    ensures { IsWhyUnprinted unprinted result }
{
    match unprinted {
        Unprinted::UnreadNumber => unread_number_error(alloc),
        Unprinted::OutOfMemory => JsonPathError::OutOfMemory,
    }
}

// What `serde_json` says of a text of which no tree was made. If it reads the text, memory ran out.
fn why_refused(alloc: Global, bytes: &[u8]) -> JsonPathError
    ensures { IsDocumentRefused bytes.now result }
{
    match read_document(alloc, bytes) {
        Ok(_) => JsonPathError::OutOfMemory,
        Err(error) => error,
    }
}
