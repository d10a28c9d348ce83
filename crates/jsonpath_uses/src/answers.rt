//! What a path answers, as callers state and prove it.
ghost use Rattle.std.specs.Prelude.{◌≡◌, ◌≢◌, ◌↔◌, IfErr, IsErr, codes, map, length, List, Some, string_bytes, IfOk, IsTrue, option_to_list};
ghost use Rattle.serde_json.specs.Data.{Data};
ghost use Rattle.jsonpath_nodes.specs.document.Document.{Document};
ghost use Rattle.jsonpath_nodes.specs.document.Find.{get};
ghost use Rattle.serde_json.specs.View.{view};
ghost use Rattle.jsonpath_nodes.specs.document.OfData.{document_of};
ghost use Rattle.jsonpath_nodes.specs.place.Location.{at};
ghost use Rattle.jsonpath_paths.specs.declared.token.tokens.TokenError.TheVariants.{OutOfMemory, Position};
ghost use Rattle.jsonpath_select.specs.SelectionLaws.{AllCanBeSpelled};
ghost use Rattle.jsonpath_select.specs.Meaning.{Selects};
ghost use Rattle.jsonpath_select.specs.answer.AnswerText.{list_text};

use jsonpath_lib::{
    JsonPathError, JsonSelector, Location, PathParser, Selector, TokenError, compile_path, laws,
    list_to_text, select,
};
use serde_json::Value;
use std::alloc::Global;

/// Selects by `$.price`: a list of the value of the member `price`, or an empty list. The only error is `OutOfMemory`.
pub fn price<'a>(alloc: Global, json: &'a Value) -> Result<Vec<&'a Value>, JsonPathError>
    ensures { IfOk result (λ found. map (λ v. document_of (view v.now)) found.items
        ≡ option_to_list (get (codes "price") (document_of (view json.now)))) }
{
    laws::dotted_names_select_one_location();
    laws::one_location_answers_one_value();
    select(alloc, json, "$.price")
}

/// Returns a list with only the value at the location, or an empty list if the document `json` has no such location.
/// Precondition: each index in the location is below 2^63, since the location is printed and compiled as a path, and a
/// path can have no larger index. The only error is `OutOfMemory`.
pub fn value_at<'a>(
    alloc: Global,
    json: &'a Value,
    location: &Location,
) -> Result<Vec<&'a Value>, JsonPathError>
    requires { AllCanBeSpelled location.now }
    ensures { IfOk result (λ found. map (λ v. document_of (view v.now)) found.items
        ≡ option_to_list (at (document_of (view json.now)) location.now)) }
{
    laws::location_text_selects_itself();
    laws::one_location_answers_one_value();
    let Ok(text) = format!(in alloc; "{location}") else {
        return Err(JsonPathError::OutOfMemory);
    };
    select(alloc, json, text.as_str())
}

/// The values that the path selects, in the order in which it finds them, with duplicates, as the text of a JSON array.
/// For example, the path `$[*].name` gives the array of all names. Errors: `Path` if `path` is no path; `Serde` if a
/// selected value has a number that is neither an `i64` nor a `u64`, such as 1.5; or `OutOfMemory`.
pub fn column_text(alloc: Global, json: &Value, path: &str) -> Result<String, JsonPathError>
    ensures { IfOk result (λ text. (values : List Data) × Selects path.now (document_of (view json.now)) (map document_of values) × (list_text values ≡ Some (string_bytes text))) }
{
    let found = select(alloc, json, path)?;
    list_to_text(alloc, found.as_slice())
}

/// Compiles `$.a[b]`, where the name in brackets lacks its quotes. The result is always an error: out of memory, or
/// else a syntax error at position 5, the number of bytes up to the end of `b`.
pub fn compile_bare_name(alloc: Global) -> Result<PathParser<'static>, TokenError>
    ensures refused { IsErr result }
    ensures position { IfErr result (λ error. error ≢ OutOfMemory → error ≡ Position 5) }
{
    laws::error_position();
    laws::spelled_tree();
    PathParser::compile(alloc, "$.a[b]")
}

/// Whether a path selects exactly `count` values, each duplicate counted. Errors: `Path` (no path), `OutOfMemory`.
pub fn selects_exactly(
    alloc: Global,
    json: &Value,
    path: &str,
    count: usize,
) -> Result<bool, JsonPathError>
    ensures { IfOk result (λ so_many. (values : List Document) × Selects path.now (document_of (view json.now)) values × (IsTrue so_many ↔ (length values ≡ count))) }
{
    let found = select(alloc, json, path)?;
    Ok(found.len() == count)
}

/// Selects with a `JsonSelector` and a `Selector`; the two lists are equal. Errors: `Path` (no path), `OutOfMemory`.
pub fn select_by_both_selectors<'a>(
    alloc: Global,
    json: &'a Value,
    path: &'a str,
) -> Result<(Vec<&'a Value>, Vec<&'a Value>), JsonPathError>
    ensures { IfOk result (λ found. map (λ v. document_of (view v.now)) found.0.items ≡ map (λ v. document_of (view v.now)) found.1.items) }
{
    laws::one_selection_per_text();
    let mut one = JsonSelector::new(alloc, compile_path(alloc, path)?)?;
    one.value(json);
    let mut other = Selector::new();
    other.set_path(alloc, path)?;
    other.value(json);
    let first = one.select(alloc)?;
    let second = other.select(alloc)?;
    Ok((first, second))
}

/// Selects in an array of books by `$[?((@.isbn) && (@.price < 1000))]` and by the path with these two conditions in
/// the other order, and returns the two lists, which are equal. The only error is `OutOfMemory`.
pub fn select_with_both_condition_orders<'a>(
    alloc: Global,
    books: &'a Value,
) -> Result<(Vec<&'a Value>, Vec<&'a Value>), JsonPathError>
    ensures { IfOk result (λ found. map (λ v. document_of (view v.now)) found.0.items ≡ map (λ v. document_of (view v.now)) found.1.items) }
{
    laws::swapped_condition_texts_select_alike();
    compile_path(alloc, "$[?(@.isbn)]")?;
    compile_path(alloc, "$[?(@.price < 1000)]")?;
    let named_first = select(alloc, books, "$[?((@.isbn) && (@.price < 1000))]")?;
    let cheap_first = select(alloc, books, "$[?((@.price < 1000) && (@.isbn))]")?;
    Ok((named_first, cheap_first))
}
