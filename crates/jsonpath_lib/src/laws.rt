//! Lemmas for callers' proofs. Each is the contract of a function that does nothing: if a body calls
//! `laws::one_selection_per_text();`, its proof can use it. The crates below have more lemmas, in their modules `laws`.

ghost use Rattle.std.specs.Prelude.{◌≡◌, ℕ, List, Option, option_map};
ghost use Rattle.std.specs.Fn.{Called};
ghost use Rattle.jsonpath_nodes.specs.document.Document.{Document};
ghost use Rattle.jsonpath_nodes.specs.document.OfData.{value_document};
ghost use Rattle.serde_json.specs.declared.value.Value.{Value};
ghost use Rattle.jsonpath_nodes.specs.place.Location.{Location};
ghost use Rattle.jsonpath_nodes.specs.update.Update.{update};
ghost use Rattle.jsonpath_select.specs.SelectionLaws.{where_it_is};
ghost use Rattle.jsonpath_select.specs.Meaning.{SelectsAt};
ghost use Rattle.jsonpath_lib.specs.update.UpdateLaws.{TargetsPlace, DeletesPlace, RemovesPlace, MasksInAnyOrder, RemovesInAnyOrder};
ghost use Rattle.jsonpath_select.specs.Targets.{IsReplaced};

use jsonpath_nodes::laws::{
    locations_once_in_order_ascend, nulling_and_taking_ignore_order, taking_at_once_is_in_turn,
    updates_put_one_answer_in_turn,
};
pub use jsonpath_nodes::laws::{
    documents_keep_data_apart, nulling_at_topmost, putting_at_one_location,
    replacements_stay_in_place, value_is_document,
};
pub use jsonpath_paths::laws::{error_position, longest_front, one_tree_per_text, spelled_tree};
pub use jsonpath_select::laws::{
    dotted_names_select_one_location, each_location_has_a_value, location_text_selects_itself,
    one_location_answers_one_value, one_selection_per_text, paths_without_repeats_select_once,
    refused_for_memory_alone, selects_by_any_tree, swapped_condition_texts_select_alike,
    swapped_sides_select_alike,
};
use serde_json::Value;

/// Lemma: let a path select one fixed location alone in each document that has this location, and nothing in any other
/// document. Then deleting by the path is the same as putting null at this location, and removing by the path is the
/// same as removing the value at this location. If the location is the root, none of these changes anything. The lemma
/// `putting_at_one_location` says what such an update of one location leaves.
///
/// ```text
/// laws::deletes_and_removes_selected_location();
/// ```
pub fn deletes_and_removes_selected_location()
    ensures targets { TargetsPlace }
    ensures deletes { DeletesPlace }
    ensures removes { RemovesPlace }
{
    one_tree_per_text();
    nulling_at_topmost();
    taking_at_once_is_in_turn();
    locations_once_in_order_ascend();
    putting_at_one_location();
}

/// Lemma: let a path select one location alone in each document that has this location, and nothing in any other
/// document; and let a closure always return the same result. Then replacing what the path selects by the closure's
/// result only updates this location: `Some` replaces the value there, `None` removes it. Nothing changes if the
/// location is the root or does not exist. The lemma takes the closure as its argument, but does not call it.
///
/// ```text
/// laws::replaces_selected_location(on);
/// ```
pub fn replaces_selected_location<F: FnMut(Value) -> Option<Value>>(closure: &F)
    ensures { (answer : Option Document)
        → ((f g : F) (handed : Value) (said : Option Value) → Called F.FnMut f (handed, tt) said g → option_map value_document said ≡ answer)
        → (text : List ℕ) (before after : Document) (l : Location) (f g : F) → SelectsAt text before (where_it_is before l)
        → IsReplaced F.FnMut text before f g after → after ≡ update l answer before }
{
    deletes_and_removes_selected_location();
    putting_at_one_location();
    updates_put_one_answer_in_turn(closure);
}

/// Lemma: the result of masking (null at all values that several paths select) depends only on the set of paths.
///
/// ```text
/// laws::masks_in_any_order();
/// ```
pub fn masks_in_any_order()
    ensures { MasksInAnyOrder }
{
    one_tree_per_text();
    locations_once_in_order_ascend();
    nulling_and_taking_ignore_order();
}

/// Lemma: the result of removing all values that several paths select depends only on the set of paths.
///
/// ```text
/// laws::removes_in_any_order();
/// ```
pub fn removes_in_any_order()
    ensures { RemovesInAnyOrder }
{
    one_tree_per_text();
    locations_once_in_order_ascend();
    nulling_and_taking_ignore_order();
}
