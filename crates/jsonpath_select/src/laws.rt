//! Lemmas about selections, which follow from the definitions alone. Each is the contract of a function that does
//! nothing; a function whose proof needs the lemma calls it.
ghost use Rattle.jsonpath_select.specs.SelectionLaws.{OneListOfLocations, OneListOfValues, OneListOfSights, SelectsOnce, OrderIsFree, LocationsInBothOrders, ValuesInBothOrders, SelectsItself, SelectsNames, AnswersPlace, SelectsByTree, NeverRefused, AnswersEach};
ghost use Rattle.jsonpath_select.specs.comparison.Extremes.{EndsDecidePairs};
ghost use Rattle.jsonpath_select.specs.SetMeaning.{SelectsOneSet, SelectsOneOrderedSet, HoldsAlike, FollowsWhatLeadsOn, FirstOfTwoPieces};
ghost use Rattle.jsonpath_select.specs.Rooted.{RootedTermIsFixed, RootedHoldsAlike, RootedKeepsAllOrNone};

use jsonpath_nodes::laws::{
    apart_locations_meet_candidates_once, equal_locations_are_same, steps_ignore_order_and_repeats,
    steps_lead_without_repeats,
};
use jsonpath_paths::laws::{
    connective_joins_conditions, longest_front, one_tree_per_text, word_is_first_token,
};

/// Lemma: for one path text and one document, there is only one list of selected locations, one of selected values and
/// one of selected nodes. So all types by which one can select, such as `Selector`, select the same list by this text.
///
/// ```text
/// laws::one_selection_per_text();
/// ```
pub fn one_selection_per_text()
    ensures locations { OneListOfLocations }
    ensures values { OneListOfValues }
    ensures spots { OneListOfSights }
{
    one_tree_per_text();
}

/// Lemma: a path selects no location twice if, outside filters, it has no `..` and no list of names or indexes.
///
/// ```text
/// laws::paths_without_repeats_select_once();
/// ```
pub fn paths_without_repeats_select_once()
    ensures { SelectsOnce }
{
    steps_lead_without_repeats();
    apart_locations_meet_candidates_once();
}

/// Lemma: two paths that differ only in the order of the sides of `&&` and `||` select the same list in any document.
///
/// ```text
/// laws::swapped_sides_select_alike();
/// ```
pub fn swapped_sides_select_alike()
    ensures { OrderIsFree }
{}

/// Lemma: for condition texts `a` and `b`, the paths `$[?((a) && (b))]` and `$[?((b) && (a))]` select the same list,
/// and so do those with `||`. It assumes that these paths, and also `$[?(a)]` and `$[?(b)]`, are in the grammar. This
/// rules out a text such as `@.x) || (@.y` for `a`: one pair of parentheses must enclose a filter's whole condition, so
/// `$[?(@.x) || (@.y)]` is no path. The inner parentheses are needed, since `&&` and `||` have the same precedence and
/// group to the right: without them, if `a` is `@.x && @.y`, `a || b` means `@.x && (@.y || b)`.
///
/// ```text
/// laws::swapped_condition_texts_select_alike();
/// ```
pub fn swapped_condition_texts_select_alike()
    ensures locations { LocationsInBothOrders }
    ensures values { ValuesInBothOrders }
{
    one_tree_per_text();
    connective_joins_conditions();
}

/// Lemma: the text of a location, as `{}` prints it, is a path of the grammar. It selects this location alone in a
/// document that has it, and nothing in any other. Assumed: each name is UTF-8 text and each index is below 2^63.
///
/// ```text
/// laws::location_text_selects_itself();
/// ```
pub fn location_text_selects_itself()
    ensures { SelectsItself }
{
    longest_front();
}

/// Lemma: a path of names after dots, as `$.store.book`, selects the location whose steps are these names, and nothing
/// else; if the document doesn't have it, nothing. The lemma assumes that each name is a word of ASCII characters,
/// which needs no quotes in a path, and doesn't begin with a dollar sign.
///
/// ```text
/// laws::dotted_names_select_one_location();
/// ```
pub fn dotted_names_select_one_location()
    ensures { SelectsNames }
{
    word_is_first_token();
    longest_front();
}

/// Lemma: if a path text selects one given location alone in a document, the only value that it selects is the value
/// there. If the document doesn't have this location, and the text selects no location, it selects no value.
///
/// ```text
/// laws::one_location_answers_one_value();
/// ```
pub fn one_location_answers_one_value()
    ensures { AnswersPlace }
{
    one_tree_per_text();
}

/// Lemma: a path text has only one syntax tree; so what the text selects can be computed from any syntax tree of it.
///
/// ```text
/// laws::selects_by_any_tree();
/// ```
pub fn selects_by_any_tree()
    ensures { SelectsByTree }
{
    one_tree_per_text();
}

/// Lemma: compiling a text of the path grammar fails only if memory runs out.
///
/// ```text
/// laws::refused_for_memory_alone();
/// ```
pub fn refused_for_memory_alone()
    ensures { NeverRefused }
{}

/// Lemma: the values that a path selects are those at the locations that it selects, one at each, in the same order.
///
/// ```text
/// laws::each_location_has_a_value();
/// ```
pub fn each_location_has_a_value()
    ensures { AnswersEach }
{}

/// Lemma: in a filter, a path from the root (`$`) does not depend on the candidate, which is the value that the filter
/// tests. So if a side of a comparison is such a path, it has the same values at every candidate, and a condition whose
/// paths all begin at the root holds at all candidates or at none. So the values of such a side, and whether such a
/// condition holds, need to be computed only once.
///
/// ```text
/// laws::rooted_is_same_for_all_candidates();
/// ```
pub fn rooted_is_same_for_all_candidates()
    ensures term { RootedTermIsFixed }
    ensures condition { RootedHoldsAlike }
    ensures kept { RootedKeepsAllOrNone }
{}

/// Lemma: to decide whether some value of a left list and some value of a right list satisfy a comparison other than
/// `!=`, not all pairs have to be compared. For each kind of value, such as numbers or strings, `<` and `<=` are
/// decided by the least left and the greatest right value, `>` and `>=` by the greatest left and the least right value,
/// and `==` by whether a left value is in the set of the right values.
///
/// ```text
/// laws::extremes_and_sets_decide_pairs();
/// ```
pub fn extremes_and_sets_decide_pairs()
    ensures { EndsDecidePairs }
{}

/// Lemma: the set of nodes that a path selects stays the same if duplicates are dropped after each step, and if before
/// a step with `..` the nodes that have an ancestor in the same list are dropped. If this is done in the paths of a
/// filter's condition, too, the condition still holds at the same locations. Whether it holds depends on the location
/// and the document alone, so it can be decided once for each location.
///
/// ```text
/// laws::dropping_repeats_keeps_the_set();
/// ```
pub fn dropping_repeats_keeps_the_set()
    ensures set { SelectsOneSet }
    ensures ordered { SelectsOneOrderedSet }
    ensures condition { HoldsAlike }
{
    steps_ignore_order_and_repeats();
}

/// Lemma: of a list of locations to which steps of a path are applied, those from which the steps select nothing can be
/// left out beforehand: the others alone yield the same list, in the same order, with the same duplicates.
///
/// ```text
/// laws::what_leads_on_suffices();
/// ```
pub fn what_leads_on_suffices()
    ensures { FollowsWhatLeadsOn }
{
    steps_ignore_order_and_repeats();
    equal_locations_are_same();
}

/// Lemma: let a list of nodes be split in two parts. The first node that some steps find from the whole list is the
/// first that they find from the first part or, if they find none there, from the second part.
///
/// ```text
/// laws::first_is_of_first_piece();
/// ```
pub fn first_is_of_first_piece()
    ensures { FirstOfTwoPieces }
{
    steps_ignore_order_and_repeats();
    equal_locations_are_same();
}
