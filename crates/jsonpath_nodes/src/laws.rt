//! Lemmas about documents, locations, steps and updates. Each is the contract of a function that changes nothing.
//!
//! Candidates here are those of a filter with a relative query of at least one segment (an `@`, in no deeper filter,
//! followed by a step): the non-array values left after flattening nested arrays, each location once. Locations are
//! disjoint if none equals or is below another, and apart if none equals another or leads to it by index steps.

ghost use Rattle.std.specs.Prelude.{◌≡◌, List, map, Option, option_map};
ghost use Rattle.std.specs.Fn.{Called};
ghost use Rattle.jsonpath_nodes.specs.document.Document.{Document};
ghost use Rattle.serde_json.specs.declared.value.Value.{Value};
ghost use Rattle.serde_json.specs.View.{view};
ghost use Rattle.jsonpath_nodes.specs.document.OfData.{document_of, value_document, DocumentsKeepDataApart};
ghost use Rattle.jsonpath_nodes.specs.step.Candidates.{DisjointInOneDescent};
ghost use Rattle.jsonpath_nodes.specs.DocumentLaws.{BelowIsAll, BelowAscends, OnceInOrderAscends, OnceInOrderKeepsMembers, NullsTopmost, NullsNothingElse, NullsInTurn, PutsThere, PutsNothingElse, ChangesNothing, TakesFromTheBack, SetsAlone, RunsInPlace};
ghost use Rattle.std.specs.declared.cmp.Ordering.TheVariants.{Equal};
ghost use Rattle.jsonpath_nodes.specs.place.Location.{Location, location_cmp};
ghost use Rattle.jsonpath_nodes.specs.place.SpotPlace.{StandAt, location_of};
ghost use Rattle.jsonpath_nodes.specs.place.SpotPlace.{Spot};
ghost use Rattle.jsonpath_nodes.specs.update.Run.{RunsWith, update_each};
ghost use Rattle.jsonpath_nodes.specs.place.Order.{IsOrderedDocument};
ghost use Rattle.jsonpath_nodes.specs.step.SameMembers.{StepOfASet, BelowOfASet, CandidatesOfASet, KeptOfASet, SomeOfASet, JoinedSets, EachOnceKeepsMembers, OneListOfASet, BelowOfTheTopmost, DescentOfTheTopmost};
ghost use Rattle.jsonpath_nodes.specs.step.Separate.{ApartHasNoRepeatFlat, OneIsApart, ApartHasNoRepeat, NamesStandApart, ListsStandApart, IndexStandsApart, RangeStandsApart, StepStandsApart, KeptStandApart, CandidatesStandApart, HasNamesInOrder, StepHasNoRepeat, EveryHasNoRepeat, ChildHasNoRepeat, KeptHasNoRepeat, BelowHasNoRepeat, DescentStandsApart, LevelIsDisjoint, DisjointStandsApart, StepStaysDisjoint, KeptStayDisjoint, CandidatesStayDisjoint, BelowDisjointHasNoRepeat};

use crate::tree::order;
use serde_json::Value;

/// Lemma: `Value`s with different content have different documents. The document of a `Value` is the form in which
/// contracts (proved specifications) describe it: it has the same content, with each number as `serde_json` read it.
///
/// ```text
/// laws::documents_keep_data_apart();
/// ```
#[tactic(auto, using(crate::proofs::tree::DataLemmas::keeps_data_apart))]
pub fn documents_keep_data_apart()
    ensures { DocumentsKeepDataApart }
{}

/// Lemma: the list of the root and all its descendants has exactly the locations at which the document has a value.
///
/// ```text
/// laws::all_locations_stand_below_root();
/// ```
pub fn all_locations_stand_below_root()
    ensures { BelowIsAll }
{}

/// Lemma: the list of all locations at or below the root of a document has each of them once, in document order
/// (parents before children, members by their names' bytes, items by index).
///
/// ```text
/// laws::locations_below_root_ascend();
/// ```
pub fn locations_below_root_ascend()
    ensures { BelowAscends }
{}

/// Lemma: sorting a list of locations into document order (parents before children, members by their names' bytes,
/// items by index) and dropping its repeats gives a strictly ascending list with exactly the original locations.
///
/// ```text
/// laws::locations_once_in_order_ascend();
/// ```
pub fn locations_once_in_order_ascend()
    ensures ascends { OnceInOrderAscends }
    ensures members { OnceInOrderKeepsMembers }
{}

/// Lemma: two locations that compare equal have the same steps.
///
/// ```text
/// laws::equal_locations_are_same();
/// ```
pub fn equal_locations_are_same()
    ensures { (l m : Location) → location_cmp l m ≡ Equal → l ≡ m }
{}

/// Lemma: let a list of nodes and a list of locations be equally long, and let each node have the location with the
/// same index, and the document's value there. Then the list of the nodes' locations, in order, is the second list.
///
/// ```text
/// laws::spots_show_their_locations();
/// ```
pub fn spots_show_their_locations()
    ensures { (doc : Document) (ls : List Location) (spots : List Spot) → StandAt doc ls spots → map location_of spots ≡ ls }
{}

/// Lemma: putting null at all locations of a list puts it at each of them that exists, is below the root, and has no
/// ancestor in the list other than the root. Nothing else changes. Putting null at each location in turn does the same.
///
/// ```text
/// laws::nulling_at_topmost();
/// ```
pub fn nulling_at_topmost()
    ensures topmost { NullsTopmost }
    ensures nothing_else { NullsNothingElse }
    ensures in_turn { NullsInTurn }
{}

/// Lemma: an update that puts a value at a single location changes the value there, and nothing else. If the location
/// doesn't exist, or is the root, nothing changes.
///
/// ```text
/// laws::putting_at_one_location();
/// ```
pub fn putting_at_one_location()
    ensures there { PutsThere }
    ensures nothing_else { PutsNothingElse }
    ensures nowhere { ChangesNothing }
{}

/// Lemma: let a closure always return the same result. Then updating the locations of a list by the closure, one after
/// another, does the same as applying this result at each location in turn: `Some` puts the value there, `None` removes
/// what is there. Calling this lemma does not call the closure.
///
/// ```text
/// let on = &mut |_old: Value| Some(Value::Bool(true));
/// laws::updates_put_one_answer_in_turn(on);
/// ```
pub fn updates_put_one_answer_in_turn<F: FnMut(Value) -> Option<Value>>(_closure: &F)
    ensures { (answer : Option Document)
        → ((f g : F) (handed : Value) (said : Option Value) → Called F.FnMut f (handed, tt) said g → option_map value_document said ≡ answer)
        → (ls : List Location) (before after : Document) (f g : F) → RunsWith F.FnMut ls before f g after → after ≡ update_each answer ls before }
{}

/// Lemma: let a list have each location once, in document order (parents before children, members by their names'
/// bytes, items by index). Then removing the values at these locations all at once is the same as removing them one
/// after another, from the last location back to the first.
///
/// ```text
/// laws::taking_at_once_is_in_turn();
/// ```
pub fn taking_at_once_is_in_turn()
    ensures { TakesFromTheBack }
{}

/// Lemma: the results of putting null at a list of locations, and of removing the values there, depend only on the set
/// of locations, not on their order or on repeats.
///
/// ```text
/// laws::nulling_and_taking_ignore_order();
/// ```
pub fn nulling_and_taking_ignore_order()
    ensures { SetsAlone }
{}

/// Lemma: let two lists have the same set of locations. Then a step or `..` selects the same set of nodes from both,
/// and a filter tests the same set of values. The same set of locations in both meets a condition; so if a location of
/// one list meets it, one of the other does. In document order (parents before children, members by their names' bytes,
/// items by index) and with each location once, both lists are equal.
/// ```text
/// laws::steps_ignore_order_and_repeats();
/// ```
pub fn steps_ignore_order_and_repeats()
    ensures step { StepOfASet }
    ensures below { BelowOfASet }
    ensures candidates { CandidatesOfASet }
    ensures kept { KeptOfASet }
    ensures some { SomeOfASet }
    ensures joined { JoinedSets }
    ensures each_once { EachOnceKeepsMembers }
    ensures one_list { OneListOfASet }
{}

/// Lemma: `..` selects the same set from a set of nodes as from those of them that have no ancestor in that set.
///
/// ```text
/// laws::topmost_descend_to_same_set();
/// ```
pub fn topmost_descend_to_same_set()
    ensures below { BelowOfTheTopmost }
    ensures step { DescentOfTheTopmost }
{}

/// Lemma: let no location of a list be at or below another, and let a closure never return `None`. Then updating the
/// locations by the closure, one after another, puts at each location that exists, other than the root, the closure's
/// result for the original value. Nothing else changes.
///
/// ```text
/// laws::replacements_stay_in_place();
/// ```
pub fn replacements_stay_in_place()
    ensures { RunsInPlace }
{}

/// Lemma: let no location of a list be equal to another or below it. Then no value is tested twice by a filter after
/// `..` that is applied at these locations and has a relative query with at least one segment, such as `..[?(@.a)]`.
/// The values that it tests are those found below the first location, then those found below the second, and so on.
///
/// ```text
/// laws::candidates_of_disjoint_in_descents();
/// ```
pub fn candidates_of_disjoint_in_descents()
    ensures { DisjointInOneDescent }
{}

/// Lemma: locations are called disjoint if no two are equal and none is below another. Different locations of equal
/// depth are disjoint. No location is at or below two disjoint ones. Disjoint locations are also apart, a weaker
/// property: no two are equal, and none can be reached from another by indexes alone.
///
/// From disjoint locations, a step that selects no child of a value twice leads to disjoint locations. So does `*`, if
/// the member names of each object to which it is applied ascend, so that none is repeated. The values that a filter
/// tests from disjoint locations are at disjoint locations, too, and so are those of them that meet its condition.
///
/// ```text
/// laws::steps_keep_locations_disjoint();
/// ```
pub fn steps_keep_locations_disjoint()
    ensures level { LevelIsDisjoint }
    ensures apart { DisjointStandsApart }
    ensures below { BelowDisjointHasNoRepeat }
    ensures step { StepStaysDisjoint }
    ensures kept { KeptStayDisjoint }
    ensures candidates { CandidatesStayDisjoint }
{}

/// Lemma: locations are called apart if no two are equal and none is reached from another by indexes alone; a single
/// one is apart. A filter's candidates are the values that it tests: those at its starting locations, each array
/// replaced by its items, again and again until no array is left. If a filter starts from locations that are apart, no
/// candidate is found twice. From any locations, its candidates' locations, each taken once, are apart.
///
/// ```text
/// laws::apart_locations_meet_candidates_once();
/// ```
pub fn apart_locations_meet_candidates_once()
    ensures once { ApartHasNoRepeatFlat }
    ensures one { OneIsApart }
    ensures candidates { CandidatesStandApart }
    ensures no_repeat { ApartHasNoRepeat }
{}

/// Lemma: locations are called apart if no two are equal and none can be reached from another by indexes alone. From
/// different locations, a name or a list of different names leads to locations that are apart; from a single location,
/// so does `..` before a name. From locations that are apart, an index, a slice, or a list of different non-negative
/// indexes leads to locations that are apart. If locations are apart, so are those that meet a filter's condition.
///
/// ```text
/// laws::steps_keep_locations_apart();
/// ```
pub fn steps_keep_locations_apart()
    ensures named { NamesStandApart }
    ensures lists { ListsStandApart }
    ensures descent { DescentStandsApart }
    ensures nth { IndexStandsApart }
    ensures range { RangeStandsApart }
    ensures step { StepStandsApart }
    ensures kept { KeptStandApart }
{}

/// Lemma: three kinds of lists have no location twice. First, all locations at or below one location, if in each object
/// of the document the names ascend. Second, what a step selects from a list without repeats, if the step has no name
/// twice and, of several indexes, none twice and none negative; for `*`, the names in each object at these locations
/// must ascend, too. Third, those locations of a list without repeats that meet a filter's condition.
///
/// ```text
/// laws::steps_lead_without_repeats();
/// ```
pub fn steps_lead_without_repeats()
    ensures below { BelowHasNoRepeat }
    ensures step { StepHasNoRepeat }
    ensures every { EveryHasNoRepeat }
    ensures child { ChildHasNoRepeat }
    ensures kept { KeptHasNoRepeat }
{}

/// Lemma: in a `Value`, the member names of each object, at any depth, ascend strictly by their bytes. Unlike other
/// lemmas, its call takes time: it goes through the whole value.
///
/// ```text
/// laws::value_is_document(json);
/// ```
pub fn value_is_document(value: &Value)
    ensures { IsOrderedDocument (document_of (view value.now)) }
{
    order::value_is_document(value);
}

/// Lemma: if the value is an object, its member names ascend strictly by bytes. Objects below it are not covered.
///
/// ```text
/// let document = read_document(alloc, br#"{"b":1,"a":2}"#)?;
/// laws::object_names_ascend(&document);
/// ```
pub fn object_names_ascend(value: &Value)
    ensures { HasNamesInOrder (document_of (view value.now)) }
{
    order::object_names_ascend(value);
}
