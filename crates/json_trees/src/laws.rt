//! Lemmas that callers cite. Each is the contract of an empty function.

ghost use Rattle.std.specs.Prelude.{◌≡◌, true};
ghost use Rattle.json.specs.Json.{Json};
ghost use Rattle.json.specs.Tree.{HasNumbers};
ghost use Rattle.jsonpath_nodes.specs.place.Location.{Location};
ghost use Rattle.json_trees.specs.DocumentPlaces.{DocumentStandsAt};
ghost use Rattle.json_trees.specs.NumberKey.{OneKey};
ghost use Rattle.json_trees.specs.OrderedTree.{is_ordered, in_order};

/// Lemma: the exact tree of a JSON text, which keeps numbers as written, and the document made from this tree, in which
/// paths select, have values at the same locations. At each location, the document's value is what is made in the same
/// way from the tree's value there.
pub fn document_has_same_locations()
    ensures { (l : Location) (exact : Json) → DocumentStandsAt exact l }
{}

/// Lemma: a number has one `NumberKey`, however it is written (zeros, point, exponent). So equal numbers have equal
/// keys.
pub fn one_number_one_key()
    ensures { OneKey }
{}

/// Lemma: a tree in which each object's names ascend, each name once, is the tree put in the order of its names; and if
/// the numbers of a tree can be written, so can those of the tree put in order.
pub fn trees_are_put_in_order()
    ensures stands { (exact : Json) → is_ordered exact ≡ true → exact ≡ in_order exact }
    ensures numbers { (exact : Json) → HasNumbers exact → HasNumbers (in_order exact) }
{}
