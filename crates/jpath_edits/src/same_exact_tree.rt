//! Whether two exact trees are the same.

ghost use Rattle.std.specs.Prelude.{◌≡◌, IsTrue};
ghost use Rattle.json.specs.Value.{value_view, items_view, members_view};

use json::Value as Exact;

// Whether the trees are the same: numbers by their digits, members in their order.
#[cycle(same_exact)]
pub(crate) fn is_same_exact_tree(value: &Exact<'_>, other: &Exact<'_>) -> bool
    ensures { IsTrue result → value_view value.now ≡ value_view other.now }
{
    match (value, other) {
        (Exact::Null, Exact::Null) => true,
        (Exact::Bool(truth), Exact::Bool(other)) => *truth == *other,
        (Exact::Number(digits), Exact::Number(other)) => *digits == *other,
        (Exact::String(text), Exact::String(other)) => *text == *other,
        (Exact::Array(items), Exact::Array(others)) => are_same_items(items, others),
        (Exact::Object(members), Exact::Object(others)) => are_same_members(members, others),
        _ => false,
    }
}

// Whether as many items stand in both, and each is the same.
#[cycle(same_exact)]
fn are_same_items(items: &Vec<Exact<'_>>, others: &Vec<Exact<'_>>) -> bool
    ensures { IsTrue result → items_view items.now.items ≡ items_view others.now.items }
{
    for (index, item) in items.iter().enumerate() {
        match others.get(index) {
            Some(other) => if !is_same_exact_tree(item, other) {
                return false;
            },
            None => return false,
        }
    }
    items.len() == others.len()
}

// Whether as many members stand in both, and each has the same name and the same value.
#[cycle(same_exact)]
fn are_same_members(members: &Vec<(&str, Exact<'_>)>, others: &Vec<(&str, Exact<'_>)>) -> bool
    ensures { IsTrue result → members_view members.now.items ≡ members_view others.now.items }
{
    for (index, member) in members.iter().enumerate() {
        match others.get(index) {
            Some(other) => if member.0 != other.0 || !is_same_exact_tree(&member.1, &other.1) {
                return false;
            },
            None => return false,
        }
    }
    members.len() == others.len()
}
