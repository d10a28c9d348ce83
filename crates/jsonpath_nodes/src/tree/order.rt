//! In each object of a tree the names ascend. Each call goes over the values, and changes and answers nothing.

ghost use Rattle.jsonpath_nodes.specs.document.Document.{object};
ghost use Rattle.jsonpath_nodes.specs.place.Order.{AreOrderedDocuments, IsOrderedDocument};
ghost use Rattle.jsonpath_nodes.specs.step.Separate.{HasNamesInOrder};

use crate::tree::Tree;

// In each object at or below the value the names ascend strictly.
#[cycle(document)]
pub(crate) fn value_is_document<T: Tree>(value: T)
    ensures { IsOrderedDocument (T.content value) }
{
    if let Some(members) = value.as_object() {
        object_is_document::<T>(members)
    } else if let Some(items) = value.as_array() {
        items_are_documents::<T>(items)
    }
}

// In each object at or below an item of the array the names ascend strictly.
#[cycle(document)]
fn items_are_documents<T: Tree>(items: T::Array)
    ensures { AreOrderedDocuments (T.items items) }
{
    let mut left = T::each_item(items);
    while let Some(item) = T::next_item(&mut left) {
        value_is_document(item);
    }
}

// In the object, and in each object below it, the names ascend strictly.
#[cycle(document)]
fn object_is_document<T: Tree>(members: T::Object)
    ensures { IsOrderedDocument (object (T.members members)) }
{
    let mut left = T::each_member(members);
    while let Some((_, member)) = T::next_member(&mut left) {
        value_is_document(member);
    }
}

// If the value is an object, its names ascend strictly.
pub(crate) fn object_names_ascend<T: Tree>(value: T)
    ensures { HasNamesInOrder (T.content value) }
{
    if let Some(members) = value.as_object() {
        let _ = T::each_member(members);
    }
}
