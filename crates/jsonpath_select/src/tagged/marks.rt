//! The node references of all candidates of a filter in one list, each tagged with the number of its candidate.

ghost use Rattle.std.specs.Prelude.{◌≡◌, length};

// Marks, each with the number of the candidate that it is for; in the walk that counts, with how many ways lead there.
#[derive(Drop)]
pub struct TaggedMarks<M> {
    pub(crate) tags: Vec<usize>,
    pub(crate) marks: Vec<M>,
    ghost paired: { length tags.items ≡ length marks.items },
}

// Where a path has led: of each candidate by itself, or from the root, once for all of them.
#[derive(Drop)]
pub struct Found<M> {
    pub(crate) is_shared: bool,
    pub(crate) pairs: TaggedMarks<M>,
}
