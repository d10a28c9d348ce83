//! One side of a comparison, for all candidates.

ghost use Rattle.std.specs.Prelude.{◌≡◌, false, length};

use jsonpath_nodes::Atom;

// What a comparison sees of a term: atoms with candidates' numbers or, of a literal or a path from `$`, atoms for all.
#[derive(Drop)]
pub struct Side<'s, N> {
    pub(crate) is_constant: bool,
    pub(crate) tags: &'s [usize],
    pub(crate) atoms: Vec<Atom<'s, N>>,
    ghost paired: { is_constant ≡ false → length tags.now ≡ length atoms.items },
}
