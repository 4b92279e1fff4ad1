ghost use Rattle.std.specs.Prelude.{◌≡◌, true};
ghost use Rattle.tree.specs.States.{sound_in};

use crate::nodes::Node;
use crate::states::State;

/// A book in an AVL tree, in node memory that its owner hands over. Memory of 1 to 65,535 slots serves; any other
/// memory serves as none.
#[derive(Drop)]
pub struct Tree<'a, K> {
    pub(crate) nodes: &'a mut [Node<K>],
    pub(crate) state: State,
    ghost ok: { sound_in nodes.now state ≡ true },
}
