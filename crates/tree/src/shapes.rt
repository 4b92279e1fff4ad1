//! What a tree shows of its slots and its latest call.

ghost use Rattle.std.specs.Prelude.{◌≡◌, take};
ghost use Rattle.std.specs.List.{slice_get};
ghost use Rattle.tree.specs.Shapes.{first_of, next_of, shape_at};
ghost use Rattle.tree.specs.Standing.{link_of};
ghost use Rattle.tree.specs.States.{model_of};

use crate::nodes::Node;
use crate::trees::Tree;
use keys::OrderedKey;

/// A slot that holds a pair: the slots of its two sides, the height of the tree below it, and its ticket.
#[derive(Clone, Copy, PartialEq, Eq)]
pub struct Shape {
    pub left: Option<u16>,
    pub right: Option<u16>,
    pub height: u8,
    pub ticket: u32,
}

impl<'a, K: OrderedKey> Tree<'a, K> {
    /// How many comparisons the latest `add`, `take`, `find` or seek made; 0 when new.
    pub fn comparisons(&self) -> u32
        ensures { result ≡ (model_of self.now.nodes.now self.now.state).comparisons }
    {
        self.state.comparisons
    }

    /// The root's slot.
    pub fn root(&self) -> Option<u16>
        ensures { result ≡ link_of (model_of self.now.nodes.now self.now.state).tree }
    {
        self.state.root
    }

    /// The lowest slot never used.
    pub fn fresh(&self) -> u16
        ensures { result ≡ (model_of self.now.nodes.now self.now.state).fresh }
    {
        self.state.fresh
    }

    /// The free slot that is used next.
    pub fn first_free(&self) -> Option<u16>
        ensures { result ≡ first_of (model_of self.now.nodes.now self.now.state).free }
    {
        self.state.free
    }

    /// The free slot that is used after a free slot.
    pub fn free_after(&self, slot: u16) -> Option<u16>
        ensures { result ≡ next_of (model_of self.now.nodes.now self.now.state).free slot }
    {
        let n = self.used(slot)?;
        if n.height == 0 { n.left } else { None }
    }

    /// What a slot shows, if it holds a pair. A slot that is used and not free does: its height is not 0.
    pub fn shape(&self, slot: u16) -> Option<Shape>
        ensures { result ≡ shape_at (model_of self.now.nodes.now self.now.state).tree slot }
    {
        match self.used(slot) {
            Some(n) if n.height != 0 => Some(Shape {
                left: n.left,
                right: n.right,
                height: n.height,
                ticket: n.entry.ticket,
            }),
            _ => None,
        }
    }

    // The node in a slot that was ever used: it holds a pair, or is free.
    fn used(&self, slot: u16) -> Option<Node<K>>
        ensures { result ≡ slice_get (take self.now.state.fresh self.now.nodes.now) slot }
    {
        let used = &self.nodes[..self.state.fresh as usize];
        used.get(slot as usize).copied()
    }
}
