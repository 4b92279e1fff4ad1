ghost use Rattle.std.specs.Prelude.{◌≡◌};
ghost use Rattle.tree.specs.Blank.{bare, blank};
ghost use Rattle.tree.specs.Sides.{side_of, other, link_on, with_link};

use books::Entry;
use std::cmp::Ordering;

/// The way to a node: absent, or the slot that it stands in.
pub(crate) type Link = Option<u16>;

/// A side of a node.
#[derive(Clone, Copy)]
pub(crate) enum Side {
    Left,
    Right,
}

impl Side {
    /// The side that a key is on, by how it compares with the node's key; none where it is that key.
    pub(crate) fn of(order: Ordering) -> Option<Side>
        ensures { result ≡ side_of order }
    {
        match order {
            Ordering::Less => Some(Side::Left),
            Ordering::Equal => None,
            Ordering::Greater => Some(Side::Right),
        }
    }

    pub(crate) fn other(self) -> Side
        ensures { result ≡ other self }
    {
        match self {
            Side::Left => Side::Right,
            Side::Right => Side::Left,
        }
    }
}

/// A slot of node memory. In use it holds a pair, the links to the node's two sides and the height of the tree below
/// it. A free slot has height 0, and its left link leads to the slot that was freed before it.
#[derive(Clone, Copy)]
pub struct Node<K> {
    pub(crate) entry: Entry<K>,
    pub(crate) left: Link,
    pub(crate) right: Link,
    pub(crate) height: u8,
}

impl<K: Copy> Node<K> {
    /// A slot that holds no pair. Its key stands for nothing: it only fills the place.
    pub fn blank(key: K) -> Node<K>
        ensures { result ≡ blank key }
    {
        Node::bare(Entry { key, ticket: 0 })
    }

    /// A pair over no sides, its height not yet told.
    pub(crate) fn bare(entry: Entry<K>) -> Node<K>
        ensures { result ≡ bare entry }
    {
        Node {
            entry,
            left: None,
            right: None,
            height: 0,
        }
    }

    /// The link to a side.
    pub(crate) fn link(&self, side: Side) -> Link
        ensures { result ≡ link_on side self.now }
    {
        match side {
            Side::Left => self.left,
            Side::Right => self.right,
        }
    }

    /// The node with another tree on a side, its height not yet told.
    pub(crate) fn with_link(self, side: Side, link: Link) -> Node<K>
        ensures { result ≡ with_link side link self }
    {
        match side {
            Side::Left => Node { left: link, ..self },
            Side::Right => Node {
                right: link,
                ..self
            },
        }
    }
}
