//! Insertion and removal in node memory: down by one comparison at each node, and back with each node put in balance.

ghost use Rattle.std.specs.Prelude.{◌≡◌, None, Some};
ghost use Rattle.avl.specs.Avl.{balance, tip};
ghost use Rattle.tree.specs.Changes.{Spot, GrownBy, Changeable, Inserts, TakesTheLeast, Sided, JoinsUp, Removes};
ghost use Rattle.tree.specs.Shaping.{Joinable, Joins};
ghost use Rattle.tree.specs.Sides.{with_link};

use crate::counted::Counted;
use crate::nodes::{Link, Node, Side};
use crate::shaping::{put, settle};
use books::Entry;
use keys::{OrderedKey, Refusal};

/// A tree that lost a pair: what of the pair is asked for, the slot that is free then, and the link to what is left.
#[derive(Clone, Copy)]
pub(crate) struct Cut<T> {
    pub out: T,
    pub slot: u16,
    pub top: Link,
}

/// Puts a pair into the tree at a link, in the given slot, and answers the link to the tree with it. A key that is held
/// is refused before a missing slot is.
pub(crate) fn insert<K: OrderedKey>(
    nodes: &mut [Node<K>],
    at: Link,
    entry: &Entry<K>,
    slot: Link,
) -> Counted<Result<Link, Refusal>>
    requires { Changeable nodes.old at slot }
    ensures { Inserts K.OrderedKey.order nodes.old at slot entry.now.key entry.now.ticket nodes.new result }
{
    let Some(i) = at else {
        return Counted {
            answer: new_leaf(nodes, entry, slot),
            comparisons: 0,
        };
    };
    let node = nodes[i as usize];
    let Some(side) = Side::of(entry.key.compare(&node.entry.key)) else {
        return Counted {
            answer: Err(Refusal::KeyHeld),
            comparisons: 1,
        };
    };
    let below = insert(nodes, node.link(side), entry, slot);
    let answer = match below.answer {
        Ok(top) => Ok(settle(nodes, i, node.with_link(side, top))),
        Err(refusal) => Err(refusal),
    };
    Counted {
        answer,
        comparisons: below.comparisons + 1,
    }
}

// A new key becomes a leaf.
fn new_leaf<K: OrderedKey>(
    nodes: &mut [Node<K>],
    entry: &Entry<K>,
    slot: Link,
) -> Result<Link, Refusal>
    requires { Spot nodes.old slot tip }
    ensures { GrownBy K.OrderedKey.order None slot nodes.old tip entry.now.key entry.now.ticket nodes.new result }
{
    let slot = slot.ok_or(Refusal::BookFull)?;
    Ok(put(nodes, slot, Node::bare(*entry)))
}

// Puts a node over a side that lost a pair, and in balance again. A take can make several nodes lean, so every node on
// the way back goes through here, not only the first one that is turned.
fn close<K: Copy, T>(
    nodes: &mut [Node<K>],
    i: u16,
    node: Node<K>,
    side: Side,
    below: Cut<T>,
) -> Cut<T>
    requires { Joinable 250 nodes.old i (with_link side below.top node) }
    ensures same { (result.out ≡ below.out) × (result.slot ≡ below.slot) }
    ensures left { Joins 250 balance nodes.old i (with_link side below.top node) nodes.new result.top }
{
    let top = settle(nodes, i, node.with_link(side, below.top));
    Cut { top, ..below }
}

// Takes the least pair out of the tree whose root is in slot `i`.
fn take_least<K: Copy>(nodes: &mut [Node<K>], i: u16) -> Cut<Entry<K>>
    requires { Changeable nodes.old (Some i) None }
    ensures { TakesTheLeast nodes.old i nodes.new result }
{
    let node = nodes[i as usize];
    match node.left {
        None => Cut {
            out: node.entry,
            slot: i,
            top: node.right,
        },
        Some(j) => {
            let least = take_least(nodes, j);
            close(nodes, i, node, Side::Left, least)
        }
    }
}

// Takes the node's own pair out of slot `i`: in its place comes its one side, or slot `i` again with the least pair of
// its right side.
fn take_root<K: Copy>(nodes: &mut [Node<K>], i: u16, node: Node<K>) -> Cut<u32>
    requires { Sided nodes.old i node }
    ensures { JoinsUp nodes.old i node nodes.new result }
{
    let out = node.entry.ticket;
    match (node.left, node.right) {
        (None, top) | (top, None) => Cut { out, slot: i, top },
        (Some(_), Some(m)) => {
            let least = take_least(nodes, m);
            let heir = Node {
                entry: least.out,
                right: least.top,
                ..node
            };
            Cut {
                out,
                slot: least.slot,
                top: settle(nodes, i, heir),
            }
        }
    }
}

/// Takes the pair of a key out of the tree at a link, and answers its ticket.
pub(crate) fn remove<K: OrderedKey>(
    nodes: &mut [Node<K>],
    at: Link,
    key: &K,
) -> Counted<Option<Cut<u32>>>
    requires { Changeable nodes.old at None }
    ensures { Removes K.OrderedKey.order nodes.old at key.now nodes.new result }
{
    let Some(i) = at else {
        return Counted {
            answer: None,
            comparisons: 0,
        };
    };
    let node = nodes[i as usize];
    let Some(side) = Side::of(key.compare(&node.entry.key)) else {
        return Counted {
            answer: Some(take_root(nodes, i, node)),
            comparisons: 1,
        };
    };
    let below = remove(nodes, node.link(side), key);
    let answer = match below.answer {
        Some(cut) => Some(close(nodes, i, node, side, cut)),
        None => None,
    };
    Counted {
        answer,
        comparisons: below.comparisons + 1,
    }
}
