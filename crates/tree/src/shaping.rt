//! Nodes written over their sides, rotations, and a node put in balance.

ghost use Rattle.std.specs.Prelude.{◌≡◌, ◌≤◌};
ghost use Rattle.avl.specs.Avl.{fork, balance};
ghost use Rattle.tree.specs.Shaping.{Joinable, Joins, Turns, turn, ready, heavy};
ghost use Rattle.tree.specs.Standing.{height_at, Reaches, HoldsATree};

use crate::nodes::{Link, Node, Side};

// How high the tree at a link is, by what its node tells.
fn height_at<K: Copy>(nodes: &[Node<K>], at: Link) -> u8
    requires { Reaches nodes.now at }
    ensures { result ≡ height_at nodes.now at }
{
    at.map_or(0, |i| nodes[i as usize].height)
}

// Puts a node in slot `i`, its height told by its sides. What its height was does not matter, nor does it in the
// functions below.
pub(crate) fn put<K: Copy>(nodes: &mut [Node<K>], i: u16, node: Node<K>) -> Link
    requires { Joinable 254 nodes.old i node }
    ensures { Joins 254 fork nodes.old i node nodes.new result }
{
    let a = height_at(nodes, node.left);
    let b = height_at(nodes, node.right);
    let height = a.max(b) + 1;
    nodes[i as usize] = Node { height, ..node };
    Some(i)
}

// Puts a node in slot `i`, and turns a side of it up: the root of that side comes to stand over the node.
fn turn<K: Copy>(nodes: &mut [Node<K>], i: u16, node: Node<K>, side: Side) -> Link
    requires { Joinable 253 nodes.old i node }
    ensures { Joins 253 (turn side) nodes.old i node nodes.new result }
{
    let Some(j) = node.link(side) else {
        return put(nodes, i, node);
    };
    let root = nodes[j as usize];
    let far = side.other();
    let below = put(nodes, i, node.with_link(side, root.link(far)));
    put(nodes, j, root.with_link(far, below))
}

// Readies a side to come up: its inner part is turned up first if that is higher than its outer part.
fn ready<K: Copy>(nodes: &mut [Node<K>], at: Link, side: Side) -> Link
    requires { HoldsATree 251 nodes.old at }
    ensures { Turns 251 (ready side) nodes.old at nodes.new result }
{
    let Some(j) = at else {
        return at;
    };
    let root = nodes[j as usize];
    let far = side.other();
    let outer = height_at(nodes, root.link(side));
    let inner = height_at(nodes, root.link(far));
    if outer < inner {
        turn(nodes, j, root, far)
    } else {
        at
    }
}

// The side that is higher by 2, if there is one.
fn heavy(left: u8, right: u8) -> Option<Side>
    requires { (left ≤ 250) × (right ≤ 250) }
    ensures { result ≡ heavy left right }
{
    if right + 1 < left {
        Some(Side::Left)
    } else if left + 1 < right {
        Some(Side::Right)
    } else {
        None
    }
}

// Puts a node in slot `i`, in balance: a side higher by 2 is turned up.
pub(crate) fn settle<K: Copy>(nodes: &mut [Node<K>], i: u16, node: Node<K>) -> Link
    requires { Joinable 250 nodes.old i node }
    ensures { Joins 250 balance nodes.old i node nodes.new result }
{
    let left = height_at(nodes, node.left);
    let right = height_at(nodes, node.right);
    let Some(side) = heavy(left, right) else {
        return put(nodes, i, node);
    };
    let up = ready(nodes, node.link(side), side);
    turn(nodes, i, node.with_link(side, up), side)
}
