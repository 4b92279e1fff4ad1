//! The way down from the root, with one comparison at each node.

ghost use Rattle.tree.specs.Descents.{FindsBelow, SeeksBelow};
ghost use Rattle.tree.specs.Standing.{HoldsATree};

use crate::counted::Counted;
use crate::nodes::{Link, Node};
use books::Entry;
use keys::OrderedKey;
use std::cmp::Ordering;

/// Goes down until the key is met or a side is absent.
pub(crate) fn find_below<K: OrderedKey>(
    nodes: &[Node<K>],
    root: Link,
    key: &K,
) -> Counted<Option<u32>>
    requires { HoldsATree 250 nodes.now root }
    ensures { FindsBelow K.OrderedKey.order nodes.now root key.now result }
{
    let mut at = root;
    let mut comparisons = 0;
    while let Some(i) = at {
        let n = &nodes[i as usize];
        comparisons += 1;
        match key.compare(&n.entry.key) {
            Ordering::Less => at = n.left,
            Ordering::Equal => {
                return Counted {
                    answer: Some(n.entry.ticket),
                    comparisons,
                };
            }
            Ordering::Greater => at = n.right,
        }
    }
    Counted {
        answer: None,
        comparisons,
    }
}

/// Goes down and keeps the latest pair above the key. At equality it is done, or with `after` goes right.
pub(crate) fn seek_below<K: OrderedKey>(
    nodes: &[Node<K>],
    root: Link,
    key: &K,
    after: bool,
) -> Counted<Option<Entry<K>>>
    requires { HoldsATree 250 nodes.now root }
    ensures { SeeksBelow after K.OrderedKey.order nodes.now root key.now result }
{
    let mut at = root;
    let mut above = None;
    let mut compared = 0;
    while let Some(i) = at {
        let n = &nodes[i as usize];
        compared += 1;
        match key.compare(&n.entry.key) {
            Ordering::Less => {
                above = Some(n.entry);
                at = n.left;
            }
            Ordering::Equal => {
                if !after {
                    return Counted {
                        answer: Some(n.entry),
                        comparisons: compared,
                    };
                }
                at = n.right;
            }
            Ordering::Greater => at = n.right,
        }
    }
    Counted {
        answer: above,
        comparisons: compared,
    }
}
