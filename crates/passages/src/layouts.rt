//! How a tree lies in its slots, as the program shows it.

use keys::OrderedKey;
use std::{fmt, iter};
use tree::{Shape, Tree};

/// A tree by its slots: the root, the latest comparisons, the free slots in order of use, the lowest slot never used,
/// and then a line for each slot that holds a pair.
#[derive(Clone, Copy)]
pub struct Layout<'t, 'a, K>(pub &'t Tree<'a, K>);

impl<'t, 'a, K: OrderedKey> fmt::Display for Layout<'t, 'a, K> {
    fn fmt<W: fmt::Write>(&self, f: &mut fmt::Formatter<W>) -> fmt::Result {
        let tree = self.0;
        write!(
            f,
            "root {}, comparisons {}, free",
            Slot(tree.root()),
            tree.comparisons()
        )?;
        write_free(f, tree)?;
        write!(f, ", fresh {}", tree.fresh())?;
        for slot in 0..tree.fresh() {
            if let Some(shape) = tree.shape(slot) {
                write_shape(f, slot, shape)?;
            }
        }
        Ok(())
    }
}

// There are no more free slots than slots that were used.
fn write_free<K: OrderedKey, W: fmt::Write>(
    f: &mut fmt::Formatter<W>,
    tree: &Tree<K>,
) -> fmt::Result {
    if tree.first_free().is_none() {
        return f.write_str(" none");
    }
    let free = iter::successors(tree.first_free(), |slot| tree.free_after(*slot));
    for slot in free.take(usize::from(tree.fresh())) {
        write!(f, " {slot}")?;
    }
    Ok(())
}

fn write_shape<W: fmt::Write>(f: &mut fmt::Formatter<W>, slot: u16, shape: Shape) -> fmt::Result {
    write!(
        f,
        "\n  slot {slot}: left {}, right {}, height {}, ticket {}",
        Slot(shape.left),
        Slot(shape.right),
        shape.height,
        shape.ticket
    )
}

// A slot's number, or that there is none.
#[derive(Clone, Copy)]
struct Slot(Option<u16>);

impl fmt::Display for Slot {
    fn fmt<W: fmt::Write>(&self, f: &mut fmt::Formatter<W>) -> fmt::Result {
        match self.0 {
            Some(slot) => write!(f, "{slot}"),
            None => f.write_str("none"),
        }
    }
}
