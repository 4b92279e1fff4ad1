//! A tree's numbers beside its node memory, and the slots that come into use and go out of it.

ghost use Rattle.std.specs.Prelude.{◌≡◌, ◌<◌, not, length, Ok, ◌==◌};
ghost use Rattle.keys.specs.Refusals.{asked};
ghost use Rattle.keys.specs.declared.refusals.Refusal.TheVariants.{NoSlots};
ghost use Rattle.books.specs.Meaning.{usable};
ghost use Rattle.tree.specs.States.{model_of, NextSpot, MadeFree, counted_state};

use crate::nodes::{Link, Node};
use crate::trees::Tree;
use keys::{OrderedKey, Refusal};

/// The root, the slot freed most recently, the lowest slot never used, how many pairs are held, and how many
/// comparisons the latest call made.
#[derive(Clone, Copy)]
pub(crate) struct State {
    pub(crate) root: Link,
    pub(crate) free: Link,
    pub(crate) fresh: u16,
    pub(crate) held: u16,
    pub(crate) comparisons: u32,
}

/// The slot for a new node, if there is one, and what is free and never used once it is taken.
#[derive(Clone, Copy)]
pub(crate) struct Spot {
    pub(crate) slot: Link,
    pub(crate) free: Link,
    pub(crate) fresh: u16,
}

impl<'a, K: OrderedKey> Tree<'a, K> {
    /// How many slots of the memory serve: all of 1 to 65,535, of any other memory none.
    pub(crate) fn served(&self) -> u16
        ensures { result ≡ usable (length self.now.nodes.now) }
    {
        u16::try_from(self.nodes.len()).unwrap_or(0)
    }

    /// Starts a call, of which no comparison is counted yet. Memory that serves as none has no slots to look at.
    pub(crate) fn start(&mut self) -> Result<(), Refusal>
        ensures nodes { self.new.nodes.now ≡ self.old.nodes.now }
        ensures state { self.new.state ≡ counted_state self.old.state 0 }
        ensures served { result ≡ asked (not (usable (length self.old.nodes.now) == 0)) NoSlots (Ok tt) }
    {
        self.state.comparisons = 0;
        if self.served() == 0 {
            return Err(Refusal::NoSlots);
        }
        Ok(())
    }

    /// The slot freed most recently, else the lowest one never used.
    pub(crate) fn next_spot(&self) -> Spot
        requires served { 0 < usable (length self.now.nodes.now) }
        ensures { NextSpot self.now.nodes.now (model_of self.now.nodes.now self.now.state) result }
    {
        match self.state.free {
            Some(i) => Spot {
                slot: self.state.free,
                free: self.nodes[i as usize].left,
                fresh: self.state.fresh,
            },
            None if (self.state.fresh as usize) < self.nodes.len() => Spot {
                slot: Some(self.state.fresh),
                free: None,
                fresh: self.state.fresh + 1,
            },
            None => Spot {
                slot: None,
                free: None,
                fresh: self.state.fresh,
            },
        }
    }
}

/// Marks a slot as free, in front of the slots freed before it.
pub(crate) fn free_slot<K: Copy>(nodes: &mut [Node<K>], slot: u16, next: Link)
    requires { slot < length nodes.old }
    ensures { MadeFree nodes.old slot next nodes.new }
{
    nodes[slot as usize] = Node {
        left: next,
        ..Node::blank(nodes[slot as usize].entry.key)
    };
}
