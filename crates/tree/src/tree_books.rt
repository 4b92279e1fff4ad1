//! The tree as a book.

ghost use Rattle.std.specs.Prelude.{◌≡◌, map, length};
ghost use Rattle.books.specs.Calls.{Sought};
ghost use Rattle.books.specs.Meaning.{known, usable};
ghost use Rattle.avl.specs.Avl.{entries};
ghost use Rattle.avl.specs.Model.{TreeModel, Sound, tree_step, new_tree};
ghost use Rattle.tree.specs.Descents.{FindsBelow, SeeksBelow};
ghost use Rattle.tree.specs.States.{model_of, seek_call};

use crate::changes::{insert, remove};
use crate::counted::Counted;
use crate::descents::{find_below, seek_below};
use crate::nodes::Node;
use crate::states::{State, free_slot};
use crate::trees::Tree;
use books::{Book, Entry};
use keys::{OrderedKey, Refusal};

impl<'a, K: OrderedKey> Tree<'a, K> {
    /// A new tree, with no pairs, in any memory.
    pub fn new(nodes: &'a mut [Node<K>]) -> Tree<'a, K>
        ensures { model_of result.nodes.now result.state ≡ new_tree (usable (length nodes.old)) }
    {
        let state = State {
            root: None,
            free: None,
            fresh: 0,
            held: 0,
            comparisons: 0,
        };
        Tree { nodes, state }
    }

    // Finds the ticket of a key. The nodes are lent to look through out of `&self`, since `&mut self` does not lend them
    // on as shared.
    fn found(&self, key: &K) -> Counted<Option<u32>>
        ensures { FindsBelow K.OrderedKey.order self.now.nodes.now self.now.state.root key.now result }
    {
        find_below(self.nodes, self.state.root, key)
    }

    // The pair that a seek finds.
    fn sought(&self, key: &K, after: bool) -> Counted<Option<Entry<K>>>
        ensures { SeeksBelow after K.OrderedKey.order self.now.nodes.now self.now.state.root key.now result }
    {
        seek_below(self.nodes, self.state.root, key, after)
    }

    // Seeks from a key, or with `after` past it, and counts the comparisons.
    fn seek(&mut self, key: &K, after: bool) -> Result<Option<Entry<K>>, Refusal>
        ensures answer { Sought result ≡ (tree_step K.OrderedKey.order (model_of self.old.nodes.now self.old.state) (seek_call after key.now)).0 }
        ensures left { model_of self.new.nodes.now self.new.state ≡ (tree_step K.OrderedKey.order (model_of self.old.nodes.now self.old.state) (seek_call after key.now)).1 }
    {
        self.start()?;
        let seeking = self.sought(key, after);
        self.state.comparisons = seeking.comparisons;
        Ok(seeking.answer)
    }
}

impl<'a, K: OrderedKey> Book<K> for Tree<'a, K> {
    ghost Model = { TreeModel K };

    ghost model = { λ t. model_of t.nodes.now t.state };

    ghost sound = { Sound };

    ghost pairs = { λ m. map known (entries m.tree) };

    ghost room = { λ m. m.room };

    ghost step = { tree_step K.OrderedKey.order };

    fn rule(&self) {}

    fn add(&mut self, key: &K, ticket: u32) -> Result<(), Refusal> {
        key.is_lawful();
        self.start()?;
        let spot = self.next_spot();
        let entry = Entry { key: *key, ticket };
        let grown = insert(self.nodes, self.state.root, &entry, spot.slot);
        self.state.comparisons = grown.comparisons;
        let root = grown.answer?;
        self.state = State {
            root,
            free: spot.free,
            fresh: spot.fresh,
            held: self.state.held + 1,
            ..self.state
        };
        Ok(())
    }

    fn take(&mut self, key: &K) -> Result<u32, Refusal> {
        key.is_lawful();
        self.start()?;
        // one loan for both steps, since between them the tree is not sound
        let nodes = &mut *self.nodes;
        let shrunk = remove(nodes, self.state.root, key);
        self.state.comparisons = shrunk.comparisons;
        let Some(cut) = shrunk.answer else {
            return Err(Refusal::KeyNotHeld);
        };
        free_slot(nodes, cut.slot, self.state.free);
        self.state = State {
            root: cut.top,
            free: Some(cut.slot),
            held: self.state.held - 1,
            ..self.state
        };
        Ok(cut.out)
    }

    fn find(&mut self, key: &K) -> Result<Option<u32>, Refusal> {
        key.is_lawful();
        self.start()?;
        let finding = self.found(key);
        self.state.comparisons = finding.comparisons;
        Ok(finding.answer)
    }

    fn seek_from(&mut self, key: &K) -> Result<Option<Entry<K>>, Refusal> {
        key.is_lawful();
        self.seek(key, false)
    }

    fn seek_after(&mut self, key: &K) -> Result<Option<Entry<K>>, Refusal> {
        key.is_lawful();
        self.seek(key, true)
    }

    fn count(&self) -> u32 {
        u32::from(self.state.held)
    }

    fn capacity(&self) -> u32 {
        u32::from(self.served())
    }
}
