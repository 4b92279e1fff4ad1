ghost use Rattle.std.specs.Prelude.{◌≡◌, Some, None, Ok, Err};
ghost use Rattle.books.specs.Plain.{entry};
ghost use Rattle.keys.specs.declared.refusals.Refusal.TheVariants.{KeyHeld, KeyNotHeld};

use crate::nodes::Node;
use crate::shapes::Shape;
use crate::trees::Tree;
use books::{Book, Entry};
use keys::{Count, Refusal};

/// What the calls of `tree_of_four` answered.
#[derive(Drop)]
pub struct TreeAnswers {
    pub added: Result<(), Refusal>,
    pub again: Result<(), Refusal>,
    pub root: Option<u16>,
    pub comparisons: u32,
    pub taken: Result<u32, Refusal>,
    pub missing: Result<u32, Refusal>,
    pub found: Result<Option<u32>, Refusal>,
    pub from: Result<Option<Entry<Count>>, Refusal>,
    pub after: Result<Option<Entry<Count>>, Refusal>,
    pub moved: Option<Shape>,
    pub emptied: Option<Shape>,
    pub first_free: Option<u16>,
    pub free_after: Option<u16>,
    pub fresh: u16,
    pub left: u32,
    pub room: u32,
}

/// A few calls on a tree of four slots; what they answer, and which slots are used, is known from the contracts alone.
/// The third key turns the second up, so that slot 1 is the root's. When the second key goes, the pair of the third
/// moves into slot 1, and slot 2 is free.
pub fn tree_of_four() -> TreeAnswers
    ensures added { result.added ≡ Ok tt }
    ensures again { result.again ≡ Err KeyHeld }
    ensures root { result.root ≡ Some 1 }
    ensures comparisons { result.comparisons ≡ 2 }
    ensures taken { result.taken ≡ Ok 20 }
    ensures missing { result.missing ≡ Err KeyNotHeld }
    ensures found { result.found ≡ Ok (Some 30) }
    ensures from { result.from ≡ Ok (Some (entry (record { 0 = 3 }) 30)) }
    ensures after { result.after ≡ Ok None }
    ensures moved { result.moved ≡ Some (record { left = Some 0; right = None; height = 2; ticket = 30 }) }
    ensures emptied { result.emptied ≡ None }
    ensures free { result.first_free ≡ Some 2 }
    ensures next { result.free_after ≡ None }
    ensures fresh { result.fresh ≡ 3 }
    ensures left { result.left ≡ 2 }
    ensures room { result.room ≡ 4 }
{
    let blank = Node::blank(Count(0));
    let mut memory = [blank; 4];
    let mut tree = Tree::new(&mut memory);
    let added = tree.add(&Count(1), 10);
    let _ = tree.add(&Count(2), 20);
    let _ = tree.add(&Count(3), 30);
    let again = tree.add(&Count(3), 40);
    let root = tree.root();
    let comparisons = tree.comparisons();
    let taken = tree.take(&Count(2));
    let missing = tree.take(&Count(2));
    let found = tree.find(&Count(3));
    let from = tree.seek_from(&Count(2));
    let after = tree.seek_after(&Count(3));
    TreeAnswers {
        added,
        again,
        root,
        comparisons,
        taken,
        missing,
        found,
        from,
        after,
        moved: tree.shape(1),
        emptied: tree.shape(2),
        first_free: tree.first_free(),
        free_after: tree.free_after(2),
        fresh: tree.fresh(),
        left: tree.count(),
        room: tree.capacity(),
    }
}
