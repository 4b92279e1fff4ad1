ghost use Rattle.std.specs.Prelude.{◌≡◌, ◌≤◌, [], ◌++◌, length};
ghost use Rattle.masks.specs.Sources.{child_node, node_at, tree_masks};
ghost use Rattle.masks.specs.SourcesLemmas.{tree_masks_small};

use crate::source::MaskSource;
use crate::walk::Walk;
use keys::Refusal;

/// The lists are the paths of a binary tree of hash keys with the secret at its root. The mask of a list is a hash under
/// the key at its end. There is no Debug: a secret is never printed.
#[derive(Drop)]
pub struct TreeSource {
    secret: [u8; 16],
    // the key that the walk has led to
    node: [u8; 16],
    walk: Walk,
    ghost reached: { node ≡ node_at secret walk },
    ghost short: { length walk ≤ 255 },
}

impl TreeSource {
    /// The source of a secret, with an empty list.
    pub fn new(secret: [u8; 16]) -> TreeSource
        ensures masks { tree_masks result.secret ≡ tree_masks secret }
        ensures list { result.walk ≡ [] }
    {
        TreeSource {
            secret,
            node: secret,
            walk: Walk::new(),
        }
    }
}

impl MaskSource for TreeSource {
    ghost masks = { λ s. tree_masks s.secret };

    ghost walked = { λ s. s.walk };

    ghost small = { λ s. tree_masks_small s.secret };

    ghost short = { λ s. s.short };

    fn restart(&mut self) {
        self.node = self.secret;
        self.walk = Walk::new();
    }

    fn mask(&self) -> u8 {
        (siphash::hash(&self.node, &[4]) % 3) as u8
    }

    fn step(&mut self, bit: bool) -> Result<(), Refusal> {
        self.walk.push(bit)?;
        self.node = child(&self.node, bit);
        Ok(())
    }
}

// The key one bit further down. The messages 0 to 3 are for the keys below a node and 4 is for its mask, so that no two
// uses of a node hash the same message.
fn child(node: &[u8; 16], bit: bool) -> [u8; 16]
    ensures { result ≡ child_node node.now bit }
{
    let even = 2 * bit as u8;
    let first = siphash::hash_bytes(node, &[even]);
    let second = siphash::hash_bytes(node, &[even + 1]);
    joined(first, second)
}

fn joined(first: [u8; 8], second: [u8; 8]) -> [u8; 16]
    ensures { result ≡ first ++ second }
{
    let mut whole = [0; 16];
    whole[..8].copy_from_slice(&first);
    whole[8..].copy_from_slice(&second);
    whole
}
