ghost use Rattle.std.specs.Prelude.{◌≡◌, ◌≤◌, [], length};
ghost use Rattle.masks.specs.Sources.{hash_masks};
ghost use Rattle.masks.specs.SourcesLemmas.{hash_masks_small};

use crate::source::MaskSource;
use crate::walk::Walk;
use keys::Refusal;

/// The mask of a list is the hash of its text under the secret. There is no Debug: a secret is never printed.
#[derive(Drop)]
pub struct HashSource {
    secret: [u8; 16],
    walk: Walk,
    ghost short: { length walk ≤ 255 },
}

impl HashSource {
    /// The source of a secret, with an empty list.
    pub fn new(secret: [u8; 16]) -> HashSource
        ensures masks { hash_masks result.secret ≡ hash_masks secret }
        ensures list { result.walk ≡ [] }
    {
        HashSource {
            secret,
            walk: Walk::new(),
        }
    }
}

impl MaskSource for HashSource {
    ghost masks = { λ s. hash_masks s.secret };

    ghost walked = { λ s. s.walk };

    ghost small = { λ s. hash_masks_small s.secret };

    ghost short = { λ s. s.short };

    fn restart(&mut self) {
        self.walk = Walk::new();
    }

    fn mask(&self) -> u8 {
        (siphash::hash(&self.secret, self.walk.text()) % 3) as u8
    }

    fn step(&mut self, bit: bool) -> Result<(), Refusal> {
        self.walk.push(bit)
    }
}
