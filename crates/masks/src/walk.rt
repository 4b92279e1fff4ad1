ghost use Rattle.std.specs.Prelude.{◌≡◌, [], length};
ghost use Rattle.masks.specs.Sources.{walk_text};
ghost use Rattle.masks.specs.Walks.{step_answer, stepped};

use keys::Refusal;
use std::marker::Model;

/// A list of at most 255 bits, kept as the text that is hashed: one more bit alters two bytes.
#[derive(Drop)]
pub(crate) struct Walk {
    // the length, then the bits, the most significant place of a byte first, and zeros after them
    text: [u8; 33],
}

impl Model for Walk {
    ghost use Rattle.std.specs.Prelude.{List, Bool};
    ghost use Rattle.masks.specs.Sources.{walked_bits, IsWalkText};

    ghost Value = { List Bool };

    ghost view = { λ w. walked_bits w.text };

    ghost invariant = { λ w. IsWalkText w.text };
}

impl Walk {
    /// The empty list.
    pub(crate) fn new() -> Walk
        ensures { result ≡ [] }
    {
        Walk { text: [0; 33] }
    }

    /// The 33 bytes that are hashed.
    pub(crate) fn text(&self) -> &[u8; 33]
        ensures { result.now ≡ walk_text self.now }
    {
        &self.text
    }

    /// Appends a bit, if there is room.
    pub(crate) fn push(&mut self, bit: bool) -> Result<(), Refusal>
        ensures answer { result ≡ step_answer self.old }
        ensures list { self.new ≡ stepped self.old bit }
    {
        let len = self.text[0];
        if len == 255 {
            return Err(Refusal::FullyWalked);
        }
        // the place is 0 so far, so a sum puts the bit there
        self.text[1 + len as usize / 8] += (bit as u8) << (7 - len % 8);
        self.text[0] = len + 1;
        Ok(())
    }
}
