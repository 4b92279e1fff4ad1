ghost use Rattle.std.specs.Prelude.{◌≡◌, ℕ, ◌<◌, ◌≤◌, Bool, List, [], length};
ghost use Rattle.masks.specs.Walks.{step_answer, stepped};

use keys::Refusal;

/// A function from lists of 0 to 255 bits to the masks 0, 1 and 2, and the list walked so far. No call alters the function.
pub trait MaskSource {
    ghost masks: { Self → List Bool → ℕ };

    ghost walked: { Self → List Bool };

    /// Empties the list.
    fn restart(&mut self)
        ensures same { masks self.new ≡ masks self.old }
        ensures list { walked self.new ≡ [] };

    /// The mask of the list.
    fn mask(&self) -> u8
        ensures { result ≡ masks self.now (walked self.now) };

    /// Appends a bit to the list.
    fn step(&mut self, bit: bool) -> Result<(), Refusal>
        ensures answer { result ≡ step_answer (walked self.old) }
        ensures same { masks self.new ≡ masks self.old }
        ensures list { walked self.new ≡ stepped (walked self.old) bit };

    ghost small: { (s : Self) (list : List Bool) → masks s list < 3 };

    ghost short: { (s : Self) → length (walked s) ≤ 255 };
}
