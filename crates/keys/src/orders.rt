ghost use Rattle.std.specs.Prelude.{◌≡◌};
ghost use Rattle.std.specs.declared.cmp.Ordering.TheVariants.{Less, Equal};
ghost use Rattle.std.specs.declared.cmp.Ordering.{Ordering as TheOrdering};
ghost use Rattle.std.specs.Ordering.{ordering_reverse};

use std::cmp::Ordering;

/// A kind of key that can be put in order. Its keys fall into families, and within a family the order is total:
/// exactly one of less, equal and greater holds, and only a key itself is equal to it.
pub trait OrderedKey: Copy {
    ghost order: { Self → Self → TheOrdering };

    // which records are keys of this kind: a machine number fits its type, which a specification has to be told
    ghost lawful: { Self → Type 0 };

    // what names a family
    ghost Index: { Type 0 };

    ghost family: { Index → Self → Type 0 };

    /// How the two keys are ordered.
    fn compare(&self, other: &Self) -> Ordering
        ensures { result ≡ order self.now other.now };

    /// Does nothing: every key that a program holds is lawful.
    fn is_lawful(&self)
        ensures { lawful self.now };

    ghost flips: { (i : Index) (a b : Self) → family i a → family i b → order a b ≡ ordering_reverse (order b a) };

    ghost chains: { (i : Index) (a b c : Self) → family i a → family i b → family i c → order a b ≡ Less → order b c ≡ Less → order a c ≡ Less };

    ghost same: { (i : Index) (a b : Self) → family i a → family i b → order a b ≡ Equal → a ≡ b };
}
