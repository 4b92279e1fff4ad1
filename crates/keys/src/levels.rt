ghost use Rattle.std.specs.Prelude.{◌≡◌, FitsSigned};
ghost use Rattle.std.proofs.Common.{sym, ◌∙◌, ap, rules, arith};
ghost use Rattle.std.specs.Int.{w32};
ghost use Rattle.keys.specs.Numbers.{number_key, number_read, integer_order, raised, lowered, level};
ghost use Rattle.digits.proofs.Ordering.{digits_order_within};
ghost use Rattle.keys.specs.NumbersLemmas.{raised_order, raised_lt, number_writes, raised_lowered, lowered_fits};

use crate::{Count, KeyKind, OrderedKey, Refusal};
use std::cmp::Ordering;

/// A height in millimetres, below or above zero.
#[derive(Clone, Copy, PartialEq, Eq)]
pub struct Level(pub i32);

// How far a level lies above the lowest one, -2^31: a number that rises with the level and is never negative.
fn above_lowest(millimetres: i32) -> u32
    ensures { result ≡ raised millimetres }
{
    (i64::from(millimetres) + 0x8000_0000) as u32
}

// The level that lies so far above the lowest one.
fn from_lowest(distance: u32) -> i32
    ensures { result ≡ lowered distance }
{
    (i64::from(distance) - 0x8000_0000) as i32
}

impl OrderedKey for Level {
    ghost order = { λ a b. integer_order a.0 b.0 };

    ghost lawful = { λ v. FitsSigned w32 v.0 };

    ghost Index = { Unit {0} };

    ghost family = { λ _ v. FitsSigned w32 v.0 };

    ghost flips = { Prim.search rules };

    ghost chains = { Prim.search rules };

    ghost same = { Prim.search rules };

    fn compare(&self, other: &Level) -> Ordering {
        self.0.cmp(&other.0)
    }

    // A number that has been read is known to fit its type.
    fn is_lawful(&self) {
        let _millimetres = self.0;
    }
}

// A level's key bytes are those of its distance from the lowest level as a count.
impl KeyKind for Level {
    ghost width = { 4 };

    ghost encode = { λ v. number_key (raised v.0) };

    ghost decode = { number_read (λ n. level (lowered n)) };

    ghost wide = { Prim.search rules };

    ghost bytes = { Prim.search rules };

    ghost ordered = { λ v w f g served. raised_order v.0 w.0 f g ∙ sym (digits_order_within 256 4 (raised v.0) (raised w.0) (omega arith) (raised_lt v.0 f) (raised_lt w.0 g)) };

    ghost reads = { Prim.search rules };

    ghost writes = { λ key v bytes served e. number_writes (λ n. level (lowered n)) (λ z. FitsSigned w32 z.0) (λ z. number_key (raised z.0)) (λ n h. (lowered_fits n h, ap number_key (raised_lowered n))) key v bytes e };

    ghost gathers = { Prim.search rules };

    fn width() -> u8 {
        4
    }

    fn write(&self, out: &mut [u8]) -> Result<(), Refusal> {
        Count(above_lowest(self.0)).write(out)
    }

    fn read(bytes: &[u8]) -> Result<Level, Refusal> {
        let Count(distance) = Count::read(bytes)?;
        Ok(Level(from_lowest(distance)))
    }
}
