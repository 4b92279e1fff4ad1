ghost use Rattle.std.specs.Prelude.{◌^◌, ◌<◌, refl};
ghost use Rattle.digits.specs.Orders.{number_order};
ghost use Rattle.keys.specs.Numbers.{number_key, number_read, count};
ghost use Rattle.std.proofs.Common.{rules, sym, arith};
ghost use Rattle.digits.proofs.Ordering.{digits_order_within};
ghost use Rattle.keys.specs.NumbersLemmas.{number_writes};

use crate::kinds::write_front;
use crate::{KeyKind, OrderedKey, Refusal};
use std::cmp::Ordering;

/// A number from 0 to 2^32 - 1.
#[derive(Clone, Copy, PartialEq, Eq)]
pub struct Count(pub u32);

impl OrderedKey for Count {
    ghost order = { λ a b. number_order a.0 b.0 };

    ghost lawful = { λ c. c.0 < 2 ^ 32 };

    ghost Index = { Unit {0} };

    ghost family = { λ _ c. c.0 < 2 ^ 32 };

    ghost flips = { Prim.search rules };

    ghost chains = { Prim.search rules };

    ghost same = { Prim.search rules };

    fn compare(&self, other: &Count) -> Ordering {
        self.0.cmp(&other.0)
    }

    // A number that has been read is known to fit its type.
    fn is_lawful(&self) {
        let _number = self.0;
    }
}

impl KeyKind for Count {
    ghost width = { 4 };

    ghost encode = { λ c. number_key c.0 };

    ghost decode = { number_read count };

    ghost wide = { Prim.search rules };

    ghost bytes = { Prim.search rules };

    ghost ordered = { λ v w f g served. sym (digits_order_within 256 4 v.0 w.0 (omega arith) f g) };

    ghost reads = { Prim.search rules };

    ghost writes = { λ key v bytes served e. number_writes count (λ c. c.0 < 2 ^ 32) (λ c. number_key c.0) (λ n h. (h, refl)) key v bytes e };

    ghost gathers = { Prim.search rules };

    fn width() -> u8 {
        4
    }

    fn write(&self, out: &mut [u8]) -> Result<(), Refusal> {
        write_front(&self.0.to_be_bytes(), out)
    }

    fn read(bytes: &[u8]) -> Result<Count, Refusal> {
        let key = bytes.first_chunk::<4>().ok_or(Refusal::ShortBuffer)?;
        Ok(Count(u32::from_be_bytes(*key)))
    }
}
