ghost use Rattle.std.specs.Prelude.{◌≡◌, ℕ, ◌+◌, ◌*◌, ◌%◌, ◌<◌, Bool, List, if◌then◌else◌, nat_eq};
ghost use Rattle.std.specs.declared.cmp.Ordering.TheVariants.{Less, Greater};
ghost use Rattle.digits.specs.Positional.{trits};
ghost use Rattle.sealing.specs.Compared.{compared, trits_compared, FirstDifference};
ghost use Rattle.sealing.specs.Promises.{ComparesAsSealed};
ghost use Rattle.sealing.specs.Sealed.{FitsRecord, SealedUnder};
ghost use Rattle.sealing.specs.SealedOrder.{sealed_flips, sealed_chains, sealed_same};

use crate::records::PACKED;
use crate::{Comparison, SealedKey};
use digits::trit_at;
use keys::{OrderedKey, are_bytes};
use std::cmp::Ordering;

/// Compares two sealed keys by width, and then by trits. It needs no secret.
pub fn compare(a: &SealedKey, b: &SealedKey) -> Comparison
    ensures answer { result ≡ compared a.now b.now }
    ensures as_the_values { ComparesAsSealed a.now b.now result }
{
    match a.width.cmp(&b.width) {
        Ordering::Equal => compare_trits(&a.bytes, &b.bytes),
        order => Comparison { order, place: 0 },
    }
}

// By the first different trit.
fn compare_trits(a: &[u8; PACKED], b: &[u8; PACKED]) -> Comparison
    ensures { result ≡ trits_compared 1 (trits a.now) (trits b.now) }
{
    match different_trit(a, b) {
        Some(place) => Comparison {
            order: order_of_trits(trit_at(a, place), trit_at(b, place)),
            place: place as u16 + 1,
        },
        None => Comparison {
            order: Ordering::Equal,
            place: 0,
        },
    }
}

// The first place of a different trit, from 0.
fn different_trit(a: &[u8; PACKED], b: &[u8; PACKED]) -> Option<usize>
    ensures { FirstDifference (trits a.now) (trits b.now) 0 260 result }
{
    (0..PACKED).find_map(|i| different_trit_of_byte(a, b, i))
}

// The same within byte `i`. Equal bytes, which have equal trits, are passed over whole.
fn different_trit_of_byte(a: &[u8; PACKED], b: &[u8; PACKED], i: usize) -> Option<usize>
    requires { i < 52 }
    ensures { FirstDifference (trits a.now) (trits b.now) (5 * i) (5 * i + 5) result }
{
    if a[i] == b[i] {
        return None;
    }
    (5 * i..5 * i + 5).find(|place| trit_at(a, *place) != trit_at(b, *place))
}

// Which of two different trits is the lesser: the one that the other follows, modulo 3.
fn order_of_trits(x: u8, y: u8) -> Ordering
    requires { x < 3 }
    ensures { result ≡ (if nat_eq y ((x + 1) % 3) then Less else Greater) }
{
    if y == (x + 1) % 3 {
        Ordering::Less
    } else {
        Ordering::Greater
    }
}

impl OrderedKey for SealedKey {
    ghost order = { λ a b. (compared a b).order };

    ghost lawful = { FitsRecord };

    ghost Index = { (List Bool → ℕ) };

    ghost family = { SealedUnder };

    ghost flips = { λ f a b p q. sealed_flips f a b p q };

    ghost chains = { λ f a b c p q r. sealed_chains f a b c p q r };

    ghost same = { λ f a b p q. sealed_same f a b p q };

    fn compare(&self, other: &SealedKey) -> Ordering {
        compare(self, other).order
    }

    fn is_lawful(&self) {
        let _width = self.width;
        are_bytes(&self.bytes);
    }
}
