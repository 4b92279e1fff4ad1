ghost use Rattle.std.specs.Prelude.{◌≡◌, true, position};
ghost use Rattle.std.specs.Result.{result_map_both};
ghost use Rattle.std.proofs.Common.{sym, ap, subst, rules};
ghost use Rattle.digits.specs.Orders.{row_order};
ghost use Rattle.digits.specs.Positional.{all_zero};
ghost use Rattle.keys.specs.Kinds.{Bytes};
ghost use Rattle.keys.specs.Names.{is_name, is_zero, named, unfilled, fill, where_true};
ghost use Rattle.std.proofs.lemmas.Cmp.{nat_list_cmp_total};
ghost use Rattle.std.specs.FinMap.{nat_cmp-IsAntisymmetric, slice_cmp-IsAntisymmetric};
ghost use Rattle.keys.specs.NameKeys.{name_length, same_name, where_true_some, where_true_parts};

use crate::kinds::write_front;
use crate::{KeyKind, OrderedKey, Refusal, are_bytes};
use std::cmp::Ordering;

/// A name of up to 16 bytes, none of them zero, filled up with zeros.
#[derive(Clone, Copy, PartialEq, Eq)]
pub struct Name {
    bytes: [u8; 16],
    ghost ok: { is_name bytes ≡ true },
}

impl Name {
    /// The name of these bytes.
    pub fn new(text: &[u8]) -> Result<Name, Refusal>
        ensures { result_map_both (λ n. n.bytes) (λ refusal. refusal) result ≡ named text.now }
    {
        if text.len() > 16 || text.contains(&0) {
            return Err(Refusal::NoValue);
        }
        let mut bytes = [0; 16];
        bytes[..text.len()].copy_from_slice(text);
        Ok(Name { bytes })
    }

    /// The bytes without the fill.
    pub fn text(&self) -> &[u8]
        ensures { result.now ≡ unfilled self.now.bytes }
    {
        split_fill(&self.bytes).0
    }
}

fn first_zero(bytes: &[u8]) -> Option<usize>
    ensures { result ≡ position is_zero bytes.now }
{
    bytes.iter().position(|b| *b == 0)
}

fn are_zeros(bytes: &[u8]) -> bool
    ensures { result ≡ all_zero bytes.now }
{
    bytes.iter().all(|b| *b == 0)
}

// The bytes before the first zero, and those from there on.
fn split_fill(bytes: &[u8]) -> (&[u8], &[u8])
    ensures text { result.0.now ≡ unfilled bytes.now }
    ensures fill { result.1.now ≡ fill bytes.now }
{
    let end = first_zero(bytes).unwrap_or(bytes.len());
    bytes.split_at(end)
}

impl OrderedKey for Name {
    ghost order = { λ m n. row_order m.bytes n.bytes };

    ghost lawful = { λ n. Bytes n.bytes };

    ghost Index = { Unit {0} };

    ghost family = { λ _ n. Bytes n.bytes };

    ghost flips = { λ i a b f f'. nat_list_cmp_total.antisymm a.bytes b.bytes };

    ghost chains = { λ i a b c f f' f'' p q. nat_list_cmp_total.trans a.bytes b.bytes c.bytes p q };

    ghost same = { λ i a b f f' e. same_name (λ bytes ok. record { bytes = bytes; ok = ok }) a.bytes b.bytes a.ok b.ok (slice_cmp-IsAntisymmetric nat_cmp-IsAntisymmetric a.bytes b.bytes e) };

    fn compare(&self, other: &Name) -> Ordering {
        self.bytes.cmp(&other.bytes)
    }

    fn is_lawful(&self) {
        are_bytes(&self.bytes);
    }
}

impl KeyKind for Name {
    ghost width = { 16 };

    ghost encode = { λ n. n.bytes };

    ghost decode = { λ key. where_true (is_name key) (λ e. record { bytes = key; ok = e }) };

    ghost wide = { λ v h s. name_length v.bytes v.ok };

    ghost bytes = { λ v h s. h };

    ghost ordered = { Prim.search rules };

    ghost reads = { λ v h s. where_true_some (is_name v.bytes) (λ e. record { bytes = v.bytes; ok = e }) v.ok };

    ghost writes = { λ key v small s e.
        let p = where_true_parts (is_name key) (λ ok. record { bytes = key; ok = ok }) v e in
        let same = ap (λ n. n.bytes) p.1 in
        (subst Bytes same small, sym same) };

    ghost gathers = { Prim.search rules };

    fn width() -> u8 {
        16
    }

    fn write(&self, out: &mut [u8]) -> Result<(), Refusal> {
        write_front(&self.bytes, out)
    }

    fn read(bytes: &[u8]) -> Result<Name, Refusal> {
        let bytes = *bytes.first_chunk().ok_or(Refusal::ShortBuffer)?;
        if are_zeros(split_fill(&bytes).1) {
            Ok(Name { bytes })
        } else {
            Err(Refusal::NoValue)
        }
    }
}
