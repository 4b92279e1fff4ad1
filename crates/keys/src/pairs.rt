ghost use Rattle.std.specs.Prelude.{◌≡◌, ◌<◌, ◌++◌, take, drop, Some};
ghost use Rattle.std.proofs.Common.{sym, ◌∙◌, ap, rules, arith};
ghost use Rattle.std.specs.Ordering.{ordering_then};
ghost use Rattle.keys.specs.Kinds.{write_answer};
ghost use Rattle.keys.specs.Pairs.{pair_width, pair_decoded};
ghost use Rattle.std.proofs.lemmas.List.{length-append, take_at, drop_at, take-append-drop};
ghost use Rattle.keys.specs.PairKeys.{pair_parts, both_parts};
ghost use Rattle.digits.proofs.Every.{all_append, all_take, all_drop};
ghost use Rattle.digits.proofs.Ordering.{row_order_append};

use crate::{KeyKind, OrderedKey, Refusal, is_served};
use std::cmp::Ordering;

/// Two values as one: the first decides the order, and the second where the firsts are equal.
#[derive(Clone, Copy, PartialEq, Eq)]
pub struct Pair<A, B> {
    pub first: A,
    pub second: B,
}

// Asks the two questions that every write and read begins with.
fn ask_width(width: u8, there: usize) -> Result<(), Refusal>
    ensures { result ≡ write_answer width there }
{
    if !is_served(width) {
        Err(Refusal::KindWidth)
    } else if there < width as usize {
        Err(Refusal::ShortBuffer)
    } else {
        Ok(())
    }
}

impl<A: OrderedKey, B: OrderedKey> OrderedKey for Pair<A, B> {
    ghost order = { λ p q. ordering_then (A.OrderedKey.order p.first q.first) (B.OrderedKey.order p.second q.second) };

    ghost lawful = { λ p. A.OrderedKey.lawful p.first × B.OrderedKey.lawful p.second };

    ghost Index = { A.OrderedKey.Index × B.OrderedKey.Index };

    ghost family = { λ i p. A.OrderedKey.family i.0 p.first × B.OrderedKey.family i.1 p.second };

    ghost flips = { Prim.search rules };

    ghost chains = { Prim.search rules };

    ghost same = { Prim.search rules };

    fn compare(&self, other: &Pair<A, B>) -> Ordering {
        self.first
            .compare(&other.first)
            .then_with(|| self.second.compare(&other.second))
    }

    fn is_lawful(&self) {
        self.first.is_lawful();
        self.second.is_lawful();
    }
}

impl<A: KeyKind, B: KeyKind> KeyKind for Pair<A, B> {
    ghost width = { pair_width A.KeyKind.width B.KeyKind.width };

    ghost encode = { λ p. A.KeyKind.encode p.first ++ B.KeyKind.encode p.second };

    ghost decode = { λ key. pair_decoded (λ a b. record { first = a; second = b }) A.KeyKind.width A.KeyKind.decode B.KeyKind.decode key };

    ghost wide = { λ v h s.
        let p = pair_parts A.KeyKind.width B.KeyKind.width s in
        let a = A.KeyKind.wide v.first h.0 p.0 in
        let b = B.KeyKind.wide v.second h.1 p.1 in
        let l = length-append (A.KeyKind.encode v.first) (B.KeyKind.encode v.second) in
        omega (arith, p.2) };

    ghost bytes = { λ v h s.
        let p = pair_parts A.KeyKind.width B.KeyKind.width s in
        all_append (λ b. b < 256) (A.KeyKind.encode v.first) (B.KeyKind.encode v.second)
        (A.KeyKind.bytes v.first h.0 p.0)
        (B.KeyKind.bytes v.second h.1 p.1) };

    ghost ordered = { λ v w hv hw s.
        let p = pair_parts A.KeyKind.width B.KeyKind.width s in
        let a = A.KeyKind.ordered v.first w.first hv.0 hw.0 p.0 in
        let b = B.KeyKind.ordered v.second w.second hv.1 hw.1 p.1 in
        let alike = A.KeyKind.wide v.first hv.0 p.0 ∙ sym (A.KeyKind.wide w.first hw.0 p.0) in
        let e = row_order_append (A.KeyKind.encode v.first) (A.KeyKind.encode w.first) (B.KeyKind.encode v.second) (B.KeyKind.encode w.second) alike in
        cc };

    ghost reads = { λ v h s.
        let p = pair_parts A.KeyKind.width B.KeyKind.width s in
        let long = A.KeyKind.wide v.first h.0 p.0 in
        let front = take_at (A.KeyKind.encode v.first) (B.KeyKind.encode v.second) A.KeyKind.width long in
        let back = drop_at (A.KeyKind.encode v.first) (B.KeyKind.encode v.second) A.KeyKind.width long in
        let a = ap A.KeyKind.decode front ∙ A.KeyKind.reads v.first h.0 p.0 in
        let b = ap B.KeyKind.decode back ∙ B.KeyKind.reads v.second h.1 p.1 in
        rw (a, b) };

    ghost writes = { λ key v small s e.
        let wa = A.KeyKind.width in
        let p = pair_parts wa B.KeyKind.width s in
        let q = both_parts (λ a b. record { first = a; second = b }) (A.KeyKind.decode (take wa key)) (B.KeyKind.decode (drop wa key)) v e in
        let a = A.KeyKind.writes (take wa key) v.first (all_take (λ b. b < 256) wa key small) p.0 (q.2 ∙ ap Some (ap (λ t. t.first) q.4)) in
        let b = B.KeyKind.writes (drop wa key) v.second (all_drop (λ b. b < 256) wa key small) p.1 (q.3 ∙ ap Some (ap (λ t. t.second) q.4)) in
        ((a.0, b.0), rw (a.1, b.1) (take-append-drop wa key)) };

    ghost gathers = { λ s.
        let p = pair_parts A.KeyKind.width B.KeyKind.width s in
        let a = A.KeyKind.gathers p.0 in
        let b = B.KeyKind.gathers p.1 in
        ((a.0, b.0), λ v h. (a.1 v.first h.0, b.1 v.second h.1)) };

    fn width() -> u8 {
        let first = A::width();
        let second = B::width();
        if is_served(first) && is_served(second) && first + second <= 32 {
            first + second
        } else {
            // a width that no book or cipher serves
            33
        }
    }

    fn write(&self, out: &mut [u8]) -> Result<(), Refusal> {
        // the second part stands behind the first, which fills its width since it is lawful
        self.first.is_lawful();
        ask_width(Self::width(), out.len())?;
        self.first.write(out)?;
        let split = A::width() as usize;
        self.second.write(&mut out[split..])
    }

    fn read(bytes: &[u8]) -> Result<Pair<A, B>, Refusal> {
        ask_width(Self::width(), bytes.len())?;
        let first = A::read(bytes)?;
        let split = A::width() as usize;
        let second = B::read(&bytes[split..])?;
        Ok(Pair { first, second })
    }
}
