ghost use Rattle.std.specs.Prelude.{Some};
ghost use Rattle.sealing.specs.Compared.{comparison_text};

use std::cmp::Ordering;
use std::fmt;

// How many bytes the trits of the widest key take: 256 trits, five to a byte.
pub(crate) const PACKED: usize = 52;

/// The trits of a value's key bytes, each bit masked, five trits to a byte. Only sealing and taking in make one;
/// the bytes behind the packed ones are zero. A key is a plain value of fixed size, so that books can keep it in lent memory.
#[derive(Clone, Copy)]
pub struct SealedKey {
    pub(crate) width: u8,
    pub(crate) bytes: [u8; PACKED],
}

/// How two sealed keys compare, and the place of the first different trit, from 1; 0 where no trit decides.
#[derive(Clone, Copy, PartialEq, Eq, Debug)]
pub struct Comparison {
    pub order: Ordering,
    pub place: u16,
}

impl fmt::Display for Comparison {
    ghost output = { λ comparison. Some (comparison_text comparison) };

    fn fmt<W: fmt::Write>(&self, f: &mut fmt::Formatter<W>) -> fmt::Result {
        let order = match self.order {
            Ordering::Less => "less",
            Ordering::Equal => "equal",
            Ordering::Greater => "greater",
        };
        let place = self.place;
        write!(f, "{order} at {place}")
    }
}
