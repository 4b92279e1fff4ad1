ghost use Rattle.std.specs.Prelude.{◌≡◌, ◌≤◌, length, take, drop};
ghost use Rattle.digits.specs.Positional.{trits, all_zero};
ghost use Rattle.sealing.specs.Sealed.{packed_length, take_in_answer, trits_only};

use crate::SealedKey;
use crate::records::PACKED;
use digits::trit_at;
use keys::{Refusal, is_served};

/// How many bytes the trits of a key of this width take.
pub fn packed_length(width: u8) -> usize
    ensures { result ≡ packed_length width }
{
    (8 * width as usize).div_ceil(5)
}

/// Takes in a sealed key that was written down: its width and its packed bytes.
pub fn take_in(width: u8, packed: &[u8]) -> Result<SealedKey, Refusal>
    ensures { result ≡ take_in_answer width packed.now }
{
    if !is_served(width) || packed.len() != packed_length(width) {
        return Err(Refusal::KeyLength);
    }
    if !are_trits(packed) || !are_zeros(packed, 8 * width as usize) {
        return Err(Refusal::NotTrits);
    }
    let mut bytes = [0; PACKED];
    bytes[..packed.len()].copy_from_slice(packed);
    Ok(SealedKey { width, bytes })
}

// The largest byte that five trits make.
const MOST: u8 = 242;

// Does each byte hold five trits?
fn are_trits(packed: &[u8]) -> bool
    ensures { result ≡ trits_only packed.now }
{
    packed.iter().all(|byte| *byte <= MOST)
}

// Are the trits from a place on all zero?
fn are_zeros(packed: &[u8], from: usize) -> bool
    requires { length packed.now ≤ 52 }
    ensures { result ≡ all_zero (drop from (trits packed.now)) }
{
    (from..5 * packed.len()).all(|i| trit_at(packed, i) == 0)
}

impl SealedKey {
    /// The width of the key bytes that were sealed.
    pub fn width(&self) -> u8
        ensures { result ≡ self.now.width }
    {
        self.width
    }

    /// The packed bytes, as they are written down.
    pub fn packed(&self) -> &[u8]
        ensures { result.now ≡ take (packed_length self.now.width) self.now.bytes }
    {
        let length = packed_length(self.width).min(self.bytes.len());
        &self.bytes[..length]
    }
}
