//! Positional notation: bytes as rows of bits and of trits.
#![tactic(auto)]

ghost use Rattle.std.specs.Prelude.{◌≡◌, false, slice_index, slice_index_or};
ghost use Rattle.digits.specs.Positional.{bits, trits};

/// What each of five trits weighs in its byte, the first first.
pub const TRIT_WEIGHTS: [u8; 5] = [81, 27, 9, 3, 1];

/// Bit `i` of the bytes, from 0, the most significant bit of the first byte first; past the end it is false.
pub fn bit_at(bytes: &[u8], i: usize) -> bool
    ensures { result ≡ slice_index_or (bits bytes.now) i false }
{
    match bytes.get(i / 8) {
        Some(byte) => (*byte >> (7 - i % 8)) % 2 == 1,
        None => false,
    }
}

/// Trit `i` of the bytes, from 0, five to a byte; past the end it is 0.
pub fn trit_at(bytes: &[u8], i: usize) -> u8
    ensures { result ≡ slice_index (trits bytes.now) i }
{
    match bytes.get(i / 5) {
        Some(byte) => *byte / TRIT_WEIGHTS[i % 5] % 3,
        None => 0,
    }
}
