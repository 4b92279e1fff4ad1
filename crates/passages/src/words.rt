//! The words of a line, and the numbers and bytes that words spell.

ghost use Rattle.std.specs.Prelude.{◌≡◌, ◌⊎◌, Some, None, IfOk, IfErr};
ghost use Rattle.passages.specs.Numerals.{understood, decimal_read, below, signed_read, hex_read, ReadsUnlessPlus};

use crate::troubles::Trouble;
use std::alloc::{AllocError, Global};
use std::num::ParseIntError;
use std::str;
use std::str::FromStr;

/// The words of a line, which blanks part. A carriage return at the end is no part of the line.
pub fn words_of(heap: Global, line: &[u8]) -> Result<Vec<&[u8]>, AllocError> {
    line.strip_suffix(b"\r")
        .unwrap_or(line)
        .split(|byte| *byte == b' ' || *byte == b'\t')
        .filter(|word| !word.is_empty())
        .collect(heap)
}

/// The number that decimal digits write, where it is below 2^32.
pub fn decimal(word: &[u8]) -> Result<u32, Trouble>
    ensures { result ≡ understood (decimal_read word.now) }
{
    number(word)
}

/// The number below 256 that decimal digits write.
pub fn decimal_byte(word: &[u8]) -> Result<u8, Trouble>
    ensures { result ≡ understood (below 256 (decimal_read word.now)) }
{
    number(word)
}

/// The number that decimal digits write, with a minus sign before them or not.
pub fn signed_decimal(word: &[u8]) -> Result<i32, Trouble>
    ensures { result ≡ understood (signed_read word.now) }
{
    number(word)
}

/// The bytes that a word spells, two hex digits each.
pub fn hex_bytes(heap: Global, word: &[u8]) -> Result<Vec<u8>, Trouble>
    ensures read { IfOk result (λ bytes. hex_read word.now ≡ Some bytes.items) }
    ensures not_read { IfErr result (λ trouble. (trouble ≡ Trouble.OutOfMemory)
        ⊎ ((trouble ≡ Trouble.NotUnderstood) × (hex_read word.now ≡ None))) }
{
    Ok(hex::decode(heap, word)?)
}

// The number that the library reads, but with no plus sign before it.
fn number<N: FromStr<Err = ParseIntError>>(word: &[u8]) -> Result<N, Trouble>
    ensures { ReadsUnlessPlus N.from_str_gives word.now result }
{
    if word.starts_with(b"+") {
        return Err(Trouble::NotUnderstood);
    }
    Ok(str::from_utf8(word)?.parse()?)
}
