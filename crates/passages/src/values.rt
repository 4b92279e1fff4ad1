//! How values of each kind are written as words.

ghost use Rattle.std.specs.Prelude.{◌≡◌};
ghost use Rattle.passages.specs.Names.{graphic_only};

use crate::replies::Hex;
use crate::troubles::Trouble;
use crate::words::{decimal, hex_bytes, signed_decimal};
use keys::{Count, KeyKind, Level, Name, Pair, Refusal};
use std::alloc::Global;
use std::{fmt, str};

/// A lock's number and a minute.
pub type Passage = Pair<Count, Count>;

/// A kind of values that are written as words.
pub trait Spelled: KeyKind {
    /// The value that a word spells, or the kind's refusal; a word that is not of the kind's form is not understood.
    /// The two are apart because all words of a line have to be of their form before any value is refused.
    fn from_word(heap: Global, word: &[u8]) -> Result<Result<Self, Refusal>, Trouble>;

    /// Writes the word that spells the value.
    fn spell<W: fmt::Write>(&self, f: &mut fmt::Formatter<W>) -> fmt::Result;
}

/// A value as the word that spells it.
#[derive(Clone, Copy)]
pub struct Word<K>(pub K);

impl<K: Spelled> fmt::Display for Word<K> {
    fn fmt<W: fmt::Write>(&self, f: &mut fmt::Formatter<W>) -> fmt::Result {
        self.0.spell(f)
    }
}

impl Spelled for Count {
    fn from_word(_heap: Global, word: &[u8]) -> Result<Result<Count, Refusal>, Trouble> {
        Ok(Ok(Count(decimal(word)?)))
    }

    fn spell<W: fmt::Write>(&self, f: &mut fmt::Formatter<W>) -> fmt::Result {
        write!(f, "{}", self.0)
    }
}

impl Spelled for Level {
    fn from_word(_heap: Global, word: &[u8]) -> Result<Result<Level, Refusal>, Trouble> {
        Ok(Ok(Level(signed_decimal(word)?)))
    }

    fn spell<W: fmt::Write>(&self, f: &mut fmt::Formatter<W>) -> fmt::Result {
        write!(f, "{}", self.0)
    }
}

impl Spelled for Passage {
    fn from_word(_heap: Global, word: &[u8]) -> Result<Result<Passage, Refusal>, Trouble> {
        let (lock, minute) = str::from_utf8(word)?
            .split_once('/')
            .ok_or(Trouble::NotUnderstood)?;
        Ok(Ok(Pair {
            first: Count(decimal(lock.as_bytes())?),
            second: Count(decimal(minute.as_bytes())?),
        }))
    }

    fn spell<W: fmt::Write>(&self, f: &mut fmt::Formatter<W>) -> fmt::Result {
        write!(f, "{}/{}", self.first.0, self.second.0)
    }
}

impl Spelled for Name {
    fn from_word(heap: Global, word: &[u8]) -> Result<Result<Name, Refusal>, Trouble> {
        match word.strip_prefix(HEX) {
            Some(digits) => Ok(Name::new(hex_bytes(heap, digits)?.as_slice())),
            None => Ok(Name::new(word)),
        }
    }

    fn spell<W: fmt::Write>(&self, f: &mut fmt::Formatter<W>) -> fmt::Result {
        match str::from_utf8(self.text()) {
            Ok(text) if stands_bare(self.text()) => f.write_str(text),
            _ => write!(f, "hex:{}", Hex(self.text())),
        }
    }
}

// What a name begins with that is spelled by hex digits.
const HEX: &[u8] = b"hex:";

// Would a word of these bytes be read as the name of these bytes, and can it be printed?
fn stands_bare(text: &[u8]) -> bool {
    !text.is_empty() && are_graphic(text) && !text.starts_with(HEX)
}

// Are these bytes all 33 to 126, which print as themselves and are no blanks?
fn are_graphic(text: &[u8]) -> bool
    ensures { result ≡ graphic_only text.now }
{
    text.iter().all(|byte| byte.is_ascii_graphic())
}
