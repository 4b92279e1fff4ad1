//! The cipher that is set, and what it answers.

use crate::ordering::in_order;
use crate::replies::KeyText;
use crate::troubles::Trouble;
use crate::values::{Passage, Spelled, Word};
use crate::words::{decimal_byte, hex_bytes};
use hex::FromHex;
use keys::{Count, KeyKind, Level, Name, Refusal};
use masks::{HashSource, MaskSource, TreeSource};
use sealing::SealedKey;
use std::alloc::Global;

/// The kinds of values.
#[derive(Clone, Copy)]
pub enum Kind {
    Count,
    Level,
    Name,
    Passage,
}

impl TryFrom<&[u8]> for Kind {
    ghost use Rattle.passages.specs.Words.{ReadsWordOf, kind_word};

    type Error = Trouble;

    ghost try_from_gives = { λ word r. ReadsWordOf kind_word word.now r };

    fn try_from(word: &[u8]) -> Result<Kind, Trouble> {
        match word {
            b"count" => Ok(Kind::Count),
            b"level" => Ok(Kind::Level),
            b"name" => Ok(Kind::Name),
            b"passage" => Ok(Kind::Passage),
            _ => Err(Trouble::NotUnderstood),
        }
    }
}

impl Kind {
    pub fn width(self) -> u8 {
        match self {
            Kind::Count => Count::width(),
            Kind::Level => Level::width(),
            Kind::Name => Name::width(),
            Kind::Passage => Passage::width(),
        }
    }
}

/// The mask sources.
#[derive(Clone, Copy)]
pub enum Source {
    Hash,
    Tree,
}

impl TryFrom<&[u8]> for Source {
    ghost use Rattle.passages.specs.Words.{ReadsWordOf, source_word};

    type Error = Trouble;

    ghost try_from_gives = { λ word r. ReadsWordOf source_word word.now r };

    fn try_from(word: &[u8]) -> Result<Source, Trouble> {
        match word {
            b"hash" => Ok(Source::Hash),
            b"tree" => Ok(Source::Tree),
            _ => Err(Trouble::NotUnderstood),
        }
    }
}

/// The words of a sealed key: its width, and its packed bytes in hex digits.
#[derive(Clone, Copy)]
pub struct KeyWords<'a> {
    pub width: &'a [u8],
    pub packed: &'a [u8],
}

impl KeyWords<'_> {
    /// The sealed key that the words spell, if it is taken in.
    pub fn read(self, heap: Global) -> Result<Result<SealedKey, Refusal>, Trouble> {
        let width = decimal_byte(self.width)?;
        let packed = hex_bytes(heap, self.packed)?;
        Ok(sealing::take_in(width, packed.as_slice()))
    }
}

/// What a cipher is asked for, in words.
#[derive(Clone, Copy)]
pub enum Task<'a> {
    Seal(&'a [u8]),
    Open(KeyWords<'a>),
    Order(&'a [&'a [u8]]),
}

/// What does the tasks.
#[derive(Clone, Copy)]
pub struct Cipher {
    pub kind: Kind,
    source: Source,
    secret: [u8; 16],
}

impl Cipher {
    /// The cipher of a kind, a source and a secret of 32 hex digits.
    pub fn from_words(kind: &[u8], source: &[u8], secret: &[u8]) -> Result<Cipher, Trouble> {
        Ok(Cipher {
            kind: kind.try_into()?,
            source: source.try_into()?,
            secret: <[u8; 16]>::from_hex(secret)?,
        })
    }

    /// The result of a task.
    pub fn perform(&self, heap: Global, task: Task) -> Result<String, Trouble> {
        match self.source {
            Source::Hash => self.perform_with(heap, HashSource::new(self.secret), task),
            Source::Tree => self.perform_with(heap, TreeSource::new(self.secret), task),
        }
    }

    fn perform_with<S: MaskSource + Drop>(
        &self,
        heap: Global,
        source: S,
        task: Task,
    ) -> Result<String, Trouble> {
        let mut sealer = Sealer { heap, source };
        match self.kind {
            Kind::Count => sealer.perform::<Count>(task),
            Kind::Level => sealer.perform::<Level>(task),
            Kind::Name => sealer.perform::<Name>(task),
            Kind::Passage => sealer.perform::<Passage>(task),
        }
    }
}

// Seals and opens with one mask source.
#[derive(Drop)]
struct Sealer<S> {
    heap: Global,
    source: S,
}

impl<S: MaskSource> Sealer<S> {
    fn perform<K: Spelled>(&mut self, task: Task) -> Result<String, Trouble> {
        match task {
            Task::Seal(word) => {
                let value = K::from_word(self.heap, word)??;
                let key = self.seal(&value)?;
                Ok(format!(in self.heap; "{}", KeyText(key))?)
            }
            Task::Open(words) => {
                let key = words.read(self.heap)??;
                self.open_word::<K>(&key)
            }
            Task::Order(words) => self.order::<K>(words),
        }
    }

    fn seal<K: KeyKind>(&mut self, value: &K) -> Result<SealedKey, Refusal> {
        sealing::seal(&mut self.source, value, &mut [0; 32])
    }

    // The word that spells the value of a sealed key.
    fn open_word<K: Spelled>(&mut self, key: &SealedKey) -> Result<String, Trouble> {
        let value: K = sealing::open(&mut self.source, key, &mut [0; 32])?;
        Ok(format!(in self.heap; "{}", Word(value))?)
    }

    // Seals the values, sorts them by their sealed keys alone, and opens them again.
    fn order<K: Spelled>(&mut self, words: &[&[u8]]) -> Result<String, Trouble> {
        let heap = self.heap;
        let values: Vec<K> = values_of(heap, words)?;
        let keys: Vec<SealedKey> = values
            .iter()
            .map(|value| self.seal(value).map_err(Trouble::from))
            .try_collect(heap)?;
        let ordered = in_order(heap, keys.as_slice())?;
        // each word is appended as it is opened, so that only one is held beside the row
        let mut row = String::new(heap);
        for (i, key) in ordered.iter().enumerate() {
            if i > 0 {
                row.push(' ')?;
            }
            row.push_str(self.open_word::<K>(key)?.as_str())?;
        }
        Ok(row)
    }
}

// The values that words spell; where one is refused, all words are of their form.
fn values_of<K: Spelled>(heap: Global, words: &[&[u8]]) -> Result<Vec<K>, Trouble> {
    let readings: Vec<Result<K, Refusal>> = words
        .iter()
        .map(|word| K::from_word(heap, word))
        .try_collect(heap)?;
    readings
        .into_iter()
        .map(|reading| reading.map_err(Trouble::from))
        .try_collect(heap)
}
