//! The commands: what each does, and the line that tells its result.

use crate::ciphers::{Cipher, KeyWords, Task};
use crate::openings::{Opening, Request};
use crate::replies::{joined, told};
use crate::shelves::{Question, Shelf};
use crate::troubles::Trouble;
use crate::words::words_of;
use std::alloc::{AllocError, Global};
use std::io;
use std::io::Write;

/// What commands set and use, besides the book.
#[derive(Clone, Copy)]
pub struct Desk {
    heap: Global,
    cipher: Option<Cipher>,
}

/// What a line comes to.
#[derive(Drop)]
pub enum Outcome {
    /// the line is passed over
    Nothing,
    /// a line is to be printed
    Told(Vec<u8>),
    /// a new book is to be opened
    Opens(Opening),
}

impl Desk {
    pub fn new(heap: Global) -> Desk {
        Desk { heap, cipher: None }
    }

    /// Does what a line asks, of the cipher or of the book on the shelf. A line with no words, or whose first word
    /// begins with `#`, is passed over.
    pub fn answer<S: Shelf>(
        &mut self,
        shelf: &mut S,
        number: u64,
        line: &[u8],
    ) -> io::Result<Outcome> {
        let heap = self.heap;
        let words = words_of(heap, line)?;
        let words = words.as_slice();
        if words.first().is_none_or(|first| first.starts_with(b"#")) {
            return Ok(Outcome::Nothing);
        }
        if let [b"book", kind, store, slots, b"open"] = words
            && let Ok(request) = Request::from_words(kind, store, slots)
        {
            return Ok(Outcome::Opens(Opening::new(heap, words, request)?));
        }
        let reply = match self.perform(shelf, words) {
            Ok(result) => told(joined(heap, head(words))?, result)?,
            Err(Trouble::NotUnderstood) => not_understood(heap, number, words)?,
            Err(Trouble::OutOfMemory) => return Err(io::Error::from(AllocError)),
            Err(trouble) => told(joined(heap, head(words))?, trouble)?,
        };
        Ok(Outcome::Told(reply))
    }

    // The result of a command.
    fn perform<S: Shelf>(&mut self, shelf: &mut S, words: &[&[u8]]) -> Result<String, Trouble> {
        let heap = self.heap;
        match words {
            [b"cipher", kind, source, secret] => {
                self.set_cipher(Cipher::from_words(kind, source, secret)?)
            }
            [b"compare", width_a, packed_a, width_b, packed_b] => compare(
                heap,
                KeyWords {
                    width: width_a,
                    packed: packed_a,
                },
                KeyWords {
                    width: width_b,
                    packed: packed_b,
                },
            ),
            [b"seal", value] => self.ask_cipher(Task::Seal(value)),
            [b"open", width, packed] => { self.ask_cipher(Task::Open(KeyWords { width, packed })) }
            [b"order", _, ..] => self.ask_cipher(Task::Order(&words[1..])),
            [b"add", value, ticket] => shelf.answer(heap, Question::Add { value, ticket }),
            [b"take", value] => shelf.answer(heap, Question::Take(value)),
            [b"find", value] => shelf.answer(heap, Question::Find(value)),
            [b"from", value] => shelf.answer(heap, Question::From(value)),
            [b"after", value] => shelf.answer(heap, Question::After(value)),
            [b"count"] => shelf.answer(heap, Question::Count),
            [b"tree"] => shelf.layout(heap),
            _ => Err(Trouble::NotUnderstood),
        }
    }

    fn set_cipher(&mut self, cipher: Cipher) -> Result<String, Trouble> {
        self.cipher = Some(cipher);
        let width = cipher.kind.width();
        Ok(format!(in self.heap; "width {width}, packed {}", sealing::packed_length(width))?)
    }

    fn ask_cipher(&self, task: Task) -> Result<String, Trouble> {
        self.cipher
            .ok_or(Trouble::NoCipher)?
            .perform(self.heap, task)
    }
}

fn compare(heap: Global, a: KeyWords, b: KeyWords) -> Result<String, Trouble> {
    let a = a.read(heap)?;
    let b = b.read(heap)?;
    Ok(format!(in heap; "{}", sealing::compare(&a?, &b?))?)
}

// The words that stand before a result: the secret of a cipher is never shown.
fn head<'a, 'b>(words: &'a [&'b [u8]]) -> &'a [&'b [u8]] {
    match words {
        [b"cipher", _, _, ..] => &words[0..3],
        _ => words,
    }
}

fn not_understood(heap: Global, number: u64, words: &[&[u8]]) -> io::Result<Vec<u8>> {
    let mut line = Vec::new(heap);
    write!(line, "line {number}: {}: ", Trouble::NotUnderstood)?;
    line.extend_from_slice(words.first().copied().unwrap_or(b""))?;
    line.push(b'\n')?;
    Ok(line)
}
