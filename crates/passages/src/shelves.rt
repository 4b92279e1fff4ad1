//! The book that is open, if one is, and what it answers.

use crate::layouts::Layout;
use crate::troubles::Trouble;
use crate::values::{Spelled, Word};
use crate::words::decimal;
use books::{Book, Entry, Row};
use std::alloc::{AllocError, Global};
use tree::Tree;

/// What a book is asked for, in words.
#[derive(Clone, Copy)]
pub enum Question<'a> {
    Add { value: &'a [u8], ticket: &'a [u8] },
    Take(&'a [u8]),
    Find(&'a [u8]),
    From(&'a [u8]),
    After(&'a [u8]),
    Count,
}

/// What answers the questions to a book.
pub trait Shelf {
    fn answer(&mut self, heap: Global, question: Question) -> Result<String, Trouble>;

    /// How the book lies in its memory.
    fn layout(&self, heap: Global) -> Result<String, Trouble>;
}

/// No book is open.
#[derive(Clone, Copy)]
pub struct NoBook;

impl Shelf for NoBook {
    fn answer(&mut self, _heap: Global, _question: Question) -> Result<String, Trouble> {
        Err(Trouble::NoBook)
    }

    fn layout(&self, _heap: Global) -> Result<String, Trouble> {
        Err(Trouble::NoBook)
    }
}

impl<'a, K: Spelled> Shelf for Tree<'a, K> {
    fn answer(&mut self, heap: Global, question: Question) -> Result<String, Trouble> {
        ask::<K, Tree<'a, K>>(self, heap, question)
    }

    fn layout(&self, heap: Global) -> Result<String, Trouble> {
        Ok(format!(in heap; "{}", Layout(self))?)
    }
}

impl<'a, K: Spelled> Shelf for Row<'a, K> {
    fn answer(&mut self, heap: Global, question: Question) -> Result<String, Trouble> {
        ask::<K, Row<'a, K>>(self, heap, question)
    }

    fn layout(&self, heap: Global) -> Result<String, Trouble> {
        Ok(String::from_str(heap, "this book is a row")?)
    }
}

fn ask<K: Spelled, B: Book<K>>(
    book: &mut B,
    heap: Global,
    question: Question,
) -> Result<String, Trouble> {
    match question {
        Question::Add { value, ticket } => {
            let key = K::from_word(heap, value)?;
            let ticket = decimal(ticket)?;
            book.add(&key?, ticket)?;
            Ok(String::from_str(heap, "added")?)
        }
        Question::Take(value) => {
            let key = K::from_word(heap, value)??;
            let ticket = book.take(&key)?;
            Ok(format!(in heap; "ticket {ticket}")?)
        }
        Question::Find(value) => {
            let key = K::from_word(heap, value)??;
            match book.find(&key)? {
                Some(ticket) => Ok(format!(in heap; "ticket {ticket}")?),
                None => Ok(String::from_str(heap, "none")?),
            }
        }
        Question::From(value) => {
            let key = K::from_word(heap, value)??;
            Ok(found(heap, book.seek_from(&key)?)?)
        }
        Question::After(value) => {
            let key = K::from_word(heap, value)??;
            Ok(found(heap, book.seek_after(&key)?)?)
        }
        Question::Count => Ok(format!(in heap; "{} of {}", book.count(), book.capacity())?),
    }
}

// The pair that a search found, if it found one.
fn found<K: Spelled>(heap: Global, found: Option<Entry<K>>) -> Result<String, AllocError> {
    match found {
        Some(Entry { key, ticket }) => format!(in heap; "{} ticket {ticket}", Word(key)),
        None => String::from_str(heap, "none"),
    }
}
