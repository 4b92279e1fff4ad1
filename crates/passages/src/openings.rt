//! Books that are to be opened.

use crate::ciphers::Kind;
use crate::replies::joined;
use crate::troubles::Trouble;
use crate::words::decimal;
use std::alloc::{AllocError, Global};

/// Where a book keeps its pairs.
#[derive(Clone, Copy)]
pub enum Store {
    Tree,
    Row,
}

impl TryFrom<&[u8]> for Store {
    ghost use Rattle.passages.specs.Words.{ReadsWordOf, store_word};

    type Error = Trouble;

    ghost try_from_gives = { λ word r. ReadsWordOf store_word word.now r };

    fn try_from(word: &[u8]) -> Result<Store, Trouble> {
        match word {
            b"tree" => Ok(Store::Tree),
            b"row" => Ok(Store::Row),
            _ => Err(Trouble::NotUnderstood),
        }
    }
}

// More slots than this are not asked for.
const MOST_SLOTS: u32 = 100000;

/// The kind of a book's keys, its store, and how many slots of memory it gets.
#[derive(Clone, Copy)]
pub struct Request {
    pub kind: Kind,
    pub store: Store,
    pub slots: u32,
}

impl Request {
    pub fn from_words(kind: &[u8], store: &[u8], slots: &[u8]) -> Result<Request, Trouble> {
        let request = Request {
            kind: kind.try_into()?,
            store: store.try_into()?,
            slots: decimal(slots)?,
        };
        if request.slots > MOST_SLOTS {
            return Err(Trouble::NotUnderstood);
        }
        Ok(request)
    }
}

/// A book that is to be opened, and the words by which it was asked for.
#[derive(Drop)]
pub struct Opening {
    pub request: Request,
    pub words: Vec<u8>,
}

impl Opening {
    pub fn new(heap: Global, words: &[&[u8]], request: Request) -> Result<Opening, AllocError> {
        Ok(Opening {
            request,
            words: joined(heap, words)?,
        })
    }
}
