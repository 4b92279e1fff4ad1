//! Lines in, results out: one loop for the time in which one book is open, or none.

ghost use Rattle.passages.specs.Sessions.{TakesLine};

use crate::ciphers::Kind;
use crate::commands::{Desk, Outcome};
use crate::openings::{Opening, Store};
use crate::replies::told;
use crate::shelves::{NoBook, Shelf};
use crate::troubles::Trouble;
use crate::values::{Passage, Spelled};
use books::{Book, Entry, Row};
use keys::{Count, KeyKind, Level, Name};
use std::fmt::Display;
use std::io;
use std::io::{BufRead, BufReader, Split, Stdin, Write};
use std::iter::Zip;
use std::ops::RangeFrom;
use tree::{Node, Tree};

/// What lasts from line to line: the lines of the input with their numbers, and what commands have set.
#[derive(Drop)]
pub struct Session {
    rt: HostRuntime,
    lines: Zip<Split<BufReader<Stdin>>, RangeFrom<u64>>,
    desk: Desk,
}

impl Session {
    pub fn new(rt: HostRuntime) -> io::Result<Session> {
        let heap = rt.alloc();
        let input = BufReader::new(heap, rt.stdin())?;
        Ok(Session {
            rt,
            lines: input.split(heap, b'\n').zip(1..),
            desk: Desk::new(heap),
        })
    }

    /// Reads and answers all lines.
    pub fn run(&mut self) -> io::Result<()> {
        let mut next = self.serve(&mut NoBook)?;
        while let Some(opening) = next {
            next = self.open(opening)?;
        }
        Ok(())
    }

    // Answers lines with a book on the shelf, or none, until another book is to be opened or the input ends.
    fn serve<S: Shelf>(&mut self, shelf: &mut S) -> io::Result<Option<Opening>>
        ensures { TakesLine self.old.lines result self.new.lines }
    {
        while let Some((line, number)) = self.lines.next() {
            match self.desk.answer(shelf, number, line?.as_slice())? {
                Outcome::Nothing => {}
                Outcome::Told(reply) => self.rt.stdout().write_all(reply.as_slice())?,
                Outcome::Opens(opening) => return Ok(Some(opening)),
            }
        }
        Ok(None)
    }

    // Opens a book, tells its width and capacity, and serves it.
    fn open(&mut self, opening: Opening) -> io::Result<Option<Opening>>
        ensures { TakesLine self.old.lines result self.new.lines }
    {
        match opening.request.kind {
            Kind::Count => self.open_kind::<Count>(opening),
            Kind::Level => self.open_kind::<Level>(opening),
            Kind::Name => self.open_kind::<Name>(opening),
            Kind::Passage => self.open_kind::<Passage>(opening),
        }
    }

    // The value of zero bytes fills slots that hold no pair yet.
    fn open_kind<K: Spelled>(&mut self, opening: Opening) -> io::Result<Option<Opening>>
        ensures { TakesLine self.old.lines result self.new.lines }
    {
        let heap = self.rt.alloc();
        let slots = opening.request.slots as usize;
        let key = match K::read(&[0; 32]) {
            Ok(key) => key,
            Err(refusal) => {
                self.tell(opening, Trouble::Refused(refusal))?;
                return self.serve(&mut NoBook);
            }
        };
        match opening.request.store {
            Store::Tree => {
                let mut nodes = vec![in heap; Node::blank(key); slots]?;
                self.serve_book::<K, _>(opening, &mut Tree::new(nodes.as_mut_slice()))
            }
            Store::Row => {
                let mut entries = vec![in heap; Entry { key, ticket: 0 }; slots]?;
                self.serve_book::<K, _>(opening, &mut Row::new(entries.as_mut_slice()))
            }
        }
    }

    fn serve_book<K: Spelled, B: Book<K> + Shelf>(
        &mut self,
        opening: Opening,
        book: &mut B,
    ) -> io::Result<Option<Opening>>
        ensures { TakesLine self.old.lines result self.new.lines }
    {
        let width = K::width();
        let capacity = book.capacity();
        self.tell(opening, format_args!("width {width}, capacity {capacity}"))?;
        self.serve(book)
    }

    fn tell(&self, opening: Opening, text: impl Display + Drop) -> io::Result<()> {
        let line = told(opening.words, text)?;
        self.rt.stdout().write_all(line.as_slice())
    }
}
