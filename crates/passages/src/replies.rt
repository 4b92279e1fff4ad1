//! The text that the program prints.

use sealing::SealedKey;
use std::alloc::{AllocError, Global};
use std::io::Write;
use std::{fmt, io};

/// Bytes, two hex digits each.
#[derive(Clone, Copy)]
pub struct Hex<'a>(pub &'a [u8]);

impl fmt::Display for Hex<'_> {
    fn fmt<W: fmt::Write>(&self, f: &mut fmt::Formatter<W>) -> fmt::Result {
        for byte in self.0 {
            write!(f, "{byte:02x}")?;
        }
        Ok(())
    }
}

/// A sealed key: its width and its packed bytes.
#[derive(Clone, Copy)]
pub struct KeyText(pub SealedKey);

impl fmt::Display for KeyText {
    fn fmt<W: fmt::Write>(&self, f: &mut fmt::Formatter<W>) -> fmt::Result {
        write!(f, "{} {}", self.0.width(), Hex(self.0.packed()))
    }
}

/// Words, one blank apart. They need not be text.
pub fn joined(heap: Global, words: &[&[u8]]) -> Result<Vec<u8>, AllocError> {
    let mut line = Vec::new(heap);
    for (i, word) in words.iter().enumerate() {
        if i > 0 {
            line.push(b' ')?;
        }
        line.extend_from_slice(word)?;
    }
    Ok(line)
}

/// The line that tells a result behind its head.
pub fn told(head: Vec<u8>, text: impl fmt::Display + Drop) -> io::Result<Vec<u8>> {
    let mut line = head;
    writeln!(line, ": {text}")?;
    Ok(line)
}
