//! One line for each case: what was tried, what came of it, and the verdict.

use keys::Refusal;
use std::fmt::Display;
use std::{fmt, io};

/// Tells what came of a case, and whether it is what was to come.
pub fn tell<T: Display + PartialEq + Drop>(
    rt: &impl Print,
    case: impl Display + Drop,
    found: T,
    expected: T,
) -> io::Result<()> {
    let verdict = if found == expected { "ok" } else { "DIFFERS" };
    println!(rt; "{case}: {found}: {verdict}")
}

/// Tells whether a case was refused, and by which refusal it was to be, if by any.
pub fn tell_refusal<T: Drop>(
    rt: &impl Print,
    case: impl Display + Drop,
    found: Result<T, Refusal>,
    expected: Option<Refusal>,
) -> io::Result<()> {
    tell(rt, case, Answer(found.err()), Answer(expected))
}

/// Bytes, two hex digits each.
#[derive(Clone, Copy, PartialEq)]
pub struct Hex<'a>(pub &'a [u8]);

impl fmt::Display for Hex<'_> {
    fn fmt<W: fmt::Write>(&self, f: &mut fmt::Formatter<W>) -> fmt::Result {
        for byte in self.0 {
            write!(f, "{byte:02x}")?;
        }
        Ok(())
    }
}

// Why a call declined, by its number, or that it did not.
#[derive(Clone, Copy, PartialEq)]
struct Answer(Option<Refusal>);

impl fmt::Display for Answer {
    fn fmt<W: fmt::Write>(&self, f: &mut fmt::Formatter<W>) -> fmt::Result {
        match self.0 {
            Some(refusal) => write!(f, "refused {}", refusal.number()),
            None => f.write_str("accepted"),
        }
    }
}
