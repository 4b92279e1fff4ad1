//! What keeps a command from a result.

ghost use Rattle.std.specs.Prelude.{◌≡◌, ◌≢◌, ◌⊎◌, Some};
ghost use Rattle.passages.specs.Troubles.{trouble_text};
ghost use Rattle.passages.specs.declared.troubles.Trouble.TheVariants.{NotUnderstood, Refused, OutOfMemory};

use hex::FromHexError;
use keys::Refusal;
use std::alloc::{AllocError, AllocFailed};
use std::fmt;
use std::num::ParseIntError;
use std::str::Utf8Error;

/// Why a command has no result.
#[derive(Clone, Copy, PartialEq, Eq, Debug)]
pub enum Trouble {
    /// the command is unknown, or its words are too few, too many or not of their form
    NotUnderstood,
    NoCipher,
    NoBook,
    Refused(Refusal),
    OutOfMemory,
}

impl fmt::Display for Trouble {
    ghost output = { λ trouble. Some (trouble_text trouble) };

    fn fmt<W: fmt::Write>(&self, f: &mut fmt::Formatter<W>) -> fmt::Result {
        match self {
            Trouble::NotUnderstood => f.write_str("not understood"),
            Trouble::NoCipher => f.write_str("no cipher is set"),
            Trouble::NoBook => f.write_str("no book is open"),
            Trouble::Refused(refusal) => {
                let number = refusal.number();
                write!(f, "refused {number}, {refusal}")
            }
            Trouble::OutOfMemory => f.write_str("out of memory"),
        }
    }
}

impl From<Refusal> for Trouble {
    ghost from_gives = { λ refusal trouble. trouble ≡ Refused refusal };

    fn from(refusal: Refusal) -> Trouble {
        Trouble::Refused(refusal)
    }
}

impl From<AllocError> for Trouble {
    ghost from_gives = { λ _ trouble. trouble ≡ OutOfMemory };

    fn from(_error: AllocError) -> Trouble {
        Trouble::OutOfMemory
    }
}

impl<T: Drop> From<AllocFailed<T>> for Trouble {
    ghost from_gives = { λ _ trouble. trouble ≡ OutOfMemory };

    fn from(_error: AllocFailed<T>) -> Trouble {
        Trouble::OutOfMemory
    }
}

impl From<FromHexError> for Trouble {
    ghost use Rattle.hex.specs.declared.error.FromHexError.{FromHexError};

    ghost from_gives = { λ error trouble. ((error ≡ FromHexError.OutOfMemory) × (trouble ≡ OutOfMemory))
        ⊎ ((error ≢ FromHexError.OutOfMemory) × (trouble ≡ NotUnderstood)) };

    fn from(error: FromHexError) -> Trouble {
        match error {
            FromHexError::OutOfMemory => Trouble::OutOfMemory,
            _ => Trouble::NotUnderstood,
        }
    }
}

impl From<Utf8Error> for Trouble {
    ghost from_gives = { λ _ trouble. trouble ≡ NotUnderstood };

    fn from(_error: Utf8Error) -> Trouble {
        Trouble::NotUnderstood
    }
}

impl From<ParseIntError> for Trouble {
    ghost from_gives = { λ _ trouble. trouble ≡ NotUnderstood };

    fn from(_error: ParseIntError) -> Trouble {
        Trouble::NotUnderstood
    }
}
