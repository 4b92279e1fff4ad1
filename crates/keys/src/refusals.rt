ghost use Rattle.std.specs.Prelude.{◌≡◌, Some};
ghost use Rattle.keys.specs.Refusals.{refusal_number, refusal_text};

use std::error::Error;
use std::fmt;

/// Why a call declined. The numbers are fixed: users and programs know a refusal by its number.
#[derive(Clone, Copy, PartialEq, Eq, Debug)]
pub enum Refusal {
    /// the key kind is not 1 to 32 bytes wide
    KindWidth = 1,
    /// the buffer is too short
    ShortBuffer = 2,
    /// the width or the length is not that of a sealed key
    KeyLength = 3,
    /// the packed bytes are not trits
    NotTrits = 4,
    /// the key has another width than the kind
    OtherWidth = 5,
    /// the key was not sealed under this secret
    OtherSecret = 6,
    /// the bytes are no value of the kind
    NoValue = 7,
    /// the mask source has walked 255 bits
    FullyWalked = 8,
    /// the memory has no slots or too many
    NoSlots = 9,
    /// the key is held already
    KeyHeld = 10,
    /// the book is full
    BookFull = 11,
    /// the key is not held
    KeyNotHeld = 12,
}

impl Refusal {
    /// The number by which users know it.
    pub fn number(self) -> u8
        ensures { result ≡ refusal_number self }
    {
        self as u8
    }
}

impl fmt::Display for Refusal {
    ghost output = { λ refusal. Some (refusal_text refusal) };

    fn fmt<W: fmt::Write>(&self, f: &mut fmt::Formatter<W>) -> fmt::Result {
        f.write_str(match self {
            Refusal::KindWidth => "the key kind is not 1 to 32 bytes wide",
            Refusal::ShortBuffer => "the buffer is too short",
            Refusal::KeyLength => "the width or the length is not that of a sealed key",
            Refusal::NotTrits => "the packed bytes are not trits",
            Refusal::OtherWidth => "the key has another width than the kind",
            Refusal::OtherSecret => "the key was not sealed under this secret",
            Refusal::NoValue => "the bytes are no value of the kind",
            Refusal::FullyWalked => "the mask source has walked 255 bits",
            Refusal::NoSlots => "the memory has no slots or too many",
            Refusal::KeyHeld => "the key is held already",
            Refusal::BookFull => "the book is full",
            Refusal::KeyNotHeld => "the key is not held",
        })
    }
}

impl Error for Refusal {}
