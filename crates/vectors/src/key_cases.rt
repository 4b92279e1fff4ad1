//! Key kinds: what they write and read, and what they refuse.

use crate::reports::{Hex, tell, tell_refusal};
use keys::{Count, KeyKind, Level, Name, Pair, Refusal};
use std::fmt::Display;
use std::io;

/// A pair that no book or cipher serves: two names and a count have 36 key bytes.
pub type TooWide = Pair<Pair<Name, Name>, Count>;

pub fn too_wide() -> Result<TooWide, Refusal> {
    let name = Name::new(b"Heron")?;
    Ok(Pair {
        first: Pair {
            first: name,
            second: name,
        },
        second: Count(1),
    })
}

// Levels and their keys: the bytes of the distance from the lowest level.
const LEVELS: [(&str, i32, [u8; 4]); 4] = [
    ("level -1", -1, [0x7f, 0xff, 0xff, 0xff]),
    ("level 0", 0, [0x80, 0, 0, 0]),
    ("the lowest level", i32::MIN, [0, 0, 0, 0]),
    ("the highest level", i32::MAX, [0xff, 0xff, 0xff, 0xff]),
];

// Names with none, 16 and 17 bytes, and with a zero byte.
const NAMES: [(&str, &[u8], Option<Refusal>); 5] = [
    ("name of no bytes", b"", None),
    ("name of 16 bytes", b"0123456789abcdef", None),
    (
        "name of 17 bytes",
        b"0123456789abcdefg",
        Some(Refusal::NoValue),
    ),
    ("name with a zero byte", b"a\0b", Some(Refusal::NoValue)),
    (
        "name with a zero byte at its end",
        b"a\0",
        Some(Refusal::NoValue),
    ),
];

pub fn run(rt: &impl Print) -> io::Result<()> {
    let passage = Pair {
        first: Count(12),
        second: Count(405),
    };
    for (name, level, key) in LEVELS {
        tell_key(rt, format_args!("key of {name}"), &Level(level), &key)?;
    }
    tell_key(rt, "key of count 1030", &Count(1030), &[0, 0, 4, 6])?;
    tell_key(
        rt,
        "key of passage 12/405",
        &passage,
        &[0, 0, 0, 12, 0, 0, 1, 149],
    )?;
    tell_names(rt)?;
    tell_buffers(rt, "count", Ok(Count(1030)))?;
    tell_buffers(rt, "level", Ok(Level(-350)))?;
    tell_buffers(rt, "passage", Ok(passage))?;
    tell_buffers(rt, "name", Name::new(b"Heron"))?;
    tell_too_wide(rt)
}

fn tell_key<K: KeyKind>(
    rt: &impl Print,
    case: impl Display + Drop,
    value: &K,
    expected: &[u8],
) -> io::Result<()> {
    let mut buffer = [0; 32];
    match value.write(&mut buffer) {
        Ok(()) => {
            let width = usize::from(K::width()).min(32);
            tell(rt, case, Hex(&buffer[..width]), Hex(expected))
        }
        refused => tell_refusal(rt, case, refused, None),
    }
}

// Zeros before the end of the key are no name.
fn tell_names(rt: &impl Print) -> io::Result<()> {
    for (case, text, expected) in NAMES {
        tell_refusal(rt, case, Name::new(text), expected)?;
    }
    tell_refusal(rt, "name read from 16 zeros", Name::read(&[0; 16]), None)?;
    tell_refusal(
        rt,
        "name read from a, 0, b and zeros",
        Name::read(b"a\0b\0\0\0\0\0\0\0\0\0\0\0\0\0"),
        Some(Refusal::NoValue),
    )
}

// Writing to and reading from buffers that are empty, one byte too short, as long as the key, and longer.
fn tell_buffers<K: KeyKind>(
    rt: &impl Print,
    kind: &str,
    value: Result<K, Refusal>,
) -> io::Result<()> {
    let value = match value {
        Ok(value) => value,
        refused => return tell_refusal(rt, kind, refused, None),
    };
    let width = usize::from(K::width()).clamp(1, 32);
    let short = Some(Refusal::ShortBuffer);
    tell_buffer(rt, kind, &value, &mut [], short)?;
    tell_buffer(rt, kind, &value, &mut [0; 33][..width - 1], short)?;
    tell_buffer(rt, kind, &value, &mut [0; 33][..width], None)?;
    tell_buffer(rt, kind, &value, &mut [0; 33][..width + 1], None)
}

fn tell_buffer<K: KeyKind>(
    rt: &impl Print,
    kind: &str,
    value: &K,
    buffer: &mut [u8],
    expected: Option<Refusal>,
) -> io::Result<()> {
    let length = buffer.len();
    tell_refusal(
        rt,
        format_args!("{kind}, buffer of {length} bytes, written"),
        value.write(buffer),
        expected,
    )?;
    tell_refusal(
        rt,
        format_args!("{kind}, buffer of {length} bytes, read"),
        K::read(buffer),
        expected,
    )
}

// A kind of more than 32 bytes is refused, however long the buffer.
fn tell_too_wide(rt: &impl Print) -> io::Result<()> {
    let mut buffer = [0; 64];
    tell_refusal(
        rt,
        "a kind of over 32 bytes written",
        too_wide().and_then(|wide| wide.write(&mut buffer)),
        Some(Refusal::KindWidth),
    )?;
    tell_refusal(
        rt,
        "a kind of over 32 bytes read",
        TooWide::read(&buffer),
        Some(Refusal::KindWidth),
    )
}
