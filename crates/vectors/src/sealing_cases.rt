//! Sealed keys: taking in, comparing, sealing and opening.

use crate::SECRET;
use crate::key_cases::{TooWide, too_wide};
use crate::reports::{Hex, tell, tell_refusal};
use keys::{Count, KeyKind, Level, Name, Pair, Refusal};
use masks::HashSource;
use sealing::{Comparison, SealedKey};
use std::cmp::Ordering;
use std::io;

const OTHER_SECRET: [u8; 16] = [1, 1, 2, 3, 4, 5, 6, 7, 8, 9, 10, 11, 12, 13, 14, 15];

// A width, packed bytes, and the refusal to take them in, if there is one.
const TAKEN_IN: [(u8, &[u8], Option<Refusal>); 17] = [
    (1, &[0, 0], None),
    (1, &[242, 216], None),
    (32, &[0; 52], None),
    (0, &[], Some(Refusal::KeyLength)),
    (0, &[0], Some(Refusal::KeyLength)),
    (33, &[0; 53], Some(Refusal::KeyLength)),
    (255, &[0; 52], Some(Refusal::KeyLength)),
    (255, &[0; 408], Some(Refusal::KeyLength)),
    (1, &[], Some(Refusal::KeyLength)),
    (1, &[0], Some(Refusal::KeyLength)),
    (1, &[0, 0, 0], Some(Refusal::KeyLength)),
    (32, &[0; 51], Some(Refusal::KeyLength)),
    (32, &[0; 53], Some(Refusal::KeyLength)),
    (1, &[243, 0], Some(Refusal::NotTrits)),
    (1, &[0, 243], Some(Refusal::NotTrits)),
    (1, &[255, 255], Some(Refusal::NotTrits)),
    (1, &[90, 91], Some(Refusal::NotTrits)),
];

// Two keys, how they compare, and at which place.
const COMPARED: [(u8, &[u8], u8, &[u8], Ordering, u16); 6] = [
    (1, &[162, 0], 1, &[0, 0], Ordering::Less, 1),
    (1, &[0, 0], 1, &[162, 0], Ordering::Greater, 1),
    (1, &[90, 90], 1, &[90, 81], Ordering::Greater, 8),
    (1, &[90, 90], 1, &[90, 90], Ordering::Equal, 0),
    (1, &[162, 0], 2, &[0, 0, 0, 0], Ordering::Less, 0),
    (2, &[0, 0, 0, 0], 1, &[162, 0], Ordering::Greater, 0),
];

// How long the scratch is with which a sealed level is opened, and the refusal, if there is one.
const OPENED: [(&str, usize, Option<Refusal>); 4] = [
    ("level opened", 32, None),
    ("level opened with longer scratch", 33, None),
    (
        "level opened with shorter scratch",
        31,
        Some(Refusal::ShortBuffer),
    ),
    (
        "level opened with no scratch",
        0,
        Some(Refusal::ShortBuffer),
    ),
];

pub fn run(rt: &impl Print) -> io::Result<()> {
    tell_taken_in(rt)?;
    tell_compared(rt)?;
    tell_scratch(rt)?;
    tell_opened(rt)
}

fn tell_taken_in(rt: &impl Print) -> io::Result<()> {
    for (width, packed, expected) in TAKEN_IN {
        let length = packed.len();
        tell_refusal(
            rt,
            format_args!("width {width}, {length} bytes, taken in"),
            sealing::take_in(width, packed),
            expected,
        )?;
    }
    Ok(())
}

fn tell_compared(rt: &impl Print) -> io::Result<()> {
    for (width_a, packed_a, width_b, packed_b, order, place) in COMPARED {
        match (
            sealing::take_in(width_a, packed_a),
            sealing::take_in(width_b, packed_b),
        ) {
            (Ok(a), Ok(b)) => tell(
                rt,
                format_args!("widths {width_a} and {width_b}, compared"),
                sealing::compare(&a, &b),
                Comparison { order, place },
            )?,
            (refused, _) => tell_refusal(rt, "compared", refused, None)?,
        }
    }
    Ok(())
}

// Scratch that is empty, too short, long enough and longer.
fn tell_scratch(rt: &impl Print) -> io::Result<()> {
    tell_scratch_of(rt, &mut [], Some(Refusal::ShortBuffer))?;
    tell_scratch_of(rt, &mut [1; 31], Some(Refusal::ShortBuffer))?;
    tell_scratch_of(rt, &mut [1; 32], None)?;
    tell_scratch_of(rt, &mut [1; 33], None)
}

// Whether or not the scratch is long enough, it comes back zeroed.
fn tell_scratch_of(
    rt: &impl Print,
    scratch: &mut [u8],
    expected: Option<Refusal>,
) -> io::Result<()> {
    let length = scratch.len();
    tell_refusal(
        rt,
        format_args!("scratch of {length} bytes, level -1 sealed"),
        sealing::seal(&mut HashSource::new(SECRET), &Level(-1), scratch),
        expected,
    )?;
    tell(
        rt,
        format_args!("scratch of {length} bytes, left after it"),
        Hex(scratch),
        Hex(&[0; 33][..length.min(33)]),
    )
}

// The sealed key of a value under the secret.
fn seal<K: KeyKind>(value: &K) -> Result<SealedKey, Refusal> {
    sealing::seal(&mut HashSource::new(SECRET), value, &mut [0; 32])
}

fn open<K: KeyKind>(
    secret: [u8; 16],
    key: Result<SealedKey, Refusal>,
    length: usize,
) -> Result<K, Refusal> {
    let mut scratch = [1; 33];
    sealing::open(
        &mut HashSource::new(secret),
        &key?,
        &mut scratch[..length.min(33)],
    )
}

fn tell_opened(rt: &impl Print) -> io::Result<()> {
    let key = seal(&Level(-1));
    for (case, length, expected) in OPENED {
        tell_refusal(rt, case, open::<Level>(SECRET, key, length), expected)?;
    }
    tell_refusal(
        rt,
        "level opened as a name",
        open::<Name>(SECRET, key, 32),
        Some(Refusal::OtherWidth),
    )?;
    tell_refusal(
        rt,
        "level opened under another secret",
        open::<Level>(OTHER_SECRET, key, 32),
        Some(Refusal::OtherSecret),
    )?;
    let four = Pair {
        first: Pair {
            first: Count(0),
            second: Count(0),
        },
        second: Pair {
            first: Count(1),
            second: Count(0),
        },
    };
    tell_refusal(
        rt,
        "four counts opened as a name",
        open::<Name>(SECRET, seal(&four), 32),
        Some(Refusal::NoValue),
    )?;
    tell_refusal(
        rt,
        "a kind of over 32 bytes opened",
        open::<TooWide>(SECRET, key, 32),
        Some(Refusal::KindWidth),
    )?;
    tell_refusal(
        rt,
        "a kind of over 32 bytes sealed",
        too_wide().and_then(|wide| seal(&wide)),
        Some(Refusal::KindWidth),
    )
}
