//! Mask sources: they walk 255 bits and no more.

use crate::SECRET;
use crate::reports::{tell, tell_refusal};
use keys::Refusal;
use masks::{HashSource, MaskSource, TreeSource};
use std::io;

pub fn run(rt: &impl Print) -> io::Result<()> {
    tell_walk(rt, "hash source", &mut HashSource::new(SECRET))?;
    tell_walk(rt, "tree source", &mut TreeSource::new(SECRET))
}

fn tell_walk<S: MaskSource>(rt: &impl Print, name: &str, source: &mut S) -> io::Result<()> {
    let first = source.mask();
    let accepted = (0..255u8)
        .filter(|i| source.step(*i % 3 == 0).is_ok())
        .count();
    tell(
        rt,
        format_args!("{name}, steps accepted of 255"),
        accepted,
        255,
    )?;
    let last = source.mask();
    tell_refusal(
        rt,
        format_args!("{name}, step 256"),
        source.step(true),
        Some(Refusal::FullyWalked),
    )?;
    tell(
        rt,
        format_args!("{name}, the mask after it"),
        source.mask(),
        last,
    )?;
    source.restart();
    tell(
        rt,
        format_args!("{name}, the mask after a restart"),
        source.mask(),
        first,
    )
}
