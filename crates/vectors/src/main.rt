//! Runs the published vectors of SipHash-2-4, the worked cases, and bad input at every call. Each line ends with `ok`
//! or `DIFFERS`.

#![tactic(auto)]

mod hash_vectors;
mod key_cases;
mod mask_cases;
mod reports;
mod sealing_cases;

use std::io;

// The secret of every case, and the key of the published vectors: the bytes 0 to 15.
const SECRET: [u8; 16] = [0, 1, 2, 3, 4, 5, 6, 7, 8, 9, 10, 11, 12, 13, 14, 15];

fn main(rt: HostRuntime) -> io::Result<()> {
    hash_vectors::run(&rt)?;
    key_cases::run(&rt)?;
    mask_cases::run(&rt)?;
    sealing_cases::run(&rt)
}
