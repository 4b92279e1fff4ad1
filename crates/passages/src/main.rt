//! Reads commands from standard input, one a line, and prints the result of each at once.

#![tactic(auto)]

mod ciphers;
mod commands;
mod layouts;
mod openings;
mod ordering;
mod replies;
mod sessions;
mod shelves;
mod troubles;
mod values;
mod words;

use sessions::Session;
use std::io;

fn main(rt: HostRuntime) -> io::Result<()> {
    Session::new(rt)?.run()
}
