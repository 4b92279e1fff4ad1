//! Order-revealing encryption of key bytes (Chenette, Lewi, Weis and Wu, FSE 2016, with trits): two keys sealed
//! under one secret compare as their values do, and nothing else can be read off them but the first different place.

#![tactic(auto)]

mod comparer;
mod guards;
mod opener;
mod questions;
mod records;
mod sealer;
mod taker;

pub use comparer::compare;
pub use opener::open;
pub use records::{Comparison, SealedKey};
pub use sealer::seal;
pub use taker::{packed_length, take_in};
