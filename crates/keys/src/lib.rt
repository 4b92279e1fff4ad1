//! Key kinds: values with a fixed number of key bytes, whose order is the order of those bytes.

#![tactic(auto)]

mod counts;
mod kinds;
mod levels;
mod names;
mod orders;
mod pairs;
mod refusals;

pub use counts::Count;
pub use kinds::{KeyKind, are_bytes, is_served};
pub use levels::Level;
pub use names::Name;
pub use orders::OrderedKey;
pub use pairs::Pair;
pub use refusals::Refusal;
