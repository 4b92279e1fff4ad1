//! Mask sources: where the masks of order-revealing encryption come from.

#![tactic(auto)]

mod hash_source;
mod source;
mod tree_source;
mod walk;

pub use hash_source::HashSource;
pub use source::MaskSource;
pub use tree_source::TreeSource;
