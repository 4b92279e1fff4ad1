//! The AVL tree in node memory that its owner hands over.

#![tactic(auto)]

mod changes;
mod clients;
mod counted;
mod descents;
mod nodes;
mod shapes;
mod shaping;
mod states;
mod tree_books;
mod trees;

pub use clients::{TreeAnswers, tree_of_four};
pub use nodes::Node;
pub use shapes::Shape;
pub use trees::Tree;
