//! Books: pairs of key and ticket, in the order of their keys.

#![tactic(auto)]

mod books;
mod clients;
mod entries;
mod laws;
mod rows;

pub use books::Book;
pub use clients::{RowAnswers, row_of_none, row_of_three};
pub use entries::Entry;
pub use laws::{plain_steps_follow_the_order, row_searches_are_short};
pub use rows::Row;
