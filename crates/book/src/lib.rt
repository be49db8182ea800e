// The height book: what programs use. Each call promises its step, whole, and what its answer says of the book after it.
#![tactic(auto)]

pub mod calls;
pub mod height_book;
pub mod submitting;

pub use height_book::Book;
