// Request lines: the request that a line asks for, or the place at which it goes wrong.
#![tactic(auto)]

mod from_word;
mod reader;
pub mod reading;
pub mod word;

pub use reading::read_request;
pub use word::{Letter, NoLetter, Word};
