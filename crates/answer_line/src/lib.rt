// The lines of text in which a book's answers are told, byte for byte.
#![tactic(auto)]

pub mod answer;
pub mod line;

pub use answer::Answer;
pub use line::append_line;
