// From lines of bytes to answer lines: one line, and a whole input in pieces. In specs/: the transcript of an input.
#![tactic(auto)]

pub mod answering;
pub mod console;

pub use answering::answer_line;
pub use console::{Console, NoMemory};
