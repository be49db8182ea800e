// The rows of a book's open jobs: a plain table with no invariant of its own. A row past the last one holds no job, and to
// change it changes nothing.
#![tactic(auto)]

pub mod rows;

pub use rows::JobRows;
