// The records of a book's cells: a plain table with no invariant of its own. A cell past the last one has no record, and to
// change it changes nothing.
#![tactic(auto)]

pub mod table;

pub use table::CellTable;
