// Stores: a row of cells of fixed length behind one trait, and memory handed in as a store.
#![tactic(auto)]

pub mod memory;
pub mod row;

pub use memory::Memory;
pub use row::{Outside, Store};
