// The verdicts on reads and writes that are not refused: granted, wait, or rejected.
#![tactic(auto)]

pub mod attempt;

pub use attempt::Attempt;
