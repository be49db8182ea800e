// Decimal numerals of bounded numbers: how far a text goes on to one.
#![tactic(auto)]

pub mod range;
pub mod scan;

pub use range::Range;
pub use scan::digits;
