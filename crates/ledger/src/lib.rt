// The scheduler without stores: who may read or write which cell, and when.
//
// A ledger holds the open jobs, a record for each cell, and the counters. A read is answered by the store to read from;
// the caller does the reading and the writing.
#![tactic(auto)]

mod ledger;

pub use ledger::Ledger;
