// Bytes handed in as a store.
#![tactic(auto)]

pub mod bytes;

pub use bytes::Bytes;
