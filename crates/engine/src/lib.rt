// The generic book: the ledger over two stores and a waiting rule. Each call promises its one step, whole.
#![tactic(auto)]

pub mod calls;
pub mod engine;
pub mod opening;
pub mod submitting;

pub use engine::Engine;
pub use opening::Unopened;
