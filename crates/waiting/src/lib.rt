// Which job of a group may wait for which other.
//
// A waiting rule answers yes or no over two jobs of one group, each given by its class and its ticket. It owes two laws:
// no job may wait for itself, and waiting is transitive. Under both no chain of waits comes back to its start.
#![tactic(auto)]

pub mod chain;
pub mod class;
pub mod classes;
pub mod elder;
pub mod never;
pub mod party;
pub mod rule;
pub mod table;

pub use chain::is_chain_of_waits;
pub use class::{Class, NoSuchClass};
pub use classes::Classes;
pub use elder::Elder;
pub use never::Never;
pub use party::Party;
pub use rule::WaitingRule;
pub use table::{Decision, decision_of};
