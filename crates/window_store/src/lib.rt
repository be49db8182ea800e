// A window over any other store, as a store.
#![tactic(auto)]

pub mod window;

pub use window::Window;
