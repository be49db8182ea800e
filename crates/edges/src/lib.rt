// Tests of the edges of the stores, the waiting rules, the book and the console. They stand apart, since a crate with tests is proved
// twice.
#![tactic(auto)]

#[cfg(test)]
mod books;
#[cfg(test)]
mod rules;
#[cfg(test)]
mod stores;
