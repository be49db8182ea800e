// Tests of the edges of request lines and answer lines. They stand apart, since a crate with tests is proved twice.
#![tactic(auto)]

#[cfg(test)]
mod answers;
#[cfg(test)]
mod requests;
