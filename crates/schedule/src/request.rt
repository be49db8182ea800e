use crate::answer::{Refusal, Reply};

// A request to a book over cells of the type C.
#[derive(Clone, Copy, PartialEq, Eq, Debug)]
pub enum Request<C> {
    // a class
    Begin(u32),
    // a ticket and a cell number
    Read(u32, u32),
    // a ticket, a cell number and the new cell
    Write(u32, u32, C),
    // a ticket
    End(u32),
    // a ticket
    GiveUp(u32),
    // how many jobs a group takes
    GroupSize(u32),
}

// A request with the answer that it got.
#[derive(Clone, Copy, PartialEq, Eq, Debug)]
pub enum Event<C> {
    // granted: ticket, group and place
    Begin(u32, Result<(u32, u32, u32), Refusal>),
    Read(u32, u32, Reply<C>),
    Write(u32, u32, C, Reply<()>),
    // granted: group and end number
    End(u32, Result<(u32, u32), Refusal>),
    GiveUp(u32, Result<(), Refusal>),
    // granted: the size
    GroupSize(u32, Result<u32, Refusal>),
}
