// The theorem over every run of a book. In specs/: histories, the serial order, the wait-for graph, runs and the theorem;
// in proofs/: its proof. The calls of the book name it in their contracts.
#![tactic(auto)]

ghost use Rattle.std.specs.Prelude.{◌≡◌};
ghost use Rattle.theorem.specs.Calls.{request_of};

use schedule::{Event, Request};

// The request that an event answers.
pub fn request_of<C: Copy>(event: &Event<C>) -> Request<C>
    ensures request { result ≡ request_of event.now }
{
    match event {
        Event::Begin(class, _) => Request::Begin(*class),
        Event::Read(ticket, cell, _) => Request::Read(*ticket, *cell),
        Event::Write(ticket, cell, new, _) => Request::Write(*ticket, *cell, *new),
        Event::End(ticket, _) => Request::End(*ticket),
        Event::GiveUp(ticket, _) => Request::GiveUp(*ticket),
        Event::GroupSize(size, _) => Request::GroupSize(*size),
    }
}
