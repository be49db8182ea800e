ghost use Rattle.std.specs.Prelude.{◌≡◌};
ghost use Rattle.engine.specs.Contents.{BookSound};
ghost use Rattle.engine.specs.Promises.{KeepsPromises, KeepsPromisesThrough};
ghost use Rattle.theorem.specs.Calls.{after_all};
ghost use Rattle.theorem.specs.Theorem.{step};

use crate::engine::Engine;
use schedule::{Event, Request};
use store::Store;
use waiting::WaitingRule;

impl<M: Store, D: Store<Cell = M::Cell>, W: WaitingRule> Engine<M, D, W> {
    // Any request: the request with its answer.
    pub fn submit(&mut self, request: Request<M::Cell>) -> Event<M::Cell>
        ensures event_and_book_after { step (W.WaitingRule.may self.old.rule) self.old.book request ≡ (result, self.new.book) }
        ensures rule_kept { self.new.rule ≡ self.old.rule }
        ensures sound_before { BookSound M.Store.row D.Store.row self.old }
        ensures sound { BookSound M.Store.row D.Store.row self.new }
        ensures promises_kept { KeepsPromises (W.WaitingRule.may self.old.rule) result self.old.book self.new.book }
    {
        match request {
            Request::Begin(class) => Event::Begin(class, self.begin(class)),
            Request::Read(ticket, cell) => Event::Read(ticket, cell, self.read(ticket, cell)),
            Request::Write(ticket, cell, new) => Event::Write(
                ticket,
                cell,
                new,
                self.write(ticket, cell, new),
            ),
            Request::End(ticket) => Event::End(ticket, self.end(ticket)),
            Request::GiveUp(ticket) => Event::GiveUp(ticket, self.give_up(ticket)),
            Request::GroupSize(size) => Event::GroupSize(size, self.set_group_size(size)),
        }
    }

    // The requests, in order. Their answers are not kept; the report tells how many jobs came to what.
    #[tactic(auto, using(crate::proofs::Promising::list_promises, std::proofs::lemmas::List::drop_all))]
    pub fn submit_all(&mut self, requests: &[Request<M::Cell>])
        ensures book_after { after_all (W.WaitingRule.may self.old.rule) self.old.book requests.now ≡ self.new.book }
        ensures rule_kept { self.new.rule ≡ self.old.rule }
        ensures sound_before { BookSound M.Store.row D.Store.row self.old }
        ensures sound { BookSound M.Store.row D.Store.row self.new }
        ensures promises_kept { KeepsPromisesThrough (W.WaitingRule.may self.old.rule) requests.now self.old.book self.new.book }
    {
        // `len` says that the book is sound, for a list that is empty.
        let _ = self.len();
        for request in requests {
            let _ = self.submit(*request);
        }
    }
}
