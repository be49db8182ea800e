// The engine's promises, opened here, are the clauses of these calls.
#![tactic(auto, unfolding(engine::specs::Promises::KeepsPromises, engine::specs::Promises::KeepsPromisesThrough))]

ghost use Rattle.std.specs.Prelude.{◌≡◌};
ghost use Rattle.engine.specs.Contents.{BookSound};
ghost use Rattle.theorem.specs.Calls.{KeepsSerializableThrough, after_all};
ghost use Rattle.theorem.specs.Theorem.{KeepsSerializable, step};

use crate::height_book::Book;
use schedule::{Event, Request};
use store::Store;
use waiting::WaitingRule;

impl<M: Store, D: Store<Cell = M::Cell>, W: WaitingRule> Book<M, D, W> {
    // Any request: the request with its answer.
    pub fn submit(&mut self, request: Request<M::Cell>) -> Event<M::Cell>
        ensures event_and_book_after { step (W.WaitingRule.may self.old.rule) self.old.book request ≡ (result, self.new.book) }
        ensures rule_kept { self.new.rule ≡ self.old.rule }
        ensures sound_before { BookSound M.Store.row D.Store.row self.old }
        ensures sound { BookSound M.Store.row D.Store.row self.new }
        ensures serializable_without_deadlock { KeepsSerializable (W.WaitingRule.may self.old.rule) result self.old.book self.new.book }
    {
        self.engine.submit(request)
    }

    // The requests, in order. Their answers are not kept; the report tells how many jobs came to what.
    pub fn submit_all(&mut self, requests: &[Request<M::Cell>])
        ensures book_after { after_all (W.WaitingRule.may self.old.rule) self.old.book requests.now ≡ self.new.book }
        ensures rule_kept { self.new.rule ≡ self.old.rule }
        ensures sound_before { BookSound M.Store.row D.Store.row self.old }
        ensures sound { BookSound M.Store.row D.Store.row self.new }
        ensures serializable_without_deadlock { KeepsSerializableThrough (W.WaitingRule.may self.old.rule) requests.now self.old.book self.new.book }
    {
        self.engine.submit_all(requests);
    }
}
