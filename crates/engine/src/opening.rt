ghost use Rattle.std.specs.Prelude.{◌≡◌, IfErr, IfOk};
ghost use Rattle.engine.specs.Contents.{BookSound};
ghost use Rattle.engine.specs.Promises.{StartsPromises};
ghost use Rattle.schedule.specs.Books.{fresh_book};

use crate::engine::Engine;
use ledger::Ledger;
use std::alloc::{AllocError, Global};
use store::Store;
use waiting::WaitingRule;

// What is handed back where there is no memory for a book: the two stores and the rule.
#[derive(Drop)]
pub struct Unopened<M, D, W> {
    pub main: M,
    pub draft: D,
    pub rule: W,
}

// Who does not want the stores and the rule back passes on that there is no memory.
impl<M: Drop, D: Drop, W: Drop> From<Unopened<M, D, W>> for AllocError {
    fn from(_unopened: Unopened<M, D, W>) -> AllocError {
        AllocError
    }
}

impl<M: Store, D: Store<Cell = M::Cell>, W: WaitingRule> Engine<M, D, W> {
    // A fresh book over two stores and a rule.
    #[tactic(auto, using(crate::proofs::Promising::opening_promises))]
    pub fn open(
        alloc: Global,
        main: M,
        draft: D,
        rule: W,
    ) -> Result<Engine<M, D, W>, Unopened<M, D, W>>
        ensures fresh { IfOk result (λ e. e.book ≡ fresh_book (M.Store.row main) (D.Store.row draft)) }
        ensures main_kept { IfOk result (λ e. e.main ≡ main) }
        ensures draft_kept { IfOk result (λ e. e.draft ≡ draft) }
        ensures rule_kept { IfOk result (λ e. e.rule ≡ rule) }
        ensures sound { IfOk result (BookSound M.Store.row D.Store.row) }
        ensures handed_back { IfErr result (λ u. u ≡ record { main = main; draft = draft; rule = rule }) }
        ensures promises_kept { IfOk result (λ e. StartsPromises (W.WaitingRule.may rule) (M.Store.row main) e.book) }
    {
        let size = main.len().min(draft.len()).min(256);
        let Ok(ledger) = Ledger::fresh(alloc, size) else {
            return Err(Unopened { main, draft, rule });
        };
        Ok(Engine {
            main,
            draft,
            rule,
            ledger,
        })
    }

    // The two stores and the rule, back from under the book.
    pub fn close(self) -> (M, D, W)
        ensures stores_and_rule { result ≡ (self.main, self.draft, self.rule) }
        ensures main_row { M.Store.row result.0 ≡ self.book.main }
        ensures draft_row { D.Store.row result.1 ≡ self.book.draft }
        ensures sound_before { BookSound M.Store.row D.Store.row self }
    {
        let Engine {
            main,
            draft,
            rule,
            ledger,
        } = self;
        drop(ledger);
        (main, draft, rule)
    }
}
