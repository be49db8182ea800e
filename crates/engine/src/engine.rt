use ledger::Ledger;
use std::marker::Model;
use store::Store;
use waiting::WaitingRule;

// A book: a main store with the cells, a draft store with what open jobs have written, a waiting rule, and the ledger.
#[derive(Drop)]
pub struct Engine<M: Store, D: Store<Cell = M::Cell>, W: WaitingRule> {
    pub(crate) main: M,
    pub(crate) draft: D,
    pub(crate) rule: W,
    pub(crate) ledger: Ledger,
}

// A clause sees the two stores, the rule, and the book that they make with the ledger, which has as many records as the
// least of both stores' lengths and 256.
impl<M: Store, D: Store<Cell = M::Cell>, W: WaitingRule> Model for Engine<M, D, W> {
    ghost use Rattle.engine.specs.Contents.{Contents};

    ghost Value = { Contents M D W M.Cell };

    ghost use Rattle.schedule.specs.Books.{book};
    ghost use Rattle.schedule.specs.Reachable.{Sized};

    ghost view = { λ e. record { main = e.main; draft = e.draft; rule = e.rule; book = book (M.Store.row e.main) (D.Store.row e.draft) e.ledger } };

    ghost invariant = { λ e. Sized (book (M.Store.row e.main) (D.Store.row e.draft) e.ledger) };
}
