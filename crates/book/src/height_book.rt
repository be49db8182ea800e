use engine::Engine;
use std::marker::Model;
use store::Store;
use waiting::WaitingRule;

// A height book: a row of up to 256 cells with a scheduler in front. No call hands out its stores, its rule or its ledger
// for change; closing it hands the stores and the rule back.
#[derive(Drop)]
pub struct Book<M: Store, D: Store<Cell = M::Cell>, W: WaitingRule> {
    pub(crate) engine: Engine<M, D, W>,
}

// A clause sees of it what it sees of the engine.
impl<M: Store, D: Store<Cell = M::Cell>, W: WaitingRule> Model for Book<M, D, W> {
    ghost use Rattle.engine.specs.Contents.{Contents};

    ghost Value = { Contents M D W M.Cell };

    ghost view = { λ b. b.engine };
}
