// The engine's promises, opened here, are the clauses of these calls.
#![tactic(auto, unfolding(engine::specs::Promises::KeepsPromises, engine::specs::Promises::StartsPromises, engine::specs::Promises::TellsTrue))]

ghost use Rattle.std.specs.Prelude.{◌≡◌, ◌+◌, length, IfErr, IfOk};
ghost use Rattle.engine.specs.Contents.{BookSound};
ghost use Rattle.engine.specs.Promises.{PastTheEndExactly};
ghost use Rattle.schedule.specs.Books.{book_begin, book_end, book_give_up, book_group_size, book_read, book_write, fresh_book};
ghost use Rattle.schedule.specs.Promises.{ErrorKeeps, OutsideExactly, RefusalKeeps, RejectionCloses};
ghost use Rattle.schedule.specs.Reachable.{Sized};
ghost use Rattle.schedule.specs.States.{report_of};
ghost use Rattle.store.specs.Rows.{cell_at};
ghost use Rattle.theorem.specs.Calls.{StartsSerializable};
ghost use Rattle.theorem.specs.Reports.{ReportsWhatWasTold};
ghost use Rattle.theorem.specs.Theorem.{KeepsSerializable};

use crate::height_book::Book;
use engine::{Engine, Unopened};
use schedule::{Event, Refusal, Reply, Report};
use std::alloc::Global;
use store::{Outside, Store};
use waiting::WaitingRule;

impl<M: Store, D: Store<Cell = M::Cell>, W: WaitingRule> Book<M, D, W> {
    // A fresh book over two stores and a rule: as many cells as the least of both lengths and 256, all marks 0, no job,
    // group 1 with no members, group size 8. Where there is no memory, the stores and the rule come back.
    pub fn open(
        alloc: Global,
        main: M,
        draft: D,
        rule: W,
    ) -> Result<Book<M, D, W>, Unopened<M, D, W>>
        ensures fresh { IfOk result (λ b. b.book ≡ fresh_book (M.Store.row main) (D.Store.row draft)) }
        ensures main_kept { IfOk result (λ b. b.main ≡ main) }
        ensures draft_kept { IfOk result (λ b. b.draft ≡ draft) }
        ensures rule_kept { IfOk result (λ b. b.rule ≡ rule) }
        ensures sound { IfOk result (BookSound M.Store.row D.Store.row) }
        ensures handed_back { IfErr result (λ u. u ≡ record { main = main; draft = draft; rule = rule }) }
        ensures starts_serializable { IfOk result (λ b. StartsSerializable (W.WaitingRule.may rule) (M.Store.row main) b.book) }
    {
        let engine = Engine::open(alloc, main, draft, rule)?;
        Ok(Book { engine })
    }

    // The two stores and the rule, back from under the book.
    pub fn close(self) -> (M, D, W)
        ensures stores_and_rule { result ≡ (self.main, self.draft, self.rule) }
        ensures main_row { M.Store.row result.0 ≡ self.book.main }
        ensures draft_row { D.Store.row result.1 ≡ self.book.draft }
        ensures sound_before { BookSound M.Store.row D.Store.row self }
    {
        let Book { engine } = self;
        engine.close()
    }

    // How many cells the book has.
    pub fn len(&self) -> usize
        ensures number_of_records { result ≡ length self.now.book.state.cells }
        ensures sized { Sized self.now.book }
        ensures sound { BookSound M.Store.row D.Store.row self.now }
    {
        self.engine.len()
    }

    // A cell of the main store, as it lies there: what ended jobs have left.
    pub fn main_cell(&self, cell: usize) -> Result<M::Cell, Outside>
        ensures cell_of_main_row { result ≡ cell_at self.now.book.main cell }
        ensures sound { BookSound M.Store.row D.Store.row self.now }
    {
        self.engine.main_cell(cell)
    }

    // The jobs so far: begun, ended, given up, rejected, open. Over every run these are the figures that the answers told.
    pub fn report(&self) -> Report
        ensures figures { result ≡ report_of self.now.book.state }
        ensures sound { BookSound M.Store.row D.Store.row self.now }
        ensures begun_is_the_sum { result.begun ≡ result.ended + result.given_up + result.rejected + result.«open» }
        ensures figures_as_told { ReportsWhatWasTold (W.WaitingRule.may self.now.rule) self.now.book result }
    {
        self.engine.report()
    }

    // A job begins: its ticket, its group and its place in the group.
    pub fn begin(&mut self, class: u32) -> Result<(u32, u32, u32), Refusal>
        ensures answer_and_book_after { book_begin self.old.book class ≡ (result, self.new.book) }
        ensures rule_kept { self.new.rule ≡ self.old.rule }
        ensures sound_before { BookSound M.Store.row D.Store.row self.old }
        ensures sound { BookSound M.Store.row D.Store.row self.new }
        ensures refusal_changes_nothing { ErrorKeeps result self.old.book self.new.book }
        ensures serializable_without_deadlock { KeepsSerializable (W.WaitingRule.may self.old.rule) (Event.Begin class result) self.old.book self.new.book }
    {
        self.engine.begin(class)
    }

    // A job reads a cell.
    pub fn read(&mut self, ticket: u32, cell: u32) -> Reply<M::Cell>
        ensures answer_and_book_after { book_read (W.WaitingRule.may self.old.rule) self.old.book ticket cell ≡ (result, self.new.book) }
        ensures rule_kept { self.new.rule ≡ self.old.rule }
        ensures sound_before { BookSound M.Store.row D.Store.row self.old }
        ensures sound { BookSound M.Store.row D.Store.row self.new }
        ensures refusal_changes_nothing { RefusalKeeps result self.old.book self.new.book }
        ensures rejection_closes_that_job_alone { RejectionCloses ticket result self.old.book self.new.book }
        ensures no_such_cell_exactly_outside { OutsideExactly (W.WaitingRule.may self.old.rule) self.old.book ticket cell result }
        ensures no_such_cell_exactly_past_the_end { PastTheEndExactly self.old.book ticket cell result }
        ensures serializable_without_deadlock { KeepsSerializable (W.WaitingRule.may self.old.rule) (Event.Read ticket cell result) self.old.book self.new.book }
    {
        self.engine.read(ticket, cell)
    }

    // A job writes a cell: into the draft store, until it ends.
    pub fn write(&mut self, ticket: u32, cell: u32, new: M::Cell) -> Reply<()>
        ensures answer_and_book_after { book_write (W.WaitingRule.may self.old.rule) self.old.book ticket cell new ≡ (result, self.new.book) }
        ensures rule_kept { self.new.rule ≡ self.old.rule }
        ensures sound_before { BookSound M.Store.row D.Store.row self.old }
        ensures sound { BookSound M.Store.row D.Store.row self.new }
        ensures refusal_changes_nothing { RefusalKeeps result self.old.book self.new.book }
        ensures rejection_closes_that_job_alone { RejectionCloses ticket result self.old.book self.new.book }
        ensures no_such_cell_exactly_outside { OutsideExactly (W.WaitingRule.may self.old.rule) self.old.book ticket cell result }
        ensures no_such_cell_exactly_past_the_end { PastTheEndExactly self.old.book ticket cell result }
        ensures serializable_without_deadlock { KeepsSerializable (W.WaitingRule.may self.old.rule) (Event.Write ticket cell new result) self.old.book self.new.book }
    {
        self.engine.write(ticket, cell, new)
    }

    // A job ends, and what it wrote is kept: its group and the number of its end.
    pub fn end(&mut self, ticket: u32) -> Result<(u32, u32), Refusal>
        ensures answer_and_book_after { book_end self.old.book ticket ≡ (result, self.new.book) }
        ensures rule_kept { self.new.rule ≡ self.old.rule }
        ensures sound_before { BookSound M.Store.row D.Store.row self.old }
        ensures sound { BookSound M.Store.row D.Store.row self.new }
        ensures refusal_changes_nothing { ErrorKeeps result self.old.book self.new.book }
        ensures serializable_without_deadlock { KeepsSerializable (W.WaitingRule.may self.old.rule) (Event.End ticket result) self.old.book self.new.book }
    {
        self.engine.end(ticket)
    }

    // A group takes this many jobs, from the next begin on; no job changes its group.
    pub fn set_group_size(&mut self, size: u32) -> Result<u32, Refusal>
        ensures answer_and_book_after { book_group_size self.old.book size ≡ (result, self.new.book) }
        ensures rule_kept { self.new.rule ≡ self.old.rule }
        ensures sound_before { BookSound M.Store.row D.Store.row self.old }
        ensures sound { BookSound M.Store.row D.Store.row self.new }
        ensures refusal_changes_nothing { ErrorKeeps result self.old.book self.new.book }
        ensures serializable_without_deadlock { KeepsSerializable (W.WaitingRule.may self.old.rule) (Event.GroupSize size result) self.old.book self.new.book }
    {
        self.engine.set_group_size(size)
    }

    // A job gives up, also while it waits; no cell changes.
    pub fn give_up(&mut self, ticket: u32) -> Result<(), Refusal>
        ensures answer_and_book_after { book_give_up self.old.book ticket ≡ (result, self.new.book) }
        ensures rule_kept { self.new.rule ≡ self.old.rule }
        ensures sound_before { BookSound M.Store.row D.Store.row self.old }
        ensures sound { BookSound M.Store.row D.Store.row self.new }
        ensures refusal_changes_nothing { ErrorKeeps result self.old.book self.new.book }
        ensures serializable_without_deadlock { KeepsSerializable (W.WaitingRule.may self.old.rule) (Event.GiveUp ticket result) self.old.book self.new.book }
    {
        self.engine.give_up(ticket)
    }
}
