// Each call's promises follow from its step.
#![tactic(auto, using(crate::proofs::Promising::step_promises))]

ghost use Rattle.std.specs.Prelude.{◌≡◌, ◌+◌, length, Ok};
ghost use Rattle.engine.specs.Contents.{BookSound};
ghost use Rattle.engine.specs.Promises.{KeepsPromises, TellsTrue};
ghost use Rattle.schedule.specs.Books.{book_begin, book_end, book_give_up, book_group_size, book_read, book_write, carried, fetched};
ghost use Rattle.schedule.specs.Reachable.{Sized};
ghost use Rattle.schedule.specs.States.{report_of};
ghost use Rattle.store.specs.Rows.{cell_at};

use crate::engine::Engine;
use schedule::{Event, NotGranted, Refusal, Reply, Report, Source};
use store::{Outside, Store};
use waiting::WaitingRule;

impl<M: Store, D: Store<Cell = M::Cell>, W: WaitingRule> Engine<M, D, W> {
    // How many cells the book has.
    pub fn len(&self) -> usize
        ensures number_of_records { result ≡ length self.now.book.state.cells }
        ensures sized { Sized self.now.book }
        ensures sound { BookSound M.Store.row D.Store.row self.now }
    {
        self.ledger.len()
    }

    // A cell of the main store, as it lies there.
    pub fn main_cell(&self, cell: usize) -> Result<M::Cell, Outside>
        ensures cell_of_main_row { result ≡ cell_at self.now.book.main cell }
        ensures sound { BookSound M.Store.row D.Store.row self.now }
    {
        // `len` says that the book is sound, where nothing is asked of the ledger.
        let _ = self.len();
        self.main.get(cell)
    }

    pub fn begin(&mut self, class: u32) -> Result<(u32, u32, u32), Refusal>
        ensures answer_and_book_after { book_begin self.old.book class ≡ (result, self.new.book) }
        ensures rule_kept { self.new.rule ≡ self.old.rule }
        ensures sound_before { BookSound M.Store.row D.Store.row self.old }
        ensures sound { BookSound M.Store.row D.Store.row self.new }
        ensures promises_kept { KeepsPromises (W.WaitingRule.may self.old.rule) (Event.Begin class result) self.old.book self.new.book }
    {
        self.ledger.begin(class)
    }

    pub fn read(&mut self, ticket: u32, cell: u32) -> Reply<M::Cell>
        ensures answer_and_book_after { book_read (W.WaitingRule.may self.old.rule) self.old.book ticket cell ≡ (result, self.new.book) }
        ensures rule_kept { self.new.rule ≡ self.old.rule }
        ensures sound_before { BookSound M.Store.row D.Store.row self.old }
        ensures sound { BookSound M.Store.row D.Store.row self.new }
        ensures promises_kept { KeepsPromises (W.WaitingRule.may self.old.rule) (Event.Read ticket cell result) self.old.book self.new.book }
    {
        let source = self.ledger.read(&self.rule, ticket, cell)?;
        self.fetch(source, cell)
    }

    // The cell of the store that a granted read names.
    fn fetch(&self, source: Source, cell: u32) -> Reply<M::Cell>
        ensures reply { result ≡ fetched self.now.book.main self.now.book.draft cell (Ok source) }
    {
        let got = match source {
            Source::Main => self.main.get(cell as usize),
            Source::Draft => self.draft.get(cell as usize),
        };
        got.map_err(|_| NotGranted::Refused(Refusal::NoSuchCell))
    }

    pub fn write(&mut self, ticket: u32, cell: u32, new: M::Cell) -> Reply<()>
        ensures answer_and_book_after { book_write (W.WaitingRule.may self.old.rule) self.old.book ticket cell new ≡ (result, self.new.book) }
        ensures rule_kept { self.new.rule ≡ self.old.rule }
        ensures sound_before { BookSound M.Store.row D.Store.row self.old }
        ensures sound { BookSound M.Store.row D.Store.row self.new }
        ensures promises_kept { KeepsPromises (W.WaitingRule.may self.old.rule) (Event.Write ticket cell new result) self.old.book self.new.book }
    {
        self.ledger.write(&self.rule, ticket, cell)?;
        let _ = self.draft.put(cell as usize, new);
        Ok(())
    }

    // Each cell whose writer is the job in this row takes its draft cell.
    #[tactic(auto, using(crate::proofs::Carrying::one_more, crate::proofs::Sizes::put_keeps_length))]
    fn carry(&mut self, row: usize)
        ensures main_row_after { let cells = self.old.book.state.cells in self.new.book.main ≡ carried (length cells) cells row self.old.book.main self.old.book.draft }
        ensures draft_kept { self.new.draft ≡ self.old.draft }
        ensures state_kept { self.new.book.state ≡ self.old.book.state }
        ensures rule_kept { self.new.rule ≡ self.old.rule }
    {
        for cell in 0..self.ledger.len() {
            if self.ledger.is_written_by(cell, row)
                && let Ok(new) = self.draft.get(cell)
            {
                let _ = self.main.put(cell, new);
            }
        }
    }

    pub fn end(&mut self, ticket: u32) -> Result<(u32, u32), Refusal>
        ensures answer_and_book_after { book_end self.old.book ticket ≡ (result, self.new.book) }
        ensures rule_kept { self.new.rule ≡ self.old.rule }
        ensures sound_before { BookSound M.Store.row D.Store.row self.old }
        ensures sound { BookSound M.Store.row D.Store.row self.new }
        ensures promises_kept { KeepsPromises (W.WaitingRule.may self.old.rule) (Event.End ticket result) self.old.book self.new.book }
    {
        let ending = self.ledger.ending(ticket)?;
        self.carry(ending.row);
        self.ledger.end(ticket)
    }

    pub fn give_up(&mut self, ticket: u32) -> Result<(), Refusal>
        ensures answer_and_book_after { book_give_up self.old.book ticket ≡ (result, self.new.book) }
        ensures rule_kept { self.new.rule ≡ self.old.rule }
        ensures sound_before { BookSound M.Store.row D.Store.row self.old }
        ensures sound { BookSound M.Store.row D.Store.row self.new }
        ensures promises_kept { KeepsPromises (W.WaitingRule.may self.old.rule) (Event.GiveUp ticket result) self.old.book self.new.book }
    {
        self.ledger.give_up(ticket)
    }

    pub fn set_group_size(&mut self, size: u32) -> Result<u32, Refusal>
        ensures answer_and_book_after { book_group_size self.old.book size ≡ (result, self.new.book) }
        ensures rule_kept { self.new.rule ≡ self.old.rule }
        ensures sound_before { BookSound M.Store.row D.Store.row self.old }
        ensures sound { BookSound M.Store.row D.Store.row self.new }
        ensures promises_kept { KeepsPromises (W.WaitingRule.may self.old.rule) (Event.GroupSize size result) self.old.book self.new.book }
    {
        self.ledger.set_group_size(size)
    }

    #[tactic(auto, using(crate::proofs::Promising::report_promises))]
    pub fn report(&self) -> Report
        ensures figures { result ≡ report_of self.now.book.state }
        ensures sound { BookSound M.Store.row D.Store.row self.now }
        ensures begun_is_the_sum { result.begun ≡ result.ended + result.given_up + result.rejected + result.«open» }
        ensures promises_kept { TellsTrue (W.WaitingRule.may self.now.rule) self.now.book result }
    {
        self.ledger.report()
    }
}
