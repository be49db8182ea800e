ghost use Rattle.std.specs.Prelude.{◌≡◌, [], ◌∷◌, OnErr, OnOk, length};
ghost use Rattle.schedule.specs.Reachable.{Sized};
ghost use Rattle.transcript.specs.Consoles.{BeginsTranscript, CompletesTranscript, ConsoleRunsOn, ConsoleSound, EndsInput, GoesOnBy, TakesPiece, TellsFront, taken_of};

use crate::answering::answer_line;
use arrayvec::ArrayVec;
use book::Book;
use std::alloc::AllocError;
use store::Store;
use waiting::WaitingRule;

// A book that is asked by lines of bytes, which come in pieces.
#[derive(Drop)]
pub struct Console<M: Store<Cell = i32>, D: Store<Cell = i32>, W: WaitingRule> {
    book: Book<M, D, W>,
    // the front of the line that goes on: of a longer line the first 36 bytes, which say the same, since no request line
    // has more than 35
    front: ArrayVec<u8, 36>,
}

// There was no memory for an answer: so many bytes of the piece were taken, and the rest waits to be fed again.
#[derive(Clone, Copy, PartialEq, Eq, Debug)]
pub struct NoMemory {
    pub taken: usize,
}

impl From<NoMemory> for AllocError {
    fn from(_: NoMemory) -> AllocError {
        AllocError
    }
}

impl<M: Store<Cell = i32>, D: Store<Cell = i32>, W: WaitingRule> Console<M, D, W> {
    // A console over a book, before any input.
    pub fn new(book: Book<M, D, W>) -> Console<M, D, W>
        ensures over_the_book { result.book ≡ book }
        ensures sound { ConsoleSound M.Store.row D.Store.row result }
        ensures no_line_begun { result.front.items ≡ [] }
        ensures transcript_begun { BeginsTranscript W.WaitingRule.may result }
    {
        Console {
            book,
            front: ArrayVec::new(),
        }
    }

    // The book, back from under the console.
    pub fn into_book(self) -> Book<M, D, W>
        ensures its_book { result ≡ self.book }
        ensures sound_before { ConsoleSound M.Store.row D.Store.row self }
    {
        let Console { book, front: _ } = self;
        book
    }

    // How many cells its book has.
    pub fn book_len(&self) -> usize
        ensures number_of_records { result ≡ length self.now.book.book.state.cells }
        ensures sized { Sized self.now.book.book }
        ensures sound { ConsoleSound M.Store.row D.Store.row self.now }
    {
        // The front says that it has at most 36 bytes.
        let _ = self.front.len();
        self.book.len()
    }

    // Answers the line that has come.
    #[tactic(auto, using(crate::proofs::Running::runs_still))]
    fn answer_front(&mut self, out: &mut Vec<u8>) -> Result<(), AllocError>
        ensures told { OnOk result (TellsFront W.WaitingRule.may self.old out.old.items self.new out.new.items) }
        ensures no_line_begun { OnOk result (self.new.front.items ≡ []) }
        ensures nothing_taken_on_error { OnErr result (TakesPiece W.WaitingRule.may self.old [] out.old.items self.new out.new.items) }
        ensures rule_kept { self.new.book.rule ≡ self.old.book.rule }
        ensures sound { ConsoleSound M.Store.row D.Store.row self.new }
        ensures serializable_without_deadlock { ConsoleRunsOn W.WaitingRule.may self.old self.new }
    {
        answer_line(&mut self.book, self.front.as_slice(), out)?;
        // A new one, since `clear` writes over each byte by a call.
        self.front = ArrayVec::new();
        Ok(())
    }

    // One byte: byte 10 ends the line, which is answered; any other goes on with it, and asks nothing of the book, so that this
    // keeps the console sound and doesn't say that it was.
    #[tactic(auto, using(crate::proofs::Running::runs_still))]
    fn take_byte(&mut self, byte: u8, out: &mut Vec<u8>) -> Result<(), AllocError>
        ensures taken { OnOk result (TakesPiece W.WaitingRule.may self.old (byte ∷ []) out.old.items self.new out.new.items) }
        ensures nothing_taken_on_error { OnErr result (TakesPiece W.WaitingRule.may self.old [] out.old.items self.new out.new.items) }
        ensures rule_kept { self.new.book.rule ≡ self.old.book.rule }
        ensures sound_kept { ConsoleSound M.Store.row D.Store.row self.old → ConsoleSound M.Store.row D.Store.row self.new }
        ensures serializable_without_deadlock { ConsoleRunsOn W.WaitingRule.may self.old self.new }
    {
        if byte == b'\n' {
            return self.answer_front(out);
        }
        // A front that is full is as good as the whole line.
        let _ = self.front.try_push(byte);
        Ok(())
    }

    // Takes a piece of the input: each line that ends in it is answered, and of the line that goes on the front is kept.
    // Where there is no memory for an answer, the bytes before its line's end have been taken, and no others.
    pub fn feed(&mut self, piece: &[u8], out: &mut Vec<u8>) -> Result<(), NoMemory>
        ensures taken { TakesPiece W.WaitingRule.may self.old (taken_of piece.now result) out.old.items self.new out.new.items }
        ensures transcript_so_far { GoesOnBy W.WaitingRule.may self.old (taken_of piece.now result) out.old.items self.new out.new.items }
        ensures rule_kept { self.new.book.rule ≡ self.old.book.rule }
        ensures sound_before { ConsoleSound M.Store.row D.Store.row self.old }
        ensures sound { ConsoleSound M.Store.row D.Store.row self.new }
        ensures serializable_without_deadlock { ConsoleRunsOn W.WaitingRule.may self.old self.new }
    {
        // `book_len` says that the console is sound, for a piece that ends no line.
        let _ = self.book_len();
        for (i, byte) in piece.iter().enumerate() {
            self.take_byte(*byte, out)
                .map_err(|_| NoMemory { taken: i })?;
        }
        Ok(())
    }

    // The input ends: a last line without byte 10 is answered, unless it is empty. Where there is no memory for the answer,
    // nothing has happened.
    #[tactic(auto, using(crate::proofs::Running::runs_still, crate::proofs::Pieces::ending))]
    pub fn finish(&mut self, out: &mut Vec<u8>) -> Result<(), AllocError>
        ensures ended { OnOk result (EndsInput W.WaitingRule.may self.old out.old.items self.new out.new.items) }
        ensures transcript_of_the_input { OnOk result (CompletesTranscript W.WaitingRule.may self.old out.old.items self.new out.new.items) }
        ensures nothing_taken_on_error { OnErr result (TakesPiece W.WaitingRule.may self.old [] out.old.items self.new out.new.items) }
        ensures transcript_so_far_on_error { OnErr result (GoesOnBy W.WaitingRule.may self.old [] out.old.items self.new out.new.items) }
        ensures rule_kept { self.new.book.rule ≡ self.old.book.rule }
        ensures sound_before { ConsoleSound M.Store.row D.Store.row self.old }
        ensures sound { ConsoleSound M.Store.row D.Store.row self.new }
        ensures serializable_without_deadlock { ConsoleRunsOn W.WaitingRule.may self.old self.new }
    {
        // `book_len` says that the console is sound, where no line is left.
        let _ = self.book_len();
        if self.front.is_empty() {
            return Ok(());
        }
        self.answer_front(out)
    }
}
