ghost use Rattle.std.specs.Prelude.{◌≡◌, OnErr, OnOk};
ghost use Rattle.engine.specs.Contents.{BookSound};
ghost use Rattle.transcript.specs.Answering.{AnswersLine, AnswersSo, KeepsSerializableByLine, RunsOn};
ghost use Rattle.transcript.specs.Lines.{Told};

use answer_line::{Answer, append_line};
use book::Book;
use request_line::read_request;
use std::alloc::AllocError;
use store::Store;
use waiting::WaitingRule;

// A line of bytes is answered by a line of text, which is appended. Where there is no memory for the answer, nothing has
// happened: there is room for it before the line is carried out.
#[tactic(auto, using(crate::proofs::Running::runs_still))]
pub fn answer_line<M: Store<Cell = i32>, D: Store<Cell = i32>, W: WaitingRule>(
    book: &mut Book<M, D, W>,
    line: &[u8],
    out: &mut Vec<u8>,
) -> Result<(), AllocError>
    ensures answered { OnOk result (Told (AnswersLine (W.WaitingRule.may book.old.rule)) book.old.book line.now out.old.items book.new.book out.new.items) }
    ensures nothing_told_on_error { OnErr result (out.new.items ≡ out.old.items) }
    ensures book_kept_on_error { OnErr result (book.new.book ≡ book.old.book) }
    ensures rule_kept { book.new.rule ≡ book.old.rule }
    ensures sound_before { BookSound M.Store.row D.Store.row book.old }
    ensures sound { BookSound M.Store.row D.Store.row book.new }
    ensures serializable_without_deadlock { OnOk result (KeepsSerializableByLine (W.WaitingRule.may book.old.rule) line.now book.old.book book.new.book) }
    ensures run_goes_on { RunsOn (W.WaitingRule.may book.old.rule) book.old.book book.new.book }
{
    // `len` says that the book is sound, where nothing else is asked of it.
    let _ = book.len();
    out.reserve(64)?;
    let answer = carry_out(book, line);
    append_line(&answer, out)
}

// What the line is answered: its request by the book, or that it is none.
#[tactic(auto, using(crate::proofs::Running::runs_still))]
fn carry_out<M: Store<Cell = i32>, D: Store<Cell = i32>, W: WaitingRule>(
    book: &mut Book<M, D, W>,
    line: &[u8],
) -> Answer
    ensures answer_and_book_after { AnswersSo (W.WaitingRule.may book.old.rule) line.now book.old.book result book.new.book }
    ensures rule_kept { book.new.rule ≡ book.old.rule }
    ensures sound { BookSound M.Store.row D.Store.row book.new }
    ensures serializable_without_deadlock { KeepsSerializableByLine (W.WaitingRule.may book.old.rule) line.now book.old.book book.new.book }
    ensures run_goes_on { RunsOn (W.WaitingRule.may book.old.rule) book.old.book book.new.book }
{
    // `len` says that the book is sound, for a line that is no request.
    let _ = book.len();
    match read_request(line) {
        Ok(request) => Answer::from(book.submit(request)),
        Err(place) => Answer::NoRequest(place),
    }
}
