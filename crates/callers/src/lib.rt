// What a caller in another crate gets of the clauses `sound_before` and `sound` of a ledger, a book and a console, most of which
// it only borrows. No program runs these functions; they are proved. Each promises the whole step of its call besides, so that
// no other call would do.
#![tactic(auto)]

ghost use Rattle.std.specs.Prelude.{◌≡◌, ◌≤◌, length, IfSome};
ghost use Rattle.schedule.specs.Books.{fresh_book};
ghost use Rattle.schedule.specs.Steps.{begin_step};
ghost use Rattle.theorem.specs.Calls.{after_all};
ghost use Rattle.theorem.specs.Theorem.{step};
ghost use Rattle.transcript.specs.Consoles.{TakesPiece, taken_of};

use book::Book;
use ledger::Ledger;
use schedule::{Event, Refusal, Request};
use std::alloc::Global;
use store::Store;
use transcript::{Console, NoMemory};
use waiting::WaitingRule;

// A ledger is asked for its length: it has at most 32 rows of jobs.
pub fn length_asked(ledger: &Ledger) -> usize
    ensures cell_count { result ≡ length ledger.now.cells }
    ensures few_rows { length ledger.now.jobs ≤ 32 }
{
    ledger.len()
}

// A job begins in a ledger, which has at most 32 rows of jobs before and after.
pub fn job_begun(ledger: &mut Ledger, class: u32) -> Result<(u32, u32, u32), Refusal>
    ensures answer_and_state_after { begin_step ledger.old class ≡ (result, ledger.new) }
    ensures few_rows_before { length ledger.old.jobs ≤ 32 }
    ensures few_rows { length ledger.new.jobs ≤ 32 }
{
    ledger.begin(class)
}

// A book takes a request. Before and after, its rows are those of its stores, and it has at most 32 rows of jobs.
pub fn request_taken<M: Store, D: Store<Cell = M::Cell>, W: WaitingRule>(
    book: &mut Book<M, D, W>,
    request: Request<M::Cell>,
) -> Event<M::Cell>
    ensures event_and_book_after { step (W.WaitingRule.may book.old.rule) book.old.book request ≡ (result, book.new.book) }
    ensures rule_kept { book.new.rule ≡ book.old.rule }
    ensures main_row_before { M.Store.row book.old.main ≡ book.old.book.main }
    ensures main_row { M.Store.row book.new.main ≡ book.new.book.main }
    ensures draft_row_before { D.Store.row book.old.draft ≡ book.old.book.draft }
    ensures draft_row { D.Store.row book.new.draft ≡ book.new.book.draft }
    ensures few_rows_before { length book.old.book.state.jobs ≤ 32 }
    ensures few_rows { length book.new.book.state.jobs ≤ 32 }
{
    book.submit(request)
}

// A console that is borrowed is asked for the length of its book: what it keeps of a line has at most 36 bytes.
pub fn book_length_asked<M: Store<Cell = i32>, D: Store<Cell = i32>, W: WaitingRule>(
    console: &Console<M, D, W>,
) -> usize
    ensures cell_count { result ≡ length console.now.book.book.state.cells }
    ensures main_row { M.Store.row console.now.book.main ≡ console.now.book.book.main }
    ensures few_rows { length console.now.book.book.state.jobs ≤ 32 }
    ensures front_fits { length console.now.front.items ≤ 36 }
{
    console.book_len()
}

// A console takes a piece of its input. Before and after, the rows of its book are those of the stores, and what it keeps of a
// line has at most 36 bytes.
pub fn piece_taken<M: Store<Cell = i32>, D: Store<Cell = i32>, W: WaitingRule>(
    console: &mut Console<M, D, W>,
    piece: &[u8],
    out: &mut Vec<u8>,
) -> Result<(), NoMemory>
    ensures taken { TakesPiece W.WaitingRule.may console.old (taken_of piece.now result) out.old.items console.new out.new.items }
    ensures rule_kept { console.new.book.rule ≡ console.old.book.rule }
    ensures main_row_before { M.Store.row console.old.book.main ≡ console.old.book.book.main }
    ensures main_row { M.Store.row console.new.book.main ≡ console.new.book.book.main }
    ensures draft_row_before { D.Store.row console.old.book.draft ≡ console.old.book.book.draft }
    ensures draft_row { D.Store.row console.new.book.draft ≡ console.new.book.book.draft }
    ensures front_fits_before { length console.old.front.items ≤ 36 }
    ensures front_fits { length console.new.front.items ≤ 36 }
{
    console.feed(piece, out)
}

// A book is opened, takes the requests and is closed: the stores that come back have the rows that the requests lead to.
pub fn run_and_closed<M: Store + Drop, D: Store<Cell = M::Cell> + Drop, W: WaitingRule + Drop>(
    alloc: Global,
    main: M,
    draft: D,
    rule: W,
    requests: &[Request<M::Cell>],
) -> Option<(M, D, W)>
    ensures main_row_of_the_run { IfSome result (λ p. M.Store.row p.0 ≡ (after_all (W.WaitingRule.may rule) (fresh_book (M.Store.row main) (D.Store.row draft)) requests.now).main) }
    ensures draft_row_of_the_run { IfSome result (λ p. D.Store.row p.1 ≡ (after_all (W.WaitingRule.may rule) (fresh_book (M.Store.row main) (D.Store.row draft)) requests.now).draft) }
    ensures rule_handed_back { IfSome result (λ p. p.2 ≡ rule) }
{
    let mut book = Book::open(alloc, main, draft, rule).ok()?;
    book.submit_all(requests);
    Some(book.close())
}
