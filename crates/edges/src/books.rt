// The edges of a book: of 8 cells of 0 under the rule elder.
mod pieces;

use book::Book;
use schedule::{NotGranted, Refusal, Rejection};
use std::alloc::{AllocError, Global};
use std::process::Abort;
use std::test::Fail;
use store::Memory;
use waiting::Elder;

type TestBook<'a> = Book<Memory<'a, i32>, Memory<'a, i32>, Elder>;

fn opened<'a>(
    alloc: Global,
    main: &'a mut [i32],
    draft: &'a mut [i32],
) -> Result<TestBook<'a>, AllocError> {
    Ok(Book::open(alloc, Memory::new(main), Memory::new(draft), Elder)?)
}

// Tries a book whose drafts are written here, and closes it.
fn with_book<F: FnOnce(&mut TestBook<'_>)>(
    rt: &HostRuntime,
    draft: &mut [i32],
    trial: F,
) -> Result<(), Fail>
    requires { F.IsAlwaysCallable trial }
{
    let mut main = [0i32; 8];
    let mut book = opened(rt.alloc(), &mut main, draft)?;
    trial(&mut book);
    let (_, _, _) = book.close();
    Ok(())
}

fn fill(rt: &impl Abort, book: &mut TestBook<'_>) {
    for _ in 0..32 {
        assert!(rt; book.begin(0).is_ok());
    }
}

#[test]
fn thirty_two_jobs_at_the_most(rt: HostRuntime) -> Result<(), Fail> {
    with_book(&rt, &mut [0; 8], |book| {
        fill(&rt, book);
        assert_eq!(rt; book.begin(0), Err(Refusal::BookFull));
        assert_eq!(rt; book.give_up(7), Ok(()));
        assert_eq!(rt; book.begin(3), Ok((33, 5, 1)));
    })
}

#[test]
fn cells_below_the_size_and_no_others(rt: HostRuntime) -> Result<(), Fail> {
    with_book(&rt, &mut [0; 9], |book| {
        assert_eq!(rt; book.begin(4), Err(Refusal::NoSuchClass));
        assert_eq!(rt; book.begin(3), Ok((1, 1, 1)));
        assert_eq!(rt; book.read(1, 7), Ok(0));
        assert_eq!(rt;
            book.read(1, 8),
            Err(NotGranted::Refused(Refusal::NoSuchCell))
        );
        assert_eq!(rt;
            book.write(1, 8, 5),
            Err(NotGranted::Refused(Refusal::NoSuchCell))
        );
        assert_eq!(rt;
            book.read(2, 8),
            Err(NotGranted::Refused(Refusal::NoOpenJob))
        );
    })
}

#[test]
fn a_job_reads_its_own_draft(rt: HostRuntime) -> Result<(), Fail> {
    with_book(&rt, &mut [0; 8], |book| {
        assert_eq!(rt; book.begin(0), Ok((1, 1, 1)));
        assert_eq!(rt; book.read(1, 0), Ok(0));
        assert_eq!(rt; book.write(1, 0, 5), Ok(()));
        assert_eq!(rt; book.read(1, 0), Ok(5));
        assert_eq!(rt; book.main_cell(0), Ok(0));
        assert_eq!(rt; book.end(1), Ok((1, 1)));
        assert_eq!(rt; book.main_cell(0), Ok(5));
    })
}

fn wait_lifted(rt: &impl Abort, book: &mut TestBook<'_>) {
    assert!(rt; book.begin(0).is_ok() && book.begin(0).is_ok());
    assert_eq!(rt; book.read(2, 0), Ok(0));
    assert_eq!(rt; book.write(1, 0, 5), Err(NotGranted::Wait(2)));
    assert_eq!(rt;
        book.read(1, 0),
        Err(NotGranted::Refused(Refusal::JobWaits))
    );
    assert_eq!(rt; book.end(1), Err(Refusal::JobWaits));
    assert_eq!(rt; book.end(2), Ok((1, 1)));
    assert_eq!(rt; book.end(1), Ok((1, 2)));
}

fn wait_forbidden(rt: &impl Abort, book: &mut TestBook<'_>) {
    assert!(rt; book.begin(0).is_ok() && book.begin(0).is_ok());
    assert_eq!(rt; book.read(3, 1), Ok(0));
    assert_eq!(rt;
        book.write(4, 1, 5),
        Err(NotGranted::Rejected(Rejection::MayNotWait(3)))
    );
    assert_eq!(rt; book.end(4), Err(Refusal::NoOpenJob));
}

#[test]
fn a_wait_is_lifted_when_the_named_job_ends(rt: HostRuntime) -> Result<(), Fail> {
    with_book(&rt, &mut [0; 8], |book| {
        wait_lifted(&rt, book);
        wait_forbidden(&rt, book);
    })
}
