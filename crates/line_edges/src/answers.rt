// The lines of answers, of each kind and at the ends of its numbers.
use answer_line::{Answer, append_line};
use schedule::{Refusal, Rejection};
use std::process::Abort;
use std::test::Fail;

// The answers' lines, one after another.
fn check_lines(
    rt: &(impl Abort + AllocGlobal),
    answers: &[Answer],
    expected: &[u8],
) -> Result<(), Fail> {
    let mut out = Vec::new(rt.alloc());
    for answer in answers {
        append_line(answer, &mut out)?;
    }
    assert!(rt; out.as_slice() == expected);
    Ok(())
}

#[test]
fn granted(rt: HostRuntime) -> Result<(), Fail> {
    let answers = [
        Answer::Begun(1, 1, 8),
        Answer::Written,
        Answer::Ended(12, 305),
        Answer::GivenUp,
        Answer::GroupSize(1000000),
        Answer::Wait(17),
    ];
    check_lines(&rt, &answers, b"T 1 1 8\nK\nE 12 305\nU\nL 1000000\nY 17\n")
}

#[test]
fn largest_and_least_numbers(rt: HostRuntime) -> Result<(), Fail> {
    let answers = [
        Answer::Begun(4294967295, 4294967295, 4294967295),
        Answer::Begun(0, 0, 0),
        Answer::Ended(4294967295, 0),
    ];
    check_lines(
        &rt,
        &answers,
        b"T 4294967295 4294967295 4294967295\nT 0 0 0\nE 4294967295 0\n",
    )
}

#[test]
fn heights(rt: HostRuntime) -> Result<(), Fail> {
    let answers = [
        Answer::Cell(0),
        Answer::Cell(-1),
        Answer::Cell(2147483647),
        Answer::Cell(-2147483648),
    ];
    check_lines(&rt, &answers, b"V 0\nV -1\nV 2147483647\nV -2147483648\n")
}

#[test]
fn rejections_name_a_group_or_a_ticket(rt: HostRuntime) -> Result<(), Fail> {
    let answers = [
        Answer::Rejected(Rejection::TooLate(41)),
        Answer::Rejected(Rejection::MayNotWait(1000000)),
    ];
    check_lines(&rt, &answers, b"N 7 41\nN 8 1000000\n")
}

#[test]
fn refusals_name_nothing(rt: HostRuntime) -> Result<(), Fail> {
    let answers = [
        Answer::Refused(Refusal::NoSuchClass),
        Answer::Refused(Refusal::TicketsSpent),
        Answer::Refused(Refusal::BookFull),
        Answer::Refused(Refusal::NoOpenJob),
        Answer::Refused(Refusal::NoSuchCell),
        Answer::Refused(Refusal::JobWaits),
        Answer::Refused(Refusal::NoSuchGroupSize),
    ];
    check_lines(
        &rt,
        &answers,
        b"N 1 0\nN 2 0\nN 3 0\nN 4 0\nN 5 0\nN 6 0\nN 9 0\n",
    )
}

#[test]
fn no_request_names_its_place(rt: HostRuntime) -> Result<(), Fail> {
    let answers = [
        Answer::NoRequest(0),
        Answer::NoRequest(18446744073709551615),
    ];
    check_lines(&rt, &answers, b"N 10 0\nN 10 18446744073709551615\n")
}
