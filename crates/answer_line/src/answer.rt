ghost use Rattle.std.specs.Prelude.{◌≡◌};
ghost use Rattle.answer_line.specs.Answers.{answer_to, why_not};

use schedule::{Event, NotGranted, Refusal, Rejection};

// The answer to a line: to the request that it holds, or that it holds none.
#[derive(Clone, Copy, PartialEq, Eq, Debug)]
pub enum Answer {
    // ticket, group and place
    Begun(u32, u32, u32),
    // the height that was read
    Cell(i32),
    Written,
    // group and end number
    Ended(u32, u32),
    GivenUp,
    // how many jobs a group takes from now on
    GroupSize(u32),
    // the ticket of the job to wait for
    Wait(u32),
    Rejected(Rejection),
    Refused(Refusal),
    // the line is no request: the place of its first wrong byte
    NoRequest(usize),
}

// Why a request is not granted is its answer.
impl From<NotGranted> for Answer {
    ghost from_gives = { λ why answer. answer ≡ why_not why };

    fn from(why: NotGranted) -> Answer
        ensures answer { result ≡ why_not why }
    {
        match why {
            NotGranted::Wait(ticket) => Answer::Wait(ticket),
            NotGranted::Rejected(rejection) => Answer::Rejected(rejection),
            NotGranted::Refused(refusal) => Answer::Refused(refusal),
        }
    }
}

// The answer that an event tells of: what was granted, or why nothing was.
impl From<Event<i32>> for Answer {
    ghost from_gives = { λ event answer. answer ≡ answer_to event };

    fn from(event: Event<i32>) -> Answer
        ensures answer { result ≡ answer_to event }
    {
        match event {
            Event::Begin(_, Ok((ticket, group, place))) => Answer::Begun(ticket, group, place),
            Event::Read(_, _, Ok(height)) => Answer::Cell(height),
            Event::Write(_, _, _, Ok(())) => Answer::Written,
            Event::End(_, Ok((group, end))) => Answer::Ended(group, end),
            Event::GiveUp(_, Ok(())) => Answer::GivenUp,
            Event::GroupSize(_, Ok(size)) => Answer::GroupSize(size),
            Event::Read(_, _, Err(why)) | Event::Write(_, _, _, Err(why)) => why.into(),
            Event::Begin(_, Err(refusal))
            | Event::End(_, Err(refusal))
            | Event::GiveUp(_, Err(refusal))
            | Event::GroupSize(_, Err(refusal)) => Answer::Refused(refusal),
        }
    }
}
