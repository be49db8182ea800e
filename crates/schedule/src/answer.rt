ghost use Rattle.std.specs.Prelude.{◌≡◌};
ghost use Rattle.schedule.specs.Answers.{refusal_number, rejection_detail, rejection_number};

use waiting::NoSuchClass;

// Why a request is refused, with the number of the refusal. A refusal changes nothing.
#[derive(Clone, Copy, PartialEq, Eq, Debug)]
pub enum Refusal {
    // the class is above 3
    NoSuchClass = 1,
    // a million tickets have been given
    TicketsSpent = 2,
    // thirty-two jobs are open
    BookFull = 3,
    // the ticket is of no open job
    NoOpenJob = 4,
    // the cell number is not below the book's size
    NoSuchCell = 5,
    // the job waits for another request
    JobWaits = 6,
    // the group size is 0 or above a million
    NoSuchGroupSize = 9,
}

// Why a read or a write is rejected. A rejection closes the job.
#[derive(Clone, Copy, PartialEq, Eq, Debug)]
pub enum Rejection {
    // a later group has been there already: the largest such group
    TooLate(u32),
    // the waiting rule forbids to wait for a job of the same group: the ticket of that job
    MayNotWait(u32),
}

// What a read or a write gets that is not granted.
#[derive(Clone, Copy, PartialEq, Eq, Debug)]
pub enum NotGranted {
    // the job is to repeat its request once the job with this ticket is out of its way
    Wait(u32),
    Rejected(Rejection),
    Refused(Refusal),
}

// What a read or a write gets: a T where it is granted.
pub type Reply<T> = Result<T, NotGranted>;

impl From<Refusal> for NotGranted {
    ghost use Rattle.std.specs.Prelude.{◌≡◌};
    ghost use Rattle.schedule.specs.declared.answer.NotGranted.TheVariants.{Refused};

    ghost from_gives = { λ why answer. answer ≡ Refused why };

    fn from(why: Refusal) -> NotGranted {
        NotGranted::Refused(why)
    }
}

impl From<NoSuchClass> for Refusal {
    ghost use Rattle.std.specs.Prelude.{◌≡◌};
    ghost use Rattle.schedule.specs.declared.answer.Refusal.TheVariants as refusal;

    ghost from_gives = { λ _ why. why ≡ refusal.NoSuchClass };

    fn from(_: NoSuchClass) -> Refusal {
        Refusal::NoSuchClass
    }
}

impl Refusal {
    pub fn number(self) -> u32
        ensures number { result ≡ refusal_number self }
    {
        self as u32
    }
}

impl Rejection {
    pub fn number(self) -> u32
        ensures number { result ≡ rejection_number self }
    {
        match self {
            Rejection::TooLate(_) => 7,
            Rejection::MayNotWait(_) => 8,
        }
    }

    // The group that came too late names, or the ticket of the job that may not be waited for.
    pub fn detail(self) -> u32
        ensures detail { result ≡ rejection_detail self }
    {
        let (Rejection::TooLate(named) | Rejection::MayNotWait(named)) = self;
        named
    }
}
