ghost use Rattle.std.specs.Prelude.{◌≡◌};
ghost use Rattle.schedule.specs.Jobs.{for_another, job_in, party, wait_lifted};

use waiting::{Class, Party};

// The two requests that may have to wait.
#[derive(Clone, Copy, PartialEq, Eq, Debug)]
pub enum Kind {
    Read,
    Write,
}

// A wait: the request that the job is to repeat, and the ticket of one open job that blocks it.
#[derive(Clone, Copy)]
pub struct Wait {
    pub kind: Kind,
    pub cell: u32,
    pub ticket: u32,
}

// An open job.
#[derive(Clone, Copy)]
pub struct Job {
    pub ticket: u32,
    pub class: Class,
    pub group: u32,
    // the place in the group, from 1
    pub place: u32,
    pub wait: Option<Wait>,
}

// An open job, with the row in which it lies.
#[derive(Clone, Copy)]
pub struct Seated {
    pub row: usize,
    pub job: Job,
}

impl Job {
    // The job as a waiting rule sees it.
    pub fn party(&self) -> Party
        ensures party { result ≡ party self.now }
    {
        Party::new(self.class, self.ticket)
    }

    // Whether the job waits, and for another request than this.
    pub fn waits_for_another(&self, kind: Kind, cell: u32) -> bool
        ensures answer { result ≡ for_another self.now.wait kind cell }
    {
        self.wait
            .is_some_and(|wait| wait.kind != kind || wait.cell != cell)
    }

    // The job waits no more for the job with this ticket.
    pub fn lift_wait(&mut self, ticket: u32)
        ensures job_after { self.new ≡ wait_lifted ticket self.old }
    {
        self.wait.take_if(|wait| wait.ticket == ticket);
    }
}

// The job in a row; none past the last row.
pub fn job_in(rows: &[Option<Job>], row: usize) -> Option<Job>
    ensures job_there { result ≡ job_in rows.now row }
{
    rows.get(row).copied().flatten()
}
