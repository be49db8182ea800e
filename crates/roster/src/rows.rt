ghost use Rattle.std.specs.Prelude.{◌≡◌, [], replicate, IfOk, Some, None, position, slice_set};
ghost use Rattle.schedule.specs.Jobs.{closed_rows, holds, job_in, vacant, wait_set};
ghost use Rattle.std.specs.Global.{Global};

use schedule::{Job, Wait, job_in};
use std::alloc::{AllocError, Global};
use std::marker::Model;

// The rows in which the open jobs lie. A row with no job is free.
#[derive(Drop)]
pub struct JobRows {
    rows: Vec<Option<Job>>,
}

// A contract sees what is in each row.
impl Model for JobRows {
    ghost use Rattle.std.specs.Prelude.{List, Option};
    ghost use Rattle.schedule.specs.declared.job.Job.{Job};

    ghost Value = { List (Option Job) };

    ghost view = { λ table. table.rows.items };
}

impl JobRows {
    // No rows, which takes no memory.
    pub fn none(alloc: Global) -> JobRows
        ensures no_rows { result ≡ [] }
    {
        JobRows {
            rows: Vec::new(alloc),
        }
    }

    // Thirty-two free rows.
    pub fn new(alloc: Global) -> Result<JobRows, AllocError>
        ensures made { IfOk result (λ rows. rows ≡ replicate 32 None) }
    {
        let rows = vec![in alloc; None; 32]?;
        Ok(JobRows { rows })
    }

    // The allocator of the rows. There is but one `Global`.
    pub fn allocator(&self) -> Global
        ensures the_only_one { (alloc : Global) → result ≡ alloc }
    {
        *self.rows.allocator()
    }

    pub fn as_slice(&self) -> &[Option<Job>]
        ensures rows_lent { result.now ≡ self.now }
    {
        self.rows.as_slice()
    }

    // The row of the open job with this ticket.
    pub fn row_of(&self, ticket: u32) -> Option<usize>
        ensures row_found { result ≡ position (holds ticket) self.now }
    {
        self.rows
            .iter()
            .position(|row| row.is_some_and(|job| job.ticket == ticket))
    }

    // The first free row.
    pub fn free_row(&self) -> Option<usize>
        ensures row_found { result ≡ position vacant self.now }
    {
        self.rows.iter().position(Option::is_none)
    }

    // The job in a row.
    pub fn job_in(&self, row: usize) -> Option<Job>
        ensures job_there { result ≡ job_in self.now row }
    {
        job_in(&self.rows, row)
    }

    // The job gets the row.
    pub fn seat(&mut self, row: usize, job: Job)
        ensures rows_after { self.new ≡ slice_set self.old row (Some job) }
    {
        if let Some(seat) = self.rows.get_mut(row) {
            *seat = Some(job);
        }
    }

    // The job in the row waits so, or not at all.
    pub fn set_wait(&mut self, row: usize, wait: Option<Wait>)
        ensures rows_after { self.new ≡ wait_set self.old row wait }
    {
        if let Some(place) = self.rows.get_mut(row)
            && let Some(job) = place
        {
            job.wait = wait;
        }
    }

    // The job in the row, whose ticket this is, closes: no job waits for it any more, and its row is free.
    #[tactic(auto, using(crate::proofs::Sweeping::lifted_more, crate::proofs::Sweeping::job_lifted_more))]
    pub fn close(&mut self, row: usize, ticket: u32)
        ensures rows_after { self.new ≡ closed_rows self.old row ticket }
    {
        for place in self.rows.iter_mut() {
            let Some(job) = place else {
                continue;
            };
            job.lift_wait(ticket);
        }
        if let Some(left) = self.rows.get_mut(row) {
            *left = None;
        }
    }
}
