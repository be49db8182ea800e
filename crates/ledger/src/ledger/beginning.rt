ghost use Rattle.std.specs.Prelude.{◌≡◌, ◌+◌, ◌<◌, ◌≤◌, Some, None};
ghost use Rattle.schedule.specs.Counting.{joined};
ghost use Rattle.schedule.specs.Jobs.{find, vacant};
ghost use Rattle.schedule.specs.States.{beginning};
ghost use Rattle.schedule.specs.Steps.{begin_step};
ghost use Rattle.soundness.specs.Soundness.{StateSound};

use super::Ledger;
use schedule::{Counters, Job, Refusal};
use waiting::Class;

// The counters once a job has begun.
fn joined(counters: Counters) -> Counters
    requires tickets_left { counters.begun < 1000000 }
    requires group_bounded { counters.group ≤ counters.begun + 1 }
    requires members_bounded { counters.members ≤ counters.begun }
    ensures counters_after { result ≡ joined counters }
{
    let mut n = counters;
    n.begun += 1;
    if n.members < n.group_size {
        n.members += 1;
    } else {
        n.group += 1;
        n.members = 1;
    }
    n
}

// The job that begins with the counters as they are once it has joined.
fn new_job(class: Class, n: Counters) -> Job
    ensures new_job { result ≡ record { ticket = n.begun; class = class; group = n.group; place = n.members; wait = None } }
{
    Job {
        ticket: n.begun,
        class,
        group: n.group,
        place: n.members,
        wait: None,
    }
}

impl Ledger {
    // A job of this class begins in the first free row.
    fn begin_in(&mut self, row: usize, class: Class)
        requires tickets_left { self.old.counters.begun < 1000000 }
        requires row_free { find vacant self.old.jobs ≡ Some row }
        ensures state_after { self.new ≡ beginning self.old class (joined self.old.counters) row }
        ensures sound { StateSound self.new }
    {
        let mut tables = self.take();
        tables.counters = joined(tables.counters);
        tables.jobs.seat(row, new_job(class, tables.counters));
        self.give_back(tables);
    }

    // A job begins: its ticket, its group and its place in the group.
    #[tactic(auto, using(roster::proofs::Finds::find_is_position))]
    pub fn begin(&mut self, class: u32) -> Result<(u32, u32, u32), Refusal>
        ensures answer_and_state_after { begin_step self.old class ≡ (result, self.new) }
        ensures sound_before { StateSound self.old }
        ensures sound { StateSound self.new }
    {
        // `len` says that the ledger is sound, where nothing else is asked of it.
        let _ = self.len();
        let class = Class::try_from(class)?;
        if self.tables.counters.begun >= 1_000_000 {
            return Err(Refusal::TicketsSpent);
        }
        let row = self.tables.jobs.free_row().ok_or(Refusal::BookFull)?;
        self.begin_in(row, class);
        let n = self.tables.counters;
        Ok((n.begun, n.group, n.members))
    }
}
