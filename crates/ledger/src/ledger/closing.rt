ghost use Rattle.std.specs.Prelude.{◌≡◌, IfOk, Some};
ghost use Rattle.schedule.specs.Jobs.{SeatedIn, find, holds};
ghost use Rattle.schedule.specs.States.{finished};
ghost use Rattle.schedule.specs.Steps.{end_step, ending, give_up_step};
ghost use Rattle.soundness.specs.Soundness.{StateSound};

use super::{Ledger, left};
use schedule::{Closing, Refusal, Seated};

impl Ledger {
    // The job in `row`, whose ticket this is, ends, and what it wrote is kept.
    fn finish(&mut self, row: usize, ticket: u32, group: u32)
        requires in_row { find (holds ticket) self.old.jobs ≡ Some row }
        ensures state_after { self.new ≡ finished self.old row ticket group }
        ensures sound { StateSound self.new }
    {
        let mut tables = self.take();
        tables.jobs.close(row, ticket);
        tables.cells.keep_and_release(row, group);
        tables.counters = left(tables.counters, Closing::Ended);
        self.give_back(tables);
    }

    // The open job with this ticket gives up.
    #[tactic(auto, using(roster::proofs::Finds::find_is_position))]
    pub fn give_up(&mut self, ticket: u32) -> Result<(), Refusal>
        ensures answer_and_state_after { give_up_step self.old ticket ≡ (result, self.new) }
        ensures sound_before { StateSound self.old }
        ensures sound { StateSound self.new }
    {
        let row = self.tables.jobs.row_of(ticket).ok_or(Refusal::NoOpenJob)?;
        self.close(row, ticket, Closing::GaveUp);
        Ok(())
    }

    // The job that an end with this ticket ends, in its row.
    pub fn ending(&self, ticket: u32) -> Result<Seated, Refusal>
        ensures ending_job { result ≡ ending self.now.jobs ticket }
        ensures seated_in { IfOk result (λ p. SeatedIn self.now.jobs ticket p) }
        ensures sound { StateSound self.now }
    {
        let seated = self.seated(ticket)?;
        if seated.job.wait.is_some() {
            return Err(Refusal::JobWaits);
        }
        Ok(seated)
    }

    // The open job with this ticket ends: its group, and its end number, which counts ended jobs from 1.
    pub fn end(&mut self, ticket: u32) -> Result<(u32, u32), Refusal>
        ensures answer_and_state_after { end_step self.old ticket ≡ (result, self.new) }
        ensures sound_before { StateSound self.old }
        ensures sound { StateSound self.new }
    {
        let Seated { row, job } = self.ending(ticket)?;
        self.finish(row, ticket, job.group);
        Ok((job.group, self.tables.counters.ended))
    }
}
