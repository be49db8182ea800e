ghost use Rattle.std.specs.Prelude.{◌≡◌, Some};
ghost use Rattle.soundness.specs.Soundness.{ReadersEarlier, StateSound, group_in};
ghost use Rattle.schedule.specs.Jobs.{job_in};
ghost use Rattle.schedule.specs.Cells.{record_of};
ghost use Rattle.schedule.specs.States.{writing};
ghost use Rattle.schedule.specs.Steps.{write_step};

use super::Ledger;
use schedule::{Kind, Reply, Seated};
use waiting::WaitingRule;

impl Ledger {
    // The job becomes the writer of the cell.
    fn grant_write(&mut self, seated: Seated, cell: usize)
        requires job_there { job_in self.old.jobs seated.row ≡ Some seated.job }
        requires readers_earlier { ReadersEarlier (group_in self.old.jobs) (record_of self.old.cells cell) seated.row seated.job.group }
        ensures state_after { self.new ≡ writing self.old seated.row cell }
        ensures sound { StateSound self.new }
    {
        let mut tables = self.take();
        tables.jobs.set_wait(seated.row, None);
        tables.cells.note_write(cell, seated.row);
        self.give_back(tables);
    }

    // The open job with this ticket asks to write the cell.
    pub fn write<W: WaitingRule>(&mut self, rule: &W, ticket: u32, cell: u32) -> Reply<()>
        ensures answer_and_state_after { write_step (W.WaitingRule.may rule.now) self.old ticket cell ≡ (result, self.new) }
        ensures sound_before { StateSound self.old }
        ensures sound { StateSound self.new }
    {
        let seated = self.admit(ticket, cell, Kind::Write)?;
        match self.attempt(rule, cell, seated).write_verdict() {
            Ok(()) => {
                self.grant_write(seated, cell as usize);
                Ok(())
            }
            Err(obstacle) => Err(self.hinder(ticket, seated, Kind::Write, cell, obstacle)),
        }
    }
}
