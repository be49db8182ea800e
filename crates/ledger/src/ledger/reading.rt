ghost use Rattle.std.specs.Prelude.{◌≡◌, Some};
ghost use Rattle.soundness.specs.Soundness.{StateSound, WriterLater, group_in};
ghost use Rattle.schedule.specs.Jobs.{job_in};
ghost use Rattle.schedule.specs.Cells.{record_of};
ghost use Rattle.schedule.specs.States.{reading};
ghost use Rattle.schedule.specs.Steps.{read_step};

use super::Ledger;
use schedule::{Kind, Reply, Seated, Source};
use waiting::WaitingRule;

impl Ledger {
    // The job reads the cell from the main store.
    fn grant_read(&mut self, seated: Seated, cell: usize)
        requires job_there { job_in self.old.jobs seated.row ≡ Some seated.job }
        requires writer_later { WriterLater (group_in self.old.jobs) (record_of self.old.cells cell) seated.row seated.job.group }
        ensures state_after { self.new ≡ reading self.old seated.row cell seated.job.group }
        ensures sound { StateSound self.new }
    {
        let mut tables = self.take();
        tables.jobs.set_wait(seated.row, None);
        tables.cells.note_read(cell, seated.row, seated.job.group);
        self.give_back(tables);
    }

    // The open job with this ticket asks to read the cell: granted, the answer is the store to read from.
    pub fn read<W: WaitingRule>(&mut self, rule: &W, ticket: u32, cell: u32) -> Reply<Source>
        ensures answer_and_state_after { read_step (W.WaitingRule.may rule.now) self.old ticket cell ≡ (result, self.new) }
        ensures sound_before { StateSound self.old }
        ensures sound { StateSound self.new }
    {
        let seated = self.admit(ticket, cell, Kind::Read)?;
        match self.attempt(rule, cell, seated).read_verdict() {
            Ok(source) => {
                match source {
                    Source::Main => self.grant_read(seated, cell as usize),
                    Source::Draft => self.set_wait(seated.row, None),
                }
                Ok(source)
            }
            Err(obstacle) => Err(self.hinder(ticket, seated, Kind::Read, cell, obstacle)),
        }
    }
}
