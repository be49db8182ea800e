ghost use Rattle.std.specs.Prelude.{◌≡◌, ◌<◌, length, IfOk, Some};
ghost use Rattle.schedule.specs.Cells.{record_of};
ghost use Rattle.schedule.specs.Counting.{left};
ghost use Rattle.schedule.specs.Jobs.{SeatedIn, find, holds};
ghost use Rattle.schedule.specs.States.{closed, waiting};
ghost use Rattle.schedule.specs.Steps.{hindered, seated};
ghost use Rattle.soundness.specs.Soundness.{CellSound, StateSound, group_in};

mod admission;
mod beginning;
mod closing;
mod counts;
mod fresh;
mod grouping;
mod reading;
mod writing;

use cells::CellTable;
use roster::JobRows;
use schedule::{Closing, Counters, Kind, NotGranted, Obstacle, Refusal, Seated, Wait};
use std::marker::Model;
use verdicts::Attempt;
use waiting::WaitingRule;

// The jobs, the records of the cells and the counters, with no promise that they agree.
#[derive(Drop)]
struct Tables {
    jobs: JobRows,
    cells: CellTable,
    counters: Counters,
}

// The same, agreeing with one another. A contract sees the state that they are in.
#[derive(Drop)]
pub struct Ledger {
    tables: Tables,
}

impl Model for Ledger {
    ghost use Rattle.schedule.specs.States.{State};

    ghost Value = { State };

    ghost use Rattle.ledger.specs.View.{state_of};
    ghost use Rattle.soundness.specs.Soundness.{StateSound};

    ghost view = { λ ledger. state_of ledger.tables };

    ghost invariant = { λ ledger. StateSound (state_of ledger.tables) };
}

// The counters once a job has closed.
fn left(counters: Counters, how: Closing) -> Counters
    requires few_ended { counters.ended < 1000000 }
    requires few_given_up { counters.given_up < 1000000 }
    requires few_rejected { counters.rejected < 1000000 }
    ensures counters_after { result ≡ left counters how }
{
    let mut n = counters;
    match how {
        Closing::Ended => n.ended += 1,
        Closing::GaveUp => n.given_up += 1,
        Closing::Rejected => n.rejected += 1,
    }
    n
}

impl Ledger {
    ghost use Rattle.ledger.specs.View.{state_of};

    // What the ledger holds, taken out of it: one of no rows and no cells is left, until what was taken is given back.
    fn take(&mut self) -> Tables
        ensures taken { state_of result ≡ self.old }
        ensures sound { StateSound (state_of result) }
    {
        let none = Tables::none(self.tables.jobs.allocator());
        std::mem::replace(&mut self.tables, none)
    }

    // Tables that agree with one another are given back, whole.
    fn give_back(&mut self, tables: Tables)
        requires sound_tables { StateSound (state_of tables) }
        ensures written { self.new ≡ state_of tables }
        ensures sound { StateSound self.new }
    {
        *self = Ledger { tables };
    }
}

impl Ledger {
    // The open job with this ticket.
    #[tactic(auto, using(roster::proofs::Finds::find_is_position))]
    fn seated(&self, ticket: u32) -> Result<Seated, Refusal>
        ensures seated { result ≡ seated self.now.jobs ticket }
        ensures seated_in { IfOk result (λ p. SeatedIn self.now.jobs ticket p) }
        ensures sound { StateSound self.now }
    {
        let row = self.tables.jobs.row_of(ticket).ok_or(Refusal::NoOpenJob)?;
        let job = self.tables.jobs.job_in(row).ok_or(Refusal::NoOpenJob)?;
        Ok(Seated { row, job })
    }

    // The job in `row` waits so, or not at all.
    fn set_wait(&mut self, row: usize, wait: Option<Wait>)
        ensures state_after { self.new ≡ waiting self.old row wait }
        ensures sound { StateSound self.new }
    {
        let mut tables = self.take();
        tables.jobs.set_wait(row, wait);
        self.give_back(tables);
    }

    // The job in `row`, whose ticket this is, closes, and what it wrote is dropped.
    fn close(&mut self, row: usize, ticket: u32, how: Closing)
        requires in_row { find (holds ticket) self.old.jobs ≡ Some row }
        ensures state_after { self.new ≡ closed self.old row ticket how }
        ensures sound { StateSound self.new }
    {
        let mut tables = self.take();
        tables.jobs.close(row, ticket);
        tables.cells.release(row);
        tables.counters = left(tables.counters, how);
        self.give_back(tables);
    }

    // The job's read or write of the cell, with what the rules go by.
    fn attempt<'a, W: WaitingRule>(
        &'a self,
        rule: &'a W,
        cell: u32,
        seated: Seated,
    ) -> Attempt<'a, W>
        requires cell_there { cell < length self.now.cells }
        ensures rule_lent { result.rule.now ≡ rule.now }
        ensures rows_lent { result.rows.now ≡ self.now.jobs }
        ensures record_lent { result.cell.now ≡ record_of self.now.cells cell }
        ensures same_job { result.seated ≡ seated }
        ensures cell_sound { CellSound (group_in self.now.jobs) (record_of self.now.cells cell) }
    {
        Attempt {
            rule,
            rows: self.tables.jobs.as_slice(),
            cell: self.tables.cells.record(cell as usize).unwrap(),
            seated,
        }
    }

    // The job's read or write of the cell meets an obstacle: it waits, or it is rejected and closes.
    fn hinder(
        &mut self,
        ticket: u32,
        seated: Seated,
        kind: Kind,
        cell: u32,
        obstacle: Obstacle,
    ) -> NotGranted
        requires seated_in { SeatedIn self.old.jobs ticket seated }
        ensures answer_and_state_after { hindered self.old seated.row ticket kind cell obstacle ≡ (result, self.new) }
        ensures sound { StateSound self.new }
    {
        match obstacle {
            Obstacle::Wait(blocker) => {
                let wait = Wait {
                    kind,
                    cell,
                    ticket: blocker,
                };
                self.set_wait(seated.row, Some(wait));
                NotGranted::Wait(blocker)
            }
            Obstacle::Reject(why) => {
                self.close(seated.row, ticket, Closing::Rejected);
                NotGranted::Rejected(why)
            }
        }
    }
}
