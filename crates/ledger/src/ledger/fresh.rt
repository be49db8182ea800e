ghost use Rattle.std.specs.Prelude.{◌≡◌, [], length, IfOk};
ghost use Rattle.ledger.specs.View.{state_of};
ghost use Rattle.schedule.specs.Cells.{is_writer, record_of};
ghost use Rattle.schedule.specs.Counting.{fresh_counters};
ghost use Rattle.schedule.specs.States.{fresh_state};
ghost use Rattle.soundness.specs.Soundness.{StateSound};

use super::{Ledger, Tables};
use cells::CellTable;
use roster::JobRows;
use schedule::Counters;
use std::alloc::{AllocError, Global};

impl Tables {
    // No rows and no cells, which takes no memory: these stand in for tables that are taken out.
    pub(super) fn none(alloc: Global) -> Tables
        ensures nothing_in_them { state_of result ≡ record { jobs = []; cells = []; counters = fresh_counters } }
    {
        Tables {
            jobs: JobRows::none(alloc),
            cells: CellTable::none(alloc),
            counters: Counters::FRESH,
        }
    }
}

impl Ledger {
    // A ledger of this many cells, in which no job has begun.
    pub fn fresh(alloc: Global, size: usize) -> Result<Ledger, AllocError>
        ensures fresh { IfOk result (λ ledger. ledger ≡ fresh_state size) }
        ensures sound { IfOk result StateSound }
    {
        let jobs = JobRows::new(alloc)?;
        let cells = CellTable::new(alloc, size)?;
        let tables = Tables {
            jobs,
            cells,
            counters: Counters::FRESH,
        };
        Ok(Ledger { tables })
    }

    // The number of cells.
    pub fn len(&self) -> usize
        ensures cell_count { result ≡ length self.now.cells }
        ensures sound { StateSound self.now }
    {
        self.tables.cells.len()
    }

    // Whether the writer of the cell is the job in this row.
    pub fn is_written_by(&self, cell: usize, row: usize) -> bool
        ensures writer_is_row { result ≡ is_writer (record_of self.now.cells cell).writer row }
        ensures sound { StateSound self.now }
    {
        self.tables.cells.is_written_by(cell, row)
    }
}
