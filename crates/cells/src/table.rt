ghost use Rattle.std.specs.Prelude.{◌≡◌, [], length, replicate, IfOk};
ghost use Rattle.schedule.specs.Cells.{all_released, all_stamped, fresh_record, is_writer, read_noted, record_of, write_noted};
ghost use Rattle.std.specs.List.{slice_get};
ghost use Rattle.std.specs.Option.{option_copied};

use schedule::CellRecord;
use std::alloc::{AllocError, Global};
use std::marker::Model;

// The records of the cells, by cell number.
#[derive(Drop)]
pub struct CellTable {
    records: Vec<CellRecord>,
}

// A contract sees the records.
impl Model for CellTable {
    ghost use Rattle.std.specs.Prelude.{List};
    ghost use Rattle.schedule.specs.declared.cell.CellRecord.{CellRecord};

    ghost Value = { List CellRecord };

    ghost view = { λ table. table.records.items };
}

impl CellTable {
    // No records, which takes no memory.
    pub fn none(alloc: Global) -> CellTable
        ensures no_records { result ≡ [] }
    {
        CellTable {
            records: Vec::new(alloc),
        }
    }

    // The records of so many cells that nobody has touched.
    pub fn new(alloc: Global, size: usize) -> Result<CellTable, AllocError>
        ensures made { IfOk result (λ records. records ≡ replicate size fresh_record) }
    {
        let records = vec![in alloc; CellRecord::FRESH; size]?;
        Ok(CellTable { records })
    }

    // How many records there are.
    pub fn len(&self) -> usize
        ensures count { result ≡ length self.now }
    {
        self.records.len()
    }

    // The record of a cell.
    pub fn record(&self, cell: usize) -> Option<&CellRecord>
        ensures record_there { option_copied result ≡ slice_get self.now cell }
    {
        self.records.get(cell)
    }

    // Whether the job in the row is the writer of the cell.
    pub fn is_written_by(&self, cell: usize, row: usize) -> bool
        ensures writer_test { result ≡ is_writer (record_of self.now cell).writer row }
    {
        self.records
            .get(cell)
            .is_some_and(|record| record.is_written_by(row))
    }

    // A read of the cell from the main store is granted to the job in the row, which is of the group.
    pub fn note_read(&mut self, cell: usize, row: usize, group: u32)
        ensures records_after { self.new ≡ read_noted self.old cell row group }
    {
        if let Some(record) = self.records.get_mut(cell) {
            record.read_mark = record.read_mark.max(group);
            record.set_reader(row, true);
        }
    }

    // A write of the cell is granted to the job in the row.
    pub fn note_write(&mut self, cell: usize, row: usize)
        ensures records_after { self.new ≡ write_noted self.old cell row }
    {
        if let Some(record) = self.records.get_mut(cell) {
            record.writer = Some(row);
        }
    }

    // The job in the row is a reader or the writer of no cell any more.
    #[tactic(auto, using(crate::proofs::Sweeping::released_more))]
    pub fn release(&mut self, row: usize)
        ensures records_after { self.new ≡ all_released self.old row }
    {
        for record in self.records.iter_mut() {
            record.release(row);
        }
    }

    // The writes of the job in the row, which is of the group, are kept, and it is a reader or the writer of no cell any
    // more.
    #[tactic(auto, using(crate::proofs::Sweeping::kept_more))]
    pub fn keep_and_release(&mut self, row: usize, group: u32)
        ensures records_after { self.new ≡ all_released (all_stamped self.old row group) row }
    {
        for kept in self.records.iter_mut() {
            kept.keep(row, group);
            kept.release(row);
        }
    }
}
