ghost use Rattle.std.specs.Prelude.{◌≡◌, slice_set};
ghost use Rattle.schedule.specs.Cells.{is_reader, is_writer, released, stamped};

// What the book keeps for a cell. Jobs are named by the row in which they lie.
#[derive(Clone, Copy)]
pub struct CellRecord {
    // the largest group ever granted a read of the cell from the main store
    pub read_mark: u32,
    // the largest group of an ended job that wrote the cell
    pub write_mark: u32,
    // the rows of the open jobs granted a read from the main store
    pub readers: [bool; 32],
    // the row of the open job granted a write
    pub writer: Option<usize>,
}

impl CellRecord {
    pub const FRESH: CellRecord = CellRecord {
        read_mark: 0,
        write_mark: 0,
        readers: [false; 32],
        writer: None,
    };

    // Whether the job in the row is the writer.
    pub fn is_written_by(&self, row: usize) -> bool
        ensures writer_test { result ≡ is_writer self.now.writer row }
    {
        self.writer == Some(row)
    }

    // Whether the job in the row is a reader.
    pub fn is_read_by(&self, row: usize) -> bool
        ensures reader_test { result ≡ is_reader self.now row }
    {
        self.readers.get(row) == Some(&true)
    }

    // The job in the row is a reader from now on, or is none.
    #[tactic(auto, using(std::proofs::lemmas::List::set_past))]
    pub fn set_reader(&mut self, row: usize, reads: bool)
        ensures record_after { self.new ≡ record self.old { readers = slice_set self.old.readers row reads } }
    {
        if row < self.readers.len() {
            self.readers[row] = reads;
        }
    }

    // The job in the row stops being a reader or the writer.
    pub fn release(&mut self, row: usize)
        ensures record_after { self.new ≡ released row self.old }
    {
        self.set_reader(row, false);
        self.writer.take_if(|writer| *writer == row);
    }

    // The write of the job in the row, which is of the group, is kept if it is the writer.
    pub fn keep(&mut self, row: usize, group: u32)
        ensures record_after { self.new ≡ stamped row group self.old }
    {
        if self.is_written_by(row) {
            self.write_mark = group;
        }
    }
}
