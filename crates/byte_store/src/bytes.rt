ghost use Rattle.std.specs.Prelude.{◌≡◌, slice_set};
ghost use Rattle.byte_store.specs.Numbers.{left_over, numbers, put_number};
ghost use Rattle.store.specs.Rows.{put_answer};

use store::{Outside, Store};

// Bytes handed in, four to a cell: a signed number, the highest byte first.
#[derive(Drop)]
pub struct Bytes<'a> {
    bytes: &'a mut [u8],
}

impl<'a> Bytes<'a> {
    pub fn new(bytes: &'a mut [u8]) -> Bytes<'a>
        ensures bytes_lent { result.bytes.now ≡ bytes.old }
        ensures loan { result.bytes.ghost_name ≡ bytes.entry.ghost_name }
    {
        Bytes { bytes }
    }
}

#[tactic(auto, using(crate::proofs::Numbering::numbering))]
impl Store for Bytes<'_> {
    type Cell = i32;

    ghost row = { λ s. numbers s.bytes.now };

    fn len(&self) -> usize {
        self.bytes.len() / 4
    }

    fn get(&self, i: usize) -> Result<i32, Outside> {
        let (cells, _) = self.bytes.as_chunks();
        cells.get(i).copied().map(i32::from_be_bytes).ok_or(Outside)
    }

    // The first two clauses are the store's own. The others say that the cells stay in the bytes that were lent, so that
    // whoever lent them finds the row in them when the loan ends; which bytes are written; and that those left over at
    // the end are not.
    fn put(&mut self, i: usize, cell: i32) -> Result<(), Outside>
        ensures answer { result ≡ put_answer (numbers self.old.bytes.now) i }
        ensures row_after { numbers self.new.bytes.now ≡ slice_set (numbers self.old.bytes.now) i cell }
        ensures same_loan { self.new.bytes.ghost_name ≡ self.old.bytes.ghost_name }
        ensures bytes_after { self.new.bytes.now ≡ put_number self.old.bytes.now i cell }
        ensures left_over_kept { left_over self.new.bytes.now ≡ left_over self.old.bytes.now }
    {
        if i >= self.len() {
            return Err(Outside);
        }
        self.bytes[4 * i..4 * i + 4].copy_from_slice(&cell.to_be_bytes());
        Ok(())
    }
}
