ghost use Rattle.std.specs.Prelude.{◌≡◌, slice_set};
ghost use Rattle.store.specs.Rows.{put_answer};

use crate::row::{Outside, Store};

// Memory handed in, as cells of any type.
#[derive(Drop)]
pub struct Memory<'a, T> {
    cells: &'a mut [T],
}

impl<'a, T> Memory<'a, T> {
    pub fn new(cells: &'a mut [T]) -> Memory<'a, T>
        ensures cells_lent { result.cells.now ≡ cells.old }
        ensures loan { result.cells.ghost_name ≡ cells.entry.ghost_name }
    {
        Memory { cells }
    }
}

impl<T: Copy> Store for Memory<'_, T> {
    type Cell = T;

    ghost row = { λ s. s.cells.now };

    fn len(&self) -> usize {
        self.cells.len()
    }

    fn get(&self, i: usize) -> Result<T, Outside> {
        self.cells.get(i).copied().ok_or(Outside)
    }

    // The first two clauses are the store's own. The third says that the cells stay in the memory that was lent: whoever
    // lent it finds the row in it when the loan ends.
    fn put(&mut self, i: usize, cell: T) -> Result<(), Outside>
        ensures answer { result ≡ put_answer self.old.cells.now i }
        ensures row_after { self.new.cells.now ≡ slice_set self.old.cells.now i cell }
        ensures same_loan { self.new.cells.ghost_name ≡ self.old.cells.ghost_name }
    {
        if i >= self.cells.len() {
            return Err(Outside);
        }
        self.cells[i] = cell;
        Ok(())
    }
}
