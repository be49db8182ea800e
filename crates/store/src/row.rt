ghost use Rattle.std.specs.Prelude.{◌≡◌, List, length, slice_set};
ghost use Rattle.store.specs.Rows.{cell_at, put_answer};

// What get and put say of a number that is not below the length.
#[derive(Clone, Copy, PartialEq, Eq, Debug)]
pub struct Outside;

// A store: a row of cells of fixed length, of any cell type that can be copied.
pub trait Store {
    type Cell: Copy;

    // The cells, from number 0 on.
    ghost row: { Self → List Self.Cell };

    fn len(&self) -> usize
        ensures length_of_row { result ≡ length (row self.now) };

    fn get(&self, i: usize) -> Result<Self::Cell, Outside>
        ensures cell_of_row { result ≡ cell_at (row self.now) i };

    // Past the end `slice_set` is the row itself: a put that says 'outside' changes nothing.
    fn put(&mut self, i: usize, cell: Self::Cell) -> Result<(), Outside>
        ensures answer { result ≡ put_answer (row self.old) i }
        ensures row_after { row self.new ≡ slice_set (row self.old) i cell };
}
