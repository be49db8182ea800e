ghost use Rattle.std.specs.Prelude.{◌≡◌, ◌+◌, ◌^◌, ◌<◌, length, slice_set, OnOk, OnErr};
ghost use Rattle.store.specs.Rows.{put_answer};
ghost use Rattle.window_store.specs.Window.{window_row};

use store::{Outside, Store};

// A window: a start and a count over another store. Its length is the lesser of the count and what lies below
// from the start on, or 0 if nothing does.
#[derive(Drop)]
pub struct Window<S> {
    below: S,
    start: usize,
    count: usize,
}

impl<S: Store> Window<S> {
    pub fn new(below: S, start: usize, count: usize) -> Window<S>
        ensures made { result ≡ record { below = below; start = start; count = count } }
    {
        Window {
            below,
            start,
            count,
        }
    }

    // The window taken apart: the store below, the start and the count.
    pub fn into_parts(self) -> (S, usize, usize)
        ensures parts { result ≡ (self.below, self.start, self.count) }
    {
        (self.below, self.start, self.count)
    }
}

impl<S: Store> Store for Window<S> {
    type Cell = S::Cell;

    ghost row = { window_row S.Store.row };

    // The first clause is the store's own. The other says that a `usize` can hold the window's end below, and so the
    // place of each of its cells there.
    fn len(&self) -> usize
        ensures length_of_row { result ≡ length (window_row S.Store.row self.now) }
        ensures end_fits { self.now.start + result < 2 ^ 64 }
    {
        self.below.len().saturating_sub(self.start).min(self.count)
    }

    fn get(&self, i: usize) -> Result<S::Cell, Outside> {
        if i >= self.len() {
            return Err(Outside);
        }
        self.below.get(self.start + i)
    }

    // The first two clauses are the store's own. The others say that below the window the one cell is replaced and no
    // other, or none if the number is outside, and that the window stays where it is.
    #[tactic(auto, using(crate::proofs::Parts::part_set))]
    fn put(&mut self, i: usize, cell: S::Cell) -> Result<(), Outside>
        ensures answer { result ≡ put_answer (window_row S.Store.row self.old) i }
        ensures row_after { window_row S.Store.row self.new ≡ slice_set (window_row S.Store.row self.old) i cell }
        ensures row_below_after { OnOk result
            (S.Store.row self.new.below ≡ slice_set (S.Store.row self.old.below) (self.old.start + i) cell) }
        ensures row_below_kept { OnErr result (S.Store.row self.new.below ≡ S.Store.row self.old.below) }
        ensures same_start { self.new.start ≡ self.old.start }
        ensures same_count { self.new.count ≡ self.old.count }
    {
        if i >= self.len() {
            return Err(Outside);
        }
        self.below.put(self.start + i, cell)
    }
}
