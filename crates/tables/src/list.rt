// A list over a lent table, and its calls.
ghost use Rattle.std.specs.Prelude.{◌≡◌, ◌≤◌, ◌==◌, [], length, slice_get};
ghost use Rattle.tables.specs.Capacity.{capacity_of};

use thiserror::Error;

// However long its table is, a list has at most so many entries.
pub const MOST_ENTRIES: usize = 4096;

// There is no room for one more entry.
#[derive(Clone, Copy, Debug, PartialEq, Eq, Error)]
#[error("no room")]
pub struct Full;

// The first `len` of the table are the entries. What lies behind them is the lender's, and stays as it is.
#[derive(Drop)]
pub struct List<'a, T: Copy> {
    table: &'a mut [T],
    len: usize,
    ghost within: { len ≤ capacity_of table.now },
}

// Each call that makes or changes a list says that it stays on the same table, for then the lender knows what the table holds once the list is gone.
impl<'a, T: Copy> List<'a, T> {
    ghost use Rattle.tables.specs.Entries.{capacity, entries, entries_pushed, entries_set, full, has, push_answer, table_of, table_pushed, table_set};

    // It has no entries yet.
    pub fn new(table: &'a mut [T]) -> List<'a, T>
        ensures entries { entries result ≡ [] }
        ensures table { table_of result ≡ table.old }
        ensures same_table { result.table.ghost_name ≡ table.entry.ghost_name }
    {
        List { table, len: 0 }
    }

    // How many entries it has.
    pub fn len(&self) -> usize
        ensures count { result ≡ length (entries self.now) }
        ensures few { result ≤ capacity self.now }
    {
        self.as_slice().len()
    }

    pub fn is_empty(&self) -> bool
        ensures { result ≡ (length (entries self.now) == 0) }
    {
        self.len == 0
    }

    pub fn is_full(&self) -> bool
        ensures { result ≡ full self.now }
    {
        self.len >= self.capacity()
    }

    // How many entries it can have.
    pub fn capacity(&self) -> usize
        ensures { result ≡ capacity self.now }
    {
        self.table.len().min(MOST_ENTRIES)
    }

    // The entry at an index, or none past the last.
    pub fn get(&self, i: usize) -> Option<T>
        ensures { result ≡ slice_get (entries self.now) i }
    {
        self.as_slice().get(i).copied()
    }

    // The entries.
    pub fn as_slice(&self) -> &[T]
        ensures entries { result.now ≡ entries self.now }
        ensures few { length result.now ≤ capacity self.now }
    {
        &self.table[..self.len]
    }

    // Puts an entry behind the others. A full list declines, and nothing changes.
    pub fn push(&mut self, entry: T) -> Result<(), Full>
        ensures answer { result ≡ push_answer self.old }
        ensures entries { entries self.new ≡ entries_pushed self.old entry }
        ensures table { table_of self.new ≡ table_pushed self.old entry }
        ensures same_table { self.new.table.ghost_name ≡ self.old.table.ghost_name }
    {
        if self.is_full() {
            return Err(Full);
        }
        self.table[self.len] = entry;
        self.len += 1;
        Ok(())
    }

    // Changes the entry at an index, and says whether there is one. If there is none, nothing changes.
    #[tactic(auto, using(crate::proofs::Fronts::take_of_set))]
    pub fn set(&mut self, i: usize, entry: T) -> bool
        ensures answer { result ≡ has self.old i }
        ensures entries { entries self.new ≡ entries_set self.old i entry }
        ensures table { table_of self.new ≡ table_set self.old i entry }
        ensures same_table { self.new.table.ghost_name ≡ self.old.table.ghost_name }
    {
        if i >= self.len {
            return false;
        }
        self.table[i] = entry;
        true
    }
}
