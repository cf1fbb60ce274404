//! Entries of any table that implements `PairCells`: a pair that was found, or room for one.
//!
//! A table names them by aliases, and has its own `find_entry` and `entry`, for two reasons. Callers import no trait.
//! And if the type of the borrowed table were a type parameter, the check would prove no clause on what the table is
//! after the borrow.
ghost use Rattle.std.specs.Prelude.{◌≡◌, ◌∷◌, ◌+◌, ◌≤◌, Some, IsSome};
ghost use Rattle.std.specs.List.Sorted.{IsPermutation};
ghost use Rattle.std.specs.Fn.{TakesAt, CalledAt};
ghost use Rattle.iddqd_hash.specs.Asks.{CanAskEach, CanAskAgain, FindsPlace};
ghost use Rattle.iddqd_hash.specs.HashTable.{Table, entries, room, pair_at, under, RemovesPair, KeepsMemory, UsesRoom};

/// What entries need of a table: places, each of which may have a pair of a hash and a value.
pub trait PairCells {
    /// The type of the values.
    type Value;

    // The table as a contract sees it.
    ghost seen: { Self → Table Self.Value };

    /// The place of the pair that a look-up hits.
    fn place_of<F: FnMut(&Self::Value) -> bool>(&self, hash: u64, eq: F) -> Option<usize>
        requires each { CanAskEach (TakesAt F.FnMut) eq (under hash (entries (seen self.now))) }
        requires again { CanAskAgain (TakesAt F.FnMut) (CalledAt F.FnMut) eq (under hash (entries (seen self.now))) }
        ensures { FindsPlace (CalledAt F.FnMut) eq hash (under hash (entries (seen self.now))) (pair_at (seen self.now))
            result };

    /// The pair at a place.
    fn pair_at(&self, place: usize) -> (u64, &Self::Value)
        requires { IsSome (pair_at (seen self.now) place) }
        ensures { pair_at (seen self.now) place ≡ Some (result.0, result.1.now) };

    /// Removes the pair at a place, and returns its value. No memory is taken or given back.
    fn take_at(&mut self, place: usize) -> Self::Value
        requires { IsSome (pair_at (seen self.old) place) }
        ensures removed { RemovesPair (seen self.old) (pair_at (seen self.old) place) result (seen self.new) }
        ensures memory { KeepsMemory (seen self.old) (seen self.new) }
        ensures room { room (seen self.new) ≡ room (seen self.old) + 1 };

    /// Adds a pair, and returns its place. No memory is taken.
    fn add(&mut self, hash: u64, value: Self::Value) -> usize
        requires { 1 ≤ room (seen self.old) }
        ensures pair { pair_at (seen self.new) result ≡ Some (hash, value) }
        ensures added { IsPermutation ((hash, value) ∷ entries (seen self.old)) (entries (seen self.new)) }
        ensures memory { UsesRoom (seen self.old) (seen self.new) };
}

/// The result of `entry`: the pair that it found, or room for one.
#[derive(Drop)]
pub enum Entry<'a, C: PairCells> {
    /// The pair that was found.
    Occupied(OccupiedEntry<'a, C>),
    /// None was found, and there is room for one.
    Vacant(VacantEntry<'a, C>),
}

/// The entry of a pair that is in a table.
#[derive(Drop)]
pub struct OccupiedEntry<'a, C: PairCells> {
    pub(crate) table: &'a mut C,
    pub(crate) place: usize,
    ghost stands: { IsSome (pair_at (C.seen table.now) place) },
}

/// Room for one pair under a hash. If the entry is dropped, the pairs stay as they were.
#[derive(Drop)]
pub struct VacantEntry<'a, C: PairCells> {
    pub(crate) table: &'a mut C,
    pub(crate) hash: u64,
    ghost roomy: { 1 ≤ room (C.seen table.now) },
}

impl<'a, C: PairCells> OccupiedEntry<'a, C> {
    ghost use Rattle.iddqd_hash.specs.TableEntry.{entry_table, entry_pair, entry_value};

    /// The value.
    pub fn get(&self) -> &C::Value
        ensures { entry_value self.now ≡ Some result.now }
    {
        self.table.pair_at(self.place).1
    }

    /// Removes the pair from the table, and returns its value. No memory is taken or given back.
    pub fn remove(self) -> C::Value
        ensures removed { RemovesPair (entry_table self.entry) (entry_pair self.entry) result (C.seen self.exit.0.now) }
        ensures memory { KeepsMemory (entry_table self.entry) (C.seen self.exit.0.now) }
        ensures room { room (C.seen self.exit.0.now) ≡ room (entry_table self.entry) + 1 }
    {
        let place = self.place;
        self.table.take_at(place)
    }
}

impl<'a, C: PairCells> VacantEntry<'a, C> {
    ghost use Rattle.iddqd_hash.specs.TableEntry.{entry_table, entry_pair, entry_lender, vacant_table, vacant_hash, vacant_lender};

    /// Adds a value under the hash of the entry, and takes no memory.
    pub fn insert(self, value: C::Value) -> OccupiedEntry<'a, C>
        ensures pair { entry_pair result ≡ Some (vacant_hash self.entry, value) }
        ensures added { IsPermutation ((vacant_hash self.entry, value) ∷ entries (vacant_table self.entry))
            (entries (entry_table result)) }
        ensures memory { UsesRoom (vacant_table self.entry) (entry_table result) }
        ensures same_reference { entry_lender result ≡ vacant_lender self.entry }
    {
        let VacantEntry { table, hash } = self;
        let place = table.add(hash, value);
        OccupiedEntry { table, place }
    }
}
