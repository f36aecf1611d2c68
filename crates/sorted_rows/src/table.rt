// A table as a value of its own.
ghost use Rattle.std.specs.FinMap.Entries.{find, is_sorted, put, where_key};
ghost use Rattle.std.specs.Option.{option_copied};
ghost use Rattle.std.specs.Ordering.{is_eq};
ghost use Rattle.std.specs.Prelude.{◌≡◌, Bool, T, [], filter, is_some, not, OnOk, OnErr};
ghost use Rattle.sorted_rows.specs.Closures.{ComputesTest};

use crate::copies::{TryCopy, copy_rows};
use std::alloc::{AllocError, Global};
use std::marker::Model;

/// Rows of a key and a value in the order of their keys, with no key twice. Contracts see the list of rows.
#[derive(Debug, Drop)]
pub struct Table<K: Ord, V> {
    rows: Vec<(K, V)>,
}

impl<K: Ord, V> Model for Table<K, V> {
    ghost use Rattle.std.specs.Prelude.{List, T};
    ghost use Rattle.std.specs.FinMap.Entries.{is_sorted};

    ghost Value = { List (K × V) };

    ghost view = { λ t. t.rows.items };

    ghost invariant = { λ t. T (is_sorted K.cmp t.rows.items) };
}

impl<K: Ord, V> Table<K, V> {
    /// No rows. Takes no memory.
    pub fn new(alloc: Global) -> Table<K, V>
        ensures { result ≡ [] }
    {
        Table {
            rows: Vec::new(alloc),
        }
    }

    /// The table of these rows, which stand in the order of their keys, no key twice. Takes no memory.
    pub fn from_rows(rows: Vec<(K, V)>) -> Table<K, V>
        requires { T (is_sorted K.cmp rows.items) }
        ensures { result ≡ rows.items }
    {
        Table { rows }
    }

    /// The rows, given back without taking memory.
    pub fn into_rows(self) -> Vec<(K, V)>
        ensures rows { result.items ≡ self }
        ensures sorted { T (is_sorted K.cmp self) }
    {
        let Table { rows } = self;
        rows
    }

    /// The rows.
    pub fn as_slice(&self) -> &[(K, V)]
        ensures rows { result.now ≡ self.now }
        ensures sorted { T (is_sorted K.cmp self.now) }
    {
        self.rows.as_slice()
    }

    /// The value under a key, or `None` where the table has no such key.
    pub fn get(&self, key: &K) -> Option<&V>
        ensures found { option_copied result ≡ find K.cmp key.now self.now }
    {
        crate::get_ref(self.rows.as_slice(), key)
    }

    /// Whether the table has a key.
    pub fn contains_key(&self, key: &K) -> bool
        ensures found { result ≡ is_some (find K.cmp key.now self.now) }
    {
        crate::contains_key(self.rows.as_slice(), key)
    }
}

impl<K: Ord + Drop, V: Drop> Table<K, V> {
    /// Sets the value under a key. Fails only when out of memory, and then nothing changed.
    pub fn set(&mut self, key: K, value: V) -> Result<(), AllocError>
        ensures ok { OnOk result (self.new ≡ put K.cmp key value self.old) }
        ensures err { OnErr result (self.new ≡ self.old) }
    {
        crate::set(&mut self.rows, key, value)
    }

    /// Removes a key and its value. A table that has no such key stays as it is.
    pub fn remove(&mut self, key: &K)
        ensures removed { self.new ≡ where_key K.cmp (λ k. not (is_eq (K.cmp key.now k))) self.old }
    {
        crate::remove(&mut self.rows, key);
    }

    /// Keeps the rows that pass a test of the key and the value, in their order. Takes no memory.
    pub fn retain<F: Fn(&K, &V) -> bool>(&mut self, test: F)
        requires { F.IsAlwaysCallable test }

        // For whichever test of a row gives the answers of the closure.
        ensures kept { (passes : K × V → Bool) → ComputesTest F.Fn test passes →
            self.new ≡ filter passes self.old }
    {
        crate::retain(&mut self.rows, test);
    }
}

impl<K: Ord + Copy, V: TryCopy + Drop> TryCopy for Table<K, V> {
    fn try_copy(&self, alloc: Global) -> Result<Table<K, V>, AllocError> {
        Ok(Table::from_rows(copy_rows(alloc, self.rows.as_slice())?))
    }
}
