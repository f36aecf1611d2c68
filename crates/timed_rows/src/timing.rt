// When a value is to be looked at.
ghost use Rattle.std.specs.Prelude.{◌≡◌, ℕ, Option};

use slot_rows::RowTest;

/// When a value is to be looked at.
pub trait Timed<V> {
    ghost at: { Self → V → Option ℕ };

    /// The moment, in milliseconds, at which it is to be looked at; `None` where that never comes.
    fn at(&self, value: &V) -> Option<u64>
        ensures { result ≡ at self.now value.now };
}

/// Whether the moment of a row isn't after this one.
#[derive(Drop)]
pub(crate) struct HasCome<M> {
    pub(crate) timing: M,
    pub(crate) now: u64,
}

impl<K, V, M: Timed<V>> RowTest<K, V> for HasCome<M> {
    ghost use Rattle.timer_wheel.specs.Due.{has_come};

    ghost passes = { λ test row. has_come test.now (M.at test.timing row.1) };

    fn passes(&self, row: &(K, V)) -> bool {
        match self.timing.at(&row.1) {
            Some(moment) => moment <= self.now,
            None => false,
        }
    }
}
