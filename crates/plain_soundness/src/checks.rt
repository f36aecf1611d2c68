//! Checks of rows, one row after the other.

ghost use Rattle.std.specs.List.{AllByRecursion};
ghost use Rattle.std.specs.Prelude.{◌↔◌, IsTrue};

/// What is to hold of each row of a list.
pub(crate) trait Check<T> {
    /// What is to hold, of a row.
    ghost Holds: { Self → T → Type 0 };

    /// Whether it holds of a row.
    fn holds(&self, row: &T) -> bool
        ensures { IsTrue result ↔ Holds self.now row.now };
}

/// Whether it holds of each row.
pub(crate) fn holds_of_all<T, C: Check<T>>(check: &C, rows: &[T]) -> bool
    ensures { IsTrue result ↔ AllByRecursion (C.Holds check.now) rows.now }
{
    for row in rows {
        if !check.holds(row) {
            return false;
        }
    }
    true
}
