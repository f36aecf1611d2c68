ghost use Rattle.std.specs.FinMap.Entries.{is_sorted};
ghost use Rattle.std.specs.Prelude.{◌≡◌};
ghost use Rattle.fact_fields.specs.Tables.{is_below_next};

use crate::built::{Built, MakingOf, WritingOf};
use field_bytes::{Field, Items, Many, Put, ReadFault, put_list};
use sorted_rows::Table;
use std::alloc::{AllocError, Global};
use std::marker::PhantomData;

/// How a table is spelled: by its rows, whose keys rise.
pub struct TableParts<K, V, F> {
    kinds: PhantomData<(K, V, F)>,
}

/// A table: how many rows it has, and the rows, each of whose keys is above the one before.
pub type TableField<K, V, F> = Built<Table<K, V>, TableParts<K, V, F>>;

/// Whether the row's key is below that of the next row, where there is one.
fn is_below_next<K: Ord, V>(row: &(K, V), after: &[(K, V)]) -> bool
    ensures { result ≡ is_below_next K.cmp row.now after.now }
{
    match after {
        [] => true,
        [next, ..] => row.0.cmp(&next.0).is_lt(),
    }
}

/// Whether each key is above the one before.
#[tactic(auto, using(crate::proofs::Rising::rising_stop))]
pub(crate) fn is_rising<K: Ord, V>(rows: &[(K, V)]) -> bool
    ensures { result ≡ is_sorted K.cmp rows.now }
{
    let mut rest = rows;
    while let [row, after @ ..] = rest {
        if !is_below_next(row, after) {
            return false;
        }
        rest = after;
    }
    true
}

impl<K: Ord + Drop, V: Drop, F: Field<Value = (K, V)>> MakingOf<Table<K, V>>
    for TableParts<K, V, F> {
    ghost use Rattle.std.specs.Prelude.{refl};
    ghost use Rattle.field_bytes.specs.Spelling.{list_bytes};
    ghost use Rattle.fact_fields.specs.Tables.{IsTable, same_rows};

    type Parts = Many<F>;

    ghost Allows = { IsTable K.cmp };

    ghost back = { same_rows };

    ghost spelling = { list_bytes F.spelling };

    ghost told = { λ x y _ _ same. same };

    ghost spelled = { λ rows. refl };

    fn make(_alloc: Global, parts: Items<(K, V)>) -> Result<Table<K, V>, ReadFault> {
        let rows = parts.into_vec();
        if is_rising(rows.as_slice()) {
            Ok(Table::from_rows(rows))
        } else {
            Err(ReadFault::Format)
        }
    }
}

impl<K: Ord + Drop, V: Drop, F: Put<Value = (K, V)>> WritingOf<Table<K, V>>
    for TableParts<K, V, F> {
    fn put_parts(table: &Table<K, V>, out: &mut Vec<u8>) -> Result<(), AllocError> {
        put_list::<F>(table.as_slice(), out)
    }
}
