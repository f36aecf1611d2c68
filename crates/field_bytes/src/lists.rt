ghost use Rattle.std.specs.Prelude.{◌≡◌, ◌++◌, ◌∷◌, [], OnOk};
ghost use Rattle.std.specs.List.{AllByRecursion, flat_map};
ghost use Rattle.field_bytes.specs.Spelling.{Answers, ItemsFit, ListFits, list_bytes};

use crate::fault::ReadFault;
use crate::field::{Field, Put};
use crate::numbers::Word;
use std::alloc::{AllocError, Global};
use std::marker::{Model, PhantomData};

/// Items as they were read. Contracts see the list of them.
#[derive(Debug, Drop)]
pub struct Items<T> {
    items: Vec<T>,
}

impl<T> Model for Items<T> {
    ghost use Rattle.std.specs.Prelude.{List};

    ghost Value = { List T };

    ghost view = { λ i. i.items.items };
}

impl<T> Items<T> {
    /// These. Takes no memory.
    pub fn from_vec(items: Vec<T>) -> Items<T>
        ensures { result ≡ items.items }
    {
        Items { items }
    }

    /// The items, given back without taking memory.
    pub fn into_vec(self) -> Vec<T>
        ensures { result.items ≡ self }
    {
        let Items { items } = self;
        items
    }

    /// The items.
    pub fn as_slice(&self) -> &[T]
        ensures { result.now ≡ self.now }
    {
        self.items.as_slice()
    }
}

/// How many items there are, in 4 bytes, and the items.
pub struct Many<A> {
    kind: PhantomData<A>,
}

/// Puts an item after the others. The only error is out of memory.
fn add<T: Drop>(items: &mut Vec<T>, item: T) -> Result<(), AllocError>
    ensures { OnOk result (items.new.items ≡ items.old.items ++ item ∷ []) }
{
    items.push(item)?;
    Ok(())
}

/// So many items, one after the other. No room is made by the count: a list grows as its items come.
#[tactic(auto, using(crate::specs::ListLaws::one_more, crate::specs::ListLaws::all_more))]
fn read_items<A: Field>(
    alloc: Global,
    count: u32,
    bytes: &[u8],
) -> Result<(Items<A::Value>, &[u8]), ReadFault>
    ensures { Answers (ItemsFit count A.Fits) (flat_map A.spelling) bytes.now result }
{
    let mut items = Vec::new(alloc);
    let mut rest = bytes;
    for _place in 0..count {
        let (item, after) = A::read(alloc, rest)?;
        add(&mut items, item)?;
        rest = after;
    }
    Ok((Items::from_vec(items), rest))
}

impl<A: Field> Field for Many<A> {
    ghost use Rattle.field_bytes.specs.Spelling.{ListFits, list_bytes};
    ghost use Rattle.field_bytes.specs.ListLaws.{one_list};

    type Value = Items<A::Value>;

    ghost Fits = { ListFits A.Fits };

    ghost spelling = { list_bytes A.spelling };

    ghost one = { one_list A.Fits A.spelling A.one };

    fn read(alloc: Global, bytes: &[u8]) -> Result<(Items<A::Value>, &[u8]), ReadFault> {
        let (count, rest) = Word::read(alloc, bytes)?;
        read_items::<A>(alloc, count, rest)
    }
}

/// Appends the items, one after the other. The only errors are out of memory, and an item without a spelling.
pub fn put_items<A: Put>(items: &[A::Value], out: &mut Vec<u8>) -> Result<(), AllocError>
    ensures ok { OnOk result (out.new.items ≡ out.old.items ++ flat_map A.spelling items.now) }
    ensures fits { OnOk result (AllByRecursion A.Fits items.now) }
{
    for item in items {
        A::put(item, out)?;
    }
    Ok(())
}

/// Appends how many items there are, and the items. The only errors are out of memory, an item without a spelling, and more items than 4
/// bytes count.
pub fn put_list<A: Put>(items: &[A::Value], out: &mut Vec<u8>) -> Result<(), AllocError>
    ensures ok { OnOk result (out.new.items ≡ out.old.items ++ list_bytes A.spelling items.now) }
    ensures fits { OnOk result (ListFits A.Fits items.now) }
{
    let Ok(count) = u32::try_from(items.len()) else {
        return Err(AllocError);
    };
    out.extend_from_slice(&count.to_be_bytes())?;
    put_items::<A>(items, out)
}
