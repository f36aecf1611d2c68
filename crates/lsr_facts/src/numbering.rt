// The numbers of keys in tables.
use crate::key_numbers::Numbered;
use slot_rows::Numbering;

/// Keys are looked for by their own numbers.
#[derive(Debug, Drop)]
pub struct KeyNumber;

impl<K: Numbered> Numbering<K> for KeyNumber {
    ghost number = { K.number };

    ghost same = { K.same };

    fn number(key: &K) -> usize {
        key.number()
    }
}
