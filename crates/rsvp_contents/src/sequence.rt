ghost use Rattle.std.specs.Prelude.{◌≡◌, ◌∷◌, ◌++◌, [], OnOk, OnErr};

use rsvp_objects::Opaque;
use std::alloc::{AllocError, Global};
use std::marker::Model;

/// A value whose clones are the same value.
pub trait Exact: Clone + Drop {
    // a clone is the same value
    ghost clones_equal: { (source copy : Self) → Self.is_clone source copy → copy ≡ source };
}

impl Exact for Opaque {
    ghost clones_equal = { λ source copy same. same };
}

/// Values of one type, in their order. Contracts see the list of them.
#[derive(Debug, Drop)]
pub struct Sequence<T: Exact> {
    items: Vec<T>,
}

impl<T: Exact> Model for Sequence<T> {
    ghost use Rattle.std.specs.Prelude.{List};

    ghost Value = { List T };

    ghost view = { λ s. s.items.items };
}

impl<T: Exact> Sequence<T> {
    /// No values. Takes no memory.
    pub fn new(alloc: Global) -> Sequence<T>
        ensures { result ≡ [] }
    {
        Sequence {
            items: Vec::new(alloc),
        }
    }

    /// Puts a value after the others. The only error is out of memory, and then nothing changed.
    pub fn push(&mut self, item: T) -> Result<(), AllocError>
        ensures ok { OnOk result (self.new ≡ self.old ++ item ∷ []) }
        ensures err { OnErr result (self.new ≡ self.old) }
    {
        self.items.push(item)?;
        Ok(())
    }

    /// The values.
    pub fn as_slice(&self) -> &[T]
        ensures { result.now ≡ self.now }
    {
        self.items.as_slice()
    }
}

impl<T: Exact> Clone for Sequence<T> {
    ghost is_clone = { λ source copy. copy ≡ source };

    /// A copy of the values. The only error is out of memory.
    fn clone(&self) -> Result<Sequence<T>, AllocError> {
        Ok(Sequence {
            items: self.items.clone()?,
        })
    }
}
