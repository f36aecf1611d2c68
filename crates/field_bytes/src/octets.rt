ghost use Rattle.std.specs.Prelude.{◌≡◌, ◌++◌, IfOk, OnOk};
ghost use Rattle.field_bytes.specs.Spelling.{IsCountable, octet_bytes};

use crate::fault::ReadFault;
use crate::field::Field;
use crate::numbers::Word;
use std::alloc::{AllocError, Global};
use std::marker::Model;

/// Bytes as they were read. Contracts see the list of them.
#[derive(Debug, Drop)]
pub struct Octets {
    bytes: Vec<u8>,
}

impl Model for Octets {
    ghost use Rattle.std.specs.Prelude.{List, ℕ};

    ghost Value = { List ℕ };

    ghost view = { λ o. o.bytes.items };
}

impl Octets {
    /// A copy of these bytes. The only error is out of memory.
    pub fn copy_of(alloc: Global, bytes: &[u8]) -> Result<Octets, AllocError>
        ensures { IfOk result (λ octets. octets ≡ bytes.now) }
    {
        Ok(Octets {
            bytes: Vec::from_slice(alloc, bytes)?,
        })
    }

    /// The bytes, given back without taking memory.
    pub fn into_vec(self) -> Vec<u8>
        ensures { result.items ≡ self }
    {
        let Octets { bytes } = self;
        bytes
    }

    /// The bytes.
    pub fn as_slice(&self) -> &[u8]
        ensures { result.now ≡ self.now }
    {
        self.bytes.as_slice()
    }
}

/// Bytes, and before them how many they are, in 4 bytes.
pub struct Counted;

impl Field for Counted {
    ghost use Rattle.field_bytes.specs.Spelling.{IsCountable, octet_bytes};
    ghost use Rattle.field_bytes.specs.ListLaws.{one_octets};

    type Value = Octets;

    ghost Fits = { λ bytes. IsCountable bytes };

    ghost spelling = { octet_bytes };

    ghost one = { one_octets };

    fn read(alloc: Global, bytes: &[u8]) -> Result<(Octets, &[u8]), ReadFault> {
        let (count, rest) = Word::read(alloc, bytes)?;
        let count = count as usize;
        if count > rest.len() {
            return Err(ReadFault::Format);
        }
        let (counted, rest) = rest.split_at(count);
        Ok((Octets::copy_of(alloc, counted)?, rest))
    }
}

/// Appends the bytes, and before them how many they are. The only errors are out of memory, and more bytes than 4 bytes count.
pub fn put_counted(bytes: &[u8], out: &mut Vec<u8>) -> Result<(), AllocError>
    ensures ok { OnOk result (out.new.items ≡ out.old.items ++ octet_bytes bytes.now) }
    ensures fits { OnOk result (IsCountable bytes.now) }
{
    let Ok(count) = u32::try_from(bytes.len()) else {
        return Err(AllocError);
    };
    out.extend_from_slice(&count.to_be_bytes())?;
    out.extend_from_slice(bytes)
}

/// So many bytes.
pub struct Exactly<const N: usize>;

impl<const N: usize> Field for Exactly<N> {
    ghost use Rattle.std.specs.Prelude.{◌≡◌, length};
    ghost use Rattle.field_bytes.specs.ListLaws.{one_exactly};

    type Value = Octets;

    ghost Fits = { λ bytes. length bytes ≡ N };

    ghost spelling = { λ bytes. bytes };

    ghost one = { one_exactly N };

    fn read(alloc: Global, bytes: &[u8]) -> Result<(Octets, &[u8]), ReadFault> {
        if N > bytes.len() {
            return Err(ReadFault::Format);
        }
        let (exact, rest) = bytes.split_at(N);
        Ok((Octets::copy_of(alloc, exact)?, rest))
    }
}
