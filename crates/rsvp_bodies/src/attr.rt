ghost use Rattle.std.specs.Prelude.{◌≡◌, ◌≤◌, ◌-◌, ◌%◌, ◌++◌, OnOk, OnErr, take, length};
ghost use Rattle.rsvp_bodies.specs.Attributes.{attr_body, attr_ctype, name_body, IsAttr};
ghost use Rattle.rsvp_bodies.specs.Names.{IsName};

use crate::affinities::{Affinities, write_affinities};
use crate::attr_numbers::*;
use crate::{Kept, Rule};
use std::alloc::AllocError;

/// The rule of names: at most [`MAX_NAME_LEN`] bytes.
#[derive(Debug, Drop)]
pub struct NameRule;

impl Rule for NameRule {
    ghost use Rattle.rsvp_bodies.specs.Names.{IsName};

    ghost Allows = { IsName };
}

/// The name of an LSP, mostly of ASCII text.
pub type Name = Kept<NameRule>;

/// What SESSION_ATTRIBUTE says (RFC 3209, 4.7).
#[derive(Debug, PartialEq, Eq, Drop)]
pub struct Attr {
    /// The resource affinities, in an object of the type that has them.
    pub affinities: Option<Affinities>,
    /// The setup priority, 0 (best) to 7. A greater one is kept as it came.
    pub setup: u8,
    /// The holding priority, 0 (best) to 7. A greater one is kept as it came.
    pub hold: u8,
    /// 0x01 local protection desired, 0x02 label recording desired, 0x04 SE style desired (RFC 3209,
    /// 4.7.1), 0x08 bandwidth protection desired, 0x10 node protection desired (RFC 4090, 4.3).
    pub flags: u8,
    /// The LSP's name.
    pub name: Name,
}

impl Clone for Attr {
    ghost is_clone = { λ source copy. copy ≡ source };

    /// A copy of the attributes. The only error is out of memory.
    fn clone(&self) -> Result<Attr, AllocError> {
        Ok(Attr {
            affinities: self.affinities,
            setup: self.setup,
            hold: self.hold,
            flags: self.flags,
            name: self.name.clone()?,
        })
    }
}

impl Attr {
    /// The C-Type of an object with these attributes.
    pub fn ctype(&self) -> u8
        ensures { result ≡ attr_ctype self.now }
    {
        match self.affinities {
            Some(_) => CTYPE_LSP_TUNNEL_RA,
            None => CTYPE_LSP_TUNNEL,
        }
    }

    /// How many bytes the body has that the attributes are written as.
    #[tactic(auto, using(crate::proofs::AttrAgain::length_attr_body))]
    pub fn byte_len(&self) -> usize
        ensures len { result ≡ length (attr_body self.now) }
        ensures fits { result ≤ 65528 }
    {
        let name_len = self.name.as_slice().len();
        let len = HEAD_LEN + name_len + padding_len(name_len);
        match self.affinities {
            Some(_) => AFFINITIES_LEN + len,
            None => len,
        }
    }

    /// Appends the body. The only error is out of memory; a part of the body may then stand after what was
    /// there.
    pub fn write(&self, out: &mut Vec<u8>) -> Result<(), AllocError>
        ensures ok { OnOk result (out.new.items ≡ out.old.items ++ attr_body self.now) }
        ensures err { OnErr result (take (length out.old.items) out.new.items ≡ out.old.items) }
        ensures fits { OnOk result (IsAttr self.now) }
    {
        match self.affinities {
            None => self.write_name(out),
            Some(affinities) => {
                write_affinities(affinities, out)?;
                self.write_name(out)
            }
        }
    }

    /// Appends what stands after the affinities; zeros fill its last word.
    fn write_name(&self, out: &mut Vec<u8>) -> Result<(), AllocError>
        ensures ok { OnOk result (out.new.items ≡ out.old.items ++ name_body self.now) }
        ensures err { OnErr result (take (length out.old.items) out.new.items ≡ out.old.items) }
        ensures name { IsName self.now.name }
    {
        let name = self.name.as_slice();
        out.extend_from_slice(&[self.setup, self.hold, self.flags, name.len() as u8])?;
        out.extend_from_slice(name)?;
        out.extend_from_slice(&[0; WORD_LEN][..padding_len(name.len())])
    }
}

/// How many zeros fill the last word of a name of so many bytes.
fn padding_len(name_len: usize) -> usize
    ensures { result ≡ (4 - name_len % 4) % 4 }
{
    (WORD_LEN - name_len % WORD_LEN) % WORD_LEN
}
