// A key that no configuration has.
ghost use Rattle.std.specs.Prelude.{◌≡◌, IfOk};

use std::alloc::{AllocError, Global};
use std::fmt;
use std::marker::Model;

/// The text of a key that no configuration has. Contracts see its bytes.
#[derive(Debug, Drop)]
pub struct UnknownName {
    text: String,
}

impl Model for UnknownName {
    ghost use Rattle.std.specs.Prelude.{List, ℕ, string_bytes};

    ghost Value = { List ℕ };

    ghost view = { λ name. string_bytes name.text };
}

impl UnknownName {
    /// A copy of the text. The only error is out of memory.
    pub fn copied(alloc: Global, text: &str) -> Result<UnknownName, AllocError>
        ensures { IfOk result (λ name. name ≡ text.now) }
    {
        Ok(UnknownName {
            text: String::from_str(alloc, text)?,
        })
    }

    /// The text.
    pub fn as_str(&self) -> &str
        ensures { result.now ≡ self.now }
    {
        self.text.as_str()
    }
}

impl fmt::Display for UnknownName {
    fn fmt<W: fmt::Write>(&self, f: &mut fmt::Formatter<W>) -> fmt::Result {
        f.write_str(self.as_str())
    }
}
