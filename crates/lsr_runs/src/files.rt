//! The files that words name.
ghost use Rattle.std.specs.Prelude.{◌≡◌, ℕ, List, IfOk, IfErr};
ghost use Rattle.line_streams.specs.declared.input.InputFault.{InputFault};
ghost use Rattle.lsr_runs.specs.Endings.{open_fault};

use line_streams::{ByteStream, InputFault};
use std::fs;
use std::io::ErrorKind;
use std::rt::Files;

/// Why a file isn't opened, by the kind of the error.
fn open_fault(kind: ErrorKind) -> InputFault
    ensures { result ≡ open_fault kind }
{
    match kind {
        ErrorKind::NotFound => InputFault::Absent,
        ErrorKind::OutOfMemory => InputFault::Memory,
        _ => InputFault::Unopened,
    }
}

/// Files that are opened by their names. `opens` says which file a name opens, `fails` why it may open none.
pub trait FilesByName {
    /// An open file.
    type File: ByteStream + Drop;

    ghost opens: { Self → List ℕ → Self.File → Type 0 };

    ghost fails: { Self → List ℕ → InputFault → Type 0 };

    /// Opens the file of this name. The errors are that it isn't there, that it can't be opened, or that memory ran out.
    fn open(&self, name: &str) -> Result<Self::File, InputFault>
        ensures file { IfOk result (opens self.now name.now) }
        ensures fault { IfErr result (fails self.now name.now) };
}

/// The files of the system.
#[derive(Drop)]
pub struct SystemFiles<'a, F: Files> {
    files: &'a F,
}

impl<'a, F: Files> SystemFiles<'a, F> {
    /// The files that are opened by `files`.
    pub fn new(files: &'a F) -> SystemFiles<'a, F>
        ensures { result.files.now ≡ files.now }
    {
        SystemFiles { files }
    }

    /// What they are opened and written by.
    pub(crate) fn system(&self) -> &F {
        self.files
    }
}

impl<'a, F: Files> FilesByName for SystemFiles<'a, F> {
    type File = F::File;

    // Nothing is known of the system's files.
    ghost opens = { λ _ _ _. Unit {0} };

    ghost fails = { λ _ _ _. Unit {0} };

    fn open(&self, name: &str) -> Result<F::File, InputFault> {
        match fs::open(self.files, name) {
            Ok(file) => Ok(file),
            Err(fault) => Err(open_fault(fault.kind())),
        }
    }
}
