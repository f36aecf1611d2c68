//! Files that are written whole.
ghost use Rattle.std.specs.Prelude.{◌≡◌, ℕ, List, IfOk, OnOk, string_bytes};
ghost use Rattle.std.specs.Io.KnownBytes.{Appends};
ghost use Rattle.lsr_runs.specs.Written.{fault_words, is_memory, kept_text, output_fault, output_fault_text, segment_name};

use crate::files::SystemFiles;
use lsr_text::OUT_OF_MEMORY;
use std::alloc::{Alloc, AllocError, Global};
use std::fs::OpenFile;
use std::io::{ErrorKind, Read, Write};
use std::rt::Files;
use std::{fs, io};

/// Why a file isn't written.
#[derive(Clone, Copy)]
pub enum OutputFault {
    /// The folder that it would stand in isn't there.
    Absent,
    /// Permissions don't allow it.
    Forbidden,
    /// What has its name is no regular file, but a folder, a device, a pipe or a link, which isn't replaced.
    NotAFile,
    /// A file has its name that isn't to be replaced.
    Present,
    /// A file has its name that doesn't begin as this one, so that it is something else, which isn't replaced.
    Foreign,
    /// The file that is written beside it is there: another run is writing it, or one was killed while it did.
    Claimed,
    /// It has no name: the prefix of its name ends with the name of a folder.
    Unnamed,
    /// It can't be written to its end, or not take the place of what has its name.
    Broken,
    /// It was let go, with what came after it.
    GivenUp,
    /// There is no memory for it, or for its name.
    Memory,
}

impl OutputFault {
    /// Whether there is no memory for it.
    fn is_memory(self) -> bool
        ensures { result ≡ is_memory self }
    {
        matches!(self, OutputFault::Memory)
    }

    /// What is told of it after the file's name, with what to do.
    pub fn words(self) -> &'static str
        ensures { result.now ≡ fault_words self }
    {
        match self {
            OutputFault::Absent => {
                " is in a folder that doesn't exist: create it, or give another name"
            }
            OutputFault::Forbidden => {
                " may not be written: look at its permissions and its folder's"
            }
            OutputFault::NotAFile => {
                " is no regular file, and is not replaced: give another name"
            }
            OutputFault::Present => {
                " is there already, and is kept: give another name, or move it away with those that belong to it"
            }
            OutputFault::Foreign => {
                " is there already, and is another kind of file, which is not replaced: give another name, or move it away"
            }
            OutputFault::Claimed => {
                " is there already: another router writes this journal, or one was killed while it did; give another prefix, or remove the file"
            }
            OutputFault::Unnamed => { " is the name of a folder: give the files a name in it" }
            OutputFault::Broken => " can't be written: look at the room on its disk",
            OutputFault::GivenUp => {
                " was let go with what came after it, for the files before it couldn't be written: look at the room on their disk"
            }
            OutputFault::Memory => " takes more memory than there is",
        }
    }
}

impl From<AllocError> for OutputFault {
    fn from(_: AllocError) -> OutputFault {
        OutputFault::Memory
    }
}

/// A file that isn't written.
#[derive(Drop)]
pub struct Unwritten {
    /// Its name; empty where there is no memory for it.
    pub name: String,
    /// Why it isn't.
    pub fault: OutputFault,
}

impl Unwritten {
    /// There is no memory for its name.
    pub fn unnamed(alloc: Global) -> Unwritten {
        Unwritten {
            name: String::new(alloc),
            fault: OutputFault::Memory,
        }
    }
}

/// Files that are written by their names. `holds` says which bytes a file of a name holds that was written.
pub trait WritesFiles {
    ghost holds: { Self → List ℕ → List ℕ → Type 0 };

    /// Writes the file of this name: it is never there with a part of these bytes. It takes the place of a file that is there only where that is
    /// empty or begins with the same 8 bytes, as one does that was written before it; nothing else that has the name is replaced. On an error
    /// what was there stays.
    fn write(&self, alloc: Global, name: &str, bytes: &[u8]) -> Result<(), OutputFault>
        ensures { OnOk result (holds self.now name.now bytes.now) };

    /// Claims the names `PREFIX.1`, `PREFIX.2` and so on for a run: no file has one of them, no other run has claimed them and hasn't written
    /// the first one yet, and their folder takes a file. The claim is the empty file `PREFIX.1.part`.
    fn claim(&self, alloc: Global, prefix: &str) -> Result<(), Unwritten>;

    /// Gives up a claim of which no file was written.
    fn release(&self, alloc: Global, prefix: &str);

    /// Writes the file of this name, of those that were claimed: it is never there with a part of these bytes, and is made anew. The first one is
    /// written into the file that was the claim. What has the name isn't replaced, whatever it is.
    fn write_claimed(
        &self,
        alloc: Global,
        name: &str,
        is_first: bool,
        bytes: &[u8],
    ) -> Result<(), OutputFault>
        ensures { OnOk result (holds self.now name.now bytes.now) };
}

/// Why a file isn't written, by the kind of the error.
fn output_fault(kind: ErrorKind) -> OutputFault
    ensures { result ≡ output_fault kind }
{
    match kind {
        ErrorKind::NotFound => OutputFault::Absent,
        ErrorKind::PermissionDenied => OutputFault::Forbidden,
        ErrorKind::AlreadyExists => OutputFault::Claimed,
        ErrorKind::OutOfMemory => OutputFault::Memory,
        _ => OutputFault::Broken,
    }
}

/// The name of the file that is written beside the one of this name, and takes its place when it is whole.
fn part_name(alloc: Global, name: &str) -> Result<String, AllocError> {
    format!(in alloc; "{name}.part")
}

/// Writes all of an open file, and waits until the disk has it.
fn fill<O: OpenFile + Write + Drop>(mut file: O, bytes: &[u8]) -> io::Result<()> {
    file.write_all(bytes)?;
    file.sync_all()
}

/// Writes a file that isn't there yet, or another one of its name.
fn write_part<F: Files>(files: &F, part: &str, bytes: &[u8]) -> io::Result<()> {
    fill(fs::create(files, part)?, bytes)
}

/// Writes a file that isn't there yet.
fn write_new_part<F: Files>(files: &F, part: &str, bytes: &[u8]) -> io::Result<()> {
    fill(fs::File::create_new(files, part)?, bytes)
}

/// Whether a file has this name, or nothing has it. The fault is that something else has it, or that this can't be seen.
fn has_file<F: Files>(files: &F, name: &str) -> Result<bool, OutputFault> {
    match fs::symlink_metadata(files, name) {
        Ok(found) if found.is_file() => Ok(true),
        Ok(_) => Err(OutputFault::NotAFile),
        Err(fault) if fault.kind() == ErrorKind::NotFound => Ok(false),
        Err(fault) => Err(output_fault(fault.kind())),
    }
}

/// How many bytes tell which kind of file one is: as many as a journal's magic and version.
const HEAD_BYTES: usize = 8;

/// Whether the file of this name is empty, or begins as one of these bytes does: with as many bytes as tell that.
fn begins_so<F: Files>(files: &F, name: &str, bytes: &[u8]) -> io::Result<bool> {
    let mut head = [0; HEAD_BYTES];
    let mut file = fs::open(files, name)?;
    let len = file.read(&mut head)?;
    Ok(len == 0 || len == HEAD_BYTES && bytes.starts_with(&head[..len]))
}

/// Whether a file may take this name: nothing has it, or a file that may be replaced.
fn may_replace<F: Files>(files: &F, name: &str, bytes: &[u8]) -> Result<(), OutputFault> {
    if !has_file(files, name)? {
        return Ok(());
    }
    match begins_so(files, name, bytes) {
        Ok(true) => Ok(()),
        Ok(false) => Err(OutputFault::Foreign),
        Err(fault) => Err(output_fault(fault.kind())),
    }
}

/// Gives the file that was written beside the one of this name that name, or takes it away where it couldn't be written.
fn put_in_place<F: Files>(
    files: &F,
    written: io::Result<()>,
    part: &str,
    name: &str,
) -> Result<(), OutputFault> {
    let placed = match written {
        Ok(()) => fs::rename(files, part, name),
        Err(fault) => Err(fault),
    };
    match placed {
        Ok(()) => Ok(()),
        Err(fault) => {
            let _ = fs::remove_file(files, part);
            Err(output_fault(fault.kind()))
        }
    }
}

/// Writes the file of this name, whole: beside it first.
fn write_file<F: Files>(
    files: &F,
    alloc: Global,
    name: &str,
    bytes: &[u8],
) -> Result<(), OutputFault> {
    may_replace(files, name, bytes)?;
    let part = part_name(alloc, name)?;
    put_in_place(
        files,
        write_part(files, part.as_str(), bytes),
        part.as_str(),
        name,
    )
}

/// Writes a file that was claimed, whole: beside it first, which no other run does at the same time.
fn write_claimed<F: Files>(
    files: &F,
    alloc: Global,
    name: &str,
    is_first: bool,
    bytes: &[u8],
) -> Result<(), OutputFault> {
    if has_file(files, name)? {
        return Err(OutputFault::Present);
    }
    let part = part_name(alloc, name)?;
    let part = part.as_str();
    if is_first {
        return put_in_place(files, write_part(files, part, bytes), part, name);
    }
    match write_new_part(files, part, bytes) {
        Err(fault) if fault.kind() == ErrorKind::AlreadyExists => Err(OutputFault::Claimed),
        written => put_in_place(files, written, part, name),
    }
}

/// The name of the file of a segment: the prefix, a dot, and its number.
pub fn segment_name(alloc: Global, prefix: &str, number: usize) -> Result<String, AllocError>
    ensures { IfOk result (λ name. string_bytes name ≡ segment_name prefix.now number) }
{
    format!(in alloc; "{prefix}.{number}")
}

/// The number of the first segment.
const FIRST: usize = 1;

/// The name that the claim of a prefix has.
fn claim_name(alloc: Global, prefix: &str) -> Result<String, AllocError> {
    let first = segment_name(alloc, prefix, FIRST)?;
    part_name(alloc, first.as_str())
}

/// The folder of the files of a prefix, and what their names in it begin with.
fn split_prefix(prefix: &str) -> (&str, &str) {
    match prefix.rsplit_once('/') {
        Some(("", stem)) => ("/", stem),
        Some((folder, stem)) => (folder, stem),
        None => (".", prefix),
    }
}

/// The digits at the end of a file's name in its folder, where it is that of a segment: what its name begins with, a dot, and digits.
fn segment_digits<'a>(stem: &str, name: &'a str) -> Option<&'a str> {
    let digits = name.strip_prefix(stem)?.strip_prefix('.')?;
    if digits.is_empty() || !digits.bytes().all(|digit| digit.is_ascii_digit()) {
        return None;
    }
    Some(digits)
}

/// The name of a segment of this prefix that is there, if one is.
fn find_segment<F: Files + Alloc + Clone + Drop>(
    files: &F,
    alloc: Global,
    prefix: &str,
) -> io::Result<Option<String>> {
    let (folder, stem) = split_prefix(prefix);
    for entry in fs::read_dir(files, folder)? {
        let entry = entry?;
        if let Some(digits) = segment_digits(stem, entry.file_name()) {
            return Ok(Some(format!(in alloc; "{prefix}.{digits}")?));
        }
    }
    Ok(None)
}

/// The file of this name isn't written, where there is memory for the name.
fn not_written(alloc: Global, name: Result<String, AllocError>, fault: OutputFault) -> Unwritten {
    match name {
        Ok(name) => Unwritten { name, fault },
        Err(_) => Unwritten::unnamed(alloc),
    }
}

/// Claims the names of the segments of a prefix: none is there, and the file of the claim is made.
fn claim<F: Files + Alloc + Clone + Drop>(
    files: &F,
    alloc: Global,
    prefix: &str,
) -> Result<(), Unwritten> {
    let (_, stem) = split_prefix(prefix);
    if stem.is_empty() {
        let name = String::from_str(alloc, prefix);
        return Err(not_written(alloc, name, OutputFault::Unnamed));
    }
    match find_segment(files, alloc, prefix) {
        Ok(None) => {}
        Ok(Some(name)) => return Err(not_written(alloc, Ok(name), OutputFault::Present)),
        Err(fault) => {
            let first = segment_name(alloc, prefix, FIRST);
            return Err(not_written(alloc, first, output_fault(fault.kind())));
        }
    }
    let Ok(name) = claim_name(alloc, prefix) else {
        return Err(Unwritten::unnamed(alloc));
    };
    match fs::File::create_new(files, name.as_str()) {
        Ok(_file) => Ok(()),
        Err(fault) => Err(not_written(alloc, Ok(name), output_fault(fault.kind()))),
    }
}

/// Takes the file of a claim away. Where there is no memory for its name, or the system refuses, it stays.
fn release<F: Files>(files: &F, alloc: Global, prefix: &str) {
    if let Ok(name) = claim_name(alloc, prefix) {
        let _ = fs::remove_file(files, name.as_str());
    }
}

impl<'a, F: Files + Alloc + Clone + Drop> WritesFiles for SystemFiles<'a, F> {
    // Nothing is known of the system's files.
    ghost holds = { λ _ _ _. Unit {0} };

    fn write(&self, alloc: Global, name: &str, bytes: &[u8]) -> Result<(), OutputFault> {
        write_file(self.system(), alloc, name, bytes)
    }

    fn claim(&self, alloc: Global, prefix: &str) -> Result<(), Unwritten> {
        claim(self.system(), alloc, prefix)
    }

    fn release(&self, alloc: Global, prefix: &str) {
        release(self.system(), alloc, prefix);
    }

    fn write_claimed(
        &self,
        alloc: Global,
        name: &str,
        is_first: bool,
        bytes: &[u8],
    ) -> Result<(), OutputFault> {
        write_claimed(self.system(), alloc, name, is_first, bytes)
    }
}

/// Tells why the file of this name isn't written, and what to do. The error is the stream's.
pub fn tell_output_fault<E: Write>(error: &mut E, name: &str, fault: OutputFault) -> io::Result<()>
    ensures { OnOk result (Appends (E.contents error.old) (E.contents error.new) (output_fault_text name.now fault)) }
{
    if fault.is_memory() {
        return write!(error, "{OUT_OF_MEMORY}\n");
    }
    let words = fault.words();
    write!(error, "unwritable\n  {name}{words}, and run it again\n")
}

/// Tells why the file of this name isn't written, where it isn't. The error is the stream's.
pub(crate) fn tell_kept<E: Write>(
    error: &mut E,
    name: &str,
    kept: Result<(), OutputFault>,
) -> io::Result<()>
    ensures { OnOk result (Appends (E.contents error.old) (E.contents error.new) (kept_text name.now kept)) }
{
    match kept {
        Ok(()) => Ok(()),
        Err(fault) => tell_output_fault(error, name, fault),
    }
}
