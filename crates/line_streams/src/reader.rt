//! The lines of a stream, each as soon as it has come.
ghost use Rattle.std.specs.Prelude.{◌≡◌, ◌≤◌, ◌<◌, ◌∷◌, ◌++◌, ◌⊎◌, ℕ, List, [], true, length, IfErr, IfOk, OnErr, OnOk};
ghost use Rattle.std.specs.Bool.{MatchBool};
ghost use Rattle.std.specs.Io.KnownBytes.{Consumes, IsAtEnd, Keeps};
ghost use Rattle.line_streams.specs.Streams.{Finds, IsOneLine, Overfills, StopsShort, left_of};
ghost use Rattle.line_streams.specs.declared.input.InputFault.TheVariants.{Broken, Folder, Memory};

use crate::input::{InputFault, MAX_INPUT_LEN, fault_of};
use crate::newline::split_line;
use crate::stream::ByteStream;
use std::alloc::Global;

/// How many bytes a read asks for.
const CHUNK_LEN: usize = 65_536;

/// What a reader found.
#[derive(Clone, Copy, Debug, PartialEq, Eq)]
pub enum Found {
    /// A line, which a newline ends.
    Line,
    /// The last line, which the end of the stream ends.
    LastLine,
    /// The end of the stream, after its last line.
    End,
}

/// Reads the lines of a stream, and keeps what came of it and was given in no line yet.
#[derive(Debug, Drop)]
pub struct LineReader {
    /// What the last read gave.
    came: Vec<u8>,
    /// How many of these bytes were given.
    given: usize,
}

/// Appends the bytes to the line, where that leaves it with at most [`MAX_INPUT_LEN`] bytes.
fn extend(line: &mut Vec<u8>, bytes: &[u8]) -> Result<(), InputFault>
    ensures whole { OnOk result (line.new.items ≡ line.old.items ++ bytes.now) }
    ensures short { OnOk result (length line.new.items ≤ MAX_INPUT_LEN) }
    ensures fault { IfErr result (Overfills line.old.items bytes.now) }
{
    match line.len().checked_add(bytes.len()) {
        Some(len) if len <= MAX_INPUT_LEN => {
            line.extend_from_slice(bytes)?;
            Ok(())
        }
        _ => Err(InputFault::TooLong),
    }
}

impl LineReader {
    /// A reader to which nothing has come.
    pub fn new(alloc: Global) -> LineReader
        ensures { left_of result ≡ [] }
    {
        LineReader {
            came: Vec::new(alloc),
            given: 0,
        }
    }

    /// What was given in no line yet.
    fn left(&self) -> &[u8]
        ensures { result.now ≡ left_of self.now }
    {
        if self.given > self.came.len() {
            return &[];
        }
        let (_, left) = self.came.as_slice().split_at(self.given);
        left
    }

    /// Moves what is left to the line, up to the first newline: whether there is one, which is given, too.
    fn take_line(&mut self, line: &mut Vec<u8>) -> Result<bool, InputFault>
        ensures front { IfOk result (λ ended. (front : List ℕ) × IsOneLine front × (line.new.items ≡ line.old.items ++ front)
            × MatchBool ended (left_of self.old ≡ front ++ (10 ∷ left_of self.new)) (left_of self.old ≡ front)) }
        ensures short { OnOk result (length line.new.items ≤ MAX_INPUT_LEN) }
        ensures fault { IfErr result (StopsShort line.old.items (left_of self.old)) }
    {
        let left = self.left();
        match split_line(left) {
            Some((front, rest)) => {
                extend(line, front)?;
                self.given = self.came.len() - rest.len();
                Ok(true)
            }
            None => {
                extend(line, left)?;
                self.given = self.came.len();
                Ok(false)
            }
        }
    }

    /// Reads once, where nothing is left: how many bytes came, 0 at the end of the stream.
    fn read_more<S: ByteStream>(&mut self, input: &mut S) -> Result<usize, InputFault>
        ensures few { OnOk result (length (left_of self.new) ≤ CHUNK_LEN) }
        ensures bytes { OnOk result (Consumes (S.stream input.old).bytes (S.stream input.new).bytes (left_of self.new)) }
        ensures count { IfOk result (λ count. count ≡ length (left_of self.new)) }
        ensures end { IfOk result (λ count. count ≡ 0 → IsAtEnd (S.stream input.new).bytes) }
        ensures breaks { (S.stream input.new).may_break ≡ true → (S.stream input.old).may_break ≡ true }
        ensures kept { OnErr result (Keeps (S.stream input.old).bytes (S.stream input.new).bytes) }
        ensures fault { IfErr result (λ fault. (fault ≡ Memory) ⊎ (((fault ≡ Broken) ⊎ (fault ≡ Folder)) × ((S.stream input.old).may_break ≡ true))) }
    {
        self.came.resize(CHUNK_LEN, 0)?;
        match input.read_next(self.came.as_mut_slice()) {
            Ok(count) => {
                self.came.truncate(count);
                self.given = 0;
                Ok(count)
            }
            Err(error) => {
                self.came.clear();
                Err(fault_of(&error))
            }
        }
    }

    /// Reads the next line, without its newline. An error is that the stream broke, that the line has more than
    /// [`MAX_INPUT_LEN`] bytes, or that there is no memory for it.
    pub fn read_line<S: ByteStream>(
        &mut self,
        input: &mut S,
        line: &mut Vec<u8>,
    ) -> Result<Found, InputFault>
        requires few { length (left_of self.old) ≤ CHUNK_LEN }
        ensures finds { Finds (S.stream input.old) (S.stream input.new) (left_of self.old) line.new.items (left_of self.new) result }
        ensures breaks { (S.stream input.new).may_break ≡ true → (S.stream input.old).may_break ≡ true }
    {
        line.clear();
        'reads: loop {
            if self.take_line(line)? {
                return Ok(Found::Line);
            }
            if self.read_more(input)? == 0 {
                return Ok(if line.is_empty() {
                    Found::End
                } else {
                    Found::LastLine
                });
            }
        }
    }
}
