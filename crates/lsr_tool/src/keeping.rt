//! The journal of `lsr serve`, as files.

ghost use Rattle.std.specs.Prelude.{◌≡◌, IfOk, Ok};
ghost use Rattle.lsr_config.specs.Configs.{Setup};
ghost use Rattle.lsr_config.specs.Reading.{IsRead};
ghost use Rattle.lsr_journal.specs.Segments.{SpellsSegment};

use crate::telling::errors_text;
use lsr_journal::{Segment, write_segment};
use lsr_runs::{OutputFault, Unwritten, WritesFiles, segment_name};
use lsr_serve::{BesideClock, KeepSegments, NotKept};
use std::alloc::{AllocError, Global};
use std::fmt::Write;
use std::mem;
use std::sync::{Mutex, Wait};

/// What the router's threads hand over to the thread that began the run: they can write neither files nor a log.
#[derive(Drop)]
pub(crate) struct Handed {
    /// The files of segments, in their order.
    files: Vec<Vec<u8>>,
    /// What is told of the errors in them, a line each.
    errors: String,
}

impl Handed {
    /// Nothing yet.
    pub(crate) fn new(alloc: Global) -> Handed {
        Handed {
            files: Vec::new(alloc),
            errors: String::new(alloc),
        }
    }
}

/// Where it is handed over.
pub(crate) type HandOver = Mutex<Handed>;

/// What is wanted of a router's journal.
#[derive(Clone, Copy)]
pub(crate) struct Wanted {
    /// The files of its segments.
    pub(crate) files: bool,
    /// What is told of the errors in them.
    pub(crate) errors: bool,
}

/// Keeps the segments of a router's journal as files, and tells the errors in them, where that is wanted.
#[derive(Drop)]
pub(crate) struct SegmentKeeper<'a, R: Wait> {
    rt: &'a R,
    alloc: Global,
    handed: &'a HandOver,
    wanted: Wanted,
    /// The text of the router's configuration.
    text: &'a str,
    /// How many segments are kept.
    kept: u64,
}

impl<'a, R: Wait> SegmentKeeper<'a, R> {
    /// None is kept yet.
    pub(crate) fn new(
        rt: &'a R,
        alloc: Global,
        handed: &'a HandOver,
        wanted: Wanted,
        text: &'a str,
    ) -> SegmentKeeper<'a, R>
        ensures { result.kept ≡ 0 }
    {
        SegmentKeeper {
            rt,
            alloc,
            handed,
            wanted,
            text,
            kept: 0,
        }
    }

    /// Hands the file of a segment over. The only error is out of memory.
    fn put_file(&self, segment: &Segment) -> Result<(), AllocError> {
        let file = segment_file(self.alloc, self.text, segment)?;
        let mut handed = self.handed.lock(self.rt);
        handed.files.push(file)?;
        Ok(())
    }

    /// Hands over what is told of the errors in a segment. For want of memory nothing is told of them.
    fn put_errors(&self, segment: &Segment) {
        if let Ok(errors) = errors_text(self.alloc, segment.router(), segment.entries()) {
            let mut handed = self.handed.lock(self.rt);
            let _ = handed.errors.push_str(errors.as_str());
        }
    }
}

/// The file of a segment, with the text that says its router's configuration. The error is that there is none, for want of memory.
fn segment_file(alloc: Global, text: &str, segment: &Segment) -> Result<Vec<u8>, AllocError>
    ensures { IfOk result (λ bytes. (config : Setup) → IsRead text.now (Ok config) → segment.now.router ≡ config.router
        → SpellsSegment bytes.items text.now config segment.now) }
{
    let mut bytes = Vec::new(alloc);
    write_segment(text, segment, &mut bytes)?;
    Ok(bytes)
}

impl<R: Wait> KeepSegments for SegmentKeeper<'_, R> {
    ghost given = { λ keeper. keeper.kept };

    fn keep(&mut self, number: u64, segment: &Segment) -> Result<(), NotKept> {
        if self.wanted.files && self.put_file(segment).is_err() {
            return Err(NotKept);
        }
        if self.wanted.errors {
            self.put_errors(segment);
        }
        self.kept = number;
        Ok(())
    }
}

/// The number of the first file.
const FIRST: usize = 1;
/// How many bytes of files wait at most to be written, where one can't be: some thousand minutes of a router at rest.
const MOST_WAITING: usize = 67_108_864;
/// How many milliseconds a second has.
const SECOND_MS: u64 = 1_000;

/// What is done beside a router's clock, and what is to be told of it.
pub(crate) trait Journaling: BesideClock {
    /// What is to be told since it was asked for last, a line each.
    fn take_news(&mut self) -> String;

    /// What is told of a file that isn't written, where it is this moment, in milliseconds since the start: since when, which, why, and how
    /// many wait. Nothing where all are written, and for want of memory.
    fn unwritten(&mut self, moment: u64) -> String;
}

/// Writes the files of segments while the run goes on, by their numbers from 1 on, each whole, on the thread that began the run.
#[derive(Drop)]
pub(crate) struct SegmentWriter<'a, F, R: Wait> {
    files: &'a F,
    rt: &'a R,
    alloc: Global,
    /// What the files' names begin with, if they are wanted.
    prefix: Option<&'a str>,
    handed: &'a HandOver,
    /// How many are written.
    written: usize,
    /// The next ones, which wait to be written.
    waiting: Vec<Vec<u8>>,
    /// The first of them, where it couldn't be written.
    unwritten: Option<Unwritten>,
    /// Since which moment one isn't written, if one isn't.
    since: Option<u64>,
    /// Whether a file was let go, for want of room.
    is_given_up: bool,
    /// What is to be told, a line each.
    news: String,
}

impl<'a, F: WritesFiles, R: Wait> SegmentWriter<'a, F, R> {
    /// None is written yet.
    pub(crate) fn new(
        files: &'a F,
        rt: &'a R,
        alloc: Global,
        prefix: Option<&'a str>,
        handed: &'a HandOver,
    ) -> SegmentWriter<'a, F, R> {
        SegmentWriter {
            files,
            rt,
            alloc,
            prefix,
            handed,
            written: 0,
            waiting: Vec::new(alloc),
            unwritten: None,
            since: None,
            is_given_up: false,
            news: String::new(alloc),
        }
    }

    /// Takes what was handed over since.
    fn take_handed(&self) -> Handed {
        let mut handed = self.handed.lock(self.rt);
        mem::replace(&mut *handed, Handed::new(self.alloc))
    }

    /// Writes the next file.
    fn write_next(&mut self, prefix: &str, bytes: &[u8]) -> Result<(), Unwritten> {
        let number = self.written.saturating_add(FIRST);
        let Ok(name) = segment_name(self.alloc, prefix, number) else {
            return Err(Unwritten::unnamed(self.alloc));
        };
        let is_first = number == FIRST;
        match self
            .files
            .write_claimed(self.alloc, name.as_str(), is_first, bytes)
        {
            Ok(()) => {
                self.written = number;
                Ok(())
            }
            Err(fault) => Err(Unwritten { name, fault }),
        }
    }

    /// How many bytes wait.
    fn waiting_bytes(&self) -> usize {
        let mut sum = 0_usize;
        for bytes in self.waiting.as_slice() {
            sum = sum.saturating_add(bytes.len());
        }
        sum
    }

    /// Lets a file wait, after the others. For want of memory it is let go.
    fn wait_on(&mut self, bytes: Vec<u8>) {
        if self.waiting.push(bytes).is_err() {
            self.is_given_up = true;
        }
    }

    /// Lets a new file wait, where there is room. After one that is let go no new one waits, since the files of a journal follow one another.
    fn put_waiting(&mut self, bytes: Vec<u8>) {
        let waiting = self.waiting_bytes().saturating_add(bytes.len());
        if self.is_given_up || waiting > MOST_WAITING {
            self.is_given_up = true;
            return;
        }
        self.wait_on(bytes);
    }

    /// Writes those that wait, one after the other, up to one that can't be written.
    fn write_waiting(&mut self, prefix: &str) {
        self.unwritten = None;
        let waiting = mem::replace(&mut self.waiting, Vec::new(self.alloc));
        for bytes in waiting {
            if self.unwritten.is_none() {
                match self.write_next(prefix, bytes.as_slice()) {
                    Ok(()) => continue,
                    Err(unwritten) => self.unwritten = Some(unwritten),
                }
            }
            self.wait_on(bytes);
        }
    }

    /// Notes what is to be told: that a file isn't written, or that all are again. For want of memory that isn't told.
    fn note(&mut self, was_unwritten: bool) {
        let waiting = self.waiting.len();
        let news = &mut self.news;
        let _ = match &self.unwritten {
            Some(Unwritten { name, fault }) if self.is_given_up => write!(
                news,
                "journal: {name}{}; too much waits for it, and what comes now is lost\n",
                fault.words()
            ),
            Some(Unwritten { name, fault }) => write!(
                news,
                "journal: {name}{}; {waiting} files wait in memory, and are tried again with the next\n",
                fault.words()
            ),
            None if was_unwritten => news.push_str("journal: all files that waited are written\n"),
            None => Ok(()),
        };
    }

    /// Writes these files, behind those that wait.
    fn write_all(&mut self, prefix: &str, files: Vec<Vec<u8>>) {
        let was_unwritten = self.unwritten.is_some();
        for bytes in files {
            self.put_waiting(bytes);
        }
        self.write_waiting(prefix);
        self.note(was_unwritten);
    }

    /// Writes what is left when the run is over, and gives the claim up where there is no file. The fault is the first file that isn't written.
    pub(crate) fn finish(mut self) -> Result<(), Unwritten> {
        self.after_moment();
        let Some(prefix) = self.prefix else {
            return Ok(());
        };
        self.write_waiting(prefix);
        if self.written == 0 {
            self.files.release(self.alloc, prefix);
        }
        if let Some(unwritten) = mem::replace(&mut self.unwritten, None) {
            return Err(unwritten);
        }
        if self.is_given_up {
            return Err(self.given_up(prefix));
        }
        Ok(())
    }

    /// The file that was let go.
    fn given_up(&self, prefix: &str) -> Unwritten {
        match segment_name(self.alloc, prefix, self.written.saturating_add(FIRST)) {
            Ok(name) => Unwritten {
                name,
                fault: OutputFault::GivenUp,
            },
            Err(_) => Unwritten::unnamed(self.alloc),
        }
    }
}

impl<F: WritesFiles, R: Wait> BesideClock for SegmentWriter<'_, F, R> {
    /// Writes the files that were handed over since. They are taken at once, so that the router waits for no disk.
    fn after_moment(&mut self) {
        let Handed { files, errors } = self.take_handed();
        let _ = self.news.push_str(errors.as_str());
        if let Some(prefix) = self.prefix {
            if !files.is_empty() {
                self.write_all(prefix, files);
            }
        }
    }
}

impl<F: WritesFiles, R: Wait> Journaling for SegmentWriter<'_, F, R> {
    fn take_news(&mut self) -> String {
        mem::replace(&mut self.news, String::new(self.alloc))
    }

    fn unwritten(&mut self, moment: u64) -> String {
        let mut text = String::new(self.alloc);
        let Some(Unwritten { name, fault }) = &self.unwritten else {
            self.since = None;
            return text;
        };
        let since = self.since.unwrap_or(moment);
        self.since = Some(since);
        let seconds = since / SECOND_MS;
        let words = fault.words();
        let waiting = self.waiting.len();
        let _ = write!(
            text,
            "journal since {seconds} s: {name}{words}; {waiting} files wait\n"
        );
        text
    }
}
