//! What is told of the errors in a router's journal.

ghost use Rattle.std.specs.Prelude.{◌<◌, IfSome, length};

use abstract_paths::{ArrivalWay, Event};
use event_fields::read_event;
use interface_workers::{CountedEntry, Entry};
use lsr_facts::{Reply, Router, is_same_address};
use lsr_watch::push_error_name;
use rsvp_contents::{Content, Reading};
use rsvp_objects::Session;
use std::alloc::{AllocError, Global};
use std::fmt::Write;
use std::net::Ipv4Addr;

/// How many different lines are told of a segment.
const MOST_TOLD: usize = 32;
/// How many milliseconds a second has.
const SECOND_MS: u64 = 1_000;
/// How many milliseconds a tenth of a second has.
const TENTH_MS: u64 = 100;

/// An error of RSVP that a message met or brought.
#[derive(Clone, Copy)]
struct Found {
    /// The message's name.
    message: &'static str,
    session: Session,
    code: u8,
    value: u16,
    /// The router that found it, where that is another one.
    node: Option<Ipv4Addr>,
}

/// The error that a message of this content met, which was answered so, or that it brings to the end of an LSP.
fn found_in(content: &Content, reply: Reply) -> Option<Found> {
    let (message, session, error) = match (content, reply) {
        (Content::Path(path), Reply::Error(error)) => ("Path", path.session, error),
        (Content::Resv(resv), Reply::Error(error)) => ("Resv", resv.session, error),
        (Content::ResvErr(told), _) => {
            return Some(Found {
                message: "ResvErr",
                session: told.session,
                code: told.error.code,
                value: told.error.value,
                node: Some(told.error.node),
            });
        }
        _ => return None,
    };
    Some(Found {
        message,
        session,
        code: error.code,
        value: error.value,
        node: None,
    })
}

/// The line of an error, of a message that came over this link. The only error is out of memory.
fn found_line(alloc: Global, link: u16, found: Found) -> Result<String, AllocError> {
    let Found {
        message,
        session,
        code,
        value,
        node,
    } = found;
    let Session {
        endpoint,
        tunnel,
        extended,
    } = session;
    let mut line = String::new(alloc);
    write!(
        line,
        "{message} for {endpoint}/{tunnel}/{extended} over link {link}"
    )?;
    line.push_str(if node.is_some() {
        " received"
    } else {
        " refused"
    })?;
    write!(line, ": error {code}/{value}")?;
    push_error_name(alloc, &mut line, code, value)?;
    match node {
        Some(node) => write!(line, " from {node}")?,
        None => {}
    }
    Ok(line)
}

/// The line of a message that came from a neighbour, on the link of this number, which names another hop than the link's peer; none where it names
/// that, or no hop. The only error is out of memory.
fn stranger_line(
    alloc: Global,
    router: &Router,
    link: u16,
    content: &Content,
) -> Result<Option<String>, AllocError> {
    let hop = match content {
        Content::Path(path) => path.hop.address,
        Content::Resv(resv) => resv.hop.address,
        _ => return Ok(None),
    };
    match router.links.get(&link) {
        Some(known) if !is_same_address(known.peer, hop) => {
            let peer = known.peer;
            Ok(Some(format!(in alloc;
                "link {link}: a neighbour calls itself {hop}, and the link's peer is {peer}"
            )?))
        }
        _ => Ok(None),
    }
}

/// A line that is told of a segment.
#[derive(Drop)]
struct Line {
    text: String,
    /// When it would be told first, in milliseconds since the start; none before the segment's first tick.
    moment: Option<u64>,
    /// How often it would be told.
    times: u32,
}

/// Where the line of this text stands among these, if it does.
fn place_of(lines: &[Line], text: &str) -> Option<usize>
    ensures { IfSome result (λ place. place < length lines.now) }
{
    for place in 0..lines.len() {
        if lines[place].text.as_str() == text {
            return Some(place);
        }
    }
    None
}

/// What is told of a segment.
#[derive(Drop)]
struct Told {
    lines: Vec<Line>,
    /// How many others there were, for which there was no place.
    others: u32,
    /// The last tick, in milliseconds since the start; none before the segment's first.
    moment: Option<u64>,
}

impl Told {
    /// Counts a line with its like, or puts it to the others where there are few. The only error is out of memory.
    fn put(&mut self, line: Option<String>) -> Result<(), AllocError> {
        let Some(text) = line else {
            return Ok(());
        };
        if let Some(place) = place_of(self.lines.as_slice(), text.as_str()) {
            self.lines[place].times = self.lines[place].times.saturating_add(1);
            return Ok(());
        }
        if self.lines.len() >= MOST_TOLD {
            self.others = self.others.saturating_add(1);
            return Ok(());
        }
        self.lines.push(Line {
            text,
            moment: self.moment,
            times: 1,
        })?;
        Ok(())
    }

    /// Puts what is told of an entry of the router's journal. The only error is out of memory.
    fn put_entry(
        &mut self,
        alloc: Global,
        router: &Router,
        entry: &Entry,
    ) -> Result<(), AllocError> {
        let Ok(event) = read_event(alloc, entry.event.as_slice()) else {
            return Ok(());
        };
        let arrive = match &event {
            Event::Arrive(arrive) => arrive,
            Event::Tick(moment) => {
                self.moment = Some(*moment);
                return Ok(());
            }
            _ => return Ok(()),
        };
        let message = match &arrive.reading {
            Reading::Whole(message) => message,
            Reading::Unknown(message, _, _) => message,
        };
        if arrive.way == ArrivalWay::Hop {
            self.put(stranger_line(alloc, router, arrive.link, message.content())?)?;
        }
        if let Some(found) = found_in(message.content(), entry.reply) {
            self.put(Some(found_line(alloc, arrive.link, found)?))?;
        }
        Ok(())
    }

    /// The text of all. The only error is out of memory.
    fn text(&self, alloc: Global) -> Result<String, AllocError> {
        let mut text = String::new(alloc);
        for line in self.lines.as_slice() {
            if let Some(moment) = line.moment {
                let seconds = moment / SECOND_MS;
                let tenths = moment % SECOND_MS / TENTH_MS;
                write!(text, "{seconds}.{tenths} s: ")?;
            }
            text.push_str(line.text.as_str())?;
            match line.times {
                1 => text.push_str("\n")?,
                times => write!(text, ", {times} times\n")?,
            }
        }
        if self.others > 0 {
            write!(text, "{} other errors\n", self.others)?;
        }
        Ok(text)
    }
}

/// What is told of these entries of a router's journal: a line for each Path and Resv that was refused for an error, for each ResvErr that came, and
/// for each neighbour that isn't the link's peer, each with the time of the tick before it; equal ones are counted, and of more than 32 different ones
/// only their number is told. The only error is out of memory.
pub(crate) fn errors_text(
    alloc: Global,
    router: &Router,
    entries: &[CountedEntry],
) -> Result<String, AllocError> {
    let mut told = Told {
        lines: Vec::new(alloc),
        others: 0,
        moment: None,
    };
    for counted in entries {
        told.put_entry(alloc, router, &counted.entry)?;
    }
    told.text(alloc)
}
