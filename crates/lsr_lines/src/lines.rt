//! The lines of standard input, and what a line asks for.
ghost use Rattle.std.specs.Prelude.{◌≡◌, ◌≢◌, ◌<◌, ◌≤◌, ℕ, List, Ok, codes, length, IfOk, OnErr};
ghost use Rattle.std.specs.Bool.{MatchBool};
ghost use Rattle.std.specs.Char.{is_ascii_hexdigit};
ghost use Rattle.std.specs.List.{list_all};
ghost use Rattle.std.specs.Option.{MatchOption};
ghost use Rattle.hex.specs.Hex.{decode_of};
ghost use Rattle.lsr_lines.specs.declared.lines.Request.{Request};
ghost use Rattle.lsr_lines.specs.Lines.{AsksFor, AsksOf, AsksToTake, BringsAfter, BringsMore};
ghost use Rattle.lsr_lines.specs.Numbers.{NamesLink, NamesWhole};

use crate::commands::read_command;
use crate::numbers::{read_link, read_whole};
use crate::shown::{Shown, read_show, read_show_lsp};
use abstract_paths::Command;
use std::alloc::{AllocError, Global};

/// What came over a link.
#[derive(Drop)]
pub struct Arrival {
    /// The link's number, at least 1.
    pub link: u16,
    /// Its bytes: those of a message, or of a whole frame.
    pub bytes: Vec<u8>,
}

/// What a line of standard input asks for.
#[derive(Drop)]
pub enum Request {
    /// `rx LINK HEX`: the message came, in a Hop frame.
    Receive(Arrival),
    /// `frame LINK HEX`: the datagram came, which is a frame of any kind.
    Frame(Arrival),
    /// `tick N`: this moment came, in milliseconds.
    Tick(u64),
    /// `up LINK`: the link of this number, at least 1, came up.
    LinkUp(u16),
    /// `down LINK`: the link of this number, at least 1, went down.
    LinkDown(u16),
    /// `restart`: the router lost what messages had set up in it, and is cold.
    Restart,
    /// `start`: a cold router is started.
    Start,
    /// `tunnel ..`, `change ..`, `cancel N`, `drop N`, `bypass N TUNNEL LINK [CAPACITY]`, `unbypass N`, `route PREFIX LINK` or
    /// `unroute PREFIX`: a command about a tunnel, a bypass or a static route.
    Command(Command),
    /// `show recent`: the last replies are printed.
    Recent,
    /// `show ..` with anything else that can be shown: what the router knows is printed.
    Show(Shown),
}

// The words of lines, up to the first number.
const RECEIVE: &str = "rx ";

const FRAME: &str = "frame ";

const TICK: &str = "tick ";

const LINK_UP: &str = "up ";

const LINK_DOWN: &str = "down ";

const RESTART: &str = "restart";

const START: &str = "start";

const SHOW_RECENT: &str = "show recent";

/// The link that the line names after the word, which ends with a space; none where it is no such line.
fn read_link_after(word: &str, line: &str) -> Option<u16>
    ensures { MatchOption result ((link : ℕ) → ¬ AsksOf NamesLink word.now line.now link) (AsksOf NamesLink word.now line.now) }
{
    let digits = line.strip_prefix(word)?;
    read_link(digits)
}

/// The moment that the line names after the word, which ends with a space; none where it is no such line.
fn read_moment_after(word: &str, line: &str) -> Option<u64>
    ensures { MatchOption result ((moment : ℕ) → ¬ AsksOf NamesWhole word.now line.now moment) (AsksOf NamesWhole word.now line.now) }
{
    let digits = line.strip_prefix(word)?;
    read_whole(digits)
}

/// What a line asks for that is always the same, `restart`, `start` or `show recent`; none where it is no such line.
fn read_word(line: &str) -> Option<Request>
    ensures { MatchOption result
        ((line.now ≢ codes "restart") × (line.now ≢ codes "start") × (line.now ≢ codes "show recent"))
        (AsksFor line.now) }
{
    if line == RESTART {
        return Some(Request::Restart);
    }
    if line == START {
        return Some(Request::Start);
    }
    if line == SHOW_RECENT {
        return Some(Request::Recent);
    }
    None
}

/// What a line that names a link or a moment asks for: `tick N`, `up LINK` or `down LINK`; none where it is no such
/// line.
fn read_number(line: &str) -> Option<Request>
    ensures { MatchOption result
        (((moment : ℕ) → ¬ AsksOf NamesWhole (codes "tick ") line.now moment)
        × ((link : ℕ) → ¬ AsksOf NamesLink (codes "up ") line.now link) × ((link : ℕ) → ¬ AsksOf NamesLink (codes "down ") line.now link))
        (AsksFor line.now) }
{
    if let Some(moment) = read_moment_after(TICK, line) {
        return Some(Request::Tick(moment));
    }
    if let Some(link) = read_link_after(LINK_UP, line) {
        return Some(Request::LinkUp(link));
    }
    if let Some(link) = read_link_after(LINK_DOWN, line) {
        return Some(Request::LinkDown(link));
    }
    None
}

/// Whether all are hexadecimal digits, of either case.
pub fn are_hex_digits(digits: &[u8]) -> bool
    ensures { result ≡ list_all is_ascii_hexdigit digits.now }
{
    digits.iter().all(|digit| digit.is_ascii_hexdigit())
}

/// Whether the digits spell bytes, two digits for each.
fn spells_bytes(digits: &str) -> bool
    ensures { MatchBool result
        ((bytes : List ℕ) × (decode_of digits.now ≡ Ok bytes))
        ((bytes : List ℕ) → ¬ (decode_of digits.now ≡ Ok bytes)) }
{
    digits.len() % 2 == 0 && are_hex_digits(digits.as_bytes())
}

/// The bytes that the hexadecimal digits spell, perhaps none; none where they spell no bytes. The only error is that
/// there is no memory for the bytes.
fn read_bytes(alloc: Global, digits: &str) -> Result<Option<Vec<u8>>, AllocError>
    ensures bytes { IfOk result (λ bytes. MatchOption bytes
        ((some : List ℕ) → ¬ (decode_of digits.now ≡ Ok some))
        (λ b. decode_of digits.now ≡ Ok b.items)) }
    ensures memory { OnErr result ((some : List ℕ) × (decode_of digits.now ≡ Ok some) × (1 ≤ length some)) }
{
    if digits.is_empty() {
        return Ok(Some(Vec::new(alloc)));
    }
    if !spells_bytes(digits) {
        return Ok(None);
    }
    match hex::decode(alloc, digits) {
        Ok(bytes) => Ok(Some(bytes)),
        Err(_) => Err(AllocError),
    }
}

/// What the line brings over a link after the word, which ends with a space, as `rx LINK HEX` does; none where it is no
/// such line. The only error is that there is no memory for the bytes.
fn read_arrival(alloc: Global, word: &str, line: &str) -> Result<Option<Arrival>, AllocError>
    ensures arrival { IfOk result (λ arrival. MatchOption arrival
        ((link : ℕ) (bytes : List ℕ) → ¬ AsksToTake word.now line.now link bytes)
        (λ a. AsksToTake word.now line.now a.link a.bytes.items)) }
    ensures memory { OnErr result (BringsAfter word.now line.now) }
{
    let Some(words) = line.strip_prefix(word) else {
        return Ok(None);
    };
    let Some((link_digits, hex_digits)) = words.split_once(' ') else {
        return Ok(None);
    };
    let Some(link) = read_link(link_digits) else {
        return Ok(None);
    };
    match read_bytes(alloc, hex_digits)? {
        Some(bytes) => Ok(Some(Arrival { link, bytes })),
        None => Ok(None),
    }
}

/// What the line asks for: `rx LINK HEX`, `frame LINK HEX`, `tick N`, `up LINK`, `down LINK`, `restart`, `start`, a
/// command ([`Command`]), `show recent`, or `show` with what is shown ([`Shown`]); none where it is no such line. Words are
/// parted by one space. The only error is that there is no memory for bytes or for a tunnel that the line brings, so it never
/// comes in place of none.
pub fn read_request(alloc: Global, line: &str) -> Result<Option<Request>, AllocError>
    ensures request { IfOk result (λ request. MatchOption request
        ((asked : Request) → ¬ AsksFor line.now asked)
        (AsksFor line.now)) }
    ensures memory { OnErr result (BringsMore line.now) }
{
    if let Some(request) = read_word(line) {
        return Ok(Some(request));
    }
    if let Some(shown) = read_show(line) {
        return Ok(Some(Request::Show(shown)));
    }
    if let Some(shown) = read_show_lsp(line) {
        return Ok(Some(Request::Show(shown)));
    }
    if let Some(request) = read_number(line) {
        return Ok(Some(request));
    }
    if let Some(command) = read_command(alloc, line)? {
        return Ok(Some(Request::Command(command)));
    }
    if let Some(arrival) = read_arrival(alloc, RECEIVE, line)? {
        return Ok(Some(Request::Receive(arrival)));
    }
    match read_arrival(alloc, FRAME, line)? {
        Some(arrival) => Ok(Some(Request::Frame(arrival))),
        None => Ok(None),
    }
}
