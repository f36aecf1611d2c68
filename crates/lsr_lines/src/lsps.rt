//! The words that name an LSP.
ghost use Rattle.std.specs.Prelude.{◌≡◌, ◌≢◌, ◌∷◌, [], length};
ghost use Rattle.std.specs.Option.{MatchOption};
ghost use Rattle.rsvp_bodies.specs.Finding.{Finds};
ghost use Rattle.lsr_lines.specs.Lsps.{SaysLsp, SaysSender, SaysSession, parts_left, parts_of};
ghost use Rattle.lsr_lines.specs.Commands.{words_left};

use crate::numbers::read_up_to;
use crate::words::{next_word, only_word};
use std::net::Ipv4Addr;

/// What tells one LSP from all others, as words name it: `ENDPOINT/TUNNEL/EXTENDED SENDER/LSP` (RFC 3209, 4.6).
#[derive(Clone, Copy)]
pub struct LspName {
    /// Its session.
    pub session: SessionName,
    /// Its head and its LSP ID.
    pub sender: SenderName,
}

/// A session, as a word names it: `ENDPOINT/TUNNEL/EXTENDED` (RFC 3209, 4.6.1).
#[derive(Clone, Copy)]
pub struct SessionName {
    /// Where the tunnel ends.
    pub endpoint: Ipv4Addr,
    /// The tunnel's number.
    pub tunnel: u16,
    /// The extended tunnel ID, mostly the address of the tunnel's head.
    pub extended: Ipv4Addr,
}

/// An LSP of a session, as a word names it: `SENDER/LSP` (RFC 3209, 4.6.2).
#[derive(Clone, Copy)]
pub struct SenderName {
    /// The address of its head.
    pub sender: Ipv4Addr,
    /// Its LSP ID.
    pub lsp: u16,
}

/// The greatest number of a tunnel, and the greatest LSP ID.
const MAX_NUMBER: u16 = 65_535;

/// What parts two parts of a word.
const SLASH: char = '/';

/// The next part of what is left of a word, and what is left after it; none where nothing is left.
fn next_part(left: Option<&str>) -> Option<(&str, Option<&str>)>
    ensures { MatchOption result (parts_left left.entry ≡ []) (λ r. parts_left left.entry ≡ r.0.now ∷ parts_left r.1) }
{
    let text = left?;
    match text.split_once(SLASH) {
        Some((part, rest)) => Some((part, Some(rest))),
        None => Some((text, None)),
    }
}

/// The part that is all that is left of a word; none where nothing is left, or more than one part.
fn only_part(left: Option<&str>) -> Option<&str>
    ensures { MatchOption result (length (parts_left left.entry) ≢ 1) (λ part. parts_left left.entry ≡ part.now ∷ []) }
{
    let (part, left) = next_part(left)?;
    if left.is_some() {
        return None;
    }
    Some(part)
}

/// The session that its three parts name.
fn session_said(endpoint: &str, tunnel: &str, extended: &str) -> Option<SessionName>
    ensures { Finds (SaysSession (endpoint.now ∷ tunnel.now ∷ extended.now ∷ [])) result }
{
    let Ok(endpoint) = endpoint.parse() else {
        return None;
    };
    let tunnel = read_up_to(MAX_NUMBER, tunnel)?;
    let Ok(extended) = extended.parse() else {
        return None;
    };
    Some(SessionName {
        endpoint,
        tunnel,
        extended,
    })
}

/// The session that the word names.
fn read_session(word: &str) -> Option<SessionName>
    ensures { Finds (SaysSession (parts_of word.now)) result }
{
    let (endpoint, left) = next_part(Some(word))?;
    let (tunnel, left) = next_part(left)?;
    session_said(endpoint, tunnel, only_part(left)?)
}

/// The LSP of a session that its two parts name.
fn sender_said(sender: &str, lsp: &str) -> Option<SenderName>
    ensures { Finds (SaysSender (sender.now ∷ lsp.now ∷ [])) result }
{
    let Ok(sender) = sender.parse() else {
        return None;
    };
    let lsp = read_up_to(MAX_NUMBER, lsp)?;
    Some(SenderName { sender, lsp })
}

/// The LSP of a session that the word names.
fn read_sender(word: &str) -> Option<SenderName>
    ensures { Finds (SaysSender (parts_of word.now)) result }
{
    let (sender, left) = next_part(Some(word))?;
    sender_said(sender, only_part(left)?)
}

/// The LSP that its two words name.
fn lsp_said(session: &str, sender: &str) -> Option<LspName>
    ensures { Finds (SaysLsp (session.now ∷ sender.now ∷ [])) result }
{
    let session = read_session(session)?;
    let sender = read_sender(sender)?;
    Some(LspName { session, sender })
}

/// The LSP that the words name; none where they name none.
pub(crate) fn read_lsp(left: Option<&str>) -> Option<LspName>
    ensures { Finds (SaysLsp (words_left left.entry)) result }
{
    let (session, left) = next_word(left)?;
    lsp_said(session, only_word(left)?)
}
