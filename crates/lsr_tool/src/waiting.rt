//! LSPs that begin here and don't come up.

use lsr_facts::{Key, Noted, Router, State, current_key, pending_key};
use lsr_watch::{is_up, push_error_name};
use sorted_rows::Table;
use std::alloc::{AllocError, Global};
use std::fmt::Write;

/// How many milliseconds a second has.
const SECOND_MS: u64 = 1_000;
/// How long an LSP may take to come up before that is told, in milliseconds.
const PATIENCE_MS: u64 = 2_000;
/// How long after it was told it is told again, in milliseconds.
const AGAIN_MS: u64 = 60_000;

/// Since when an LSP isn't up, and when that is told next, in milliseconds since the start.
#[derive(Clone, Copy)]
struct Wait {
    since: u64,
    next: u64,
}

/// The LSPs that begin here and aren't up.
#[derive(Drop)]
pub(crate) struct Waiting {
    lsps: Table<Key, Wait>,
}

impl Waiting {
    /// None yet.
    pub(crate) fn new(alloc: Global) -> Waiting {
        Waiting {
            lsps: Table::new(alloc),
        }
    }

    /// Looks at all that begin here: what is told of those that aren't up for two seconds, and then each minute, a line each. The only error is out of
    /// memory.
    pub(crate) fn look(
        &mut self,
        alloc: Global,
        router: &Router,
        state: &State,
    ) -> Result<String, AllocError> {
        let mut text = String::new(alloc);
        if state.facts.cold {
            // (that is told by itself, and a stopped router's clock stands still)
            return Ok(text);
        }
        let mut left = Table::new(alloc);
        for (number, tunnel) in state.facts.tunnels.as_slice() {
            let current = current_key(router, *number, tunnel);
            self.look_at(alloc, &mut text, &mut left, state, current, tunnel.noted)?;
            if let Some(pending) = pending_key(router, *number, tunnel) {
                self.look_at(alloc, &mut text, &mut left, state, pending, tunnel.noted)?;
            }
        }
        self.lsps = left;
        Ok(text)
    }

    /// Looks at an LSP, of whose tunnel this error came last: puts it to those that are left where it isn't up, and appends what is told of it.
    fn look_at(
        &self,
        alloc: Global,
        text: &mut String,
        left: &mut Table<Key, Wait>,
        state: &State,
        key: Key,
        noted: Option<Noted>,
    ) -> Result<(), AllocError> {
        if is_up(state, &key) {
            return Ok(());
        }
        let now = state.facts.moment;
        let mut wait = match self.lsps.get(&key) {
            Some(wait) => *wait,
            None => Wait {
                since: now,
                next: now.saturating_add(PATIENCE_MS),
            },
        };
        if now >= wait.next {
            let seconds = now.saturating_sub(wait.since) / SECOND_MS;
            let tunnel = key.session.tunnel;
            let lsp = key.sender.lsp;
            let why = why_not_up(state, &key);
            write!(
                text,
                "tunnel {tunnel}: lsp {lsp} is not up for {seconds} s: {why}"
            )?;
            push_noted(alloc, text, noted)?;
            text.push_str("\n")?;
            wait.next = now.saturating_add(AGAIN_MS);
        }
        left.set(key, wait)?;
        Ok(())
    }
}

/// Why an LSP that begins here isn't up.
fn why_not_up(state: &State, key: &Key) -> &'static str {
    if state.facts.paths.contains_key(key) {
        "its Path is sent, and no Resv has come"
    } else {
        "no link that is up leads to the next hop of its route"
    }
}

/// Appends the error that came last for an LSP of a tunnel, and which router found it, if one came. The only error is out of memory.
fn push_noted(alloc: Global, text: &mut String, noted: Option<Noted>) -> Result<(), AllocError> {
    let Some(Noted { node, code, value }) = noted else {
        return Ok(());
    };
    write!(text, "; last error {code}/{value}")?;
    push_error_name(alloc, text, code, value)?;
    write!(text, " from {node}")
}
