//! How much each port did, as an operator is told.
ghost use Rattle.std.specs.List.{enumerate_from};
ghost use Rattle.std.specs.Prelude.{◌≡◌, ◌⊎◌, ◌++◌, [], IfOk, OnOk, flat_map, string_bytes};
ghost use Rattle.lsr_console.specs.Counters.{counted_at, counters_text, counts_with, heading, lost_words, port_line, port_name, refused_words, taken_words, tally_sum};

use interface_workers::Tally;
use lsr_config::LinkSockets;
use lsr_serve::PortCount;
use sorted_rows::Table;
use std::alloc::{AllocError, Global};
use std::fmt::Write;

/// What is told before the first round is over.
const NOTHING_YET: &str =
    "nothing is counted yet: the first round, of a minute at most, isn't over\n";

/// What stands before the lines of the ports.
const UP_TO: &str = "counted up to the end of the last round, at most a minute ago\n";

/// What each port did up to the end of the last round.
#[derive(Drop)]
pub(crate) struct Counters {
    /// What became of what each port took, in the order of the ports; none before the first round is over.
    pub(crate) ports: Vec<Tally>,
}

impl Counters {
    /// No round is over yet. Takes no memory.
    pub(crate) fn new(alloc: Global) -> Counters
        ensures { result.ports.items ≡ [] }
    {
        Counters {
            ports: Vec::new(alloc),
        }
    }

    /// Counts what the ports did in a round, too, in their order. Where memory runs out the counts stay as they were.
    pub(crate) fn add(&mut self, round: &[PortCount])
        ensures { (self.new.ports.items ≡ counts_with self.old.ports.items round.now) ⊎ (self.new.ports.items ≡ self.old.ports.items) }
    {
        let alloc = *self.ports.allocator();
        let Ok(ports) = counts_with(alloc, self.ports.as_slice(), round) else {
            return;
        };
        self.ports = ports;
    }

    /// What is told of the ports of a router whose links have these socket addresses, and after them of its files. The only error is that
    /// memory ran out.
    pub(crate) fn text(
        &self,
        alloc: Global,
        sockets: &Table<u16, LinkSockets>,
        unwritten: &str,
    ) -> Result<String, AllocError>
        ensures { IfOk result (λ text. string_bytes text ≡ counters_text sockets.now self.now.ports.items ++ unwritten.now) }
    {
        let counts = self.ports.as_slice();
        let mut text = String::new(alloc);
        text.push_str(heading(counts.is_empty()))?;
        push_ports(&mut text, sockets.as_slice(), counts)?;
        text.push_str(unwritten)?;
        Ok(text)
    }
}

/// What was counted of both. What is too great to be counted stays at the most that can be.
fn added(before: Tally, more: Tally) -> Tally
    ensures { result ≡ tally_sum before more }
{
    Tally {
        datagrams: before.datagrams.saturating_add(more.datagrams),
        dropped: before.dropped.saturating_add(more.dropped),
        passed: before.passed.saturating_add(more.passed),
        fed: before.fed.saturating_add(more.fed),
        refused: before.refused.saturating_add(more.refused),
        lost: before.lost.saturating_add(more.lost),
        faults: before.faults.saturating_add(more.faults),
    }
}

/// What the port after so many counted before, with what it did in a round.
#[tactic(auto, unfolding(crate::specs::Counters::counted_at))]
fn counted_at(before: &[Tally], place: usize, more: Tally) -> Tally
    ensures { result ≡ counted_at before.now place more }
{
    match before.get(place) {
        Some(count) => added(*count, more),
        None => more,
    }
}

/// What the ports counted before, with what they did in a round, in their order. The only error is that memory ran out.
fn counts_with(
    alloc: Global,
    before: &[Tally],
    round: &[PortCount],
) -> Result<Vec<Tally>, AllocError>
    ensures { IfOk result (λ counts. counts.items ≡ counts_with before.now round.now) }
{
    let mut counts = Vec::with_capacity(alloc, round.len())?;
    for (place, more) in round.iter().enumerate() {
        counts.push(counted_at(before, place, more.tally))?;
    }
    Ok(counts)
}

/// What stands before the lines of the ports, where there are none, or some.
fn heading(is_empty: bool) -> &'static str
    ensures { result.now ≡ heading is_empty }
{
    if is_empty { NOTHING_YET } else { UP_TO }
}

/// Appends whose port the one after so many is: those of these links come first, in their order, each with its socket addresses, then the
/// clock's, then the operator's. The only error is that memory ran out.
fn push_name(
    text: &mut String,
    sockets: &[(u16, LinkSockets)],
    place: usize,
) -> Result<(), AllocError>
    ensures { OnOk result (string_bytes text.new ≡ string_bytes text.old ++ port_name sockets.now place) }
{
    match sockets.get(place) {
        Some(row) => {
            let (number, addresses) = *row;
            let listen = addresses.listen;
            let send = addresses.send;
            write!(text, "link {number} listen {listen} send {send}")
        }
        None if place == sockets.len() => text.push_str("clock"),
        None => text.push_str("console"),
    }
}

/// Appends how much a port took, and how much of that went on. The only error is that memory ran out.
#[tactic(auto, unfolding(crate::specs::Counters::taken_words))]
fn push_taken(text: &mut String, tally: Tally) -> Result<(), AllocError>
    ensures { OnOk result (string_bytes text.new ≡ string_bytes text.old ++ taken_words tally) }
{
    let taken = tally.datagrams;
    let fed = tally.fed;
    let passed = tally.passed;
    write!(
        text,
        ": {taken} received: {fed} processed, {passed} forwarded, "
    )
}

/// Appends how much a port didn't take. The only error is that memory ran out.
#[tactic(auto, unfolding(crate::specs::Counters::refused_words))]
fn push_refused(text: &mut String, tally: Tally) -> Result<(), AllocError>
    ensures { OnOk result (string_bytes text.new ≡ string_bytes text.old ++ refused_words tally) }
{
    let dropped = tally.dropped;
    let refused = tally.refused;
    write!(text, "{dropped} dropped, {refused} refused; ")
}

/// Appends what was lost by a port, and ends the line. The only error is that memory ran out.
#[tactic(auto, unfolding(crate::specs::Counters::lost_words))]
fn push_lost(text: &mut String, tally: Tally) -> Result<(), AllocError>
    ensures { OnOk result (string_bytes text.new ≡ string_bytes text.old ++ lost_words tally) }
{
    let lost = tally.lost;
    let faults = tally.faults;
    write!(text, "{lost} frames not sent, {faults} socket errors\n")
}

/// Appends the line of the port after so many: whose it is, how much it took, and what became of that. The only error is that memory ran out.
#[tactic(auto, unfolding(crate::specs::Counters::port_line))]
fn push_port(
    text: &mut String,
    sockets: &[(u16, LinkSockets)],
    place: usize,
    tally: &Tally,
) -> Result<(), AllocError>
    ensures { OnOk result (string_bytes text.new ≡ string_bytes text.old ++ port_line sockets.now (place, tally.now)) }
{
    push_name(text, sockets, place)?;
    push_taken(text, *tally)?;
    push_refused(text, *tally)?;
    push_lost(text, *tally)
}

/// Appends the lines of the ports, in their order. The only error is that memory ran out.
fn push_ports(
    text: &mut String,
    sockets: &[(u16, LinkSockets)],
    counts: &[Tally],
) -> Result<(), AllocError>
    ensures { OnOk result (string_bytes text.new ≡ string_bytes text.old ++ flat_map (port_line sockets.now) (enumerate_from 0 counts.now)) }
{
    for (place, tally) in counts.iter().enumerate() {
        push_port(text, sockets, place, tally)?;
    }
    Ok(())
}
