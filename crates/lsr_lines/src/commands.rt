//! Lines that command a router: about the tunnels that begin here, about bypasses, and about static routes.
ghost use Rattle.std.specs.Prelude.{◌≡◌, ◌≢◌, ◌==◌, ◌<◌, ◌++◌, ◌∷◌, List, [], IfOk, OnErr, codes, length};
ghost use Rattle.std.specs.List.{list_any};
ghost use Rattle.std.specs.Net.Grammar.{IsIpv4Text};
ghost use Rattle.std.specs.Option.{MatchOption};
ghost use Rattle.abstract_paths.specs.declared.tunnels.NewTunnel.{NewTunnel};
ghost use Rattle.abstract_paths.specs.declared.tunnels.TunnelChange.{TunnelChange};
ghost use Rattle.rsvp_bodies.specs.declared.step.Step.{Step};
ghost use Rattle.rsvp_bodies.specs.declared.attr.Attr.{Attr};
ghost use Rattle.rsvp_bodies.specs.Finding.{Finds};
ghost use Rattle.rsvp_bodies.specs.RateWords.{IsRateText};
ghost use Rattle.lsr_lines.specs.Commands.{BringsTunnel, IsFlagsText, SaysAttr, SaysBypass, SaysCapacity, SaysChange, SaysCommand, SaysNumber, SaysPrefix, SaysRoute, SaysStatic, SaysTunnel, words_left, words_of};
ghost use Rattle.lsr_lines.specs.Numbers.{NamesUpTo};

use crate::numbers::{read_link, read_up_to, read_whole};
use crate::words::{next_two, next_word, only_word};
use abstract_paths::{Command, NewBypass, NewTunnel, TunnelChange};
use rsvp_bodies::attr_numbers::MAX_NAME_LEN;
use rsvp_bodies::{
    Attr, Name, Prefix, RateWord, Route, Step, read_prefix, read_rate, read_step, tspec_of,
};
use std::alloc::{AllocError, Global};
use std::net::Ipv4Addr;

// The first words of lines.
const TUNNEL: &str = "tunnel";

const CHANGE: &str = "change";

const CANCEL: &str = "cancel";

const DROP: &str = "drop";

const BYPASS: &str = "bypass";

const UNBYPASS: &str = "unbypass";

const ROUTE: &str = "route";

const UNROUTE: &str = "unroute";

/// The greatest number of a tunnel or a bypass.
const MAX_NUMBER: u16 = 65_535;

/// The capacity of a bypass that has no bandwidth of its own for repairs, in bytes per second.
const NO_CAPACITY: u64 = 0;

/// The greatest priority that a word can say: one byte's.
const MAX_PRIORITY: u16 = 255;

/// How many digits write flags.
const FLAGS_DIGITS: usize = 2;

/// The base that they are written in.
const HEX: u32 = 16;

/// What `parse` takes before a number, though it is no digit.
const SIGN: char = '+';

/// The most steps that an EXPLICIT_ROUTE carries, of 8 bytes each.
const MAX_STEPS: usize = 8191;

/// The words of a tunnel's attributes.
#[derive(Clone, Copy)]
struct AttrWords<'a> {
    setup: &'a str,
    hold: &'a str,
    flags: &'a str,
    name: &'a str,
}

/// The words of a line that asks for a tunnel.
#[derive(Clone, Copy)]
struct TunnelWords<'a> {
    number: &'a str,
    endpoint: &'a str,
    rate: &'a str,
    attr: AttrWords<'a>,
    steps: Option<&'a str>,
}

/// The first four words and what is left after them; none where there are fewer words.
fn cut_attr(left: Option<&str>) -> Option<(AttrWords, Option<&str>)>
    ensures { MatchOption result
        (length (words_left left.entry) < 4)
        (λ r. words_left left.entry ≡ r.0.setup.now ∷ r.0.hold.now ∷ r.0.flags.now ∷ r.0.name.now ∷ words_left r.1) }
{
    let (setup, hold, left) = next_two(left)?;
    let (flags, name, left) = next_two(left)?;
    let attr = AttrWords {
        setup,
        hold,
        flags,
        name,
    };
    Some((attr, left))
}

/// The first seven words and what is left after them; none where there are fewer words.
fn cut_tunnel(left: Option<&str>) -> Option<TunnelWords>
    ensures { MatchOption result
        (length (words_left left.entry) < 7)
        (λ w. words_left left.entry ≡ w.number.now ∷ w.endpoint.now ∷ w.rate.now
        ∷ w.attr.setup.now ∷ w.attr.hold.now ∷ w.attr.flags.now ∷ w.attr.name.now ∷ words_left w.steps) }
{
    let (number, endpoint, left) = next_two(left)?;
    let (rate, left) = next_word(left)?;
    let (attr, steps) = cut_attr(left)?;
    Some(TunnelWords {
        number,
        endpoint,
        rate,
        attr,
        steps,
    })
}

/// The flags that the word writes: two hexadecimal digits, of either case.
fn read_flags(digits: &str) -> Option<u8>
    ensures { Finds (IsFlagsText digits.now) result }
{
    if digits.len() != FLAGS_DIGITS || digits.starts_with(SIGN) {
        return None;
    }
    match u8::from_str_radix(digits, HEX) {
        Ok(flags) => Some(flags),
        Err(_) => None,
    }
}

/// Whether a carriage return is in the text.
pub fn has_return(word: &str) -> bool
    ensures { result ≡ list_any (λ byte. byte == 13) word.now }
{
    word.as_bytes().iter().any(|byte| *byte == b'\r')
}

/// The attributes of a tunnel that its words say. The only error is that there is no memory for the name.
fn read_attr(alloc: Global, words: &AttrWords) -> Result<Option<Attr>, AllocError>
    ensures attr { IfOk result (Finds (SaysAttr words.now.setup.now words.now.hold.now words.now.flags.now words.now.name.now)) }
    ensures memory { OnErr result ((attr : Attr) × SaysAttr words.now.setup.now words.now.hold.now words.now.flags.now words.now.name.now attr) }
{
    let Some(setup) = read_up_to(MAX_PRIORITY, words.setup) else {
        return Ok(None);
    };
    let Some(hold) = read_up_to(MAX_PRIORITY, words.hold) else {
        return Ok(None);
    };
    let Some(flags) = read_flags(words.flags) else {
        return Ok(None);
    };
    if words.name.is_empty() || words.name.len() > MAX_NAME_LEN || has_return(words.name) {
        return Ok(None);
    }
    Ok(Some(Attr {
        affinities: None,
        setup: setup as u8,
        hold: hold as u8,
        flags,
        name: Name::copy_of(alloc, words.name.as_bytes())?,
    }))
}

/// The steps so far and one more, where there was memory for all of them.
fn with_step(steps: Result<Vec<Step>, AllocError>, step: Step) -> Result<Vec<Step>, AllocError>
    ensures { (read : List Step) → IfOk steps (λ kept. kept.items ≡ read) → IfOk result (λ kept. kept.items ≡ read ++ step ∷ []) }
{
    let mut steps = steps?;
    steps.push(step)?;
    Ok(steps)
}

/// The route whose steps the words are, where there is memory for it; none where they are the steps of none.
fn read_route(alloc: Global, words: Option<&str>) -> Option<Result<Route, AllocError>>
    ensures { MatchOption result
        ((steps : List Step) → ¬ SaysRoute (words_left words.entry) steps)
        (λ route. IfOk route (SaysRoute (words_left words.entry)) × ((steps : List Step) × SaysRoute (words_left words.entry) steps)) }
{
    let mut left = words;
    let mut count = 0;
    let mut steps = Ok(Vec::new(alloc));
    while let Some((word, rest)) = next_word(left) {
        if count == MAX_STEPS {
            return None;
        }
        steps = with_step(steps, read_step(word)?);
        count += 1;
        left = rest;
    }
    match steps {
        Ok(steps) => Some(Ok(Route::from_vec(steps))),
        Err(error) => Some(Err(error)),
    }
}

/// The number, the endpoint and the rate of a tunnel that its words say.
fn read_ends(words: &TunnelWords) -> Option<(u16, Ipv4Addr, RateWord)>
    ensures { Finds (λ r. NamesUpTo 65535 words.now.number.now r.0 × IsIpv4Text words.now.endpoint.now r.1 × IsRateText words.now.rate.now r.2) result }
{
    let number = read_up_to(MAX_NUMBER, words.number)?;
    let Ok(endpoint) = words.endpoint.parse() else {
        return None;
    };
    let rate = read_rate(words.rate)?;
    Some((number, endpoint, rate))
}

/// The tunnel that the words ask for; none where they ask for none. The only error is that there is no memory for it.
fn read_tunnel(alloc: Global, left: Option<&str>) -> Result<Option<NewTunnel>, AllocError>
    ensures tunnel { IfOk result (Finds (SaysTunnel (words_left left.entry))) }
    ensures memory { OnErr result ((t : NewTunnel) × SaysTunnel (words_left left.entry) t) }
{
    let Some(words) = cut_tunnel(left) else {
        return Ok(None);
    };
    let Some((number, endpoint, rate)) = read_ends(&words) else {
        return Ok(None);
    };
    let Some(route) = read_route(alloc, words.steps) else {
        return Ok(None);
    };
    let Some(attr) = read_attr(alloc, &words.attr)? else {
        return Ok(None);
    };
    Ok(Some(NewTunnel {
        number,
        endpoint,
        route: route?,
        tspec: tspec_of(alloc, rate)?,
        attr,
        fast_reroute: None,
    }))
}

/// The change of a tunnel that its words ask for; none where they ask for none. The only error is that there is no memory
/// for it.
fn change_said(
    alloc: Global,
    number: &str,
    rate: &str,
    steps: Option<&str>,
) -> Result<Option<TunnelChange>, AllocError>
    ensures change { IfOk result (Finds (SaysChange (number.now ∷ rate.now ∷ words_left steps.entry))) }
    ensures memory { OnErr result ((c : TunnelChange) × SaysChange (number.now ∷ rate.now ∷ words_left steps.entry) c) }
{
    let Some(number) = read_up_to(MAX_NUMBER, number) else {
        return Ok(None);
    };
    let Some(rate) = read_rate(rate) else {
        return Ok(None);
    };
    let Some(route) = read_route(alloc, steps) else {
        return Ok(None);
    };
    Ok(Some(TunnelChange {
        number,
        route: route?,
        tspec: tspec_of(alloc, rate)?,
    }))
}

/// The change of a tunnel that the words ask for; none where they ask for none. The only error is that there is no memory
/// for it.
fn read_change(alloc: Global, left: Option<&str>) -> Result<Option<TunnelChange>, AllocError>
    ensures change { IfOk result (Finds (SaysChange (words_left left.entry))) }
    ensures memory { OnErr result ((c : TunnelChange) × SaysChange (words_left left.entry) c) }
{
    let Some((number, rate, left)) = next_two(left) else {
        return Ok(None);
    };
    change_said(alloc, number, rate, left)
}

/// The number of a tunnel or a bypass that is the only word.
pub(crate) fn only_number(left: Option<&str>) -> Option<u16>
    ensures { Finds (SaysNumber (words_left left.entry)) result }
{
    read_up_to(MAX_NUMBER, only_word(left)?)
}

/// The bypass that the words ask for; none where they ask for none.
fn read_bypass(left: Option<&str>) -> Option<NewBypass>
    ensures { Finds (SaysBypass (words_left left.entry)) result }
{
    let (number, tunnel, left) = next_two(left)?;
    let (link, left) = next_word(left)?;
    bypass_said(number, tunnel, link, left)
}

/// The bypass that its three words, and one more if it is left, ask for; none where they ask for none.
fn bypass_said(number: &str, tunnel: &str, link: &str, left: Option<&str>) -> Option<NewBypass>
    ensures { Finds (SaysBypass (number.now ∷ tunnel.now ∷ link.now ∷ words_left left.entry)) result }
{
    let number = read_up_to(MAX_NUMBER, number)?;
    let tunnel = read_up_to(MAX_NUMBER, tunnel)?;
    let link = read_link(link)?;
    let capacity = read_capacity(left)?;
    Some(NewBypass {
        number,
        tunnel,
        link,
        capacity,
    })
}

/// The capacity that the only word says, in bytes per second: 0 where no word is left.
fn read_capacity(left: Option<&str>) -> Option<u64>
    ensures { Finds (SaysCapacity (words_left left.entry)) result }
{
    if left.is_none() {
        return Some(NO_CAPACITY);
    }
    read_whole(only_word(left)?)
}

/// The prefix that is the only word.
fn only_prefix(left: Option<&str>) -> Option<Prefix>
    ensures { Finds (SaysPrefix (words_left left.entry)) result }
{
    read_prefix(only_word(left)?)
}

/// The prefix and the link that are the only words.
fn prefix_and_link(left: Option<&str>) -> Option<(Prefix, u16)>
    ensures { Finds (λ route. SaysStatic (words_left left.entry) route.0 route.1) result }
{
    let (prefix, left) = next_word(left)?;
    static_said(prefix, only_word(left)?)
}

/// The prefix and the link that two words say.
fn static_said(prefix: &str, link: &str) -> Option<(Prefix, u16)>
    ensures { Finds (λ route. SaysStatic (prefix.now ∷ link.now ∷ []) route.0 route.1) result }
{
    let prefix = read_prefix(prefix)?;
    let link = read_link(link)?;
    Some((prefix, link))
}

/// What a word and the others command of a bypass or of a static route: `bypass N TUNNEL LINK [CAPACITY]`, `route
/// PREFIX LINK` or `unroute PREFIX`; none where they do not.
fn read_linked(word: &str, left: Option<&str>) -> Option<Command>
    requires no_tunnel { (word.now ≢ codes "tunnel") × (word.now ≢ codes "change") }
    requires no_number { (word.now ≢ codes "cancel") × (word.now ≢ codes "drop") × (word.now ≢ codes "unbypass") }
    ensures { Finds (SaysCommand (word.now ∷ words_left left.entry)) result }
{
    if word == BYPASS {
        return Some(Command::AddBypass(read_bypass(left)?));
    }
    if word == ROUTE {
        let (prefix, link) = prefix_and_link(left)?;
        return Some(Command::AddRoute(prefix, link));
    }
    if word == UNROUTE {
        return Some(Command::DropRoute(only_prefix(left)?));
    }
    None
}

/// What a word and the others command of a tunnel that is there, of a bypass or of a static route: `cancel N`, `drop N`,
/// `unbypass N`, `bypass N TUNNEL LINK [CAPACITY]`, `route PREFIX LINK` or `unroute PREFIX`; none where they do not.
fn read_short(word: &str, left: Option<&str>) -> Option<Command>
    requires no_tunnel { word.now ≢ codes "tunnel" }
    requires no_change { word.now ≢ codes "change" }
    ensures { Finds (SaysCommand (word.now ∷ words_left left.entry)) result }
{
    if word == CANCEL {
        return Some(Command::CancelChange(only_number(left)?));
    }
    if word == DROP {
        return Some(Command::DropTunnel(only_number(left)?));
    }
    if word == UNBYPASS {
        return Some(Command::DropBypass(only_number(left)?));
    }
    read_linked(word, left)
}

/// The tunnel that is to begin here, as a command. The only error is that there is no memory for it.
fn add_tunnel(alloc: Global, left: Option<&str>) -> Result<Option<Command>, AllocError>
    ensures command { IfOk result (Finds (SaysCommand (codes "tunnel" ∷ words_left left.entry))) }
    ensures memory { OnErr result ((t : NewTunnel) × SaysTunnel (words_left left.entry) t) }
{
    match read_tunnel(alloc, left)? {
        Some(tunnel) => Ok(Some(Command::AddTunnel(tunnel))),
        None => Ok(None),
    }
}

/// The change of a tunnel, as a command. The only error is that there is no memory for it.
fn change_tunnel(alloc: Global, left: Option<&str>) -> Result<Option<Command>, AllocError>
    ensures command { IfOk result (Finds (SaysCommand (codes "change" ∷ words_left left.entry))) }
    ensures memory { OnErr result ((c : TunnelChange) × SaysChange (words_left left.entry) c) }
{
    match read_change(alloc, left)? {
        Some(change) => Ok(Some(Command::ChangeTunnel(change))),
        None => Ok(None),
    }
}

/// What the line commands a router; none where it commands nothing. The only error is that there is no memory for a tunnel
/// that the line brings.
pub fn read_command(alloc: Global, line: &str) -> Result<Option<Command>, AllocError>
    ensures command { IfOk result (Finds (SaysCommand (words_of line.now))) }
    ensures memory { OnErr result (BringsTunnel line.now) }
{
    let Some((word, left)) = next_word(Some(line)) else {
        return Ok(None);
    };
    if word == TUNNEL {
        return add_tunnel(alloc, left);
    }
    if word == CHANGE {
        return change_tunnel(alloc, left);
    }
    Ok(read_short(word, left))
}
