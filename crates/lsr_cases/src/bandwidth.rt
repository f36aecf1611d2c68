//! Reserved bandwidth.

ghost use Rattle.std.specs.Prelude.{◌^◌, ◌≤◌, IfOk};

use admission::Admission;
use anyhow::{Context, Result, bail};
use lsr_facts::limits::{MAX_LIMIT, MAX_LSPS};
use lsr_facts::{Claim, Key, Request, ResvFact, ResvStyle, WORST_PRIORITY};
use rsvp_bodies::{Body, Flowspec};
use rsvp_contents::Passing;
use rsvp_objects::{RateWord, Session, Template};
use sorted_rows::Table;
use std::alloc::{AllocError, Global};
use std::net::Ipv4Addr;

/// The octets of the endpoint of each tunnel, and of the sender of each LSP.
const ADDRESS: [u8; 4] = [10, 0, 0, 4];
/// The base of hexadecimal digits.
const HEXADECIMAL: u32 = 16;
/// A FLOWSPEC for controlled load up to its rate, and what stands after that (RFC 2210, 3.2.1).
const BEFORE_RATE: [u8; 12] = [0, 0, 0, 7, 5, 0, 0, 6, 127, 0, 0, 5];

const BEHIND_RATE: [u8; 16] = [0, 0, 0, 0, 0x7f, 0x80, 0, 0, 0, 0, 0, 64, 0, 0, 5, 0xdc];
/// The label that each LSP is taken with.
const LABEL: u32 = 100;
/// The moment at which each reservation expires, in milliseconds.
const EXPIRY: u64 = 1_000;

/// Whether a case of this verb is one of these.
pub fn is_verb(verb: &str) -> bool {
    matches!(
        verb,
        "links" | "put" | "remove" | "hold" | "expire" | "reserved" | "fits" | "victims"
    )
}

/// The LSP that the word names.
fn lsp(word: &str) -> Result<Key> {
    let (tunnel, lsp) = word.split_once('/').context("no LSP")?;
    let address = Ipv4Addr::from(ADDRESS);
    Ok(Key {
        session: Session {
            endpoint: address,
            tunnel: tunnel.parse::<u16>()?,
            extended: address,
        },
        sender: Template {
            sender: address,
            lsp: lsp.parse::<u16>()?,
        },
    })
}

/// The priority that the word says, 0 (best) to 7.
fn priority(word: &str) -> Result<u8>
    ensures { IfOk result (λ priority. priority ≤ 7) }
{
    let priority = word.parse::<u8>()?;
    if priority > WORST_PRIORITY {
        bail!("no priority");
    }
    Ok(priority)
}

/// The style that the word names.
fn style(word: &str) -> Result<ResvStyle> {
    match word {
        "ff" => Ok(ResvStyle::FixedFilter),
        "se" => Ok(ResvStyle::SharedExplicit),
        _ => bail!("no style"),
    }
}

/// Links with the limits that the words say, nothing reserved on them.
fn links(alloc: Global, words: &[&str]) -> Result<Admission> {
    let mut limits = Table::new(alloc);
    for word in words {
        let (number, limit) = word.split_once('=').context("no limit")?;
        limits.set(number.parse::<u16>()?, limit.parse::<u64>()?)?;
    }
    Ok(Admission::new(alloc, limits)?)
}

/// The FLOWSPEC of a rate word.
fn flowspec(alloc: Global, rate: u32) -> Result<Flowspec> {
    let mut bytes = Vec::from_slice(alloc, &BEFORE_RATE)?;
    bytes.extend_from_slice(&rate.to_be_bytes())?;
    bytes.extend_from_slice(&BEHIND_RATE)?;
    if bytes.len() != 32 {
        bail!("no FLOWSPEC");
    }
    Ok(Flowspec::from_body(Body::from_vec(bytes)))
}

/// The LSP has this reservation from now on.
#[tactic(auto, using(crate::proofs::Room::put_fits))]
fn put(alloc: Global, admission: &mut Admission, words: &[&str]) -> Result<()> {
    let [key, link, style_word, rate, holding] = *words else {
        bail!("no reservation");
    };
    let fact = ResvFact {
        link: link.parse::<u16>()?,
        style: style(style_word)?,
        flowspec: flowspec(alloc, u32::from_str_radix(rate, HEXADECIMAL)?)?,
        label: LABEL,
        recorded: None,
        passing: Passing::new(alloc),
        expiry: EXPIRY,
    };
    let key = lsp(key)?;
    let holding = priority(holding)?;
    if fact.flowspec.rate().is_err() || admission.len() >= MAX_LSPS {
        bail!("no room");
    }
    admission.put(key, fact, holding);
    Ok(())
}

/// The request that the words say.
fn request(words: &[&str]) -> Result<Request>
    ensures { IfOk result (λ request. request.claim.rate ≤ 2 ^ 50) }
{
    let [key, link, style_word, rate, setup, holding] = *words else {
        bail!("no request");
    };
    let word = RateWord::from_bits(u32::from_str_radix(rate, HEXADECIMAL)?);
    let rate = word.whole().context("no rate")?;
    if rate > MAX_LIMIT {
        bail!("no rate");
    }
    Ok(Request {
        key: lsp(key)?,
        claim: Claim {
            link: link.parse::<u16>()?,
            style: style(style_word)?,
            rate,
            holding: priority(holding)?,
        },
        setup: priority(setup)?,
    })
}

/// The LSPs by their names.
fn names(alloc: Global, keys: &[Key]) -> Result<String, AllocError> {
    let mut said = String::new(alloc);
    for key in keys {
        let space = if said.is_empty() { "" } else { " " };
        said = format!(in alloc; "{said}{space}{}/{}", key.session.tunnel, key.sender.lsp)?;
    }
    if said.is_empty() {
        said.push_str("none")?;
    }
    Ok(said)
}

/// Does what the words tell.
fn change(alloc: Global, admission: &mut Admission, words: &[&str]) -> Result<()> {
    match *words {
        ["links", ref limits @ ..] => *admission = links(alloc, limits)?,
        ["put", ref reservation @ ..] => put(alloc, admission, reservation)?,
        ["remove", key] => admission.remove(&lsp(key)?),
        ["hold", key, holding] => admission.set_holding(&lsp(key)?, priority(holding)?),
        ["expire", moment] => admission.expire(moment.parse::<u64>()?),
        _ => bail!("no case"),
    }
    Ok(())
}

/// What is said of the case, once it is done.
pub fn said(alloc: Global, admission: &mut Admission, case: &str) -> Result<String> {
    let words = case.split_whitespace().collect::<Vec<&str>>(alloc)?;
    match *words.as_slice() {
        ["reserved", link, worst] => {
            let rate = admission.reserved(link.parse::<u16>()?, priority(worst)?);
            Ok(format!(in alloc; "{rate}")?)
        }
        ["fits", ref asked @ ..] => {
            let fits = admission.fits(&request(asked)?);
            Ok(String::from_str(alloc, if fits { "yes" } else { "no" })?)
        }
        ["victims", ref asked @ ..] => {
            let victims = admission.victims(alloc, &request(asked)?)?;
            Ok(names(alloc, &victims)?)
        }
        _ => {
            change(alloc, admission, words.as_slice())?;
            Ok(String::from_str(alloc, "ok")?)
        }
    }
}
