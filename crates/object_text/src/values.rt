//! What the objects of a fixed length say, and SESSION_ATTRIBUTE.
ghost use Rattle.std.specs.Prelude.{◌≡◌, ◌++◌, OnOk, string_bytes, true};
ghost use Rattle.std.specs.List.{list_all};
ghost use Rattle.std.specs.Char.{is_ascii_graphic};
ghost use Rattle.object_text.specs.Fields.{affinities_words, affinity, affinity_words, attribute_words, error_words, hidden_name, hop_words, name_words, named_error, node_words, printed_name, priority_words, protocol_name, request_words, reroute_words, session_words, style_name, style_words, template_words};

use crate::errors::error_name;
use crate::flags::{push_attribute_flags, push_error_flags, push_reroute_flags};
use crate::traffic::push_amount;
use crate::words::{push_digits, push_next, push_word};
use byteorder::{BigEndian, ByteOrder};
use rsvp_objects::{
    Affinities, Attr, ErrorSpec, FastReroute, Hop, LabelRequest, Session, Style, Template,
};
use std::alloc::{AllocError, Global};
use std::fmt::Write;
use std::net::Ipv4Addr;
use std::str;

/// The bits of the option vector that say the style (RFC 2205, A.7).
const STYLE_MASK: u32 = 0x1f;

/// Appends what a SESSION says.
pub(crate) fn push_session(text: &mut String, session: &Session) -> Result<(), AllocError>
    ensures { OnOk result (string_bytes text.new ≡ string_bytes text.old ++ session_words session.now) }
{
    let endpoint = session.endpoint;
    let tunnel = session.tunnel;
    let extended = session.extended;
    write!(
        text,
        " endpoint {endpoint} tunnel {tunnel} extended {extended}"
    )
}

/// Appends what an RSVP_HOP says.
pub(crate) fn push_hop(text: &mut String, hop: &Hop) -> Result<(), AllocError>
    ensures { OnOk result (string_bytes text.new ≡ string_bytes text.old ++ hop_words hop.now) }
{
    let address = hop.address;
    let interface = hop.interface;
    write!(text, " address {address} lih {interface}")
}

/// Appends the router that found an error.
#[tactic(auto, unfolding(crate::specs::Fields::node_words))]
fn push_node(text: &mut String, node: Ipv4Addr) -> Result<(), AllocError>
    ensures { OnOk result (string_bytes text.new ≡ string_bytes text.old ++ node_words node) }
{
    write!(text, " node {node}")
}

/// Appends an error's code and value, and its name, if it has one.
#[tactic(auto, unfolding(crate::specs::Fields::named_error))]
fn push_named_error(text: &mut String, code: u8, value: u16) -> Result<(), AllocError>
    ensures { OnOk result (string_bytes text.new ≡ string_bytes text.old ++ named_error code value) }
{
    write!(text, " error {code}/{value}")?;
    push_next(text, error_name(code, value))
}

/// Appends what an ERROR_SPEC says.
pub(crate) fn push_error(
    alloc: Global,
    text: &mut String,
    error: &ErrorSpec,
) -> Result<(), AllocError>
    ensures { OnOk result (string_bytes text.new ≡ string_bytes text.old ++ error_words error.now) }
{
    push_node(text, error.node)?;
    push_error_flags(alloc, text, error.flags)?;
    push_named_error(text, error.code, error.value)
}

/// The name of the style.
#[tactic(auto, unfolding(crate::specs::Fields::style_name))]
fn style_name(word: u32) -> &'static str
    ensures { result.now ≡ style_name word }
{
    match word & STYLE_MASK {
        10 => "fixed-filter",
        17 => "wildcard-filter",
        18 => "shared-explicit",
        _ => "unknown",
    }
}

/// Appends what a STYLE says.
pub(crate) fn push_style(alloc: Global, text: &mut String, style: &Style) -> Result<(), AllocError>
    ensures { OnOk result (string_bytes text.new ≡ string_bytes text.old ++ style_words style.now.word) }
{
    let name = style_name(style.word);
    write!(text, " {name} word ")?;
    push_word(alloc, text, style.word)
}

/// Appends what a SENDER_TEMPLATE or a FILTER_SPEC says.
pub(crate) fn push_template(text: &mut String, template: &Template) -> Result<(), AllocError>
    ensures { OnOk result (string_bytes text.new ≡ string_bytes text.old ++ template_words template.now) }
{
    let sender = template.sender;
    let lsp = template.lsp;
    write!(text, " sender {sender} lsp {lsp}")
}

/// The name of what an LSP is to carry, by its EtherType.
#[tactic(auto, unfolding(crate::specs::Fields::protocol_name))]
fn protocol_name(l3pid: u16) -> &'static str
    ensures { result.now ≡ protocol_name l3pid }
{
    match l3pid {
        0x0800 => "IPv4",
        0x86dd => "IPv6",
        _ => "",
    }
}

/// Appends what a LABEL_REQUEST says.
pub(crate) fn push_request(
    alloc: Global,
    text: &mut String,
    request: &LabelRequest,
) -> Result<(), AllocError>
    ensures { OnOk result (string_bytes text.new ≡ string_bytes text.old ++ request_words request.now.l3pid) }
{
    let mut bytes = [0; 2];
    BigEndian::write_u16(&mut bytes, request.l3pid);
    let digits = hex::encode(alloc, &bytes)?;
    write!(text, " l3pid {digits}")?;
    push_next(text, protocol_name(request.l3pid))
}

/// Appends the priorities.
fn push_priorities(text: &mut String, setup: u8, hold: u8) -> Result<(), AllocError>
    ensures { OnOk result (string_bytes text.new ≡ string_bytes text.old ++ priority_words setup hold) }
{
    write!(text, " setup {setup} hold {hold}")
}

/// Appends the word of links to be left out or taken, after its name.
#[tactic(auto, unfolding(crate::specs::Fields::affinity))]
fn push_affinity(alloc: Global, text: &mut String, name: &str, word: u32) -> Result<(), AllocError>
    ensures { OnOk result (string_bytes text.new ≡ string_bytes text.old ++ affinity name.now word) }
{
    write!(text, " {name} ")?;
    push_word(alloc, text, word)
}

/// Appends the affinities.
fn push_affinities(
    alloc: Global,
    text: &mut String,
    affinities: Affinities,
) -> Result<(), AllocError>
    ensures { OnOk result (string_bytes text.new ≡ string_bytes text.old ++ affinity_words affinities) }
{
    push_affinity(alloc, text, "exclude-any", affinities.exclude_any)?;
    push_affinity(alloc, text, "include-any", affinities.include_any)?;
    push_affinity(alloc, text, "include-all", affinities.include_all)
}

/// Appends what a FAST_REROUTE says.
pub(crate) fn push_reroute(
    alloc: Global,
    text: &mut String,
    reroute: &FastReroute,
) -> Result<(), AllocError>
    ensures { OnOk result (string_bytes text.new ≡ string_bytes text.old ++ reroute_words reroute.now) }
{
    push_priorities(text, reroute.setup, reroute.hold)?;
    let hop_limit = reroute.hop_limit;
    write!(text, " hop-limit {hop_limit}")?;
    push_reroute_flags(alloc, text, reroute.flags)?;
    push_amount(alloc, text, "bandwidth", reroute.bandwidth)?;
    push_affinities(alloc, text, reroute.affinities)
}

/// Appends the affinities, where there are some.
fn push_some_affinities(
    alloc: Global,
    text: &mut String,
    affinities: Option<Affinities>,
) -> Result<(), AllocError>
    ensures { OnOk result (string_bytes text.new ≡ string_bytes text.old ++ affinities_words affinities) }
{
    match affinities {
        Some(affinities) => push_affinities(alloc, text, affinities),
        None => Ok(()),
    }
}

/// Whether all are printed characters of ASCII, and none of them a space.
fn are_graphic(bytes: &[u8]) -> bool
    ensures { result ≡ list_all is_ascii_graphic bytes.now }
{
    bytes.iter().all(|byte| byte.is_ascii_graphic())
}

/// Appends a name of printed characters.
#[tactic(auto, using(crate::proofs::Names::graphic_text))]
fn push_printed(text: &mut String, name: &[u8]) -> Result<(), AllocError>
    requires { list_all is_ascii_graphic name.now ≡ true }
    ensures { OnOk result (string_bytes text.new ≡ string_bytes text.old ++ printed_name name.now) }
{
    let Ok(name) = str::from_utf8(name) else {
        unreachable!();
    };
    text.push_str(" name")?;
    push_next(text, name)
}

/// Appends a name by its bytes, in hexadecimal digits.
fn push_hidden(alloc: Global, text: &mut String, name: &[u8]) -> Result<(), AllocError>
    ensures { OnOk result (string_bytes text.new ≡ string_bytes text.old ++ hidden_name name.now) }
{
    text.push_str(" name-bytes")?;
    push_digits(alloc, text, name)
}

/// Appends an LSP's name; in hexadecimal digits, where it has other characters than printed ones of ASCII.
#[tactic(auto, unfolding(crate::specs::Fields::name_words))]
fn push_name(alloc: Global, text: &mut String, name: &[u8]) -> Result<(), AllocError>
    ensures { OnOk result (string_bytes text.new ≡ string_bytes text.old ++ name_words name.now) }
{
    if are_graphic(name) {
        return push_printed(text, name);
    }
    push_hidden(alloc, text, name)
}

/// Appends what a SESSION_ATTRIBUTE says.
pub(crate) fn push_attribute(
    alloc: Global,
    text: &mut String,
    attr: &Attr,
) -> Result<(), AllocError>
    ensures { OnOk result (string_bytes text.new ≡ string_bytes text.old ++ attribute_words attr.now) }
{
    push_priorities(text, attr.setup, attr.hold)?;
    push_attribute_flags(alloc, text, attr.flags)?;
    push_some_affinities(alloc, text, attr.affinities)?;
    push_name(alloc, text, attr.name.as_slice())
}
