ghost use Rattle.std.specs.Prelude.{◌≡◌, ◌<◌, ◌^◌, length};
ghost use Rattle.byteorder.specs.Endian.{big_bytes};
ghost use Rattle.rsvp_objects.specs.Values.{session_at, session_body, hop_at, hop_body, time_values_at, error_spec_at, error_spec_body, style_at, template_at, template_body, label_at, label_request_at, label_request_body, fast_reroute_at, fast_reroute_body};
ghost use Rattle.rsvp_objects.specs.Ranges.{IsSession, IsHop, IsErrorSpec, IsTemplate, IsFastReroute};

use crate::numbers::*;
use crate::values::{
    ErrorSpec, FastReroute, Hop, Label, LabelRequest, Session, Style, Template, TimeValues,
};
use byteorder::{BigEndian, ByteOrder};
use rsvp_bodies::{Affinities, RateWord, address_of};

/// The SESSION that a body of its length says (RFC 3209, 4.6.1.1). Bytes 4 and 5 are reserved and not read.
pub fn session_of(body: &[u8]) -> Session
    requires { length body.now ≡ SESSION_LEN }
    ensures { result ≡ session_at body.now }
{
    Session {
        endpoint: address_of(body),
        tunnel: BigEndian::read_u16(&body[6..]),
        extended: address_of(&body[8..]),
    }
}

/// The RSVP_HOP that a body of its length says (RFC 2205, A.2).
pub fn hop_of(body: &[u8]) -> Hop
    requires { length body.now ≡ HOP_LEN }
    ensures { result ≡ hop_at body.now }
{
    Hop {
        address: address_of(body),
        interface: BigEndian::read_u32(&body[4..]),
    }
}

/// The TIME_VALUES that a body of its length says, in milliseconds (RFC 2205, A.4).
pub fn time_values_of(body: &[u8]) -> TimeValues
    requires { length body.now ≡ TIME_VALUES_LEN }
    ensures { result ≡ time_values_at body.now }
{
    TimeValues {
        refresh_ms: BigEndian::read_u32(body),
    }
}

/// The ERROR_SPEC that a body of its length says (RFC 2205, A.5).
pub fn error_spec_of(body: &[u8]) -> ErrorSpec
    requires { length body.now ≡ ERROR_SPEC_LEN }
    ensures { result ≡ error_spec_at body.now }
{
    ErrorSpec {
        node: address_of(body),
        flags: body[4],
        code: body[5],
        value: BigEndian::read_u16(&body[6..]),
    }
}

/// The STYLE that a body of its length says, its flags among the word (RFC 2205, A.7).
pub fn style_of(body: &[u8]) -> Style
    requires { length body.now ≡ STYLE_LEN }
    ensures { result ≡ style_at body.now }
{
    Style {
        word: BigEndian::read_u32(body),
    }
}

/// The FILTER_SPEC or SENDER_TEMPLATE that a body of their length says (RFC 3209, 4.6.2.1 and 4.6.3.1).
/// Bytes 4 and 5 are reserved and not read.
pub fn template_of(body: &[u8]) -> Template
    requires { length body.now ≡ TEMPLATE_LEN }
    ensures { result ≡ template_at body.now }
{
    Template {
        sender: address_of(body),
        lsp: BigEndian::read_u16(&body[6..]),
    }
}

/// The LABEL that a body of its length says (RFC 3209, 4.1).
pub fn label_of(body: &[u8]) -> Label
    requires { length body.now ≡ LABEL_LEN }
    ensures { result ≡ label_at body.now }
{
    Label {
        number: BigEndian::read_u32(body),
    }
}

/// The LABEL_REQUEST that a body of its length says (RFC 3209, 4.2.1). Bytes 0 and 1 are reserved and not
/// read.
pub fn label_request_of(body: &[u8]) -> LabelRequest
    requires { length body.now ≡ LABEL_REQUEST_LEN }
    ensures { result ≡ label_request_at body.now }
{
    LabelRequest {
        l3pid: BigEndian::read_u16(&body[2..]),
    }
}

/// The FAST_REROUTE that a body of its length says (RFC 4090, 4.1). The bandwidth is in bytes per second.
pub fn fast_reroute_of(body: &[u8]) -> FastReroute
    requires { length body.now ≡ FAST_REROUTE_LEN }
    ensures { result ≡ fast_reroute_at body.now }
{
    FastReroute {
        setup: body[0],
        hold: body[1],
        hop_limit: body[2],
        flags: body[3],
        bandwidth: RateWord::from_bits(BigEndian::read_u32(&body[4..])),
        affinities: Affinities {
            include_any: BigEndian::read_u32(&body[8..]),
            exclude_any: BigEndian::read_u32(&body[12..]),
            include_all: BigEndian::read_u32(&body[16..]),
        },
    }
}

/// The body of a SESSION, with reserved bytes as zeros (RFC 3209, 4.6.1.1).
pub fn session_bytes(session: Session) -> [u8; SESSION_LEN]
    ensures bytes { result ≡ session_body session }
    ensures fits { IsSession session }
{
    let [a, b, c, d] = session.endpoint.octets();
    let [high, low] = session.tunnel.to_be_bytes();
    let [e, f, g, h] = session.extended.octets();
    [a, b, c, d, 0, 0, high, low, e, f, g, h]
}

/// The body of an RSVP_HOP (RFC 2205, A.2).
pub fn hop_bytes(hop: Hop) -> [u8; HOP_LEN]
    ensures bytes { result ≡ hop_body hop }
    ensures fits { IsHop hop }
{
    let [a, b, c, d] = hop.address.octets();
    let [e, f, g, h] = hop.interface.to_be_bytes();
    [a, b, c, d, e, f, g, h]
}

/// The body of an ERROR_SPEC (RFC 2205, A.5).
pub fn error_spec_bytes(error: ErrorSpec) -> [u8; ERROR_SPEC_LEN]
    ensures bytes { result ≡ error_spec_body error }
    ensures fits { IsErrorSpec error }
{
    let [a, b, c, d] = error.node.octets();
    let [high, low] = error.value.to_be_bytes();
    [a, b, c, d, error.flags, error.code, high, low]
}

/// The body of a FILTER_SPEC or SENDER_TEMPLATE, with reserved bytes as zeros (RFC 3209, 4.6.2.1 and
/// 4.6.3.1).
pub fn template_bytes(template: Template) -> [u8; TEMPLATE_LEN]
    ensures bytes { result ≡ template_body template }
    ensures fits { IsTemplate template }
{
    let [a, b, c, d] = template.sender.octets();
    let [high, low] = template.lsp.to_be_bytes();
    [a, b, c, d, 0, 0, high, low]
}

/// The body of a LABEL_REQUEST, with reserved bytes as zeros (RFC 3209, 4.2.1).
pub fn label_request_bytes(request: LabelRequest) -> [u8; LABEL_REQUEST_LEN]
    ensures bytes { result ≡ label_request_body request }
    ensures fits { request.l3pid < 2 ^ 16 }
{
    let [high, low] = request.l3pid.to_be_bytes();
    [0, 0, high, low]
}

/// A body that is one word: TIME_VALUES, STYLE and LABEL (RFC 2205, A.4 and A.7; RFC 3209, 4.1).
pub fn word_bytes(word: u32) -> [u8; WORD_LEN]
    ensures bytes { result ≡ big_bytes 4 word }
    ensures fits { word < 2 ^ 32 }
{
    word.to_be_bytes()
}

/// The body of a FAST_REROUTE (RFC 4090, 4.1). Here include-any stands before exclude-any; in
/// SESSION_ATTRIBUTE it stands after.
pub fn fast_reroute_bytes(request: FastReroute) -> [u8; FAST_REROUTE_LEN]
    ensures bytes { result ≡ fast_reroute_body request }
    ensures fits { IsFastReroute request }
{
    let [a, b, c, d] = request.bandwidth.to_bits().to_be_bytes();
    let [e, f, g, h] = request.affinities.include_any.to_be_bytes();
    let [i, j, k, l] = request.affinities.exclude_any.to_be_bytes();
    let [m, n, o, p] = request.affinities.include_all.to_be_bytes();
    [
        request.setup,
        request.hold,
        request.hop_limit,
        request.flags,
        a,
        b,
        c,
        d,
        e,
        f,
        g,
        h,
        i,
        j,
        k,
        l,
        m,
        n,
        o,
        p,
    ]
}
