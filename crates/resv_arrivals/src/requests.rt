//! What an LSP asks for of a link, and what stands against it (RFC 2205, 3.1.4 and B, 5; RFC 3209, 4.7.1).

ghost use Rattle.std.specs.Option.{option_copied, option_map};
ghost use Rattle.std.specs.Prelude.{◌≡◌, ◌≤◌, find};
ghost use Rattle.abstract_router.specs.Preempting.{limit_of};
ghost use Rattle.lsr_facts.specs.Priorities.{holding_of, setup_of};
ghost use Rattle.resv_arrivals.specs.Conflicts.{conflicts};

use lsr_facts::{
    Claim, Key, Request, ResvStyle, Router, holding_of, is_same_session, is_same_style, setup_of,
};
use message_rules::link_at;
use rsvp_objects::Attr;

/// How much of a link may be reserved, in bytes per second: nothing of a link that the router doesn't have.
pub fn limit_of(router: &Router, link: u16) -> u64
    ensures { result ≡ limit_of router.now link }
{
    match link_at(router, link) {
        Some(link) => link.limit,
        None => 0,
    }
}

/// What an LSP asks for of a link: this rate, in bytes per second, in this style, with the priorities that its Path
/// named (RFC 3209, 4.7.1).
pub fn request_of(key: Key, link: u16, style: ResvStyle, rate: u64, attr: Option<&Attr>) -> Request
    ensures request { result ≡ record {
      key = key;
      claim = record { link = link; style = style; rate = rate; holding = holding_of (option_copied attr.entry) };
      setup = setup_of (option_copied attr.entry);
    } }
    ensures setup { result.setup ≤ 7 }
{
    Request {
        key,
        claim: Claim {
            link,
            style,
            rate,
            holding: holding_of(attr),
        },
        setup: setup_of(attr),
    }
}

/// Whether a claim is that of another LSP of the session, on the link, in the other style.
fn conflicts(link: u16, style: ResvStyle, key: &Key, row: &(Key, Claim)) -> bool
    ensures { result ≡ conflicts link style key.now row.now }
{
    is_same_session(&key.session, &row.0.session)
        && key.cmp(&row.0).is_ne()
        && row.1.link == link
        && !is_same_style(style, row.1.style)
}

/// The style of the first claim that is another LSP's of the session, on the link, in the other style.
pub fn conflicting_style(
    link: u16,
    style: ResvStyle,
    key: &Key,
    claims: &[(Key, Claim)],
) -> Option<ResvStyle>
    ensures { result ≡ option_map (λ claim. claim.1.style) (find (conflicts link style key.now) claims.now) }
{
    for row in claims {
        if conflicts(link, style, key, row) {
            return Some(row.1.style);
        }
    }
    None
}
