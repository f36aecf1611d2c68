//! What `show` prints of reservations, of the label table, of links and of bypasses: a line for each row.
ghost use Rattle.std.specs.Prelude.{◌≡◌, ◌++◌, IfOk, OnOk, string_bytes};
ghost use Rattle.lsr_text.specs.Rows.{action_words, bypass_line, head_line, label_line, link_line, resv_line, resvs_text, state_word, style_text, sum_words, table_text};

use crate::shown::push_key;
use forwarding_table::Action;
use lsr_facts::{Bypass, Key, ResvFact, ResvStyle};
use object_text::rate_bytes;
use std::alloc::{AllocError, Global};
use std::fmt::Write;

/// How many setup priorities there are (RFC 3209, 4.7.3).
pub const PRIORITIES: usize = 8;

/// How the LSPs of a session reserve, as a word.
pub(crate) fn style_text(style: ResvStyle) -> &'static str
    ensures { result.now ≡ style_text style }
{
    match style {
        ResvStyle::FixedFilter => "ff",
        ResvStyle::SharedExplicit => "se",
    }
}

/// Appends the line of a reservation: `resv KEY LINK ff|se RATE LABEL`, RATE being the digits of the FLOWSPEC's token
/// bucket rate. The only error is that memory ran out.
pub fn push_resv(alloc: Global, text: &mut String, resv: &(Key, ResvFact)) -> Result<(), AllocError>
    ensures { OnOk result (string_bytes text.new ≡ string_bytes text.old ++ resv_line resv.now) }
{
    let (key, fact) = resv;
    text.push_str("resv ")?;
    push_key(text, key)?;
    let link = fact.link;
    let style = style_text(fact.style);
    let rate = hex::encode(alloc, rate_bytes(fact.flowspec.as_slice()))?;
    let label = fact.label;
    write!(text, " {link} {style} {rate} {label}\n")
}

/// The lines of the reservations, one for each in their order. The only error is that memory ran out.
pub fn resvs_text(alloc: Global, resvs: &[(Key, ResvFact)]) -> Result<String, AllocError>
    ensures { IfOk result (λ text. string_bytes text ≡ resvs_text resvs.now) }
{
    let mut text = String::new(alloc);
    for resv in resvs {
        push_resv(alloc, &mut text, resv)?;
    }
    Ok(text)
}

/// Appends what is done with a label, or at the head of a tunnel, in words.
fn push_action(text: &mut String, action: &Action) -> Result<(), AllocError>
    ensures { OnOk result (string_bytes text.new ≡ string_bytes text.old ++ action_words action.now) }
{
    match *action {
        Action::Swap { label, link } => write!(text, "swap {label} {link}"),
        Action::SwapPush { inner, outer, link } => write!(text, "swappush {inner} {outer} {link}"),
        Action::Pop => text.push_str("pop"),
        Action::PushHead { inner, label, link } => match inner {
            Some(inner) => write!(text, "push {inner} {label} {link}"),
            None => write!(text, "push {label} {link}"),
        },
    }
}

/// Appends the line of a label's action: `LABEL swap L LINK`, `LABEL swappush INNER OUTER LINK` or `LABEL pop`. The only
/// error is that memory ran out.
pub fn push_label(text: &mut String, label: u32, action: &Action) -> Result<(), AllocError>
    ensures { OnOk result (string_bytes text.new ≡ string_bytes text.old ++ label_line label action.now) }
{
    write!(text, "{label} ")?;
    push_action(text, action)?;
    text.push_str("\n")
}

/// The lines of labels and their actions, one for each in their order. The only error is that memory ran out.
pub fn table_text(alloc: Global, rows: &[(u32, Action)]) -> Result<String, AllocError>
    ensures { IfOk result (λ text. string_bytes text ≡ table_text rows.now) }
{
    let mut text = String::new(alloc);
    for (label, action) in rows {
        push_label(&mut text, *label, action)?;
    }
    Ok(text)
}

/// Appends the line of a tunnel's action at its head: `tunnel N push L LINK`, or `tunnel N push INNER OUTER LINK` while
/// a repair is in use. The only error is that memory ran out.
pub fn push_head(text: &mut String, tunnel: u16, action: &Action) -> Result<(), AllocError>
    ensures { OnOk result (string_bytes text.new ≡ string_bytes text.old ++ head_line tunnel action.now) }
{
    write!(text, "tunnel {tunnel} ")?;
    push_action(text, action)?;
    text.push_str("\n")
}

/// Whether a link is up, or a bypass, as a word.
fn state_word(is_up: bool) -> &'static str
    ensures { result.now ≡ state_word is_up }
{
    if is_up { "up" } else { "down" }
}

/// Appends the numbers, each after a space.
fn push_sums(text: &mut String, sums: &[u64]) -> Result<(), AllocError>
    ensures { OnOk result (string_bytes text.new ≡ string_bytes text.old ++ sum_words sums.now) }
{
    for sum in sums {
        write!(text, " {sum}")?;
    }
    Ok(())
}

/// Appends the line of a link: `link N up|down LIMIT R0 .. R7`, its limit and what is reserved on it at each priority, 0
/// (best) to 7, all in bytes per second. The only error is that memory ran out.
pub fn push_link(
    text: &mut String,
    number: u16,
    is_up: bool,
    limit: u64,
    sums: &[u64; PRIORITIES],
) -> Result<(), AllocError>
    ensures { OnOk result (string_bytes text.new ≡ string_bytes text.old ++ link_line number is_up limit sums.now) }
{
    let state = state_word(is_up);
    write!(text, "link {number} {state} {limit}")?;
    push_sums(text, sums)?;
    text.push_str("\n")
}

/// Appends the line of a bypass: `bypass N TUNNEL LINK up|down USES CAPACITY SUM`, the tunnel that it runs in, the link that
/// it protects, whether it is up, how many repairs use it, its capacity, and how much of that is assigned, both in bytes per
/// second. The only error is that memory ran out.
pub fn push_bypass(
    text: &mut String,
    row: &(u16, Bypass),
    is_up: bool,
    uses: usize,
    assigned: u64,
) -> Result<(), AllocError>
    ensures { OnOk result (string_bytes text.new ≡ string_bytes text.old ++ bypass_line row.now is_up uses assigned) }
{
    let (number, bypass) = row;
    let tunnel = bypass.tunnel;
    let link = bypass.link;
    let state = state_word(is_up);
    let capacity = bypass.capacity;
    write!(
        text,
        "bypass {number} {tunnel} {link} {state} {uses} {capacity} {assigned}\n"
    )
}
