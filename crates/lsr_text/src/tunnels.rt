//! What `show tunnels` prints.
ghost use Rattle.std.specs.Prelude.{◌≡◌, ◌++◌, IfOk, OnOk, string_bytes};
ghost use Rattle.lsr_text.specs.Tunnels.{lsp_word, noted_words, tunnel_line, tunnels_text};

use lsr_facts::{Noted, Tunnel, TunnelLsp};
use std::alloc::{AllocError, Global};
use std::fmt::Write;

/// What stands for an LSP or an error that there isn't.
const NONE: &str = "none";

/// Appends the LSP ID of the LSP, or that there is none.
fn push_lsp(text: &mut String, lsp: &Option<TunnelLsp>) -> Result<(), AllocError>
    ensures { OnOk result (string_bytes text.new ≡ string_bytes text.old ++ lsp_word lsp.now) }
{
    match lsp {
        Some(lsp) => {
            let id = lsp.id;
            write!(text, "{id}")
        }
        None => text.push_str(NONE),
    }
}

/// Appends the code and the value of the error, or that there is none.
fn push_noted(text: &mut String, noted: Option<Noted>) -> Result<(), AllocError>
    ensures { OnOk result (string_bytes text.new ≡ string_bytes text.old ++ noted_words noted) }
{
    match noted {
        Some(error) => {
            let code = error.code;
            let value = error.value;
            write!(text, "{code} {value}")
        }
        None => text.push_str(NONE),
    }
}

/// Appends the line of a tunnel that begins here: `tunnel N current C pending P error CODE VALUE`, `none` standing for what
/// there isn't. The only error is that memory ran out.
pub fn push_tunnel(text: &mut String, row: &(u16, Tunnel)) -> Result<(), AllocError>
    ensures { OnOk result (string_bytes text.new ≡ string_bytes text.old ++ tunnel_line row.now) }
{
    let (number, tunnel) = row;
    let current = tunnel.current.id;
    write!(text, "tunnel {number} current {current} pending ")?;
    push_lsp(text, &tunnel.pending)?;
    text.push_str(" error ")?;
    push_noted(text, tunnel.noted)?;
    text.push_str("\n")
}

/// The lines of the tunnels, one for each in their order. The only error is that memory ran out.
pub fn tunnels_text(alloc: Global, tunnels: &[(u16, Tunnel)]) -> Result<String, AllocError>
    ensures { IfOk result (λ text. string_bytes text ≡ tunnels_text tunnels.now) }
{
    let mut text = String::new(alloc);
    for tunnel in tunnels {
        push_tunnel(&mut text, tunnel)?;
    }
    Ok(text)
}
