//! What `show paths` prints.
ghost use Rattle.std.specs.Prelude.{◌≡◌, ◌++◌, IfOk, OnOk, string_bytes};
ghost use Rattle.lsr_text.specs.Shown.{key_text, path_line, paths_text, role_word};

use lsr_facts::{Key, PathFact, Role};
use std::alloc::{AllocError, Global};
use std::fmt::Write;

/// What the router is on a path's way, as a word.
pub(crate) fn role_word(role: Role) -> &'static str
    ensures { result.now ≡ role_word role }
{
    match role {
        Role::Transit => "transit",
        Role::Tail => "tail",
        Role::Head => "head",
    }
}

/// Appends the text of a key: `ENDPOINT/TUNNEL/EXTENDED SENDER/LSP` (RFC 3209, 4.6). The only error is that memory ran out.
pub fn push_key(text: &mut String, key: &Key) -> Result<(), AllocError>
    ensures { OnOk result (string_bytes text.new ≡ string_bytes text.old ++ key_text key.now) }
{
    let session = key.session;
    let endpoint = session.endpoint;
    let tunnel = session.tunnel;
    let extended = session.extended;
    let sender = key.sender.sender;
    let lsp = key.sender.lsp;
    write!(text, "{endpoint}/{tunnel}/{extended} {sender}/{lsp}")
}

/// Appends the line of a path: `path KEY ROLE OUT ORIGINS`.
fn push_path(text: &mut String, path: &(Key, PathFact)) -> Result<(), AllocError>
    ensures { OnOk result (string_bytes text.new ≡ string_bytes text.old ++ path_line path.now) }
{
    let (key, fact) = path;
    text.push_str("path ")?;
    push_key(text, key)?;
    let role = role_word(fact.role);
    let out_link = fact.out_link;
    let origins = fact.origins.as_slice().len();
    write!(text, " {role} {out_link} {origins}\n")
}

/// The lines of the paths, one for each in their order. The only error is that memory ran out.
pub fn paths_text(alloc: Global, paths: &[(Key, PathFact)]) -> Result<String, AllocError>
    ensures { IfOk result (λ text. string_bytes text ≡ paths_text paths.now) }
{
    let mut text = String::new(alloc);
    for path in paths {
        push_path(&mut text, path)?;
    }
    Ok(text)
}
