//! What a line asks to be shown of what the router knows.
ghost use Rattle.std.specs.Prelude.{◌≢◌, ℕ, codes};
ghost use Rattle.std.specs.Option.{MatchOption};
ghost use Rattle.lsr_lines.specs.Lines.{AsksToSee};
ghost use Rattle.lsr_lines.specs.Lsps.{AsksAbout, AsksOfTunnel};
ghost use Rattle.lsr_lines.specs.declared.lsps.LspName.{LspName};

use crate::commands::only_number;
use crate::lsps::{LspName, read_lsp};
use crate::words::next_word;

/// What of a router is shown.
#[derive(Clone, Copy)]
pub enum Shown {
    /// `show paths`: the paths that the router knows.
    Paths,
    /// `show resvs`: the reservations that stand.
    Resvs,
    /// `show table`: the label table.
    Table,
    /// `show labels`: the labels that LSPs hold and that rest.
    Labels,
    /// `show links`: the links, with what is reserved on them.
    Links,
    /// `show tunnels`: the tunnels that begin here.
    Tunnels,
    /// `show bypasses`: the bypasses of the links.
    Bypasses,
    /// `show summary`: how much there is of everything.
    Summary,
    /// `show config`: the configuration, with what commands changed of it.
    Config,
    /// `show lsps`: each LSP with its state, and each tunnel that begins here and has no path.
    Lsps,
    /// `show path KEY`: all that the router knows of the path of an LSP.
    Path(LspName),
    /// `show resv KEY`: all that the router knows of the reservation of an LSP.
    Resv(LspName),
    /// `show lsp N`: the state of the LSPs of the tunnel of this number that begins here.
    TunnelLsps(u16),
    /// `show lsp KEY`: the state of an LSP.
    Lsp(LspName),
}

// The lines that name no LSP.
const PATHS: &str = "show paths";

const RESVS: &str = "show resvs";

const TABLE: &str = "show table";

const LABELS: &str = "show labels";

const LINKS: &str = "show links";

const TUNNELS: &str = "show tunnels";

const BYPASSES: &str = "show bypasses";

const SUMMARY: &str = "show summary";

const CONFIG: &str = "show config";

const LSPS: &str = "show lsps";

// The words before an LSP that is shown, or before the number of its tunnel.
const SHOW: &str = "show";

const PATH: &str = "path";

const RESV: &str = "resv";

const LSP: &str = "lsp";

/// What a line asks to be shown that names no LSP: `show paths|resvs|table|labels|links|tunnels|bypasses|summary|config|lsps`; none
/// where it is no such line.
pub(crate) fn read_show(line: &str) -> Option<Shown>
    ensures { MatchOption result
        ((line.now ≢ codes "show paths") × (line.now ≢ codes "show resvs") × (line.now ≢ codes "show table")
        × (line.now ≢ codes "show labels") × (line.now ≢ codes "show links") × (line.now ≢ codes "show tunnels")
        × (line.now ≢ codes "show bypasses") × (line.now ≢ codes "show summary") × (line.now ≢ codes "show config")
        × (line.now ≢ codes "show lsps"))
        (AsksToSee line.now) }
{
    if line == PATHS {
        return Some(Shown::Paths);
    }
    if line == RESVS {
        return Some(Shown::Resvs);
    }
    if line == TABLE {
        return Some(Shown::Table);
    }
    if line == LABELS {
        return Some(Shown::Labels);
    }
    if line == LINKS {
        return Some(Shown::Links);
    }
    if line == TUNNELS {
        return Some(Shown::Tunnels);
    }
    if line == BYPASSES {
        return Some(Shown::Bypasses);
    }
    if line == SUMMARY {
        return Some(Shown::Summary);
    }
    if line == CONFIG {
        return Some(Shown::Config);
    }
    if line == LSPS {
        return Some(Shown::Lsps);
    }
    None
}

/// What a line asks to be shown of an LSP: `show path KEY`, `show resv KEY`, `show lsp KEY`, or `show lsp N` by the number of its
/// tunnel; none where it is no such line.
pub(crate) fn read_show_lsp(line: &str) -> Option<Shown>
    ensures { MatchOption result
        (((lsp : LspName) → ¬ AsksAbout (codes "path") line.now lsp) × ((lsp : LspName) → ¬ AsksAbout (codes "resv") line.now lsp)
        × ((number : ℕ) → ¬ AsksOfTunnel line.now number) × ((lsp : LspName) → ¬ AsksAbout (codes "lsp") line.now lsp))
        (AsksToSee line.now) }
{
    let (word, left) = next_word(Some(line))?;
    if word != SHOW {
        return None;
    }
    let (word, left) = next_word(left)?;
    if word == PATH {
        return Some(Shown::Path(read_lsp(left)?));
    }
    if word == RESV {
        return Some(Shown::Resv(read_lsp(left)?));
    }
    if word == LSP {
        if let Some(number) = only_number(left) {
            return Some(Shown::TunnelLsps(number));
        }
        return Some(Shown::Lsp(read_lsp(left)?));
    }
    None
}
