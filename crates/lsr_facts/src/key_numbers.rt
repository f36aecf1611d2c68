// The numbers of LSPs, and of the messages that are kept alive for them.
ghost use Rattle.std.specs.Prelude.{◌≡◌, ◌^◌, ◌<◌, ℕ};
ghost use Rattle.std.specs.declared.cmp.Ordering.TheVariants.{Equal};
ghost use Rattle.lsr_facts.specs.Numbers.{key_number};

use crate::upstream::Upstream;
use crate::{Item, Key};

/// What has a number by which it is looked for.
pub trait Numbered: Ord {
    ghost number: { Self → ℕ };

    /// The number: another one for most other values.
    fn number(&self) -> usize
        ensures { result ≡ number self.now };

    // what compares as equal has the same number
    ghost same: { (a b : Self) → Self.cmp a b ≡ Equal → number a ≡ number b };
}

// How far apart numbers are of what differs by one in this part alone.
const LSP_STEP: usize = 521;

const SENDER_STEP: usize = 1_543;

const EXTENDED_STEP: usize = 3_079;

const ENDPOINT_STEP: usize = 6_151;

const LINK_STEP: usize = 2_053;

const HOP_STEP: usize = 769;

// How far the number of a repaired LSP's Path is from that of the LSP.
const BACKUP_STEP: usize = 1_031;

/// The number of an LSP, below 2^48. Tunnels that follow one another have numbers that do.
fn number_of(key: &Key) -> usize
    ensures value { result ≡ key_number key.now }
    ensures small { result < 2 ^ 48 }
{
    let tunnel = usize::from(key.session.tunnel);
    let lsp = usize::from(key.sender.lsp);
    let sender = key.sender.sender.to_bits() as usize;
    let extended = key.session.extended.to_bits() as usize;
    let endpoint = key.session.endpoint.to_bits() as usize;
    tunnel
        + lsp * LSP_STEP
        + sender * SENDER_STEP
        + extended * EXTENDED_STEP
        + endpoint * ENDPOINT_STEP
}

impl Numbered for Key {
    ghost use Rattle.lsr_facts.specs.NumberLaws.{key_same};

    ghost number = { key_number };

    ghost same = { key_same };

    fn number(&self) -> usize {
        number_of(self)
    }
}

impl Numbered for Item {
    ghost use Rattle.std.proofs.Common.{rules};
    ghost use Rattle.lsr_facts.specs.NumberLaws.{item_same};
    ghost use Rattle.lsr_facts.specs.Numbers.{item_number};

    ghost number = { item_number };

    ghost same = { item_same (Prim.search rules) };

    fn number(&self) -> usize {
        match self {
            Item::Down(key, _) => number_of(key),
            Item::Backup(key, _) => number_of(key) + BACKUP_STEP,
        }
    }
}

impl Numbered for Upstream {
    ghost use Rattle.lsr_facts.specs.NumberLaws.{upstream_same};
    ghost use Rattle.lsr_facts.specs.Numbers.{upstream_number};

    ghost number = { upstream_number };

    ghost same = { upstream_same };

    fn number(&self) -> usize {
        let sender = self.sender.to_bits() as usize;
        let link = u32::from(self.link) as usize;
        let hop = self.hop.to_bits() as usize;
        number_of(&self.key) + sender * SENDER_STEP + link * LINK_STEP + hop * HOP_STEP
    }
}
