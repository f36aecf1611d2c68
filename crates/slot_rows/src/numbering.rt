// The numbers of keys.
ghost use Rattle.std.specs.Prelude.{◌≡◌, ℕ};
ghost use Rattle.std.specs.declared.cmp.Ordering.TheVariants.{Equal};

/// Numbers by which keys are looked for: most keys have another one each.
pub trait Numbering<K: Ord> {
    ghost number: { K → ℕ };

    /// The number of a key.
    fn number(key: &K) -> usize
        ensures { result ≡ number key.now };

    // keys that compare as equal have the same number
    ghost same: { (a b : K) → K.cmp a b ≡ Equal → number a ≡ number b };
}

/// Keys that are numbers themselves.
#[derive(Debug, Drop)]
pub struct OwnNumber;

impl Numbering<u16> for OwnNumber {
    ghost use Rattle.std.proofs.lemmas.Map.Lookups.{exact_unsigned};

    ghost number = { λ key. key };

    ghost same = { exact_unsigned };

    fn number(key: &u16) -> usize {
        usize::from(*key)
    }
}

impl Numbering<u32> for OwnNumber {
    ghost use Rattle.std.proofs.lemmas.Map.Lookups.{exact_unsigned};

    ghost number = { λ key. key };

    ghost same = { exact_unsigned };

    fn number(key: &u32) -> usize {
        *key as usize
    }
}
