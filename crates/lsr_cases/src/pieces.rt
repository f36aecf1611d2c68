use anyhow::Result;
use std::alloc::Global;
use std::collections::BTreeMap;

/// Bytes that the files have given names to.
#[derive(Drop)]
pub struct Pieces {
    alloc: Global,
    named: BTreeMap<String, Vec<u8>>,
}

impl Pieces {
    /// No named bytes.
    pub fn new(alloc: Global) -> Pieces {
        Pieces {
            alloc,
            named: BTreeMap::new(alloc),
        }
    }

    /// Gives the name to the bytes that the text spells.
    pub fn name(&mut self, name: &str, text: &str) -> Result<()> {
        let bytes = self.spell(text)?;
        let name = String::from_str(self.alloc, name)?;
        self.named.insert(name, bytes)?;
        Ok(())
    }

    /// The bytes that the text's words spell, one after the other. A word is a name or hexadecimal digits; with `N*`
    /// before it, it stands N times.
    pub fn spell(&self, text: &str) -> Result<Vec<u8>> {
        let mut bytes = Vec::new(self.alloc);
        for word in text.split_whitespace() {
            let (times, piece) = match word.split_once('*') {
                Some((times, piece)) => (times.parse::<u32>()?, piece),
                None => (1, word),
            };
            let spelled = match self.named.get(piece) {
                Some(named) => named.clone()?,
                None => hex::decode(self.alloc, piece)?,
            };
            for _ in 0..times {
                bytes.extend_from_slice(spelled.as_slice())?;
            }
        }
        Ok(bytes)
    }
}
