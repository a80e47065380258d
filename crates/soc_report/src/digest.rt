//! The digest of the texts that reports are made with.
ghost use Rattle.std.specs.Prelude.{◌≡◌, ◌++◌, List, ℕ, map, flat_map};
ghost use Rattle.sha2.specs.Sha256.{sha256};
ghost use Rattle.soc_report.specs.Digests.{digested, digested_symbol, sized, IsOneKit};
ghost use Rattle.soc_report.specs.inner.Reading.{symbol_view};

use crate::texts::{KitText, SymbolFile};
use sha2::{Digest, Sha256};

/// Adds a text after its length in 8 bytes.
fn add_sized<D: Digest>(hasher: &mut D, text: &[u8])
    ensures { (before : List ℕ) → D.holds hasher.old before
        → D.holds hasher.new (before ++ sized text.now) }
{
    let length = text.len() as u64;
    hasher.update(length.to_le_bytes().as_slice());
    hasher.update(text);
}

/// Adds the path and the content of each symbol file.
fn add_symbols<D: Digest>(hasher: &mut D, symbols: &[SymbolFile])
    ensures { (before : List ℕ) → D.holds hasher.old before
        → D.holds hasher.new (before ++ flat_map digested_symbol (map symbol_view symbols.now)) }
{
    for symbol in symbols {
        add_sized(hasher, symbol.path.as_str().as_bytes());
        add_sized(hasher, symbol.content.as_slice());
    }
}

impl KitText {
    /// The SHA-256 of the texts: of the three lists, the number of symbol files, and each one's path and content. It
    /// takes no memory.
    pub fn digest(&self) -> [u8; 32]
        ensures { result ≡ sha256 (digested self.now) }
    {
        let mut hasher = Sha256::new();
        add_sized(&mut hasher, self.irrelevant());
        add_sized(&mut hasher, self.prefix());
        add_sized(&mut hasher, self.sentinel());
        let count = self.symbols().len() as u64;
        hasher.update(count.to_le_bytes().as_slice());
        add_symbols(&mut hasher, self.symbols());
        hasher.finalize()
    }
}

/// A digested text is that of one kit.
pub fn one_kit()
    ensures { IsOneKit }
{}
