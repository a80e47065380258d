//! What covers an offset.
ghost use Rattle.std.specs.Prelude.{◌≡◌};
ghost use Rattle.soc_symfile.specs.Found.{covers, source_at};

use crate::entries::SourceLine;

/// Whether an offset is at an address or behind it, and before its end.
pub fn covers(offset: u64, address: u64, size: u64) -> bool
    ensures { result ≡ covers offset address size }
{
    address <= offset && offset - address < size
}

/// The first source line that covers an offset.
pub fn source_at(lines: &[SourceLine], offset: u64) -> Option<SourceLine>
    ensures { result ≡ source_at lines.now offset }
{
    lines
        .iter()
        .copied()
        .find(|line| covers(offset, line.address, line.size))
}
