//! Writing to a disk, so that a stop can't take it back.
ghost use Rattle.std.specs.Prelude.{◌≡◌, ◌+◌, ◌≤◌, length, IfSome, OnOk, OnErr};
ghost use Rattle.std.specs.Option.{option_map};
ghost use Rattle.soc_edge.specs.Disk.{written, Tears, WhereTold, Only, MayTear, DiskFailed};

use soc_edge::{Disk, Failed};

/// Writes at a place, and makes it safe from a stop: two calls of the disk.
pub fn write_and_sync<D: Disk>(disk: &mut D, place: u64, bytes: &[u8]) -> Result<(), Failed>
    ensures written { OnOk result ((D.state disk.new).content
        ≡ option_map (λ old. written old place bytes.now) (D.state disk.old).content) }
    ensures durable { OnOk result (IfSome (D.state disk.new).content
        (λ now. Only now (D.state disk.new).images)) }
    ensures torn { WhereTold (Tears place (length bytes.now)) (D.state disk.old).content
        (D.state disk.new).content }
    ensures tears { MayTear place (length bytes.now) (D.state disk.old) (D.state disk.new) }
    ensures calls { (D.state disk.new).calls ≤ (D.state disk.old).calls + 2 }
    ensures cause { OnErr result (DiskFailed (D.state disk.old) (D.state disk.new)) }
{
    disk.write_at(place, bytes)?;
    disk.sync()
}
