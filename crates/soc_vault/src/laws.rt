//! Laws about what a vault's disk holds, for those who build on it.
ghost use Rattle.std.specs.Prelude.{ℕ, List};
ghost use Rattle.soc_journal.specs.Entries.{Entry};
ghost use Rattle.soc_vault.specs.Vaults.{Means, StandsFor};

use crate::vault::Vault;
use soc_edge::Disk;

/// Each image that a stop may leave now stands for the vault's entries, and with a doubt for those, or those and all
/// entries in doubt.
pub fn images_stand_for_entries<D: Disk>(vault: &Vault<'_, D>)
    ensures { (entries : List Entry) (doubt : List Entry) (image : List ℕ)
        → Means (D.state vault.now.disk.now) vault.now.journal entries doubt
        → (D.state vault.now.disk.now).images image → StandsFor entries doubt image }
{
    let _ = vault;
}
