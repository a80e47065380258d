//! The vault: the entries that a desk keeps on a disk. It knows nothing of what they mean.
//!
//! It holds the lent disk and the journal on it. Entries whose write failed are in doubt until the vault has settled whether
//! the disk has all of them or none, and nothing else is kept before.
#![tactic(auto)]

mod laws;
mod opening;
mod recovery;
mod vault;

pub use laws::images_stand_for_entries;
pub use opening::open;
pub use recovery::{Found, Recover};
pub use vault::Vault;
