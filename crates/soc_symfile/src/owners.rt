//! Records that own others, which stand together in a table.
ghost use Rattle.std.specs.Prelude.{◌≡◌, ◌≤◌, ◌<◌, ◌++◌, ◌∷◌, [], length, vec_len, slice_get, Some, OnOk, OnErr};
ghost use Rattle.soc_symfile.specs.inner.Tables.{AreLaidOut, Owns, with_end};

use crate::entries::{Extent, Owned, Owner};
use soc_base::NoMemory;

/// Adds an owner that has nothing yet, where its table has so many records.
pub fn push_owner<'a>(
    owners: &mut Vec<Owner<'a>>,
    extent: Extent<'a>,
    count: usize,
) -> Result<(), NoMemory>
    ensures ok { OnOk result (owners.new.items ≡ owners.old.items
        ++ record { extent = extent.entry; first = count; end = count } ∷ []) }
    ensures err { OnErr result (owners.new.items ≡ owners.old.items) }
{
    owners.push(Owner {
        extent,
        first: count,
        end: count,
    })?;
    Ok(())
}

/// Lets the last owner have all records up to a place.
pub fn extend_last(owners: &mut Vec<Owner<'_>>, end: usize)
    requires { 0 < vec_len owners.old }
    ensures { owners.new.items ≡ with_end end owners.old.items }
{
    let last = owners.len() - 1;
    owners[last].end = end;
}

/// An owner whose records lie in a table of so many.
fn owner_at<'a>(owners: &[Owner<'a>], at: usize, count: usize) -> Owner<'a>
    requires inside { at < length owners.now }
    requires laid { AreLaidOut owners.now count }
    ensures owner { slice_get owners.now at ≡ Some result }
    ensures order { result.first ≤ result.end }
    ensures bound { result.end ≤ count }
{
    owners[at]
}

/// An owner with the records that it has in their table.
pub fn owned_at<'a, P>(owners: &[Owner<'a>], parts: &'a [P], at: usize) -> Owned<'a, P>
    requires inside { at < length owners.now }
    requires laid { AreLaidOut owners.now (length parts.now) }
    ensures { Owns owners.now parts.now at result }
{
    let owner = owner_at(owners, at, parts.len());
    Owned {
        extent: owner.extent,
        parts: &parts[owner.first..owner.end],
    }
}
