//! Signatures by how many rows have them. A signature is told by its index among those of the store.
ghost use Rattle.std.specs.Prelude.{◌≡◌, ◌<◌, ◌≤◌, ◌==◌, ℕ, Bool, List, None, IfOk, OnOk, count_by, length, map, slice_index_or};
ghost use Rattle.std.specs.List.{filter, list_any};
ghost use Rattle.std.specs.List.Sorted.{IsNonDecreasing};
ghost use Rattle.std.specs.Ordering.{nat_cmp};
ghost use Rattle.soc_schema.specs.declared.value.Cell.{Cell};
ghost use Rattle.soc_schema.specs.Values.{rows_with, values_of};
ghost use Rattle.soc_store.specs.Stored.{PlacesRise};
ghost use Rattle.soc_schema.specs.Fields.{signature_field};
ghost use Rattle.soc_schema.specs.Orders.{in_order};
ghost use Rattle.soc_search.specs.inner.Ranks.{AreBelow, index_rank, numbered};

use soc_base::NoMemory;
use soc_schema::Field;
use soc_store::Store;
use std::alloc::Global;

/// A signature and how many rows have it.
#[derive(Clone, Copy, Debug)]
pub(crate) struct Ranked {
    pub(crate) index: usize,
    pub(crate) count: u64,
}

/// How many of the rows at the places each signature has.
pub(crate) fn counts_among(
    alloc: Global,
    store: &Store,
    places: &[u32],
) -> Result<Vec<u64>, NoMemory>
    requires { IsNonDecreasing places.now }
    ensures { (test : ℕ × List Cell → Bool) → places.now ≡ map (λ s. s.0) (filter test store.now)
        → IfOk result (λ counts. counts.items
        ≡ map (λ v. length (rows_with signature_field v (filter test store.now)))
        (values_of signature_field store.now)) }
{
    store.places_rise();
    let mut counts = Vec::new(alloc);
    let mut near = 0;
    for i in 0..store.values(Field::SIGNATURE) {
        let (_, having) = store.term_near(Field::SIGNATURE, i, &mut near);
        counts.push(count_among(places, having))?;
    }
    Ok(counts)
}

/// How many of the places stand in the rising list.
fn count_among(rising: &[u32], places: &[u32]) -> u64
    requires { IsNonDecreasing rising.now }
    ensures { result ≡ count_by (λ p. list_any (λ q. q == p) rising.now) places.now }
{
    let mut count = 0;
    for place in places {
        if is_among(rising, *place) {
            count += 1;
        }
    }
    count
}

fn is_among(rising: &[u32], place: u32) -> bool
    requires { IsNonDecreasing rising.now }
    ensures { result ≡ list_any (λ q. q == place) rising.now }
{
    rising.binary_search(&place).is_ok()
}

/// The signatures that are counted, greater counts first.
pub(crate) fn ranking(alloc: Global, counts: &[u64]) -> Result<Vec<Ranked>, NoMemory>
    ensures { IfOk result (λ ranking. ranking.items
        ≡ in_order (λ a b. nat_cmp b.count a.count) (numbered 0 counts.now)) }
{
    let mut ranking = counted(alloc, counts)?;
    sort_by_count(&mut ranking)?;
    Ok(ranking)
}

fn counted(alloc: Global, counts: &[u64]) -> Result<Vec<Ranked>, NoMemory>
    ensures { IfOk result (λ ranking. ranking.items ≡ numbered 0 counts.now) }
{
    let mut ranking = Vec::new(alloc);
    for (index, count) in counts.iter().enumerate() {
        if *count > 0 {
            ranking.push(Ranked {
                index,
                count: *count,
            })?;
        }
    }
    Ok(ranking)
}

/// Greater counts first; what ties stays as it stands.
fn sort_by_count(ranking: &mut Vec<Ranked>) -> Result<(), NoMemory>
    ensures { OnOk result (ranking.new.items
        ≡ in_order (λ a b. nat_cmp b.count a.count) ranking.old.items) }
{
    ranking.sort_by(|a, b| b.count.cmp(&a.count))?;
    Ok(())
}

/// The rank of each signature, from 1, where it is ranked.
pub(crate) fn ranks(
    alloc: Global,
    ranking: &[Ranked],
    signatures: usize,
) -> Result<Vec<Option<u64>>, NoMemory>
    requires { AreBelow signatures ranking.now }
    ensures count { IfOk result (λ ranks. length ranks.items ≡ signatures) }
    ensures each { IfOk result (λ ranks. (i : ℕ)
        → slice_index_or ranks.items i None ≡ index_rank 1 i ranking.now) }
{
    let mut ranks = vec![in alloc; None; signatures]?;
    for i in (0..ranking.len()).rev() {
        ranks[ranking[i].index] = Some(i as u64 + 1);
    }
    Ok(ranks)
}
