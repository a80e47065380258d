//! The answer to a query for top crashers.
ghost use Rattle.std.specs.Prelude.{◌≡◌, ◌+◌, ◌<◌, ◌≤◌, IfOk, length, map, take};
ghost use Rattle.std.specs.List.{enumerate_from};
ghost use Rattle.soc_schema.specs.declared.value.Value.TheVariants as Value;
ghost use Rattle.soc_schema.specs.Fields.{product_field, signature_field};
ghost use Rattle.soc_schema.specs.Values.{rows_with, values_of, text_in};
ghost use Rattle.soc_tops.specs.Tops.{tops_of};
ghost use Rattle.soc_search.specs.inner.Ranks.{AreBelow, top_at};

use crate::condition::text_in;
use crate::ranking::{Ranked, counts_among, ranking, ranks};
use crate::rows::rows_found;
use soc_base::{NoMemory, Text};
use soc_edge::Steps;
use soc_schema::Field;
use soc_store::Store;
use soc_tops::{Top, TopList, Tops, TopsQuery};
use std::alloc::Global;
use std::sync::ledger::Ledger;

/// The top crashers among the rows of a store that the query's caller may see. It reads at most as many rows as the
/// query's product has.
pub fn tops_of<L: Ledger>(
    alloc: Global,
    store: &Store,
    query: &TopsQuery,
    steps: &mut Steps<L>,
) -> Result<Tops, NoMemory>
    ensures value { IfOk result (λ tops. tops ≡ tops_of query.now store.now) }
    ensures few { steps.new ≤ steps.old + length
        (rows_with product_field (Value.Text query.now.product) store.now) }
{
    let found = rows_found(alloc, store, query, steps)?;
    if found.places.is_empty() {
        return Ok(Tops {
            total: 0,
            tops: TopList::new(alloc),
        });
    }
    let counts = counts_among(alloc, store, found.places.as_slice())?;
    let ranked = ranking(alloc, counts.as_slice())?;
    let old_counts = counts_among(alloc, store, found.old_places.as_slice())?;
    let old_ranked = ranking(alloc, old_counts.as_slice())?;
    let old_ranks = ranks(alloc, old_ranked.as_slice(), store.values(Field::SIGNATURE))?;
    let tops = listed(
        alloc,
        store,
        first(ranked.as_slice(), query.limit),
        old_counts.as_slice(),
        old_ranks.as_slice(),
    )?;
    Ok(Tops {
        total: found.places.len() as u64,
        tops,
    })
}

/// The first of a list.
fn first(ranking: &[Ranked], limit: u64) -> &[Ranked]
    ensures { result.now ≡ take limit ranking.now }
{
    &ranking[..ranking.len().min(limit as usize)]
}

/// The ranked signatures, each with its old count and rank.
fn listed(
    alloc: Global,
    store: &Store,
    ranking: &[Ranked],
    old_counts: &[u64],
    old_ranks: &[Option<u64>],
) -> Result<TopList, NoMemory>
    requires within { AreBelow (length (values_of signature_field store.now)) ranking.now }
    requires counts { length old_counts.now ≡ length (values_of signature_field store.now) }
    requires ranks { length old_ranks.now ≡ length (values_of signature_field store.now) }
    ensures { IfOk result (λ tops. tops
        ≡ map (top_at (values_of signature_field store.now) old_counts.now old_ranks.now)
        (enumerate_from 1 ranking.now)) }
{
    let mut tops = TopList::new(alloc);
    for (i, ranked) in ranking.iter().enumerate() {
        let top = top_at(alloc, store, old_counts, old_ranks, i as u64 + 1, *ranked)?;
        tops.push(top)?;
    }
    Ok(tops)
}

/// A ranked signature with its old count and rank.
fn top_at(
    alloc: Global,
    store: &Store,
    old_counts: &[u64],
    old_ranks: &[Option<u64>],
    rank: u64,
    ranked: Ranked,
) -> Result<Top, NoMemory>
    requires within { ranked.index < length (values_of signature_field store.now) }
    requires counts { length old_counts.now ≡ length (values_of signature_field store.now) }
    requires ranks { length old_ranks.now ≡ length (values_of signature_field store.now) }
    ensures { IfOk result (λ top. top
        ≡ top_at (values_of signature_field store.now) old_counts.now old_ranks.now
        (rank, ranked)) }
{
    let signature = store.value_at(Field::SIGNATURE, ranked.index);
    Ok(Top {
        signature: Text::of(alloc, text_in(signature))?,
        count: ranked.count,
        rank,
        old_count: old_counts[ranked.index],
        old_rank: old_ranks[ranked.index],
    })
}
