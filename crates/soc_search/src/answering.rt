//! The answer to a query.
ghost use Rattle.std.specs.Prelude.{◌≡◌, ◌+◌, ◌≤◌, IfOk};
ghost use Rattle.soc_query.specs.Answers.{answer_of};

use crate::facet::facets;
use crate::hits::hits;
use crate::selection::{matching, selected_count};
use soc_base::NoMemory;
use soc_edge::Steps;
use soc_query::{Answer, Fields, Query};
use soc_store::Store;
use std::alloc::Global;
use std::sync::ledger::Ledger;

/// The answer to a query over the rows of a store that its caller may see. It reads no row where it shows none.
pub fn answer_of<L: Ledger>(
    alloc: Global,
    store: &Store,
    query: &Query,
    steps: &mut Steps<L>,
) -> Result<Answer, NoMemory>
    ensures value { IfOk result (λ answer. answer ≡ answer_of query.now store.now) }
    ensures none { query.now.number ≡ 0 → steps.new ≡ steps.old }
    ensures past { (answer_of query.now store.now).total ≤ query.now.offset
        → steps.new ≡ steps.old }
    ensures few { steps.new ≤ steps.old + (answer_of query.now store.now).total }
{
    let found = matching(alloc, store, query)?;
    let total = selected_count(store, &found);
    let hits = hits(alloc, store, query, &found, total, steps)?;
    let facets = facets(alloc, store, query, &found.set)?;
    let columns = Fields::from(Vec::from_slice(alloc, query.columns())?);
    Ok(Answer {
        total: total as u64,
        columns,
        hits,
        facets,
    })
}
