//! What a caller asks of the rows.
ghost use Rattle.std.specs.Prelude.{◌≡◌, Ok, IfOk, IfErr};
ghost use Rattle.soc_query.specs.Queries.{AreGranted, IsRefusal, query_of};

use crate::condition::Condition;
use crate::draft::Draft;
use crate::error::QueryError;
use crate::part::Sort;
use soc_base::Pairs;
use soc_schema::{Caller, Field};
use std::alloc::Global;
use std::marker::Model;

/// What a caller asks of the rows. Each field that it names is granted to its caller.
#[derive(Debug, Drop)]
pub struct Query {
    draft: Draft,
}

impl Model for Query {
    ghost use Rattle.soc_query.specs.Queries.{AreGranted, Asked};

    ghost Value = { Asked };

    ghost view = { λ q. q.draft };

    ghost invariant = { λ q. AreGranted q.draft };
}

impl Query {
    /// The query that the pairs of a caller are, at most 128. The first faulty pair decides, and a 129th is one; on one
    /// pair an unknown field comes before one that isn't granted, a bad value and a bad number.
    pub fn read(alloc: Global, pairs: &Pairs, caller: Caller) -> Result<Query, QueryError>
        ensures ok { IfOk result (λ query. query_of caller pairs.now ≡ Ok query) }
        ensures granted { IfOk result AreGranted }
        ensures refused { IfErr result (IsRefusal (query_of caller pairs.now)) }
    {
        let draft = Draft::read(alloc, pairs, caller)?;
        Ok(Query { draft })
    }

    /// Who asks.
    pub fn caller(&self) -> &Caller
        ensures caller { result.now ≡ self.now.caller }
        ensures granted { AreGranted self.now }
    {
        self.draft.caller()
    }

    /// What rows meet: of the pairs that want a value of one field, one, and each other condition.
    pub fn conditions(&self) -> &[Condition]
        ensures { result.now ≡ self.now.conditions }
    {
        self.draft.conditions()
    }

    /// The fields that hits are sorted by, before their ids.
    pub fn sorts(&self) -> &[Sort]
        ensures { result.now ≡ self.now.sorts }
    {
        self.draft.sorts()
    }

    /// The fields that hits have, in the order of the table.
    pub fn columns(&self) -> &[Field]
        ensures { result.now ≡ self.now.columns }
    {
        self.draft.columns()
    }

    /// The fields whose values are counted, in the order of the table.
    pub fn facets(&self) -> &[Field]
        ensures { result.now ≡ self.now.facets }
    {
        self.draft.facets()
    }

    /// How many values a facet has at most, up to 10,000.
    pub fn facet_size(&self) -> u64
        ensures { result ≡ self.now.facet_size }
    {
        self.draft.facet_size()
    }

    /// How many hits are given at most, up to 1,000.
    pub fn number(&self) -> u64
        ensures { result ≡ self.now.number }
    {
        self.draft.number()
    }

    /// How many hits are passed over, up to 65,536.
    pub fn offset(&self) -> u64
        ensures { result ≡ self.now.offset }
    {
        self.draft.offset()
    }
}
