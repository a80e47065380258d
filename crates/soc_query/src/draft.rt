//! What a caller asks of the rows, as its pairs are read.
ghost use Rattle.std.specs.Prelude.{◌≡◌, ◌++◌, ◌∷◌, [], ℕ, true, Bool, List, length, Ok, IfOk, IfErr, OnOk, OnErr, drop, take, ◌≤◌, MatchResult};
ghost use Rattle.std.specs.List.{All, list_any};
ghost use Rattle.soc_query.specs.Queries.{Asked, IsRefusal, asked_by, or_default, query_of, with_field, with_pair, with_part, with_sort};

use crate::condition::Condition;
use crate::error::QueryError;
use crate::part::{Part, Sort};
use crate::reading::read_part;
use soc_base::{NoMemory, Pairs};
use soc_schema::{Caller, Field};
use std::alloc::Global;
use std::marker::Model;

/// The most pairs.
const MOST_PAIRS: usize = 128;

/// What a caller asks of the rows.
#[derive(Debug, Drop)]
pub(crate) struct Draft {
    caller: Caller,
    conditions: Vec<Condition>,
    sorts: Vec<Sort>,
    columns: Vec<Field>,
    facets: Vec<Field>,
    facet_size: u64,
    number: u64,
    offset: u64,
}

impl Model for Draft {
    ghost use Rattle.soc_query.specs.Queries.{Asked};

    ghost Value = { Asked };

    ghost view = { λ q. record {
      caller = q.caller;
      conditions = q.conditions.items;
      sorts =
          q.sorts.items;
      columns = q.columns.items;
      facets = q.facets.items;
      facet_size =
          q.facet_size;
      number = q.number;
      offset = q.offset;
    } };
}

impl Draft {
    /// The query that the pairs of a caller are, at most 128. The first faulty pair decides, and a 129th is one; on one
    /// pair an unknown field comes before one that isn't granted, a bad value and a bad number.
    pub(crate) fn read(alloc: Global, pairs: &Pairs, caller: Caller) -> Result<Draft, QueryError>
        ensures ok { IfOk result (λ query. query_of caller pairs.now ≡ Ok query) }
        ensures refused { IfErr result (IsRefusal (query_of caller pairs.now)) }
    {
        let mut query = Draft::new(alloc, caller);
        for i in 0..pairs.len().min(MOST_PAIRS) {
            let (name, value) = pairs.at(i);
            query.add_pair(alloc, name, value)?;
        }
        if pairs.len() > MOST_PAIRS {
            return Err(QueryError::TooManyConditions);
        }
        query.default_columns()?;
        Ok(query)
    }

    /// Nothing but defaults.
    fn new(alloc: Global, caller: Caller) -> Draft
        ensures { result ≡ asked_by caller }
    {
        Draft {
            caller,
            conditions: Vec::new(alloc),
            sorts: Vec::new(alloc),
            columns: Vec::new(alloc),
            facets: Vec::new(alloc),
            facet_size: 50,
            number: 100,
            offset: 0,
        }
    }

    /// One more pair.
    fn add_pair(&mut self, alloc: Global, name: &str, value: &str) -> Result<(), QueryError>
        ensures ok { OnOk result (with_pair self.old name.entry.now value.entry.now ≡ Ok self.new) }
        ensures refused { IfErr result
            (IsRefusal (with_pair self.old name.entry.now value.entry.now)) }
    {
        let said = read_part(alloc, &self.caller, name, value)?;
        self.add(said)?;
        Ok(())
    }

    /// What one more pair says.
    fn add(&mut self, said: Part) -> Result<(), NoMemory>
        ensures { OnOk result (self.new ≡ with_part said self.old) }
    {
        match said {
            Part::Meets(condition) => self.conditions.push(condition)?,
            Part::Sorted(sort) => add_sort(&mut self.sorts, sort)?,
            Part::Column(field) => add_field(&mut self.columns, field)?,
            Part::Facet(field) => add_field(&mut self.facets, field)?,
            Part::FacetSize(number) => self.facet_size = number,
            Part::Number(number) => self.number = number,
            Part::Offset(number) => self.offset = number,
        }
        Ok(())
    }

    /// The columns where none is named.
    fn default_columns(&mut self) -> Result<(), NoMemory>
        ensures { OnOk result (self.new
            ≡ record self.old { columns = or_default self.old.columns }) }
    {
        if self.columns.is_empty() {
            self.columns.push(Field::DATE)?;
            self.columns.push(Field::PRODUCT)?;
            self.columns.push(Field::SIGNATURE)?;
            self.columns.push(Field::UUID)?;
            self.columns.push(Field::VERSION)?;
        }
        Ok(())
    }

    /// Who asks.
    pub(crate) fn caller(&self) -> &Caller
        ensures { result.now ≡ self.now.caller }
    {
        &self.caller
    }

    /// What rows meet: of the pairs that want a value of one field, one, and each other condition.
    pub(crate) fn conditions(&self) -> &[Condition]
        ensures { result.now ≡ self.now.conditions }
    {
        self.conditions.as_slice()
    }

    /// The fields that hits are sorted by, before their ids.
    pub(crate) fn sorts(&self) -> &[Sort]
        ensures { result.now ≡ self.now.sorts }
    {
        self.sorts.as_slice()
    }

    /// The fields that hits have, in the order of the table.
    pub(crate) fn columns(&self) -> &[Field]
        ensures { result.now ≡ self.now.columns }
    {
        self.columns.as_slice()
    }

    /// The fields whose values are counted, in the order of the table.
    pub(crate) fn facets(&self) -> &[Field]
        ensures { result.now ≡ self.now.facets }
    {
        self.facets.as_slice()
    }

    /// How many values a facet has at most, up to 10,000.
    pub(crate) fn facet_size(&self) -> u64
        ensures { result ≡ self.now.facet_size }
    {
        self.facet_size
    }

    /// How many hits are given at most, up to 1,000.
    pub(crate) fn number(&self) -> u64
        ensures { result ≡ self.now.number }
    {
        self.number
    }

    /// How many hits are passed over, up to 65,536.
    pub(crate) fn offset(&self) -> u64
        ensures { result ≡ self.now.offset }
    {
        self.offset
    }
}

/// Puts a field among others in the order of the table, where it isn't among them.
fn add_field(fields: &mut Vec<Field>, field: Field) -> Result<(), NoMemory>
    ensures { OnOk result (fields.new.items ≡ with_field field fields.old.items) }
{
    if let Err(place) = place_among(fields.as_slice(), field) {
        fields.insert(place, field)?;
    }
    Ok(())
}

/// Where the field stands, or else where it would stand.
fn place_among(fields: &[Field], field: Field) -> Result<usize, usize>
    ensures { MatchResult result (λ _. with_field field fields.now ≡ fields.now)
        (λ p. (p ≤ length fields.now) × (with_field field fields.now ≡ take p fields.now
        ++ field ∷ drop p fields.now)) }
{
    for (place, other) in fields.iter().enumerate() {
        if other.place() == field.place() {
            return Ok(place);
        }
        if other.place() > field.place() {
            return Err(place);
        }
    }
    Err(fields.len())
}

/// Puts one more field to sort by at the end, where it isn't among them.
fn add_sort(sorts: &mut Vec<Sort>, sort: Sort) -> Result<(), NoMemory>
    ensures { OnOk result (sorts.new.items ≡ with_sort sort sorts.old.items) }
{
    for earlier in &*sorts {
        if earlier.field.place() == sort.field.place() {
            return Ok(());
        }
    }
    sorts.push(sort)?;
    Ok(())
}
