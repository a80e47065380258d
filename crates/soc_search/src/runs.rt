//! The run of a field's values that conditions leave.
ghost use Rattle.std.specs.Prelude.{◌≡◌, ◌≤◌, ◌<◌, ℕ, true, false, None, length, map, slice_index_or};
ghost use Rattle.soc_schema.specs.declared.value.Value.{Value};
ghost use Rattle.soc_schema.specs.Values.{values_of};
ghost use Rattle.soc_search.specs.inner.Runs.{IsFront, Misses, comes_before, is_run, stands};
ghost use Rattle.soc_search.specs.inner.Selections.{are_met, stands_out};

use crate::condition::{compares, is_run};
use soc_query::{Comparison, Condition, Test};
use soc_schema::{Field, Value};
use soc_store::{Store, compare_values};
use std::cmp::Ordering;

/// Values that stand one behind the other, as indices among those of a field.
#[derive(Clone, Copy)]
pub(crate) struct Run {
    /// The first of them.
    pub(crate) first: usize,
    /// The one behind the last of them.
    pub(crate) end: usize,
}

/// An edge of a run.
#[derive(Clone, Copy)]
enum Edge {
    First,
    End,
}

/// The values of the field outside of this run don't stand out. Each condition on a run of values narrows it.
pub(crate) fn asked_run(store: &Store, field: Field, asked: &[&Condition], absent: bool) -> Run
    requires { absent ≡ are_met (map (λ c. c.now) asked.now) None }
    ensures within { result.end ≤ length (values_of field store.now) }
    ensures before { (k : ℕ) (d : Value) → k < result.first
        → stands_out (map (λ c. c.now) asked.now)
        (slice_index_or (values_of field store.now) k d) ≡ false }
    ensures behind { (k : ℕ) (d : Value) → result.end ≤ k → k < length (values_of field store.now)
        → stands_out (map (λ c. c.now) asked.now)
        (slice_index_or (values_of field store.now) k d) ≡ false }
{
    let mut run = Run {
        first: 0,
        end: store.values(field),
    };
    if absent {
        return run;
    }
    for condition in asked {
        let part = run_of(store, field, condition);
        run = Run {
            first: run.first.max(part.first),
            end: run.end.min(part.end),
        };
    }
    run
}

/// A run of the values of the field outside of which none meets the condition. It is found in a logarithm.
fn run_of(store: &Store, field: Field, condition: &Condition) -> Run
    ensures within { result.end ≤ length (values_of field store.now) }
    ensures before { (k : ℕ) (d : Value) → k < result.first
        → Misses condition.now (slice_index_or (values_of field store.now) k d) }
    ensures behind { (k : ℕ) (d : Value) → result.end ≤ k → k < length (values_of field store.now)
        → Misses condition.now (slice_index_or (values_of field store.now) k d) }
{
    match &condition.test {
        Test::Compares(how, operand) if !condition.negated && is_run(*how) => Run {
            first: count_before(store, field, *how, operand, Edge::First),
            end: count_before(store, field, *how, operand, Edge::End),
        },
        _ => Run {
            first: 0,
            end: store.values(field),
        },
    }
}

/// How many of the values come before an edge of the run.
fn count_before(store: &Store, field: Field, how: Comparison, operand: &Value, edge: Edge) -> usize
    requires { is_run how ≡ true }
    ensures { IsFront (λ v. comes_before edge (stands how operand.now v))
        (values_of field store.now) result }
{
    let mut low = 0;
    let mut high = store.values(field);
    while low < high {
        let middle = low + (high - low) / 2;
        let order = stand(how, operand, store.value_at(field, middle));
        if comes_before(edge, order) {
            low = middle + 1;
        } else {
            high = middle;
        }
    }
    low
}

/// Whether what stands so to the run comes before its edge.
fn comes_before(edge: Edge, order: Ordering) -> bool
    ensures { result ≡ comes_before edge order }
{
    match edge {
        Edge::First => order == Ordering::Less,
        Edge::End => order != Ordering::Greater,
    }
}

/// Where the value stands to the run of those that compare so with the operand: before it, in it or behind it.
fn stand(how: Comparison, operand: &Value, value: &Value) -> Ordering
    ensures { result ≡ stands how operand.now value.now }
{
    if compares(how, operand, value) {
        return Ordering::Equal;
    }
    match how {
        Comparison::Below => Ordering::Greater,
        Comparison::Above => Ordering::Less,
        _ => compare_values(value, operand),
    }
}
