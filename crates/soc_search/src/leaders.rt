//! The values with the greatest counts among many.
ghost use Rattle.std.specs.Prelude.{◌≡◌, ◌<◌, ◌≤◌, true, false, [], IfOk, OnOk, OnErr, length, map, take};
ghost use Rattle.std.specs.List.{AllByRecursion};
ghost use Rattle.soc_schema.specs.declared.value.Value.{Value};
ghost use Rattle.soc_schema.specs.Orders.{in_order};
ghost use Rattle.soc_search.specs.inner.Leaders.{by_count, with_term};
ghost use Rattle.soc_search.specs.inner.Selections.{as_term};

use soc_base::NoMemory;
use soc_query::{Term, Terms};
use soc_schema::Value;
use std::alloc::Global;
use std::marker::Model;

/// A value and how many rows have it.
#[derive(Drop)]
pub(crate) struct Counted<'a> {
    pub(crate) value: &'a Value,
    pub(crate) count: u64,
}

/// The values with the greatest counts of those that were offered, at most `size` of them. Of values that tie, those
/// that were offered first are taken.
#[derive(Drop)]
pub(crate) struct Leaders<'a> {
    size: usize,
    /// These values, and up to as many others that the next cut drops.
    kept: Vec<Counted<'a>>,
    /// A value with no greater count is none of them.
    bar: u64,
}

impl<'a> Model for Leaders<'a> {
    ghost use Rattle.std.specs.Prelude.{map, take};
    ghost use Rattle.soc_schema.specs.Orders.{in_order};
    ghost use Rattle.soc_search.specs.inner.Leaders.{IsBar, Leading, by_count};
    ghost use Rattle.soc_search.specs.inner.Selections.{as_term};

    ghost Value = { Leading };

    ghost view = { λ l. record {
      size = l.size;
      terms = take l.size
          (in_order by_count (map as_term l.kept.items));
    } };

    ghost invariant = { λ l. IsBar l.bar
        (record {
          size = l.size;
          terms = take l.size
              (in_order by_count (map as_term l.kept.items));
        }) };
}

impl<'a> Leaders<'a> {
    /// None of so many at most.
    pub(crate) fn new(alloc: Global, size: usize) -> Leaders<'a>
        ensures { result ≡ record { size = size; terms = [] } }
    {
        Leaders {
            size,
            kept: Vec::new(alloc),
            bar: 0,
        }
    }

    /// Whether a value that so many rows have may be one of them.
    pub(crate) fn wants(&self, count: u64) -> bool
        ensures some { result ≡ true → 0 < count }
        ensures none { result ≡ false → 0 < count → (v : Value)
            → with_term (record { value = v; count = count }) self.now ≡ self.now }
    {
        count > self.bar
    }

    /// Offers one more value.
    pub(crate) fn offer(&mut self, counted: Counted<'a>) -> Result<(), NoMemory>
        requires { 0 < counted.count }
        ensures { OnOk result (self.new ≡ with_term (as_term counted.entry) self.old) }
    {
        if counted.count <= self.bar {
            return Ok(());
        }
        self.kept.push(counted)?;
        if self.kept.len() / 2 >= self.size {
            cut(&mut self.kept, self.size)?;
            self.bar = bar_of(self.kept.as_slice(), self.size);
        }
        Ok(())
    }

    /// These values as terms, greater counts first.
    pub(crate) fn terms(&mut self, alloc: Global) -> Result<Terms, NoMemory>
        ensures { IfOk result (λ terms. terms ≡ self.old.terms) }
    {
        cut(&mut self.kept, self.size)?;
        terms_of(alloc, self.kept.as_slice())
    }
}

/// The values and counts as terms.
fn terms_of(alloc: Global, kept: &[Counted<'_>]) -> Result<Terms, NoMemory>
    ensures { IfOk result (λ terms. terms ≡ map as_term kept.now) }
{
    let mut terms = Terms::new(alloc);
    for one in kept {
        let value = one.value.share()?;
        terms.push(Term {
            value,
            count: one.count,
        })?;
    }
    Ok(terms)
}

/// Greater counts first, and no more values than `size`. Where memory is wanting, they are as they were.
fn cut(kept: &mut Vec<Counted<'_>>, size: usize) -> Result<(), NoMemory>
    ensures ok { OnOk result (map as_term kept.new.items
        ≡ take size (in_order by_count (map as_term kept.old.items))) }
    ensures err { OnErr result (kept.new.items ≡ kept.old.items) }
{
    sort_by_count(kept)?;
    kept.truncate(size);
    Ok(())
}

/// Greater counts first; what ties stays as it stands.
fn sort_by_count(counted: &mut Vec<Counted<'_>>) -> Result<(), NoMemory>
    ensures ok { OnOk result (map as_term counted.new.items
        ≡ in_order by_count (map as_term counted.old.items)) }
    ensures err { OnErr result (counted.new.items ≡ counted.old.items) }
{
    counted.sort_by(|a, b| b.count.cmp(&a.count))?;
    Ok(())
}

/// The least count of values in order, or 0 where they are fewer than `size`.
fn bar_of(kept: &[Counted<'_>], size: usize) -> u64
    requires { in_order by_count (map as_term kept.now) ≡ map as_term kept.now }
    ensures below { AllByRecursion (λ t. result ≤ t.count) (map as_term kept.now) }
    ensures full { 0 < result → size ≤ length kept.now }
{
    match kept.last() {
        Some(last) if kept.len() >= size => last.count,
        _ => 0,
    }
}
