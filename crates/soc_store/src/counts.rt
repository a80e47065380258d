// Counts of products, in rising order of products.
ghost use Rattle.std.specs.Prelude.{◌≡◌, [], IfOk, OnOk, map};
ghost use Rattle.std.specs.Option.{option_copied};
ghost use Rattle.soc_schema.specs.Values.{product_of};
ghost use Rattle.soc_schema.specs.Tables.{FindsKey, Rising};
ghost use Rattle.soc_store.specs.Orders.{product_cmp};
ghost use Rattle.soc_store.specs.Stored.{counted, product_at, tally};

use crate::order::compare_products;
use crate::rows::Rows;
use soc_base::{NoMemory, SharedText};
use soc_schema::{Field, Row, Value};
use std::alloc::Global;
use std::cmp::Ordering;

/// How many rows there are of a product, or without one.
#[derive(Debug, Drop)]
pub struct ProductCount {
    /// The product, where there is one.
    pub product: Option<SharedText>,
    /// How many rows, at least 1.
    pub count: u64,
}

/// How many of the rows at the places there are of each product.
pub(crate) fn counts_at(
    alloc: Global,
    rows: &Rows,
    places: &[u32],
) -> Result<Vec<ProductCount>, NoMemory>
    ensures { IfOk result (λ counts. counts.items ≡ tally (map (product_at rows.now) places.now)) }
{
    let mut counts = Vec::new(alloc);
    for i in (0..places.len()).rev() {
        count_one(&mut counts, product_at(rows, places[i]))?;
    }
    Ok(counts)
}

/// The product of the row at a place.
fn product_at(rows: &Rows, place: u32) -> Option<&SharedText>
    ensures { option_copied result ≡ product_at rows.now place }
{
    product_of(rows.get(place)?)
}

/// A row's product, where it has one.
fn product_of(row: &Row) -> Option<&SharedText>
    ensures { option_copied result ≡ product_of row.now }
{
    match row.get(Field::PRODUCT) {
        Some(Value::Text(text)) => Some(text),
        _ => None,
    }
}

/// Counts one more of the product.
fn count_one(counts: &mut Vec<ProductCount>, product: Option<&SharedText>) -> Result<(), NoMemory>
    requires { Rising (λ c. c.product) product_cmp counts.old.items }
    ensures { OnOk result (counts.new.items
        ≡ counted (option_copied product.entry) counts.old.items) }
{
    match place_in(counts.as_slice(), product) {
        Ok(i) => {
            let Some(more) = counts[i].count.checked_add(1) else {
                return Err(NoMemory);
            };
            counts[i].count = more;
        }
        Err(i) => {
            let product = shared(product)?;
            counts.insert(i, ProductCount { product, count: 1 })?;
        }
    }
    Ok(())
}

/// Where the product's count stands, or else where it would stand.
fn place_in(counts: &[ProductCount], product: Option<&SharedText>) -> Result<usize, usize>
    requires { Rising (λ c. c.product) product_cmp counts.now }
    ensures { FindsKey (λ c. c.product) product_cmp
        (option_copied product.entry) counts.now result }
{
    let mut low = 0;
    let mut high = counts.len();
    while low < high {
        let middle = low + (high - low) / 2;
        match compare_products(&counts[middle].product, product) {
            Ordering::Less => low = middle + 1,
            Ordering::Equal => return Ok(middle),
            Ordering::Greater => high = middle,
        }
    }
    Err(low)
}

/// The same product. Its name is shared.
fn shared(product: Option<&SharedText>) -> Result<Option<SharedText>, NoMemory>
    ensures { IfOk result (λ shared. shared ≡ option_copied product.entry) }
{
    match product {
        None => Ok(None),
        Some(name) => Ok(Some(name.share()?)),
    }
}
