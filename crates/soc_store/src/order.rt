// The order of values and of products.
ghost use Rattle.std.specs.Prelude.{◌≡◌};
ghost use Rattle.std.specs.Cmp.{IsTotalOrder};
ghost use Rattle.std.specs.Option.{option_copied};
ghost use Rattle.std.specs.declared.cmp.Ordering.TheVariants.{Equal};
ghost use Rattle.soc_schema.specs.declared.value.Value.{Value};
ghost use Rattle.soc_schema.specs.Orders.{value_cmp};
ghost use Rattle.soc_store.specs.Orders.{product_cmp};

use soc_base::SharedText;
use soc_schema::Value;
use std::cmp::Ordering;

/// How two values compare: texts by their bytes, numbers by size, false before true. It is a total order, and only
/// equal values tie.
pub fn compare_values(a: &Value, b: &Value) -> Ordering
    ensures value { result ≡ value_cmp a.now b.now }
    ensures total { IsTotalOrder value_cmp }
    ensures exact { (v w : Value) → value_cmp v w ≡ Equal → v ≡ w }
{
    match a {
        Value::Text(x) => match b {
            Value::Text(y) => x.as_str().cmp(y.as_str()),
            _ => Ordering::Less,
        },
        Value::Number(x) => match b {
            Value::Text(_) => Ordering::Greater,
            Value::Number(y) => x.cmp(y),
            Value::Flag(_) => Ordering::Less,
        },
        Value::Flag(x) => match b {
            Value::Flag(y) => x.cmp(y),
            _ => Ordering::Greater,
        },
    }
}

/// How two products compare: none first, and then by bytes.
pub(crate) fn compare_products(a: &Option<SharedText>, b: Option<&SharedText>) -> Ordering
    ensures { result ≡ product_cmp a.now (option_copied b.entry) }
{
    match a {
        None => match b {
            None => Ordering::Equal,
            Some(_) => Ordering::Less,
        },
        Some(x) => match b {
            None => Ordering::Greater,
            Some(y) => x.as_str().cmp(y.as_str()),
        },
    }
}
