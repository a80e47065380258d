//! Queries.
ghost use Rattle.std.specs.Prelude.{◌≡◌, IfOk};
ghost use Rattle.std.specs.Option.{option_copied};
ghost use Rattle.soc_http.specs.Query.{first_value, query_pairs};

use soc_base::{NoMemory, Pairs, Text};
use std::alloc::Global;

/// The names and values of a query or of a form's body, in order, decoded (URL Standard, section 5.1).
pub fn pairs_of(alloc: Global, query: &[u8]) -> Result<Pairs, NoMemory>
    ensures { IfOk result (λ pairs. pairs ≡ query_pairs query.now) }
{
    let mut pairs = Pairs::new(alloc);
    for pair in form_urlencoded::parse(alloc, query).into_owned() {
        let (name, value) = pair?;
        pairs.push(Text::from(name), Text::from(value))?;
    }
    Ok(pairs)
}

/// The value of the first pair of this name.
pub fn first_value<'a>(pairs: &'a Pairs, name: &str) -> Option<&'a str>
    ensures { option_copied result ≡ first_value name.now pairs.now }
{
    for (pair_name, value) in pairs {
        if pair_name == name {
            return Some(value);
        }
    }
    None
}

/// The value of the first pair of this name in a query or in a form's body. No list of the pairs is made.
pub fn first_value_in(alloc: Global, query: &[u8], name: &str) -> Result<Option<Text>, NoMemory>
    ensures { IfOk result (λ found. found ≡ first_value name.now (query_pairs query.now)) }
{
    for pair in form_urlencoded::parse(alloc, query).into_owned() {
        let (pair_name, value) = pair?;
        if pair_name.as_str() == name {
            return Ok(Some(Text::from(value)));
        }
    }
    Ok(None)
}
