//! What is told of a storm at its end.
ghost use Rattle.std.specs.Prelude.{◌≡◌, ◌++◌, ◌∷◌, [], IfOk, IsTrue, OnOk, map};
ghost use Rattle.soc_desk.specs.Basis.{Basis};
ghost use Rattle.soc_desk.specs.State.{State};
ghost use Rattle.soc_schema.specs.Orders.{in_order};
ghost use Rattle.soc_schema.specs.Values.{text_in};
ghost use Rattle.soc_book.specs.Books.{StandsFor, lent_to, reporter_of};
ghost use Rattle.soc_serve.specs.Storm.{Subsides, signatures_of, term_line, term_lines};
ghost use Rattle.soc_serve.specs.inner.Storm.{by_value, signature_asked};

use crate::lines::counts_text;
use crate::sweep::drain;
use soc_base::{Bytes, NoMemory, Pairs, Text};
use soc_book::Book;
use soc_desk::Reply;
use soc_edge::Disk;
use soc_query::{Query, Term};
use soc_replay::push_line;
use soc_schema::{Caller, Permissions, Products, Reporter, Value};
use soc_store::compare_values;
use std::alloc::Global;

/// More signatures than are told. Made crashes have five.
const TOO_MANY: usize = 10_000;

/// Processes what is due, and tells how many crashes are held, how many of them have a report, and how many reports have each
/// signature. Where another number of crashes is held, memory was wanting for some of them.
pub(crate) fn sum_up<D: Disk, R: Reporter>(
    alloc: Global,
    book: &mut Book<'_, D, R>,
    count: u32,
) -> Result<Bytes, NoMemory>
    ensures same_disk { lent_to book.new ≡ lent_to book.old }
    ensures subsides { IfOk result
        (λ text. (basis : Basis) (state : State) → basis.row_of ≡ R.row_of (reporter_of book.old)
        → IsTrue basis.is_told
        → StandsFor basis book.old state
        → Subsides basis state count text) }
{
    let Ok(()) = drain(book) else {
        return Err(NoMemory);
    };
    let crashes = book.crashes();
    if crashes != count {
        return Err(NoMemory);
    }
    let mut text = counts_text(alloc, crashes, book.reports())?;
    push_signatures(alloc, &mut text, book)?;
    Ok(Bytes::from(text))
}

/// Adds a line for each signature that a report has, in rising order.
fn push_signatures<D: Disk, R: Reporter>(
    alloc: Global,
    text: &mut Vec<u8>,
    book: &mut Book<'_, D, R>,
) -> Result<(), NoMemory>
    ensures same_disk { lent_to book.new ≡ lent_to book.old }
    ensures pushed { OnOk result ((basis : Basis) (state : State)
        → basis.row_of ≡ R.row_of (reporter_of book.old) → IsTrue basis.is_told
        → StandsFor basis book.old state
        → text.new.items ≡ text.old.items ++ term_lines (signatures_of basis state.log)) }
{
    let query = signature_query(alloc)?;
    let Reply::Found(answer) = book.search(&query) else {
        return Err(NoMemory);
    };
    let Some(facet) = answer.facets.as_slice().first() else {
        return Err(NoMemory);
    };
    if facet.terms.len() >= TOO_MANY {
        return Err(NoMemory);
    }
    push_terms(alloc, text, facet.terms.as_slice())?;
    Ok(())
}

/// Asks for how many reports have each signature.
fn signature_query(alloc: Global) -> Result<Query, NoMemory>
    ensures { IfOk result (λ query. query ≡ signature_asked) }
{
    let mut pairs = Pairs::new(alloc);
    push_pair(alloc, &mut pairs, "_facets", "signature")?;
    push_pair(alloc, &mut pairs, "_facets_size", "10000")?;
    push_pair(alloc, &mut pairs, "_results_number", "0")?;
    let onlooker = Caller {
        permissions: Permissions::public(),
        products: Products::All,
    };
    match Query::read(alloc, &pairs, onlooker) {
        Ok(query) => Ok(query),
        Err(_) => Err(NoMemory),
    }
}

fn push_pair(alloc: Global, pairs: &mut Pairs, name: &str, value: &str) -> Result<(), NoMemory>
    ensures { OnOk result (pairs.new ≡ pairs.old ++ (name.now, value.now) ∷ []) }
{
    pairs.push(Text::of(alloc, name)?, Text::of(alloc, value)?)
}

/// Adds a line for each term, in rising order of values.
fn push_terms(alloc: Global, text: &mut Vec<u8>, terms: &[Term]) -> Result<(), NoMemory>
    ensures { OnOk result (text.new.items ≡ text.old.items
        ++ term_lines (in_order by_value terms.now)) }
{
    let sorted = sorted_terms(alloc, terms)?;
    push_lines(text, sorted.as_slice())
}

/// The terms in rising order of values.
fn sorted_terms<'a>(alloc: Global, terms: &'a [Term]) -> Result<Vec<&'a Term>, NoMemory>
    ensures { IfOk result (λ sorted. map (λ term. term.now) sorted.items
        ≡ in_order by_value terms.now) }
{
    let mut sorted = listed(alloc, terms)?;
    sorted.sort_by(|a, b| compare_values(&a.value, &b.value))?;
    Ok(sorted)
}

/// The terms as they stand.
fn listed<'a>(alloc: Global, terms: &'a [Term]) -> Result<Vec<&'a Term>, NoMemory>
    ensures { IfOk result (λ list. map (λ term. term.now) list.items ≡ terms.now) }
{
    let mut list = Vec::with_capacity(alloc, terms.len())?;
    for term in terms {
        list.push(term)?;
    }
    Ok(list)
}

fn push_lines(text: &mut Vec<u8>, terms: &[&Term]) -> Result<(), NoMemory>
    ensures { OnOk result (text.new.items ≡ text.old.items
        ++ term_lines (map (λ term. term.now) terms.now)) }
{
    for term in terms {
        push_term(text, term)?;
    }
    Ok(())
}

fn push_term(text: &mut Vec<u8>, term: &Term) -> Result<(), NoMemory>
    ensures { OnOk result (text.new.items ≡ text.old.items ++ term_line term.now) }
{
    text.extend_from_slice(text_of(&term.value))?;
    push_line(text, b" ", term.count)
}

/// The text of a value that is one.
fn text_of(value: &Value) -> &[u8]
    ensures { result.now ≡ text_in value.now }
{
    match value {
        Value::Text(text) => text.as_str().as_bytes(),
        Value::Number(_) | Value::Flag(_) => b"",
    }
}
