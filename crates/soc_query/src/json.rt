//! Answers as JSON (RFC 8259).
ghost use Rattle.std.specs.Prelude.{◌≡◌, ◌++◌, OnOk};
ghost use Rattle.soc_schema.specs.RowJson.{row_json};
ghost use Rattle.soc_query.specs.Json.{facet_json, term_json};
ghost use Rattle.soc_schema.specs.Commas.{joined};

use crate::answer::{Answer, Facet, Term};
use soc_base::{Bytes, NoMemory};
use soc_schema::{Row, put_comma, put_number, put_row, put_value};
use std::alloc::Global;

impl Answer {
    ghost use Rattle.std.specs.Prelude.{◌≡◌, IfOk};
    ghost use Rattle.soc_query.specs.Json.{answer_json};

    /// The answer as an object, compact, with names in byte order.
    pub fn json(&self, alloc: Global) -> Result<Bytes, NoMemory>
        ensures { IfOk result (λ text. text ≡ answer_json self.now) }
    {
        let mut out = Vec::new(alloc);
        out.extend_from_slice(b"{\"errors\":[],\"facets\":{")?;
        put_facets(alloc, &mut out, self.facets.as_slice())?;
        out.extend_from_slice(b"},\"hits\":[")?;
        put_rows(alloc, &mut out, self.hits.as_slice())?;
        out.extend_from_slice(b"],\"total\":")?;
        put_number(&mut out, self.total)?;
        out.extend_from_slice(b"}")?;
        Ok(Bytes::from(out))
    }
}

fn put_facets(alloc: Global, out: &mut Vec<u8>, facets: &[Facet]) -> Result<(), NoMemory>
    ensures { OnOk result (out.new.items ≡ out.old.items ++ joined facet_json facets.now) }
{
    for (i, facet) in facets.iter().enumerate() {
        put_comma(out, i)?;
        put_facet(alloc, out, facet)?;
    }
    Ok(())
}

fn put_facet(alloc: Global, out: &mut Vec<u8>, facet: &Facet) -> Result<(), NoMemory>
    ensures { OnOk result (out.new.items ≡ out.old.items ++ facet_json facet.now) }
{
    out.extend_from_slice(b"\"")?;
    out.extend_from_slice(facet.field.name().as_bytes())?;
    out.extend_from_slice(b"\":[")?;
    put_terms(alloc, out, facet.terms.as_slice())?;
    out.extend_from_slice(b"]")?;
    Ok(())
}

fn put_terms(alloc: Global, out: &mut Vec<u8>, terms: &[Term]) -> Result<(), NoMemory>
    ensures { OnOk result (out.new.items ≡ out.old.items ++ joined term_json terms.now) }
{
    for (i, term) in terms.iter().enumerate() {
        put_comma(out, i)?;
        put_term(alloc, out, term)?;
    }
    Ok(())
}

fn put_term(alloc: Global, out: &mut Vec<u8>, term: &Term) -> Result<(), NoMemory>
    ensures { OnOk result (out.new.items ≡ out.old.items ++ term_json term.now) }
{
    out.extend_from_slice(b"{\"count\":")?;
    put_number(out, term.count)?;
    out.extend_from_slice(b",\"term\":")?;
    put_value(alloc, out, &term.value)?;
    out.extend_from_slice(b"}")?;
    Ok(())
}

fn put_rows(alloc: Global, out: &mut Vec<u8>, rows: &[Row]) -> Result<(), NoMemory>
    ensures { OnOk result (out.new.items ≡ out.old.items ++ joined row_json rows.now) }
{
    for (i, row) in rows.iter().enumerate() {
        put_comma(out, i)?;
        put_row(alloc, out, row)?;
    }
    Ok(())
}
