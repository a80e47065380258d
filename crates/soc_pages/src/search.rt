//! The page of what a search found.
ghost use Rattle.std.specs.Prelude.{◌≡◌, ◌++◌, IfOk, OnOk};
ghost use Rattle.std.specs.List.{flat_map};
ghost use Rattle.soc_pages.specs.Pages.{column_cell, facet_lines, hit_row, search_page, term_item};

use crate::escape::{put, put_name, put_number, put_value};
use soc_base::{Bytes, NoMemory};
use soc_query::{Answer, Facet, Term};
use soc_schema::{Field, Row};
use std::alloc::Global;

/// The page of an answer: how many reports match, a table with a row for each hit and a cell for each column, and a list
/// for each facet.
pub fn search_page(alloc: Global, answer: &Answer) -> Result<Bytes, NoMemory>
    ensures { IfOk result (λ page. page ≡ search_page answer.now) }
{
    let mut out = Vec::new(alloc);
    put(&mut out, b"<!DOCTYPE html>\n<title>search</title>\n<p>")?;
    put_number(&mut out, answer.total)?;
    put(&mut out, b"</p>\n<table>\n")?;
    put_hits(&mut out, answer.columns.as_slice(), answer.hits.as_slice())?;
    put(&mut out, b"</table>\n")?;
    put_facets(&mut out, answer.facets.as_slice())?;
    Ok(Bytes::from(out))
}

fn put_hits(out: &mut Vec<u8>, columns: &[Field], hits: &[Row]) -> Result<(), NoMemory>
    ensures { OnOk result (out.new.items ≡ out.old.items
        ++ flat_map (hit_row columns.now) hits.now) }
{
    for hit in hits {
        put(out, b"<tr>")?;
        put_cells(out, columns, hit)?;
        put(out, b"</tr>\n")?;
    }
    Ok(())
}

fn put_cells(out: &mut Vec<u8>, columns: &[Field], hit: &Row) -> Result<(), NoMemory>
    ensures { OnOk result (out.new.items ≡ out.old.items
        ++ flat_map (column_cell hit.now) columns.now) }
{
    for column in columns {
        put_cell(out, *column, hit)?;
    }
    Ok(())
}

/// A hit's value in a column: nothing, where the hit has none.
fn put_cell(out: &mut Vec<u8>, column: Field, hit: &Row) -> Result<(), NoMemory>
    ensures { OnOk result (out.new.items ≡ out.old.items ++ column_cell hit.now column) }
{
    put(out, b"<td>")?;
    if let Some(value) = hit.get(column) {
        put_value(out, value)?;
    }
    put(out, b"</td>")?;
    Ok(())
}

fn put_facets(out: &mut Vec<u8>, facets: &[Facet]) -> Result<(), NoMemory>
    ensures { OnOk result (out.new.items ≡ out.old.items ++ flat_map facet_lines facets.now) }
{
    for facet in facets {
        put_facet(out, facet)?;
    }
    Ok(())
}

fn put_facet(out: &mut Vec<u8>, facet: &Facet) -> Result<(), NoMemory>
    ensures { OnOk result (out.new.items ≡ out.old.items ++ facet_lines facet.now) }
{
    put(out, b"<h2>")?;
    put_name(out, facet.field)?;
    put(out, b"</h2>\n<ul>\n")?;
    put_terms(out, facet.terms.as_slice())?;
    put(out, b"</ul>\n")?;
    Ok(())
}

fn put_terms(out: &mut Vec<u8>, terms: &[Term]) -> Result<(), NoMemory>
    ensures { OnOk result (out.new.items ≡ out.old.items ++ flat_map term_item terms.now) }
{
    for term in terms {
        put(out, b"<li>")?;
        put_value(out, &term.value)?;
        put(out, b": ")?;
        put_number(out, term.count)?;
        put(out, b"</li>\n")?;
    }
    Ok(())
}
