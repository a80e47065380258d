//! Pages.
use soc_base::Text;
use soc_pages::{report_page, search_page, tops_page};
use soc_query::{Answer, Facet, Facets, Fields, Hits, Term, Terms};
use soc_raw::CrashId;
use soc_schema::{Field, FieldKind, Row as Report, Value};
use soc_tables::{Fault, Row, number_of};
use soc_tops::{Top, TopList, Tops};
use std::alloc::Global;

fn page_text(alloc: Global, page: &[u8]) -> Result<String, Fault> {
    Ok(String::from_str(alloc, str::from_utf8(page)?)?)
}

fn field_of(name: &str) -> Result<Field, Fault> {
    match Field::named(name.trim()) {
        Some(field) => Ok(field),
        None => Err(Fault::new(format_args!("no field {name}"))),
    }
}

/// Gives a report a value, as `product=Firefox` says it.
fn set(alloc: Global, report: &mut Report, text: &str) -> Result<(), Fault> {
    let (name, value) = text.split_once('=').unwrap_or((text, ""));
    let field = field_of(name)?;
    match field.kind() {
        FieldKind::Text => report.set(field, Value::text(alloc, value)?)?,
        FieldKind::Number => report.set(field, Value::Number(number_of(value)?))?,
        FieldKind::Flag => report.set(field, Value::Flag(value == "true"))?,
    }
    Ok(())
}

/// The page of a report with these values.
pub fn report(alloc: Global, row: &Row<'_>) -> Result<String, Fault> {
    let mut report = Report::new(alloc);
    for item in row.items(alloc, "values")? {
        set(alloc, &mut report, item.as_str())?;
    }
    report_text(alloc, &report)
}

fn report_text(alloc: Global, report: &Report) -> Result<String, Fault> {
    match CrashId::parse("de1bb258-cbbf-4589-a673-34f800160918") {
        Some(id) => page_text(alloc, report_page(alloc, id, report)?.as_slice()),
        None => Err(Fault::new("no id")),
    }
}

/// The page of what a search found: the count, the fields of the columns, the values of each hit, and the counts of each
/// facet's values.
pub fn search(alloc: Global, row: &Row<'_>) -> Result<String, Fault> {
    let answer = Answer {
        total: row.number("total")?,
        columns: columns(alloc, row)?,
        hits: hits(alloc, row)?,
        facets: facets(alloc, row)?,
    };
    search_text(alloc, &answer)
}

fn search_text(alloc: Global, answer: &Answer) -> Result<String, Fault> {
    page_text(alloc, search_page(alloc, answer)?.as_slice())
}

fn columns(alloc: Global, row: &Row<'_>) -> Result<Fields, Fault> {
    let mut columns = Fields::new(alloc);
    for item in row.items(alloc, "columns")? {
        columns.push(field_of(item.as_str())?)?;
    }
    Ok(columns)
}

fn hits(alloc: Global, row: &Row<'_>) -> Result<Hits, Fault> {
    let mut hits = Hits::new(alloc);
    for item in row.items(alloc, "hits")? {
        hits.push(hit(alloc, item.as_str())?)?;
    }
    Ok(hits)
}

fn hit(alloc: Global, text: &str) -> Result<Report, Fault> {
    let mut hit = Report::new(alloc);
    for value in text.split(", ") {
        set(alloc, &mut hit, value)?;
    }
    Ok(hit)
}

fn facets(alloc: Global, row: &Row<'_>) -> Result<Facets, Fault> {
    let mut facets = Facets::new(alloc);
    for item in row.items(alloc, "facets")? {
        let (name, terms) = item.as_str().split_once(':').unwrap_or((item.as_str(), ""));
        facets.push(Facet {
            field: field_of(name)?,
            terms: terms_of(alloc, terms)?,
        })?;
    }
    Ok(facets)
}

fn terms_of(alloc: Global, text: &str) -> Result<Terms, Fault> {
    let mut terms = Terms::new(alloc);
    for term in text.split(',') {
        if let Some((value, count)) = term.trim().split_once(' ') {
            terms.push(Term {
                value: Value::text(alloc, value)?,
                count: number_of(count)?,
            })?;
        }
    }
    Ok(terms)
}

/// The page of top crashers: the count, and of each its rank, count, old rank, old count and signature.
pub fn tops(alloc: Global, row: &Row<'_>) -> Result<String, Fault> {
    let mut tops = TopList::new(alloc);
    for item in row.items(alloc, "tops")? {
        tops.push(top(alloc, item.as_str())?)?;
    }
    let total = row.number("total")?;
    tops_text(alloc, &Tops { total, tops })
}

fn tops_text(alloc: Global, tops: &Tops) -> Result<String, Fault> {
    page_text(alloc, tops_page(alloc, tops)?.as_slice())
}

fn top(alloc: Global, text: &str) -> Result<Top, Fault> {
    let (rank, rest) = text.split_once(' ').unwrap_or((text, ""));
    let (count, rest) = rest.split_once(' ').unwrap_or((rest, ""));
    let (old_rank, rest) = rest.split_once(' ').unwrap_or((rest, ""));
    let (old_count, signature) = rest.split_once(' ').unwrap_or((rest, ""));
    Ok(Top {
        signature: Text::of(alloc, signature)?,
        count: number_of(count)?,
        rank: number_of(rank)?,
        old_count: number_of(old_count)?,
        old_rank: rank_of(old_rank)?,
    })
}

fn rank_of(text: &str) -> Result<Option<u64>, Fault> {
    match text {
        "-" => Ok(None),
        _ => Ok(Some(number_of(text)?)),
    }
}
