//! Made rows of 36 fields put into a store, and queries answered over them: those of a search page, and the dearest ones.
ghost use Rattle.std.specs.Prelude.{◌≡◌, ◌<◌, ◌≤◌};

use crate::fault::Fault;
use crate::harness::{Work, time};
use crate::numbers::number_up_to;
use crate::rows::Rows;
use soc_base::{Pairs, Text};
use soc_edge::Steps;
use soc_query::Query;
use soc_schema::{Caller, Field, Permissions, Products, Row, granted};
use soc_search::answer_of;
use soc_store::Store;
use std::alloc::Global;
use std::marker::Brand;
use std::sync::ledger::{Blank, Ledger};
use std::time::{CpuClock, Duration};

/// The most rows.
const MOST_ROWS: u64 = 1_048_576;

/// How many rows are made at once, and then put.
const ROWS_AT_ONCE: u64 = 1024;

/// The most bytes that come before most texts of a row.
const MOST_FRONT: u64 = 1_000;

/// As many pairs as a query may have.
const MOST_PAIRS: u64 = 128;

/// A query: what it is called, and its pairs.
struct Asked {
    name: &'static str,
    pairs: &'static [(&'static str, &'static str)],
}

/// The queries of a search page.
const QUERIES: [Asked; 10] = [
    Asked {
        name: "facet on signature",
        pairs: &[("_facets", "signature"), ("_results_number", "0")],
    },
    Asked {
        name: "facet on signature, product=Firefox",
        pairs: &[
            ("_facets", "signature"),
            ("product", "Firefox"),
            ("_results_number", "0"),
        ],
    },
    Asked {
        name: "uuid=",
        pairs: &[("uuid", "538453d7-0000-4000-8000-000000160918")],
    },
    Asked {
        name: "product=!Firefox, newest 100",
        pairs: &[("product", "!Firefox"), ("_sort", "-date")],
    },
    Asked {
        name: "signature=~77",
        pairs: &[("signature", "~77")],
    },
    Asked {
        name: "date, one day of 28",
        pairs: &[("date", ">=2026-11-05"), ("date", "<2026-11-06")],
    },
    Asked {
        name: "date, one hour of 672, and signature=~77",
        pairs: &[
            ("date", ">=2026-11-05T07"),
            ("date", "<2026-11-05T08"),
            ("signature", "~77"),
        ],
    },
    Asked {
        name: "uuid=, and conditions on other fields",
        pairs: &[
            ("uuid", "538453d7-0000-4000-8000-000000160918"),
            ("proto_signature", "!~z"),
            ("signature", "~1"),
        ],
    },
    Asked {
        name: "sort by product, one hit",
        pairs: &[("_sort", "product"), ("_results_number", "1")],
    },
    Asked {
        name: "all",
        pairs: &[],
    },
];

/// A query that is answered. It counts the rows that it asks for.
#[derive(Drop)]
struct Answers<'a> {
    store: &'a Store,
    query: &'a Query,
}

impl Work for Answers<'_> {
    fn once(&mut self, alloc: Global) -> Result<u64, Fault> {
        answered::<Brand>(alloc, self.store, self.query, Blank::new(1))
    }
}

/// Puts so many made rows into a store, most of whose texts begin with so many bytes that are the same, and answers each
/// query.
pub fn run<R: CpuClock + Print + Eprint + AllocGlobal>(
    rt: &R,
    words: &[String],
) -> Result<(), Fault> {
    let (count, front) = match words {
        [count] => (count, 0),
        [count, front] => (count, number_up_to(front, MOST_FRONT)?),
        _ => return Err(Fault::Words),
    };
    let front = front_of(rt.alloc(), front)?;
    search(rt, number_up_to(count, MOST_ROWS)?, front.as_str())
}

/// What texts begin with.
fn front_of(alloc: Global, length: u64) -> Result<String, Fault> {
    let mut front = String::new(alloc);
    for _ in 0..length {
        front.push('x')?;
    }
    Ok(front)
}

fn search<R: CpuClock + Print + Eprint + AllocGlobal>(
    rt: &R,
    count: u64,
    front: &str,
) -> Result<(), Fault>
    requires { count ≤ 1048576 }
{
    let alloc = rt.alloc();
    let mut store = Store::new(alloc);
    let rows = Rows {
        alike: false,
        front,
    };
    fill(rt, &mut store, count, rows)?;
    for asked in &QUERIES {
        let query = query_of(alloc, asked.pairs)?;
        time_query(rt, &store, asked.name, &query)?;
    }
    time_query(rt, &store, "128 times uuid=!~", &many_conditions(alloc)?)?;
    time_query(rt, &store, "28 facets", &each_field(alloc, "_facets")?)?;
    let sorts = each_field(alloc, "_sort")?;
    time_query(rt, &store, "28 sorts", &sorts)?;
    let mut alike = Store::new(alloc);
    fill(rt, &mut alike, count, Rows { alike: true, front })?;
    time_query(rt, &alike, "28 sorts, rows alike", &sorts)
}

/// A query with as many conditions as there may be, which all rows meet.
fn many_conditions(alloc: Global) -> Result<Query, Fault> {
    let mut pairs = Pairs::new(alloc);
    for number in 0..MOST_PAIRS {
        let value = format!(in alloc; "!~00{number:03}z")?;
        pairs.push(Text::of(alloc, "uuid")?, Text::of(alloc, value.as_str())?)?;
    }
    Ok(Query::read(alloc, &pairs, anybody())?)
}

/// A query that asks for each field that anybody may see, in the way that the name says.
fn each_field(alloc: Global, name: &str) -> Result<Query, Fault> {
    let mut pairs = Pairs::new(alloc);
    for place in 0..Field::COUNT {
        let field = Field::at(place);
        if granted(&anybody(), field) {
            pairs.push(Text::of(alloc, name)?, Text::of(alloc, field.name())?)?;
        }
    }
    Ok(Query::read(alloc, &pairs, anybody())?)
}

/// Puts so many rows, and says how long that took.
fn fill<R: CpuClock + Print + Eprint + AllocGlobal>(
    rt: &R,
    store: &mut Store,
    count: u64,
    rows: Rows<'_>,
) -> Result<(), Fault>
    requires { count ≤ 1048576 }
{
    let mut took = Duration::ZERO;
    for part in 0..count / ROWS_AT_ONCE + 1 {
        let first = part * ROWS_AT_ONCE;
        let end = count.min(first + ROWS_AT_ONCE);
        took = took.saturating_add(put_rows(rt, store, first, end, rows)?);
    }
    let each = took.as_nanos() / u128::from(count.max(1));
    println!(rt; "search: {count} rows")?;
    eprintln!(rt; "search: put {each} ns")?;
    Ok(())
}

/// Puts the rows of some numbers, and says how long it took.
fn put_rows(
    rt: &(impl CpuClock + AllocGlobal),
    store: &mut Store,
    first: u64,
    end: u64,
    kind: Rows<'_>,
) -> Result<Duration, Fault>
    requires { first ≤ 1048576 }
{
    let alloc = rt.alloc();
    let mut rows: Vec<Row> = Vec::new(alloc);
    for number in first..end {
        rows.push(kind.row(alloc, number)?)?;
    }
    let start = rt.process_cpu_time()?;
    let mut place = first as u32;
    for row in rows {
        if store.put(alloc, place, row).is_err() {
            return Err(Fault::from("out of memory"));
        }
        place = place.wrapping_add(1);
    }
    Ok(rt.process_cpu_time()?.saturating_sub(start))
}

fn time_query<R: CpuClock + Print + Eprint + AllocGlobal>(
    rt: &R,
    store: &Store,
    name: &str,
    query: &Query,
) -> Result<(), Fault> {
    time(rt, name, "answers", 1, &mut Answers { store, query })
}

/// A query that asks for everything, with these pairs.
fn query_of(alloc: Global, list: &[(&str, &str)]) -> Result<Query, Fault> {
    let mut pairs = Pairs::new(alloc);
    for (name, value) in list {
        pairs.push(Text::of(alloc, name)?, Text::of(alloc, value)?)?;
    }
    Ok(Query::read(alloc, &pairs, anybody())?)
}

/// A caller without a token.
fn anybody() -> Caller {
    Caller {
        permissions: Permissions::public(),
        products: Products::All,
    }
}

/// How many rows a query asks for.
fn answered<L: Ledger>(
    alloc: Global,
    store: &Store,
    query: &Query,
    blank: Blank,
) -> Result<u64, Fault>
    requires name { blank.name ≡ L.name }
    requires parts { blank.parts ≡ L.parts }
    requires some { 0 < blank.parts }
{
    let mut steps: Steps<L> = Steps::new(blank);
    Ok(answer_of(alloc, store, query, &mut steps)?.total)
}
