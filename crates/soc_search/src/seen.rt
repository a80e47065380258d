//! What answers depend on.
ghost use Rattle.std.specs.Prelude.{◌≡◌, ℕ, List};
ghost use Rattle.soc_schema.specs.declared.value.Cell.{Cell};
ghost use Rattle.soc_query.specs.Answers.{answer_of};
ghost use Rattle.soc_tops.specs.Tops.{tops_of};
ghost use Rattle.soc_search.specs.Seen.{HaveOwnIds, ListTheSame, seen_rows};

use soc_query::Query;
use soc_tops::TopsQuery;

/// An answer depends on what the query's caller may see alone: on the granted fields of the rows whose product is
/// shown. It does nothing when it runs.
pub fn answers_by_what_is_seen(query: &Query)
    ensures { (rows : List (ℕ × List Cell))
        → answer_of query.now (seen_rows query.now.caller rows) ≡ answer_of query.now rows }
{
    let _caller = query.caller();
}

/// An answer doesn't depend on the order in which the rows are listed, nor on their places, where no two of them have
/// one id. It does nothing when it runs.
pub fn answers_in_any_order(query: &Query)
    ensures { (rows others : List (ℕ × List Cell)) → HaveOwnIds rows → HaveOwnIds others
        → ListTheSame rows others → answer_of query.now rows ≡ answer_of query.now others }
{
    let _caller = query.caller();
}

/// Top crashers depend on what the query's caller may see alone: on the granted fields of the rows whose product is
/// shown. It does nothing when it runs.
pub fn tops_by_what_is_seen(query: &TopsQuery)
    ensures { (rows : List (ℕ × List Cell))
        → tops_of query.now (seen_rows query.now.caller rows) ≡ tops_of query.now rows }
{
    let _caller = &query.caller;
}

/// Top crashers don't depend on the order in which the rows are listed, nor on their places, where no two of them have
/// one id. It does nothing when it runs.
pub fn tops_in_any_order(query: &TopsQuery)
    ensures { (rows others : List (ℕ × List Cell)) → HaveOwnIds rows → HaveOwnIds others
        → ListTheSame rows others → tops_of query.now rows ≡ tops_of query.now others }
{
    let _caller = &query.caller;
}
