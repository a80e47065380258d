//! What a message's query or form says: which crash, and which of its dumps.
ghost use Rattle.std.specs.Prelude.{◌≡◌, IfOk, codes};
ghost use Rattle.soc_http.specs.Query.{query_pairs};
ghost use Rattle.soc_session.specs.Parameters.{crash_named, dump_named, id_in};

use soc_base::{NoMemory, Pairs};
use soc_http::{Head, first_value, first_value_in, pairs_of};
use soc_raw::CrashId;
use std::alloc::Global;

/// The pairs of a target's query.
pub(crate) fn query_in(alloc: Global, head: &Head) -> Result<Pairs, NoMemory>
    ensures { IfOk result (λ pairs. pairs ≡ query_pairs head.now.query) }
{
    pairs_of(alloc, head.query.as_str().as_bytes())
}

/// The crash id that a text is.
pub(crate) fn id_in(text: &str) -> Option<CrashId>
    ensures { result ≡ id_in text.now }
{
    CrashId::parse(text)
}

/// The crash that the first pair of this name names.
pub(crate) fn crash_named(name: &str, pairs: &Pairs) -> Option<CrashId>
    ensures { result ≡ crash_named name.now pairs.now }
{
    match first_value(pairs, name) {
        Some(text) => id_in(text),
        None => None,
    }
}

/// The crash that the first `crash_ids` pair of a form names.
pub(crate) fn crash_posted(alloc: Global, form: &[u8]) -> Result<Option<CrashId>, NoMemory>
    ensures { IfOk result (λ found. found ≡ crash_named (codes "crash_ids") (query_pairs form.now)) }
{
    match first_value_in(alloc, form, "crash_ids")? {
        Some(text) => Ok(id_in(text.as_str())),
        None => Ok(None),
    }
}

/// The dump that is asked for.
pub(crate) fn dump_named(pairs: &Pairs) -> &str
    ensures { result.now ≡ dump_named pairs.now }
{
    match first_value(pairs, "name") {
        Some(name) => name,
        None => "upload_file_minidump",
    }
}
