//! Who asks, by what a head's lines say.
ghost use Rattle.std.specs.Prelude.{◌≡◌, codes, IfOk};
ghost use Rattle.soc_http.specs.Request.{values_of};
ghost use Rattle.soc_session.specs.Lines.{caller_by_keys};

use crate::rules::Rules;
use soc_base::{NoMemory, Pairs};
use soc_http::{first_named, is_repeated};
use soc_schema::Caller;
use std::alloc::Global;

/// Who asks: `None` where there are several keys, or the one is no token's.
pub(crate) fn asker(alloc: Global, rules: &Rules, lines: &Pairs) -> Result<Option<Caller>, NoMemory>
    ensures { IfOk result (λ caller. caller ≡ caller_by_keys rules.now.tokens rules.now.public (values_of (codes "auth-token") lines.now)) }
{
    if is_repeated(lines, "auth-token") {
        return Ok(None);
    }
    let key = first_named(lines, "auth-token");
    rules.tokens.caller(alloc, key, &rules.public)
}
