//! One list file, line by line.
ghost use Rattle.std.specs.Prelude.{◌≡◌, ◌≤◌, IfOk, IfErr, IsErrOf};
ghost use Rattle.soc_edge.specs.Faults.{Rose};
ghost use Rattle.soc_siglists.specs.inner.OneFile.{MakesPattern, refusal, HasPatterns, RefusesFile};

use crate::error::{ListError, ListName};
use crate::lines::{is_entry, split_line, text_of};
use crate::maker::{MakeError, Maker};
use crate::pattern::Pattern;
use crate::patterns::Patterns;
use std::alloc::Global;

/// The pattern that an entry is.
fn make_pattern<P: Maker>(alloc: Global, maker: &mut P, text: &[u8]) -> Result<Pattern, MakeError>
    ensures made { MakesPattern result text.now }
    ensures never_fall { P.faults maker.old ≤ P.faults maker.new }
    ensures cause { IsErrOf result MakeError.Failed → Rose (P.faults maker.old)
        (P.faults maker.new) }
{
    let Ok(text) = str::from_utf8(text) else {
        return Err(MakeError::Syntax);
    };
    let _made = maker.make(alloc, text)?;
    Ok(Pattern::of(alloc, text)?)
}

fn refusal(error: MakeError, list: ListName, line: u64) -> ListError
    ensures { result ≡ refusal error list line }
{
    match error {
        MakeError::Syntax => ListError::BadPattern { list, line },
        MakeError::Failed => ListError::MakerFault,
        MakeError::NoMemory => ListError::NoMemory,
    }
}

/// The patterns of a list file, in order.
pub fn read_list<P: Maker>(
    alloc: Global,
    maker: &mut P,
    list: ListName,
    bytes: &[u8],
) -> Result<Patterns, ListError>
    ensures reads { IfOk result (λ patterns. HasPatterns patterns list bytes.now) }
    ensures refuses { IfErr result (λ error. RefusesFile error list bytes.now) }
    ensures never_fall { P.faults maker.old ≤ P.faults maker.new }
    ensures cause { IsErrOf result ListError.MakerFault
        → Rose (P.faults maker.old) (P.faults maker.new) }
{
    let mut patterns = Vec::new(alloc);
    let mut line = 1;
    let mut rest = bytes;
    while !rest.is_empty() {
        let (first, others) = split_line(rest);
        let text = text_of(first);
        if is_entry(text) {
            match make_pattern(alloc, maker, text) {
                Ok(pattern) => patterns.push(pattern)?,
                Err(error) => return Err(refusal(error, list, line)),
            }
        }
        line += 1;
        rest = others;
    }
    Ok(Patterns::of(alloc, patterns)?)
}
