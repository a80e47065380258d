//! Where a head block ends.
ghost use Rattle.std.specs.Prelude.{◌≤◌, length, take, MatchOption};
ghost use Rattle.soc_http.specs.Block.{IsBlock, HasNoBlock};

use memchr::memmem;
use soc_text::after;

const EMPTY_LINE: &[u8] = b"\r\n\r\n";

/// Where the first block ends, of which the first `searched` bytes hold none.
pub(crate) fn block_end(bytes: &[u8], searched: usize) -> Option<usize>
    requires within { searched ≤ length bytes.now }
    requires none_before { HasNoBlock (take searched bytes.now) }
    ensures { MatchOption result (HasNoBlock bytes.now)
        (λ end. (end ≤ length bytes.now) × IsBlock (take end bytes.now)) }
{
    let from = searched.saturating_sub(EMPTY_LINE.len() - 1);
    match memmem::find(after(bytes, from), EMPTY_LINE) {
        Some(place) => Some(from + place + EMPTY_LINE.len()),
        None => None,
    }
}
