//! Frames of which only the module is known.
ghost use Rattle.std.specs.Prelude.{◌≡◌, ◌<◌, ◌≤◌, true, drop, length, option_map, IfSome, MatchOption, None};
ghost use Rattle.soc_sigrules.specs.Modules.{begins_with_mark, mark_place, module_text};
ghost use Rattle.soc_sigrules.specs.inner.Candidates.{mark_from};

use memchr::memchr;
use soc_text::{after, before};

/// What ends a module's name, with the `@` behind it.
const MARK: &[u8] = b".dll@";

const ENDING: &[u8] = b".dll";

/// Whether the text begins with `.dll@`, in either case.
fn begins_with_mark(text: &[u8]) -> bool
    ensures { result ≡ begins_with_mark text.now }
{
    before(text, MARK.len()).eq_ignore_ascii_case(MARK)
}

/// Where a mark may stand at the earliest, from a place on: four bytes before the next `@`.
fn next_candidate(frame: &[u8], place: usize) -> Option<usize>
    requires { place ≤ length frame.now }
    ensures { MatchOption result (mark_from frame.now place ≡ None)
        (λ found. (place ≤ found) × (found < length frame.now)
        × (mark_from frame.now place ≡ mark_from frame.now found)) }
{
    match memchr(b'@', after(frame, place + ENDING.len())) {
        Some(found) => Some(place + found),
        None => None,
    }
}

/// Where the first `.dll@` stands.
fn mark_place(frame: &[u8]) -> Option<usize>
    ensures value { result ≡ mark_place frame.now }
    ensures mark { IfSome result (λ place. begins_with_mark (drop place frame.now) ≡ true) }
{
    let mut place = 0;
    while let Some(found) = next_candidate(frame, place) {
        if begins_with_mark(after(frame, found)) {
            return Some(found);
        }
        place = found + 1;
    }
    None
}

/// What stands before the `@` of the first `.dll@`, in a frame that has one.
pub fn module_text(frame: &str) -> Option<&str>
    ensures { option_map (λ text. text.now) result ≡ module_text frame.now }
{
    let place = mark_place(frame.as_bytes())?;
    Some(&frame[..place + ENDING.len()])
}
