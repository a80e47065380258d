//! The text of a Rust function.
ghost use Rattle.std.specs.Prelude.{◌≡◌, ◌+◌, ◌^◌, ◌<◌, ◌≤◌, [], length, slice_range, drop, false, IfOk, MatchOption};
ghost use Rattle.std.specs.List.{list_all};
ghost use Rattle.soc_text.specs.Digits.{is_lower_hex};
ghost use Rattle.soc_frames.specs.Rust.{is_hash, without_hash, depth_after, grouped, grouped_from, rust_text};
ghost use Rattle.soc_frames.specs.inner.Walks.{rest_of, PassesAngles, FindsAngles};

use crate::groups::TEMPLATE;
use crate::walk::{Place, Walk};
use soc_base::{NoMemory, Text};
use soc_text::{after, is_lower_hex};
use std::alloc::Global;

const HASH_FRONT: &[u8] = b"::h";

/// `::h` and 16 digits.
const HASH_LEN: usize = 19;

/// What stands in a group that stays, as in `<Type as Trait>`.
const AS: &str = " as ";

/// Whether each byte is a hexadecimal digit in lower case.
fn is_hexadecimal(text: &[u8]) -> bool
    ensures { result ≡ list_all is_lower_hex text.now }
{
    text.iter().all(|byte| is_lower_hex(*byte))
}

/// Whether the text is a hash, as the compiler puts it behind a name: `::h` and 16 hexadecimal digits in lower case.
fn is_hash(text: &[u8]) -> bool
    ensures { result ≡ is_hash text.now }
{
    text.len() == HASH_LEN
        && text.starts_with(HASH_FRONT)
        && is_hexadecimal(after(text, HASH_FRONT.len()))
}

/// The name without the hash at its end.
fn drop_hash(name: &str) -> &str
    ensures { result.now ≡ without_hash name.now }
{
    let start = name.len().saturating_sub(HASH_LEN);
    if is_hash(&name.as_bytes()[start..]) {
        &name[..start]
    } else {
        name
    }
}

/// How many groups of `<` are open behind a place.
fn depth_after(depth: usize, place: Place) -> usize
    requires { depth + 1 < 2 ^ 64 }
    ensures value { result ≡ depth_after depth place }
    ensures bound { result ≤ depth + 1 }
{
    if place.is_plain {
        return depth;
    }
    match place.byte {
        b'<' => depth + 1,
        b'>' => depth.saturating_sub(1),
        _ => depth,
    }
}

/// Goes on behind the group of `<` that was opened.
fn pass_angles(walk: &mut Walk<'_>)
    requires passed { 0 < walk.old.place }
    requires within { walk.old.place ≤ length walk.old.text.now }
    ensures { PassesAngles walk.old walk.new }
{
    let mut depth = 1;
    'places: while let Some(place) = walk.step() {
        depth = depth_after(depth, place);
        if depth == 0 {
            return;
        }
    }
}

/// Goes on behind the next group of `<`, and gives where it begins.
fn next_group(walk: &mut Walk<'_>) -> Option<usize>
    requires { walk.old.place ≤ length walk.old.text.now }
    ensures { MatchOption result (grouped_from false 0 (rest_of walk.old)
        ≡ drop walk.old.place walk.old.text.now) (λ start. FindsAngles start walk.old walk.new) }
{
    'places: loop {
        let start = walk.place;
        let place = walk.step()?;
        if place.opens_angle() {
            pass_angles(walk);
            return Some(start);
        }
    }
}

/// The name with `<T>` for each group of `<`, but for those with ` as ` in them. A group that isn't closed ends with
/// the name.
fn group_name(alloc: Global, name: &str) -> Result<Text, NoMemory>
    ensures { IfOk result (λ text. text ≡ grouped name.now) }
{
    let mut out = String::new(alloc);
    let mut walk = Walk::over(name.as_bytes());
    let mut kept = 0;
    'groups: while let Some(start) = next_group(&mut walk) {
        let end = walk.place;
        if name[start..end].contains(AS) {
            continue;
        }
        out.push_str(&name[kept..start])?;
        out.push_str(TEMPLATE)?;
        kept = end;
    }
    out.push_str(&name[kept..])?;
    Ok(Text::from(out))
}

/// The text of a Rust function: its name without the hash at its end, and with `<T>` for each group of `<` that doesn't
/// hold ` as `. Parentheses don't count.
pub fn rust_name(alloc: Global, s: &str) -> Result<Text, NoMemory>
    ensures { IfOk result (λ text. text ≡ rust_text s.now) }
{
    group_name(alloc, drop_hash(s))
}
