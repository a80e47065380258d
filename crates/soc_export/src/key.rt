//! Who asks, by the first line of an input.
ghost use Rattle.std.specs.Prelude.{◌≡◌, ◌+◌, ◌<◌, ◌≤◌, IfOk, IfSome, IsErrOf, OnErr, [], drop, length, position, take};
ghost use Rattle.std.specs.Char.{is_ascii_graphic};
ghost use Rattle.std.specs.Io.KnownBytes.{IsAtEnd};
ghost use Rattle.std.specs.List.{list_all, position_or_len};
ghost use Rattle.std.specs.Option.{option_copied};
ghost use Rattle.soc_edge.specs.Told.{OnlyReads, ReadFailed, Reads};
ghost use Rattle.soc_toml.specs.Keys.{has_form, of_form};
ghost use Rattle.soc_export.specs.Keys.{Asks, caller_by_line, first_line, is_line_feed, most_key};

use crate::ending::KeyError;
use soc_base::NoMemory;
use soc_edge::{Failed, Source};
use soc_schema::{Caller, Products, Tokens};
use std::alloc::Global;
use std::str;

/// The most bytes of a key.
const MOST_KEY: usize = 64;

/// As many bytes of a line are looked at, which is enough to see that it is no key.
const MOST_LINE: usize = MOST_KEY + 1;

/// Who asks by the input's first line: everybody by an empty one, and else who has the token of the key, if it is a token's.
pub fn read_caller<S: Source>(
    alloc: Global,
    tokens: &Tokens,
    public: &Products,
    input: &mut S,
) -> Result<Option<Caller>, KeyError>
    ensures asks { IfOk result (Asks tokens.now public.now (S.told input.old)
        (S.told input.new)) }
    ensures only { OnlyReads (S.told input.old) (S.told input.new) }
    ensures cause { IsErrOf result KeyError.InputFault
        → ReadFailed (S.told input.old) (S.told input.new) }
{
    let mut line = [0_u8; MOST_LINE];
    read_caller_by(alloc, tokens, public, input, &mut line)
}

/// The same by a line in this place, which has room for as much of it as is looked at.
fn read_caller_by<S: Source>(
    alloc: Global,
    tokens: &Tokens,
    public: &Products,
    input: &mut S,
    line: &mut [u8],
) -> Result<Option<Caller>, KeyError>
    requires { length line.old ≡ 65 }
    ensures asks { IfOk result (Asks tokens.now public.now (S.told input.old)
        (S.told input.new)) }
    ensures only { OnlyReads (S.told input.old) (S.told input.new) }
    ensures cause { IsErrOf result KeyError.InputFault
        → ReadFailed (S.told input.old) (S.told input.new) }
{
    let Ok(count) = read_line(input, line) else {
        return Err(KeyError::InputFault);
    };
    match caller_by_line(alloc, tokens, public, &line[..count]) {
        Ok(caller) => Ok(caller),
        Err(NoMemory) => Err(KeyError::NoMemory),
    }
}

/// Reads the input's first line, without its end, and answers how many bytes it has. Of a line for which there is no room
/// these are the first.
fn read_line<S: Source>(input: &mut S, line: &mut [u8]) -> Result<usize, Failed>
    ensures within { IfOk result (λ count. count ≤ length line.new) }
    ensures line { IfOk result (λ count. IfSome (S.told input.old).left
        (λ told. take count line.new ≡ take (length line.new) (first_line told))) }
    ensures only { OnlyReads (S.told input.old) (S.told input.new) }
    ensures cause { OnErr result (ReadFailed (S.told input.old) (S.told input.new)) }
{
    let mut filled = 0;
    while filled < line.len() {
        let count = read_behind(input, line, filled)?;
        if count == 0 {
            return Ok(filled);
        }
        filled += count;
        let end = line_len(&line[..filled]);
        if end < filled {
            return Ok(end);
        }
    }
    Ok(filled)
}

/// Reads behind the first `filled` bytes of a line.
fn read_behind<S: Source>(input: &mut S, line: &mut [u8], filled: usize) -> Result<usize, Failed>
    requires { filled ≤ length line.old }
    ensures front { take filled line.new ≡ take filled line.old }
    ensures count { IfOk result (λ n. filled + n ≤ length line.new) }
    ensures reads { IfOk result (λ n.
        Reads (S.told input.old) (S.told input.new) (take n (drop filled line.new))) }
    ensures ended { IfOk result (λ n. n ≡ 0 → filled < length line.new
        → IsAtEnd (S.told input.new).left) }
    ensures unmoved { OnErr result (Reads (S.told input.old) (S.told input.new) []) }
    ensures cause { OnErr result (ReadFailed (S.told input.old) (S.told input.new)) }
{
    input.read(&mut line[filled..])
}

/// How many bytes stand before the first line feed, where there is one, or at all.
#[tactic(auto, using(crate::proofs::KeyLemmas::place_found, crate::proofs::KeyLemmas::place_missing))]
fn line_len(bytes: &[u8]) -> usize
    ensures { result ≡ position_or_len is_line_feed bytes.now }
{
    match feed_place(bytes) {
        Some(place) => place,
        None => bytes.len(),
    }
}

fn feed_place(bytes: &[u8]) -> Option<usize>
    ensures { result ≡ position is_line_feed bytes.now }
{
    bytes.iter().position(|byte| *byte == b'\n')
}

fn caller_by_line(
    alloc: Global,
    tokens: &Tokens,
    public: &Products,
    line: &[u8],
) -> Result<Option<Caller>, NoMemory>
    ensures { IfOk result (λ caller. caller
        ≡ caller_by_line tokens.now public.now line.now) }
{
    if line.is_empty() {
        return tokens.caller(alloc, None, public);
    }
    match key_of(line) {
        Some(key) => tokens.caller(alloc, Some(key), public),
        None => Ok(None),
    }
}

/// The line, where it has the form of a key: 1 to 64 visible ASCII characters.
fn key_of(line: &[u8]) -> Option<&str>
    ensures { option_copied result ≡ of_form is_ascii_graphic most_key line.now }
{
    if !is_key(line) {
        return None;
    }
    match str::from_utf8(line) {
        Ok(key) => Some(key),
        Err(_) => unreachable!(),
    }
}

fn is_key(line: &[u8]) -> bool
    ensures { result ≡ has_form is_ascii_graphic most_key line.now }
{
    1 <= line.len() && line.len() <= MOST_KEY && is_visible(line)
}

fn is_visible(line: &[u8]) -> bool
    ensures { result ≡ list_all is_ascii_graphic line.now }
{
    line.iter().all(|byte| byte.is_ascii_graphic())
}
