//! Patterns as automata, which are asked of the place where a frame begins and of no other.
ghost use Rattle.std.specs.Prelude.{◌≡◌, IfOk, IfSome};
ghost use Rattle.std.specs.Option.{ForSome};
ghost use Rattle.regex_compile.specs.Implements.{Implements};
ghost use Rattle.regex_dfa.specs.Search.{IsForwardFor};
ghost use Rattle.regex_hir.specs.Meaning.{meaning};
ghost use Rattle.soc_siglists.specs.inner.Automata.{accepts};

use regex_compile::compile;
use regex_dfa::{Dfa, End, Forward};
use regex_nfa::Nfa;
use regex_syntax::Parsed;
use regex_vm::{Backtracker, PikeVm};
use soc_base::NoMemory;
use std::alloc::Global;

/// The most bytes that an automaton's states and transitions may take, as in the crate `regex`.
const MOST_BYTES: usize = 10_485_760;

/// The most bytes of a text that is asked of an automaton state by state. Longer ones are worth the table of those
/// sets of states that come up.
const LONGEST_TEXT: usize = 1_024;

/// About how many bytes such a table may take.
const TABLE_BYTES: usize = 65_536;

/// The automaton of a tree, with what makes tables of it. A pattern that was made compiles, so only memory can be
/// wanting.
pub fn automaton_of(alloc: Global, parsed: &Parsed) -> Result<Dfa, NoMemory>
    ensures { IfOk result (λ dfa. Implements dfa.nfa (meaning parsed.now.hir)) }
{
    let Ok(groups) = u32::try_from(parsed.names.len()) else {
        return Err(NoMemory);
    };
    let Ok(nfa) = compile(alloc, &parsed.hir, groups, MOST_BYTES) else {
        return Err(NoMemory);
    };
    match Dfa::new(alloc, nfa) {
        Ok(dfa) => Ok(dfa),
        Err(_) => Err(NoMemory),
    }
}

/// Whether the automaton accepts a front of the text, unless the text is long.
pub fn accepts_short(backtracker: &mut Backtracker, nfa: &Nfa, text: &str) -> Option<bool>
    ensures { IfSome result (λ is. is ≡ accepts nfa.now text.now) }
{
    let bytes = text.as_bytes();
    if bytes.len() > LONGEST_TEXT {
        return None;
    }
    match backtracker.find(nfa, bytes, 0, 0, bytes.len(), &mut []) {
        Ok(found) => Some(found.is_some()),
        Err(_) => None,
    }
}

/// The table of an automaton, which is filled as texts are asked: the one that is there, or a new one.
pub fn table_for(
    alloc: Global,
    table: Option<Box<Forward>>,
    dfa: &Dfa,
) -> Result<Box<Forward>, NoMemory>
    requires { ForSome table (λ table. IsForwardFor table.value dfa.now) }
    ensures { IfOk result (λ table. IsForwardFor table.value dfa.now) }
{
    match table {
        Some(table) => Ok(table),
        None => Ok(Box::new(alloc, Forward::with_budget(alloc, dfa, false, TABLE_BYTES)?)?),
    }
}

/// Whether the automaton accepts a front of the text, unless the table would grow too large.
pub fn accepts_long(table: &mut Forward, dfa: &Dfa, text: &str) -> Option<bool>
    requires { IsForwardFor table.old dfa.now }
    ensures value { IfSome result (λ is. is ≡ accepts dfa.now.nfa text.now) }
    ensures own { IsForwardFor table.new dfa.now }
{
    let bytes = text.as_bytes();
    match table.find_end(dfa, bytes, 0, bytes.len(), true, true) {
        End::At(_) => Some(true),
        End::NoMatch => Some(false),
        End::Idle(_) => None,
        End::GaveUp => None,
    }
}

/// Whether the automaton accepts a front of the text, whatever time that takes.
pub fn accepts_any(alloc: Global, nfa: &Nfa, text: &str) -> Result<bool, NoMemory>
    ensures { IfOk result (λ is. is ≡ accepts nfa.now text.now) }
{
    let bytes = text.as_bytes();
    let mut vm = PikeVm::new(alloc, nfa)?;
    Ok(vm.is_match(nfa, bytes, 0, 0, bytes.len()))
}
