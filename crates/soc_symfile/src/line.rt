//! One line.
ghost use Rattle.std.specs.Prelude.{◌≡◌, is_some, option_map};
ghost use Rattle.soc_symfile.specs.Line.{fits, module_line, file_line, function_line, public_line, init_line, delta_line, stack_line, line_of};
ghost use Rattle.soc_symfile.specs.Views.{line_entry};
ghost use Rattle.soc_symfile.specs.inner.Sources.{source_behind, record_line};

use crate::entries::{Extent, File, Label, Line, SourceLine};
use crate::numbers::{decimal_number, hexadecimal, is_hexadecimal};
use crate::words::{split_word, text_of, unmarked};

const MODULE: &[u8] = b"MODULE";

const FILE: &[u8] = b"FILE";

const FUNC: &[u8] = b"FUNC";

const PUBLIC: &[u8] = b"PUBLIC";

const STACK: &[u8] = b"STACK";

const CFI: &[u8] = b"CFI";

const INIT: &[u8] = b"INIT";

/// Whether what is covered ends below 2^64.
fn fits(address: u64, size: u64) -> bool
    ensures { result ≡ fits address size }
{
    size <= u64::MAX - address
}

/// Whether the line is `MODULE os arch id name`.
#[tactic(auto, unfolding(crate::specs::Line::module_line))]
pub fn is_module_line(line: &[u8]) -> bool
    ensures { result ≡ is_some (module_line line.now) }
{
    let (first, items) = split_word(line);
    let (system, items) = split_word(items);
    let (architecture, items) = split_word(items);
    let (id, name) = split_word(items);
    first == MODULE
        && !system.is_empty()
        && !architecture.is_empty()
        && !id.is_empty()
        && text_of(name).is_some()
}

#[tactic(auto, unfolding(crate::specs::Line::file_line))]
fn file_line(items: &[u8]) -> Option<Line<'_>>
    ensures { option_map line_entry result ≡ file_line items.now }
{
    let (number, name) = split_word(items);
    Some(Line::File(File {
        number: decimal_number(number)?,
        name: text_of(name)?,
    }))
}

#[tactic(auto, unfolding(crate::specs::Line::function_line))]
fn function_line(items: &[u8]) -> Option<Line<'_>>
    ensures { option_map line_entry result ≡ function_line items.now }
{
    let (address, items) = split_word(items);
    let (size, items) = split_word(items);
    let (parameters, name) = split_word(items);
    let address = hexadecimal(address)?;
    let size = hexadecimal(size)?;
    let _parameters = hexadecimal(parameters)?;
    let text = text_of(name)?;
    if !fits(address, size) {
        return None;
    }
    Some(Line::Function(Extent {
        address,
        size,
        text,
    }))
}

/// A source line, of which the address is read, and these items stand behind it.
fn source_behind(address: u64, items: &[u8]) -> Option<Line<'_>>
    ensures { option_map line_entry result ≡ source_behind address items.now }
{
    let (size, items) = split_word(items);
    let (line, file) = split_word(items);
    let size = hexadecimal(size)?;
    let line = decimal_number(line)?;
    let file = decimal_number(file)?;
    if !fits(address, size) {
        return None;
    }
    Some(Line::Source(SourceLine {
        address,
        size,
        line,
        file,
    }))
}

#[tactic(auto, unfolding(crate::specs::Line::public_line))]
fn public_line(items: &[u8]) -> Option<Line<'_>>
    ensures { option_map line_entry result ≡ public_line items.now }
{
    let (address, items) = split_word(items);
    let (parameters, name) = split_word(items);
    let address = hexadecimal(address)?;
    let _parameters = hexadecimal(parameters)?;
    Some(Line::Public(Label {
        address,
        text: text_of(name)?,
    }))
}

#[tactic(auto, unfolding(crate::specs::Line::init_line))]
fn init_line(items: &[u8]) -> Option<Line<'_>>
    ensures { option_map line_entry result ≡ init_line items.now }
{
    let (address, items) = split_word(items);
    let (size, rules) = split_word(items);
    let address = hexadecimal(address)?;
    let size = hexadecimal(size)?;
    let text = text_of(rules)?;
    if !fits(address, size) {
        return None;
    }
    Some(Line::Init(Extent {
        address,
        size,
        text,
    }))
}

#[tactic(auto, unfolding(crate::specs::Line::delta_line))]
fn delta_line(items: &[u8]) -> Option<Line<'_>>
    ensures { option_map line_entry result ≡ delta_line items.now }
{
    let (address, rules) = split_word(items);
    Some(Line::Delta(Label {
        address: hexadecimal(address)?,
        text: text_of(rules)?,
    }))
}

#[tactic(auto, unfolding(crate::specs::Line::stack_line))]
fn stack_line(items: &[u8]) -> Option<Line<'_>>
    ensures { option_map line_entry result ≡ stack_line items.now }
{
    let (second, items) = split_word(items);
    if second != CFI {
        return Some(Line::Other);
    }
    let (third, rest) = split_word(items);
    if third == INIT {
        init_line(rest)
    } else {
        delta_line(items)
    }
}

/// What a line says that doesn't begin with an address, by its first word and what stands behind it.
#[tactic(auto, unfolding(crate::specs::inner::Sources::record_line))]
fn record_line<'a>(first: &[u8], items: &'a [u8]) -> Option<Line<'a>>
    ensures { option_map line_entry result ≡ record_line first.now items.now }
{
    if first == FILE {
        file_line(items)
    } else if first == FUNC {
        function_line(unmarked(items))
    } else if first == PUBLIC {
        public_line(unmarked(items))
    } else if first == STACK {
        stack_line(items)
    } else if is_hexadecimal(first) {
        None
    } else {
        Some(Line::Other)
    }
}

/// What a line behind the first says, or nothing where it is bad.
pub fn line_of(line: &[u8]) -> Option<Line<'_>>
    ensures { option_map line_entry result ≡ line_of line.now }
{
    let (first, items) = split_word(line);
    match hexadecimal(first) {
        Some(address) => source_behind(address, items),
        None => record_line(first, items),
    }
}
