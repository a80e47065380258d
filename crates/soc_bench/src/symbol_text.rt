//! The text of a Breakpad symbol file.
ghost use Rattle.std.specs.Prelude.{◌≤◌};

use std::alloc::{AllocError, Global};
use std::fmt::Write;

/// Where the first function begins.
pub const FIRST_ADDRESS: u64 = 0x1000_0000;

/// How far apart functions begin. Each covers the first half.
pub const STRIDE: u64 = 0x80;

/// The functions of a megabyte of text.
pub const FUNCTIONS_A_MEGABYTE: u64 = 5_400;

/// The most functions.
pub const MOST_FUNCTIONS: u64 = 5_529_600;

/// The source files.
const FILES: u64 = 16;

/// One function of so many has a public symbol behind it.
const FUNCTIONS_A_PUBLIC: u64 = 8;

/// Room for a function's records, in bytes.
const ROOM_A_FUNCTION: usize = 192;

/// The text with so many functions, each with three source lines and its call frame information.
pub fn symbol_text(alloc: Global, functions: u64) -> Result<String, AllocError>
    requires { functions ≤ 5529600 }
{
    let mut text = String::with_capacity(alloc, functions as usize * ROOM_A_FUNCTION)?;
    text.push_str("MODULE Linux x86_64 D74496D66958873E0000000000000000A made.so\n")?;
    for file in 0..FILES {
        writeln!(text, "FILE {file} source/file_{file}.cc")?;
    }
    for function in 0..functions {
        write_function(&mut text, function)?;
        if function % FUNCTIONS_A_PUBLIC == 0 {
            write_public(&mut text, function)?;
        }
    }
    Ok(text)
}

fn write_function(text: &mut String, function: u64) -> Result<(), AllocError>
    requires { function ≤ 5529600 }
{
    let address = FIRST_ADDRESS + function * STRIDE;
    let second = address + 0x10;
    let third = address + 0x20;
    let file = function % FILES;
    writeln!(text, "FUNC {address:x} 40 0 name_{function}")?;
    writeln!(text, "{address:x} 10 101 {file}")?;
    writeln!(text, "{second:x} 10 102 {file}")?;
    writeln!(text, "{third:x} 20 103 {file}")?;
    let pushed = address + 1;
    writeln!(
        text,
        "STACK CFI INIT {address:x} 40 .cfa: $rsp 8 + .ra: .cfa -8 + ^"
    )?;
    writeln!(text, "STACK CFI {pushed:x} .cfa: $rsp 16 +")
}

fn write_public(text: &mut String, function: u64) -> Result<(), AllocError>
    requires { function ≤ 5529600 }
{
    let address = FIRST_ADDRESS + function * STRIDE + 0x48;
    writeln!(text, "PUBLIC {address:x} 0 public_{function}")
}
