//! Steps from a frame to its caller.
use soc_arm64::{Arm64, Places};
use soc_cfi::{Bank, Memory, Rules};
use soc_frames::Trust;
use soc_step::{Caller, Machine, PLACES, Register, Registers, Surroundings, Width};
use soc_symfile::SymFile;
use soc_tables::{Fault, Row, number_of};
use std::alloc::Global;

/// Five registers, of which a call keeps `fp` and `b`.
static REGISTERS: [Register; 5] = [
    Register {
        name: "sp",
        other_name: None,
        is_kept: false,
    },
    Register {
        name: "fp",
        other_name: None,
        is_kept: true,
    },
    Register {
        name: "ip",
        other_name: None,
        is_kept: false,
    },
    Register {
        name: "b",
        other_name: Some("bb"),
        is_kept: true,
    },
    Register {
        name: "c",
        other_name: None,
        is_kept: false,
    },
];

/// A module from 0x10000000 on, in which functions begin at 0x10000300, rules at one address, and a memory from 0x6ff0
/// on with words of which all but three are 0.
#[derive(Clone, Copy, Drop)]
struct Around<'a> {
    covered: u64,
    rules: Option<Rules<'a>>,
    last: u64,
}

impl<'a> Memory for Around<'a> {
    ghost use Rattle.std.specs.Prelude.{◌==◌, nat_le, if◌then◌else◌, Some, None};

    ghost word = { λ around address width.
        if address == 0x7000 then Some 0x7100 else if address == 0x7008 then Some 0x10000200 else if
        address == around.last then Some 0x10000300 else if nat_le 0x6ff0 address then Some 0 else
        None };

    fn word(&self, address: u64, _width: u8) -> Option<u64> {
        if address == 0x7000 {
            Some(0x7100)
        } else if address == 0x7008 {
            Some(0x1000_0200)
        } else if address == self.last {
            Some(0x1000_0300)
        } else if 0x6ff0 <= address {
            Some(0)
        } else {
            None
        }
    }
}

impl<'a> Surroundings for Around<'a> {
    ghost use Rattle.std.specs.Prelude.{◌==◌, nat_le, if◌then◌else◌, None, option_map};
    ghost use Rattle.soc_cfi.specs.Views.{in_force};

    ghost is_in_module = { λ around address. nat_le 0x10000000 address };

    ghost takes = { λ around word. nat_le 0x10000300 word };

    ghost rules = { λ around address.
        if address == around.covered then option_map in_force around.rules else None };

    fn is_in_module(&self, address: u64) -> bool {
        0x1000_0000 <= address
    }

    fn takes(&self, word: u64) -> bool {
        0x1000_0300 <= word
    }

    fn rules(&self, address: u64) -> Option<Rules<'_>> {
        if address == self.covered {
            self.rules
        } else {
            None
        }
    }
}

/// A symbol file with a row's rules at 0x100, if it has some.
fn symbols(alloc: Global, row: &Row<'_>) -> Result<String, Fault> {
    match row.optional(alloc, "rules")? {
        Some(rules) => {
            let rules = rules.as_str();
            Ok(format!(in alloc; "MODULE a b c d\nSTACK CFI INIT 100 10 a: {rules}\n")?)
        }
        None => Ok(String::from_str(alloc, "MODULE a b c d\n")?),
    }
}

/// The registers that a row knows.
fn registers(alloc: Global, row: &Row<'_>) -> Result<Registers, Fault> {
    let mut values = [None; PLACES];
    for item in row.items(alloc, "registers")? {
        let (name, value) = item.as_str().split_once('=').unwrap_or((item.as_str(), ""));
        let value = number_of(value)?;
        for (place, register) in REGISTERS.iter().enumerate() {
            if register.name == name && place < PLACES {
                values[place] = Some(value);
            }
        }
    }
    let machine = Machine {
        width: if row.number("width")? == 4 {
            Width::Four
        } else {
            Width::Eight
        },
        registers: &REGISTERS,
        stack_pointer: 0,
        frame_pointer: 1,
        instruction_pointer: 2,
    };
    Ok(Registers { machine, values })
}

/// How a caller was found, and the registers that are known of it.
fn caller_text(alloc: Global, caller: Option<Caller>) -> Result<String, Fault> {
    let Some(caller) = caller else {
        return Ok(String::from_str(alloc, "none")?);
    };
    let mut text = format!(in alloc; "{:?}", caller.trust)?;
    for (register, value) in REGISTERS.iter().zip(caller.values.iter()) {
        append_value(alloc, &mut text, register.name, *value)?;
    }
    Ok(text)
}

/// Appends a register whose value is known.
fn append_value(
    alloc: Global,
    text: &mut String,
    name: &str,
    value: Option<u64>,
) -> Result<(), Fault> {
    if let Some(value) = value {
        write!(text, " {name}={value:#x}")?;
    }
    Ok(())
}

/// The caller of the first frame of a walk, whose rules are those at its address, and of another one, whose rules are those
/// one byte before.
pub fn step(alloc: Global, row: &Row<'_>) -> Result<String, Fault> {
    let registers = registers(alloc, row)?;
    let last = row.number("last")?;
    let text = symbols(alloc, row)?;
    step_by(alloc, &registers, last, text.as_bytes())
}

fn step_by(
    alloc: Global,
    registers: &Registers,
    last: u64,
    symbols: &[u8],
) -> Result<String, Fault> {
    let file = SymFile::read(alloc, symbols)?;
    let rules = file.cfi(0x100).map(|span| Rules::at(span, 0x100));
    callers_text(alloc, registers, last, rules)
}

fn callers_text(
    alloc: Global,
    registers: &Registers,
    last: u64,
    rules: Option<Rules<'_>>,
) -> Result<String, Fault> {
    let around = Around {
        covered: 0x1000_0100,
        rules,
        last,
    };
    let first = caller_text(alloc, registers.caller(true, &around))?;
    let around = Around {
        covered: 0x1000_00ff,
        rules,
        last,
    };
    let other = caller_text(alloc, registers.caller(false, &around))?;
    both(alloc, first, other.as_str())
}

/// One text, where both are the same.
fn both(alloc: Global, first: String, other: &str) -> Result<String, Fault> {
    if first.as_str() == other {
        return Ok(first);
    }
    Ok(format!(in alloc; "{}, and of another frame {other}", first.as_str())?)
}

/// One module from 0x10000000 on, with rules at one address, and two words.
#[derive(Drop)]
struct Process<'a> {
    rules: Option<Rules<'a>>,
}

impl<'a> Memory for Process<'a> {
    ghost use Rattle.std.specs.Prelude.{◌==◌, if◌then◌else◌, Some, None};

    ghost word = { λ process address width.
        if address == 0x7000 then Some 0x7100 else if address == 0x7008 then Some 0x10000200 else
        None };

    fn word(&self, address: u64, _width: u8) -> Option<u64> {
        if address == 0x7000 {
            Some(0x7100)
        } else if address == 0x7008 {
            Some(0x1000_0200)
        } else {
            None
        }
    }
}

impl<'a> Places for Process<'a> {
    ghost use Rattle.std.specs.Prelude.{◌==◌, ◌&&◌, nat_le, nat_lt, if◌then◌else◌, None, option_map};
    ghost use Rattle.soc_cfi.specs.Views.{in_force};

    ghost in_module = { λ process address. nat_le 0x10000000 address && nat_lt address 0x10001000 };

    ghost in_code = { λ process address. nat_le 0x10000000 address && nat_lt address 0x10001000 };

    ghost rules = { λ process address.
        if address == 0x10000100 then option_map in_force process.rules else None };

    fn in_module(&self, address: u64) -> bool {
        0x1000_0000 <= address && address < 0x1000_1000
    }

    fn in_code(&self, address: u64) -> bool {
        0x1000_0000 <= address && address < 0x1000_1000
    }

    fn rules(&self, address: u64) -> Option<Rules<'_>> {
        if address == 0x1000_0100 {
            self.rules
        } else {
            None
        }
    }
}

/// A frame on ARM64 that knows x19, x29, x30, sp and pc.
fn frame() -> Arm64 {
    let mut values = [None; PLACES];
    values[19] = Some(19);
    values[29] = Some(0x7000);
    values[30] = Some(0x1000_0200);
    values[31] = Some(0x6ff0);
    values[32] = Some(0x1000_0100);
    Arm64 { values }
}

/// Appends the registers of these names.
fn append_registers(
    alloc: Global,
    text: &mut String,
    registers: &Arm64,
    names: &[&str],
) -> Result<(), Fault> {
    for name in names {
        append_value(alloc, text, name, registers.value(name))?;
    }
    Ok(())
}

/// The caller of a frame on ARM64.
pub fn arm64(alloc: Global, row: &Row<'_>) -> Result<String, Fault> {
    let text = symbols(alloc, row)?;
    arm64_by(alloc, text.as_bytes())
}

fn arm64_by(alloc: Global, symbols: &[u8]) -> Result<String, Fault> {
    let file = SymFile::read(alloc, symbols)?;
    let rules = file.cfi(0x100).map(|span| Rules::at(span, 0x100));
    let process = Process { rules };
    arm64_text(alloc, frame().caller(true, &process, &process))
}

fn arm64_text(alloc: Global, found: Option<(Arm64, Trust)>) -> Result<String, Fault> {
    let Some((caller, trust)) = found else {
        return Ok(String::from_str(alloc, "none")?);
    };
    let mut text = format!(in alloc; "{trust:?}")?;
    append_registers(
        alloc,
        &mut text,
        &caller,
        &["x19", "x29", "x30", "sp", "pc"],
    )?;
    Ok(text)
}

/// The registers of a context on ARM64.
pub fn context(alloc: Global, row: &Row<'_>) -> Result<String, Fault> {
    let mut context = [0u8; 912];
    for item in row.items(alloc, "bytes")? {
        let (place, byte) = item.as_str().split_once('=').unwrap_or((item.as_str(), ""));
        if let Some(slot) = context.get_mut(place.parse::<usize>()?) {
            *slot = byte.parse::<u8>()?;
        }
    }
    let size = row.cell("size")?.parse::<usize>()?;
    let Some(registers) = Arm64::read(context.get(..size).unwrap_or(&[])) else {
        return Ok(String::from_str(alloc, "too small")?);
    };
    let mut text = String::from_str(alloc, "read")?;
    append_registers(
        alloc,
        &mut text,
        &registers,
        &["x0", "x1", "sp", "pc", "x31"],
    )?;
    Ok(text)
}
