use crate::texts::find_rule;
use crate::{Arch, Bank, Memory, Registers, Rules, eval, eval_bank};
use soc_symfile::SymFile;
use std::test::Fail;

/// A memory with one word, whose lower half is 7.
#[derive(Drop)]
struct OneWord {
    address: u64,
}

impl Memory for OneWord {
    ghost use Rattle.std.specs.Prelude.{◌==◌, if◌then◌else◌, Some, None};

    ghost word = { λ memory address width.
        if address == memory.address then
        (if width == 4 then Some 7 else Some 0x1_0000_0007) else None };

    fn word(&self, address: u64, width: u8) -> Option<u64> {
        if address == self.address {
            if width == 4 {
                Some(7)
            } else {
                Some(0x1_0000_0007)
            }
        } else {
            None
        }
    }
}

const MEMORY: OneWord = OneWord { address: 0x7008 };

fn amd64() -> Registers {
    let mut values = [None; 17];
    values[4] = Some(4111);
    values[5] = Some(0x7000);
    Registers {
        arch: Arch::Amd64,
        values,
    }
}

fn x86() -> Registers {
    let mut values = [None; 17];
    values[6] = Some(0x7000);
    values[8] = Some(0xffff_fff0);
    Registers {
        arch: Arch::X86,
        values,
    }
}

#[test]
fn evaluates_on_amd64(rt: HostRuntime) {
    let rows = [
        ("$rsp 16 @", 4096),
        ("$rsp", 4111),
        ("  1   2 + ", 3),
        ("2 5 -", 0xffff_ffff_ffff_fffd),
        ("18446744073709551615 1 +", 0),
        ("9223372036854775809 2 *", 2),
        ("7 2 /", 3),
        ("7 2 %", 1),
        ("7 1 @", 7),
        ("-1", 0xffff_ffff_ffff_ffff),
        ("-0", 0),
        ("007", 7),
        (".cfa 8 -", 0xff8),
        ("$rbp 8 + ^", 0x1_0000_0007),
        ("1 2 3 + *", 5),
    ];
    let registers = amd64();
    for (rule, value) in rows {
        assert_eq!(rt;
            eval(rule, &registers, Some(0x1000), &MEMORY),
            Some(value),
            "{rule}"
        );
    }
}

#[test]
fn evaluates_on_x86(rt: HostRuntime) {
    let rows = [
        ("4294967295 1 +", 0),
        ("0 1 -", 0xffff_ffff),
        ("65537 65536 *", 0x1_0000),
        ("4294967297", 1),
        ("-1", 0xffff_ffff),
        ("-4294967297", 0xffff_ffff),
        ("$esp 32 +", 0x10),
        ("$ebp 8 + ^", 7),
    ];
    let registers = x86();
    for (rule, value) in rows {
        assert_eq!(rt;
            eval(rule, &registers, None, &MEMORY),
            Some(value),
            "{rule}"
        );
    }
}

#[test]
fn fails(rt: HostRuntime) {
    let rules = [
        "",
        " ",
        "1 2",
        "+",
        "1 +",
        "^",
        "@",
        "1 0 /",
        "1 0 %",
        "7 3 @",
        "7 0 @",
        "8 ^",
        "$eax",
        "rsp",
        "$rbx",
        "+5",
        "1 2+",
        ".cfa",
        ".ra",
        "--1",
        "1-",
        "0x10",
        "1\t",
        "18446744073709551616",
        "-18446744073709551616",
    ];
    let registers = amd64();
    for rule in rules {
        assert_eq!(rt; eval(rule, &registers, None, &MEMORY), None, "{rule}");
    }
    assert_eq!(rt; eval("18446744073709551616", &x86(), None, &MEMORY), None);
    assert_eq!(rt; eval("$rsp", &x86(), None, &MEMORY), None);
}

#[test]
fn holds_64_values(rt: HostRuntime) -> Result<(), Fail> {
    let alloc = rt.alloc();
    let mut full = String::new(alloc);
    for _ in 0..64 {
        full.push_str("1 ")?;
    }
    let mut sum = full.clone()?;
    for _ in 0..63 {
        sum.push_str("+ ")?;
    }
    let registers = amd64();
    assert_eq!(rt; eval(sum.as_str(), &registers, None, &MEMORY), Some(64));
    full.push_str("1")?;
    assert_eq!(rt; eval(full.as_str(), &registers, None, &MEMORY), None);
    Ok(())
}

/// One register of four bytes, whose name has no `$`.
#[derive(Drop)]
struct Counter {
    count: u64,
}

impl Bank for Counter {
    ghost use Rattle.std.specs.Prelude.{if◌then◌else◌, Some, None, codes};
    ghost use Rattle.std.specs.Str.{bytes_eq};

    ghost width = { λ _. 4 };

    ghost value = { λ counter name. if bytes_eq name (codes "pc") then Some counter.count else None };

    fn width(&self) -> u8 {
        4
    }

    fn value(&self, name: &str) -> Option<u64> {
        if name == "pc" { Some(self.count) } else { None }
    }
}

#[test]
fn evaluates_on_another_architecture(rt: HostRuntime) {
    let counter = Counter { count: 0xffff_ffff };
    assert_eq!(rt; eval_bank("pc 2 +", &counter, None, &MEMORY), Some(1));
    assert_eq!(rt; eval_bank("$pc 2 +", &counter, None, &MEMORY), None);
}

#[test]
fn finds_the_last_rule(rt: HostRuntime) {
    let rows = [
        (".cfa: $rsp 8 + .ra: .cfa 8 - ^", ".cfa", Some("$rsp 8 +")),
        (".cfa: $rsp 8 + .ra: .cfa 8 - ^", ".ra", Some(".cfa 8 - ^")),
        (".cfa: $rsp 8 + .ra: .cfa 8 - ^", "$rsp", None),
        ("1 2 .cfa: $rsp", "1", None),
        ("a: 1 b: 2 a: 3", "a", Some("3")),
        ("a: b: 2", "a", Some("")),
        ("a:", "a", Some("")),
        (" a:   1   2   b: 3", "a", Some("  1   2  ")),
        ("a:1 b", "a", None),
    ];
    for (text, register, rule) in rows {
        assert_eq!(rt; find_rule(text, register), rule, "{text}");
    }
}

/// An INIT of the 16 bytes from 0x100 on, with three deltas.
const FILE: &str = "MODULE Linux x86_64 ABC0 x
STACK CFI INIT 100 10 .cfa: $rsp 8 + .ra: .cfa 8 - ^
STACK CFI 104 .cfa: $rsp 16 +
STACK CFI 106 $rbx: .cfa 16 - ^ $rbx: .cfa 24 - ^
STACK CFI 108 .cfa: $rbp 16 +
";

#[test]
fn finds_the_rules_in_force(rt: HostRuntime) -> Result<(), Fail> {
    let rows = [
        (0x103, ".cfa", Some("$rsp 8 +")),
        (0x104, ".cfa", Some("$rsp 16 +")),
        (0x107, ".cfa", Some("$rsp 16 +")),
        (0x10f, ".cfa", Some("$rbp 16 +")),
        (0x10f, ".ra", Some(".cfa 8 - ^")),
        (0x105, "$rbx", None),
        (0x106, "$rbx", Some(".cfa 24 - ^")),
    ];
    let file = SymFile::read(rt.alloc(), FILE.as_bytes())?;
    for (offset, register, rule) in rows {
        let span = file.cfi(offset).ok_or("no rules")?;
        assert_eq!(rt;
            Rules::at(span, offset).rule(register),
            rule,
            "{register} at {offset}"
        );
    }
    assert_eq!(rt; file.cfi(0x110).is_some(), false);
    Ok(())
}

#[test]
fn finds_all_rules_at_once(rt: HostRuntime) -> Result<(), Fail> {
    let names = [".cfa", ".ra", "$rbx", "$rbp", ".cfa"];
    let file = SymFile::read(rt.alloc(), FILE.as_bytes())?;
    for offset in 0x100..0x110 {
        let span = file.cfi(offset).ok_or("no rules")?;
        let rules = Rules::at(span, offset);
        let all = rules.all(rt.alloc(), &names)?;
        assert_eq!(rt; all.len(), 5);
        for (name, rule) in names.iter().zip(all.iter()) {
            assert_eq!(rt; *rule, rules.rule(name), "{name} at {offset}");
        }
    }
    let span = file.cfi(0x10f).ok_or("no rules")?;
    let none = Rules::at(span, 0x10f).all(rt.alloc(), &[])?;
    assert_eq!(rt; none.is_empty(), true);
    Ok(())
}

#[test]
fn names_registers(rt: HostRuntime) -> Result<(), Fail> {
    let rows = [
        (
            Arch::X86,
            "$esp",
            "$ebp",
            "$eip",
            ["$ebx", "$ebp", "$esi", "$edi"].as_slice(),
        ),
        (
            Arch::Amd64,
            "$rsp",
            "$rbp",
            "$rip",
            ["$rbx", "$rbp", "$r12", "$r13", "$r14", "$r15"].as_slice(),
        ),
    ];
    for (arch, stack, frame, instruction, kept) in rows {
        let names = arch.names();
        assert_eq!(rt; names.get(arch.stack_pointer()).copied(), Some(stack));
        assert_eq!(rt; names.get(arch.frame_pointer()).copied(), Some(frame));
        assert_eq!(rt;
            names.get(arch.instruction_pointer()).copied(),
            Some(instruction)
        );
        assert_eq!(rt; arch.kept().len(), kept.len());
        for (place, name) in arch.kept().iter().zip(kept.iter()) {
            assert_eq!(rt; names.get(*place), Some(name));
        }
    }
    Ok(())
}
