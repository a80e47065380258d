//! AMD64 and x86 as machines.
ghost use Rattle.std.specs.Prelude.{◌≡◌};
ghost use Rattle.soc_step.specs.Views.{machine_of};
ghost use Rattle.soc_walk.specs.Machines.{amd64, x86};

use soc_step::{Machine, Register, Width};

macro_rules! register {
    ($name:literal, $is_kept:literal) => {
        Register {
            name: $name,
            other_name: None,
            is_kept: $is_kept,
        }
    };
}

/// The registers of AMD64, in the order in which `soc_dump` gives them.
static AMD64_REGISTERS: [Register; 17] = [
    register!("$rax", false),
    register!("$rcx", false),
    register!("$rdx", false),
    register!("$rbx", true),
    register!("$rsp", false),
    register!("$rbp", true),
    register!("$rsi", false),
    register!("$rdi", false),
    register!("$r8", false),
    register!("$r9", false),
    register!("$r10", false),
    register!("$r11", false),
    register!("$r12", true),
    register!("$r13", true),
    register!("$r14", true),
    register!("$r15", true),
    register!("$rip", false),
];

/// The registers of x86, in the order in which `soc_dump` gives them.
static X86_REGISTERS: [Register; 9] = [
    register!("$edi", true),
    register!("$esi", true),
    register!("$ebx", true),
    register!("$edx", false),
    register!("$ecx", false),
    register!("$eax", false),
    register!("$ebp", true),
    register!("$eip", false),
    register!("$esp", false),
];

pub(crate) fn amd64_machine() -> Machine
    ensures { machine_of result ≡ amd64 }
{
    Machine {
        width: Width::Eight,
        registers: &AMD64_REGISTERS,
        stack_pointer: 4,
        frame_pointer: 5,
        instruction_pointer: 16,
    }
}

pub(crate) fn x86_machine() -> Machine
    ensures { machine_of result ≡ x86 }
{
    Machine {
        width: Width::Four,
        registers: &X86_REGISTERS,
        stack_pointer: 8,
        frame_pointer: 6,
        instruction_pointer: 7,
    }
}
