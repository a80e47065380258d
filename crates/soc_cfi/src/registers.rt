//! The registers of x86 and AMD64, by their names in rules.
ghost use Rattle.std.specs.Prelude.{◌≡◌, ◌<◌, Some, length, map, IfSome, position};
ghost use Rattle.std.specs.Str.{bytes_eq};
ghost use Rattle.soc_cfi.specs.Registers as spec;

use crate::bank::Bank;

/// A processor's architecture.
#[derive(Clone, Copy, Debug, PartialEq, Eq)]
pub enum Arch {
    X86,
    Amd64,
}

/// The names of the registers of x86.
const X86_NAMES: [&str; 9] = [
    "$edi", "$esi", "$ebx", "$edx", "$ecx", "$eax", "$ebp", "$eip", "$esp",
];

/// The names of the registers of AMD64.
const AMD64_NAMES: [&str; 17] = [
    "$rax", "$rcx", "$rdx", "$rbx", "$rsp", "$rbp", "$rsi", "$rdi", "$r8", "$r9", "$r10", "$r11",
    "$r12", "$r13", "$r14", "$r15", "$rip",
];

impl Arch {
    /// The names of the registers, in the order of their values in `Registers`.
    pub fn names(self) -> &'static [&'static str]
        ensures { map (λ name. name.now) result.now ≡ spec.names_of self }
    {
        match self {
            Arch::X86 => &X86_NAMES,
            Arch::Amd64 => &AMD64_NAMES,
        }
    }

    /// Where the value of the stack pointer stands.
    pub fn stack_pointer(self) -> usize
        ensures place { spec.place_of self (spec.stack_pointer_of self) ≡ Some result }
        ensures within { result < 17 }
    {
        match self {
            Arch::X86 => 8,
            Arch::Amd64 => 4,
        }
    }

    /// Where the value of the frame pointer stands.
    pub fn frame_pointer(self) -> usize
        ensures place { spec.place_of self (spec.frame_pointer_of self) ≡ Some result }
        ensures within { result < 17 }
    {
        match self {
            Arch::X86 => 6,
            Arch::Amd64 => 5,
        }
    }

    /// Where the value of the instruction pointer stands.
    pub fn instruction_pointer(self) -> usize
        ensures place { spec.place_of self (spec.instruction_pointer_of self) ≡ Some result }
        ensures within { result < 17 }
    {
        match self {
            Arch::X86 => 7,
            Arch::Amd64 => 16,
        }
    }

    /// Where the values stand of the registers that a function keeps for its caller.
    pub fn kept(self) -> &'static [usize]
        ensures places { map Some result.now ≡ map (spec.place_of self) (spec.kept_of self) }
    {
        match self {
            Arch::X86 => &[2, 6, 1, 0],
            Arch::Amd64 => &[3, 5, 12, 13, 14, 15],
        }
    }
}

/// The registers of a frame.
#[derive(Clone, Copy, Debug, PartialEq, Eq)]
pub struct Registers {
    pub arch: Arch,
    /// The values that are known. On AMD64 they are rax, rcx, rdx, rbx, rsp, rbp, rsi, rdi, r8 to
    /// r15 and rip; on x86 edi, esi, ebx, edx, ecx, eax, ebp, eip and esp, and then eight that
    /// nothing reads. On x86 a value is below 2^32.
    pub values: [Option<u64>; 17],
}

/// The place of a name among others.
fn place_among(names: &[&str], name: &str) -> Option<usize>
    ensures place { result ≡ position (λ other. bytes_eq other.now name.now) names.now }
    ensures within { IfSome result (λ place. place < length names.now) }
{
    names.iter().position(|other| *other == name)
}

/// The place of a register's value.
fn place_of(arch: Arch, name: &str) -> Option<usize>
    ensures place { result ≡ spec.place_of arch name.now }
    ensures within { IfSome result (λ place. place < 17) }
{
    match arch {
        Arch::X86 => place_among(&X86_NAMES, name),
        Arch::Amd64 => place_among(&AMD64_NAMES, name),
    }
}

impl Bank for Registers {
    ghost use Rattle.soc_cfi.specs.Registers.{width_of, register_of};

    ghost width = { λ registers. width_of registers.arch };

    ghost value = { register_of };

    fn width(&self) -> u8 {
        match self.arch {
            Arch::X86 => 4,
            Arch::Amd64 => 8,
        }
    }

    fn value(&self, name: &str) -> Option<u64> {
        let place = place_of(self.arch, name)?;
        self.values[place]
    }
}
