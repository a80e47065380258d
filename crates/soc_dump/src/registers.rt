//! The registers of a processor's context.
ghost use Rattle.std.specs.Prelude.{◌≡◌};
ghost use Rattle.soc_dump.specs.Registers.{amd64_registers_of, x86_registers_of};

use crate::field::{Field, field, narrow, wide};

// The least number of bytes of an AMD64 context, and its registers.
const AMD64_CONTEXT_SIZE: usize = 1232;

const AMD64_RAX: Field = field!(120, 8);

const AMD64_RCX: Field = field!(128, 8);

const AMD64_RDX: Field = field!(136, 8);

const AMD64_RBX: Field = field!(144, 8);

const AMD64_RSP: Field = field!(152, 8);

const AMD64_RBP: Field = field!(160, 8);

const AMD64_RSI: Field = field!(168, 8);

const AMD64_RDI: Field = field!(176, 8);

const AMD64_R8: Field = field!(184, 8);

const AMD64_R9: Field = field!(192, 8);

const AMD64_R10: Field = field!(200, 8);

const AMD64_R11: Field = field!(208, 8);

const AMD64_R12: Field = field!(216, 8);

const AMD64_R13: Field = field!(224, 8);

const AMD64_R14: Field = field!(232, 8);

const AMD64_R15: Field = field!(240, 8);

const AMD64_RIP: Field = field!(248, 8);
// The least number of bytes of an x86 context, and its registers.
const X86_CONTEXT_SIZE: usize = 716;

const X86_EDI: Field = field!(156, 4);

const X86_ESI: Field = field!(160, 4);

const X86_EBX: Field = field!(164, 4);

const X86_EDX: Field = field!(168, 4);

const X86_ECX: Field = field!(172, 4);

const X86_EAX: Field = field!(176, 4);

const X86_EBP: Field = field!(180, 4);

const X86_EIP: Field = field!(184, 4);

const X86_ESP: Field = field!(196, 4);

/// The registers of an AMD64 context: rax, rcx, rdx, rbx, rsp, rbp, rsi, rdi, r8 to r15 and rip.
/// `None` where the context has fewer than 1,232 bytes.
pub fn amd64_registers(context: &[u8]) -> Option<[u64; 17]>
    ensures { result ≡ amd64_registers_of context.now }
{
    if context.len() < AMD64_CONTEXT_SIZE {
        return None;
    }
    Some([
        wide(context, AMD64_RAX),
        wide(context, AMD64_RCX),
        wide(context, AMD64_RDX),
        wide(context, AMD64_RBX),
        wide(context, AMD64_RSP),
        wide(context, AMD64_RBP),
        wide(context, AMD64_RSI),
        wide(context, AMD64_RDI),
        wide(context, AMD64_R8),
        wide(context, AMD64_R9),
        wide(context, AMD64_R10),
        wide(context, AMD64_R11),
        wide(context, AMD64_R12),
        wide(context, AMD64_R13),
        wide(context, AMD64_R14),
        wide(context, AMD64_R15),
        wide(context, AMD64_RIP),
    ])
}

/// The registers of an x86 context: edi, esi, ebx, edx, ecx, eax, ebp, eip and esp. `None` where
/// the context has fewer than 716 bytes.
pub fn x86_registers(context: &[u8]) -> Option<[u32; 9]>
    ensures { result ≡ x86_registers_of context.now }
{
    if context.len() < X86_CONTEXT_SIZE {
        return None;
    }
    Some([
        narrow(context, X86_EDI),
        narrow(context, X86_ESI),
        narrow(context, X86_EBX),
        narrow(context, X86_EDX),
        narrow(context, X86_ECX),
        narrow(context, X86_EAX),
        narrow(context, X86_EBP),
        narrow(context, X86_EIP),
        narrow(context, X86_ESP),
    ])
}
