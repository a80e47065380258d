//! The value of a rule.
ghost use Rattle.std.specs.Prelude.{◌≡◌, ◌<◌, None, Some, IfSome, OnSome, MatchOption};
ghost use Rattle.soc_cfi.specs.Known.{AreWords, HoldsWords, known};
ghost use Rattle.soc_cfi.specs.Operands.{operand_of};
ghost use Rattle.soc_cfi.specs.Operators.{values_of};
ghost use Rattle.soc_cfi.specs.Postfix.{after_token, calculated, loaded, rule_value};
ghost use Rattle.soc_cfi.specs.Registers.{register_of, width_of};

use crate::bank::{Bank, Memory};
use crate::operand::operand_of;
use crate::operator::{Operator, apply, operator_of};
use crate::registers::Registers;
use crate::stack::Stack;
use crate::words::split_token;

/// The value of a rule on x86 or AMD64, a postfix expression. `cfa` is the canonical frame address,
/// where it is known; registers are named as `$rsp` is. Where registers and `cfa` are words, below
/// 2^32 on x86, so is the value. It takes no memory.
///
/// `None` for a token that isn't known, a token without its operands, a 65th value on the stack, a
/// divisor of 0, a multiple of what is no power of two, a word that the memory doesn't have, an
/// integer from 2^64 on, and where not exactly one value is left.
pub fn eval<M: Memory>(
    rule: &str,
    registers: &Registers,
    cfa: Option<u64>,
    memory: &M,
) -> Option<u64>
    ensures value { result ≡ rule_value
        (known (width_of registers.now.arch) (register_of registers.now) cfa (M.word memory.now))
        rule.now }
    ensures word { HoldsWords (width_of registers.now.arch) (register_of registers.now) cfa
        → IfSome result (λ value. value < values_of (width_of registers.now.arch)) }
{
    eval_bank(rule, registers, cfa, memory)
}

/// The value of a rule on any architecture, in the same way: only the registers and their names are
/// the bank's.
pub fn eval_bank<B: Bank, M: Memory>(
    rule: &str,
    bank: &B,
    cfa: Option<u64>,
    memory: &M,
) -> Option<u64>
    ensures value { result ≡ rule_value
        (known (B.width bank.now) (B.value bank.now) cfa (M.word memory.now)) rule.now }
    ensures word { HoldsWords (B.width bank.now) (B.value bank.now) cfa
        → IfSome result (λ value. value < values_of (B.width bank.now)) }
{
    let mut stack = Stack::new();
    let mut rest = rule;
    while let Some((token, later)) = split_token(rest) {
        take_token(token, bank, cfa, memory, &mut stack)?;
        rest = later;
    }
    stack.only_value()
}

/// Does what a token says; `None` where it fails.
fn take_token<B: Bank, M: Memory>(
    token: &str,
    bank: &B,
    cfa: Option<u64>,
    memory: &M,
    stack: &mut Stack,
) -> Option<()>
    ensures stack { let taken = after_token
        (known (B.width bank.now) (B.value bank.now) cfa (M.word memory.now)) token.now stack.old in
        MatchOption result (taken ≡ None) (λ _. taken ≡ Some stack.new) }
    ensures words { HoldsWords (B.width bank.now) (B.value bank.now) cfa
        → AreWords (B.width bank.now) stack.old
        → OnSome result (AreWords (B.width bank.now) stack.new) }
{
    if let Some(operator) = operator_of(token) {
        return calculate(operator, bank, stack);
    }
    if token == "^" {
        return load(bank, memory, stack);
    }
    stack.push(operand_of(token, bank, cfa)?)
}

/// Puts the answer of an operator in place of its operands.
fn calculate<B: Bank>(operator: Operator, bank: &B, stack: &mut Stack) -> Option<()>
    ensures stack { MatchOption result (calculated (B.width bank.now) operator stack.old ≡ None)
        (λ _. calculated (B.width bank.now) operator stack.old ≡ Some stack.new) }
    ensures words { AreWords (B.width bank.now) stack.old
        → OnSome result (AreWords (B.width bank.now) stack.new) }
{
    let upper = stack.pop()?;
    let lower = stack.pop()?;
    stack.push(apply(bank.width(), operator, lower, upper)?)
}

/// Puts the word at an address in place of the address.
fn load<B: Bank, M: Memory>(bank: &B, memory: &M, stack: &mut Stack) -> Option<()>
    ensures stack { MatchOption result
        (loaded (λ address. M.word memory.now address (B.width bank.now)) stack.old ≡ None)
        (λ _. loaded (λ address. M.word memory.now address (B.width bank.now)) stack.old
        ≡ Some stack.new) }
    ensures words { AreWords (B.width bank.now) stack.old
        → OnSome result (AreWords (B.width bank.now) stack.new) }
{
    let address = stack.pop()?;
    stack.push(memory.word(address, bank.width())?)
}
