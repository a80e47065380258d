//! A caller by call frame information.
ghost use Rattle.std.specs.Prelude.{◌≡◌, None, Some};
ghost use Rattle.soc_cfi.specs.Postfix.{rule_value};
ghost use Rattle.soc_cfi.specs.Views.{in_force};
ghost use Rattle.std.specs.Option.{option_copied};
ghost use Rattle.soc_step.specs.Step as spec;
ghost use Rattle.soc_step.specs.Surroundings.{surroundings};
ghost use Rattle.soc_step.specs.Views.{machine_of, register_of, registers_of};

use crate::machine::{PLACES, Register};
use crate::registers::Registers;
use crate::surroundings::Surroundings;
use soc_cfi::{Rules, eval_bank};

/// The address that is looked up for a frame: the instruction pointer's value in the first, one
/// less in a caller, where it then lies within the call.
pub fn lookup_address(first: bool, instruction: u64) -> u64
    ensures { result ≡ spec.lookup_address first instruction }
{
    if first {
        instruction
    } else {
        instruction.saturating_sub(1)
    }
}

/// What rules say of the pointers of a caller.
#[derive(Clone, Copy)]
struct Pointers {
    /// The canonical frame address.
    frame_address: u64,
    instruction: u64,
    stack: u64,
}

/// The rule of a register, by the first of its names that has one.
fn rule_for<'a>(rules: &Rules<'a>, register: &Register) -> Option<&'a str>
    ensures { option_copied result ≡ spec.rule_for (in_force rules.now) (register_of register.now) }
{
    match rules.rule(register.name) {
        Some(rule) => Some(rule),
        None => rules.rule(register.other_name?),
    }
}

/// The rule of the register at a place.
fn rule_at<'a>(registers: &Registers, rules: &Rules<'a>, place: usize) -> Option<&'a str>
    ensures { option_copied result
        ≡ spec.rule_at (machine_of registers.now.machine) (in_force rules.now) place }
{
    rule_for(rules, registers.machine.register(place)?)
}

/// The stack pointer of the caller.
fn stack_pointer_by<S: Surroundings>(
    registers: &Registers,
    rules: &Rules<'_>,
    cfa: u64,
    around: &S,
) -> Option<u64>
    ensures { result ≡ spec.stack_pointer_by
        (surroundings (S.word around.now) (S.is_in_module around.now) (S.takes around.now)
        (S.rules around.now)) (registers_of registers.now) (in_force rules.now) cfa }
{
    match rule_at(registers, rules, registers.machine.stack_pointer) {
        Some(rule) => eval_bank(rule, registers, Some(cfa), around),
        None => Some(cfa),
    }
}

/// The pointers of the caller.
fn pointers_by<S: Surroundings>(
    registers: &Registers,
    rules: &Rules<'_>,
    around: &S,
) -> Option<Pointers>
    ensures { result ≡ spec.pointers_by
        (surroundings (S.word around.now) (S.is_in_module around.now) (S.takes around.now)
        (S.rules around.now)) (registers_of registers.now) (in_force rules.now) }
{
    let frame_address = eval_bank(rules.rule(".cfa")?, registers, None, around)?;
    let instruction = eval_bank(rules.rule(".ra")?, registers, Some(frame_address), around)?;
    let stack = stack_pointer_by(registers, rules, frame_address, around)?;
    Some(Pointers {
        frame_address,
        instruction,
        stack,
    })
}

/// A register of the caller that is neither its instruction pointer nor its stack pointer.
fn other_by<S: Surroundings>(
    registers: &Registers,
    rules: &Rules<'_>,
    cfa: u64,
    around: &S,
    place: usize,
) -> Option<u64>
    ensures { result ≡ spec.other_by
        (surroundings (S.word around.now) (S.is_in_module around.now) (S.takes around.now)
        (S.rules around.now)) (registers_of registers.now) (in_force rules.now) cfa place }
{
    let register = registers.machine.register(place)?;
    match rule_for(rules, register) {
        Some(rule) => eval_bank(rule, registers, Some(cfa), around),
        None if register.is_kept => registers.at(place),
        None => None,
    }
}

/// A register of the caller.
fn value_by<S: Surroundings>(
    registers: &Registers,
    rules: &Rules<'_>,
    pointers: &Pointers,
    around: &S,
    place: usize,
) -> Option<u64>
    ensures { result ≡ spec.value_by
        (surroundings (S.word around.now) (S.is_in_module around.now) (S.takes around.now)
        (S.rules around.now)) (registers_of registers.now) (in_force rules.now) pointers.now place }
{
    if place == registers.machine.instruction_pointer {
        Some(pointers.instruction)
    } else if place == registers.machine.stack_pointer {
        Some(pointers.stack)
    } else {
        other_by(registers, rules, pointers.frame_address, around, place)
    }
}

/// The registers of the caller, by the rules in force.
fn by_rules<S: Surroundings>(
    registers: &Registers,
    rules: &Rules<'_>,
    around: &S,
) -> Option<[Option<u64>; PLACES]>
    ensures { result ≡ spec.by_rules
        (surroundings (S.word around.now) (S.is_in_module around.now) (S.takes around.now)
        (S.rules around.now)) (registers_of registers.now) (in_force rules.now) }
{
    let pointers = pointers_by(registers, rules, around)?;
    let mut values = [None; PLACES];
    for place in 0..PLACES {
        values[place] = value_by(registers, rules, &pointers, around, place);
    }
    Some(values)
}

/// The registers of the caller, where rules cover the frame and give its pointers.
pub fn by_cfi<S: Surroundings>(
    registers: &Registers,
    first: bool,
    around: &S,
) -> Option<[Option<u64>; PLACES]>
    ensures { result ≡ spec.by_cfi
        (surroundings (S.word around.now) (S.is_in_module around.now) (S.takes around.now)
        (S.rules around.now)) first (registers_of registers.now) }
{
    let instruction = registers.instruction_pointer()?;
    let rules = around.rules(lookup_address(first, instruction))?;
    by_rules(registers, &rules, around)
}
