//! A caller by a scan of the stack.
ghost use Rattle.std.specs.Prelude.{◌≡◌};
ghost use Rattle.soc_step.specs.Step as spec;
ghost use Rattle.soc_step.specs.Surroundings.{surroundings};
ghost use Rattle.soc_step.specs.Views.{registers_of};

use crate::machine::PLACES;
use crate::pointers::pointers_alone;
use crate::registers::Registers;
use crate::surroundings::Surroundings;

/// How many words are looked at for the first frame, and for another one.
const WORDS_OF_FIRST: u64 = 160;

const WORDS_OF_OTHERS: u64 = 40;

/// The first of so many words that counts as a return address, with the address behind it.
fn scan<S: Surroundings>(
    registers: &Registers,
    around: &S,
    words: u64,
    start: u64,
) -> Option<(u64, u64)>
    ensures { result ≡ spec.scan (surroundings (S.word around.now) (S.is_in_module around.now)
        (S.takes around.now) (S.rules around.now)) (registers_of registers.now) words start }
{
    let mut address = start;
    for _ in 0..words {
        let word = around.word(address, registers.machine.width.bytes())?;
        let next = registers.machine.behind(address)?;
        if around.takes(word) {
            return Some((word, next));
        }
        address = next;
    }
    None
}

/// The registers of the caller, where the stack has a word that counts as a return address.
pub fn by_scan<S: Surroundings>(
    registers: &Registers,
    first: bool,
    around: &S,
) -> Option<[Option<u64>; PLACES]>
    ensures { result ≡ spec.by_scan
        (surroundings (S.word around.now) (S.is_in_module around.now) (S.takes around.now)
        (S.rules around.now)) first (registers_of registers.now) }
{
    let words = if first {
        WORDS_OF_FIRST
    } else {
        WORDS_OF_OTHERS
    };
    let (instruction, stack) = scan(registers, around, words, registers.stack_pointer()?)?;
    Some(pointers_alone(
        &registers.machine,
        instruction,
        stack,
        registers.frame_pointer(),
    ))
}
