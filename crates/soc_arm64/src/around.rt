//! The memory and the modules of a process, as a step looks them up.
ghost use Rattle.std.specs.Prelude.{◌≡◌};
ghost use Rattle.soc_arm64.specs.Step as spec;

use crate::places::Places;
use soc_cfi::{Memory, Rules};
use soc_step::Surroundings;

#[derive(Drop)]
pub(crate) struct Around<'a, P, M> {
    pub(crate) places: &'a P,
    pub(crate) memory: &'a M,
}

impl<'a, P: Places, M: Memory> Memory for Around<'a, P, M> {
    ghost word = { λ around. M.word around.memory.now };

    fn word(&self, address: u64, width: u8) -> Option<u64> {
        self.memory.word(address, width)
    }
}

impl<'a, P: Places, M: Memory> Surroundings for Around<'a, P, M> {
    ghost is_in_module = { λ around. P.in_module around.places.now };

    ghost takes = { λ around. spec.takes (P.in_module around.places.now)
        (P.in_code around.places.now) };

    ghost rules = { λ around. P.rules around.places.now };

    fn is_in_module(&self, address: u64) -> bool {
        self.places.in_module(address)
    }

    fn takes(&self, word: u64) -> bool {
        word != 0 && self.places.in_module(word) && self.places.in_code(word - 1)
    }

    fn rules(&self, address: u64) -> Option<Rules<'_>> {
        self.places.rules(address)
    }
}
