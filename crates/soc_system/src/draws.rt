//! Draws from a generator that the operating system's random bytes seed.
use rand::make_rng;
use rand::rngs::StdRng;
use rand_core::Rng;
use soc_edge::Draws;
use std::io;
use std::random::RandomSource;

/// A generator that was seeded once by the operating system, or none for a command that draws nothing.
#[derive(Drop)]
pub struct SystemDraws {
    generator: Option<StdRng>,
}

impl SystemDraws {
    /// A generator that the operating system seeds. An error where it gives no random bytes.
    pub fn new<S: RandomSource>(rt: &S) -> io::Result<SystemDraws> {
        Ok(SystemDraws {
            generator: Some(make_rng(rt)?),
        })
    }

    /// Draws that are all 0.
    pub fn none() -> SystemDraws {
        SystemDraws { generator: None }
    }
}

impl Draws for SystemDraws {
    ghost use Rattle.std.specs.Prelude.{None};

    ghost told = { λ _. record { throttles = λ _. None; ids = λ _. None } };

    fn throttle(&mut self) -> u64 {
        match &mut self.generator {
            Some(generator) => generator.next_u64(),
            None => 0,
        }
    }

    fn id(&mut self) -> [u8; 16] {
        let mut bytes = [0; 16];
        if let Some(generator) = &mut self.generator {
            generator.fill_bytes(&mut bytes);
        }
        bytes
    }
}
