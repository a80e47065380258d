//! What an architecture is to a walk.
ghost use Rattle.std.specs.Prelude.{◌≡◌, option_map, position, slice_get};
ghost use Rattle.soc_cfi.specs.Known.{IsWidth};
ghost use Rattle.soc_step.specs.Machine as spec;
ghost use Rattle.soc_step.specs.Views.{machine_of, register_of};

/// How many registers a frame has room for: as many as the machine with most of them has.
pub const PLACES: usize = 33;

/// The size of a word.
#[derive(Clone, Copy, PartialEq, Eq, Debug)]
pub enum Width {
    /// 4 bytes.
    Four,
    /// 8 bytes.
    Eight,
}

impl Width {
    /// How many bytes a word has.
    pub fn bytes(self) -> u8
        ensures value { result ≡ spec.bytes_of self }
        ensures width { IsWidth result }
    {
        match self {
            Width::Four => 4,
            Width::Eight => 8,
        }
    }
}

/// A register.
#[derive(Clone, Copy, Debug)]
pub struct Register {
    /// Its name in rules.
    pub name: &'static str,
    /// Another name in rules. Where both have a rule, that of `name` counts.
    pub other_name: Option<&'static str>,
    /// Whether it has its value still after a call.
    pub is_kept: bool,
}

/// An architecture: its words and registers. Which of the registers are the pointers is told by
/// their places, from 0.
#[derive(Clone, Copy, Debug)]
pub struct Machine {
    pub width: Width,
    /// At most 33 registers, of which no two have a name in common.
    pub registers: &'static [Register],
    pub stack_pointer: usize,
    pub frame_pointer: usize,
    pub instruction_pointer: usize,
}

/// Whether a register has this name.
fn is_called(register: &Register, name: &str) -> bool
    ensures { result ≡ spec.is_called name.now (register_of register.now) }
{
    register.name == name || register.other_name == Some(name)
}

/// The place of a register among others, by one of its names.
fn place_among(registers: &[Register], name: &str) -> Option<usize>
    ensures { result ≡ position (λ register. spec.is_called name.now (register_of register))
        registers.now }
{
    registers
        .iter()
        .position(|register| is_called(register, name))
}

impl Machine {
    /// The register at a place.
    pub(crate) fn register(&self, place: usize) -> Option<&'static Register>
        ensures { option_map (λ register. register_of register.now) result
            ≡ slice_get (machine_of self.now).registers place }
    {
        self.registers.get(place)
    }

    /// The place of a register, by one of its names.
    pub(crate) fn place_of(&self, name: &str) -> Option<usize>
        ensures { result ≡ spec.place_of (machine_of self.now) name.now }
    {
        place_among(self.registers, name)
    }

    /// The address behind the word at an address; `None` where words can't hold it.
    pub(crate) fn behind(&self, address: u64) -> Option<u64>
        ensures { result ≡ spec.behind (machine_of self.now) address }
    {
        match self.width {
            Width::Four => address.checked_add(4).filter(|next| *next <= 0xffff_ffff),
            Width::Eight => address.checked_add(8),
        }
    }
}
