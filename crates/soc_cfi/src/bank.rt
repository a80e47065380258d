//! What rules read: registers and memory.
ghost use Rattle.std.specs.Prelude.{◌≡◌, ℕ, ◌<◌, ◌^◌, List, Option, IfSome};
ghost use Rattle.soc_cfi.specs.Known.{IsWidth};

/// The memory of a process.
pub trait Memory {
    /// The word of so many bytes at an address.
    ghost word: { Self → ℕ → ℕ → Option ℕ };

    /// The word of `width` bytes at an address; `None` where the memory doesn't have it. Rules ask
    /// for words of 4 and 8 bytes.
    fn word(&self, address: u64, width: u8) -> Option<u64>
        ensures value { result ≡ word self.now address width }
        ensures small { width ≡ 4 → IfSome result (λ value. value < 2 ^ 32) };
}

/// The registers of an architecture.
pub trait Bank {
    /// How many bytes a word has.
    ghost width: { Self → ℕ };

    /// The value of a register, by its name.
    ghost value: { Self → List ℕ → Option ℕ };

    /// How many bytes a word has, 4 or 8.
    fn width(&self) -> u8
        ensures value { result ≡ width self.now }
        ensures word { IsWidth result };

    /// The value of a register, by its name; `None` where it has none or the name is no register's.
    fn value(&self, name: &str) -> Option<u64>
        ensures { result ≡ value self.now name.now };
}
