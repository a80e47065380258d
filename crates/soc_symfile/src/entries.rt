//! The entries of the tables: one of fixed size for each record. Texts stay in the file.
ghost use Rattle.std.specs.Prelude.{◌≡◌, ◌<◌, ◌^◌, ℕ};

/// A record that is looked up by a number: its address, or a file's number.
pub trait Keyed {
    ghost key_of: { Self → ℕ };

    fn key(&self) -> u64
        ensures { result ≡ key_of self.now };
}

/// A function or an INIT: where it begins in its module, how many bytes it covers, and its name or
/// rules.
#[derive(Clone, Copy, Debug)]
pub struct Extent<'a> {
    pub address: u64,
    pub size: u64,
    pub text: &'a str,
}

/// A public symbol or a delta: its offset in its module, and its name or rules.
#[derive(Clone, Copy, Debug)]
pub struct Label<'a> {
    pub address: u64,
    pub text: &'a str,
}

/// The name that a number stands for.
#[derive(Clone, Copy, Debug)]
pub struct File<'a> {
    pub number: u32,
    pub name: &'a str,
}

/// A line of source code, and which bytes of the module were made of it.
#[derive(Clone, Copy, Debug)]
pub struct SourceLine {
    pub address: u64,
    pub size: u64,
    /// The line's number.
    pub line: u32,
    /// The number of its file.
    pub file: u32,
}

/// A function or an INIT with the records that belong to it: where the first of them stands in
/// their table, and where the last one ends.
#[derive(Clone, Copy, Debug)]
pub struct Owner<'a> {
    pub extent: Extent<'a>,
    pub first: usize,
    pub end: usize,
}

/// A function with its source lines, or an INIT with its deltas.
#[derive(Clone, Copy, Debug)]
pub struct Owned<'a, P> {
    pub extent: Extent<'a>,
    pub parts: &'a [P],
}

/// What a line says.
#[derive(Clone, Copy, Debug)]
pub enum Line<'a> {
    /// Nothing that is kept.
    Other,
    File(File<'a>),
    Function(Extent<'a>),
    Source(SourceLine),
    Public(Label<'a>),
    Init(Extent<'a>),
    Delta(Label<'a>),
}

impl Keyed for Owner<'_> {
    ghost key_of = { λ owner. owner.extent.address };

    fn key(&self) -> u64 {
        self.extent.address
    }
}

impl Keyed for Label<'_> {
    ghost key_of = { λ label. label.address };

    fn key(&self) -> u64 {
        self.address
    }
}

impl Keyed for File<'_> {
    ghost key_of = { λ file. file.number };

    fn key(&self) -> u64 {
        u64::from(self.number)
    }
}
