//! The lists that stand-ins are made of.
ghost use Rattle.std.specs.Prelude.{◌≡◌, []};

use soc_base::Bytes;
use std::marker::Model;

/// Numbers: of calls, moments or draws.
#[derive(Drop)]
pub struct Numbers {
    items: Vec<u64>,
}

impl Model for Numbers {
    ghost use Rattle.std.specs.Prelude.{List, ℕ};

    ghost Value = { List ℕ };

    ghost view = { λ n. n.items.items };
}

impl Numbers {
    /// The numbers in this order.
    pub fn new(items: Vec<u64>) -> Numbers
        ensures { result ≡ items.items }
    {
        Numbers { items }
    }

    /// Takes all of them out.
    pub fn clear(&mut self)
        ensures { self.new ≡ [] }
    {
        self.items.clear();
    }

    /// The numbers.
    pub fn as_slice(&self) -> &[u64]
        ensures { result.now ≡ self.now }
    {
        self.items.as_slice()
    }
}

/// Draws of sixteen bytes.
#[derive(Drop)]
pub struct Ids16 {
    items: Vec<[u8; 16]>,
}

impl Model for Ids16 {
    ghost use Rattle.std.specs.Prelude.{List, ℕ};

    ghost Value = { List (List ℕ) };

    ghost view = { λ n. n.items.items };
}

impl Ids16 {
    /// The draws in this order.
    pub fn new(items: Vec<[u8; 16]>) -> Ids16
        ensures { result ≡ items.items }
    {
        Ids16 { items }
    }

    /// The draws.
    pub fn as_slice(&self) -> &[[u8; 16]]
        ensures { result.now ≡ self.now }
    {
        self.items.as_slice()
    }
}

/// Pieces of bytes.
#[derive(Drop)]
pub struct BytesList {
    items: Vec<Bytes>,
}

impl Model for BytesList {
    ghost use Rattle.std.specs.Prelude.{List, ℕ};

    ghost Value = { List (List ℕ) };

    ghost view = { λ n. n.items.items };
}

impl BytesList {
    /// The pieces in this order.
    pub fn new(items: Vec<Bytes>) -> BytesList
        ensures { result ≡ items.items }
    {
        BytesList { items }
    }

    /// The pieces.
    pub fn as_slice(&self) -> &[Bytes]
        ensures { result.now ≡ self.now }
    {
        self.items.as_slice()
    }
}
