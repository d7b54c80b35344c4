//! A list of bytes.

ghost use Rattle.std.specs.Prelude.{◌≡◌, ◌==◌, ◌++◌, [], length, IfOk, OnOk, OnErr};
ghost use Rattle.std.specs.Str.{bytes_eq};
ghost use Rattle.std.specs.Cmp.{partial_equiv_from_equiv};
ghost use Rattle.std.specs.Cmp.Lexicographic.{nat_list_eq_equiv};

use std::alloc::{AllocError, Global};
use std::marker::Model;

/// A list of bytes. Contracts see it as the list of their numbers.
#[derive(Debug, Drop)]
pub struct Bytes {
    items: Vec<u8>,
}

impl Model for Bytes {
    ghost use Rattle.std.specs.Prelude.{List, ℕ};
    ghost use Rattle.std.specs.Coded.{coded_list, coded_ℕ};

    ghost Value = { List ℕ };

    ghost coded = { coded_list coded_ℕ };

    ghost view = { λ bytes. bytes.items.items };
}

impl Bytes {
    /// An empty list. Does not allocate.
    pub fn new(alloc: Global) -> Bytes
        ensures { result ≡ [] }
    {
        Bytes {
            items: Vec::new(alloc),
        }
    }

    /// A copy of these bytes.
    pub fn from_slice(alloc: Global, bytes: &[u8]) -> Result<Bytes, AllocError>
        ensures { IfOk result (λ made. made ≡ bytes.now) }
    {
        let items = Vec::from_slice(alloc, bytes)?;
        Ok(Bytes { items })
    }

    /// The bytes as a slice.
    pub fn as_slice(&self) -> &[u8]
        ensures { result.now ≡ self.now }
    {
        self.items.as_slice()
    }

    /// The number of bytes.
    pub fn len(&self) -> usize
        ensures { result ≡ length self.now }
    {
        self.items.len()
    }

    /// Whether the list is empty.
    pub fn is_empty(&self) -> bool
        ensures { result ≡ (length self.now == 0) }
    {
        self.items.is_empty()
    }

    /// Appends these bytes.
    pub fn extend_from_slice(&mut self, bytes: &[u8]) -> Result<(), AllocError>
        ensures ok { OnOk result (self.new ≡ self.old ++ bytes.now) }
        ensures err { OnErr result (self.new ≡ self.old) }
    {
        self.items.extend_from_slice(bytes)
    }
}

/// Does not allocate.
impl From<Vec<u8>> for Bytes {
    ghost from_gives = { λ items bytes. bytes ≡ items.items };

    fn from(items: Vec<u8>) -> Bytes {
        Bytes { items }
    }
}

/// Does not allocate.
impl From<Bytes> for Vec<u8> {
    ghost from_gives = { λ bytes items. items.items ≡ bytes };

    fn from(bytes: Bytes) -> Vec<u8> {
        let Bytes { items } = bytes;
        items
    }
}

impl PartialEq for Bytes {
    ghost eq = { bytes_eq };

    ghost laws = { partial_equiv_from_equiv nat_list_eq_equiv };

    fn eq(&self, other: &Bytes) -> bool {
        self.items == other.items
    }
}

impl Eq for Bytes {
    ghost laws = { nat_list_eq_equiv };
}
