//! Lists of values.

ghost use Rattle.std.specs.Prelude.{◌≡◌, ◌-◌, ◌==◌, ◌++◌, ◌∷◌, [], ◌<◌, length, take, slice_set, OnOk, OnErr};

use std::alloc::{AllocError, Global};
use std::marker::Model;

/// A list of values, in order. Contracts see it as that list.
#[derive(Debug, Drop)]
pub struct Seq<T> {
    items: Vec<T>,
}

impl<T> Model for Seq<T> {
    ghost use Rattle.std.specs.Prelude.{List};

    ghost Value = { List T };

    ghost view = { λ seq. seq.items.items };
}

impl<T> Seq<T> {
    /// An empty list. Does not allocate.
    pub fn new(alloc: Global) -> Seq<T>
        ensures { result ≡ [] }
    {
        Seq {
            items: Vec::new(alloc),
        }
    }

    /// The values as a slice.
    pub fn as_slice(&self) -> &[T]
        ensures { result.now ≡ self.now }
    {
        self.items.as_slice()
    }

    /// The length of the list.
    pub fn len(&self) -> usize
        ensures { result ≡ length self.now }
    {
        self.items.len()
    }

    /// Whether the list is empty.
    pub fn is_empty(&self) -> bool
        ensures { result ≡ (length self.now == 0) }
    {
        self.items.is_empty()
    }

    /// The allocator that the list grows by.
    pub(crate) fn allocator(&self) -> Global {
        *self.items.allocator()
    }

    /// Appends a value. Without memory the list stays as it was, and the value is dropped.
    pub fn push(&mut self, value: T) -> Result<(), AllocError>
    where
        T: Drop,
        ensures ok { OnOk result (self.new ≡ self.old ++ value ∷ []) }
        ensures err { OnErr result (self.new ≡ self.old) }
    {
        self.items.push(value)?;
        Ok(())
    }

    /// Removes the last value, where there is one.
    pub fn drop_last(&mut self)
    where
        T: Drop,
        ensures { self.new ≡ take (length self.old - 1) self.old }
    {
        let _ = self.items.pop();
    }

    /// Replaces the value at `index`.
    pub(crate) fn set(&mut self, index: usize, value: T)
    where
        T: Drop,
        requires { index < length self.now }
        ensures { self.new ≡ slice_set self.old index value }
    {
        self.items[index] = value;
    }
}

/// Does not allocate.
impl<T> From<Vec<T>> for Seq<T> {
    ghost from_gives = { λ items seq. seq ≡ items.items };

    fn from(items: Vec<T>) -> Seq<T> {
        Seq { items }
    }
}

/// Does not allocate.
impl<T> From<Seq<T>> for Vec<T> {
    ghost from_gives = { λ seq items. items.items ≡ seq };

    fn from(seq: Seq<T>) -> Vec<T> {
        let Seq { items } = seq;
        items
    }
}
