ghost use Rattle.std.specs.Prelude.{◌≡◌, ◌↔◌, ◌∷◌, ◌++◌, [], length, IsTrue, OnOk, OnErr};

use std::alloc::{AllocError, Global};
use std::marker::Model;

/// A list, which contracts see as one: without capacities and pointers.
#[derive(Debug, Drop)]
pub struct List<T> {
    items: Vec<T>,
}

impl<T> Model for List<T> {
    ghost use Rattle.std.specs.Prelude as prelude;

    ghost Value = { prelude.List T };

    ghost view = { λ list. list.items.items };
}

impl<T> List<T> {
    /// The list of a `Vec`.
    pub fn new(items: Vec<T>) -> Self
        ensures { result ≡ items.items }
    {
        List { items }
    }

    /// The empty list.
    pub fn empty(alloc: Global) -> Self
        ensures { result ≡ [] }
    {
        List {
            items: Vec::new(alloc),
        }
    }

    /// The items as a slice.
    pub fn as_slice(&self) -> &[T]
        ensures { result.now ≡ self.now }
    {
        self.items.as_slice()
    }

    /// The items as a `Vec`.
    pub fn into_vec(self) -> Vec<T>
        ensures { result.items ≡ self }
    {
        self.items
    }
}

impl<T: Drop> List<T> {
    /// Appends an item. Want of memory leaves the list as it was.
    pub fn push(&mut self, item: T) -> Result<(), AllocError>
        ensures ok { OnOk result (self.new ≡ self.old ++ item ∷ []) }
        ensures err { OnErr result (self.new ≡ self.old) }
    {
        match self.items.push(item) {
            Ok(()) => Ok(()),
            Err(_) => Err(AllocError),
        }
    }
}

impl<T: Clone> Clone for List<T> {
    ghost use Rattle.std.specs.List.{AllZip};

    ghost is_clone = { λ list copy. AllZip T.is_clone list copy };

    fn clone(&self) -> Result<List<T>, AllocError> {
        let items = self.items.clone()?;
        Ok(List { items })
    }
}
