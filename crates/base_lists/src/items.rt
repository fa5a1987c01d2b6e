// Lists that grow.

ghost use Rattle.std.specs.Prelude.{◌≡◌, ◌<◌, ◌++◌, ◌∷◌, [], length, slice_set, None, IfOk, IfSome, OnOk, OnErr};

use std::alloc::{AllocError, Global};
use std::marker::Model;

/// A list. Contracts see its items, and nothing of how they are kept.
pub struct Items<T: Drop> {
    items: Vec<T>,
}

// Written by hand, since who drops a type whose drop is derived proves the drop of each type inside again.
impl<T: Drop> Drop for Items<T> {
    fn drop(self) {
        let Items { items: _items } = self;
    }
}

impl<T: Drop> Model for Items<T> {
    ghost use Rattle.std.specs.Prelude.{List};

    ghost Value = { List T };

    ghost view = { λ l. l.items.items };
}

impl<T: Drop> Items<T> {
    /// No item.
    pub fn new(alloc: Global) -> Items<T>
        ensures { result ≡ [] }
    {
        Items {
            items: Vec::new(alloc),
        }
    }

    /// The items.
    pub fn as_slice(&self) -> &[T]
        ensures { result.now ≡ self.now }
    {
        self.items.as_slice()
    }

    /// Adds an item at the end.
    pub fn push(&mut self, item: T) -> Result<(), AllocError>
        ensures ok { OnOk result (self.new ≡ self.old ++ item ∷ []) }
        ensures err { OnErr result (self.new ≡ self.old) }
    {
        self.items.push(item)?;
        Ok(())
    }
}

impl<T: Copy> Items<T> {
    /// Adds an item before all others.
    pub fn push_first(&mut self, item: T) -> Result<(), AllocError>
        ensures { OnOk result (self.new ≡ item ∷ self.old) }
    {
        self.items.insert(0, item)?;
        Ok(())
    }

    /// Takes the first item out, if there is one.
    pub fn take_first(&mut self) -> Option<T>
        ensures none { result ≡ None → self.old ≡ [] }
        ensures some { IfSome result (λ x. self.old ≡ x ∷ self.new) }
    {
        if self.items.is_empty() {
            return None;
        }
        Some(self.items.remove(0))
    }

    /// Replaces the item at an index.
    pub fn set(&mut self, index: usize, item: T)
        requires { index < length self.old }
        ensures { self.new ≡ slice_set self.old index item }
    {
        self.items[index] = item;
    }

    /// A copy of the items, on memory of its own.
    pub fn try_copy(&self, alloc: Global) -> Result<Items<T>, AllocError>
        ensures { IfOk result (λ r. r ≡ self.now) }
    {
        let mut items = Vec::new(alloc);
        items.extend_from_slice(self.items.as_slice())?;
        Ok(Items { items })
    }
}
