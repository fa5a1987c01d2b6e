// Lists in fixed room.

ghost use Rattle.std.specs.Prelude.{◌≡◌, ◌<◌, ◌≤◌, ◌++◌, ◌∷◌, [], length, slice_set};

use arrayvec::ArrayVec;
use std::marker::Model;

/// A list of at most `N` items that takes no memory. Contracts see its items.
#[derive(Drop)]
pub struct Bounded<T: Drop, const N: usize> {
    items: ArrayVec<T, N>,
}

impl<T: Drop, const N: usize> Model for Bounded<T, N> {
    ghost use Rattle.std.specs.Prelude.{List};

    ghost Value = { List T };

    ghost view = { λ r. r.items.items };
}

impl<T: Drop + Default, const N: usize> Bounded<T, N> {
    /// No item.
    pub fn new() -> Bounded<T, N>
        ensures { result ≡ [] }
    {
        Bounded {
            items: ArrayVec::new(),
        }
    }
}

impl<T: Copy + Drop + Default, const N: usize> Bounded<T, N> {
    /// A copy of items, for which there is room.
    pub fn from_slice(items: &[T]) -> Bounded<T, N>
        requires { length items.now ≤ N }
        ensures { result ≡ items.now }
    {
        let mut list = Bounded::new();
        'items: for item in items {
            list.push(*item);
        }
        list
    }
}

impl<T: Drop, const N: usize> Bounded<T, N> {
    /// The items.
    pub fn as_slice(&self) -> &[T]
        ensures { result.now ≡ self.now }
    {
        self.items.as_slice()
    }

    /// How many items there are.
    pub fn len(&self) -> usize
        ensures count { result ≡ length self.now }
        ensures fits { length self.now ≤ N }
    {
        self.items.len()
    }

    /// Replaces the item at an index.
    pub fn set(&mut self, index: usize, item: T)
        requires { index < length self.old }
        ensures { self.new ≡ slice_set self.old index item }
    {
        let items = self.items.as_mut_slice();
        items[index] = item;
    }

    /// Adds an item at the end.
    pub fn push(&mut self, item: T)
        requires { length self.old < N }
        ensures { self.new ≡ self.old ++ item ∷ [] }
    {
        self.items.push(item);
    }
}
