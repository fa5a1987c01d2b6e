// Lists by name, which grow at their ends.

ghost use Rattle.std.specs.Prelude.{◌≡◌, ◌++◌, ◌∷◌, ◌<◌, [], List, ℕ, Some, OnOk, IfOk, slice_get, vec_len};
ghost use Rattle.base_maps.specs.NameMap.{get};
ghost use Rattle.show_names.specs.Gathered.{items_of, IsSound, list_of, items_at, IsPushed};

use base_lists::Items;
use base_maps::Table;
use std::alloc::{AllocError, Global};

/// A list for each name, empty where nothing was pushed.
pub struct Gathered<T: Drop> {
    /// The number of each name that has a list.
    numbers: Table<usize>,
    /// The lists by their numbers.
    lists: Vec<Items<T>>,
}

// Written by hand, since who drops a type whose drop is derived proves the drop of each type inside again.
impl<T: Drop> Drop for Gathered<T> {
    fn drop(self) {
        let Gathered {
            numbers: _numbers,
            lists: _lists,
        } = self;
    }
}

impl<T: Drop> Gathered<T> {
    /// No list.
    pub fn new(alloc: Global) -> Gathered<T>
        ensures sound { IsSound result }
        ensures empty { (name : List ℕ) → list_of result name ≡ [] }
    {
        Gathered {
            numbers: Table::new(alloc),
            lists: Vec::new(alloc),
        }
    }

    /// The list of a name.
    #[tactic(auto, unfolding(crate::specs::Gathered::list_of))]
    pub fn of(&self, name: &str) -> &[T]
        ensures { result.now ≡ list_of self.now name.now }
    {
        match self.numbers.get(name) {
            Some(number) => self.numbered(number),
            None => &[],
        }
    }

    // The list of a number.
    fn numbered(&self, number: usize) -> &[T]
        ensures { result.now ≡ items_of (slice_get self.now.lists.items number) }
    {
        match self.lists.get(number) {
            Some(list) => list.as_slice(),
            None => &[],
        }
    }

    /// Adds an item to the list of a name.
    pub fn push(&mut self, alloc: Global, name: &str, item: T) -> Result<(), AllocError>
        requires { IsSound self.old }
        ensures sound { OnOk result (IsSound self.new) }
        ensures list { OnOk result ((other : List ℕ) → list_of self.new other
            ≡ list_of self.old other ++ items_at name.now (item ∷ []) other) }
    {
        let number = self.number(alloc, name)?;
        self.push_at(number, item)
    }

    // The number of a name, a new one where it has none.
    fn number(&mut self, alloc: Global, name: &str) -> Result<usize, AllocError>
        requires { IsSound self.old }
        ensures sound { OnOk result (IsSound self.new) }
        ensures same { OnOk result ((other : List ℕ) → list_of self.new other
            ≡ list_of self.old other) }
        ensures found { IfOk result (λ number. get self.new.numbers name.now ≡ Some number) }
    {
        if let Some(number) = self.numbers.get(name) {
            return Ok(number);
        }
        let number = self.lists.len();
        self.lists.push(Items::new(alloc))?;
        self.numbers.put(alloc, name, number)?;
        Ok(number)
    }

    // Adds an item to the list of a number.
    fn push_at(&mut self, number: usize, item: T) -> Result<(), AllocError>
        requires { number < vec_len self.old.lists }
        ensures numbers { self.new.numbers ≡ self.old.numbers }
        ensures lists { OnOk result (IsPushed self.old.lists.items number (item ∷ [])
            self.new.lists.items) }
    {
        let list = &mut self.lists[number];
        list.push(item)
    }
}
