//! Tables: an entry for each of some names.
#![tactic(auto)]

mod numbers;
mod places;

ghost use Rattle.std.specs.Prelude.{◌≡◌, ◌++◌, OnOk, OnErr, option_copied};
ghost use Rattle.std.specs.BTreeMap.{get_by_text};
ghost use Rattle.base_maps.specs.NameMap as map;
ghost use Rattle.base_maps.specs.Places.{HasPut, find, numbered};

use indexmap::IndexMap;
use numbers::number_of;
use places::{Places, Short};
use std::alloc::{AllocError, Global};
use std::collections::BTreeMap;
use std::marker::Model;

/// A table: an entry for each of some names, in the order in which they were first put in. A name of at most 15 bytes is there as a
/// number, which takes no memory of its own and is compared at once. Names whose place is full, and longer ones, are apart and sorted, so
/// that no choice of names makes a search slow. Contracts see the finite map.
pub struct Table<X: Copy> {
    short: IndexMap<Short, X, Places>,
    // How many names have each place.
    taken: Vec<u8>,
    crowded: BTreeMap<u128, X>,
    long: BTreeMap<String, X>,
}

// Written by hand, since who drops a type whose drop is derived proves the drop of each type inside again.
impl<X: Copy> Drop for Table<X> {
    fn drop(self) {
        let Table {
            short: _short,
            taken: _taken,
            crowded: _crowded,
            long: _long,
        } = self;
    }
}

impl<X: Copy> Model for Table<X> {
    ghost use Rattle.std.specs.Prelude.{◌++◌};
    ghost use Rattle.base_maps.specs.NameMap.{NameMap, code};
    ghost use Rattle.base_maps.specs.ByText.{by_text};
    ghost use Rattle.base_maps.specs.Places.{numbered};

    ghost Value = { NameMap X };

    ghost coded = { code X.code };

    ghost view = { λ t. by_text (numbered (λ s. s.number) t.short.entries ++ t.crowded.entries) t.long.entries };
}

// The entry of a short name whose place is full. Not inlined, so that a usual look-up is short.
#[inline(never)]
fn find_crowded<X: Copy>(crowded: &BTreeMap<u128, X>, number: u128) -> Option<&X>
    ensures { option_copied result ≡ find number crowded.now.entries }
{
    crowded.get(&number)
}

// The entry of another name.
#[inline(never)]
fn find_long<'t, X: Copy>(long: &'t BTreeMap<String, X>, name: &str) -> Option<&'t X>
    ensures { option_copied result ≡ get_by_text long.now name.now }
{
    long.get(name)
}

// Counts all names over so many places.
#[inline(never)]
fn count_over<X: Copy>(
    taken: &mut Vec<u8>,
    short: &IndexMap<Short, X, Places>,
    places: usize,
) -> Result<(), AllocError> {
    taken.clear();
    taken.resize(places, 0)?;
    for name in short.keys() {
        places::count(taken.as_mut_slice(), name.number);
    }
    Ok(())
}

// Gives the number of a short name its entry.
fn put_short<X: Copy>(
    short: &mut IndexMap<Short, X, Places>,
    taken: &mut Vec<u8>,
    crowded: &mut BTreeMap<u128, X>,
    number: u128,
    entry: X,
) -> Result<(), AllocError>
    ensures ok { OnOk result (HasPut
        (numbered (λ s. s.number) short.old.entries ++ crowded.old.entries)
        (numbered (λ s. s.number) short.new.entries ++ crowded.new.entries) number entry) }
    ensures err { OnErr result ((short.new.entries ≡ short.old.entries)
        × (crowded.new.entries ≡ crowded.old.entries)) }
{
    let name = Short { number };
    if places::is_full(taken.as_slice(), short.len(), number) && !short.contains_key(&name) {
        crowded.insert(number, entry)?;
        return Ok(());
    }
    if let Some(places) = places::wanted(taken.as_slice(), short.len()) {
        count_over(taken, short, places)?;
    }
    if short.insert(name, entry)?.is_none() {
        places::count(taken.as_mut_slice(), number);
    }
    Ok(())
}

impl<X: Copy> Table<X> {
    /// No entry.
    pub fn new(alloc: Global) -> Table<X>
        ensures { result ≡ map.empty }
    {
        Table {
            short: IndexMap::with_hasher(alloc, Places),
            taken: Vec::new(alloc),
            crowded: BTreeMap::new(alloc),
            long: BTreeMap::new(alloc),
        }
    }

    /// The entry of a name.
    pub fn get(&self, name: &str) -> Option<X>
        ensures { result ≡ map.get self.now name.now }
    {
        self.find(name).copied()
    }

    /// The entry of a name, in the table.
    pub fn find(&self, name: &str) -> Option<&X>
        ensures { option_copied result ≡ map.get self.now name.now }
    {
        match number_of(name) {
            Some(number) => match self.short.get(&Short { number }) {
                Some(entry) => Some(entry),
                None => find_crowded(&self.crowded, number),
            },
            None => find_long(&self.long, name),
        }
    }

    /// Adds a name with its entry, or gives it the entry where it is there.
    pub fn put(&mut self, alloc: Global, name: &str, entry: X) -> Result<(), AllocError>
        ensures ok { OnOk result (self.new ≡ map.insert self.old name.now entry) }
        ensures err { OnErr result (self.new ≡ self.old) }
    {
        match number_of(name) {
            Some(number) => put_short(
                &mut self.short,
                &mut self.taken,
                &mut self.crowded,
                number,
                entry,
            )?,
            None => {
                self.long.insert(String::from_str(alloc, name)?, entry)?;
            }
        }
        Ok(())
    }

    /// Adds a name with its entry, if it is not there.
    pub fn put_new(&mut self, alloc: Global, name: &str, entry: X) -> Result<(), AllocError>
        ensures ok { OnOk result (self.new ≡ map.with_new self.old name.now entry) }
        ensures err { OnErr result (self.new ≡ self.old) }
    {
        if self.get(name).is_some() {
            return Ok(());
        }
        self.put(alloc, name, entry)
    }
}
