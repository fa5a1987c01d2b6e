// Lists by name and manner.

ghost use Rattle.std.specs.Prelude.{◌≡◌, ◌∷◌, [], List, ℕ, OnOk};
ghost use Rattle.show_names.specs.declared.uses.Manner.{Manner};
ghost use Rattle.show_names.specs.Lines.{line_of, AreSound, ArePushed};

use crate::gathered::Gathered;
use crate::uses::Manner;
use std::alloc::{AllocError, Global};

/// A list for each name and manner, empty where nothing was pushed.
pub struct Lines<T: Drop> {
    read: Gathered<T>,
    written: Gathered<T>,
    called: Gathered<T>,
}

// Written by hand, since who drops a type whose drop is derived proves the drop of each type inside again.
impl<T: Drop> Drop for Lines<T> {
    fn drop(self) {
        let Lines {
            read: _read,
            written: _written,
            called: _called,
        } = self;
    }
}

impl<T: Drop> Lines<T> {
    /// No list.
    pub fn new(alloc: Global) -> Lines<T>
        ensures sound { AreSound result }
        ensures empty { (name : List ℕ) (manner : Manner) → line_of result name manner ≡ [] }
    {
        Lines {
            read: Gathered::new(alloc),
            written: Gathered::new(alloc),
            called: Gathered::new(alloc),
        }
    }

    /// The list of a name in a manner.
    pub fn of(&self, manner: Manner, name: &str) -> &[T]
        ensures { result.now ≡ line_of self.now name.now manner }
    {
        match manner {
            Manner::Read => self.read.of(name),
            Manner::Written => self.written.of(name),
            Manner::Called => self.called.of(name),
        }
    }

    /// Adds an item to the list of a name in a manner.
    pub fn push(
        &mut self,
        alloc: Global,
        manner: Manner,
        name: &str,
        item: T,
    ) -> Result<(), AllocError>
        requires { AreSound self.old }
        ensures sound { OnOk result (AreSound self.new) }
        ensures lines { OnOk result (ArePushed self.old self.new manner name.now (item ∷ [])) }
    {
        match manner {
            Manner::Read => self.read.push(alloc, name, item),
            Manner::Written => self.written.push(alloc, name, item),
            Manner::Called => self.called.push(alloc, name, item),
        }
    }
}
