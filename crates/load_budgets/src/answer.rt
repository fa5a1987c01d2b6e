// What the units and tasks of a configuration cost at most, and paths of that cost.

use base_lists::Items;

/// The greatest cost of each unit, in the order of the text, and of the program of each PROGRAM line, in their order (own rule).
pub struct Budget {
    pub units: Items<u32>,
    pub tasks: Items<u32>,
}

// Written by hand, since who drops a type whose drop is derived proves the drop of each type inside again.
impl Drop for Budget {
    fn drop(self) {
        let Budget {
            units: _units,
            tasks: _tasks,
        } = self;
    }
}

/// The lines of a control path of the greatest cost, of each unit in the order of the text (own rule). The implicit return is
/// at the line of the END word.
pub struct Path {
    pub units: Items<Items<u32>>,
}

// Written by hand, as that of `Budget` is.
impl Drop for Path {
    fn drop(self) {
        let Path { units: _units } = self;
    }
}
