// A table of numbers.

use base_maps::Table;
use std::alloc::{AllocError, Global};

// Puts entries of A and POS, and a new one of POS, which has one: what both are; then another of A: what A and B are.
fn entries(alloc: Global, table: &mut Table<u8>) -> Result<[Option<u8>; 4], AllocError> {
    table.put(alloc, "A", 1)?;
    table.put(alloc, "POS", 2)?;
    table.put_new(alloc, "POS", 4)?;
    let (first, second) = (table.get("A"), table.get("POS"));
    table.put(alloc, "A", 3)?;
    Ok([first, second, table.get("A"), table.get("B")])
}

#[test]
fn keeps_entries(rt: HostRuntime) {
    let mut table = Table::new(rt.alloc());
    let Ok(found) = entries(rt.alloc(), &mut table) else {
        panic!(&rt; "no memory")
    };
    assert!(rt; found == [Some(1), Some(2), Some(3), None]);
}
