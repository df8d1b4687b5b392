//! Names declared more than once.

use join_base::NoMemory;
use script_names::NameTable;
use std::alloc::Global;

const ROWS: &[(&[u8], u32)] = &[(b"door", 0), (b"motion", 10), (b"door", 20), (b"light", 30)];

fn push_all<'a>(table: &mut NameTable<'a, u32>, rows: &[(&'a [u8], u32)]) -> Result<(), NoMemory> {
    for (name, item) in rows {
        table.push(name, *item)?;
    }
    Ok(())
}

fn are_first(table: &NameTable<'_, u32>) -> bool {
    table.item_of(b"door") == Some(0)
        && table.item_of(b"light") == Some(30)
        && table.number_of(b"door") == Some(0)
        && table.number_of(b"light") == Some(3)
        && table.number_of(b"doo").is_none()
        && table.number_of(b"").is_none()
        && table.rows().len() == 4
}

fn are_first_declared(alloc: Global) -> bool {
    let mut table = NameTable::new(alloc);
    push_all(&mut table, ROWS).is_ok() && are_first(&table)
}

#[test]
fn a_name_stands_for_its_first_declaration(rt: HostRuntime) {
    assert!(rt; are_first_declared(rt.alloc()));
}
