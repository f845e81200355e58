ghost use Rattle.std.specs.Prelude.{◌≡◌, map, IfOk};
ghost use Rattle.std.specs.FinMap.{get, keys};
ghost use Rattle.spatial_hash.specs.Contents.{contents};

use spatial_hash::HashTable;
use std::alloc::{AllocError, Global};
use voxel_block::{BlockKey, NoMemory};

/// The cell that a table names for a key.
pub(crate) fn cell_of(table: &HashTable, key: BlockKey) -> Option<u32>
    ensures { result ≡ get (contents table.now) key }
{
    match table.find(key) {
        Some(entry) => Some(table.cell_at(entry)),
        None => None,
    }
}

/// The keys of a table, in order.
pub(crate) fn keys_of(alloc: Global, table: &HashTable) -> Result<Vec<BlockKey>, NoMemory>
    ensures { IfOk result (λ v. v.items ≡ keys (contents table.now)) }
{
    let entries = table.entries(alloc)?;
    let keys = first_of_each(alloc, &entries)?;
    Ok(keys)
}

/// The keys of entries.
fn first_of_each(alloc: Global, entries: &[(BlockKey, u32)]) -> Result<Vec<BlockKey>, AllocError>
    ensures { IfOk result (λ v. v.items ≡ map (λ e. e.0) entries.now) }
{
    let mut keys = Vec::new(alloc);
    for entry in entries {
        keys.push(entry.0)?;
    }
    Ok(keys)
}
