ghost use Rattle.std.specs.Prelude.{◌≡◌, Some, if◌then◌else◌, IfSome, OnOk};
ghost use Rattle.std.specs.FinMap.{contains_key, get, insert};
ghost use Rattle.spatial_hash.specs.Contents.{contents};

use super::*;
use std::test::Fail;
use voxel_block::BlockKey;

fn is_shared<T: Send + Sync>(_value: &T) {}

fn along_x(x: u8) -> BlockKey {
    BlockKey {
        x: i16::from(x),
        y: 0,
        z: 0,
    }
}

/// What `insert` returns, where the table does not have the key.
fn put(table: &mut HashTable, key: BlockKey, cell: u32) -> Option<Result<u32, Full>>
    ensures { IfSome result (λ r. OnOk r (contents table.new ≡ insert (contents table.old) key cell)) }
{
    match table.find(key) {
        Some(_) => None,
        None => Some(table.insert(key, cell)),
    }
}

/// Sets the cell of a key, where the table has it.
fn move_to(table: &mut HashTable, key: BlockKey, cell: u32)
    ensures { contents table.new ≡ (if contains_key (contents table.old) key then insert (contents table.old) key cell else contents table.old) }
{
    if let Some(entry) = table.find(key) {
        table.set_cell(entry, cell);
    }
}

/// The cell of a key.
fn cell_of(table: &HashTable, key: BlockKey) -> Option<u32>
    ensures { result ≡ get (contents table.now) key }
{
    match table.find(key) {
        Some(entry) => Some(table.cell_at(entry)),
        None => None,
    }
}

#[test]
fn a_bucket_takes_four_keys(rt: HostRuntime) -> Result<(), Fail> {
    let mut table = HashTable::make(rt.alloc(), 1, 0)?;
    for i in 0..4_u8 {
        assert_eq!(rt;
            put(&mut table, along_x(i), 10),
            Some(Ok(u32::from(i))),
            "key {i}"
        );
    }
    assert_eq!(rt; put(&mut table, along_x(4), 10), Some(Err(Full)));
    is_shared(&Full);
    assert_eq!(rt;
        format!(in rt.alloc(); "{Full}")?.as_str(),
        "no entry is left for the key"
    );
    for i in 0..4_u8 {
        assert_eq!(rt; table.find(along_x(i)), Some(u32::from(i)), "key {i}");
    }
    assert_eq!(rt; table.find(along_x(4)), None);
    Ok(())
}

#[test]
fn a_key_goes_to_its_bucket(rt: HostRuntime) -> Result<(), Fail> {
    for (name, x, y, z, entry) in [
        ("two axes", 0, -12, 12, 0),
        ("one axis", 0, 0, 12, 16),
        ("its neighbour", 0, 0, 13, 44),
    ] {
        let mut table = HashTable::make(rt.alloc(), 16, 4)?;
        is_shared(&table);
        assert_eq!(rt; (table.buckets(), table.nodes()), (16, 4));
        let key = BlockKey { x, y, z };
        assert_eq!(rt; put(&mut table, key, u32::MAX), Some(Ok(entry)), "{name}");
        if let Some(e) = table.find(key) {
            assert_eq!(rt; table.word_at(e), key.word());
        }
        assert_eq!(rt; cell_of(&table, key), Some(u32::MAX), "{name}");
        move_to(&mut table, key, 5);
        assert_eq!(rt; cell_of(&table, key), Some(5), "{name}");
    }
    Ok(())
}

#[test]
fn a_removed_key_leaves_the_others(rt: HostRuntime) -> Result<(), Fail> {
    let mut table = HashTable::make(rt.alloc(), 1, 4)?;
    for i in 0..6_u8 {
        let cell = u32::from(i);
        assert_eq!(rt; put(&mut table, along_x(i), cell), Some(Ok(cell)));
    }
    assert!(rt; table.remove(along_x(1)));
    assert!(rt; !table.remove(along_x(1)));
    assert_eq!(rt; table.find(along_x(1)), None);
    let left = [
        (along_x(0), 0),
        (along_x(2), 2),
        (along_x(3), 3),
        (along_x(4), 4),
        (along_x(5), 5),
    ];
    for (key, cell) in left {
        assert_eq!(rt; cell_of(&table, key), Some(cell), "cell {cell}");
    }
    let entries = table.entries(rt.alloc())?;
    assert_eq!(rt; entries.as_slice(), left.as_slice());
    Ok(())
}

#[test]
fn the_highest_node_fills_a_hole(rt: HostRuntime) -> Result<(), Fail> {
    let mut table = HashTable::make(rt.alloc(), 2, 2)?;
    for x in [0, 2, 4, 6, 8, 1, 3, 5, 7, 9] {
        assert!(rt; matches!(put(&mut table, along_x(x), u32::from(x)), Some(Ok(_))));
    }
    assert_eq!(rt; table.linked(), 2);
    assert!(rt; table.remove(along_x(0)));
    assert_eq!(rt; table.linked(), 1);
    for x in 1..10_u8 {
        assert_eq!(rt; cell_of(&table, along_x(x)), Some(u32::from(x)), "key {x}");
    }
    assert!(rt; matches!(put(&mut table, along_x(11), 11), Some(Ok(_))));
    assert_eq!(rt; table.linked(), 2);
    Ok(())
}
