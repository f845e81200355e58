use super::*;
use crate::NotAllowed;
use spatial_hash::HashTable;
use std::test::Fail;
use voxel_block::BlockKey;

fn is_shared<T: Send + Sync>(_value: &T) {}

fn along_z(z: i16) -> BlockKey {
    BlockKey { x: 0, y: 0, z }
}

fn seen(word: u32, z: i16) -> Touch {
    Touch::Seen {
        word,
        key: along_z(z),
    }
}

fn place(entry: u32, z: i16) -> Touch {
    Touch::Place {
        entry,
        key: along_z(z),
    }
}

fn fill(z: i16) -> Touch {
    Touch::Fill { key: along_z(z) }
}

#[test]
fn two_seats_touch_two_keys(rt: HostRuntime) -> Result<(), Fail> {
    let table = HashTable::make(rt.alloc(), 1, 1)?;
    let mut core = TouchCore::make(rt.alloc(), &table, 2)?;
    is_shared(&core);
    is_shared(&NotAllowed);
    let steps = [
        (0, place(0, 0), Ok(())),
        // the word is not 0
        (1, place(0, 0), Err(NotAllowed)),
        // word 0 was not seen
        (1, place(1, 1), Err(NotAllowed)),
        (1, seen(0, 1), Ok(())),
        // the key stands before
        (1, place(1, 0), Err(NotAllowed)),
        (1, place(1, 1), Ok(())),
        (0, Touch::Node, Ok(())),
        // the seat has an unlinked node
        (0, Touch::Node, Err(NotAllowed)),
        // the seat has no node
        (1, fill(0), Err(NotAllowed)),
        // the node is not filled
        (0, Touch::Link { word: 5 }, Err(NotAllowed)),
    ];
    for (seat, touch, answer) in steps {
        assert_eq!(rt; core.step(seat, touch), answer, "seat {seat}: {touch:?}");
    }
    Ok(())
}

#[test]
fn a_fifth_key_is_linked(rt: HostRuntime) -> Result<(), Fail> {
    let table = HashTable::make(rt.alloc(), 1, 1)?;
    let mut core = TouchCore::make(rt.alloc(), &table, 2)?;
    // the words are 4 entries, the node's key, the bucket's link and the node's link
    let steps = [
        (0, place(0, 0), Ok(())),
        (0, place(1, 1), Ok(())),
        (0, place(2, 2), Ok(())),
        (0, place(3, 3), Ok(())),
        (0, Touch::Node, Ok(())),
        (0, fill(3), Ok(())),
        // the key stands before
        (0, Touch::Link { word: 5 }, Err(NotAllowed)),
        (0, fill(4), Ok(())),
        // neither a key word nor the node's own link is the next link
        (0, Touch::Link { word: 4 }, Err(NotAllowed)),
        (0, Touch::Link { word: 6 }, Err(NotAllowed)),
        (0, Touch::Link { word: 5 }, Ok(())),
        (0, Touch::Link { word: 6 }, Err(NotAllowed)),
        // two numbers past the nodes
        (0, Touch::Node, Ok(())),
        (0, Touch::Node, Ok(())),
        (0, fill(5), Err(NotAllowed)),
        // the entries were not seen
        (1, seen(5, 4), Err(NotAllowed)),
        (1, seen(0, 4), Ok(())),
        (1, seen(1, 4), Ok(())),
        (1, seen(2, 4), Ok(())),
        (1, seen(3, 4), Ok(())),
        // the link was not seen
        (1, seen(4, 4), Err(NotAllowed)),
        (1, seen(5, 4), Ok(())),
        (1, seen(4, 4), Ok(())),
        // the key stands before
        (1, seen(6, 4), Err(NotAllowed)),
        // the node's key word is next, but not 0, and its link is 0
        (1, place(4, 5), Err(NotAllowed)),
        (1, seen(6, 5), Ok(())),
        // no such words, no such seat
        (1, seen(7, 5), Err(NotAllowed)),
        (1, place(7, 5), Err(NotAllowed)),
        (2, seen(0, 0), Err(NotAllowed)),
    ];
    for (seat, touch, answer) in steps {
        assert_eq!(rt; core.step(seat, touch), answer, "seat {seat}: {touch:?}");
    }
    Ok(())
}
