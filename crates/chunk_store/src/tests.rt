ghost use Rattle.std.specs.Prelude.{◌≡◌, IsTrue};
ghost use Rattle.std.specs.FinSet.{contains};
ghost use Rattle.voxel_block.specs.Chunks.{chunk_of};

use super::*;
use camera::{Camera, CameraFields};
use fixed_geom::{Pose, PoseRows, Vec3};
use std::alloc::Global;
use std::test::Fail;
use voxel_block::{BlockKey, NoMemory, Packed};

const CAMERA: CameraFields = CameraFields {
    width: 1,
    height: 1,
    fx: 65536,
    fy: 65536,
    cx: 0,
    cy: 0,
    unit: 1000,
    near: 500000,
    far: 2000000,
    voxel: 10000,
    mu: 40000,
    radius: 2100000,
    centre: 1020000,
};

fn is_shared<T: Send + Sync>(_value: &T) {}

fn key(x: i16, y: i16, z: i16) -> BlockKey {
    BlockKey { x, y, z }
}

// A block of which each byte is this one.
fn block(alloc: Global, byte: u8) -> Result<Packed, NoMemory> {
    let mut packed = Packed::make(alloc)?;
    packed.of_bytes(&[byte; 1542]);
    Ok(packed)
}

// Opens the chunk of a key, and puts a block there where the store has none.
fn put(store: &mut ChunkStore, alloc: Global, key: BlockKey, byte: u8) -> Result<(), NoMemory> {
    let packed = block(alloc, byte)?;
    store.reserve_out(alloc, &[key])?;
    if store.peek(key).is_none() {
        store.put_reserved(key, packed);
    }
    Ok(())
}

// Takes a block out and puts it back, which takes no memory.
fn put_back(store: &mut ChunkStore, key: BlockKey) -> bool {
    match store.take(key) {
        Some(packed) => {
            store.put_reserved(key, packed);
            true
        }
        None => false,
    }
}

// The first byte of the block of a key.
fn first(store: &ChunkStore, key: BlockKey) -> Option<u8> {
    store.peek(key)?.bytes().first().copied()
}

#[test]
fn blocks_are_put_and_taken(rt: HostRuntime) -> Result<(), Fail> {
    let mut store = ChunkStore::make(rt.alloc());
    is_shared(&store);
    let [one, two, three, four] = [
        key(0, 0, 12),
        key(625, 0, 12),
        key(-1, -1, -1),
        key(-32768, 32767, 0),
    ];
    store.reserve_out(rt.alloc(), &[one, two, three, four])?;
    assert_eq!(rt; store.len(), 0);
    for (key, byte) in [(one, 1), (two, 2), (three, 3), (four, 4)] {
        assert_eq!(rt; first(&store, key), None);
        put(&mut store, rt.alloc(), key, byte)?;
        assert_eq!(rt; first(&store, key), Some(byte));
    }
    assert_eq!(rt; store.len(), 4);
    assert_eq!(rt;
        store.keys(rt.alloc())?.as_slice(),
        [four, three, one, two].as_slice()
    );
    assert!(rt; put_back(&mut store, two));
    let taken = store.take(three);
    assert_eq!(rt;
        taken.as_ref().map(Packed::bytes),
        Some([3; 1542].as_slice())
    );
    assert!(rt; !put_back(&mut store, three));
    assert_eq!(rt; store.len(), 3);
    assert_eq!(rt;
        store.keys(rt.alloc())?.as_slice(),
        [four, one, two].as_slice()
    );
    Ok(())
}

#[test]
fn keys_of_one_chunk_and_of_its_neighbours_stay_apart(rt: HostRuntime) -> Result<(), Fail> {
    let mut store = ChunkStore::make(rt.alloc());
    let keys = [
        key(-1, 0, 0),
        key(0, 0, 0),
        key(0, 0, 7),
        key(0, 7, 0),
        key(0, 7, 7),
        key(7, 0, 0),
        key(7, 0, 7),
        key(7, 7, 0),
        key(7, 7, 7),
        key(8, 7, 7),
    ];
    for (key, byte) in keys.iter().zip(1u8..) {
        put(&mut store, rt.alloc(), *key, byte)?;
    }
    assert_eq!(rt; store.keys(rt.alloc())?.as_slice(), keys.as_slice());
    for (key, byte) in keys.iter().zip(1u8..) {
        assert_eq!(rt; first(&store, *key), Some(byte));
        assert!(rt; store.take(*key).is_some());
        assert_eq!(rt; first(&store, *key), None);
    }
    assert_eq!(rt; store.len(), 0);
    Ok(())
}

#[test]
fn active_keys_are_those_that_the_camera_names(rt: HostRuntime) -> Result<(), Fail> {
    let camera = Camera::make(CAMERA).map_err(|_| Fail::from("camera"))?;
    let one = 1 << 30;
    let rows = PoseRows {
        r: [one, 0, 0, 0, one, 0, 0, 0, one],
        t: Vec3 { x: 0, y: 0, z: 0 },
    };
    let pose = Pose::accept(&rows).map_err(|_| Fail::from("pose"))?;
    let mut store = ChunkStore::make(rt.alloc());
    for x in -30..31 {
        for (y, z) in [(8, 16), (-8, 12), (25, 0), (0, 40)] {
            put(&mut store, rt.alloc(), key(x, y, z), 1)?;
        }
    }
    let active = store.keys_active(rt.alloc(), &camera, &pose)?;
    let mut named = 0;
    for key in store.keys(rt.alloc())? {
        if camera.active(&pose, key) {
            assert_eq!(rt; active.get(named).copied(), Some(key));
            named += 1;
        }
    }
    assert_eq!(rt; active.len(), named);
    assert!(rt; named > 0);
    assert!(rt; named < store.len());
    Ok(())
}

// The first bytes of all blocks that come with this key.
fn first_of_each(alloc: Global, store: &ChunkStore, key: BlockKey) -> Result<Vec<u8>, Fail> {
    let mut firsts = Vec::new(alloc);
    for (given, packed) in store.blocks() {
        if given == key {
            firsts.push(packed.bytes()[0])?;
        }
    }
    Ok(firsts)
}

#[test]
fn each_block_comes_once(rt: HostRuntime) -> Result<(), Fail> {
    let mut store = ChunkStore::make(rt.alloc());
    assert_eq!(rt; store.blocks().count(), 0);
    // The last three share a chunk, of which the first and the last place are two. Others stay empty.
    let (first, second, last) = (key(-8, -8, -8), key(-8, -8, -7), key(-1, -1, -1));
    store.reserve_out(rt.alloc(), &[key(80, 0, 0), key(3, 4, 5), key(-80, 0, 0)])?;
    assert_eq!(rt; store.blocks().count(), 0);
    let keys = [key(3, 4, 5), first, second, last];
    for (key, byte) in keys.iter().zip(1u8..) {
        put(&mut store, rt.alloc(), *key, byte)?;
    }
    assert_eq!(rt; store.blocks().count(), 4);
    for (key, byte) in keys.iter().zip(1u8..) {
        assert_eq!(rt;
            first_of_each(rt.alloc(), &store, *key)?.as_slice(),
            [byte].as_slice()
        );
    }
    assert!(rt; store.take(second).is_some());
    assert_eq!(rt; store.blocks().count(), 3);
    assert!(rt; first_of_each(rt.alloc(), &store, second)?.is_empty());
    Ok(())
}
