ghost use Rattle.std.specs.Prelude.{◌≡◌, ◌≢◌, ◌<◌, ◌+◌, ◌%◌, negsuc};
ghost use Rattle.std.specs.FinMap.{entries, from_entries};
ghost use Rattle.voxel_block.specs.Blocks.{by_index};
ghost use Rattle.voxel_block.specs.Keys.{key_cmp};

use super::*;
use std::collections::BTreeMap;
use std::test::Fail;

const NEW: Voxel = Voxel { f: 32767, w: 0 };

// A loop over the voxels of a block, each changed by a rule that knows its index.
fn weigh(block: &mut Block)
    ensures { block.new ≡ by_index (λ i v. record { f = v.f; w = i % 255 + 1 }) block.old }
{
    for i in 0..512_u16 {
        let f = block.get(i).f;
        let w = (i % 255 + 1) as u8;
        block.set(i, Voxel { f, w });
    }
}

// A map of blocks lists them in the order of their keys.
fn count(map: &BTreeMap<BlockKey, Block>) -> usize
    ensures { entries (from_entries {R = key_cmp} map.now.entries) ≡ map.now.entries }
{
    map.len()
}

// Gives each voxel of a layer this distance, and weight 1.
fn set_layer(block: &mut Block, z: u16, f: i16)
    requires layer { z < 8 }
    requires distance { f ≢ negsuc 32767 }
{
    for i in 64 * z..64 * z + 64 {
        block.set(i, Voxel { f, w: 1 });
    }
}

// Puts three bytes where the voxel of this index stands.
fn put(bytes: &mut [u8; 1542], i: u16, voxel: [u8; 3]) {
    let at = 6 + 3 * (i % 512) as usize;
    bytes[at] = voxel[0];
    bytes[at + 1] = voxel[1];
    bytes[at + 2] = voxel[2];
}

fn is_shared<T: Send + Sync>(_value: &T) {}

#[test]
fn voxels_stay_where_they_are_put(rt: HostRuntime) -> Result<(), Fail> {
    let mut block = Block::make(rt.alloc())?;
    is_shared(&block);
    assert_eq!(rt; block.len(), 512);
    for i in [0, 8, 64, 511] {
        assert_eq!(rt; block.get(i), NEW, "new voxel {i}");
    }
    block.set(8, Voxel { f: -32767, w: 255 });
    assert_eq!(rt; block.get(8), Voxel { f: -32767, w: 255 });
    for i in [0, 1, 7, 9, 64, 511] {
        assert_eq!(rt; block.get(i), NEW, "other voxel {i}");
    }
    weigh(&mut block);
    for (name, i, f, w) in [
        ("the first", 0, 32767, 1),
        ("the one that was set", 8, -32767, 9),
        ("one past 255", 300, 32767, 46),
        ("the last", 511, 32767, 2),
    ] {
        assert_eq!(rt; block.get(i), Voxel { f, w }, "{name}");
    }
    block.reset();
    for i in [0, 8, 300, 511] {
        assert_eq!(rt; block.get(i), NEW, "reset voxel {i}");
    }
    Ok(())
}

#[test]
fn keys_are_ordered_by_x_then_y_then_z(rt: HostRuntime) -> Result<(), Fail> {
    let mut map = BTreeMap::new(rt.alloc());
    for (x, y, z) in [(1, 0, 0), (0, 0, 1), (0, 1, 0), (-1, 9, 9), (0, 0, -1)] {
        map.insert(BlockKey { x, y, z }, Block::make(rt.alloc())?)?;
    }
    is_shared(&map);
    assert_eq!(rt; count(&map), 5);
    let order = [(-1, 9, 9), (0, 0, -1), (0, 0, 1), (0, 1, 0), (1, 0, 0)];
    for (key, (x, y, z)) in map.keys().zip(order) {
        assert_eq!(rt; *key, BlockKey { x, y, z });
    }
    Ok(())
}

#[test]
fn a_key_has_one_word(rt: HostRuntime) {
    let key = BlockKey { x: 0, y: 0, z: 12 };
    is_shared(&key);
    for (name, word, is) in [
        ("a key's", 140739635871757, Some(key)),
        ("below all", 0, None),
        ("above all", 0x1_0000_0000_0001, None),
    ] {
        assert_eq!(rt; BlockKey::of_word(word), is, "{name}");
    }
    assert_eq!(rt; key.word(), 140739635871757);
}

#[test]
fn a_block_is_packed_and_unpacked(rt: HostRuntime) -> Result<(), Fail> {
    let mut block = Block::make(rt.alloc())?;
    set_layer(&mut block, 0, 32767);
    set_layer(&mut block, 1, 24575);
    set_layer(&mut block, 2, 16383);
    set_layer(&mut block, 3, 8191);
    set_layer(&mut block, 4, 0);
    set_layer(&mut block, 5, -8192);
    set_layer(&mut block, 6, -16384);
    set_layer(&mut block, 7, -24576);
    let key = BlockKey { x: 0, y: 0, z: 12 };
    let mut packed = Packed::make(rt.alloc())?;
    is_shared(&packed);
    pack_into(&block, key, &mut packed);
    let bytes = packed.bytes();
    assert_eq!(rt; bytes.len(), 1542);
    assert_eq!(rt;
        &bytes[..9],
        [0, 0, 0, 0, 0, 0x0C, 0x7F, 0xFF, 1].as_slice()
    );
    assert_eq!(rt; &bytes[1539..], [0xA0, 0, 1].as_slice());
    let mut again = Block::make(rt.alloc())?;
    assert_eq!(rt; unpack_into(&packed, 1, &mut again), Ok(key));
    for i in 0..512 {
        assert_eq!(rt; again.get(i), block.get(i), "voxel {i}");
    }
    Ok(())
}

#[test]
fn a_key_is_packed_with_its_sign(rt: HostRuntime) -> Result<(), Fail> {
    let block = Block::make(rt.alloc())?;
    let mut packed = Packed::make(rt.alloc())?;
    let mut out = Block::make(rt.alloc())?;
    for (x, y, z, is) in [
        (-1, -32768, 32767, [0xFF, 0xFF, 0x80, 0, 0x7F, 0xFF]),
        (32767, -1, -32768, [0x7F, 0xFF, 0xFF, 0xFF, 0x80, 0]),
        (258, 0, -2, [1, 2, 0, 0, 0xFF, 0xFE]),
    ] {
        let key = BlockKey { x, y, z };
        pack_into(&block, key, &mut packed);
        assert_eq!(rt; &packed.bytes()[..6], is.as_slice());
        assert_eq!(rt; unpack_into(&packed, 0, &mut out), Ok(key));
    }
    Ok(())
}

#[test]
fn voxels_that_are_not_allowed_are_refused(rt: HostRuntime) -> Result<(), Fail> {
    let key = BlockKey { x: 1, y: 2, z: 3 };
    let kept = Voxel { f: -7, w: 9 };
    let mut new = Packed::make(rt.alloc())?;
    pack_into(&Block::make(rt.alloc())?, key, &mut new);
    let mut packed = Packed::make(rt.alloc())?;
    for (name, i, voxel, max_weight, is) in [
        (
            "distance 0 without weight",
            0,
            [0, 0, 0],
            100,
            Err(BadPacked { voxel: 0 }),
        ),
        (
            "the last one",
            511,
            [0x7F, 0xFE, 0],
            100,
            Err(BadPacked { voxel: 511 }),
        ),
        (
            "distance -32768",
            17,
            [0x80, 0, 5],
            100,
            Err(BadPacked { voxel: 17 }),
        ),
        ("distance -32767", 17, [0x80, 1, 5], 100, Ok(key)),
        (
            "a weight above",
            17,
            [0, 0, 101],
            100,
            Err(BadPacked { voxel: 17 }),
        ),
        ("the greatest weight", 17, [0, 0, 100], 100, Ok(key)),
        (
            "another one as well",
            300,
            [0, 0, 0],
            3,
            Err(BadPacked { voxel: 200 }),
        ),
    ] {
        let mut bytes = [0; 1542];
        bytes.copy_from_slice(new.bytes());
        put(&mut bytes, 200, [0, 0, 4]);
        put(&mut bytes, i, voxel);
        packed.of_bytes(&bytes);
        let mut out = Block::make(rt.alloc())?;
        out.set(5, kept);
        assert_eq!(rt; unpack_into(&packed, max_weight, &mut out), is, "{name}");
        let left = if is.is_ok() { NEW } else { kept };
        assert_eq!(rt; out.get(5), left, "{name}");
        assert_eq!(rt; out.get(0), NEW, "{name}");
    }
    Ok(())
}

#[test]
fn a_block_lies_in_the_chunk_of_its_coordinates_by_eight(rt: HostRuntime) -> Result<(), Fail> {
    for (block, chunk) in [
        ((0, 0, 12), (0, 0, 1)),
        ((7, 8, -1), (0, 1, -1)),
        ((-8, -9, 625), (-1, -2, 78)),
        ((-32768, 32767, 0), (-4096, 4095, 0)),
    ] {
        let (x, y, z) = block;
        let is = BlockKey { x, y, z }.chunk();
        is_shared(&is);
        assert_eq!(rt; (is.x, is.y, is.z), chunk);
    }
    Ok(())
}

#[test]
fn a_part_is_low_where_one_of_its_voxels_is(rt: HostRuntime) -> Result<(), Fail> {
    let mut block = Block::make(rt.alloc())?;
    assert_eq!(rt; block.low_parts(), [false; 8], "new");
    for (name, i, f, part) in [
        ("the first voxel, at 0", 0, 0, Some(0)),
        ("above 0", 0, 1, None),
        ("the last voxel of the first part", 219, -1, Some(0)),
        ("the first one of its half on x", 4, 0, Some(1)),
        ("the first one of its half on y", 32, 0, Some(2)),
        ("the halves on x and y", 36, 0, Some(3)),
        ("the first one of its half on z", 256, 0, Some(4)),
        ("the halves on x and z", 260, 0, Some(5)),
        ("the halves on y and z", 288, -32767, Some(6)),
        ("the last voxel", 511, 0, Some(7)),
    ] {
        block.reset();
        block.set(i, Voxel { f, w: 1 });
        let low = block.low_parts();
        for p in 0..8_usize {
            assert_eq!(rt; low[p], part == Some(p), "{name}, part {p}");
        }
    }
    Ok(())
}

#[test]
fn a_voxel_is_known_once_it_was_observed(rt: HostRuntime) {
    for (name, f, w, value) in [
        ("new", 32767, 0, None),
        ("observed once", -5, 1, Some(-5)),
        ("often, on the surface", 0, 255, Some(0)),
        ("far in front", 32767, 1, Some(32767)),
    ] {
        let voxel = Voxel { f, w };
        assert_eq!(rt; voxel.known_value(), value, "{name}");
        assert_eq!(rt; voxel.is_known(), value.is_some(), "{name}");
    }
}

#[test]
fn a_summary_counts_and_compares_the_known_voxels(rt: HostRuntime) -> Result<(), Fail> {
    let mut block = Block::make(rt.alloc())?;
    let new = block.summary();
    is_shared(&new);
    assert_eq!(rt; (new.known, new.least), (0, 32767), "new");
    for (name, i, voxel, known, least) in [
        ("one behind the surface", 17, (-5, 1), 1, 5),
        ("a nearer one in front", 300, (3, 2), 2, 3),
        ("the farthest one behind", 511, (-32767, 255), 3, 3),
        ("the farthest one in front", 0, (32767, 1), 4, 3),
        ("the nearest one new again", 300, (32767, 0), 3, 5),
        ("one that was new", 301, (32767, 0), 3, 5),
        ("one on the surface", 8, (0, 1), 4, 0),
    ] {
        let (f, w) = voxel;
        block.set(i, Voxel { f, w });
        let summary = block.summary();
        assert_eq!(rt; (summary.known, summary.least), (known, least), "{name}");
    }
    set_layer(&mut block, 1, -9);
    assert_eq!(rt; block.summary().known, 68, "a layer");
    block.reset();
    assert_eq!(rt; block.summary(), new, "reset");
    Ok(())
}

#[test]
fn the_errors_read_as_words(rt: HostRuntime) -> Result<(), Fail> {
    is_shared(&NoMemory);
    assert_eq!(rt;
        format!(in rt.alloc(); "{NoMemory}")?.as_str(),
        "out of memory"
    );
    let bad = BadPacked { voxel: 17 };
    is_shared(&bad);
    assert_eq!(rt;
        format!(in rt.alloc(); "{bad}")?.as_str(),
        "voxel 17 of a packed block is not allowed"
    );
    Ok(())
}
