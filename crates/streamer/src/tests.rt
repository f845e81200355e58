ghost use Rattle.std.specs.Prelude.{◌≡◌, if◌then◌else◌};
ghost use Rattle.std.specs.FinMap.{insert};
ghost use Rattle.voxel_block.specs.Blocks.{new_block};
ghost use Rattle.voxel_block.specs.Voxels.{IsVoxel};
ghost use Rattle.streamer.specs.Places.{blocks_of};

use super::*;
use camera::{Camera, CameraFields};
use fixed_geom::{Pose, PoseRows, Vec3};
use spatial_hash::{Full, HashTable};
use std::alloc::Global;
use std::test::Fail;
use voxel_block::{Block, BlockKey, NoMemory, Packed, Voxel};

const CAMERA: CameraFields = CameraFields {
    width: 1,
    height: 1,
    fx: 65536,
    fy: 65536,
    cx: 0,
    cy: 0,
    unit: 1000,
    near: 500000,
    far: 2000000,
    voxel: 10000,
    mu: 40000,
    radius: 2100000,
    centre: 1020000,
};

const NEW: Voxel = Voxel { f: 32767, w: 0 };

fn is_shared<T: Send + Sync>(_value: &T) {}

fn key(x: i16, y: i16, z: i16) -> BlockKey {
    BlockKey { x, y, z }
}

// Makes a key known, where it is not and a cell is free.
fn add(rest: &mut Rest, key: BlockKey) -> bool
    ensures { blocks_of rest.new ≡ (if result then insert (blocks_of rest.old) key new_block else blocks_of rest.old) }
{
    if rest.contains(key) || rest.free_count() == 0 {
        return false;
    }
    rest.make_fresh(key);
    true
}

// Writes the first voxel of a key's block, where the key is resident.
fn write(rest: &mut Rest, key: BlockKey, voxel: Voxel)
    requires { IsVoxel voxel }
{
    if let Some(block) = rest.lend_mut(key) {
        block.set(0, voxel);
    }
}

// The first voxel of a resident key's block.
fn first(rest: &Rest, key: BlockKey) -> Option<Voxel> {
    Some(rest.lend(key)?.get(0))
}

// Sends the block of a key to the store, where the key is resident.
fn send(rest: &mut Rest, alloc: Global, key: BlockKey) -> Result<(), NoMemory> {
    let packed = Packed::make(alloc)?;
    rest.reserve_out(alloc, &[key])?;
    if rest.is_resident(key) {
        rest.leave(key, packed);
    }
    Ok(())
}

// Brings the block of a key to the heap, where it is stored and a cell is free.
fn bring(rest: &mut Rest, key: BlockKey) -> bool
    ensures { blocks_of rest.new ≡ blocks_of rest.old }
{
    if !rest.is_stored(key) || rest.free_count() == 0 {
        return false;
    }
    rest.enter(key);
    true
}

// Touches a key, where it is not touched.
fn touch(table: &mut HashTable, key: BlockKey) -> Result<(), Full> {
    if table.find(key).is_none() {
        table.insert(key, 0)?;
    }
    Ok(())
}

// Blocks (-1, 0, 5) in the store and (0, 0, 0) in the heap, where a cell is free.
fn one_of_each(alloc: Global) -> Result<Rest, NoMemory> {
    let mut rest = Rest::make(alloc, 2, 1)?;
    add(&mut rest, key(0, 0, 0));
    add(&mut rest, key(-1, 0, 5));
    write(&mut rest, key(-1, 0, 5), Voxel { f: 5, w: 255 });
    write(&mut rest, key(0, 0, 0), Voxel { f: -7, w: 2 });
    send(&mut rest, alloc, key(-1, 0, 5))?;
    Ok(rest)
}

#[test]
fn a_key_is_resident_or_stored(rt: HostRuntime) -> Result<(), Fail> {
    let rest = one_of_each(rt.alloc())?;
    is_shared(&rest);
    for (name, key, resident, stored, voxel) in [
        ("stored", key(-1, 0, 5), false, true, None),
        (
            "resident",
            key(0, 0, 0),
            true,
            false,
            Some(Voxel { f: -7, w: 2 }),
        ),
        ("not known", key(1, 0, 0), false, false, None),
    ] {
        assert_eq!(rt;
            (rest.is_resident(key), rest.is_stored(key)),
            (resident, stored),
            "{name}"
        );
        assert_eq!(rt; rest.contains(key), resident || stored, "{name}");
        assert_eq!(rt; first(&rest, key), voxel, "{name}");
    }
    assert_eq!(rt;
        (rest.cell_count(), rest.free_count(), rest.len()),
        (2, 1, 2)
    );
    assert_eq!(rt;
        rest.keys(rt.alloc())?.as_slice(),
        [key(-1, 0, 5), key(0, 0, 0)].as_slice()
    );
    Ok(())
}

#[test]
fn a_stored_block_keeps_its_voxels(rt: HostRuntime) -> Result<(), Fail> {
    let mut rest = one_of_each(rt.alloc())?;
    let stored = key(-1, 0, 5);
    let mut out = Block::make(rt.alloc())?;
    assert!(rt; !rest.unpack(key(0, 0, 0), &mut out));
    assert_eq!(rt; out.get(0), NEW);
    assert!(rt; rest.unpack(stored, &mut out));
    assert_eq!(rt; (out.get(0), out.get(1)), (Voxel { f: 5, w: 255 }, NEW));
    assert!(rt; bring(&mut rest, stored));
    assert_eq!(rt; first(&rest, stored), Some(Voxel { f: 5, w: 255 }));
    assert!(rt; !rest.is_stored(stored));
    assert_eq!(rt; (rest.free_count(), rest.len()), (0, 2));
    assert!(rt; !add(&mut rest, key(1, 0, 0)));
    Ok(())
}

// Blocks (0, 0, 13) and (626, 0, 12) in the store, and (0, 0, 12), (0, 0, -13) and (625, 0, 12) in the heap, where
// this many cells more are free.
fn before_a_frame(alloc: Global, free: u8) -> Result<Rest, NoMemory> {
    let mut rest = Rest::make(alloc, 3 + u32::from(free), 1)?;
    for key in [key(0, 0, 13), key(626, 0, 12)] {
        add(&mut rest, key);
        send(&mut rest, alloc, key)?;
    }
    for key in [key(0, 0, 12), key(0, 0, -13), key(625, 0, 12)] {
        add(&mut rest, key);
    }
    Ok(rest)
}

// The pose whose camera points are the world points.
fn at_origin() -> Result<Pose, Fail> {
    let one = 1 << 30;
    let rows = PoseRows {
        r: [one, 0, 0, 0, one, 0, 0, 0, one],
        t: Vec3 { x: 0, y: 0, z: 0 },
    };
    Pose::accept(&rows).map_err(|_| Fail::from("pose"))
}

// A table of these keys.
fn table_of(alloc: Global, keys: &[BlockKey]) -> Result<HashTable, Fail> {
    let mut table = HashTable::make(alloc, 1, 65)?;
    for key in keys {
        touch(&mut table, *key)?;
    }
    Ok(table)
}

#[test]
fn a_frame_has_a_plan(rt: HostRuntime) -> Result<(), Fail> {
    let camera = Camera::make(CAMERA).map_err(|_| Fail::from("camera"))?;
    let pose = at_origin()?;
    let rest = before_a_frame(rt.alloc(), 1)?;
    let touched = table_of(
        rt.alloc(),
        &[key(627, 0, 12), key(0, 0, 14), key(0, 0, 12), key(0, 0, 13)],
    )?;
    let plan = plan_frame(rt.alloc(), &rest, &touched, &camera, &pose)?;
    assert_eq!(rt; plan.leave.as_slice(), [key(625, 0, 12)].as_slice());
    assert_eq!(rt; plan.enter.as_slice(), [key(0, 0, 13)].as_slice());
    assert_eq!(rt;
        plan.fresh.as_slice(),
        [key(0, 0, 14), key(627, 0, 12)].as_slice()
    );
    // Block (0, 0, -13) is active behind the camera.
    assert_eq!(rt; plan.stay.as_slice(), [key(0, 0, 12)].as_slice());
    assert_eq!(rt; plan.need, 4);
    assert!(rt; rest.is_resident(key(625, 0, 12)) && rest.is_stored(key(0, 0, 13)));
    Ok(())
}

#[test]
fn more_blocks_than_cells_have_no_plan(rt: HostRuntime) -> Result<(), Fail> {
    let camera = Camera::make(CAMERA).map_err(|_| Fail::from("camera"))?;
    let pose = at_origin()?;
    let rest = before_a_frame(rt.alloc(), 0)?;
    let touched = table_of(rt.alloc(), &[key(0, 0, 14)])?;
    let plan = plan_frame(rt.alloc(), &rest, &touched, &camera, &pose);
    assert_eq!(rt; plan.err(), Some(PlanError::HeapSpent { need: 4 }));
    Ok(())
}

// Removes the block of a cell, where it is owned.
#[tactic(auto, unfolding(crate::specs::Owners::owner_at))]
fn remove(rest: &mut Rest, cell: u32) -> bool {
    if cell >= rest.cell_count() || rest.heap().lend(cell).is_none() {
        return false;
    }
    rest.remove_at(cell);
    true
}

// The first voxel of a key's block, wherever it lies.
fn read(rest: &Rest, key: BlockKey, scratch: &mut Block) -> Option<Voxel> {
    Some(rest.read(key, scratch)?.get(0))
}

#[test]
fn a_removed_block_is_known_no_more(rt: HostRuntime) -> Result<(), Fail> {
    let mut rest = one_of_each(rt.alloc())?;
    let mut scratch = Block::make(rt.alloc())?;
    let (resident, stored) = (key(0, 0, 0), key(-1, 0, 5));
    let voxel = Some(Voxel { f: 5, w: 255 });
    assert_eq!(rt;
        read(&rest, resident, &mut scratch),
        Some(Voxel { f: -7, w: 2 })
    );
    assert_eq!(rt; read(&rest, stored, &mut scratch), voxel);
    assert_eq!(rt; read(&rest, key(0, 0, 1), &mut scratch), None);
    assert!(rt; !remove(&mut rest, 1));
    assert!(rt; remove(&mut rest, 0));
    assert!(rt; !remove(&mut rest, 0));
    assert_eq!(rt; (rest.free_count(), rest.len()), (2, 1));
    assert_eq!(rt; read(&rest, resident, &mut scratch), None);
    assert_eq!(rt; read(&rest, stored, &mut scratch), voxel);
    Ok(())
}

#[test]
fn refusals_have_words(rt: HostRuntime) -> Result<(), Fail> {
    for (error, words) in [
        (
            PlanError::HeapSpent { need: 4 },
            "4 blocks would be active, more than the heap has cells",
        ),
        (PlanError::NoMemory, "out of memory"),
    ] {
        is_shared(&error);
        assert_eq!(rt; error.to_string(rt.alloc())?.as_str(), words);
    }
    Ok(())
}
