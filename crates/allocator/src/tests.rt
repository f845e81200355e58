ghost use Rattle.std.specs.Prelude.{◌≤◌};

use super::*;
use band_walk::Band;
use camera::{Camera, CameraFields, Slopes};
use depth_frame::DepthFrame;
use fixed_geom::{PoseRows, Vec3};
use fusion_core::{Frame, NoGate, Settings};
use spatial_hash::HashTable;
use std::alloc::Global;
use std::thread::Threads;
use voxel_block::{BlockKey, NoMemory};

const ONE: i64 = 1 << 30;

// A column of eight pixels round the axis, voxels of 1 cm and a truncation distance of 4 cm.
const COLUMN: CameraFields = CameraFields {
    width: 1,
    height: 8,
    fx: 65536,
    fy: 262144,
    cx: 0,
    cy: 262144,
    unit: 1000,
    near: 500000,
    far: 2000000,
    voxel: 10000,
    mu: 40000,
    radius: 3000000,
    centre: 1020000,
};

// What the column sees from the origin where all its pixels show one sample.
fn frame(alloc: Global, sample: u16) -> Option<Frame> {
    let settings = Settings {
        version: 1,
        camera: Camera::make(COLUMN).ok()?,
        max_weight: 255,
        heap_blocks: 1,
    };
    let rows = PoseRows {
        r: [ONE, 0, 0, 0, ONE, 0, 0, 0, ONE],
        t: Vec3 { x: 0, y: 0, z: 0 },
    };
    let raw = vec![in alloc; sample; 8].ok()?;
    Frame::offered(&settings, &rows, DepthFrame::make(1, 8, raw)).ok()
}

// A table of one bucket with the blocks (0, 0, 5) and (0, 0, 12), in the cells 7 and 3.
fn some_blocks(alloc: Global, nodes: u32) -> Result<HashTable, NoMemory>
    requires { nodes ≤ 1000000 }
{
    let mut table = HashTable::make(alloc, 1, nodes)?;
    for (z, cell) in [(5, 7), (12, 3)] {
        let key = BlockKey { x: 0, y: 0, z };
        if table.find(key).is_none() {
            let _ = table.insert(key, cell);
        }
    }
    Ok(table)
}

// How a round ended.
#[derive(Clone, Copy, Debug, PartialEq, Eq)]
enum Ending {
    // The number of keys, that of linked nodes, and the cells of the blocks (0, 0, z) for z of 5, 12 and 13.
    All(usize, u32, [Option<u32>; 3]),
    // Whether the number that was drawn is at least the number of nodes.
    Spent(bool),
}

// How a round over these blocks ends, where all pixels of the column show one sample.
fn end_of_round<R: Threads + Sync>(
    rt: &R,
    alloc: Global,
    sample: u16,
    nodes: u32,
    workers: u32,
) -> Result<Option<Ending>, NoMemory>
    requires nodes { nodes ≤ 1000000 }
    requires workers { (1 ≤ workers) × (workers ≤ 64) }
{
    let Some(frame) = frame(alloc, sample) else {
        return Ok(None);
    };
    let slopes = Slopes::make(alloc, frame.camera())?;
    let table = some_blocks(alloc, nodes)?;
    let touched = match touch_round(rt, alloc, &table, &frame.band(&slopes), workers, &NoGate)? {
        TouchEnd::All(touched) => touched,
        TouchEnd::Spent { drawn } => return Ok(Some(Ending::Spent(drawn >= u64::from(nodes)))),
    };
    let mut cells = [None; 3];
    for (i, z) in [5, 12, 13].into_iter().enumerate() {
        cells[i] = touched
            .find(BlockKey { x: 0, y: 0, z })
            .map(|e| touched.cell_at(e));
    }
    let keys = touched.entries(alloc)?.len();
    Ok(Some(Ending::All(keys, touched.linked(), cells)))
}

#[test]
fn rounds_over_a_column(rt: HostRuntime) {
    let alloc = rt.alloc();
    let (old, new) = (Some(3), Some(u32::MAX));
    // A wall at 1 m has 20 blocks, one of which the table has. Samples of no depth, or before the camera's
    // nearest one, have none.
    let wall = Ending::All(21, 17, [Some(7), old, new]);
    let none = Ending::All(2, 0, [Some(7), old, None]);
    for (sample, nodes, workers, wanted) in [
        (1000, 67, 1, wall),
        (1000, 67, 2, wall),
        (1000, 67, 8, wall),
        (1000, 67, 64, wall),
        (1000, 17, 1, wall),
        (1000, 16, 1, Ending::Spent(true)),
        (1000, 16, 8, Ending::Spent(true)),
        (0, 0, 4, none),
        (499, 0, 4, none),
    ] {
        assert_eq!(rt;
            end_of_round(&rt, alloc, sample, nodes, workers),
            Ok(Some(wanted)),
            "sample {}, {} nodes, {} workers",
            sample,
            nodes,
            workers
        );
    }
}
