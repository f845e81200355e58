ghost use Rattle.std.specs.Prelude.{◌≤◌, IfOk};
ghost use Rattle.band_walk.specs.BandViews.{view_of_band};
ghost use Rattle.band_walk.specs.Bands.{band as band_of};
ghost use Rattle.allocator.specs.Rounds.{IsRoundOf};

use crate::crew::{Part, work_all};
use crate::end::TouchEnd;
use band_walk::Band;
use fusion_core::Gate;
use hash_share::HashShare;
use spatial_hash::HashTable;
use std::alloc::Global;
use std::thread::Threads;
use voxel_block::NoMemory;

/// Touches the keys of a truncation band by 1 to 64 workers at once, over a copy of the table.
///
/// The rows of the depth map are dealt out in turn: worker w takes the rows v with `v % workers == w`, in
/// order, and passes the gate before each. A worker for which no node is left takes no further row. Where no
/// thread can be started, the caller does its work.
///
/// `Spent` comes only where the band has at least `nodes - linked - workers` keys that the table lacks,
/// `linked` being the number of its linked nodes.
///
/// # Errors
///
/// Out of memory.
pub fn touch_round<R: Threads + Sync, G: Gate>(
    rt: &R,
    alloc: Global,
    table: &HashTable,
    band: &Band<'_>,
    workers: u32,
    gate: &G,
) -> Result<TouchEnd, NoMemory>
    requires workers { (1 ≤ workers) × (workers ≤ 64) }
    ensures ended { IfOk result (IsRoundOf table.now (band_of (view_of_band band.now)) workers) }
{
    let (share, seat) = HashShare::share(alloc, table, workers)?;
    let part = Part {
        seat,
        first: 0,
        count: workers,
        workers,
    };
    let worked = work_all(rt, alloc, &share, band, gate, part)?;
    let touched = share.close(worked.seat);
    match worked.spent {
        Some(drawn) => Ok(TouchEnd::Spent { drawn }),
        None => Ok(TouchEnd::All(touched)),
    }
}
