ghost use Rattle.std.specs.Prelude.{◌≡◌, ◌≤◌, ℕ, ◌*◌, ◌+◌, Err, IfErr, IfOk, OnOk, length};
ghost use Rattle.spatial_hash.specs.Contents.{contents};
ghost use Rattle.depth_view.specs.Views.{depth_list};
ghost use Rattle.band_walk.specs.Bands.{band as band_of};
ghost use Rattle.streamer.specs.Places.{IsPlaced, blocks_of};
ghost use Rattle.fusion_core.specs.Frames.{IsFrame, view};
ghost use Rattle.fusion_core.specs.Maps.{need};
ghost use Rattle.allocator.specs.Rounds.{Touches};
ghost use Rattle.session.specs.Answers.{AnswersRoom, need_in, resident_of};
ghost use Rattle.session.specs.Rooms.{IsFramePlan, IsReady, StaysPut};

use crate::error::FrameError;
use crate::scratch::Scratch;
use allocator::{TouchEnd, touch_round};
use camera::Slopes;
use fusion_core::{Frame, Gate};
use spatial_hash::HashTable;
use std::alloc::Global;
use std::thread::Threads;
use streamer::{Plan, PlanError, Rest, plan_frame};
use voxel_block::{NoMemory, Packed};

/// What a frame's moves need. All memory is taken before the first of them.
#[derive(Drop)]
pub struct Ready {
    /// Which blocks move, and which stay.
    pub plan: Plan,
    /// The memory of a packed form for each block that leaves the heap.
    pub packs: Vec<Packed>,
}

/// Plans a frame, fills the list of its depths, and takes the memory that its moves need. No block moves.
///
/// Where more than `limit` blocks would be active the frame is refused. The band is touched by `workers` workers, each of
/// which passes the gate before each of its rows.
pub fn make_room<R: Threads + Sync, G: Gate>(
    rt: &R,
    alloc: Global,
    rest: &mut Rest,
    scratch: &mut Scratch,
    frame: &Frame,
    limit: u32,
    workers: u32,
    gate: &G,
) -> Result<Ready, FrameError>
    requires frame { IsFrame frame.now }
    requires limit { limit ≡ length rest.old.heap.cells }
    requires nodes { rest.old.table.nodes ≡ 2 * limit + 65 }
    requires slopes { scratch.old.slopes.fields ≡ frame.now.camera }
    requires workers { (1 ≤ workers) × (workers ≤ 64) }
    ensures room { AnswersRoom limit (need (blocks_of rest.old) frame.now) (resident_of result) }
    ensures ready { IfOk result (IsReady frame.now rest.new) }
    ensures kept { StaysPut rest.old rest.new }
    ensures spent { (n : ℕ) → result ≡ Err (FrameError.HeapSpent n) → rest.new ≡ rest.old }
    ensures depths { OnOk result (scratch.new.depths ≡ depth_list frame.now.camera frame.now.depths) }
    ensures slopes { scratch.new.slopes ≡ scratch.old.slopes }
{
    let plan = plan_within(
        rt,
        alloc,
        rest,
        &scratch.slopes,
        frame,
        limit,
        workers,
        gate,
    )?;
    frame.fill(&mut scratch.depths)?;
    let packs = make_packs(alloc, plan.leave.len())?;
    rest.reserve_out(alloc, &plan.leave)?;
    Ok(Ready { plan, packs })
}

/// Plans a frame.
fn plan_within<R: Threads + Sync, G: Gate>(
    rt: &R,
    alloc: Global,
    rest: &Rest,
    slopes: &Slopes,
    frame: &Frame,
    limit: u32,
    workers: u32,
    gate: &G,
) -> Result<Plan, FrameError>
    requires frame { IsFrame frame.now }
    requires limit { limit ≡ length rest.now.heap.cells }
    requires nodes { rest.now.table.nodes ≡ 2 * limit + 65 }
    requires slopes { slopes.now.fields ≡ frame.now.camera }
    requires workers { (1 ≤ workers) × (workers ≤ 64) }
    ensures room { AnswersRoom limit (need (blocks_of rest.now) frame.now) (need_in result) }
    ensures plan { IfOk result (IsFramePlan frame.now rest.now) }
{
    match touch_band(rt, alloc, rest, slopes, frame, limit, workers, gate) {
        Ok(touched) => plan_touched(alloc, rest, &touched, frame, limit),
        Err(why) => Err(why),
    }
}

/// Touches the keys of the heap and of a frame's truncation band.
///
/// A key is refused only where no node of the hash table is left for it. The table has so many of them that more than
/// `limit` new keys are in the band then, all of which would be active.
fn touch_band<R: Threads + Sync, G: Gate>(
    rt: &R,
    alloc: Global,
    rest: &Rest,
    slopes: &Slopes,
    frame: &Frame,
    limit: u32,
    workers: u32,
    gate: &G,
) -> Result<HashTable, FrameError>
    requires frame { IsFrame frame.now }
    requires limit { limit ≡ length rest.now.heap.cells }
    requires nodes { rest.now.table.nodes ≡ 2 * limit + 65 }
    requires slopes { slopes.now.fields ≡ frame.now.camera }
    requires workers { (1 ≤ workers) × (workers ≤ 64) }
    ensures placed { IsPlaced rest.now }
    ensures keys { IfOk result (λ t. Touches (contents rest.now.table) (band_of (view frame.now)) (contents t)) }
    ensures spent { IfErr result (λ why. AnswersRoom limit (need (blocks_of rest.now) frame.now) (Err why)) }
{
    match touch_round(rt, alloc, rest.hash(), &frame.band(slopes), workers, gate) {
        Ok(TouchEnd::All(touched)) => Ok(touched),
        Ok(TouchEnd::Spent { .. }) => {
            // The look at the linked nodes is what tells that each has a key.
            let _ = rest.hash().linked();
            Err(FrameError::HeapSpent { limit })
        }
        Err(NoMemory) => Err(FrameError::NoMemory),
    }
}

/// Plans a frame, by a table of the keys of the heap and of the frame's truncation band.
fn plan_touched(
    alloc: Global,
    rest: &Rest,
    touched: &HashTable,
    frame: &Frame,
    limit: u32,
) -> Result<Plan, FrameError>
    requires frame { IsFrame frame.now }
    requires limit { limit ≡ length rest.now.heap.cells }
    requires placed { IsPlaced rest.now }
    requires keys { Touches (contents rest.now.table) (band_of (view frame.now)) (contents touched.now) }
    ensures room { AnswersRoom limit (need (blocks_of rest.now) frame.now) (need_in result) }
    ensures plan { IfOk result (IsFramePlan frame.now rest.now) }
{
    match plan_frame(alloc, rest, touched, frame.camera(), &frame.pose()) {
        Ok(plan) => Ok(plan),
        Err(PlanError::HeapSpent { .. }) => Err(FrameError::HeapSpent { limit }),
        Err(PlanError::NoMemory) => Err(FrameError::NoMemory),
    }
}

/// `count` packed forms, each to be written.
fn make_packs(alloc: Global, count: usize) -> Result<Vec<Packed>, NoMemory>
    ensures { IfOk result (λ v. length v.items ≡ count) }
{
    let mut packs = Vec::with_capacity(alloc, count)?;
    for _ in 0..count {
        packs.push_reserved(Packed::make(alloc)?);
    }
    Ok(packs)
}
