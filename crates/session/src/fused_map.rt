//! The calls of a session, over its parts.
ghost use Rattle.std.specs.Prelude.{◌≡◌, ◌≢◌, ◌↔◌, ◌≤◌, ◌+◌, ◌*◌, Err, Some, None, IfOk, OnErr, OnOk, true, false};
ghost use Rattle.std.specs.FinMap.{empty, len};
ghost use Rattle.std.specs.FinSet.{empty as no_chunks};
ghost use Rattle.fixed_geom.specs.PoseTest.{accepted, pose_of};
ghost use Rattle.spatial_hash.specs.Table.{empty_table};
ghost use Rattle.block_heap.specs.Cells.{new_cells};
ghost use Rattle.scan_io.specs.Reading.{UnlessOutOfMemory};
ghost use Rattle.fusion_core.specs.Fold.{start as first_state, has_size};
ghost use Rattle.scan_lang.specs.declared.entry.Entry.TheVariants as entries;
ghost use Rattle.session.specs.Answers.{frame_cause, session_of, state_of};
ghost use Rattle.crossing_export.specs.Crossings.{crossings};
ghost use Rattle.session.specs.Fold.{after, collected, collected_count, frame_answer, known_voxels as known_voxels_of, picture_at, place_in, settings_of, totals_of};
ghost use Rattle.session.specs.Rooms.{StaysPut};
ghost use Rattle.session.specs.Standing.{IsScratchOf, IsSettled, Stands};

use crate::collecting::collect_empty;
use crate::error::{FrameError, ReadError, RenderError};
use crate::fusing::fuse;
use crate::known::known_voxels;
use crate::points::surface_points;
use crate::room::make_room;
use crate::scratch::Scratch;
use crate::totals::totals;
use crossing_export::Crossing;
use depth_frame::DepthFrame;
use fixed_geom::{BadPose, Pose, PoseRows};
use fusion_core::{Frame, Gate, Settings};
use raycaster::render;
use scan_lang::{Config, FrameDone, KnownVoxel, Place, Totals};
use std::alloc::Global;
use std::thread::Threads;
use streamer::Rest;
use voxel_block::{BlockKey, NoMemory};

/// The map of the frames so far, their number, and the pose of the last one.
#[derive(Drop)]
pub struct FusedMap {
    pub rest: Rest,
    pub frames: u64,
    pub last: Option<Pose>,
}

/// A picture of the map, from the pose of the last accepted frame.
#[derive(Drop)]
pub struct Picture {
    /// The number of accepted frames; it saturates at `u64::MAX`.
    pub frame: u64,
    /// The picture, whose sides are those of the configuration.
    pub image: DepthFrame,
}

/// The empty map, before the first frame, and what its frames work with.
pub fn first_map(alloc: Global, config: &Config) -> Result<(FusedMap, Scratch), NoMemory>
    ensures state { IfOk result (λ p. state_of (session_of config.now p.0) ≡ first_state) }
    ensures places { IfOk result (λ p. p.0.rest ≡ record { table = empty_table config.now.buckets (2 * config.now.heap_blocks + 65); heap = new_cells config.now.heap_blocks; store = record { contents = empty; opened = no_chunks } }) }
    ensures settled { IfOk result (λ p. IsSettled (session_of config.now p.0)) }
    ensures stands { IfOk result (λ p. Stands (session_of config.now p.0)) }
    ensures scratch { IfOk result (λ p. IsScratchOf config.now p.1) }
{
    let scratch = Scratch::make(alloc, config)?;
    let rest = Rest::make(alloc, config.heap_blocks(), config.buckets())?;
    let map = FusedMap {
        rest,
        frames: 0,
        last: None,
    };
    Ok((map, scratch))
}

/// Fuses a frame into the map. It is refused where its sides are not the configuration's, then where its rows are no
/// pose, then where more blocks of the map and of its band would be active for it than the configuration allows.
///
/// The band is touched by `workers` workers, each of which passes the gate before each of its rows.
pub fn fuse_frame<R: Threads + Sync, G: Gate>(
    rt: &R,
    alloc: Global,
    config: &Config,
    map: &mut FusedMap,
    scratch: &mut Scratch,
    rows: &PoseRows,
    depths: DepthFrame,
    workers: u32,
    gate: &G,
) -> Result<FrameDone, FrameError>
    requires settled { IsSettled (session_of config.now map.old) }
    requires scratch { IsScratchOf config.now scratch.old }
    requires workers { (1 ≤ workers) × (workers ≤ 64) }
    ensures answer { UnlessOutOfMemory frame_cause (λ done. done) result (frame_answer config.now (state_of (session_of config.now map.old)) rows.now depths) }
    ensures state { OnOk result (state_of (session_of config.now map.new) ≡ after config.now (state_of (session_of config.now map.old)) (entries.Frame rows.now depths)) }
    ensures stands { Stands (session_of config.now map.new) }
    ensures settled { IsSettled (session_of config.now map.new) }
    ensures scratch { IsScratchOf config.now scratch.new }
    ensures places { OnErr result (StaysPut map.old.rest map.new.rest) }
    ensures refused { (why : FrameError) → result ≡ Err why → why ≢ FrameError.NoMemory → map.new.rest ≡ map.old.rest }
    ensures frames { OnErr result (map.new.frames ≡ map.old.frames) }
    ensures last { OnErr result (map.new.last ≡ map.old.last) }
    ensures kept { OnErr result (state_of (session_of config.now map.new) ≡ state_of (session_of config.now map.old)) }
    ensures size { has_size config.now.camera depths ≡ false → result ≡ Err (FrameError.Size depths.width depths.height) }
    ensures pose { has_size config.now.camera depths ≡ true → (why : BadPose) → accepted (pose_of rows.now) ≡ Err why → result ≡ Err (FrameError.BadPose why) }
{
    let frame = Frame::offered(&settings(config), rows, depths)?;
    let limit = config.heap_blocks();
    let ready = make_room(
        rt,
        alloc,
        &mut map.rest,
        scratch,
        &frame,
        limit,
        workers,
        gate,
    )?;
    let resident = ready.plan.need as u32;
    fuse(&mut map.rest, &frame, &scratch.depths, ready);
    map.frames = map.frames.saturating_add(1);
    map.last = Some(frame.pose());
    Ok(FrameDone {
        frame: map.frames,
        blocks: map.rest.len(),
        resident,
    })
}

/// Removes the empty blocks that are active for the last frame from the map, and returns their number. Takes no memory.
pub fn collect_blocks(config: &Config, map: &mut FusedMap) -> u64
    requires { IsSettled (session_of config.now map.old) }
    ensures count { result ≡ collected_count config.now (state_of (session_of config.now map.old)) }
    ensures state { state_of (session_of config.now map.new) ≡ collected config.now (state_of (session_of config.now map.old)) }
    ensures store { map.new.rest.store ≡ map.old.rest.store }
    ensures frames { map.new.frames ≡ map.old.frames }
    ensures last { map.new.last ≡ map.old.last }
    ensures settled { IsSettled (session_of config.now map.new) }
    ensures stands { Stands (session_of config.now map.new) }
{
    u64::from(collect_empty(&mut map.rest, config.empty_f()))
}

/// The number of blocks, and all known voxels in the order of keys and indices.
pub fn read_voxels(
    alloc: Global,
    config: &Config,
    map: &FusedMap,
) -> Result<(u64, Vec<KnownVoxel>), ReadError>
    requires { IsSettled (session_of config.now map.now) }
    ensures blocks { IfOk result (λ p. p.0 ≡ len (state_of (session_of config.now map.now)).blocks) }
    ensures known { IfOk result (λ p. p.1.items ≡ known_voxels_of (state_of (session_of config.now map.now)).blocks) }
    ensures stands { Stands (session_of config.now map.now) }
{
    let known = known_voxels(alloc, &map.rest)?;
    Ok((map.rest.len(), known))
}

/// The surface points in the order of keys, indices and axes.
pub fn read_points(
    alloc: Global,
    config: &Config,
    map: &FusedMap,
) -> Result<Vec<Crossing>, ReadError>
    requires { IsSettled (session_of config.now map.now) }
    ensures points { IfOk result (λ v. v.items ≡ crossings (state_of (session_of config.now map.now)).blocks config.now.camera.voxel) }
    ensures stands { Stands (session_of config.now map.now) }
{
    let points = surface_points(alloc, &map.rest, config.camera().fields().voxel)?;
    Ok(points)
}

/// The picture from the pose of the last accepted frame.
pub fn read_picture(alloc: Global, config: &Config, map: &FusedMap) -> Result<Picture, RenderError>
    requires { IsSettled (session_of config.now map.now) }
    ensures frame { IfOk result (λ p. p.frame ≡ map.now.frames) }
    ensures image { IfOk result (λ p. picture_at config.now (state_of (session_of config.now map.now)) ≡ Some p.image) }
    ensures first { (result ≡ Err RenderError.NoFrame) ↔ (map.now.last ≡ None) }
    ensures stands { Stands (session_of config.now map.now) }
{
    match &map.last {
        Some(pose) => {
            let image = render(alloc, config.camera(), pose, &map.rest)?;
            Ok(Picture {
                frame: map.frames,
                image,
            })
        }
        None => Err(RenderError::NoFrame),
    }
}

/// Totals over the map. Takes no memory.
pub fn read_totals(config: &Config, map: &FusedMap) -> Totals
    requires { IsSettled (session_of config.now map.now) }
    ensures value { result ≡ totals_of (state_of (session_of config.now map.now)).blocks }
    ensures stands { Stands (session_of config.now map.now) }
{
    totals(&map.rest)
}

/// Where the block of a key lies.
pub fn find_place(config: &Config, map: &FusedMap, key: BlockKey) -> Place
    requires { IsSettled (session_of config.now map.now) }
    ensures place { result ≡ place_in config.now (state_of (session_of config.now map.now)) key }
    ensures stands { Stands (session_of config.now map.now) }
{
    if map.rest.is_resident(key) {
        Place::Heap
    } else if map.rest.is_stored(key) {
        Place::Store
    } else {
        Place::Nowhere
    }
}

/// What a configuration has frames judged and fused by.
fn settings(config: &Config) -> Settings
    ensures value { result ≡ settings_of config.now }
    ensures weight { 1 ≤ result.max_weight }
{
    Settings {
        version: config.version(),
        camera: *config.camera(),
        max_weight: config.max_weight(),
        heap_blocks: config.heap_blocks(),
    }
}
