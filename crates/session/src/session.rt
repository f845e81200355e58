ghost use Rattle.std.specs.Prelude.{◌≡◌, ◌≢◌, ◌↔◌, ◌≤◌, ◌+◌, ◌*◌, Err, Some, None, IfOk, IsOk, OnErr, OnOk, true, false};
ghost use Rattle.std.specs.FinMap.{empty, len};
ghost use Rattle.std.specs.FinSet.{empty as no_chunks};
ghost use Rattle.fixed_geom.specs.PoseTest.{accepted, pose_of};
ghost use Rattle.spatial_hash.specs.Table.{empty_table};
ghost use Rattle.block_heap.specs.Cells.{new_cells};
ghost use Rattle.scan_io.specs.Reading.{UnlessOutOfMemory};
ghost use Rattle.fusion_core.specs.Fold.{start as first_state, has_size};
ghost use Rattle.scan_lang.specs.declared.entry.Entry.TheVariants as entries;
ghost use Rattle.session.specs.Answers.{frame_cause, state_of};
ghost use Rattle.crossing_export.specs.Crossings.{crossings};
ghost use Rattle.session.specs.Fold.{after, collected, collected_count, frame_answer, known_voxels as known_voxels_of, picture_at, place_in, totals_of};
ghost use Rattle.session.specs.Rooms.{StaysPut};
ghost use Rattle.session.specs.Standing.{Stands};

use crate::error::{FrameError, ReadError, RenderError};
use crate::fused_map::{
    FusedMap, Picture, collect_blocks, find_place, first_map, fuse_frame, read_picture,
    read_points, read_totals, read_voxels,
};
use crate::scratch::Scratch;
use crossing_export::Crossing;
use depth_frame::DepthFrame;
use fixed_geom::{BadPose, PoseRows};
use fusion_core::Gate;
use scan_lang::{Config, FrameDone, KnownVoxel, Place, Totals};
use std::alloc::Global;
use std::marker::Model;
use std::thread::Threads;
use voxel_block::{BlockKey, NoMemory};

mod answer;

/// The map of the frames so far, their number, and the pose of the last one, under a configuration.
///
/// A block is resident, which means that it lies in the heap, exactly where it is active for the last frame.
#[derive(Drop)]
pub struct Session {
    config: Config,
    map: FusedMap,
    scratch: Scratch,
}

impl Model for Session {
    ghost use Rattle.session.specs.Codes.{coded_session};
    ghost use Rattle.session.specs.Answers.{SessionView, session_of};
    ghost use Rattle.session.specs.Standing.{IsScratchOf, IsSettled};

    ghost Value = { SessionView };

    ghost coded = { coded_session };

    ghost view = { λ s. session_of s.config s.map };

    ghost invariant = { λ s. IsSettled (session_of s.config s.map) × IsScratchOf s.config s.scratch };
}

impl Session {
    /// The empty map, before the first frame.
    pub fn start(alloc: Global, config: Config) -> Result<Session, NoMemory>
        ensures config { IfOk result (λ s. s.config ≡ config) }
        ensures state { IfOk result (λ s. state_of s ≡ first_state) }
        ensures places { IfOk result (λ s. s.places ≡ record { table = empty_table config.buckets (2 * config.heap_blocks + 65); heap = new_cells config.heap_blocks; store = record { contents = empty; opened = no_chunks } }) }
        ensures stands { IfOk result Stands }
    {
        let (map, scratch) = first_map(alloc, &config)?;
        Ok(Session {
            config,
            map,
            scratch,
        })
    }

    /// Fuses a frame into the map. It is refused where its sides are not the configuration's, then where its rows are
    /// no pose, then where more blocks of the map and of its band would be active for it than the configuration allows.
    ///
    /// The blocks of its band are found by `workers` workers at once, from 1 to 64, each of which passes the gate before
    /// each row of pixels that it takes. What is answered and what the map is then does not depend on their number.
    ///
    /// A refused frame changes nothing. Out of memory no block has moved, but chunks of the store may have been opened.
    pub fn frame<R: Threads + Sync, G: Gate>(
        &mut self,
        rt: &R,
        alloc: Global,
        rows: &PoseRows,
        depths: DepthFrame,
        workers: u32,
        gate: &G,
    ) -> Result<FrameDone, FrameError>
        requires workers { (1 ≤ workers) × (workers ≤ 64) }
        ensures answer { UnlessOutOfMemory frame_cause (λ done. done) result (frame_answer self.old.config (state_of self.old) rows.now depths) }
        ensures state { OnOk result (state_of self.new ≡ after self.old.config (state_of self.old) (entries.Frame rows.now depths)) }
        ensures config { self.new.config ≡ self.old.config }
        ensures stands { Stands self.new }
        ensures places { OnErr result (StaysPut self.old.places self.new.places) }
        ensures refused { (why : FrameError) → result ≡ Err why → why ≢ FrameError.NoMemory → self.new.places ≡ self.old.places }
        ensures frames { OnErr result (self.new.frames ≡ self.old.frames) }
        ensures last { OnErr result (self.new.last ≡ self.old.last) }
        ensures kept { OnErr result (state_of self.new ≡ state_of self.old) }
        ensures size { has_size self.old.config.camera depths ≡ false → result ≡ Err (FrameError.Size depths.width depths.height) }
        ensures pose { has_size self.old.config.camera depths ≡ true → (why : BadPose) → accepted (pose_of rows.now) ≡ Err why → result ≡ Err (FrameError.BadPose why) }
    {
        fuse_frame(
            rt,
            alloc,
            &self.config,
            &mut self.map,
            &mut self.scratch,
            rows,
            depths,
            workers,
            gate,
        )
    }

    /// Removes the blocks that hold no surface from the map, among those that are active for the last frame, and returns
    /// their number: those where no known voxel has a distance whose size is below the configuration's `empty_f`
    /// (after Nießner, Zollhöfer, Izadi and Stamminger 2013).
    ///
    /// Before the first frame there is none. No memory is taken, and there is no error.
    pub fn collect(&mut self) -> Result<u64, NoMemory>
        ensures count { IfOk result (λ n. n ≡ collected_count self.old.config (state_of self.old)) }
        ensures done { IsOk result }
        ensures state { state_of self.new ≡ collected self.old.config (state_of self.old) }
        ensures config { self.new.config ≡ self.old.config }
        ensures store { self.new.places.store ≡ self.old.places.store }
        ensures frames { self.new.frames ≡ self.old.frames }
        ensures last { self.new.last ≡ self.old.last }
        ensures stands { Stands self.new }
    {
        Ok(collect_blocks(&self.config, &mut self.map))
    }

    /// The picture that the camera would take of the map from the pose of the last accepted frame: of each pixel the
    /// depth of the first surface on its ray, in raw samples of the configuration's unit, and 0 where there is none.
    pub fn render(&self, alloc: Global) -> Result<Picture, RenderError>
        ensures frame { IfOk result (λ p. p.frame ≡ self.now.frames) }
        ensures image { IfOk result (λ p. picture_at self.now.config (state_of self.now) ≡ Some p.image) }
        ensures no_frame { (result ≡ Err RenderError.NoFrame) ↔ (self.now.frames ≡ 0) }
        ensures first { (result ≡ Err RenderError.NoFrame) ↔ (self.now.last ≡ None) }
        ensures stands { Stands self.now }
    {
        read_picture(alloc, &self.config, &self.map)
    }

    /// The number of blocks, and all known voxels in the order of keys and indices.
    pub fn voxels(&mut self, alloc: Global) -> Result<(u64, Vec<KnownVoxel>), ReadError>
        ensures blocks { IfOk result (λ p. p.0 ≡ len (state_of self.old).blocks) }
        ensures known { IfOk result (λ p. p.1.items ≡ known_voxels_of (state_of self.old).blocks) }
        ensures config { self.new.config ≡ self.old.config }
        ensures places { self.new.places ≡ self.old.places }
        ensures frames { self.new.frames ≡ self.old.frames }
        ensures last { self.new.last ≡ self.old.last }
        ensures stands { Stands self.new }
    {
        read_voxels(alloc, &self.config, &self.map)
    }

    /// The points of the surface, in the order of keys, indices and axes: along each axis, where the distance goes
    /// through 0 between a known voxel and the next one.
    pub fn points(&mut self, alloc: Global) -> Result<Vec<Crossing>, ReadError>
        ensures points { IfOk result (λ v. v.items ≡ crossings (state_of self.old).blocks self.old.config.camera.voxel) }
        ensures config { self.new.config ≡ self.old.config }
        ensures places { self.new.places ≡ self.old.places }
        ensures frames { self.new.frames ≡ self.old.frames }
        ensures last { self.new.last ≡ self.old.last }
        ensures stands { Stands self.new }
    {
        read_points(alloc, &self.config, &self.map)
    }

    /// Totals over the map. They take no memory, and there is no error.
    pub fn totals(&mut self) -> Result<Totals, ReadError>
        ensures value { IfOk result (λ t. t ≡ totals_of (state_of self.old).blocks) }
        ensures done { IsOk result }
        ensures config { self.new.config ≡ self.old.config }
        ensures places { self.new.places ≡ self.old.places }
        ensures frames { self.new.frames ≡ self.old.frames }
        ensures last { self.new.last ≡ self.old.last }
        ensures stands { Stands self.new }
    {
        Ok(read_totals(&self.config, &self.map))
    }

    /// Where the block of a key lies. Takes no memory.
    pub fn place_of(&self, key: BlockKey) -> Place
        ensures place { result ≡ place_in self.now.config (state_of self.now) key }
        ensures stands { Stands self.now }
    {
        find_place(&self.config, &self.map, key)
    }
}
