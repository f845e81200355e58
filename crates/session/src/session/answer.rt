ghost use Rattle.std.specs.Prelude.{◌≡◌, ◌≤◌, IfOk, OnErr, OnOk};
ghost use Rattle.scan_lang.specs.declared.entry.Entry.TheVariants as entries;
ghost use Rattle.session.specs.Answers.{state_of};
ghost use Rattle.session.specs.Fold.{after, refusal_reply, reply_to};
ghost use Rattle.session.specs.Rooms.{StaysPut};
ghost use Rattle.session.specs.Standing.{Stands};

use super::Session;
use crate::error::RenderError;
use depth_frame::DepthFrame;
use fixed_geom::{BadPose, PoseRows};
use fusion_core::{Gate, Refusal};
use scan_lang::{Entry, PointList, Reply, VoxelList};
use std::alloc::Global;
use std::thread::Threads;
use voxel_block::NoMemory;

impl Session {
    /// Acts on an entry of a scan, and gives the reply to it. A frame that is refused has a reply like any other.
    ///
    /// A frame is worked on by `workers` workers, from 1 to 64, which pass the gate as in `frame`. The reply does not depend
    /// on their number.
    ///
    /// Out of memory the map is as before; no block has moved, but chunks of the store may have been opened.
    pub fn answer<R: Threads + Sync, G: Gate>(
        &mut self,
        rt: &R,
        alloc: Global,
        entry: Entry,
        workers: u32,
        gate: &G,
    ) -> Result<Reply, NoMemory>
        requires workers { (1 ≤ workers) × (workers ≤ 64) }
        ensures reply { IfOk result (λ r. r ≡ reply_to self.old.config (state_of self.old) entry) }
        ensures state { OnOk result (state_of self.new ≡ after self.old.config (state_of self.old) entry) }
        ensures kept { OnErr result (state_of self.new ≡ state_of self.old) }
        ensures places { OnErr result (StaysPut self.old.places self.new.places) }
        ensures config { self.new.config ≡ self.old.config }
        ensures stands { Stands self.new }
    {
        match entry {
            Entry::Frame(rows, depths) => {
                self.answer_frame(rt, alloc, &rows, depths, workers, gate)
            }
            Entry::Collect => Ok(Reply::Collected(self.collect()?)),
            Entry::Render => self.answer_render(alloc),
            Entry::Voxels => {
                let (blocks, known) = self.voxels(alloc)?;
                Ok(Reply::Voxels(blocks, VoxelList::make(known)))
            }
            Entry::Points => Ok(Reply::Points(PointList::make(self.points(alloc)?))),
            Entry::Sum => Ok(Reply::Totals(self.totals()?)),
            Entry::Place(key) => Ok(Reply::Place(self.place_of(key))),
            Entry::End => {
                // The look at a field is what tells that the session stands.
                let _ = &self.config;
                Ok(Reply::End)
            }
        }
    }

    // Fuses a frame, and gives the reply to it.
    fn answer_frame<R: Threads + Sync, G: Gate>(
        &mut self,
        rt: &R,
        alloc: Global,
        rows: &PoseRows,
        depths: DepthFrame,
        workers: u32,
        gate: &G,
    ) -> Result<Reply, NoMemory>
        requires workers { (1 ≤ workers) × (workers ≤ 64) }
        ensures reply { IfOk result (λ r. r ≡ reply_to self.old.config (state_of self.old) (entries.Frame rows.now depths)) }
        ensures state { OnOk result (state_of self.new ≡ after self.old.config (state_of self.old) (entries.Frame rows.now depths)) }
        ensures kept { OnErr result (state_of self.new ≡ state_of self.old) }
        ensures places { OnErr result (StaysPut self.old.places self.new.places) }
        ensures config { self.new.config ≡ self.old.config }
        ensures stands { Stands self.new }
    {
        match self.frame(rt, alloc, rows, depths, workers, gate) {
            Ok(done) => Ok(Reply::Frame(done)),
            Err(why) => match why.refusal() {
                Some(refusal) => Ok(refused(refusal)),
                None => Err(NoMemory),
            },
        }
    }

    // Renders the map, and gives the reply to a request for a picture.
    fn answer_render(&self, alloc: Global) -> Result<Reply, NoMemory>
        ensures reply { IfOk result (λ r. r ≡ reply_to self.now.config (state_of self.now) entries.Render) }
        ensures stands { Stands self.now }
    {
        match self.render(alloc) {
            Ok(picture) => Ok(Reply::Picture(picture.frame, picture.image)),
            Err(RenderError::NoFrame) => Ok(Reply::NoFrame),
            Err(RenderError::NoMemory) => Err(NoMemory),
        }
    }
}

/// The reply to a frame that is refused.
fn refused(why: Refusal) -> Reply
    ensures { result ≡ refusal_reply why }
{
    match why {
        Refusal::Size { .. } => Reply::Size,
        Refusal::BadPose(BadPose::Range) => Reply::PoseRange,
        Refusal::BadPose(BadPose::NotRotation) => Reply::PoseRotation,
        Refusal::HeapSpent { limit } => Reply::HeapSpent(limit),
    }
}
