ghost use Rattle.std.specs.Prelude.{◌≡◌, ◌≤◌, false, pos, IfOk, List, OnOk, length};
ghost use Rattle.std.specs.Ordering.{int_eq};
ghost use Rattle.voxel_block.specs.declared.voxel.Voxel.{Voxel};
ghost use Rattle.camera.specs.Cameras.{IsCamera};
ghost use Rattle.depth_view.specs.Views.{depth_list};
ghost use Rattle.fuse_kernel.specs.Updates.{updated};
ghost use Rattle.fusion_core.specs.Frames.{IsFrame, IsKernelOf, is_active as is_active_of, view};
ghost use Rattle.fusion_core.specs.Fold.{has_size as has_size_of, offered as offered_of};

use crate::refusal::Refusal;
use crate::settings::Settings;
use band_walk::Band;
use camera::{Camera, Slopes};
use depth_frame::DepthFrame;
use depth_view::Depths;
use fixed_geom::{Pose, PoseRows};
use fuse_kernel::Kernel;
use std::marker::Model;
use voxel_block::{Block, BlockKey, NoMemory};

/// A depth map, the pose and the camera that it was taken by, and what it is fused by.
#[derive(Drop)]
pub struct Frame {
    version: u8,
    camera: Camera,
    max_weight: u8,
    pose: Pose,
    depths: DepthFrame,
}

impl Model for Frame {
    ghost use Rattle.fusion_core.specs.Frames.{Frame as Fields, IsFrame};

    ghost Value = { Fields };

    ghost view = { λ f. record { version = f.version; camera = f.camera; max_weight = f.max_weight; pose = f.pose; depths = f.depths } };

    ghost invariant = { λ f. IsFrame (record { version = f.version; camera = f.camera; max_weight = f.max_weight; pose = f.pose; depths = f.depths }) };
}

impl Frame {
    /// The frame of rows and a depth map under these settings, before its room is judged. It is refused where its sides
    /// are not those of the camera's image, and then where its rows are no pose.
    pub fn offered(
        settings: &Settings,
        rows: &PoseRows,
        depths: DepthFrame,
    ) -> Result<Frame, Refusal>
        requires { 1 ≤ settings.now.max_weight }
        ensures value { result ≡ offered_of settings.now rows.now depths }
        ensures frame { IfOk result IsFrame }
        ensures camera { IfOk result (λ f. f.camera ≡ settings.now.camera) }
        ensures max_weight { IfOk result (λ f. f.max_weight ≡ settings.now.max_weight) }
    {
        if !has_size(&settings.camera, &depths) {
            return Err(Refusal::Size {
                width: depths.width(),
                height: depths.height(),
            });
        }
        let pose = Pose::accept(rows)?;
        Ok(Frame {
            version: settings.version,
            camera: settings.camera,
            max_weight: settings.max_weight,
            pose,
            depths,
        })
    }

    /// The camera that took the depth map.
    pub fn camera(&self) -> &Camera
        ensures value { result.now ≡ self.now.camera }
        ensures frame { IsFrame self.now }
    {
        &self.camera
    }

    /// The pose that the depth map was taken from.
    pub fn pose(&self) -> Pose
        ensures { result ≡ self.now.pose }
    {
        self.pose
    }

    /// Rows of the depth map.
    pub fn height(&self) -> u32
        ensures { result ≡ self.now.depths.height }
    {
        self.depths.height()
    }

    /// The greatest weight of a voxel.
    pub fn max_weight(&self) -> u8
        ensures { result ≡ self.now.max_weight }
    {
        self.max_weight
    }

    /// Whether a block is active for the frame: its centre lies in the sphere before the camera. The update leaves a
    /// block as it is that is not active.
    pub fn is_active(&self, key: BlockKey) -> bool
        ensures value { result ≡ is_active_of self.now key }
        ensures inactive { (voxels : List Voxel) → result ≡ false → length voxels ≡ 512 → updated (view self.now) self.now.max_weight key voxels ≡ voxels }
        ensures frame { IsFrame self.now }
    {
        self.camera.active(&self.pose, key)
    }

    /// The frame's truncation band, by the slopes of its camera's pixels.
    pub fn band<'a>(&'a self, slopes: &'a Slopes) -> Band<'a>
        requires { slopes.now.fields ≡ self.now.camera }
        ensures camera { result.camera.now ≡ self.now.camera }
        ensures pose { result.pose.now ≡ self.now.pose }
        ensures frame { result.frame.now ≡ self.now.depths }
    {
        Band::of(&self.camera, &self.pose, slopes, &self.depths)
    }

    /// Replaces the depths by those of the frame's pixels. The memory of the depths before is used again.
    ///
    /// # Errors
    ///
    /// Out of memory. The depths are not known then.
    pub fn fill(&self, depths: &mut Depths) -> Result<(), NoMemory>
        ensures { OnOk result (depths.new ≡ depth_list self.now.camera self.now.depths) }
    {
        depths.fill(&self.camera, &self.depths)
    }

    /// The update of blocks by the frame, by the depths of its pixels.
    pub fn kernel<'a>(&'a self, depths: &'a Depths) -> Kernel<'a>
        requires { depths.now ≡ depth_list self.now.camera self.now.depths }
        ensures { IsKernelOf self.now result }
    {
        Kernel::of(&self.camera, &self.pose, depths, self.max_weight)
    }

    /// Updates every voxel of a block, by the frame's kernel.
    pub fn update(&self, kernel: &Kernel<'_>, block: &mut Block, key: BlockKey)
        requires { IsKernelOf self.now kernel.now }
        ensures { block.new ≡ updated (view self.now) self.now.max_weight key block.old }
    {
        // A frame's depth map has the sides of the camera's image.
        let _ = &self.version;
        kernel.update(block, key);
    }
}

/// Whether a depth map has the sides of the camera's image.
fn has_size(camera: &Camera, depths: &DepthFrame) -> bool
    ensures value { result ≡ has_size_of camera.now depths.now }
    ensures camera { IsCamera camera.now }
{
    let fields = camera.fields();
    is_side(depths.width(), fields.width) && is_side(depths.height(), fields.height)
}

fn is_side(side: u32, wanted: i64) -> bool
    ensures { result ≡ int_eq (pos side) wanted }
{
    i64::from(side) == wanted
}
